//! Laws of the registers, of traps and of returns, in the standard's words.
ghost use Rattle.guest_modes.specs.InterruptLaws.{MaskHasInterrupts, InterruptsWithin, DelegatesInterrupts, DelegatesExceptions};
ghost use Rattle.guest_modes.specs.StatusLaws.{EntryBits, ReturnBits, ReturnGoesBack};
ghost use Rattle.guest_modes.specs.TrapWrites.{TrapWrites, ReturnWrites};
ghost use Rattle.guest_modes.specs.Views.{ViewsReadTheirBits, ViewsWriteTheirBits, GuestSeesItsInterrupts, GuestBitsAreLifted};

/// The laws of registers that show a part of another one: a proof and no work.
pub fn privilege_laws()
    ensures views_read_their_bits { ViewsReadTheirBits }
    ensures views_write_their_bits { ViewsWriteTheirBits }
    ensures guest_sees_its_interrupts { GuestSeesItsInterrupts }
    ensures guest_bits_are_lifted { GuestBitsAreLifted }
{}

/// The interrupts and exceptions for which the registers of traps have bits: a proof and no work.
pub fn interrupt_laws()
    ensures mask_has_interrupts { MaskHasInterrupts }
    ensures interrupts_within { InterruptsWithin }
    ensures delegates_interrupts { DelegatesInterrupts }
    ensures delegates_exceptions { DelegatesExceptions }
{}

/// Each bit of mstatus, hstatus and vsstatus after a trap and after a return, and which other
/// registers these write, with what: a proof and no work.
pub fn status_laws()
    ensures entry_bits { EntryBits }
    ensures return_bits { ReturnBits }
    ensures return_goes_back { ReturnGoesBack }
    ensures trap_writes { TrapWrites }
    ensures return_writes { ReturnWrites }
{}
