//! The bits of the control registers, each with its place.

ghost use Rattle.std.specs.Prelude.{◌≡◌, ◌<◌};
ghost use Rattle.ctr_csrs.specs.ControlFigure.{place_of};

/// A bit of `mctrctl`, `sctrctl` or `vsctrctl` (RISC-V Control Transfer Records 1.0, "Machine Control Transfer
/// Records Control Register"). Each variant has the field's name there.
#[derive(Clone, Copy, Debug, PartialEq, Eq)]
pub enum ControlBit {
    /// Bit 0: records in U, or in VU where the register is `vsctrctl`.
    U,

    /// Bit 1: records in S, or in VS where the register is `vsctrctl`.
    S,

    /// Bit 2: records in M. Of `mctrctl` alone.
    M,

    /// Bit 7: emulates a return stack, so that calls push, returns pop, and nothing else is recorded.
    Rasemu,

    /// Bit 8: lets a trap out of an enabled mode into a disabled S or VS be recorded.
    Ste,

    /// Bit 9: lets a trap out of an enabled mode into a disabled M be recorded. Of `mctrctl` alone.
    Mte,

    /// Bit 11: a breakpoint exception sets FROZEN.
    Bpfrz,

    /// Bit 12: a local counter overflow interrupt sets FROZEN.
    Lcofifrz,

    /// Bit 33: inhibits exceptions.
    Excinh,

    /// Bit 34: inhibits interrupts.
    Intrinh,

    /// Bit 35: inhibits trap returns.
    Tretinh,

    /// Bit 36: enables branches that aren't taken. The only filter bit that lets in, where the others keep out.
    Ntbren,

    /// Bit 37: inhibits taken branches.
    Tkbrinh,

    /// Bit 40: inhibits indirect calls.
    Indcallinh,

    /// Bit 41: inhibits direct calls.
    Dircallinh,

    /// Bit 42: inhibits indirect jumps without linkage.
    Indjmpinh,

    /// Bit 43: inhibits direct jumps without linkage.
    Dirjmpinh,

    /// Bit 44: inhibits co-routine swaps.
    Corswapinh,

    /// Bit 45: inhibits function returns.
    Retinh,

    /// Bit 46: inhibits other indirect jumps with linkage.
    Indljmpinh,

    /// Bit 47: inhibits other direct jumps with linkage.
    Dirljmpinh,
}

// Where the bit stands in its register.
pub(crate) fn place(bit: ControlBit) -> u32
    ensures is { result ≡ place_of bit }
    ensures within { result < 48 }
{
    match bit {
        ControlBit::U => 0,
        ControlBit::S => 1,
        ControlBit::M => 2,
        ControlBit::Rasemu => 7,
        ControlBit::Ste => 8,
        ControlBit::Mte => 9,
        ControlBit::Bpfrz => 11,
        ControlBit::Lcofifrz => 12,
        ControlBit::Excinh => 33,
        ControlBit::Intrinh => 34,
        ControlBit::Tretinh => 35,
        ControlBit::Ntbren => 36,
        ControlBit::Tkbrinh => 37,
        ControlBit::Indcallinh => 40,
        ControlBit::Dircallinh => 41,
        ControlBit::Indjmpinh => 42,
        ControlBit::Dirjmpinh => 43,
        ControlBit::Corswapinh => 44,
        ControlBit::Retinh => 45,
        ControlBit::Indljmpinh => 46,
        ControlBit::Dirljmpinh => 47,
    }
}
