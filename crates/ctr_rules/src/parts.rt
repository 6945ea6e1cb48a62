//! What the recording table asks of a transfer and of the controls.

ghost use Rattle.std.specs.Prelude.{◌≡◌, ◌<◌};
ghost use Rattle.ctr_csrs.specs.ControlFigure.{place_of};
ghost use Rattle.ctr_csrs.specs.Modes.{is_virtual};
ghost use Rattle.ctr_rules.specs.Enabled.{enables, mode_bit, trap_enabled};
ghost use Rattle.ctr_rules.specs.FilterBits.{filter_of, filter_bit, lets_in, inhibits};
ghost use Rattle.ctr_rules.specs.FreezeBits.{freezes_in, freezes};
ghost use Rattle.ctr_rules.specs.RowTable.{is_trap};

use crate::transfer::Transfer;
use ctr_csrs::{Control, ControlBit, Mode};
use xfer_class::XferType;

// Whether transfers within the mode are recorded.
#[tactic(auto, using(crate::proofs::BitLemmas::enabled_by_bit))]
#[inline(always)]
pub(crate) fn is_enabled(mode: Mode, m: Control, vs: Control) -> bool
    ensures { result ≡ enables m vs mode }
{
    let word = if is_guest(mode) { vs } else { m };
    word.on(mode_bit(mode))
}

// Whether transfers within the mode after a transfer are recorded, where this is known of the mode
// before it. Most transfers stay in their mode.
#[inline(always)]
pub(crate) fn is_target_enabled(transfer: Transfer, from: bool, m: Control, vs: Control) -> bool
    requires { from ≡ enables m vs transfer.from }
    ensures { result ≡ enables m vs transfer.to }
{
    if transfer.to == transfer.from {
        from
    } else {
        is_enabled(transfer.to, m, vs)
    }
}

// The bit of a control register that enables the mode. Without a jump for each mode.
#[inline(always)]
fn mode_bit(mode: Mode) -> ControlBit
    ensures { result ≡ mode_bit mode }
{
    match mode {
        Mode::M => ControlBit::M,
        Mode::S | Mode::Vs => ControlBit::S,
        Mode::U | Mode::Vu => ControlBit::U,
    }
}

#[inline(always)]
fn is_guest(mode: Mode) -> bool
    ensures { result ≡ is_virtual mode }
{
    match mode {
        Mode::M | Mode::S | Mode::U => false,
        Mode::Vs | Mode::Vu => true,
    }
}

// The register whose filter bits and RASEMU count.
#[inline(always)]
pub(crate) fn filter_register(transfer: Transfer, m: Control, vs: Control) -> Control
    ensures { result ≡ filter_of transfer m vs }
{
    if is_guest(transfer.from) || is_guest(transfer.to) {
        vs
    } else {
        m
    }
}

#[inline(always)]
pub(crate) fn is_of_a_trap(kind: XferType) -> bool
    ensures { result ≡ is_trap kind }
{
    matches!(kind, XferType::Exception | XferType::Interrupt)
}

// Whether the filter register keeps the transfer type out.
#[tactic(auto, using(crate::proofs::BitLemmas::inhibited_by_bit))]
#[inline(always)]
pub(crate) fn is_inhibited(filter: Control, kind: XferType) -> bool
    ensures { result ≡ inhibits filter kind }
{
    let set = (filter.word() >> filter_place(kind)) % 2 == 1;
    if lets_in(kind) { !set } else { set }
}

// Whether the filter bit of the transfer type lets it in where it is set: NTBREN alone.
#[inline(always)]
fn lets_in(kind: XferType) -> bool
    ensures { result ≡ lets_in kind }
{
    matches!(kind, XferType::NotTaken)
}

// Where the filter bit of a transfer type stands: at 32 and the type's number.
#[inline(always)]
fn filter_place(kind: XferType) -> u32
    ensures place { result ≡ place_of (filter_bit kind) }
    ensures within { result < 64 }
{
    u32::from(kind.code()) + 32
}

// Whether a trap out of an enabled mode into a disabled one is recorded.
pub(crate) fn is_external_enabled(from: Mode, to: Mode, m: Control, vs: Control) -> bool
    ensures { result ≡ trap_enabled from to m vs }
{
    let m_mte = m.on(ControlBit::Mte);
    let m_ste = m.on(ControlBit::Ste);
    let vs_ste = vs.on(ControlBit::Ste);
    match (from, to) {
        (Mode::U, Mode::S) => m_ste,
        (Mode::U, Mode::M) => m_mte && m_ste,
        (Mode::S, Mode::M) => m_mte,
        (Mode::Vu, Mode::Vs) => vs_ste,
        (Mode::Vu, Mode::S) => m_ste && vs_ste,
        (Mode::Vu, Mode::M) => m_mte && m_ste && vs_ste,
        (Mode::Vs, Mode::S) => m_ste,
        (Mode::Vs, Mode::M) => m_ste && m_mte,
        _ => false,
    }
}

// Whether a freeze bit counts for a trap into this mode, and is set.
fn is_freeze_bit_set(to: Mode, m: Control, vs: Control, bit: ControlBit) -> bool
    ensures { result ≡ freezes_in to m vs bit }
{
    match to {
        Mode::M | Mode::S => m.on(bit),
        Mode::Vs => vs.on(bit),
        Mode::U | Mode::Vu => false,
    }
}

// Whether the transfer sets FROZEN. Most transfers are neither a breakpoint nor an overflow.
#[inline(always)]
pub(crate) fn is_freeze(transfer: Transfer, m: Control, vs: Control) -> bool
    ensures { result ≡ freezes transfer m vs }
{
    transfer.breakpoint && is_freeze_bit_set(transfer.to, m, vs, ControlBit::Bpfrz)
        || transfer.lcofi && is_freeze_bit_set(transfer.to, m, vs, ControlBit::Lcofifrz)
}
