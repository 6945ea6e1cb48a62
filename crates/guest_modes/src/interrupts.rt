//! Which interrupt is taken.

ghost use Rattle.std.specs.Bool.{OnTrue, OnFalse};
ghost use Rattle.std.specs.Prelude.{◌≡◌, ◌≢◌, ℕ, None, ◌<◌, ◌↔◌, ◌&&◌, IsTrue, IsNone, IfSome, bit_and};
ghost use Rattle.ctr_csrs.specs.declared.mode.Mode.{Mode};
ghost use Rattle.guest_modes.specs.Interrupts.{allows, is_candidate, first_for, next_interrupt, IsFirst, NoCandidate};
ghost use Rattle.guest_modes.specs.Numbers.{is_in};
ghost use Rattle.guest_modes.specs.Traps.{interrupt_order, interrupt_taker, is_same, is_cause, is_trap_between};

use crate::causes::INTERRUPTS;
use crate::registers::Priv;
use crate::targets::{Trap, has, trap_target};
use ctr_csrs::Mode;

/// Whether the number is that of an interrupt (RISC-V Privileged Architecture, "Machine Interrupt
/// Registers").
pub fn is_interrupt(number: u8) -> bool
    ensures { result ≡ is_in number interrupt_order }
{
    number < 64 && has(INTERRUPTS, number)
}

/// The number of the interrupt that is taken while the hart runs in `mode`, or `None` where none can be taken (RISC-V
/// Privileged Architecture, "Machine Interrupt Registers" and "Hypervisor Interrupt Registers").
pub fn pick_interrupt(p: &Priv, mode: Mode) -> Option<u8>
    ensures picked { result ≡ next_interrupt p.now mode }
    ensures first { (i : ℕ) → (result ≡ Some i) ↔ IsFirst p.now mode i }
    ensures none { IsNone result ↔ NoCandidate p.now mode }
    ensures cause { IfSome result (λ i. IsTrue (is_cause (Trap.Interrupt i))) }
    ensures between { IfSome result (λ i. IsTrue (is_trap_between mode (interrupt_taker p.now i))) }
{
    first_of_all(p, mode)
}

// Candidates for M come first, then those for S, then those for VS.
fn first_of_all(p: &Priv, mode: Mode) -> Option<u8>
    ensures { result ≡ next_interrupt p.now mode }
{
    if is_quiet(p) {
        return None;
    }
    if let Some(cause) = first_taken_by(p, mode, Mode::M) {
        return Some(cause);
    }
    if let Some(cause) = first_taken_by(p, mode, Mode::S) {
        return Some(cause);
    }
    first_taken_by(p, mode, Mode::Vs)
}

/// Whether no interrupt is both pending and enabled, as at nearly every step: then none is taken, in
/// no mode (Privileged Architecture, "Machine Interrupt Registers").
#[inline(always)]
pub fn is_quiet(p: &Priv) -> bool
    ensures yes { OnTrue result (bit_and p.now.mip p.now.mie ≡ 0) }
    ensures no { OnFalse result (bit_and p.now.mip p.now.mie ≢ 0) }
    ensures none { OnTrue result ((mode : Mode) → next_interrupt p.now mode ≡ None) }
{
    p.mip.get() & p.mie.get() == 0
}

macro_rules! first_candidate {
    ($p:ident, $mode:ident, $target:ident: $($cause:literal)*) => {
        $(
            if is_open($p, $mode, $target, $cause) {
                return Some($cause);
            }
        )*
    };
}

// The first candidate that `target` takes.
fn first_taken_by(p: &Priv, mode: Mode, target: Mode) -> Option<u8>
    ensures { result ≡ first_for p.now mode target }
{
    first_candidate!(p, mode, target: 11 3 7 9 1 5 10 2 6 13);
    None
}

// Whether the interrupt is a candidate that `target` takes.
fn is_open(p: &Priv, mode: Mode, target: Mode, cause: u8) -> bool
    requires { IsTrue (is_in cause interrupt_order) }
    ensures { result
        ≡ (is_candidate p.now mode cause && is_same (interrupt_taker p.now cause) target) }
{
    has(p.mip.get(), cause)
        && has(p.mie.get(), cause)
        && trap_target(p, mode, Trap::Interrupt(cause)) == target
        && lets_in(p, target, mode)
}

// Whether interrupts that `target` takes are enabled while the hart runs in `mode`.
fn lets_in(p: &Priv, target: Mode, mode: Mode) -> bool
    ensures { result ≡ allows p.now target mode }
{
    match target {
        Mode::M => match mode {
            Mode::M => has(p.mstatus.get(), 3),
            Mode::S | Mode::U | Mode::Vs | Mode::Vu => true,
        },
        Mode::S => match mode {
            Mode::M => false,
            Mode::S => has(p.mstatus.get(), 1),
            Mode::U | Mode::Vs | Mode::Vu => true,
        },
        Mode::Vs => match mode {
            Mode::M | Mode::S | Mode::U => false,
            Mode::Vs => has(p.vsstatus.get(), 1),
            Mode::Vu => true,
        },
        Mode::U | Mode::Vu => false,
    }
}
