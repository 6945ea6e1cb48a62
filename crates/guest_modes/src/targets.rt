//! Which mode takes a trap.

ghost use Rattle.std.specs.Prelude.{◌≡◌, ◌<◌, IsTrue};
ghost use Rattle.guest_modes.specs.Words.{is_on};

use crate::registers::Priv;
use ctr_csrs::Mode;

/// A trap and its number (RISC-V Privileged Architecture, "Machine Cause Register").
#[derive(Clone, Copy, Debug, PartialEq, Eq)]
pub enum Trap {
    /// An exception: 0 to 11 or 22.
    Exception(u8),

    /// An interrupt: 1, 2, 3, 5, 6, 7, 9, 10, 11 or 13.
    Interrupt(u8),
}

ghost use Rattle.guest_modes.specs.Traps.{target_of, is_cause, interrupt_taker, IsTaker, ExceptionIsBetween};

/// The mode that takes a trap which comes from `mode`, by the delegation registers (RISC-V Privileged Architecture,
/// "Machine Trap Delegation Registers" and "Hypervisor Trap Delegation Registers").
pub fn trap_target(p: &Priv, mode: Mode, trap: Trap) -> Mode
    requires { IsTrue (is_cause trap) }
    ensures target { result ≡ target_of p.now mode trap }
    ensures taker { IsTaker result }
    ensures between { ExceptionIsBetween mode trap result }
{
    match trap {
        Trap::Exception(cause) => exception_target(p, mode, cause),
        Trap::Interrupt(cause) => interrupt_target(p, cause),
    }
}

fn exception_target(p: &Priv, mode: Mode, cause: u8) -> Mode
    requires { cause < 64 }
    ensures target { result ≡ target_of p.now mode (Trap.Exception cause) }
    ensures taker { IsTaker result }
    ensures between { ExceptionIsBetween mode (Trap.Exception cause) result }
{
    if !has(p.medeleg.get(), cause) {
        return Mode::M;
    }
    match mode {
        Mode::M => Mode::M,
        Mode::S | Mode::U => Mode::S,
        Mode::Vs | Mode::Vu => {
            if has(p.hedeleg.get(), cause) {
                Mode::Vs
            } else {
                Mode::S
            }
        }
    }
}

// `mideleg` is taken as it reads: the interrupts of VS are always delegated from M.
fn interrupt_target(p: &Priv, cause: u8) -> Mode
    requires { cause < 64 }
    ensures target { result ≡ interrupt_taker p.now cause }
    ensures taker { IsTaker result }
{
    if !has(p.mideleg.get() | 0x444, cause) {
        Mode::M
    } else if has(p.hideleg.get(), cause) {
        Mode::Vs
    } else {
        Mode::S
    }
}

// Whether bit `place` of a word is set.
pub(crate) fn has(word: u64, place: u8) -> bool
    requires { place < 64 }
    ensures { result ≡ is_on word place }
{
    (word >> place) % 2 == 1
}
