//! What taking a trap does.

ghost use Rattle.std.specs.Prelude.{◌≡◌, ◌≢◌, ◌<◌, ◌%◌, IsTrue};
ghost use Rattle.ctr_csrs.specs.declared.mode.Mode.{Mode};
ghost use Rattle.guest_modes.specs.Entry.{nominal, supervisor, guest, guest_left, after_trap, after_trap_to_m, after_trap_to_s, after_trap_to_vs, handler_at, handler_of};
ghost use Rattle.guest_modes.specs.Traps.{target_of, is_cause, is_trap_between, as_seen, guest_number, cause_word};

use crate::masked::Masked;
use crate::registers::Priv;
use crate::targets::{Trap, trap_target};
use ctr_bits::Field;
use ctr_csrs::Mode;

/// Takes a trap at `pc` (RISC-V Privileged Architecture, "Trap Entry" of the hypervisor extension). `value` is what the
/// mode that takes it finds in mtval, stval or vstval. Answers that mode and the address of its handler.
pub fn enter_trap(p: &mut Priv, mode: Mode, trap: Trap, pc: u64, value: u64) -> (Mode, u64)
    requires cause { IsTrue (is_cause trap) }
    requires aligned { pc % 4 ≡ 0 }
    requires between { IsTrue (is_trap_between mode (target_of p.old mode trap)) }
    ensures registers { p.new ≡ after_trap p.old mode trap pc value }
    ensures target { result.0 ≡ target_of p.old mode trap }
    ensures handler { result.1 ≡ handler_of p.old mode trap }
    ensures handler_aligned { result.1 % 4 ≡ 0 }
{
    let target = trap_target(p, mode, trap);
    let seen = seen_by(target, trap);
    let vector = match target {
        Mode::M => enter_m(p, mode, seen, pc, value),
        Mode::S => enter_s(p, mode, seen, pc, value),
        Mode::Vs => enter_vs(p, mode, seen, pc, value),
        Mode::U | Mode::Vu => unreachable!(),
    };
    (target, handler(vector, seen))
}

// Answers the trap vector.
fn enter_m(p: &mut Priv, mode: Mode, seen: Trap, pc: u64, value: u64) -> u64
    requires { pc % 4 ≡ 0 }
    ensures registers { p.new ≡ after_trap_to_m p.old mode seen pc value }
    ensures vector { result ≡ p.old.mtvec }
{
    let enabled = Field::<3, 1>::get(p.mstatus.get());
    p.mepc = Masked::of(pc);
    p.mcause = cause(seen);
    p.mtval = value;
    p.mtval2 = 0;
    p.mtinst = 0;
    let status = p.mstatus.put_mpp(privilege(mode));
    p.mstatus = status
        .put::<39, 1>(virtualisation(mode))
        .put::<7, 1>(enabled)
        .put::<3, 1>(0);
    p.mtvec.get()
}

// Answers the trap vector.
fn enter_s(p: &mut Priv, mode: Mode, seen: Trap, pc: u64, value: u64) -> u64
    requires { pc % 4 ≡ 0 }
    ensures registers { p.new ≡ after_trap_to_s p.old mode seen pc value }
    ensures vector { result ≡ p.old.stvec }
{
    let enabled = Field::<1, 1>::get(p.mstatus.get());
    p.sepc = Masked::of(pc);
    p.scause = cause(seen);
    p.stval = value;
    p.htval = 0;
    p.htinst = 0;
    p.mstatus = p
        .mstatus
        .put::<8, 1>(supervisor_bit(mode))
        .put::<5, 1>(enabled)
        .put::<1, 1>(0);
    p.hstatus = guest_status(p.hstatus, mode);
    p.stvec.get()
}

// Answers the trap vector.
fn enter_vs(p: &mut Priv, mode: Mode, seen: Trap, pc: u64, value: u64) -> u64
    requires { pc % 4 ≡ 0 }
    ensures registers { p.new ≡ after_trap_to_vs p.old mode seen pc value }
    ensures vector { result ≡ p.old.vstvec }
{
    let enabled = Field::<1, 1>::get(p.vsstatus.get());
    p.vsepc = Masked::of(pc);
    p.vscause = cause(seen);
    p.vstval = value;
    p.vsstatus = p
        .vsstatus
        .put::<8, 1>(supervisor_bit(mode))
        .put::<5, 1>(enabled)
        .put::<1, 1>(0);
    p.vstvec.get()
}

// The hypervisor's status after a trap to S: the mode that the trap comes from.
fn guest_status(status: Masked<0x180>, mode: Mode) -> Masked<0x180>
    ensures { result ≡ guest_left status mode }
{
    match mode {
        Mode::M | Mode::S | Mode::U => status.put::<7, 1>(0),
        Mode::Vs => status.put::<7, 1>(1).put::<8, 1>(1),
        Mode::Vu => status.put::<7, 1>(1).put::<8, 1>(0),
    }
}

// The trap by the number that the mode which takes it sees: VS sees its interrupts by the numbers of S.
fn seen_by(target: Mode, trap: Trap) -> Trap
    ensures { result ≡ as_seen target trap }
{
    match trap {
        Trap::Exception(_) => trap,
        Trap::Interrupt(number) => match target {
            Mode::Vs => Trap::Interrupt(number_in_guest(number)),
            Mode::M | Mode::S | Mode::U | Mode::Vu => trap,
        },
    }
}

fn number_in_guest(number: u8) -> u8
    ensures { result ≡ guest_number number }
{
    match number {
        2 => 1,
        6 => 5,
        10 => 9,
        _ => number,
    }
}

// What the cause register holds.
fn cause(seen: Trap) -> u64
    ensures { result ≡ cause_word seen }
{
    match seen {
        Trap::Exception(number) => u64::from(number),
        Trap::Interrupt(number) => (1 << 63) + u64::from(number),
    }
}

// The handler's address. Interrupts have one each where the vector's mode is 1.
fn handler(vector: u64, seen: Trap) -> u64
    ensures at { result ≡ handler_at vector seen }
    ensures aligned { result % 4 ≡ 0 }
{
    let base = vector / 4 * 4;
    match seen {
        Trap::Exception(_) => base,
        Trap::Interrupt(number) => {
            if vector % 2 == 1 {
                base.wrapping_add(4 * u64::from(number))
            } else {
                base
            }
        }
    }
}

// The privilege of a mode as MPP holds it.
fn privilege(mode: Mode) -> u64
    ensures is { result ≡ nominal mode }
    ensures fits { result < 4 }
    ensures known { result ≢ 2 }
{
    match mode {
        Mode::M => 3,
        Mode::S | Mode::Vs => 1,
        Mode::U | Mode::Vu => 0,
    }
}

// The privilege of a mode as SPP holds it.
fn supervisor_bit(mode: Mode) -> u64
    ensures is { result ≡ supervisor mode }
    ensures fits { result < 2 }
{
    match mode {
        Mode::S | Mode::Vs => 1,
        Mode::M | Mode::U | Mode::Vu => 0,
    }
}

// The virtualisation mode V of a mode, as MPV holds it.
fn virtualisation(mode: Mode) -> u64
    ensures is { result ≡ guest mode }
    ensures fits { result < 2 }
{
    match mode {
        Mode::M | Mode::S | Mode::U => 0,
        Mode::Vs | Mode::Vu => 1,
    }
}
