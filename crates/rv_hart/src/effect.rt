// What instructions do to the registers and to memory, and how they go on.
ghost use Rattle.std.specs.Prelude.{◌≡◌, ℕ, ◌<◌, ◌≤◌, ◌%◌, List, None, length};
ghost use Rattle.std.specs.Option.{IfSome};
ghost use Rattle.rv_decode.specs.Rows.{NumbersFit};
ghost use Rattle.rv_hart.specs.Processor.{plus, put};
ghost use Rattle.rv_hart.specs.Effect.{effect, jumps, branches, jump_of, loads, stores, IsJump, IsSound, call_cause, machine_return, supervisor_return};

use crate::memory::{TaskMem, count};
use crate::outcome::{Jump, Outcome};
use crate::processor::Core;
use ctr_csrs::Mode;
use guest_modes::{
    BREAKPOINT, ENVIRONMENT_CALL_FROM_M, ENVIRONMENT_CALL_FROM_S, ENVIRONMENT_CALL_FROM_U,
    ENVIRONMENT_CALL_FROM_VS, ILLEGAL_INSTRUCTION, INSTRUCTION_ADDRESS_MISALIGNED,
    LOAD_ACCESS_FAULT, LOAD_ADDRESS_MISALIGNED, Ret, STORE_ACCESS_FAULT, STORE_ADDRESS_MISALIGNED,
    VIRTUAL_INSTRUCTION,
};
use rv_alu::{apply, taken};
use rv_decode::{Instr, Width};
use xfer_class::{class_of, missed};

// The next instruction comes.
#[inline(always)]
fn next(core: &Core) -> Outcome
    ensures outcome { result ≡ Outcome.Goes None (plus core.now.pc 4) }
    ensures sound { IsSound result }
{
    Outcome::Goes(None, core.after())
}

// Writes a value to rd.
#[inline(always)]
fn give(core: &mut Core, rd: u8, value: u64) -> Outcome
    requires { rd < 32 }
    ensures core { core.new ≡ put core.old rd value }
    ensures outcome { result ≡ Outcome.Goes None (plus core.old.pc 4) }
    ensures sound { IsSound result }
{
    core.put(rd, value);
    next(core)
}

// The jump or branch that an instruction is.
#[inline(always)]
fn jump_of(instr: Instr, taken: bool) -> Option<Jump>
    ensures jump { result ≡ jump_of instr taken }
    ensures sound { IfSome result IsJump }
{
    match class_of(instr, taken) {
        Some(kind) => Some(Jump {
            kind,
            misp: missed(instr, taken),
        }),
        None => None,
    }
}

// Jumps to a target, with the address after the jump in rd.
#[inline(always)]
fn jump(core: &mut Core, jump: Option<Jump>, rd: u8, target: u64) -> Outcome
    requires rd { rd < 32 }
    requires jump { IfSome jump IsJump }
    ensures effect { (bytes : List ℕ) → record { core = core.new; bytes = bytes; outcome = result }
        ≡ jumps jump rd target core.old bytes }
    ensures sound { IsSound result }
{
    if target % 4 != 0 {
        return Outcome::Raises(INSTRUCTION_ADDRESS_MISALIGNED, target);
    }
    let link = core.after();
    core.put(rd, link);
    Outcome::Goes(jump, target)
}

// Branches, or not.
#[inline(always)]
fn branch(core: &Core, taken: bool, jump: Option<Jump>, target: u64) -> Outcome
    requires { IfSome jump IsJump }
    ensures effect { (bytes : List ℕ) → record { core = core.now; bytes = bytes; outcome = result }
        ≡ branches taken jump target core.now bytes }
    ensures sound { IsSound result }
{
    if !taken {
        return Outcome::Goes(jump, core.after());
    }
    if target % 4 != 0 {
        return Outcome::Raises(INSTRUCTION_ADDRESS_MISALIGNED, target);
    }
    Outcome::Goes(jump, target)
}

#[inline(always)]
fn load(core: &mut Core, mem: &TaskMem, width: Width, signed: bool, rd: u8, address: u64) -> Outcome
    requires { rd < 32 }
    ensures effect { record { core = core.new; bytes = mem.now; outcome = result }
        ≡ loads width signed rd address core.old mem.now }
    ensures sound { IsSound result }
{
    let bytes = count(width);
    if address % bytes != 0 {
        return Outcome::Raises(LOAD_ADDRESS_MISALIGNED, address);
    }
    match mem.place(address, bytes) {
        Some(at) => {
            let value = mem.load(width, signed, at);
            give(core, rd, value)
        }
        None => Outcome::Raises(LOAD_ACCESS_FAULT, address),
    }
}

#[inline(always)]
fn store(core: &Core, mem: &mut TaskMem, width: Width, value: u64, address: u64) -> Outcome
    ensures effect { record { core = core.now; bytes = mem.new; outcome = result }
        ≡ stores width value address core.now mem.old }
    ensures sound { IsSound result }
{
    let bytes = count(width);
    if address % bytes != 0 {
        return Outcome::Raises(STORE_ADDRESS_MISALIGNED, address);
    }
    match mem.place(address, bytes) {
        Some(at) => {
            mem.store(width, value, at);
            next(core)
        }
        None => Outcome::Raises(STORE_ACCESS_FAULT, address),
    }
}

// The exception of an environment call.
fn call(mode: Mode) -> Outcome
    ensures outcome { result ≡ Outcome.Raises (call_cause mode) 0 }
    ensures sound { IsSound result }
{
    let cause = match mode {
        Mode::M => ENVIRONMENT_CALL_FROM_M,
        Mode::S => ENVIRONMENT_CALL_FROM_S,
        Mode::Vs => ENVIRONMENT_CALL_FROM_VS,
        Mode::U | Mode::Vu => ENVIRONMENT_CALL_FROM_U,
    };
    Outcome::Raises(cause, 0)
}

fn mret(mode: Mode, word: u32) -> Outcome
    ensures outcome { result ≡ machine_return mode word }
    ensures sound { IsSound result }
{
    match mode {
        Mode::M => Outcome::Returns(Ret::Mret),
        Mode::S | Mode::U | Mode::Vs | Mode::Vu => Outcome::Raises(
            ILLEGAL_INSTRUCTION,
            u64::from(word),
        ),
    }
}

fn sret(mode: Mode, word: u32) -> Outcome
    ensures outcome { result ≡ supervisor_return mode word }
    ensures sound { IsSound result }
{
    match mode {
        Mode::M | Mode::S => Outcome::Returns(Ret::SretHs),
        Mode::Vs => Outcome::Returns(Ret::SretVs),
        Mode::U => Outcome::Raises(ILLEGAL_INSTRUCTION, u64::from(word)),
        Mode::Vu => Outcome::Raises(VIRTUAL_INSTRUCTION, u64::from(word)),
    }
}

/// Executes an instruction, whose word is given too, but for the accesses to registers and SCTRCLR, which have no effect
/// here.
#[inline(always)]
pub(crate) fn execute(core: &mut Core, mem: &mut TaskMem, instr: Instr, word: u32) -> Outcome
    requires { NumbersFit instr }
    ensures effect { record { core = core.new; bytes = mem.new; outcome = result }
        ≡ effect instr word core.old mem.old }
    ensures sound { IsSound result }
{
    match instr {
        Instr::Lui { rd, imm } => give(core, rd, imm),
        Instr::Auipc { rd, imm } => {
            let sum = core.pc.wrapping_add(imm);
            give(core, rd, sum)
        }
        Instr::Jal { rd, off } => {
            let target = core.pc.wrapping_add(off);
            jump(core, jump_of(instr, false), rd, target)
        }
        Instr::Jalr { rd, rs1, off } => {
            let sum = core.reg(rs1).wrapping_add(off);
            jump(core, jump_of(instr, false), rd, sum / 2 * 2)
        }
        Instr::Branch {
            cond,
            rs1,
            rs2,
            off,
        } => {
            let taken = taken(cond, core.reg(rs1), core.reg(rs2));
            let target = core.pc.wrapping_add(off);
            branch(core, taken, jump_of(instr, taken), target)
        }
        Instr::Load {
            width,
            signed,
            rd,
            rs1,
            off,
        } => {
            let address = core.reg(rs1).wrapping_add(off);
            load(core, mem, width, signed, rd, address)
        }
        Instr::Store {
            width,
            rs1,
            rs2,
            off,
        } => {
            let address = core.reg(rs1).wrapping_add(off);
            store(core, mem, width, core.reg(rs2), address)
        }
        Instr::AluImm { op, rd, rs1, imm } => {
            let value = apply(op, core.reg(rs1), imm);
            give(core, rd, value)
        }
        Instr::Alu { op, rd, rs1, rs2 } => {
            let value = apply(op, core.reg(rs1), core.reg(rs2));
            give(core, rd, value)
        }
        Instr::Ecall => call(core.mode),
        Instr::Ebreak => Outcome::Raises(BREAKPOINT, 0),
        Instr::Mret => mret(core.mode, word),
        Instr::Sret => sret(core.mode, word),
        Instr::Fence | Instr::FenceI | Instr::Wfi | Instr::Csr { .. } | Instr::CtrClr => next(core),
    }
}
