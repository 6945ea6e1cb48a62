// What a step of a hart does: it takes an interrupt, or fetches, decodes and executes an instruction.
ghost use Rattle.std.specs.Prelude.{◌≡◌, ◌<◌, ◌%◌, IsTrue, OnErr, cond};
ghost use Rattle.std.specs.Option.{IfSome};
ghost use Rattle.guest_modes.specs.Traps.{is_cause, is_trap_between, target_of, interrupt_taker};
ghost use Rattle.indirect_regs.specs.Access.{access_of};
ghost use Rattle.indirect_regs.specs.Laws.{EventsMakeTheBuffer};
ghost use Rattle.rv_decode.specs.Numbers.{OperandFits};
ghost use Rattle.rv_decode.specs.Rows.{NumbersFit, instruction_of};
ghost use Rattle.rv_hart.specs.Effect.{effect, IsJump, IsSound};
ghost use Rattle.rv_hart.specs.Hart.{machine_of, ran, reached};
ghost use Rattle.rv_hart.specs.Processor.{put, at_next};
ghost use Rattle.rv_hart.specs.Step.{use_of, is_zero, operand, type_of_trap, is_breakpoint, is_overflow, lowered, trapped, returned, went, concluded, by_effect, refused, by_access, clears, executed, by_instruction, by_word, fetched, made};

use crate::effect::execute;
use crate::hart::Hart;
use crate::memory::TaskMem;
use crate::outcome::{Jump, Outcome};
use crate::transfers::carry;
use ctr_buffer::CtrStore;
use ctr_csrs::Mode;
use ctr_rules::Transfer;
use guest_modes::{
    BREAKPOINT, CsrFault, ILLEGAL_INSTRUCTION, INSTRUCTION_ACCESS_FAULT, LOCAL_COUNTER_OVERFLOW,
    Ret, Trap, VIRTUAL_INSTRUCTION, enter_trap, is_quiet, leave_trap, pick_interrupt, trap_target,
};
use indirect_regs::{CsrUse, access, register_laws};
use rv_alu::taken;
use rv_decode::{CsrArg, CsrOp, Instr, Width, decode};
use xfer_class::XferType;

impl<B: CtrStore> Hart<B> {
    // Takes a trap.
    fn trap(&mut self, trap: Trap, value: u64)
        requires cause { IsTrue (is_cause trap) }
        requires between { IsTrue
            (is_trap_between self.old.core.mode
            (target_of self.old.core.csrs self.old.core.mode trap)) }
        ensures { self.new ≡ ran self.old (trapped trap value self.old.core self.old.unit) }
    {
        let from = self.core.mode;
        let source = self.core.pc;
        let (to, target) = enter_trap(&mut self.core.csrs, from, trap, source, value);
        self.core.mode = to;
        self.core.pc = target;
        carry(
            &mut self.unit,
            Transfer {
                from,
                to,
                kind: type_of_trap(trap),
                source,
                target,
                breakpoint: is_breakpoint(trap),
                lcofi: is_overflow(trap),
                misp: false,
            },
        );
    }

    // Raises an exception.
    #[inline(never)]
    fn raise(&mut self, cause: u8, value: u64)
        requires { IsTrue (is_cause (Trap.Exception cause)) }
        ensures { self.new
            ≡ ran self.old (trapped (Trap.Exception cause) value self.old.core self.old.unit) }
    {
        // For its clause: the modes of an exception are the same, or a pair of the table of traps.
        let _target = trap_target(&self.core.csrs, self.core.mode, Trap::Exception(cause));
        self.trap(Trap::Exception(cause), value);
    }

    // Returns from a trap.
    #[inline(never)]
    fn leave(&mut self, ret: Ret)
        ensures { self.new ≡ ran self.old (returned ret self.old.core self.old.unit) }
    {
        let from = self.core.mode;
        let source = self.core.pc;
        let (to, target) = leave_trap(&mut self.core.csrs, ret);
        self.core.mode = to;
        self.core.pc = target;
        let transfer = Transfer {
            from,
            to,
            kind: XferType::TrapReturn,
            source,
            target,
            breakpoint: false,
            lcofi: false,
            misp: false,
        };
        carry(&mut self.unit, transfer);
    }

    // Goes on at an address, by a jump or a branch if it is one.
    #[inline(always)]
    fn go(&mut self, jump: Option<Jump>, pc: u64)
        requires pc { pc % 4 ≡ 0 }
        requires jump { IfSome jump IsJump }
        ensures { self.new ≡ ran self.old (went jump pc self.old.core self.old.unit) }
    {
        let source = self.core.pc;
        self.core.pc = pc;
        if let Some(jump) = jump {
            let transfer = Transfer {
                from: self.core.mode,
                to: self.core.mode,
                kind: jump.kind,
                source,
                target: pc,
                breakpoint: false,
                lcofi: false,
                misp: jump.misp,
            };
            carry(&mut self.unit, transfer);
        }
    }

    // Goes on as the outcome of an instruction says.
    #[inline(always)]
    fn conclude(&mut self, outcome: Outcome)
        requires { IsSound outcome }
        ensures { self.new ≡ ran self.old (concluded outcome self.old.core self.old.unit) }
    {
        match outcome {
            Outcome::Goes(jump, pc) => self.go(jump, pc),
            Outcome::Returns(ret) => self.leave(ret),
            Outcome::Raises(cause, value) => self.raise(cause, value),
        }
    }

    // What a CSR instruction does with its register.
    fn csr_use(&self, op: CsrOp, arg: CsrArg) -> CsrUse
        requires { OperandFits arg }
        ensures { result ≡ use_of op arg self.now.core }
    {
        let operand = self.operand(arg);
        match op {
            CsrOp::Write => CsrUse::Write(operand),
            CsrOp::Set => if_writes(arg, CsrUse::Set(operand)),
            CsrOp::Clear => if_writes(arg, CsrUse::Clear(operand)),
        }
    }

    fn operand(&self, arg: CsrArg) -> u64
        requires { OperandFits arg }
        ensures { result ≡ operand arg self.now.core }
    {
        match arg {
            CsrArg::Reg(r) => self.core.reg(r),
            CsrArg::Imm(n) => u64::from(n),
        }
    }

    // Reads and writes a register by its number.
    fn use_register(&mut self, op: CsrUse, csr: u16) -> Result<u64, CsrFault>
        ensures answer { result
            ≡ (access_of self.old.unit self.old.core.csrs self.old.core.mode csr op).answer }
        ensures hart { self.new ≡ reached self.old
            (access_of self.old.unit self.old.core.csrs self.old.core.mode csr op) }
        ensures refused { OnErr result (self.new ≡ self.old) }
        ensures events { EventsMakeTheBuffer }
    {
        register_laws();
        let mode = self.core.mode;
        access(&mut self.unit, &mut self.core.csrs, mode, csr, op)
    }

    // Writes rd and goes on.
    fn give(&mut self, rd: u8, value: u64)
        requires { rd < 32 }
        ensures { self.new ≡ record self.old { core = at_next (put self.old.core rd value) } }
    {
        self.core.put(rd, value);
        self.core.advance();
    }

    // A register could not be accessed.
    fn refuse(&mut self, fault: CsrFault, word: u32)
        ensures { self.new ≡ ran self.old (refused fault word self.old.core self.old.unit) }
    {
        match fault {
            CsrFault::Illegal => self.raise(ILLEGAL_INSTRUCTION, u64::from(word)),
            CsrFault::Virtual => self.raise(VIRTUAL_INSTRUCTION, u64::from(word)),
        }
    }

    // Accesses a register; rd takes its old value.
    #[inline(never)]
    fn access(&mut self, op: CsrUse, rd: u8, csr: u16, word: u32)
        requires { rd < 32 }
        ensures { self.new ≡ ran self.old
            (by_access (access_of self.old.unit self.old.core.csrs self.old.core.mode csr op) rd
            word self.old.core self.old.unit) }
    {
        match self.use_register(op, csr) {
            Ok(old) => self.give(rd, old),
            Err(fault) => self.refuse(fault, word),
        }
    }

    // Makes every entry zero, where the mode may.
    #[inline(never)]
    fn clear_records(&mut self, word: u32)
        ensures { self.new
            ≡ ran self.old (clears self.old.core.mode word self.old.core self.old.unit) }
    {
        match self.core.mode {
            Mode::U => self.raise(ILLEGAL_INSTRUCTION, u64::from(word)),
            Mode::Vu => self.raise(VIRTUAL_INSTRUCTION, u64::from(word)),
            Mode::M | Mode::S | Mode::Vs => {
                self.core.advance();
                self.unit.clear();
            }
        }
    }

    // Executes an instruction that is neither an access to a register nor SCTRCLR.
    #[inline(always)]
    fn perform(&mut self, mem: &mut TaskMem, instr: Instr, word: u32)
        requires { NumbersFit instr }
        ensures hart { self.new
            ≡ ran self.old (by_effect (effect instr word self.old.core mem.old) self.old.unit) }
        ensures mem { mem.new ≡ (effect instr word self.old.core mem.old).bytes }
    {
        let outcome = execute(&mut self.core, mem, instr, word);
        self.conclude(outcome);
    }

    // Executes an instruction, whose word is given too.
    fn execute(&mut self, mem: &mut TaskMem, instr: Instr, word: u32)
        requires { NumbersFit instr }
        ensures hart { self.new
            ≡ ran self.old (executed instr word self.old.core self.old.unit mem.old) }
        ensures mem { mem.new ≡ (effect instr word self.old.core mem.old).bytes }
    {
        match instr {
            Instr::Csr { op, rd, arg, csr } => self.access(self.csr_use(op, arg), rd, csr, word),
            Instr::CtrClr => self.clear_records(word),
            // The same for each, but each a copy of its own, in which the compiler knows the
            // instruction, and of a jump or a branch the type of its transfer and so the bits of
            // the controls that count. Those of one kind are built anew, or it makes one copy of
            // them again.
            Instr::Lui { .. } => self.perform(mem, instr, word),
            Instr::Auipc { .. } => self.perform(mem, instr, word),
            Instr::Jal { rd: 0, off } => self.perform(mem, Instr::Jal { rd: 0, off }, word),
            Instr::Jal { rd: 1, off } => self.perform(mem, Instr::Jal { rd: 1, off }, word),
            Instr::Jal { .. } => self.perform(mem, instr, word),
            Instr::Jalr { rd: 0, rs1: 1, off } => {
                let back = Instr::Jalr { rd: 0, rs1: 1, off };
                self.perform(mem, back, word);
            }
            Instr::Jalr { .. } => self.perform(mem, instr, word),
            Instr::Branch {
                cond,
                rs1,
                rs2,
                off,
            } => {
                if taken(cond, self.core.reg(rs1), self.core.reg(rs2)) {
                    self.perform(mem, instr, word);
                } else {
                    let passed = Instr::Branch {
                        cond,
                        rs1,
                        rs2,
                        off,
                    };
                    self.perform(mem, passed, word);
                }
            }
            Instr::Load {
                width: Width::B,
                signed: true,
                ..
            } => self.perform(mem, instr, word),
            Instr::Load {
                width: Width::H,
                signed: true,
                ..
            } => self.perform(mem, instr, word),
            Instr::Load {
                width: Width::W,
                signed: true,
                ..
            } => self.perform(mem, instr, word),
            Instr::Load {
                width: Width::D,
                signed: true,
                ..
            } => self.perform(mem, instr, word),
            Instr::Load {
                width: Width::B,
                signed: false,
                ..
            } => self.perform(mem, instr, word),
            Instr::Load {
                width: Width::H,
                signed: false,
                ..
            } => self.perform(mem, instr, word),
            Instr::Load {
                width: Width::W,
                signed: false,
                ..
            } => self.perform(mem, instr, word),
            Instr::Store {
                width: Width::B,
                ..
            } => self.perform(mem, instr, word),
            Instr::Store {
                width: Width::H,
                ..
            } => self.perform(mem, instr, word),
            Instr::Store {
                width: Width::W,
                ..
            } => self.perform(mem, instr, word),
            Instr::Store {
                width: Width::D,
                ..
            } => self.perform(mem, instr, word),
            Instr::AluImm { .. } => self.perform(mem, instr, word),
            Instr::Alu { .. } => self.perform(mem, instr, word),
            _ => self.perform(mem, instr, word),
        }
    }

    // The word at the program counter, where it lies in memory.
    fn fetch(&self, mem: &TaskMem) -> Option<u32>
        ensures { result ≡ fetched (machine_of self.now mem.now) }
    {
        match mem.place(self.core.pc, 4) {
            Some(at) => Some(mem.word(at)),
            None => None,
        }
    }

    // Decodes a word and executes it.
    fn run_word(&mut self, mem: &mut TaskMem, word: u32)
        ensures hart { self.new ≡ ran self.old
            (by_instruction (instruction_of word) word (machine_of self.old mem.old)).step }
        ensures mem { mem.new
            ≡ (by_instruction (instruction_of word) word (machine_of self.old mem.old)).mem }
    {
        match decode(word) {
            Some(instr) => self.execute(mem, instr, word),
            None => self.raise(ILLEGAL_INSTRUCTION, u64::from(word)),
        }
    }

    // Executes the instruction at the program counter. Never inlined, so that it and not the loop
    // around it has the registers of the host.
    #[inline(never)]
    fn run(&mut self, mem: &mut TaskMem)
        ensures hart { self.new ≡ ran self.old
            (by_word (fetched (machine_of self.old mem.old)) (machine_of self.old mem.old)).step }
        ensures mem { mem.new
            ≡ (by_word (fetched (machine_of self.old mem.old)) (machine_of self.old mem.old)).mem }
    {
        match self.fetch(mem) {
            Some(word) => self.run_word(mem, word),
            None => self.raise(INSTRUCTION_ACCESS_FAULT, self.core.pc),
        }
    }

    // Takes an interrupt, which is then pending no longer.
    #[inline(never)]
    fn interrupt(&mut self, cause: u8)
        requires cause { IsTrue (is_cause (Trap.Interrupt cause)) }
        requires between { IsTrue
            (is_trap_between self.old.core.mode (interrupt_taker self.old.core.csrs cause)) }
        ensures { self.new ≡ ran self.old
            (trapped (Trap.Interrupt cause) 0 (lowered cause self.old.core) self.old.unit) }
    {
        self.core.csrs.lower(cause);
        self.trap(Trap::Interrupt(cause), 0);
    }

    // Takes an interrupt or executes an instruction, where an interrupt is pending and enabled.
    #[inline(never)]
    fn attend(&mut self, mem: &mut TaskMem)
        ensures hart { self.new ≡ ran self.old (made (machine_of self.old mem.old)).step }
        ensures mem { mem.new ≡ (made (machine_of self.old mem.old)).mem }
    {
        match pick_interrupt(&self.core.csrs, self.core.mode) {
            Some(cause) => self.interrupt(cause),
            None => self.run(mem),
        }
    }

    // Takes an interrupt or executes an instruction.
    #[inline(always)]
    pub(crate) fn make(&mut self, mem: &mut TaskMem)
        ensures hart { self.new ≡ ran self.old (made (machine_of self.old mem.old)).step }
        ensures mem { mem.new ≡ (made (machine_of self.old mem.old)).mem }
    {
        if is_quiet(&self.core.csrs) {
            self.run(mem);
        } else {
            self.attend(mem);
        }
    }
}

fn type_of_trap(trap: Trap) -> XferType
    ensures { result ≡ type_of_trap trap }
{
    match trap {
        Trap::Exception(_) => XferType::Exception,
        Trap::Interrupt(_) => XferType::Interrupt,
    }
}

fn is_breakpoint(trap: Trap) -> bool
    ensures { result ≡ is_breakpoint trap }
{
    match trap {
        Trap::Exception(cause) => cause == BREAKPOINT,
        Trap::Interrupt(_) => false,
    }
}

fn is_overflow(trap: Trap) -> bool
    ensures { result ≡ is_overflow trap }
{
    match trap {
        Trap::Exception(_) => false,
        Trap::Interrupt(cause) => cause == LOCAL_COUNTER_OVERFLOW,
    }
}

// CSRRS and CSRRC with x0 or the immediate 0 don't write.
fn if_writes(arg: CsrArg, op: CsrUse) -> CsrUse
    ensures { result ≡ cond (is_zero arg) CsrUse.Read op }
{
    if is_zero(arg) { CsrUse::Read } else { op }
}

fn is_zero(arg: CsrArg) -> bool
    ensures { result ≡ is_zero arg }
{
    match arg {
        CsrArg::Reg(r) => r == 0,
        CsrArg::Imm(n) => n == 0,
    }
}
