//! Types of instructions, and what the predictor misses.

use crate::{XferType, class_of, missed, prediction_laws};
use rv_decode::{AluOp, Cond, CsrArg, CsrOp, Instr, Width, decode};

// RISC-V Control Transfer Records 1.0, transfer types, for this test and those below; the link
// registers are those of the Unprivileged ISA, "Unconditional Jumps".
#[test]
fn the_destination_of_a_jal_decides_its_type(rt: HostRuntime) {
    for (rd, want) in [
        (1, XferType::DirectCall),
        (5, XferType::DirectCall), // the alternate link register
        (0, XferType::DirectJump),
        (2, XferType::DirectLinkJump),
        (3, XferType::DirectLinkJump),
        (4, XferType::DirectLinkJump),
        (31, XferType::DirectLinkJump),
    ] {
        assert_eq!(rt;
            class_of(Instr::Jal { rd, off: 8 }, false),
            Some(want),
            "rd x{rd}"
        );
    }
}

#[test]
fn the_link_registers_x1_and_x5_decide_the_type_of_a_jalr(rt: HostRuntime) {
    for (rd, rs1, want) in [
        (1, 1, XferType::IndirectCall), // the same link register twice is a call
        (5, 5, XferType::IndirectCall),
        (1, 0, XferType::IndirectCall),
        (5, 31, XferType::IndirectCall),
        (1, 5, XferType::Swap),
        (5, 1, XferType::Swap),
        (0, 1, XferType::Return),
        (0, 5, XferType::Return),
        (6, 1, XferType::Return), // a return may link too
        (31, 5, XferType::Return),
        (3, 1, XferType::Return),
        (1, 4, XferType::IndirectCall),
        (0, 0, XferType::IndirectJump),
        (0, 3, XferType::IndirectJump),
        (0, 4, XferType::IndirectJump),
        (0, 6, XferType::IndirectJump),
        (3, 4, XferType::IndirectLinkJump),
        (4, 3, XferType::IndirectLinkJump),
        (7, 6, XferType::IndirectLinkJump),
        (2, 0, XferType::IndirectLinkJump),
    ] {
        let jump = Instr::Jalr { rd, rs1, off: 0 };
        assert_eq!(rt; class_of(jump, true), Some(want), "rd x{rd}, rs1 x{rs1}");
        assert_eq!(rt; class_of(jump, false), Some(want), "rd x{rd}, rs1 x{rs1}");
    }
}

#[test]
fn a_branch_has_a_type_either_way_and_a_return_from_a_trap_has_one(rt: HostRuntime) {
    let branch = Instr::Branch {
        cond: Cond::Ltu,
        rs1: 1,
        rs2: 5,
        off: 8,
    };
    for (instr, taken, want) in [
        (branch, true, XferType::Taken),
        (branch, false, XferType::NotTaken),
        (Instr::Mret, false, XferType::TrapReturn),
        (Instr::Sret, true, XferType::TrapReturn),
    ] {
        assert_eq!(rt; class_of(instr, taken), Some(want), "{instr:?}");
    }
}

#[test]
fn no_other_instruction_has_a_type(rt: HostRuntime) {
    for instr in [
        Instr::Lui { rd: 1, imm: 0 },
        Instr::Auipc { rd: 1, imm: 0 },
        Instr::Load {
            width: Width::D,
            signed: true,
            rd: 1,
            rs1: 5,
            off: 0,
        },
        Instr::Store {
            width: Width::D,
            rs1: 1,
            rs2: 5,
            off: 0,
        },
        Instr::AluImm {
            op: AluOp::Add,
            rd: 1,
            rs1: 5,
            imm: 0,
        },
        Instr::Alu {
            op: AluOp::Add,
            rd: 1,
            rs1: 5,
            rs2: 0,
        },
        Instr::Csr {
            op: CsrOp::Set,
            rd: 1,
            arg: CsrArg::Reg(5),
            csr: 0x14F,
        },
        Instr::Fence,
        Instr::FenceI,
        Instr::Ecall, // the trap that it raises has a type, the instruction has none
        Instr::Ebreak,
        Instr::Wfi,
        Instr::CtrClr,
    ] {
        assert_eq!(rt; class_of(instr, true), None, "{instr:?}");
    }
}

fn code_of_word(word: u32) -> Option<u8> {
    let transfer = class_of(decode(word)?, false)?;
    Some(transfer.code())
}

// RISC-V Control Transfer Records 1.0, transfer types; the words are those of the base formats I
// and J.
#[test]
fn the_words_of_jumps_have_the_types_of_their_registers(rt: HostRuntime) {
    for (word, want) in [
        (0x000280E7, 12), // jalr x1, 0(x5)
        (0x000082E7, 12), // jalr x5, 0(x1)
        (0x000282E7, 8), // jalr x5, 0(x5)
        (0x000080E7, 8), // jalr x1, 0(x1)
        (0x00008067, 13), // jalr x0, 0(x1)
        (0x00008367, 13), // jalr x6, 0(x1)
        (0x00030067, 10), // jalr x0, 0(x6)
        (0x00038367, 14), // jalr x6, 0(x7)
        (0x0000036F, 15), // jal x6, 0
        (0x0000006F, 11), // jal x0, 0
    ] {
        assert_eq!(rt; code_of_word(word), Some(want), "{word:08X}");
    }
}

fn branch(cond: Cond, off: u64) -> Instr {
    Instr::Branch {
        cond,
        rs1: 1,
        rs2: 2,
        off,
    }
}

#[test]
fn a_branch_is_missed_where_it_goes_another_way_than_its_offset(rt: HostRuntime) {
    for (instr, taken, want) in [
        (branch(Cond::Ne, 8), true, true),
        (branch(Cond::Ne, 8), false, false),
        (branch(Cond::Eq, 0xFFFFFFFFFFFFFFFC), true, false), // -4
        (branch(Cond::Eq, 0xFFFFFFFFFFFFFFFC), false, true),
        (branch(Cond::Eq, 0), true, true), // an offset of 0 is forward
        (branch(Cond::Eq, 0), false, false),
        (branch(Cond::Ltu, 0x7FFFFFFFFFFFFFFF), true, true), // the greatest, and the least
        (branch(Cond::Geu, 0x8000000000000000), true, false),
    ] {
        assert_eq!(rt; missed(instr, taken), want, "{instr:?}, taken {taken}");
    }
    prediction_laws();
}

#[test]
fn nothing_but_a_branch_is_missed(rt: HostRuntime) {
    for instr in [
        Instr::Jal { rd: 1, off: 8 },
        Instr::Jalr {
            rd: 0,
            rs1: 1,
            off: 0xFFFFFFFFFFFFFFFC,
        },
        Instr::Mret,
        Instr::Sret,
        Instr::Ecall,
        Instr::Fence,
    ] {
        assert_eq!(rt; missed(instr, true), false, "{instr:?}, taken");
        assert_eq!(rt; missed(instr, false), false, "{instr:?}, not taken");
    }
}

// The numbers of the standard's table of transfer types.
#[test]
fn each_type_has_the_number_of_the_standard(rt: HostRuntime) {
    for (transfer, want) in [
        (XferType::Exception, 1),
        (XferType::Interrupt, 2),
        (XferType::TrapReturn, 3),
        (XferType::NotTaken, 4),
        (XferType::Taken, 5),
        (XferType::IndirectCall, 8),
        (XferType::DirectCall, 9),
        (XferType::IndirectJump, 10),
        (XferType::DirectJump, 11),
        (XferType::Swap, 12),
        (XferType::Return, 13),
        (XferType::IndirectLinkJump, 14),
        (XferType::DirectLinkJump, 15),
    ] {
        assert_eq!(rt; transfer.code(), want, "{transfer:?}");
    }
}
