// How each instruction ends, mode by mode (RISC-V Privileged Architecture, "Environment Call and Breakpoint", "Trap-Return
// Instructions", "Machine Cause Register" and "Machine Trap Delegation Registers"; Control Transfer Records 1.0, SCTRCLR
// and the access rules of its registers).
use super::in_modes::entry;
use super::{csr, memory, step};
use crate::{Core, Hart, TaskMem};
use ctr_buffer::ListStore;
use ctr_csrs::Mode;
use ctr_port::NoMemory;
use guest_modes::{Priv, write_csr};
use indirect_regs::{CtrPort, PortReg};
use std::alloc::Global;
use std::process::Abort;

const MODES: [Mode; 5] = [Mode::M, Mode::S, Mode::U, Mode::Vs, Mode::Vu];

// Where the instruction lies, in a memory of 16 bytes, and what x5 holds before it.
const PC: u64 = 0x8000_0004;

const X5: u64 = 0x55;

// The word of the instruction is the value of a trap.
const WORD: u64 = 0xFFFF_FFFF_FFFF_FFFF;

// No trap is taken.
const ON: (u64, u64) = (99, 0);

// An instruction with the cause and the value of the exception that it raises in M, S, U, VS and VU, and what x5 holds where
// it raises none.
#[derive(Clone, Copy)]
struct Ending {
    word: u32,
    x5: u64,
    ends: [(u64, u64); 5],
}

const ENDINGS: [Ending; 46] = [
    // ecall
    Ending {
        word: 0x0000_0073,
        x5: X5,
        ends: [(11, 0), (9, 0), (8, 0), (10, 0), (8, 0)],
    },
    // ebreak
    Ending {
        word: 0x0010_0073,
        x5: X5,
        ends: [(3, 0), (3, 0), (3, 0), (3, 0), (3, 0)],
    },
    // mret
    Ending {
        word: 0x3020_0073,
        x5: X5,
        ends: [ON, (2, WORD), (2, WORD), (2, WORD), (2, WORD)],
    },
    // sret
    Ending {
        word: 0x1020_0073,
        x5: X5,
        ends: [ON, ON, (2, WORD), ON, (22, WORD)],
    },
    // sctrclr
    Ending {
        word: 0x1040_0073,
        x5: X5,
        ends: [ON, ON, (2, WORD), ON, (22, WORD)],
    },
    // wfi
    Ending {
        word: 0x1050_0073,
        x5: X5,
        ends: [ON, ON, ON, ON, ON],
    },
    // csrrsi x5, mvendorid, 0 writes nothing
    Ending {
        word: 0xF110_62F3,
        x5: 0,
        ends: [ON, (2, WORD), (2, WORD), (2, WORD), (2, WORD)],
    },
    // csrrci x5, mvendorid, 0 writes nothing
    Ending {
        word: 0xF110_72F3,
        x5: 0,
        ends: [ON, (2, WORD), (2, WORD), (2, WORD), (2, WORD)],
    },
    // csrrsi x5, mvendorid, 1 writes
    Ending {
        word: 0xF110_E2F3,
        x5: X5,
        ends: [(2, WORD), (2, WORD), (2, WORD), (2, WORD), (2, WORD)],
    },
    // csrrw x5, mctrctl, x0
    Ending {
        word: 0x34E0_12F3,
        x5: 7,
        ends: [ON, (2, WORD), (2, WORD), (2, WORD), (2, WORD)],
    },
    // csrrs x5, sctrdepth, x0
    Ending {
        word: 0x15F0_22F3,
        x5: 0,
        ends: [ON, ON, (2, WORD), (22, WORD), (22, WORD)],
    },
    // jal x5, 2
    Ending {
        word: 0x0020_02EF,
        x5: X5,
        ends: [
            (0, PC + 2),
            (0, PC + 2),
            (0, PC + 2),
            (0, PC + 2),
            (0, PC + 2),
        ],
    },
    // jalr x5, 2(x0)
    Ending {
        word: 0x0020_02E7,
        x5: X5,
        ends: [(0, 2), (0, 2), (0, 2), (0, 2), (0, 2)],
    },
    // ld x5, 8(x0)
    Ending {
        word: 0x0080_3283,
        x5: X5,
        ends: [(5, 8), (5, 8), (5, 8), (5, 8), (5, 8)],
    },
    // lw x5, 2(x0)
    Ending {
        word: 0x0020_2283,
        x5: X5,
        ends: [(4, 2), (4, 2), (4, 2), (4, 2), (4, 2)],
    },
    // sd x5, 8(x0)
    Ending {
        word: 0x0050_3423,
        x5: X5,
        ends: [(7, 8), (7, 8), (7, 8), (7, 8), (7, 8)],
    },
    // sw x5, 2(x0)
    Ending {
        word: 0x0050_2123,
        x5: X5,
        ends: [(6, 2), (6, 2), (6, 2), (6, 2), (6, 2)],
    },
    // csrrs x5, mvendorid, x6 and csrrc x5, mvendorid, x6 write, though x6 holds 0
    Ending {
        word: 0xF113_22F3,
        x5: X5,
        ends: [(2, WORD), (2, WORD), (2, WORD), (2, WORD), (2, WORD)],
    },
    Ending {
        word: 0xF113_32F3,
        x5: X5,
        ends: [(2, WORD), (2, WORD), (2, WORD), (2, WORD), (2, WORD)],
    },
    // csrrwi x5, mvendorid, 0 writes
    Ending {
        word: 0xF110_52F3,
        x5: X5,
        ends: [(2, WORD), (2, WORD), (2, WORD), (2, WORD), (2, WORD)],
    },
    // csrrs x5, mstatus, x0; UXL and SXL read 2
    Ending {
        word: 0x3000_22F3,
        x5: 0xA_0000_0000,
        ends: [ON, (2, WORD), (2, WORD), (2, WORD), (2, WORD)],
    },
    // csrrs x5, sstatus, x0: in VS it is vsstatus
    Ending {
        word: 0x1000_22F3,
        x5: 0x2_0000_0000,
        ends: [ON, ON, (2, WORD), ON, (22, WORD)],
    },
    // csrrs x5, hstatus, x0
    Ending {
        word: 0x6000_22F3,
        x5: 0x2_0000_0000,
        ends: [ON, ON, (2, WORD), (22, WORD), (22, WORD)],
    },
    // csrrs x5, vsstatus, x0
    Ending {
        word: 0x2000_22F3,
        x5: 0x2_0000_0000,
        ends: [ON, ON, (2, WORD), (22, WORD), (22, WORD)],
    },
    // csrrs x5, sctrctl, x0: mctrctl without M, and in VS vsctrctl
    Ending {
        word: 0x14E0_22F3,
        x5: 3,
        ends: [ON, ON, (2, WORD), ON, (22, WORD)],
    },
    // csrrs x5, vsctrctl, x0
    Ending {
        word: 0x24E0_22F3,
        x5: 3,
        ends: [ON, ON, (2, WORD), (22, WORD), (22, WORD)],
    },
    // csrrs x5, sctrstatus, x0
    Ending {
        word: 0x14F0_22F3,
        x5: 0,
        ends: [ON, ON, (2, WORD), ON, (22, WORD)],
    },
    // csrrs x5, 0x154, x0: there is no such register
    Ending {
        word: 0x1540_22F3,
        x5: X5,
        ends: [(2, WORD), (2, WORD), (2, WORD), (2, WORD), (2, WORD)],
    },
    // lb x5, 1(x0)
    Ending {
        word: 0x0010_0283,
        x5: X5,
        ends: [(5, 1), (5, 1), (5, 1), (5, 1), (5, 1)],
    },
    // lbu x5, 1(x0)
    Ending {
        word: 0x0010_4283,
        x5: X5,
        ends: [(5, 1), (5, 1), (5, 1), (5, 1), (5, 1)],
    },
    // lh x5, 1(x0)
    Ending {
        word: 0x0010_1283,
        x5: X5,
        ends: [(4, 1), (4, 1), (4, 1), (4, 1), (4, 1)],
    },
    // lh x5, 2(x0)
    Ending {
        word: 0x0020_1283,
        x5: X5,
        ends: [(5, 2), (5, 2), (5, 2), (5, 2), (5, 2)],
    },
    // lhu x5, 1(x0)
    Ending {
        word: 0x0010_5283,
        x5: X5,
        ends: [(4, 1), (4, 1), (4, 1), (4, 1), (4, 1)],
    },
    // lhu x5, 2(x0)
    Ending {
        word: 0x0020_5283,
        x5: X5,
        ends: [(5, 2), (5, 2), (5, 2), (5, 2), (5, 2)],
    },
    // lw x5, 4(x0)
    Ending {
        word: 0x0040_2283,
        x5: X5,
        ends: [(5, 4), (5, 4), (5, 4), (5, 4), (5, 4)],
    },
    // lwu x5, 2(x0)
    Ending {
        word: 0x0020_6283,
        x5: X5,
        ends: [(4, 2), (4, 2), (4, 2), (4, 2), (4, 2)],
    },
    // lwu x5, 4(x0)
    Ending {
        word: 0x0040_6283,
        x5: X5,
        ends: [(5, 4), (5, 4), (5, 4), (5, 4), (5, 4)],
    },
    // ld x5, 4(x0)
    Ending {
        word: 0x0040_3283,
        x5: X5,
        ends: [(4, 4), (4, 4), (4, 4), (4, 4), (4, 4)],
    },
    // sb x5, 1(x0)
    Ending {
        word: 0x0050_00A3,
        x5: X5,
        ends: [(7, 1), (7, 1), (7, 1), (7, 1), (7, 1)],
    },
    // sh x5, 1(x0)
    Ending {
        word: 0x0050_10A3,
        x5: X5,
        ends: [(6, 1), (6, 1), (6, 1), (6, 1), (6, 1)],
    },
    // sh x5, 2(x0)
    Ending {
        word: 0x0050_1123,
        x5: X5,
        ends: [(7, 2), (7, 2), (7, 2), (7, 2), (7, 2)],
    },
    // sw x5, 4(x0)
    Ending {
        word: 0x0050_2223,
        x5: X5,
        ends: [(7, 4), (7, 4), (7, 4), (7, 4), (7, 4)],
    },
    // sd x5, 4(x0)
    Ending {
        word: 0x0050_3223,
        x5: X5,
        ends: [(6, 4), (6, 4), (6, 4), (6, 4), (6, 4)],
    },
    // beq x0, x0, 2
    Ending {
        word: 0x0000_0163,
        x5: X5,
        ends: [
            (0, PC + 2),
            (0, PC + 2),
            (0, PC + 2),
            (0, PC + 2),
            (0, PC + 2),
        ],
    },
    // bne x0, x0, 2, which is not taken
    Ending {
        word: 0x0000_1163,
        x5: X5,
        ends: [ON, ON, ON, ON, ON],
    },
    // no instruction
    Ending {
        word: 0x0000_0000,
        x5: X5,
        ends: [(2, WORD), (2, WORD), (2, WORD), (2, WORD), (2, WORD)],
    },
];

const MTVEC: u64 = 0x100;

const STVEC: u64 = 0x200;

const VSTVEC: u64 = 0x300;

// Registers with a handler of each mode, and these delegations.
fn registers(medeleg: u64, hedeleg: u64) -> Priv {
    let mut p = Priv::fresh();
    write_csr(&mut p, 0x302, medeleg);
    write_csr(&mut p, 0x602, hedeleg);
    write_csr(&mut p, 0x305, MTVEC);
    write_csr(&mut p, 0x105, STVEC);
    write_csr(&mut p, 0x205, VSTVEC);
    p
}

// A hart in a mode at an address, with x5, in which every mode records.
fn hart_at(rt: &impl Abort, mode: Mode, pc: u64, csrs: Priv) -> Hart<ListStore> {
    assert_eq!(rt; pc % 4, 0, "an address of an instruction");
    let mut core = Core::fresh();
    core.x[5] = X5;
    core.pc = pc;
    core.mode = mode;
    core.csrs = csrs;
    let mut hart = Hart::<ListStore>::fresh();
    hart.swap_core(&mut core);
    hart.set(PortReg::Mctrctl, 0x7);
    hart.set(PortReg::Vsctrctl, 0x3);
    hart
}

// The mode that takes an exception: M where it isn't delegated, and from M; else VS where the guest's is delegated too.
fn taker(from: Mode, cause: u64, delegated: bool) -> Mode {
    let guest = matches!(from, Mode::Vs | Mode::Vu);
    if from == Mode::M || !delegated {
        Mode::M
    } else if guest && cause < 9 {
        Mode::Vs
    } else {
        Mode::S
    }
}

// The handler of a mode, and its registers for the program counter, the cause and the value.
fn handler(mode: Mode) -> (u64, u16, u16, u16) {
    match mode {
        Mode::S => (STVEC, 0x141, 0x142, 0x143),
        Mode::Vs => (VSTVEC, 0x241, 0x242, 0x243),
        Mode::M | Mode::U | Mode::Vu => (MTVEC, 0x341, 0x342, 0x343),
    }
}

// What a trap left: the mode, pc, the registers of the trap, x5, and the youngest record.
#[derive(Clone, Copy, Debug, PartialEq, Eq)]
struct Left {
    mode: Mode,
    pc: u64,
    epc: u64,
    cause: u64,
    value: u64,
    x5: u64,
    record: (u64, u64, u64),
}

// What a trap into a mode left.
fn what_is_left(rt: &impl Abort, hart: &mut Hart<ListStore>, to: Mode) -> Left {
    let (_, epc, cause, value) = handler(to);
    Left {
        mode: hart.core().mode,
        pc: hart.core().pc,
        epc: csr(rt, hart, epc),
        cause: csr(rt, hart, cause),
        value: csr(rt, hart, value),
        x5: hart.core().x[5],
        record: entry(rt, hart, 0),
    }
}

// What a trap into a mode is to leave: the handler, and a record from pc to it.
fn expected(to: Mode, pc: u64, cause: u64, value: u64) -> Left {
    let (target, _, _, _) = handler(to);
    Left {
        mode: to,
        pc: target,
        epc: pc,
        cause,
        value,
        x5: X5,
        record: (pc.wrapping_add(1), target, 1),
    }
}

fn same_words(rt: &impl Abort, mem: &TaskMem, words: &[u32; 4]) {
    for at in [0usize, 1, 2, 3] {
        assert!(rt; mem.len() == 16, "the size of memory");
        assert_eq!(rt; mem.word(4 * at), words[at], "word {at} of memory");
    }
}

fn check_ending(
    rt: &impl Abort,
    alloc: Global,
    case: &Ending,
    delegated: bool,
) -> Result<(), NoMemory> {
    let words = [0x1111_1111, case.word, 0x2222_2222, 0x3333_3333];
    let (medeleg, hedeleg) = if delegated {
        (0x40_07FF, 0x1FF)
    } else {
        (0, 0)
    };
    for i in [0usize, 1, 2, 3, 4] {
        let mode = MODES[i];
        let (cause, value) = case.ends[i];
        let value = if value == WORD {
            u64::from(case.word)
        } else {
            value
        };
        let mut mem = memory(rt, alloc, &words, 16)?;
        let mut hart = hart_at(rt, mode, PC, registers(medeleg, hedeleg));
        step(rt, &mut hart, &mut mem, 0);
        let to = taker(mode, cause, delegated);
        let seen = what_is_left(rt, &mut hart, to);
        let word = case.word;
        if cause != ON.0 {
            let want = expected(to, PC, cause, value);
            assert_eq!(rt; seen, want, "{word:x} in {mode:?}");
        } else if word != MRET && word != SRET {
            let x5 = case.x5;
            assert_eq!(rt; seen.pc, PC + 4, "{word:x} in {mode:?}: pc");
            assert_eq!(rt; seen.mode, mode, "{word:x} in {mode:?}: the mode");
            assert_eq!(rt; seen.x5, x5, "{word:x} in {mode:?}: x5");
        }
        same_words(rt, &mem, &words);
    }
    Ok(())
}

#[test]
fn each_instruction_ends_by_its_mode(rt: HostRuntime) -> Result<(), NoMemory> {
    for case in &ENDINGS {
        check_ending(&rt, rt.alloc(), case, false)?;
        check_ending(&rt, rt.alloc(), case, true)?;
    }
    Ok(())
}

#[test]
fn a_fetch_outside_of_memory_traps_in_each_mode(rt: HostRuntime) -> Result<(), NoMemory> {
    let pc = 0x8000_0010;
    for mode in MODES {
        let mut mem = memory(&rt, rt.alloc(), &[0, 0, 0, 0], 16)?;
        let mut hart = hart_at(&rt, mode, pc, registers(0x40_07FF, 0x1FF));
        step(&rt, &mut hart, &mut mem, 0);
        let to = taker(mode, 1, true);
        assert_eq!(rt;
            what_is_left(&rt, &mut hart, to),
            expected(to, pc, 1, pc),
            "a fetch in {mode:?}"
        );
    }
    Ok(())
}

// A return: its mode, its word, mstatus, hstatus and vsstatus before it, and the mode after it.
#[derive(Clone, Copy)]
struct Back {
    from: Mode,
    word: u32,
    mstatus: u64,
    hstatus: u64,
    vsstatus: u64,
    to: Mode,
    target: u64,
}

const MRET: u32 = 0x3020_0073;

const SRET: u32 = 0x1020_0073;

const MPV: u64 = 0x80_0000_0000;

// Each return goes to the address that its own mode kept.
const BACK: [Back; 11] = [
    Back {
        from: Mode::M,
        word: MRET,
        mstatus: 0x1800,
        hstatus: 0,
        vsstatus: 0,
        to: Mode::M,
        target: 0x1000,
    },
    Back {
        from: Mode::M,
        word: MRET,
        mstatus: MPV | 0x1800,
        hstatus: 0,
        vsstatus: 0,
        to: Mode::M,
        target: 0x1000,
    },
    Back {
        from: Mode::M,
        word: MRET,
        mstatus: 0x800,
        hstatus: 0,
        vsstatus: 0,
        to: Mode::S,
        target: 0x1000,
    },
    Back {
        from: Mode::M,
        word: MRET,
        mstatus: MPV | 0x800,
        hstatus: 0,
        vsstatus: 0,
        to: Mode::Vs,
        target: 0x1000,
    },
    Back {
        from: Mode::M,
        word: MRET,
        mstatus: 0,
        hstatus: 0,
        vsstatus: 0,
        to: Mode::U,
        target: 0x1000,
    },
    Back {
        from: Mode::M,
        word: MRET,
        mstatus: MPV,
        hstatus: 0,
        vsstatus: 0,
        to: Mode::Vu,
        target: 0x1000,
    },
    Back {
        from: Mode::M,
        word: SRET,
        mstatus: 0x100,
        hstatus: 0x80,
        vsstatus: 0,
        to: Mode::Vs,
        target: 0x2000,
    },
    Back {
        from: Mode::S,
        word: SRET,
        mstatus: 0x100,
        hstatus: 0,
        vsstatus: 0,
        to: Mode::S,
        target: 0x2000,
    },
    Back {
        from: Mode::S,
        word: SRET,
        mstatus: 0,
        hstatus: 0x80,
        vsstatus: 0,
        to: Mode::Vu,
        target: 0x2000,
    },
    Back {
        from: Mode::Vs,
        word: SRET,
        mstatus: 0,
        hstatus: 0,
        vsstatus: 0x100,
        to: Mode::Vs,
        target: 0x3000,
    },
    Back {
        from: Mode::Vs,
        word: SRET,
        mstatus: 0x100,
        hstatus: 0,
        vsstatus: 0,
        to: Mode::Vu,
        target: 0x3000,
    },
];

#[test]
fn a_return_is_recorded_with_the_address_that_it_goes_to(rt: HostRuntime) -> Result<(), NoMemory> {
    for case in BACK {
        let mut p = registers(0, 0);
        write_csr(&mut p, 0x300, case.mstatus);
        write_csr(&mut p, 0x600, case.hstatus);
        write_csr(&mut p, 0x200, case.vsstatus);
        write_csr(&mut p, 0x341, 0x1000);
        write_csr(&mut p, 0x141, 0x2000);
        write_csr(&mut p, 0x241, 0x3000);
        let mut mem = memory(&rt, rt.alloc(), &[0, case.word, 0, 0], 16)?;
        let mut hart = hart_at(&rt, case.from, PC, p);
        step(&rt, &mut hart, &mut mem, 0);
        assert_eq!(rt;
            hart.core().mode,
            case.to,
            "{:x} in {:?}",
            case.word,
            case.from
        );
        assert_eq!(rt;
            hart.core().pc,
            case.target,
            "{:x} in {:?}",
            case.word,
            case.from
        );
        assert_eq!(rt;
            entry(&rt, &mut hart, 0),
            (PC + 1, case.target, 3),
            "the record of {:x} in {:?}",
            case.word,
            case.from
        );
    }
    Ok(())
}
