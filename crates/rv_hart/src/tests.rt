//! Programs in M with what they leave.

use crate::{Core, Hart, Harts, TaskMem};
use ctr_buffer::ListStore;
use ctr_csrs::Mode;
use ctr_port::NoMemory;
use guest_modes::{is_register, read_csr};
use indirect_regs::{CtrPort, PortReg};
use std::alloc::Global;
use std::process::Abort;

mod endings;
mod in_modes;

// RISC-V Unprivileged ISA, RV64I and "Zicsr"; Privileged Architecture, "Machine Cause Register" and
// "Machine Interrupt Registers".
//
// A program at 0x80000000 in a memory of 64 or 128 bytes, what is pending at its first step, how many steps it makes,
// and what the hart holds after them. Registers and CSRs that aren't named aren't looked at.
#[derive(Clone, Copy)]
struct Case {
    name: &'static str,
    words: &'static [u32],
    mem: u32,
    pending: u64,
    steps: u8,
    pc: u64,
    registers: &'static [(u8, u64)],
    csrs: &'static [(u16, u64)],
}

const MSTATUS: u16 = 0x300;

const MSCRATCH: u16 = 0x340;

const MEPC: u16 = 0x341;

const MCAUSE: u16 = 0x342;

const MTVAL: u16 = 0x343;

const MIP: u16 = 0x344;

const CASES: [Case; 21] = [
    // auipc x5, 0, then lw, lwu, lh, lhu, lb, lbu and ld of the bytes 83 82 81 80 01 00 00 00 at 32(x5)
    Case {
        name: "loads",
        words: &[
            0x0000_0297,
            0x0202_A303,
            0x0202_E383,
            0x0202_9403,
            0x0202_D483,
            0x0202_8503,
            0x0202_C583,
            0x0202_B603,
            0x8081_8283,
            0x0000_0001,
        ],
        mem: 64,
        pending: 0,
        steps: 8,
        pc: 0x8000_0020,
        registers: &[
            (6, 0xFFFF_FFFF_8081_8283),
            (7, 0x8081_8283),
            (8, 0xFFFF_FFFF_FFFF_8283),
            (9, 0x8283),
            (10, 0xFFFF_FFFF_FFFF_FF83),
            (11, 0x83),
            (12, 0x0000_0001_8081_8283),
        ],
        csrs: &[],
    },
    // auipc x5, 0; addi x6, x0, -1; sd x6, 64(x5); then sb, sh and sw of x0 at 64, 66 and 68(x5), each read back by ld
    Case {
        name: "stores",
        words: &[
            0x0000_0297,
            0xFFF0_0313,
            0x0462_B023,
            0x0402_8023,
            0x0402_B383,
            0x0402_9123,
            0x0402_B403,
            0x0402_A223,
            0x0402_B483,
        ],
        mem: 128,
        pending: 0,
        steps: 9,
        pc: 0x8000_0024,
        registers: &[
            (7, 0xFFFF_FFFF_FFFF_FF00),
            (8, 0xFFFF_FFFF_0000_FF00),
            (9, 0xFF00),
        ],
        csrs: &[],
    },
    // auipc x5, 0; addi x6, x0, -2; sd x6, 56(x5); ld x7, 56(x5); ld x8, 64(x5)
    Case {
        name: "the last bytes, and a load of the ones after them",
        words: &[
            0x0000_0297,
            0xFFE0_0313,
            0x0262_BC23,
            0x0382_B383,
            0x0402_B403,
        ],
        mem: 64,
        pending: 0,
        steps: 5,
        pc: 0,
        registers: &[(7, 0xFFFF_FFFF_FFFF_FFFE), (8, 0)],
        csrs: &[(MCAUSE, 5), (MTVAL, 0x8000_0040), (MEPC, 0x8000_0010)],
    },
    // auipc x5, 0; sd x5, 64(x5)
    Case {
        name: "a store after the last bytes",
        words: &[0x0000_0297, 0x0452_B023],
        mem: 64,
        pending: 0,
        steps: 2,
        pc: 0,
        registers: &[],
        csrs: &[(MCAUSE, 7), (MTVAL, 0x8000_0040), (MEPC, 0x8000_0004)],
    },
    // auipc x5, 0; ld x6, 68(x5)
    Case {
        name: "a load that is misaligned and outside",
        words: &[0x0000_0297, 0x0442_B303],
        mem: 64,
        pending: 0,
        steps: 2,
        pc: 0,
        registers: &[(6, 0)],
        csrs: &[(MCAUSE, 4), (MTVAL, 0x8000_0044), (MEPC, 0x8000_0004)],
    },
    // auipc x5, 0; sh x6, 9(x5)
    Case {
        name: "a misaligned store",
        words: &[0x0000_0297, 0x0062_94A3],
        mem: 64,
        pending: 0,
        steps: 2,
        pc: 0,
        registers: &[],
        csrs: &[(MCAUSE, 6), (MTVAL, 0x8000_0009), (MEPC, 0x8000_0004)],
    },
    // auipc x5, 0; jalr x5, 12(x5)
    Case {
        name: "a jump through the register that it writes",
        words: &[0x0000_0297, 0x00C2_82E7],
        mem: 64,
        pending: 0,
        steps: 2,
        pc: 0x8000_000C,
        registers: &[(5, 0x8000_0008)],
        csrs: &[(MCAUSE, 0)],
    },
    // addi x0, x0, 5; add x6, x0, x0; addi x6, x6, 7
    Case {
        name: "a write of x0",
        words: &[0x0050_0013, 0x0000_0333, 0x0073_0313],
        mem: 64,
        pending: 0,
        steps: 3,
        pc: 0x8000_000C,
        registers: &[(0, 0), (6, 7)],
        csrs: &[],
    },
    // jal x1, 2
    Case {
        name: "a misaligned jump",
        words: &[0x0020_00EF],
        mem: 64,
        pending: 0,
        steps: 1,
        pc: 0,
        registers: &[(1, 0)],
        csrs: &[(MCAUSE, 0), (MTVAL, 0x8000_0002), (MEPC, 0x8000_0000)],
    },
    // auipc x5, 0; jalr x1, 7(x5)
    Case {
        name: "a misaligned jump through a register",
        words: &[0x0000_0297, 0x0072_80E7],
        mem: 64,
        pending: 0,
        steps: 2,
        pc: 0,
        registers: &[(1, 0)],
        csrs: &[(MCAUSE, 0), (MTVAL, 0x8000_0006), (MEPC, 0x8000_0004)],
    },
    // auipc x5, 0; beq x0, x5, 6
    Case {
        name: "a branch to a misaligned address that isn't taken",
        words: &[0x0000_0297, 0x0050_0363],
        mem: 64,
        pending: 0,
        steps: 2,
        pc: 0x8000_0008,
        registers: &[],
        csrs: &[(MEPC, 0)],
    },
    // auipc x5, 0; bne x0, x5, 6
    Case {
        name: "a misaligned branch",
        words: &[0x0000_0297, 0x0050_1363],
        mem: 64,
        pending: 0,
        steps: 2,
        pc: 0,
        registers: &[],
        csrs: &[(MCAUSE, 0), (MTVAL, 0x8000_000A), (MEPC, 0x8000_0004)],
    },
    // jal x6, 64
    Case {
        name: "an instruction outside of memory",
        words: &[0x0400_036F],
        mem: 64,
        pending: 0,
        steps: 2,
        pc: 0,
        registers: &[(6, 0x8000_0004)],
        csrs: &[(MCAUSE, 1), (MTVAL, 0x8000_0040), (MEPC, 0x8000_0040)],
    },
    Case {
        name: "an unknown word",
        words: &[0xFFFF_FFFF],
        mem: 64,
        pending: 0,
        steps: 1,
        pc: 0,
        registers: &[],
        csrs: &[(MCAUSE, 2), (MTVAL, 0xFFFF_FFFF), (MEPC, 0x8000_0000)],
    },
    Case {
        name: "an environment call of M",
        words: &[0x0000_0073],
        mem: 64,
        pending: 0,
        steps: 1,
        pc: 0,
        registers: &[],
        csrs: &[(MCAUSE, 11), (MTVAL, 0), (MEPC, 0x8000_0000)],
    },
    Case {
        name: "a breakpoint",
        words: &[0x0010_0073],
        mem: 64,
        pending: 0,
        steps: 1,
        pc: 0,
        registers: &[],
        csrs: &[(MCAUSE, 3), (MTVAL, 0), (MEPC, 0x8000_0000)],
    },
    // addi x5, x0, 90; csrrw x6, mscratch, x5; csrrs x7, mscratch, x0; csrrci x8, mscratch, 10
    Case {
        name: "accesses to mscratch",
        words: &[0x05A0_0293, 0x3402_9373, 0x3400_23F3, 0x3405_7473],
        mem: 64,
        pending: 0,
        steps: 4,
        pc: 0x8000_0010,
        registers: &[(6, 0), (7, 90), (8, 90)],
        csrs: &[(MSCRATCH, 80)],
    },
    // csrrw x6, mhartid, x5
    Case {
        name: "a write of a register that can only be read",
        words: &[0xF142_9373],
        mem: 64,
        pending: 0,
        steps: 1,
        pc: 0,
        registers: &[(6, 0)],
        csrs: &[(MCAUSE, 2), (MTVAL, 0xF142_9373)],
    },
    // csrrs x6, mhartid, x0
    Case {
        name: "a read of it",
        words: &[0xF140_2373],
        mem: 64,
        pending: 0,
        steps: 1,
        pc: 0x8000_0004,
        registers: &[(6, 0)],
        csrs: &[(MCAUSE, 0)],
    },
    // addi x5, x0, 20; addi x6, x0, 3; of x5 and x6 sub to x7, sll to x8, slt to x9, div to x11 and rem to x12; slt x10, x6, x5;
    // auipc x14, 0x12345 at 0x80000020; lui x15, 0x80000
    Case {
        name: "operations of two registers that aren't equal, and upper immediates",
        words: &[
            0x0140_0293,
            0x0030_0313,
            0x4062_83B3,
            0x0062_9433,
            0x0062_A4B3,
            0x0053_2533,
            0x0262_C5B3,
            0x0262_E633,
            0x1234_5717,
            0x8000_07B7,
        ],
        mem: 64,
        pending: 0,
        steps: 10,
        pc: 0x8000_0028,
        registers: &[
            (7, 17),
            (8, 160),
            (9, 0),
            (10, 1),
            (11, 6),
            (12, 2),
            (14, 0x9234_5020),
            (15, 0xFFFF_FFFF_8000_0000),
        ],
        csrs: &[],
    },
    // addi x5, x0, 8; csrrw x0, mie, x5; csrrsi x0, mstatus, 8; addi x6, x6, 1, which isn't executed
    Case {
        name: "an interrupt that is enabled three steps after it was raised",
        words: &[0x0080_0293, 0x3042_9073, 0x3004_6073, 0x0013_0313],
        mem: 64,
        pending: 8,
        steps: 4,
        pc: 0,
        registers: &[(6, 0)],
        csrs: &[
            (MCAUSE, 0x8000_0000_0000_0003),
            (MTVAL, 0),
            (MEPC, 0x8000_000C),
            (MIP, 0),
            (MSTATUS, 0xA_0000_1880), // MPP 3, MPIE 1, MIE 0
        ],
    },
];

fn memory(rt: &impl Abort, alloc: Global, words: &[u32], mem: u32) -> Result<TaskMem, NoMemory> {
    let mut image = Vec::new(alloc);
    for word in words {
        image.extend_from_slice(&word.to_le_bytes())?;
    }
    assert!(rt;
        image.len() as u64 <= u64::from(mem),
        "the image is too long"
    );
    assert!(rt; mem <= 1_048_576, "the memory is too large");
    TaskMem::new(alloc, image.as_slice(), mem)
}

fn step(rt: &impl Abort, hart: &mut Hart<ListStore>, mem: &mut TaskMem, pending: u64) {
    assert!(rt; hart.steps() < 1000, "too many steps");
    assert_eq!(rt; pending & 0x2EEE, pending, "no interrupts");
    hart.step(mem, pending);
}

// Runs a program on a fresh hart.
fn ran(
    rt: &impl Abort,
    alloc: Global,
    case: &Case,
) -> Result<(Hart<ListStore>, TaskMem), NoMemory> {
    let mut mem = memory(rt, alloc, case.words, case.mem)?;
    let mut hart = Hart::<ListStore>::fresh();
    let mut pending = case.pending;
    for _ in 0..case.steps {
        step(rt, &mut hart, &mut mem, pending);
        pending = 0;
    }
    Ok((hart, mem))
}

fn csr(rt: &impl Abort, hart: &Hart<ListStore>, number: u16) -> u64 {
    assert!(rt; is_register(number), "no register {number}");
    read_csr(&hart.core().csrs, number)
}

fn check(rt: &impl Abort, alloc: Global, case: &Case) -> Result<(), NoMemory> {
    let (hart, _) = ran(rt, alloc, case)?;
    assert_eq!(rt; hart.core().pc, case.pc, "pc of {}", case.name);
    for (r, value) in case.registers {
        assert_eq!(rt;
            hart.core().x.get(usize::from(*r)),
            Some(value),
            "x{r} of {}",
            case.name
        );
    }
    for (number, value) in case.csrs {
        assert_eq!(rt;
            csr(rt, &hart, *number),
            *value,
            "csr {number} of {}",
            case.name
        );
    }
    assert_eq!(rt;
        hart.steps(),
        u64::from(case.steps),
        "steps of {}",
        case.name
    );
    assert_eq!(rt; hart.accesses(), 0, "accesses of {}", case.name);
    assert_eq!(rt; hart.resident(), None, "resident of {}", case.name);
    Ok(())
}

// RISC-V Control Transfer Records 1.0, "RAS Emulation Mode" and "Entry Registers".
//
// A program under mctrctl, and what sctrstatus and the youngest entry, by source, target and type, are after its steps.
#[derive(Clone, Copy)]
struct Recorded {
    name: &'static str,
    words: &'static [u32],
    control: u64,
    steps: u8,
    status: u64,
    entry: (u64, u64, u64),
}

const RECORDED: [Recorded; 9] = [
    // jal x0, 4 three times
    Recorded {
        name: "three jumps in M",
        words: &[0x0040_006F, 0x0040_006F, 0x0040_006F],
        control: 0x4,
        steps: 3,
        status: 3,
        entry: (0x8000_0009, 0x8000_000C, 11),
    },
    Recorded {
        name: "three jumps where M records nothing",
        words: &[0x0040_006F, 0x0040_006F, 0x0040_006F],
        control: 0,
        steps: 3,
        status: 0,
        entry: (0, 0, 0),
    },
    // jalr x1, 0(x5) under return-stack emulation replaces the youngest entry
    Recorded {
        name: "a co-routine swap",
        words: &[0x0002_80E7],
        control: 0x84,
        steps: 1,
        status: 0,
        entry: (0x8000_0001, 0, 12),
    },
    // auipc x5, 0; addi x5, x5, 20; csrrw x0, mtvec, x5; jal x0, 4; ebreak; jal x0, 0: frozen at the breakpoint
    Recorded {
        name: "a freeze at a breakpoint",
        words: &[
            0x0000_0297,
            0x0142_8293,
            0x3052_9073,
            0x0040_006F,
            0x0010_0073,
            0x0000_006F,
        ],
        control: 0x804,
        steps: 6,
        status: 0x8000_0001,
        entry: (0x8000_000D, 0x8000_0010, 11),
    },
    // jal x0, 4; lui x5, 0x80000; csrrs x0, sctrstatus, x5; sctrclr: the entries go, the pointer and FROZEN stay
    Recorded {
        name: "a clear while the records are frozen",
        words: &[0x0040_006F, 0x8000_02B7, 0x14F2_A073, 0x1040_0073],
        control: 0x4,
        steps: 4,
        status: 0x8000_0001,
        entry: (0, 0, 0),
    },
    // csrrw x5, mctrctl, x0 writes 0; jal x0, 0
    Recorded {
        name: "a jump after a write of x0 to mctrctl",
        words: &[0x34E0_12F3, 0x0000_006F],
        control: 0x4,
        steps: 2,
        status: 0,
        entry: (0, 0, 0),
    },
    // csrrs x5, mctrctl, x0 and csrrci x5, mctrctl, 0 write nothing; jal x0, 0
    Recorded {
        name: "a jump after reads of mctrctl",
        words: &[0x34E0_22F3, 0x34E0_72F3, 0x0000_006F],
        control: 0x4,
        steps: 3,
        status: 1,
        entry: (0x8000_0009, 0x8000_0008, 11),
    },
    // csrrci x0, mctrctl, 4 clears M; jal x0, 0
    Recorded {
        name: "a jump after M of mctrctl was cleared",
        words: &[0x34E2_7073, 0x0000_006F],
        control: 0x4,
        steps: 2,
        status: 0,
        entry: (0, 0, 0),
    },
    // jal x1, 4; sctrclr; jal x0, 0: the pointer stays
    Recorded {
        name: "a clear between two transfers",
        words: &[0x0040_00EF, 0x1040_0073, 0x0000_006F],
        control: 0x4,
        steps: 3,
        status: 2,
        entry: (0x8000_0009, 0x8000_0008, 11),
    },
];

// The source, the target and the type of the youngest entry.
fn youngest(rt: &impl Abort, hart: &mut Hart<ListStore>) -> (u64, u64, u64) {
    assert!(rt; hart.accesses() < 1000, "too many accesses");
    assert_eq!(rt;
        hart.get(PortReg::Select),
        0x200,
        "another entry is selected"
    );
    (
        hart.get(PortReg::From),
        hart.get(PortReg::To),
        hart.get(PortReg::Kind),
    )
}

fn status(rt: &impl Abort, hart: &mut Hart<ListStore>) -> u64 {
    assert!(rt; hart.accesses() < 1000, "too many accesses");
    hart.get(PortReg::Status)
}

fn check_records(rt: &impl Abort, alloc: Global, case: &Recorded) -> Result<(), NoMemory> {
    let mut mem = memory(rt, alloc, case.words, 64)?;
    let mut hart = Hart::<ListStore>::fresh();
    hart.set(PortReg::Mctrctl, case.control);
    hart.set(PortReg::Select, 0x200);
    for _ in 0..case.steps {
        step(rt, &mut hart, &mut mem, 0);
    }
    assert_eq!(rt; hart.accesses(), 2, "accesses of {}", case.name);
    assert_eq!(rt;
        status(rt, &mut hart),
        case.status,
        "sctrstatus of {}",
        case.name
    );
    assert_eq!(rt;
        youngest(rt, &mut hart),
        case.entry,
        "the youngest entry of {}",
        case.name
    );
    assert_eq!(rt;
        hart.accesses(),
        7,
        "accesses of {} after five reads",
        case.name
    );
    Ok(())
}

#[test]
fn programs(rt: HostRuntime) -> Result<(), NoMemory> {
    for case in &CASES {
        check(&rt, rt.alloc(), case)?;
    }
    Ok(())
}

#[test]
fn records(rt: HostRuntime) -> Result<(), NoMemory> {
    for case in &RECORDED {
        check_records(&rt, rt.alloc(), case)?;
    }
    Ok(())
}

#[test]
fn cores_are_exchanged_with_vsiselect(rt: HostRuntime) {
    let mut hart = Hart::<ListStore>::fresh();
    let mut core = Core::fresh();
    core.mode = Mode::S;
    core.pc = 0x8000_0010;
    core.csrs.set_vsiselect(0x203);
    hart.swap_core(&mut core);
    assert_eq!(rt; hart.core().mode, Mode::S, "the mode of the hart");
    assert_eq!(rt; hart.core().pc, 0x8000_0010, "its program counter");
    assert_eq!(rt; hart.core().csrs.vsiselect(), 0x203, "its vsiselect");
    assert_eq!(rt; core, Core::fresh(), "the core that it had");
    assert_eq!(rt; (hart.steps(), hart.accesses()), (0, 0), "its counts");
}

#[test]
fn harts_are_fresh_until_one_does_something(rt: HostRuntime) -> Result<(), NoMemory> {
    let mut harts = Harts::new(rt.alloc())?;
    assert!(rt; harts.is_fresh(), "sixteen new harts are fresh");
    harts.hart_mut(15).set_resident(Some(3));
    assert!(rt; !harts.is_fresh(), "hart 15 has a resident");
    assert_eq!(rt; harts.hart(15).resident(), Some(3), "that of hart 15");
    assert_eq!(rt; harts.hart(14).resident(), None, "that of hart 14");
    harts.hart_mut(15).set_resident(None);
    assert!(rt; harts.is_fresh(), "they are fresh again");
    harts.hart_mut(0).clear();
    assert!(rt; !harts.is_fresh(), "an access of hart 0 counts");
    Ok(())
}
