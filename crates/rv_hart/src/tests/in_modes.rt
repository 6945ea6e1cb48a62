// Programs in all modes, with what they leave in the records (RISC-V Control Transfer Records 1.0,
// "Privilege Mode Transitions", "Virtualization Mode Transitions" and "RAS Emulation Mode").
use super::{memory, status, step};
use crate::Hart;
use ctr_buffer::ListStore;
use ctr_csrs::Mode;
use ctr_port::NoMemory;
use indirect_regs::{CtrPort, PortReg};
use std::alloc::Global;
use std::process::Abort;

// A program in 16 or more bytes of memory, what is written to mctrctl and vsctrctl before its first step, the interrupts
// that become pending at a step, counted from 0, and what the hart holds after the steps: pc, mode, sctrstatus, and the
// entries from the youngest on by source word, target and type. The entry after those has no V.
#[derive(Clone, Copy)]
struct InModes {
    name: &'static str,
    words: &'static [u32],
    controls: (u64, u64),
    raised: (u8, u64),
    steps: u8,
    pc: u64,
    mode: Mode,
    status: u64,
    entries: &'static [(u64, u64, u64)],
}

// auipc x5, 0; addi x5, x5, 16; csrrw x0, mepc, x5; mret to U; ecall
const CALL_FROM_U: &[u32] = &[
    0x0000_0297,
    0x0102_8293,
    0x3412_9073,
    0x3020_0073,
    0x0000_0073,
];

// addi x5, x0, 256; csrrw x0, medeleg, x5; MPV by addi, slli and csrrw of mstatus; auipc x7, 0; addi x7, x7, 16;
// csrrw x0, mepc, x7; mret to VU; ecall to S
const CALL_FROM_VU: &[u32] = &[
    0x1000_0293,
    0x3022_9073,
    0x0010_0313,
    0x0273_1313,
    0x3003_1073,
    0x0000_0397,
    0x0103_8393,
    0x3413_9073,
    0x3020_0073,
    0x0000_0073,
];

const IN_MODES: [InModes; 17] = [
    InModes {
        name: "a call from U to M without STE",
        words: CALL_FROM_U,
        controls: (0x201, 0),
        raised: (0, 0),
        steps: 5,
        pc: 0,
        mode: Mode::M,
        status: 0,
        entries: &[],
    },
    InModes {
        name: "without MTE",
        words: CALL_FROM_U,
        controls: (0x101, 0),
        raised: (0, 0),
        steps: 5,
        pc: 0,
        mode: Mode::M,
        status: 0,
        entries: &[],
    },
    InModes {
        name: "with both, also where exceptions are inhibited",
        words: CALL_FROM_U,
        controls: (0x2_0000_0301, 0),
        raised: (0, 0),
        steps: 5,
        pc: 0,
        mode: Mode::M,
        status: 1,
        entries: &[(0x8000_0011, 0, 1)],
    },
    // lui x5, 2; mideleg, hideleg and mie of it; MPV of mstatus; auipc, addi and mepc; mret to VU; jal x0, 0, which the
    // counter overflow interrupt stops
    InModes {
        name: "a freeze at a counter overflow in VS",
        words: &[
            0x0000_22B7,
            0x3032_9073,
            0x6032_9073,
            0x3042_9073,
            0x0010_0313,
            0x0273_1313,
            0x3003_1073,
            0x0000_0397,
            0x0103_8393,
            0x3413_9073,
            0x3020_0073,
            0x0000_006F,
        ],
        controls: (0, 0x1001),
        raised: (12, 0x2000),
        steps: 13,
        pc: 0,
        mode: Mode::Vs,
        status: 0x8000_0001,
        entries: &[(0x8000_002D, 0x8000_002C, 11)],
    },
    InModes {
        name: "a call from VU to S where vsctrctl inhibits exceptions",
        words: CALL_FROM_VU,
        controls: (2, 0x2_0000_0001),
        raised: (0, 0),
        steps: 10,
        pc: 0,
        mode: Mode::S,
        status: 0,
        entries: &[],
    },
    InModes {
        name: "where mctrctl does, which doesn't count",
        words: CALL_FROM_VU,
        controls: (0x2_0000_0002, 1),
        raised: (0, 0),
        steps: 10,
        pc: 0,
        mode: Mode::S,
        status: 1,
        entries: &[(0x8000_0025, 0, 1)],
    },
    // MPP 1 by addi, slli and csrrw of mstatus; auipc, addi, mepc and sepc; mret to S; sret to U
    InModes {
        name: "a return from S to U, which isn't enabled",
        words: &[
            0x0010_0293,
            0x00B2_9293,
            0x3002_9073,
            0x0000_0397,
            0x0143_8393,
            0x3413_9073,
            0x1413_9073,
            0x3020_0073,
            0x1020_0073,
        ],
        controls: (2, 0),
        raised: (0, 0),
        steps: 9,
        pc: 0x8000_0020,
        mode: Mode::U,
        status: 1,
        entries: &[(0x8000_0021, 0, 3)],
    },
    // jal x1, 4; jalr x0, 4(x1) by return-stack emulation; siselect 0x20F and sireg to x6: the entry that was popped, whose
    // source is without V; jalr x0, 24(x6) is a call through x6
    InModes {
        name: "the source of a popped entry, read by its task",
        words: &[
            0x0040_00EF,
            0x0040_8067,
            0x20F0_0293,
            0x1502_9073,
            0x1510_2373,
            0x0183_00E7,
        ],
        controls: (0x84, 0),
        raised: (0, 0),
        steps: 6,
        pc: 0x8000_0018,
        mode: Mode::M,
        status: 1,
        entries: &[(0x8000_0015, 0x8000_0018, 8)],
    },
    // addi x5, x0, 8; mie and mstatus of it; jal x0, 0, which interrupt 3 stops
    InModes {
        name: "an interrupt in M between two jumps",
        words: &[0x0080_0293, 0x3042_9073, 0x3002_9073, 0x0000_006F],
        controls: (4, 0),
        raised: (5, 8),
        steps: 6,
        pc: 0,
        mode: Mode::M,
        status: 3,
        entries: &[
            (0x8000_000D, 0, 2),
            (0x8000_000D, 0x8000_000C, 11),
            (0x8000_000D, 0x8000_000C, 11),
        ],
    },
    // The same where LCOFIFRZ is set, which is for interrupt 13 alone
    InModes {
        name: "another interrupt than that of a counter overflow, which doesn't freeze",
        words: &[0x0080_0293, 0x3042_9073, 0x3002_9073, 0x0000_006F],
        controls: (0x1004, 0),
        raised: (5, 8),
        steps: 6,
        pc: 0,
        mode: Mode::M,
        status: 3,
        entries: &[
            (0x8000_000D, 0, 2),
            (0x8000_000D, 0x8000_000C, 11),
            (0x8000_000D, 0x8000_000C, 11),
        ],
    },
    // ecall in M where BPFRZ is set, which is for breakpoints alone
    InModes {
        name: "another exception than a breakpoint, which doesn't freeze",
        words: &[0x0000_0073],
        controls: (0x804, 0),
        raised: (0, 0),
        steps: 1,
        pc: 0,
        mode: Mode::M,
        status: 1,
        entries: &[(0x8000_0001, 0, 1)],
    },
    // addi x5, x0, 8; mie of it; csrrwi x0, mtvec, 1; mstatus of it; jal x0, 0, which interrupt 3 stops
    InModes {
        name: "a vectored interrupt in M",
        words: &[
            0x0080_0293,
            0x3042_9073,
            0x3050_D073,
            0x3002_9073,
            0x0000_006F,
        ],
        controls: (4, 0),
        raised: (5, 8),
        steps: 6,
        pc: 0xC,
        mode: Mode::M,
        status: 2,
        entries: &[(0x8000_0011, 0xC, 2), (0x8000_0011, 0x8000_0010, 11)],
    },
    // addi x5, x0, 32; mideleg and mie of it; csrrwi x0, stvec, 1; MPP 1 and SIE of mstatus by addi, slli, addi and csrrw;
    // auipc x7, 0; addi x7, x7, 16; csrrw x0, mepc, x7; mret to S; jal x0, 0, which interrupt 5 stops
    InModes {
        name: "a vectored interrupt in S",
        words: &[
            0x0200_0293,
            0x3032_9073,
            0x3042_9073,
            0x1050_D073,
            0x0010_0313,
            0x00B3_1313,
            0x0023_0313,
            0x3003_1073,
            0x0000_0397,
            0x0103_8393,
            0x3413_9073,
            0x3020_0073,
            0x0000_006F,
        ],
        controls: (2, 0),
        raised: (13, 0x20),
        steps: 14,
        pc: 0x14,
        mode: Mode::S,
        status: 2,
        entries: &[(0x8000_0031, 0x14, 2), (0x8000_0031, 0x8000_0030, 11)],
    },
    // addi x5, x0, 64; hideleg and mie of it; csrrwi x0, vstvec, 1; csrrwi x0, vsstatus, 2; MPV and MPP 1 of mstatus by addi,
    // slli, addi, slli, or and csrrw; auipc x7, 0; addi x7, x7, 16; csrrw x0, mepc, x7; mret to VS; jal x0, 0, which
    // interrupt 6 stops: VS finds it as 5, in its vector too
    InModes {
        name: "a vectored interrupt in VS",
        words: &[
            0x0400_0293,
            0x6032_9073,
            0x3042_9073,
            0x2050_D073,
            0x2001_5073,
            0x0010_0313,
            0x0273_1313,
            0x0010_0413,
            0x00B4_1413,
            0x0083_6333,
            0x3003_1073,
            0x0000_0397,
            0x0103_8393,
            0x3413_9073,
            0x3020_0073,
            0x0000_006F,
        ],
        controls: (0, 2),
        raised: (16, 0x40),
        steps: 17,
        pc: 0x14,
        mode: Mode::Vs,
        status: 2,
        entries: &[(0x8000_003D, 0x14, 2), (0x8000_003D, 0x8000_003C, 11)],
    },
    // beq x0, x0, 8
    InModes {
        name: "a branch forward that is taken, with MISP in its target word",
        words: &[0x0000_0463],
        controls: (4, 0),
        raised: (0, 0),
        steps: 1,
        pc: 0x8000_0008,
        mode: Mode::M,
        status: 1,
        entries: &[(0x8000_0001, 0x8000_0009, 5)],
    },
    // addi x0, x0, 0; beq x0, x0, -4
    InModes {
        name: "a branch backward that is taken, without MISP",
        words: &[0x0000_0013, 0xFE00_0EE3],
        controls: (4, 0),
        raised: (0, 0),
        steps: 2,
        pc: 0x8000_0000,
        mode: Mode::M,
        status: 1,
        entries: &[(0x8000_0005, 0x8000_0000, 5)],
    },
    // addi x0, x0, 0; bne x0, x0, -4; bne x0, x0, 8, with NTBREN
    InModes {
        name: "branches that aren't taken, one backward and one forward",
        words: &[0x0000_0013, 0xFE00_1EE3, 0x0000_1463],
        controls: (0x10_0000_0004, 0),
        raised: (0, 0),
        steps: 3,
        pc: 0x8000_000C,
        mode: Mode::M,
        status: 2,
        entries: &[(0x8000_0009, 0x8000_000C, 4), (0x8000_0005, 0x8000_0009, 4)],
    },
];

// Entry i: its source word, target and type.
pub fn entry(rt: &impl Abort, hart: &mut Hart<ListStore>, i: u8) -> (u64, u64, u64) {
    assert!(rt; hart.accesses() < 1000, "too many accesses");
    hart.set(PortReg::Select, 0x200 + u64::from(i));
    let select = hart.get(PortReg::Select);
    assert!(rt;
        0x200 <= select && select < 0x300,
        "entry {i} isn't selected"
    );
    (
        hart.get(PortReg::From),
        hart.get(PortReg::To),
        hart.get(PortReg::Kind),
    )
}

fn check_in_modes(rt: &impl Abort, alloc: Global, case: &InModes) -> Result<(), NoMemory> {
    let mut mem = memory(rt, alloc, case.words, 64)?;
    let mut hart = Hart::<ListStore>::fresh();
    hart.set(PortReg::Mctrctl, case.controls.0);
    hart.set(PortReg::Vsctrctl, case.controls.1);
    for i in 0..case.steps {
        let pending = if i == case.raised.0 { case.raised.1 } else { 0 };
        step(rt, &mut hart, &mut mem, pending);
    }
    assert_eq!(rt; hart.core().pc, case.pc, "pc of {}", case.name);
    assert_eq!(rt; hart.core().mode, case.mode, "mode of {}", case.name);
    assert_eq!(rt;
        status(rt, &mut hart),
        case.status,
        "sctrstatus of {}",
        case.name
    );
    let mut i = 0u8;
    for want in case.entries {
        assert_eq!(rt;
            entry(rt, &mut hart, i),
            *want,
            "entry {i} of {}",
            case.name
        );
        i = i.wrapping_add(1);
    }
    let (after, _, _) = entry(rt, &mut hart, i);
    assert_eq!(rt; after % 2, 0, "V of entry {i} of {}", case.name);
    Ok(())
}

#[test]
fn programs_in_all_modes(rt: HostRuntime) -> Result<(), NoMemory> {
    for case in &IN_MODES {
        check_in_modes(&rt, rt.alloc(), case)?;
    }
    Ok(())
}
