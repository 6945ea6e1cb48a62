//! What is asked of one branch by itself.

use super::{BASE, CALL, IRQ, LOOP, NOP, SYSCALL, UNCOND, broken, image_full_of, image_of, judged};
use crate::Why;
use std::process::Abort;
use std::test::*;

// Words with the perf type of their transfer (RISC-V Control Transfer Records 1.0, transfer types),
// and `None` where they are no transfer. Those with an offset have 8.
const WORDS: [(u32, Option<u64>, &str); 27] = [
    (0x0080_006F, Some(2), "jal x0"),
    (CALL, Some(4), "jal x1"),
    (0x0080_02EF, Some(4), "jal x5"),
    (0x0080_036F, Some(2), "jal x6"),
    (0x0000_8067, Some(6), "jalr x0, 0(x1)"),
    (0x0002_8067, Some(6), "jalr x0, 0(x5)"),
    (0x0003_0067, Some(3), "jalr x0, 0(x6)"),
    (0x0003_8367, Some(3), "jalr x6, 0(x7)"),
    (0x0003_00E7, Some(5), "jalr x1, 0(x6)"),
    (0x0002_80E7, Some(5), "jalr x1, 0(x5)"),
    (0x0000_80E7, Some(5), "jalr x1, 0(x1)"),
    (0x0000_0463, Some(1), "beq"),
    (0x0000_1463, Some(1), "bne"),
    (0x0000_7463, Some(1), "bgeu"),
    (0x3020_0073, Some(11), "mret"),
    (0x1020_0073, Some(11), "sret"),
    (NOP, None, "addi"),
    (0x0000_0073, None, "ecall"),
    (0x0010_0073, None, "ebreak"),
    (0x1050_0073, None, "wfi"),
    (0x1040_0073, None, "sctrclr"),
    (0x0FF0_000F, None, "fence"),
    (0x0000_0003, None, "lb"),
    (0x3000_1073, None, "csrrw"),
    (0x0000_0000, None, "no instruction"),
    (0xFFFF_FFFF, None, "no instruction either"),
    (0x0000_8001, None, "half a word"),
];

#[test]
fn each_transfer_has_one_type_and_a_trap_has_any_word(rt: HostRuntime) -> Result<(), Fail> {
    for (word, want, name) in WORDS {
        let image = image_of(rt.alloc(), &[word])?;
        for kind in 0..16u64 {
            // The bits round the type are set, and say nothing.
            let flags = kind << 20 | 0x1_FF0F_FFFF;
            let told = judged(&rt, &image, &[(BASE, BASE + 8, flags)]);
            if kind == 7 || kind == 12 || Some(kind) == want {
                assert_eq!(rt; told, Ok(()), "{name} as {kind}");
            } else {
                assert_eq!(rt; told, broken(0, Why::Kind), "{name} as {kind}");
            }
        }
    }
    Ok(())
}

// A word at 80000000, its type, where it may go, and where it mayn't.
struct Targets {
    word: u32,
    kind: u64,
    right: &'static [u64],
    wrong: &'static [u64],
}

// Where what goes by a register may go, and where not.
const ALIGNED: &[u64] = &[
    0,
    4,
    0x7FFF_FFFC,
    0x8000_0008,
    0x1_0000_0000,
    0xFFFF_FFFF_FFFF_FFFC,
];

const MISALIGNED: &[u64] = &[1, 2, 3, 0x8000_0002, 0x8000_0009, 0xFFFF_FFFF_FFFF_FFFF];

const TARGETS: [Targets; 13] = [
    // jal x0, 8: not the next word, and not 2^32 further on
    Targets {
        word: 0x0080_006F,
        kind: 2,
        right: &[0x8000_0008],
        wrong: &[0, 8, 0x8000_0000, 0x8000_0004, 0x8000_000C, 0x1_8000_0008],
    },
    // jal x0, -4: the sum wraps
    Targets {
        word: 0xFFDF_F06F,
        kind: 2,
        right: &[0x7FFF_FFFC],
        wrong: &[
            0x8000_0000,
            0x8000_0004,
            0x1_7FFF_FFFC,
            0xFFFF_FFFF_7FFF_FFFC,
        ],
    },
    // jal x0, 2
    Targets {
        word: 0x0020_006F,
        kind: 2,
        right: &[0x8000_0002],
        wrong: &[0x8000_0000, 0x8000_0004],
    },
    // beq x0, x0, 8: taken or not
    Targets {
        word: 0x0000_0463,
        kind: 1,
        right: &[0x8000_0008, 0x8000_0004],
        wrong: &[0, 0x8000_0000, 0x8000_000C, 0x1_8000_0008, 0x1_8000_0004],
    },
    // beq x0, x0, -4
    Targets {
        word: 0xFE00_0EE3,
        kind: 1,
        right: &[0x7FFF_FFFC, 0x8000_0004],
        wrong: &[0x8000_0000, 0x8000_0008, 0x7FFF_FFF8],
    },
    // beq x0, x0, 0
    Targets {
        word: 0x0000_0063,
        kind: 1,
        right: &[0x8000_0000, 0x8000_0004],
        wrong: &[0x8000_0008, 0x7FFF_FFFC],
    },
    // beq x0, x0, 4
    Targets {
        word: 0x0000_0263,
        kind: 1,
        right: &[0x8000_0004],
        wrong: &[0x8000_0000, 0x8000_0008],
    },
    // jalr x0, 0(x1)
    Targets {
        word: 0x0000_8067,
        kind: 6,
        right: ALIGNED,
        wrong: MISALIGNED,
    },
    // jalr x0, 8(x6)
    Targets {
        word: 0x0083_0067,
        kind: 3,
        right: ALIGNED,
        wrong: MISALIGNED,
    },
    // jalr x1, 0(x5)
    Targets {
        word: 0x0002_80E7,
        kind: 5,
        right: ALIGNED,
        wrong: MISALIGNED,
    },
    // jalr x1, 0(x6)
    Targets {
        word: 0x0003_00E7,
        kind: 5,
        right: ALIGNED,
        wrong: MISALIGNED,
    },
    // mret
    Targets {
        word: 0x3020_0073,
        kind: 11,
        right: ALIGNED,
        wrong: MISALIGNED,
    },
    // sret
    Targets {
        word: 0x1020_0073,
        kind: 11,
        right: ALIGNED,
        wrong: MISALIGNED,
    },
];

fn goes_where_it_may(rt: &impl Abort, image: &[u8], case: &Targets) {
    let flags = (case.kind & 15) << 20;
    for to in case.right {
        let told = judged(rt, image, &[(BASE, *to, flags)]);
        assert_eq!(rt; told, Ok(()), "{:08X} to {:X}", case.word, to);
    }
    for to in case.wrong {
        let told = judged(rt, image, &[(BASE, *to, flags)]);
        assert_eq!(rt;
            told,
            broken(0, Why::Target),
            "{:08X} to {:X}",
            case.word,
            to
        );
    }
    for to in MISALIGNED {
        let trap = judged(rt, image, &[(BASE, *to, SYSCALL)]);
        assert_eq!(rt; trap, Ok(()), "a trap to {:X}", to);
    }
}

#[test]
fn a_transfer_goes_where_its_word_says(rt: HostRuntime) -> Result<(), Fail> {
    for case in &TARGETS {
        let image = image_of(rt.alloc(), &[case.word])?;
        goes_where_it_may(&rt, &image, case);
    }
    Ok(())
}

// Whether the image has a word at an address, by a loop there.
fn has_source(rt: &impl Abort, image: &[u8], from: u64, has: bool) {
    let told = judged(rt, image, &[(from, from, UNCOND)]);
    if has {
        assert_eq!(rt; told, Ok(()), "{:X}", from);
    } else {
        assert_eq!(rt; told, broken(0, Why::Source), "{:X}", from);
    }
    for kind in [SYSCALL, IRQ] {
        assert_eq!(rt;
            judged(rt, image, &[(from, from, kind)]),
            Ok(()),
            "{:X}",
            from
        );
    }
}

// The same of the first bytes of an image.
fn front_has_source(rt: &impl Abort, image: &[u8], len: usize, from: u64, has: bool) {
    assert!(rt; len <= image.len());
    has_source(rt, &image[..len], from, has);
}

// Addresses at which no image of two words has one.
const NO_SOURCES: [u64; 14] = [
    0,
    4,
    0x7FFF_FFFC,
    0x7FFF_FFFF,
    0x8000_0001,
    0x8000_0002,
    0x8000_0003,
    0x8000_0006,
    0x8000_0008,
    0x8000_000C,
    0x1_8000_0000,
    0xFFFF_FFFF_8000_0000,
    0xFFFF_FFFF_FFFF_FFFC,
    0xFFFF_FFFF_FFFF_FFFF,
];

#[test]
fn a_source_is_a_word_of_the_image(rt: HostRuntime) -> Result<(), Fail> {
    let image = image_of(rt.alloc(), &[LOOP, LOOP])?;
    has_source(&rt, &image, BASE, true);
    has_source(&rt, &image, BASE + 4, true);
    for from in NO_SOURCES {
        has_source(&rt, &image, from, false);
        has_source(&rt, &[], from, false);
    }
    has_source(&rt, &[], BASE, false);
    // A word that is there in part isn't there.
    for len in [4, 5, 6, 7] {
        front_has_source(&rt, &image, len, BASE, true);
        front_has_source(&rt, &image, len, BASE + 4, false);
    }
    front_has_source(&rt, &image, 3, BASE, false);
    Ok(())
}

#[test]
fn an_image_of_1048576_bytes_has_its_last_word(rt: HostRuntime) -> Result<(), Fail> {
    let image = image_full_of(rt.alloc(), LOOP, 262_144)?;
    for (from, has) in [
        (BASE, true),
        (0x800F_FFF8, true),
        (0x800F_FFFC, true),
        (0x800F_FFFE, false),
        (0x8010_0000, false),
    ] {
        has_source(&rt, &image, from, has);
    }
    Ok(())
}
