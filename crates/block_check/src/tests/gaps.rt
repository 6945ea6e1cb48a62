//! What lies between two branches.

use super::{
    BASE, CALL, Entry, IRQ, LOOP, NOP, SYSCALL, UNCOND, broken, image_full_of, image_of, judged,
};
use crate::Why;
use std::process::Abort;
use std::test::*;

// An interrupt to the one address and a call of the system at the other: of their own addresses
// nothing is asked.
fn between(older_to: u64, younger_from: u64) -> [Entry; 2] {
    [(younger_from, 0x10, SYSCALL), (0x14, older_to, IRQ)]
}

// A word, and whether the code runs straight on over it.
const WORDS: [(u32, bool, &str); 24] = [
    (NOP, true, "addi"),
    (0x0000_00B7, true, "lui"),
    (0x0000_0097, true, "auipc"),
    (0x0000_0003, true, "lb"),
    (0x0000_0023, true, "sb"),
    (0x0200_0033, true, "mul"),
    (0x3000_1073, true, "csrrw"),
    (0x0FF0_000F, true, "fence"),
    (0x0000_100F, true, "fence.i"),
    (0x1050_0073, true, "wfi"),
    (0x1040_0073, true, "sctrclr"),
    (0x0000_0463, true, "beq, not taken"),
    (0x0000_7463, true, "bgeu, not taken"),
    (0x0040_006F, false, "jal to the next word"),
    (CALL, false, "jal x1"),
    (0x0000_8067, false, "jalr x0, 0(x1)"),
    (0x0003_00E7, false, "jalr x1, 0(x6)"),
    (0x3020_0073, false, "mret"),
    (0x1020_0073, false, "sret"),
    (0x0000_0073, false, "ecall"),
    (0x0010_0073, false, "ebreak"),
    (0x0000_0000, false, "no instruction"),
    (0xFFFF_FFFF, false, "no instruction either"),
    (0x0000_8001, false, "half a word"),
];

#[test]
fn code_runs_straight_on_over_words_that_end_no_stretch(rt: HostRuntime) -> Result<(), Fail> {
    for (word, runs_on, name) in WORDS {
        let image = image_of(rt.alloc(), &[NOP, word, NOP, NOP])?;
        // Over it, up to it, from it, and behind it.
        for (start, end, over) in [(0, 12, true), (0, 4, false), (4, 8, true), (8, 12, false)] {
            let told = judged(&rt, &image, &between(BASE + start, BASE + end));
            if runs_on || !over {
                assert_eq!(rt; told, Ok(()), "{name} from {start} to {end}");
            } else {
                assert_eq!(rt; told, broken(0, Why::Gap), "{name} from {start} to {end}");
            }
        }
    }
    Ok(())
}

// From where to where the code runs straight on in an image of four words that do, and where not.
const STRAIGHT: [(u64, u64, &str); 11] = [
    (BASE, BASE, "no word"),
    (BASE, BASE + 12, "up to the last"),
    (BASE, BASE + 16, "over the last"),
    (BASE + 16, BASE + 16, "no word behind the image"),
    (0x10, 0x10, "no word elsewhere"),
    (
        0xFFFF_FFFF_FFFF_FFFC,
        0xFFFF_FFFF_FFFF_FFFC,
        "no word at the highest",
    ),
    (0, BASE + 3, "the target wasn't kept"),
    (BASE + 3, 0, "the source wasn't kept"),
    (0, 0, "neither was kept"),
    (
        0,
        0xFFFF_FFFF_FFFF_FFFF,
        "the target wasn't kept, and the source is odd",
    ),
    (
        0xFFFF_FFFF_FFFF_FFFF,
        0,
        "the source wasn't kept, and the target is odd",
    ),
];

const NOT_STRAIGHT: [(u64, u64, &str); 14] = [
    (BASE + 4, BASE, "back by one word"),
    (BASE + 12, BASE, "back by three words"),
    (BASE, BASE + 20, "a word behind the image"),
    (BASE + 16, BASE + 20, "from behind the image on"),
    (BASE - 4, BASE, "the word before the image"),
    (BASE - 4, BASE + 8, "from before the image on"),
    (4, BASE, "from far below"),
    (BASE + 1, BASE + 1, "an odd address"),
    (BASE + 2, BASE + 2, "2 modulo 4, both"),
    (BASE + 2, BASE + 4, "2 modulo 4, the target"),
    (BASE, BASE + 6, "2 modulo 4, the source"),
    (BASE, BASE + 1, "an odd source"),
    (BASE, 0xFFFF_FFFF_FFFF_FFFC, "up to the highest word"),
    (0xFFFF_FFFF_FFFF_FFFC, BASE, "from the highest word"),
];

#[test]
fn straight_code_goes_forward_by_words_of_the_image(rt: HostRuntime) -> Result<(), Fail> {
    let image = image_of(rt.alloc(), &[NOP; 4])?;
    for (start, end, why) in STRAIGHT {
        assert_eq!(rt; judged(&rt, &image, &between(start, end)), Ok(()), "{why}");
    }
    for (start, end, why) in NOT_STRAIGHT {
        let told = judged(&rt, &image, &between(start, end));
        assert_eq!(rt; told, broken(0, Why::Gap), "{why}");
    }
    Ok(())
}

// A gap is looked for behind every branch but the last, whatever the two are.
#[test]
fn a_gap_is_looked_for_between_any_two_branches(rt: HostRuntime) -> Result<(), Fail> {
    let image = image_of(rt.alloc(), &[NOP, LOOP, LOOP])?;
    for (younger, older) in [
        (UNCOND, UNCOND),
        (UNCOND, SYSCALL),
        (SYSCALL, UNCOND),
        (IRQ, UNCOND),
        (SYSCALL, SYSCALL),
    ] {
        let two = [(BASE + 8, BASE + 8, younger), (BASE + 4, BASE + 4, older)];
        assert_eq!(rt; judged(&rt, &image, &two), broken(0, Why::Gap));
        let same = [(BASE + 4, BASE + 4, younger), (BASE + 4, BASE + 4, older)];
        assert_eq!(rt; judged(&rt, &image, &same), Ok(()));
    }
    // The last branch has nothing behind it.
    assert_eq!(rt;
        judged(&rt, &image, &[(BASE + 1, BASE + 1, SYSCALL)]),
        Ok(())
    );
    Ok(())
}

fn is_straight_over_all(rt: &impl Abort, image: &[u8], want: bool, what: &str) {
    let told = judged(rt, image, &between(BASE, 0x800F_FFFC));
    if want {
        assert_eq!(rt; told, Ok(()), "{what}");
    } else {
        assert_eq!(rt; told, broken(0, Why::Gap), "{what}");
    }
}

#[test]
fn straight_code_may_have_262143_words(rt: HostRuntime) -> Result<(), Fail> {
    let mut image = image_full_of(rt.alloc(), NOP, 262_144)?;
    assert_eq!(rt; image.len(), 1_048_576);
    is_straight_over_all(&rt, &image, true, "all run on");
    for place in [0, 131_071, 262_142] {
        let byte = 4 * place;
        image[byte] = 0x73; // ecall
        is_straight_over_all(&rt, &image, false, "a word in the way");
        image[byte] = 0;
        is_straight_over_all(&rt, &image, false, "no instruction in the way");
        image[byte] = 0x13;
    }
    image[4 * 262_143] = 0x73;
    is_straight_over_all(&rt, &image, true, "the word at the source");
    Ok(())
}
