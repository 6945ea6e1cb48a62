//! Which of several faults is told.

use super::{BASE, Entry, LOOP, NOP, SYSCALL, UNCOND, broken, image_of, judged};
use crate::Why;
use std::test::*;

// The image is NOP, a jump to itself, and NOP.
const IMAGE: &[u32] = &[NOP, LOOP, NOP];

// The jump.
const ROUND: Entry = (BASE + 4, BASE + 4, UNCOND);

// An address behind the image.
const GONE: u64 = BASE + 0x100;

// The type of a call.
const CALL_TYPE: u64 = 0x40_0000;

// A trap to behind the jump: from there no code runs straight on to it.
const BEHIND: Entry = (GONE, BASE + 8, SYSCALL);

// Two branches that break several rules, with the first.
const SEVERAL: [([Entry; 2], u16, Why, &str); 6] = [
    ([(GONE, 1, CALL_TYPE), BEHIND], 0, Why::Source, "all four"),
    (
        [(BASE + 4, 1, CALL_TYPE), BEHIND],
        0,
        Why::Kind,
        "all but the source",
    ),
    (
        [(BASE + 4, 1, UNCOND), BEHIND],
        0,
        Why::Target,
        "target and gap",
    ),
    (
        [ROUND, (GONE, BASE + 8, UNCOND)],
        0,
        Why::Gap,
        "the gap, and the next has no source",
    ),
    (
        [ROUND, (GONE, BASE + 4, UNCOND)],
        1,
        Why::Source,
        "the next has no source",
    ),
    (
        [(BASE + 4, 1, UNCOND), (GONE, 1, CALL_TYPE)],
        0,
        Why::Target,
        "the next breaks all",
    ),
];

#[test]
fn the_first_rule_of_the_youngest_branch_is_told(rt: HostRuntime) -> Result<(), Fail> {
    let image = image_of(rt.alloc(), IMAGE)?;
    for (stack, branch, why, what) in SEVERAL {
        assert_eq!(rt; judged(&rt, &image, &stack), broken(branch, why), "{what}");
    }
    Ok(())
}

// Each rule that a branch breaks by itself, broken by one of 256 branches.
const OWN: [(Entry, Why); 3] = [
    ((GONE, BASE + 4, UNCOND), Why::Source),
    ((BASE + 4, BASE + 4, CALL_TYPE), Why::Kind),
    ((BASE + 4, 0, UNCOND), Why::Target),
];

#[test]
fn each_rule_is_asked_of_the_first_and_of_the_last_branch(rt: HostRuntime) -> Result<(), Fail> {
    let image = image_of(rt.alloc(), IMAGE)?;
    assert_eq!(rt; judged(&rt, &image, &[ROUND; 256]), Ok(()));
    for (entry, why) in OWN {
        for number in [0, 1, 254, 255u16] {
            let mut stack = [ROUND; 256];
            stack[number as usize % 256] = entry;
            assert_eq!(rt;
                judged(&rt, &image, &stack),
                broken(number, why),
                "{number}"
            );
        }
    }
    for number in [0, 1, 254u16] {
        let mut stack = [ROUND; 256];
        stack[(number as usize + 1) % 256] = BEHIND;
        assert_eq!(rt;
            judged(&rt, &image, &stack),
            broken(number, Why::Gap),
            "{number}"
        );
    }
    Ok(())
}

#[test]
fn of_two_branches_the_younger_is_told(rt: HostRuntime) -> Result<(), Fail> {
    let image = image_of(rt.alloc(), IMAGE)?;
    let mut stack = [ROUND; 256];
    stack[200] = (GONE, BASE + 4, UNCOND);
    assert_eq!(rt; judged(&rt, &image, &stack), broken(200, Why::Source));
    stack[3] = (BASE + 4, 0, UNCOND);
    assert_eq!(rt; judged(&rt, &image, &stack), broken(3, Why::Target));
    stack[1] = BEHIND;
    assert_eq!(rt; judged(&rt, &image, &stack), broken(0, Why::Gap));
    Ok(())
}
