//! Stacks against images, each with the answer that it must get. The words are those of the base
//! instruction formats (RISC-V Unprivileged ISA, Privileged Architecture), and the types those of
//! `perf_event.h` (enum perf_branch_type).

ghost use Rattle.std.specs.Prelude.{◌≡◌, []};

mod gaps;
mod order;
mod own;

use super::*;
use perf_sample::{Branch, Sample};
use std::alloc::Global;
use std::process::Abort;
use std::test::*;

pub(crate) const BASE: u64 = 0x8000_0000;

pub(crate) const NOP: u32 = 0x0000_0013;

// jal x0, 0
pub(crate) const LOOP: u32 = 0x0000_006F;

// jal x1, 8
pub(crate) const CALL: u32 = 0x0080_00EF;

// The types of branches, in the flags.
pub(crate) const UNCOND: u64 = 0x20_0000;

pub(crate) const SYSCALL: u64 = 0x70_0000;

pub(crate) const IRQ: u64 = 0xC0_0000;

// A branch: source, target, flags.
pub(crate) type Entry = (u64, u64, u64);

// The image that has these words.
pub(crate) fn image_of(alloc: Global, words: &[u32]) -> Result<Vec<u8>, Fail> {
    let mut image = Vec::new(alloc);
    for word in words {
        image.extend_from_slice(&word.to_le_bytes())?;
    }
    Ok(image)
}

// The image that has a word so often.
pub(crate) fn image_full_of(alloc: Global, word: u32, count: u32) -> Result<Vec<u8>, Fail> {
    let mut image = Vec::new(alloc);
    for _ in 0..count {
        image.extend_from_slice(&word.to_le_bytes())?;
    }
    Ok(image)
}

// What a sample with this branch stack, the youngest first, is told.
pub(crate) fn judged(rt: &impl Abort, image: &[u8], stack: &[Entry]) -> Result<(), Broken> {
    let mut sample = Sample::blank();
    for (from, to, flags) in stack {
        assert!(rt; sample.branches.items().len() < 256);
        sample.branches.push(Branch {
            from: *from,
            to: *to,
            flags: *flags,
        });
    }
    check_sample(image, &sample)
}

// The answer that names this branch and rule.
pub(crate) fn broken(branch: u16, why: Why) -> Result<(), Broken> {
    Err(Broken { branch, why })
}

// A call of the next word but one, one of the word behind that, and two of several jumps to the next
// word, between which a third stands.
#[test]
fn stacks_are_judged_by_the_code(rt: HostRuntime) -> Result<(), Fail> {
    let call = image_of(rt.alloc(), &[CALL])?;
    let jumps = image_of(rt.alloc(), &[0x0040_006F; 17])?;
    assert_eq!(rt; judged(&rt, &call, &[]), Ok(()));
    assert_eq!(rt; judged(&rt, &call, &[(BASE, BASE + 8, 0x40_0000)]), Ok(()));
    assert_eq!(rt;
        judged(&rt, &call, &[(BASE, BASE + 12, 0x40_0000)]),
        broken(0, Why::Target)
    );
    let two = [(BASE + 8, BASE + 12, UNCOND), (BASE, BASE + 4, UNCOND)];
    assert_eq!(rt; judged(&rt, &jumps, &two), broken(0, Why::Gap));
    check_laws();
    Ok(())
}
