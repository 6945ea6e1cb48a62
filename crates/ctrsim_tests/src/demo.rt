// The word `demo`.
use crate::call::{
    CANNOT_WRITE, CANNOT_WRITE_SAID, DONE, Held, USAGE, USAGE_SAID, call, ends, leaves, run,
    writing,
};
use ctr_port::{MemSink, MemSource, NoMemory};

const ONE: &[u8] = b"samples 1 bytes 56 branches 1\n";

/// What is written after eight turns.
pub const EIGHT: &[u8] = b"samples 37 bytes 13808 branches 526\n";

const AFTER_ONE: &[Held] = &[(1, 137, Some(0))];

/// What the harts hold after eight turns.
///
/// Hart h has task h, and then task h + 4. With d entries a restore takes 4 * d + 6 accesses, a save
/// 4 * d + 5 and a sample 4 * d + 3. The tasks make 1, 5, 11, 19, 29, 41, 55 and 71 steps, a sample
/// at each seventh and one behind the last; they have 16, 32, 64, 128, 256, 16, 32 and 64 entries.
pub const AFTER_EIGHT: &[Held] = &[
    (30, 6_371, Some(4)), // 70 + 67 + 69, and 1030 + 5 * 1027
    (46, 870, Some(5)), // 134 + 131 + 133, and 70 + 6 * 67
    (66, 2_223, Some(6)), // 262 + 2 * 259 + 261, and 134 + 8 * 131
    (90, 5_691, Some(7)), // 518 + 3 * 515 + 517, and 262 + 11 * 259
];

#[test]
fn demo_says_what_its_samples_come_to(rt: HostRuntime) -> Result<(), NoMemory> {
    for word in ["1", "000001"] {
        let ended = run(rt.alloc(), &["demo", word], b"not read", &[])?;
        ends(&rt, "one turn", &ended, DONE, b"", ONE);
        leaves(&rt, "one turn", &ended, AFTER_ONE);
    }
    let ended = run(rt.alloc(), &["demo", "8"], b"", &[])?;
    ends(&rt, "eight turns", &ended, DONE, b"", EIGHT);
    leaves(&rt, "eight turns", &ended, AFTER_EIGHT);
    Ok(())
}

#[test]
fn demo_reads_nothing(rt: HostRuntime) -> Result<(), NoMemory> {
    let mut source = MemSource::new(rt.alloc(), b"end\n", &[], &[0])?;
    let sink = MemSink::new(rt.alloc(), 64, &[], &[])?;
    let notes = MemSink::new(rt.alloc(), 64, &[], &[])?;
    let ended = call(rt.alloc(), &["demo", "1"], &mut source, sink, notes)?;
    ends(&rt, "a source that fails", &ended, DONE, b"", ONE);
    Ok(())
}

#[test]
fn a_write_that_fails_leaves_a_proper_prefix_and_the_harts_of_all_turns(
    rt: HostRuntime,
) -> Result<(), NoMemory> {
    let mut at = 0usize;
    for k in 0..4u64 {
        let ended = writing(rt.alloc(), &["demo", "8"], b"", &[10], &[k])?;
        let part = EIGHT.get(..at).unwrap_or(b"");
        ends(
            &rt,
            "a write",
            &ended,
            CANNOT_WRITE,
            CANNOT_WRITE_SAID,
            part,
        );
        leaves(&rt, "a write", &ended, AFTER_EIGHT);
        at = at.saturating_add(10);
    }
    let ended = writing(rt.alloc(), &["demo", "8"], b"", &[10], &[4])?;
    ends(&rt, "no further write", &ended, DONE, b"", EIGHT);
    Ok(())
}

const OTHER_WORDS: [&[&str]; 8] = [
    &["demo"],
    &["demo", ""],
    &["demo", "0"],
    &["demo", "100001"],
    &["demo", "0000001"], // seven digits
    &["demo", "+1"],
    &["demo", "1x"],
    &["demo", "1", "1"],
];

#[test]
fn other_numbers_are_usage(rt: HostRuntime) -> Result<(), NoMemory> {
    for words in OTHER_WORDS {
        let ended = run(rt.alloc(), words, b"", &[])?;
        ends(&rt, "another number", &ended, USAGE, USAGE_SAID, b"");
        assert!(rt; ended.harts.is_fresh(), "the harts were touched");
    }
    Ok(())
}
