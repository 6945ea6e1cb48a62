// Samples shown as text.
use crate::call::{
    CANNOT_READ, CANNOT_READ_SAID, CANNOT_WRITE, CANNOT_WRITE_SAID, DONE, Ended, USAGE, USAGE_SAID,
    ends, reading, run, writing,
};
use ctr_port::NoMemory;
use ctr_vectors::{BROKEN, BrokenSample, bytes_of_samples, bytes_of_words};
use std::alloc::{AllocError, Global};
use std::process::Abort;

// The fields of a sample of the layout 803, as words of eight bytes.
const CALL: [u64; 7] = [
    0x0038_0003_0000_0009, // a sample of mode M, 56 bytes
    0x8000_0008, // ip
    0x0001_0000_0001, // pid, tid
    1, // one branch
    0x8000_0000, // from
    0x8000_0008, // to
    0x0040_0000, // flags: a call
];

const CALL_TEXT: &[u8] = b"sample 0 misc 3 size 56\n\
ip 0x0000000080000008\n\
pid 1 tid 1\n\
branches 1\n\
0x0000000080000000 0x0000000080000008 call 0x0000000000400000\n";

// Two samples of the layout 883, the second without branches.
const TWO: [u64; 13] = [
    0x0040_0001_0000_0009, // a sample of mode S, 64 bytes
    0x8000_0004, // ip
    0x0001_0000_0001, // pid, tid
    7, // cpu
    1, // one branch
    0xFF00_0000_7FFF_FFFC, // from
    0x8000_0004, // to
    0x0010_0001, // flags: a conditional branch, mispredicted
    0x0028_0003_0000_0009, // a sample of mode M, 40 bytes
    0x0123_4567_89AB_CDEF, // ip
    0x0002_0000_0002, // pid, tid
    0, // cpu
    0, // no branch
];

const TWO_TEXT: &[u8] = b"sample 0 misc 1 size 64\n\
ip 0x0000000080000004\n\
pid 1 tid 1\n\
cpu 7\n\
branches 1\n\
0xff0000007ffffffc 0x0000000080000004 cond 0x0000000000100001\n\
sample 64 misc 3 size 40\n\
ip 0x0123456789abcdef\n\
pid 2 tid 2\n\
cpu 0\n\
branches 0\n";

// The length of the first sample's text.
const FIRST_OF_TWO: usize = 137;

// A sample of every field, without branches, with the place of the youngest entry.
const ALL: [u64; 12] = [
    0x0060_0005_0000_0009, // a sample of mode VU, 96 bytes
    16, // identifier
    0x8000_0008, // ip
    0x000A_0000_0009, // pid, tid
    0xFFFF_FFFF_FFFF_FFFF, // time
    0xDEAD, // addr
    17, // id
    18, // stream_id
    15, // cpu
    100, // period
    0, // no branch
    0xFFFF_FFFF_FFFF_FFFF, // no youngest entry
];

const ALL_TEXT: &[u8] = b"sample 0 misc 5 size 96\n\
identifier 0x0000000000000010\n\
ip 0x0000000080000008\n\
pid 9 tid 10\n\
time 18446744073709551615\n\
addr 0x000000000000dead\n\
id 0x0000000000000011\n\
stream_id 0x0000000000000012\n\
cpu 15\n\
period 100\n\
branches 0\n\
hw_index 0xffffffffffffffff\n";

// A call showed this text and nothing else.
fn shows(rt: &impl Abort, name: &str, ended: &Ended, text: &[u8]) {
    assert_eq!(rt; ended.outcome, DONE, "{name}");
    assert_eq!(rt; ended.sink.bytes(), text, "{name}");
    assert!(rt; ended.notes.bytes().is_empty(), "{name}: notes");
    assert!(rt; ended.harts.is_fresh(), "{name}: harts");
}

#[test]
fn samples_are_shown_line_by_line(rt: HostRuntime) -> Result<(), NoMemory> {
    let one = bytes_of_words(rt.alloc(), &CALL)?;
    let ended = run(rt.alloc(), &["show", "803"], &one, &[])?;
    shows(&rt, "one call", &ended, CALL_TEXT);
    let two = bytes_of_words(rt.alloc(), &TWO)?;
    let ended = run(rt.alloc(), &["show", "883"], &two, &[5])?;
    shows(&rt, "two samples in pieces of 5", &ended, TWO_TEXT);
    let ended = run(rt.alloc(), &["show", "883"], &two, &[1])?;
    shows(&rt, "two samples in pieces of 1", &ended, TWO_TEXT);
    Ok(())
}

#[test]
fn every_field_has_its_line(rt: HostRuntime) -> Result<(), NoMemory> {
    let all = bytes_of_words(rt.alloc(), &ALL)?;
    for word in ["10bcf", "0000000000010BCF"] {
        let ended = run(rt.alloc(), &["show", word, "20000"], &all, &[])?;
        shows(&rt, "every field", &ended, ALL_TEXT);
    }
    for words in [LAYOUT, &["show", "803", "0"]] {
        let ended = run(rt.alloc(), words, &[], &[])?;
        shows(&rt, "no sample", &ended, b"");
    }
    Ok(())
}

const LAYOUT: &[&str] = &["show", "803"];

// The types of branches by their numbers (`perf_event.h`, enum perf_branch_type).
const TYPES: [&str; 16] = [
    "unknown",
    "cond",
    "uncond",
    "ind",
    "call",
    "ind_call",
    "ret",
    "syscall",
    "sysret",
    "cond_call",
    "cond_ret",
    "eret",
    "irq",
    "serror",
    "no_tx",
    "extend_abi",
];

#[test]
fn every_type_of_branch_has_its_name(rt: HostRuntime) -> Result<(), NoMemory> {
    // a sample of mode M, 32 + 16 * 24 bytes, with ip, pid and tid 0
    let mut words = Vec::new(rt.alloc());
    words.extend_from_slice(&[0x01A0_0003_0000_0009u64, 0, 0, 16])?;
    let mut text = Vec::new(rt.alloc());
    text.extend_from_slice(b"sample 0 misc 3 size 416\nip 0x0000000000000000\n")?;
    text.extend_from_slice(b"pid 0 tid 0\nbranches 16\n")?;
    let digits = b"0123456789abcdef";
    for (kind, name) in TYPES.iter().enumerate() {
        words.extend_from_slice(&[0, 0, (kind as u64) << 20])?;
        text.extend_from_slice(b"0x0000000000000000 0x0000000000000000 ")?;
        text.extend_from_slice(name.as_bytes())?;
        text.extend_from_slice(b" 0x0000000000")?;
        text.push(digits.get(kind).copied().unwrap_or(b'?'))?;
        text.extend_from_slice(b"00000\n")?;
    }
    let bytes = bytes_of_words(rt.alloc(), &words)?;
    let ended = run(rt.alloc(), LAYOUT, &bytes, &[])?;
    shows(&rt, "every type", &ended, &text);
    Ok(())
}

// A sample of every field with one branch, and the names of its words behind the header.
const ALL_WITH_ONE: [u64; 15] = [
    0x0078_0005_0000_0009, // a sample of mode VU, 120 bytes
    16,
    0x8000_0008,
    0x000A_0000_0009,
    7,
    0xDEAD,
    17,
    18,
    15,
    100,
    1, // one branch
    0, // the youngest is in entry 0
    0x8000_0000,
    0x8000_0008,
    0x0040_0000,
];

const WORDS: [&str; 14] = [
    "identifier",
    "ip",
    "tid",
    "time",
    "addr",
    "id",
    "stream_id",
    "cpu",
    "period",
    "nr",
    "hw_index",
    "from 0",
    "to 0",
    "flags 0",
];

#[test]
fn a_sample_that_is_cut_is_cut_in_the_field_of_its_name(rt: HostRuntime) -> Result<(), NoMemory> {
    let all = bytes_of_words(rt.alloc(), &ALL_WITH_ONE)?;
    for (k, word) in WORDS.iter().enumerate() {
        // the header, the words before, and three bytes of this one
        let len = k.saturating_mul(8).saturating_add(11);
        let part = all.get(..len).unwrap_or(b"");
        assert_eq!(rt; part.len(), len);
        let ended = run(rt.alloc(), &["show", "10BCF", "20000"], part, &[])?;
        let mut said = Vec::new(rt.alloc());
        for text in ["ctrsim: sample at 0: cut in ", word, "\n"] {
            said.extend_from_slice(text.as_bytes())?;
        }
        refuses(&rt, &ended, b"", &said);
    }
    Ok(())
}

// A call refused a sample behind one that was shown, and said this of it.
fn refuses(rt: &impl Abort, ended: &Ended, text: &[u8], said: &[u8]) {
    assert_eq!(rt; ended.outcome.status, 6);
    assert_eq!(rt; ended.notes.bytes(), said);
    assert_eq!(rt; ended.sink.bytes(), text);
    assert!(rt; ended.harts.is_fresh(), "the harts were touched");
}

// What is said of a sample at the beginning of the input.
fn said_of(alloc: Global, what: &str) -> Result<Vec<u8>, AllocError> {
    let mut said = Vec::new(alloc);
    for part in ["ctrsim: sample at 0: ", what, "\n"] {
        said.extend_from_slice(part.as_bytes())?;
    }
    Ok(said)
}

fn is_refused(rt: &impl Abort, alloc: Global, broken: &BrokenSample) -> Result<(), NoMemory> {
    let mut bytes = bytes_of_words(alloc, &CALL)?;
    for (i, byte) in broken.bytes.iter().enumerate() {
        let at = broken.at.saturating_add(i);
        assert!(rt; at < bytes.len(), "a byte of the sample");
        bytes[at] = *byte;
    }
    bytes.truncate(broken.len);
    let said = said_of(alloc, broken.said)?;
    let words = ["show", broken.layout, broken.branch];
    let ended = run(alloc, &words, bytes.as_slice(), &[3])?;
    refuses(rt, &ended, b"", &said);
    Ok(())
}

#[test]
fn a_sample_that_is_none_is_refused_at_its_offset(rt: HostRuntime) -> Result<(), NoMemory> {
    for broken in &BROKEN {
        is_refused(&rt, rt.alloc(), broken)?;
    }
    Ok(())
}

#[test]
fn samples_before_the_one_that_is_refused_are_shown(rt: HostRuntime) -> Result<(), NoMemory> {
    let mut bytes = bytes_of_words(rt.alloc(), &CALL)?;
    bytes.extend_from_slice(b"\x09\0\0\0")?;
    let ended = run(rt.alloc(), LAYOUT, bytes.as_slice(), &[])?;
    refuses(
        &rt,
        &ended,
        CALL_TEXT,
        b"ctrsim: sample at 56: header cut\n",
    );
    Ok(())
}

// Of two tasks, in the layout 883.
const SUMMED_TEXT: &[u8] = b"sample 0 misc 3 size 160\n\
ip 0x0000000080000000\n\
pid 1 tid 1\n\
cpu 1\n\
branches 5\n\
0x0000000080000020 0x0000000080000000 call 0x0000000000400000\n\
0x0000000080000018 0x0000000080000020 cond 0x0000000000100001\n\
0x0000000080000020 0x0000000080000000 call 0x0000000000400000\n\
0x0000000080000018 0x0000000080000020 cond 0x0000000000100001\n\
0x000000008000001c 0x0000000080000000 uncond 0x0000000000200000\n\
sample 160 misc 3 size 160\n\
ip 0x0000000080000000\n\
pid 2 tid 2\n\
cpu 0\n\
branches 5\n\
0x0000000080000020 0x0000000080000000 call 0x0000000000400000\n\
0x0000000080000018 0x0000000080000020 cond 0x0000000000100001\n\
0x0000000080000020 0x0000000080000000 call 0x0000000000400000\n\
0x0000000080000018 0x0000000080000020 cond 0x0000000000100001\n\
0x000000008000001c 0x0000000080000000 uncond 0x0000000000200000\n";

#[test]
fn what_a_run_of_two_tasks_wrote_is_shown(rt: HostRuntime) -> Result<(), NoMemory> {
    let bytes = bytes_of_samples(rt.alloc(), crate::moves::SWAPPED)?;
    assert_eq!(rt; bytes.len(), 320);
    let ended = run(rt.alloc(), &["show", "883"], &bytes, &[5])?;
    shows(&rt, "two tasks", &ended, SUMMED_TEXT);
    Ok(())
}

const OTHER_WORDS: [&[&str]; 10] = [
    &["show"],
    &["show", "3"],
    &["show", ""],
    &["show", "803", "1"],
    &["show", "803", ""],
    &["show", "803", "0", "0"],
    &["show", "00000000000000803"], // 17 digits
    &["show", "0x803"],
    &["show", "1000000000000803"],
    &["Show", "803"],
];

#[test]
fn other_layouts_are_usage(rt: HostRuntime) -> Result<(), NoMemory> {
    let bytes = bytes_of_words(rt.alloc(), &CALL)?;
    for words in OTHER_WORDS {
        let ended = run(rt.alloc(), words, &bytes, &[])?;
        ends(&rt, "another layout", &ended, USAGE, USAGE_SAID, b"");
    }
    Ok(())
}

#[test]
fn a_read_that_fails_shows_the_samples_before_it(rt: HostRuntime) -> Result<(), NoMemory> {
    // 104 bytes in pieces of 8: the eighth read ends the first sample, the thirteenth the second,
    // and the fourteenth looks for the end.
    let bytes = bytes_of_words(rt.alloc(), &TWO)?;
    for k in 0..14u64 {
        let ended = reading(rt.alloc(), &["show", "883"], &bytes, &[8], &[k])?;
        let shown = match k {
            0..=7 => 0,
            8..=12 => FIRST_OF_TWO,
            _ => TWO_TEXT.len(),
        };
        let text = TWO_TEXT.get(..shown).unwrap_or(b"");
        ends(&rt, "a read", &ended, CANNOT_READ, CANNOT_READ_SAID, text);
        assert!(rt; ended.harts.is_fresh(), "read {k}");
    }
    let ended = reading(rt.alloc(), &["show", "883"], &bytes, &[8], &[14])?;
    shows(&rt, "no further read", &ended, TWO_TEXT);
    Ok(())
}

#[test]
fn a_write_that_fails_leaves_a_proper_prefix(rt: HostRuntime) -> Result<(), NoMemory> {
    // in pieces of 10, of which the last is shorter
    let bytes = bytes_of_words(rt.alloc(), &CALL)?;
    let mut at = 0usize;
    for k in 0..14u64 {
        let ended = writing(rt.alloc(), LAYOUT, &bytes, &[10], &[k])?;
        let text = CALL_TEXT.get(..at).unwrap_or(b"");
        ends(
            &rt,
            "a write",
            &ended,
            CANNOT_WRITE,
            CANNOT_WRITE_SAID,
            text,
        );
        assert!(rt; ended.harts.is_fresh(), "write {k}");
        at = at.saturating_add(10);
    }
    let ended = writing(rt.alloc(), LAYOUT, &bytes, &[10], &[14])?;
    shows(&rt, "no further write", &ended, CALL_TEXT);
    Ok(())
}
