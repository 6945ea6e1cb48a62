// Lines that are refused: what is said, and what was performed before them.
use crate::call::{DONE, Ended, ends, leaves, refused, run};
use ctr_port::NoMemory;
use ctr_vectors::CALL_BYTES;
use ctr_vectors::images::CALL;
use sched_text::Reason;
use std::alloc::{AllocError, Global};
use std::process::Abort;

// The lines of a schedule of one call; its image stands behind the line `images`.
const LINES: [&str; 8] = [
    "ctr-schedule 1\n",
    "harts 1\n",
    "layout 803\n",
    "task 4 8 0 4 0 0\n",
    "images\n",
    "run 0 0 1\n",
    "sample 0\n",
    "end\n",
];

// The place of the line that the image follows.
const IMAGES: usize = 4;

// The text of these lines with the words of an image.
fn text_of(alloc: Global, lines: &[&str], image: &[u32]) -> Result<Vec<u8>, AllocError> {
    let mut text = Vec::new(alloc);
    for (place, line) in lines.iter().enumerate() {
        text.extend_from_slice(line.as_bytes())?;
        if place == IMAGES {
            for word in image {
                text.extend_from_slice(&word.to_le_bytes())?;
            }
        }
    }
    Ok(text)
}

// The schedule of one call with other lines in this place.
fn one_call_with(alloc: Global, place: usize, line: &'static str) -> Result<Vec<u8>, AllocError> {
    let mut lines = LINES;
    if let Some(kept) = lines.get_mut(place) {
        *kept = line;
    }
    text_of(alloc, &lines, CALL)
}

// What was done before a line is refused.
#[derive(Clone, Copy, Debug, PartialEq, Eq)]
enum Before {
    Nothing,
    // one step was made
    Step,
    // and its sample was written
    Sample,
    // and the task was evicted
    Evicted,
}

// Lines in a place of the schedule of one call: which is refused, why, what is said of it, and what
// was done before.
type Row = (usize, &'static str, u32, Reason, &'static [u8], Before);

const ROWS: [Row; 34] = [
    // the first and the last place of each reason
    (
        0,
        "ctr-schedul 1\n",
        1,
        Reason::NotWord,
        b"ctrsim: line 1: unexpected words\n",
        Before::Nothing,
    ),
    (
        7,
        "ends\n",
        8,
        Reason::NotWord,
        b"ctrsim: line 8: unexpected words\n",
        Before::Sample,
    ),
    (
        0,
        "ctr-schedule one\n",
        1,
        Reason::NotNumber,
        b"ctrsim: line 1: not a number\n",
        Before::Nothing,
    ),
    (
        7,
        "evict x\nend\n",
        8,
        Reason::NotNumber,
        b"ctrsim: line 8: not a number\n",
        Before::Sample,
    ),
    (
        0,
        "ctr-schedule 3\n",
        1,
        Reason::Range,
        b"ctrsim: line 1: out of range\n",
        Before::Nothing,
    ),
    (
        7,
        "run 0 0 1000000001\nend\n",
        8,
        Reason::Range,
        b"ctrsim: line 8: out of range\n",
        Before::Sample,
    ),
    (
        4,
        "irq 1 0 1\nimages\n",
        5,
        Reason::NoTask,
        b"ctrsim: line 5: no such task\n",
        Before::Nothing,
    ),
    (
        7,
        "sample 1\nend\n",
        8,
        Reason::NoTask,
        b"ctrsim: line 8: no such task\n",
        Before::Sample,
    ),
    (
        5,
        "run 1 0 1\n",
        6,
        Reason::NoHart,
        b"ctrsim: line 6: no such hart\n",
        Before::Nothing,
    ),
    (
        7,
        "evict 1\nend\n",
        8,
        Reason::NoHart,
        b"ctrsim: line 8: no such hart\n",
        Before::Sample,
    ),
    (
        5,
        "sample 0\n",
        6,
        Reason::NotResident,
        b"ctrsim: line 6: task is on no hart\n",
        Before::Nothing,
    ),
    (
        7,
        "evict 0\nsample 0\nend\n",
        9,
        Reason::NotResident,
        b"ctrsim: line 9: task is on no hart\n",
        Before::Evicted,
    ),
    (
        5,
        "evict 0\n",
        6,
        Reason::EmptyHart,
        b"ctrsim: line 6: hart has no task\n",
        Before::Nothing,
    ),
    (
        7,
        "evict 0\nevict 0\nend\n",
        9,
        Reason::EmptyHart,
        b"ctrsim: line 9: hart has no task\n",
        Before::Evicted,
    ),
    (
        3,
        "task 4 8 0 4 0 0\nirq 0 5 3\nirq 0 4 3\n",
        6,
        Reason::IrqOrder,
        b"ctrsim: line 6: interrupts out of order\n",
        Before::Nothing,
    ),
    (
        3,
        "task 4 8 0 4 0 0\nirq 0 5 3\nirq 0 6 3\nirq 0 6 3\n",
        7,
        Reason::IrqOrder,
        b"ctrsim: line 7: interrupts out of order\n",
        Before::Nothing,
    ),
    (
        7,
        "end\n\n",
        9,
        Reason::Trailing,
        b"ctrsim: line 9: input goes on\n",
        Before::Sample,
    ),
    (
        7,
        "end\nend\n",
        9,
        Reason::Trailing,
        b"ctrsim: line 9: input goes on\n",
        Before::Sample,
    ),
    // places between
    (
        1,
        "harts 17\n",
        2,
        Reason::Range,
        b"ctrsim: line 2: out of range\n",
        Before::Nothing,
    ),
    (
        1,
        "harts x\n",
        2,
        Reason::NotNumber,
        b"ctrsim: line 2: not a number\n",
        Before::Nothing,
    ),
    (
        1,
        "hart 1\n",
        2,
        Reason::NotWord,
        b"ctrsim: line 2: unexpected words\n",
        Before::Nothing,
    ),
    (
        1,
        "harts 1 1\n",
        2,
        Reason::NotWord,
        b"ctrsim: line 2: unexpected words\n",
        Before::Nothing,
    ),
    (
        1,
        "harts  1\n",
        2,
        Reason::NotWord,
        b"ctrsim: line 2: unexpected words\n",
        Before::Nothing,
    ),
    (
        2,
        "layout 3\n",
        3,
        Reason::Range,
        b"ctrsim: line 3: out of range\n",
        Before::Nothing,
    ),
    (
        3,
        "task 12 8 0 4 0 0\n",
        4,
        Reason::Range,
        b"ctrsim: line 4: out of range\n",
        Before::Nothing,
    ),
    (
        4,
        "irq 0 5 4\nimages\n",
        5,
        Reason::Range,
        b"ctrsim: line 5: out of range\n",
        Before::Nothing,
    ),
    (
        4,
        "irq 7 5 3\nimages\n",
        5,
        Reason::NoTask,
        b"ctrsim: line 5: no such task\n",
        Before::Nothing,
    ),
    (
        5,
        "run 1 1 1\n",
        6,
        Reason::NoTask,
        b"ctrsim: line 6: no such task\n",
        Before::Nothing,
    ),
    (
        6,
        "sample 18446744073709551616\n",
        7,
        Reason::NoTask,
        b"ctrsim: line 7: no such task\n",
        Before::Step,
    ),
    (
        6,
        "evict 18446744073709551616\n",
        7,
        Reason::NoHart,
        b"ctrsim: line 7: no such hart\n",
        Before::Step,
    ),
    (
        7,
        "",
        8,
        Reason::Cut,
        b"ctrsim: line 8: input ended\n",
        Before::Sample,
    ),
    // the branch word of version 2
    (
        2,
        "layout 803\nbranch 20000\n",
        4,
        Reason::NotWord,
        b"ctrsim: line 4: unexpected words\n",
        Before::Nothing,
    ),
    (
        0,
        "ctr-schedule 2\n",
        4,
        Reason::NotWord,
        b"ctrsim: line 4: unexpected words\n",
        Before::Nothing,
    ),
    (
        3,
        "",
        4,
        Reason::NotWord,
        b"ctrsim: line 4: unexpected words\n",
        Before::Nothing,
    ),
];

// The bytes and the harts are those of what was done before.
fn did(rt: &impl Abort, name: &str, ended: &Ended, before: Before) {
    let (bytes, held) = match before {
        Before::Nothing => (b"".as_slice(), (0, 0, None)),
        Before::Step => (b"".as_slice(), (1, 70, Some(0))),
        Before::Sample => (CALL_BYTES.as_slice(), (1, 137, Some(0))),
        Before::Evicted => (CALL_BYTES.as_slice(), (1, 206, None)),
    };
    assert_eq!(rt; ended.sink.bytes(), bytes, "{name}: output");
    leaves(rt, name, ended, &[held]);
    assert_eq!(rt; ended.harts.is_fresh(), before == Before::Nothing, "{name}");
}

fn is_refused(
    rt: &impl Abort,
    alloc: Global,
    name: &str,
    text: &[u8],
    want: (u32, Reason, &[u8], Before),
) -> Result<(), NoMemory> {
    let (line, reason, said, before) = want;
    let ended = run(alloc, &["run"], text, &[])?;
    assert_eq!(rt; ended.outcome, refused(line, reason), "{name}");
    assert_eq!(rt; ended.notes.bytes(), said, "{name}");
    did(rt, name, &ended, before);
    Ok(())
}

#[test]
fn a_line_is_refused_by_its_number_behind_what_was_performed(
    rt: HostRuntime,
) -> Result<(), NoMemory> {
    for (place, line, number, reason, said, before) in ROWS {
        let text = one_call_with(rt.alloc(), place, line)?;
        is_refused(&rt, rt.alloc(), line, &text, (number, reason, said, before))?;
    }
    Ok(())
}

// In version 2, with a line behind the layout.
const BRANCHES: [(&str, Reason, &[u8]); 2] = [
    (
        "layout 803\nbranch 8\n",
        Reason::Range,
        b"ctrsim: line 4: out of range\n",
    ),
    (
        "layout 803\nbranch g\n",
        Reason::NotNumber,
        b"ctrsim: line 4: not a number\n",
    ),
];

#[test]
fn a_branch_word_is_0_or_20000(rt: HostRuntime) -> Result<(), NoMemory> {
    for (line, reason, said) in BRANCHES {
        let mut lines = LINES;
        lines[0] = "ctr-schedule 2\n";
        lines[2] = line;
        let text = text_of(rt.alloc(), &lines, CALL)?;
        is_refused(
            &rt,
            rt.alloc(),
            line,
            &text,
            (4, reason, said, Before::Nothing),
        )?;
    }
    Ok(())
}

// A line of so many bytes before its line feed, which begins so and goes on with zeros up to the
// last byte.
fn padded(alloc: Global, begins: &[u8], len: usize, last: u8) -> Result<Vec<u8>, AllocError> {
    let mut line = Vec::from_slice(alloc, begins)?;
    line.resize(len.saturating_sub(1), b'0')?;
    line.push(last)?;
    line.push(b'\n')?;
    Ok(line)
}

// The schedule of one call with a long line in a place.
fn with_long(alloc: Global, place: usize, long: &[u8]) -> Result<Vec<u8>, AllocError> {
    let mut text = Vec::new(alloc);
    for (i, line) in LINES.iter().enumerate() {
        text.extend_from_slice(if i == place { long } else { line.as_bytes() })?;
        if i == IMAGES {
            text.extend_from_slice(b"\xEF\x00\x80\x00")?;
        }
    }
    Ok(text)
}

#[test]
fn a_line_of_256_bytes_is_too_long(rt: HostRuntime) -> Result<(), NoMemory> {
    let alloc = rt.alloc();
    for (place, begins, number, said, before) in [
        (
            0,
            b"ctr-schedule ".as_slice(),
            1,
            b"ctrsim: line 1: too long\n",
            Before::Nothing,
        ),
        (
            1,
            b"harts ".as_slice(),
            2,
            b"ctrsim: line 2: too long\n",
            Before::Nothing,
        ),
        (
            7,
            b"end".as_slice(),
            8,
            b"ctrsim: line 8: too long\n",
            Before::Sample,
        ),
    ] {
        let line = padded(alloc, begins, 256, b'1')?;
        let text = with_long(alloc, place, &line)?;
        is_refused(
            &rt,
            alloc,
            "long",
            &text,
            (number, Reason::LongLine, said, before),
        )?;
    }
    Ok(())
}

#[test]
fn a_line_of_255_bytes_is_read(rt: HostRuntime) -> Result<(), NoMemory> {
    let line = padded(rt.alloc(), b"harts ", 255, b'1')?;
    let text = with_long(rt.alloc(), 1, &line)?;
    let ended = run(rt.alloc(), &["run"], &text, &[])?;
    ends(&rt, "255 bytes", &ended, DONE, b"", &CALL_BYTES);
    Ok(())
}

// So many lines behind those before the first task, and the rest of a schedule.
fn many(
    alloc: Global,
    first: &[u8],
    line: &[u8],
    count: u32,
    rest: &[u8],
) -> Result<Vec<u8>, AllocError> {
    let mut text = Vec::from_slice(alloc, b"ctr-schedule 1\nharts 1\nlayout 803\n")?;
    text.extend_from_slice(first)?;
    for _ in 0..count {
        text.extend_from_slice(line)?;
    }
    text.extend_from_slice(rest)?;
    Ok(text)
}

#[test]
fn there_are_64_tasks_at_most(rt: HostRuntime) -> Result<(), NoMemory> {
    let alloc = rt.alloc();
    let text = many(alloc, b"", b"task 0 4 0 4 0 0\n", 64, b"images\nend\n")?;
    let ended = run(alloc, &["run"], &text, &[])?;
    ends(&rt, "64 tasks", &ended, DONE, b"", b"");
    let text = many(alloc, b"", b"task 0 4 0 4 0 0\n", 65, b"images\nend\n")?;
    let said = b"ctrsim: line 68: too many\n";
    is_refused(
        &rt,
        alloc,
        "65 tasks",
        &text,
        (68, Reason::TooMany, said, Before::Nothing),
    )
}

// As many irq lines, of rising steps, behind the line of a task.
fn irqs(alloc: Global, count: u16) -> Result<Vec<u8>, AllocError> {
    let mut text = Vec::from_slice(alloc, b"task 4 8 0 4 0 0\n")?;
    for i in 0..count {
        let digits = [
            b'0' + (i / 1000 % 10) as u8,
            b'0' + (i / 100 % 10) as u8,
            b'0' + (i / 10 % 10) as u8,
            b'0' + (i % 10) as u8,
        ];
        text.extend_from_slice(b"irq 0 ")?;
        text.extend_from_slice(&digits)?;
        text.extend_from_slice(b" 13\n")?;
    }
    Ok(text)
}

#[test]
fn there_are_1024_irq_lines_at_most(rt: HostRuntime) -> Result<(), NoMemory> {
    let alloc = rt.alloc();
    let lines = irqs(alloc, 1024)?;
    let text = with_long(alloc, 3, &lines)?;
    let ended = run(alloc, &["run"], &text, &[])?;
    ends(&rt, "1,024 irq lines", &ended, DONE, b"", &CALL_BYTES);
    let lines = irqs(alloc, 1025)?;
    let text = with_long(alloc, 3, &lines)?;
    let said = b"ctrsim: line 1029: too many\n";
    is_refused(
        &rt,
        alloc,
        "1,025 irq lines",
        &text,
        (1029, Reason::TooMany, said, Before::Nothing),
    )
}

// The lines before the first task, the line of a task without an image, and `images`.
const FIRST: &[u8] = b"task 0 4 0 4 0 0\nimages\n";

#[test]
fn there_are_1048576_commands_at_most(rt: HostRuntime) -> Result<(), NoMemory> {
    let alloc = rt.alloc();
    let text = many(alloc, FIRST, b"run 0 0 0\n", 1_048_577, b"end\n")?;
    let ended = run(alloc, &["run"], &text, &[])?;
    let said = b"ctrsim: line 1048582: too many\n";
    ends(
        &rt,
        "a command more",
        &ended,
        refused(1_048_582, Reason::TooMany),
        said,
        b"",
    );
    leaves(&rt, "a command more", &ended, &[(0, 70, Some(0))]);
    Ok(())
}
