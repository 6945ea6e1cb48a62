use super::{
    IMAGE, START, TASK, comes_in_pieces_to, joined, refuses_each, refuses_each_at_once, repeat,
};
use crate::Reason;
use std::alloc::Global;
use std::process::Abort;
use std::test::*;

// A line of 254 bytes in its place: what stands before it, its words, the zeros behind them, its
// number, and how many commands there are behind it.
struct Place {
    front: &'static str,
    words: &'static str,
    zeros: u32,
    line: u32,
    commands: usize,
}

const PLACES: &[Place] = &[
    Place {
        front: "",
        words: "ctr-schedule ",
        zeros: 241,
        line: 1,
        commands: 0,
    },
    Place {
        front: "ctr-schedule 1\n",
        words: "harts ",
        zeros: 248,
        line: 2,
        commands: 0,
    },
    Place {
        front: "ctr-schedule 1\nharts 1\nlayout 803\n",
        words: "task 4 8 0 4 0 ",
        zeros: 239,
        line: 4,
        commands: 0,
    },
    Place {
        front: "ctr-schedule 1\nharts 1\nlayout 803\ntask 4 8 0 4 0 0\n",
        words: "irq 0 5 ",
        zeros: 246,
        line: 5,
        commands: 0,
    },
    Place {
        front: "ctr-schedule 1\nharts 1\nlayout 803\ntask 4 8 0 4 0 0\nimages\nabcd",
        words: "sample ",
        zeros: 247,
        line: 6,
        commands: 1,
    },
    Place {
        front: "ctr-schedule 1\nharts 1\nlayout 803\ntask 4 8 0 4 0 0\nimages\nabcd",
        words: "run 0 0 ",
        zeros: 246,
        line: 6,
        commands: 1,
    },
    Place {
        front: "ctr-schedule 1\nharts 1\nlayout 803\ntask 4 8 0 4 0 0\nimages\n\
                abcdrun 0 0 1\nsample 0\n",
        words: "evict ",
        zeros: 248,
        line: 8,
        commands: 3,
    },
];

// Behind 254 bytes of a line that ends in a number.
const NUMBER_ENDS: &[(&str, Reason)] = &[
    ("", Reason::Cut),
    ("1", Reason::Cut), // 255 bytes
    ("x\n", Reason::NotNumber), // 255 bytes and a line feed
    ("x1", Reason::LongLine), // 256 bytes
    ("11", Reason::LongLine),
    ("11\n", Reason::LongLine), // 256 bytes and a line feed
    ("1111111111", Reason::LongLine),
    ("1111111111\nend\n", Reason::LongLine),
];

fn ends_of_a_long_line(rt: &impl Abort, alloc: Global, place: &Place) -> Result<(), Fail> {
    let mut text = joined(alloc, &[place.front, place.words])?;
    repeat(&mut text, "0", place.zeros)?;
    let before = place.commands.saturating_sub(1);
    refuses_each(rt, alloc, &text, place.line, before, NUMBER_ENDS)?;
    // 255 bytes and a line feed: the line is taken, and the next one isn't there.
    let next = place.line.saturating_add(1);
    refuses_each(
        rt,
        alloc,
        &text,
        next,
        place.commands,
        &[("1\n", Reason::Cut)],
    )
}

#[test]
fn a_line_has_255_bytes_at_most(rt: HostRuntime) -> Result<(), Fail> {
    for place in PLACES {
        ends_of_a_long_line(&rt, rt.alloc(), place)?;
    }
    Ok(())
}

// Behind 254 bytes of a line that is one word.
const WORD_ENDS: &[(&str, Reason)] = &[
    ("0", Reason::Cut), // 255 bytes
    ("0\n", Reason::NotWord), // 255 bytes and a line feed
    (" \n", Reason::NotWord),
    ("00", Reason::LongLine), // 256 bytes
    ("00\n", Reason::LongLine), // 256 bytes and a line feed
];

#[test]
fn a_long_line_in_place_of_images_or_end_is_judged_by_its_length(
    rt: HostRuntime,
) -> Result<(), Fail> {
    let mut text = joined(rt.alloc(), &[START, TASK, "images"])?;
    repeat(&mut text, "0", 248)?;
    refuses_each(&rt, rt.alloc(), &text, 5, 0, WORD_ENDS)?;
    let mut text = joined(rt.alloc(), &[START, TASK, IMAGE, "sample 0\nend"])?;
    repeat(&mut text, "0", 251)?;
    refuses_each(&rt, rt.alloc(), &text, 7, 1, WORD_ENDS)
}

#[test]
fn the_words_of_a_command_line_of_255_bytes_are_looked_at(rt: HostRuntime) -> Result<(), Fail> {
    let mut text = joined(rt.alloc(), &[START, TASK, IMAGE, "run 0 0 "])?;
    repeat(&mut text, "0", 237)?;
    refuses_each(
        &rt,
        rt.alloc(),
        &text,
        6,
        0,
        &[
            ("1000000001\n", Reason::Range), // 255 bytes
            ("01000000001\n", Reason::LongLine), // 256 bytes
            ("100000000 \n", Reason::NotWord),
        ],
    )?;
    refuses_each(
        &rt,
        rt.alloc(),
        &text,
        7,
        1,
        &[("1000000000\n", Reason::Cut)],
    )
}

#[test]
fn there_are_64_tasks_at_most(rt: HostRuntime) -> Result<(), Fail> {
    let mut text = joined(rt.alloc(), &[START])?;
    repeat(&mut text, "task 0 4 0 4 0 0\n", 64)?;
    refuses_each(
        &rt,
        rt.alloc(),
        &text,
        68,
        0,
        &[
            ("task 0 4 0 4 0 0\n", Reason::TooMany),
            ("task 1048576 1048576 4 0 0 1000000000\n", Reason::TooMany),
            ("task 0 6 0 4 0 0\n", Reason::Range), // before the number of lines
            ("task 0 4 0 4 0 x\n", Reason::NotNumber),
            ("task 0 4 0 4 0\n", Reason::NotWord),
            ("irq 64 5 3\n", Reason::NoTask),
        ],
    )?;
    refuses_each(
        &rt,
        rt.alloc(),
        &text,
        70,
        0,
        &[("irq 63 5 3\nimages\n", Reason::Cut)],
    )
}

// 64 tasks, and 1,024 irq lines of each: 65,603 lines.
fn all_irqs(alloc: Global) -> Result<Vec<u8>, Fail> {
    let mut text = joined(alloc, &[START])?;
    repeat(&mut text, "task 0 4 0 4 0 0\n", 64)?;
    for step in 0..1024u32 {
        for task in 0..64u32 {
            text.extend_from_slice(format!(in alloc; "irq {task} {step} 3\n")?.as_bytes())?;
        }
    }
    Ok(text)
}

// Where there is no irq line more.
const BEHIND_ALL_IRQS: &[(&str, Reason)] = &[
    ("irq 0 1024 3\n", Reason::TooMany),
    ("irq 63 1024 3\n", Reason::TooMany),
    ("irq 64 1024 3\n", Reason::NoTask),
    ("task 0 4 0 4 0 0\n", Reason::NotWord),
    ("images", Reason::Cut),
];

#[test]
fn there_are_1024_irq_lines_of_each_task_at_most(rt: HostRuntime) -> Result<(), Fail> {
    let mut text = all_irqs(rt.alloc())?;
    refuses_each_at_once(&rt, rt.alloc(), &text, 65604, 0, BEHIND_ALL_IRQS)?;
    text.extend_from_slice(b"images\nend\n")?;
    comes_in_pieces_to(&rt, rt.alloc(), "all irq lines", &text, 4096, 0, None)
}

// Five lines, an image, and all command lines that there may be but one: 2^20 less 1.
fn nearly_all_commands(alloc: Global) -> Result<Vec<u8>, Fail> {
    let mut lines = joined(alloc, &["run 0 0 1\nevict 0\nsample 0\nsample 0\n"])?;
    for _ in 0..18 {
        let half = Vec::from_slice(alloc, &lines)?;
        lines.extend_from_slice(&half)?;
    }
    // Without the last line `sample 0`.
    lines.truncate(lines.len().saturating_sub(9));
    let mut text = joined(alloc, &[START, TASK, IMAGE])?;
    text.extend_from_slice(&lines)?;
    Ok(text)
}

fn refuses_the_last_command_line(
    rt: &impl Abort,
    alloc: Global,
    refusal: (&str, Reason),
) -> Result<(), Fail> {
    let text = nearly_all_commands(alloc)?;
    refuses_each_at_once(rt, alloc, &text, 1_048_581, 1_048_575, &[refusal])
}

fn refuses_one_command_line_more(
    rt: &impl Abort,
    alloc: Global,
    refusal: (&str, Reason),
) -> Result<(), Fail> {
    let mut text = nearly_all_commands(alloc)?;
    text.extend_from_slice(b"sample 0\n")?;
    refuses_each_at_once(rt, alloc, &text, 1_048_582, 1_048_576, &[refusal])
}

#[test]
fn an_input_that_ends_before_the_last_command_line_is_cut(rt: HostRuntime) -> Result<(), Fail> {
    refuses_the_last_command_line(&rt, rt.alloc(), ("", Reason::Cut))
}

#[test]
fn unexpected_words_are_refused_in_the_last_command_line(rt: HostRuntime) -> Result<(), Fail> {
    refuses_the_last_command_line(&rt, rt.alloc(), ("sample\n", Reason::NotWord))
}

#[test]
fn what_is_no_number_is_refused_in_the_last_command_line(rt: HostRuntime) -> Result<(), Fail> {
    refuses_the_last_command_line(&rt, rt.alloc(), ("sample x\n", Reason::NotNumber))
}

#[test]
fn a_number_out_of_range_is_refused_in_the_last_command_line(rt: HostRuntime) -> Result<(), Fail> {
    let refusal = ("run 0 0 1000000001\n", Reason::Range);
    refuses_the_last_command_line(&rt, rt.alloc(), refusal)
}

#[test]
fn there_may_be_1048576_command_lines_and_the_end(rt: HostRuntime) -> Result<(), Fail> {
    let mut text = nearly_all_commands(rt.alloc())?;
    text.extend_from_slice(b"sample 0\nend\n")?;
    comes_in_pieces_to(
        &rt,
        rt.alloc(),
        "all command lines",
        &text,
        4096,
        1_048_576,
        None,
    )
}

#[test]
fn command_line_1048577_is_too_many(rt: HostRuntime) -> Result<(), Fail> {
    refuses_one_command_line_more(&rt, rt.alloc(), ("sample 0\n", Reason::TooMany))
}

#[test]
fn command_line_1048577_is_out_of_range_before_it_is_too_many(rt: HostRuntime) -> Result<(), Fail> {
    let refusal = ("run 0 0 1000000001\n", Reason::Range);
    refuses_one_command_line_more(&rt, rt.alloc(), refusal)
}

#[test]
fn nothing_follows_the_end_behind_all_command_lines(rt: HostRuntime) -> Result<(), Fail> {
    let mut text = nearly_all_commands(rt.alloc())?;
    text.extend_from_slice(b"sample 0\n")?;
    let refusal = ("end\nx", Reason::Trailing);
    refuses_each_at_once(&rt, rt.alloc(), &text, 1_048_583, 1_048_576, &[refusal])
}
