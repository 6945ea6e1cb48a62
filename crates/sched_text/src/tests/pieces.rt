ghost use Rattle.std.specs.Prelude.{◌<◌};

use super::{Answers, SCHEDULE, START, comes_to, joined, read_all, repeat};
use crate::{Command, ScheduleReader};
use ctr_port::{Got, MemSource, Source};
use std::alloc::Global;
use std::process::Abort;
use std::test::*;

#[test]
fn a_short_schedule_is_read_alike_in_any_pieces(rt: HostRuntime) -> Result<(), Fail> {
    comes_to(&rt, rt.alloc(), "whole", SCHEDULE.as_bytes(), 2, None)
}

// Bytes 0 to 250, again and again: a line feed among them.
fn first_image(alloc: Global, len: u32) -> Result<Vec<u8>, Fail> {
    let mut image = Vec::new(alloc);
    for i in 0..len {
        image.push((i % 251) as u8)?;
    }
    Ok(image)
}

// Bytes 255 to 15, again and again.
fn second_image(alloc: Global, len: u32) -> Result<Vec<u8>, Fail> {
    let mut image = Vec::new(alloc);
    for i in 0..len {
        image.push(255 - (i % 241) as u8)?;
    }
    Ok(image)
}

// The i-th command.
fn command(i: u32) -> Command {
    match i % 3 {
        0 => Command::Run {
            hart: u64::from(i % 17),
            task: u64::from(i) * 4_294_967_291,
            steps: i.saturating_mul(1_000_003).min(1_000_000_000),
        },
        1 => Command::Sample {
            task: u64::MAX - u64::from(i),
        },
        _ => Command::Evict {
            hart: u64::from(i % 11),
        },
    }
}

fn commands(alloc: Global, count: u32) -> Result<Vec<Command>, Fail> {
    let mut all = Vec::new(alloc);
    for i in 0..count {
        all.push(command(i))?;
    }
    Ok(all)
}

// The lines of these commands, and `end`.
fn written(alloc: Global, commands: &[Command]) -> Result<Vec<u8>, Fail> {
    let mut text = Vec::new(alloc);
    for command in commands {
        let line = match *command {
            Command::Run { hart, task, steps } => {
                format!(in alloc; "run {hart} {task} {steps}\n")?
            }
            Command::Sample { task } => format!(in alloc; "sample {task}\n")?,
            Command::Evict { hart } => format!(in alloc; "evict {hart}\n")?,
            Command::End => format!(in alloc; "end\n")?,
        };
        text.extend_from_slice(line.as_bytes())?;
    }
    text.extend_from_slice(b"end\n")?;
    Ok(text)
}

// A schedule of two tasks with these images.
fn schedule(
    alloc: Global,
    first: &[u8],
    second: &[u8],
    commands: &[Command],
) -> Result<Vec<u8>, Fail> {
    let head = format!(in alloc;
        "ctr-schedule 1\nharts 16\nlayout 10bcf\n\
         task {} 16384 0 4 0 0\ntask {} 16384 4 6 2 1000\n\
         irq 0 1000 3\nirq 1 0 13\nimages\n",
        first.len(),
        second.len()
    )?;
    let mut text = joined(alloc, &[&head])?;
    text.extend_from_slice(first)?;
    text.extend_from_slice(second)?;
    text.extend_from_slice(&written(alloc, commands)?)?;
    Ok(text)
}

// Whether the image at this place has these bytes.
fn image_is(answers: &Answers, place: usize, bytes: &[u8]) -> bool {
    match answers.images.get(place) {
        Some(image) => image.items() == bytes,
        None => false,
    }
}

// Reads a schedule of images of these lengths in pieces of this length, and compares each answer
// with what was written.
fn is_read_as_written(
    rt: &impl Abort,
    alloc: Global,
    lengths: (u32, u32),
    count: u32,
    piece: usize,
) -> Result<(), Fail>
    requires { 0 < piece }
{
    let first = first_image(alloc, lengths.0)?;
    let second = second_image(alloc, lengths.1)?;
    let commands = commands(alloc, count)?;
    let text = schedule(alloc, &first, &second, &commands)?;
    let mut source = MemSource::new(alloc, &text, &[piece], &[])?;
    let answers = read_all(alloc, &mut ScheduleReader::new(), &mut source)?;
    assert_eq!(rt; answers.fault, None, "in pieces of {piece}");
    assert_eq!(rt; answers.images.len(), 2);
    assert!(rt;
        image_is(&answers, 0, &first),
        "the first image in pieces of {piece}"
    );
    assert!(rt;
        image_is(&answers, 1, &second),
        "the second image in pieces of {piece}"
    );
    assert!(rt;
        answers.commands.as_slice() == commands.as_slice(),
        "the commands in pieces of {piece}"
    );
    Ok(())
}

#[test]
fn a_schedule_longer_than_the_window_is_read_alike_in_any_pieces(
    rt: HostRuntime,
) -> Result<(), Fail> {
    for piece in [1, 2, 7, 4095, 4096, 4097] {
        is_read_as_written(&rt, rt.alloc(), (9001, 4099), 900, piece)?;
    }
    Ok(())
}

#[test]
fn a_window_may_end_at_any_byte_of_an_image_or_a_line(rt: HostRuntime) -> Result<(), Fail> {
    // The longest command line has 31 bytes with its line feed.
    for length in 8150..8200 {
        for piece in [4095, 4096, 4097] {
            is_read_as_written(&rt, rt.alloc(), (length, 41), 300, piece)?;
        }
    }
    Ok(())
}

#[test]
fn no_byte_behind_an_image_is_taken_with_it(rt: HostRuntime) -> Result<(), Fail> {
    let mut text = joined(rt.alloc(), &[START, "task 9000 9000 0 4 0 0\nimages\n"])?;
    repeat(&mut text, "abc", 3000)?;
    text.extend_from_slice(b"end\n")?;
    for piece in [1, 7, 4096, 10_000] {
        let mut source = MemSource::new(rt.alloc(), &text, &[piece], &[])?;
        let mut reader = ScheduleReader::new();
        let header = reader.header(rt.alloc(), &mut source);
        assert!(rt; header.is_ok(), "at {piece}");
        let image = reader.image(rt.alloc(), &mut source, 9000);
        assert!(rt; image.is_ok(), "at {piece}");
        let mut left = 0usize;
        let mut buf = [0; 16];
        for _ in 0..16 {
            if let Got::Bytes(count) = source.read(&mut buf) {
                left = left.saturating_add(count);
            }
        }
        assert_eq!(rt; left, 4, "at {piece}");
    }
    Ok(())
}

#[test]
fn commands_alone_are_read(rt: HostRuntime) -> Result<(), Fail> {
    let mut source = MemSource::new(rt.alloc(), b"evict 3\nend\n", &[5], &[])?;
    let mut reader = ScheduleReader::commands_only();
    let first = reader.command(&mut source);
    assert_eq!(rt; first, Ok(Command::Evict { hart: 3 }));
    assert_eq!(rt; reader.line(), 1);
    let last = reader.command(&mut source);
    assert_eq!(rt; last, Ok(Command::End));
    assert_eq!(rt; reader.line(), 2);
    Ok(())
}
