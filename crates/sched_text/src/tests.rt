ghost use Rattle.std.specs.Prelude.{◌≡◌, ◌<◌, IfOk};
ghost use Rattle.sched_text.specs.Reader.{fresh};

use super::*;
use crate::reader::schedule_fault;
use ctr_port::MemSource;
use std::alloc::Global;
use std::process::Abort;
use std::test::*;

mod asked_again;
mod command_rules;
mod cuts;
mod edges;
mod header_rules;
mod limits;
mod outcomes;
mod pieces;

// Three lines, in front of the task lines.
const START: &str = "ctr-schedule 1\nharts 1\nlayout 803\n";

// Four lines of version 2.
const START_2: &str = "ctr-schedule 2\nharts 1\nlayout 803\nbranch 20000\n";

// A task with an image of four bytes.
const TASK: &str = "task 4 8 0 4 0 0\n";

// The line `images`, and the image of that task.
const IMAGE: &str = "images\nabcd";

const COMMANDS: &str = "run 0 0 1\nsample 0\nend\n";

// All of these: 85 bytes, whose lines end with bytes 15, 23, 34, 51, 58, 72, 81 and 85; the image
// ends with byte 62.
const SCHEDULE: &str =
    "ctr-schedule 1\nharts 1\nlayout 803\ntask 4 8 0 4 0 0\nimages\nabcdrun 0 0 1\nsample 0\nend\n";

// A schedule with a line of each kind, two tasks and two images: 146 bytes, whose lines end with
// bytes 15, 23, 34, 47, 64, 81, 91, 102, 109, 125, 133, 142 and 146; the images end with bytes 113
// and 115.
const EVERY_LINE: &str = "ctr-schedule 2\n\
harts 2\n\
layout 803\n\
branch 20000\n\
task 4 8 0 4 0 0\n\
task 2 8 0 4 0 0\n\
irq 0 5 3\n\
irq 1 5 13\n\
images\n\
abcdefrun 0 0 1\n\
evict 0\n\
sample 1\n\
end\n";

// What the calls of a reader answered, up to `end` or the refusal.
#[derive(Drop)]
struct Answers {
    images: Vec<Image>,
    commands: Vec<Command>,
    fault: Option<ScheduleFault>,
}

fn refused(line: u32, reason: Reason) -> Option<ScheduleFault> {
    Some(ScheduleFault::Line(LineFault { line, reason }))
}

// The parts of a text, one behind another.
fn joined(alloc: Global, parts: &[&str]) -> Result<Vec<u8>, Fail> {
    let mut text = Vec::new(alloc);
    for part in parts {
        text.extend_from_slice(part.as_bytes())?;
    }
    Ok(text)
}

// Appends a part so many times.
fn repeat(text: &mut Vec<u8>, part: &str, times: u32) -> Result<(), Fail> {
    for _ in 0..times {
        text.extend_from_slice(part.as_bytes())?;
    }
    Ok(())
}

// Calls a reader until it answers `end` or a refusal.
fn read_all(
    alloc: Global,
    reader: &mut ScheduleReader,
    source: &mut MemSource,
) -> Result<Answers, Fail>
    requires { reader.old ≡ fresh }
    ensures { IfOk result (λ answers. reader.new.refused ≡ answers.fault) }
{
    let mut images = Vec::new(alloc);
    let mut commands = Vec::new(alloc);
    let header = match reader.header(alloc, source) {
        Ok(header) => header,
        Err(fault) => {
            return Ok(Answers {
                images,
                commands,
                fault: Some(fault),
            });
        }
    };
    for task in header.tasks.items() {
        match reader.image(alloc, source, task.image) {
            Ok(image) => images.push(image)?,
            Err(fault) => {
                return Ok(Answers {
                    images,
                    commands,
                    fault: Some(fault),
                });
            }
        }
    }
    for _ in 0..2_000_000 {
        match reader.command(source) {
            Ok(Command::End) => break,
            Ok(command) => commands.push(command)?,
            Err(fault) => {
                return Ok(Answers {
                    images,
                    commands,
                    fault: Some(schedule_fault(fault)),
                });
            }
        }
    }
    Ok(Answers {
        images,
        commands,
        fault: None,
    })
}

// Reads a text in pieces of this length, and compares how many commands it has and why it is
// refused.
fn comes_in_pieces_to(
    rt: &impl Abort,
    alloc: Global,
    name: &str,
    text: &[u8],
    piece: usize,
    commands: usize,
    fault: Option<ScheduleFault>,
) -> Result<(), Fail>
    requires { 0 < piece }
{
    let mut source = MemSource::new(alloc, text, &[piece], &[])?;
    let answers = read_all(alloc, &mut ScheduleReader::new(), &mut source)?;
    assert_eq!(rt; answers.fault, fault, "{name} in pieces of {piece}");
    assert_eq!(rt;
        answers.commands.len(),
        commands,
        "commands of {name} in pieces of {piece}"
    );
    Ok(())
}

// The same in pieces of six lengths.
fn comes_to(
    rt: &impl Abort,
    alloc: Global,
    name: &str,
    text: &[u8],
    commands: usize,
    fault: Option<ScheduleFault>,
) -> Result<(), Fail> {
    for piece in [1, 2, 7, 4095, 4096, 4097] {
        comes_in_pieces_to(rt, alloc, name, text, piece, commands, fault)?;
    }
    Ok(())
}

// Reads each text behind a front in pieces of six lengths, and compares which line is refused, and
// why.
fn refuses_each(
    rt: &impl Abort,
    alloc: Global,
    front: &[u8],
    line: u32,
    commands: usize,
    refusals: &[(&str, Reason)],
) -> Result<(), Fail> {
    for (row, reason) in refusals {
        let mut text = Vec::from_slice(alloc, front)?;
        text.extend_from_slice(row.as_bytes())?;
        comes_to(rt, alloc, row, &text, commands, refused(line, *reason))?;
    }
    Ok(())
}

// The same in pieces of 4,096 bytes alone.
fn refuses_each_at_once(
    rt: &impl Abort,
    alloc: Global,
    front: &[u8],
    line: u32,
    commands: usize,
    refusals: &[(&str, Reason)],
) -> Result<(), Fail> {
    for (row, reason) in refusals {
        let mut text = Vec::from_slice(alloc, front)?;
        text.extend_from_slice(row.as_bytes())?;
        let fault = refused(line, *reason);
        comes_in_pieces_to(rt, alloc, row, &text, 4096, commands, fault)?;
    }
    Ok(())
}
