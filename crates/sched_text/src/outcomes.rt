//! A schedule, read by the three calls of a reader one after another: to its end, up to one of its
//! commands, or up to the image of one task.

ghost use Rattle.std.specs.Prelude.{◌≡◌, ◌≤◌, ◌<◌, false, None, [], length, Option, Err};
ghost use Rattle.sched_text.specs.Causes.{is_read};
ghost use Rattle.ctr_port.specs.Counts.{HasCause};
ghost use Rattle.ctr_port.specs.InHand.{text_of};
ghost use Rattle.sched_text.specs.Reader.{refusal_of};
ghost use Rattle.sched_text.specs.Outcomes.{TextOutcome, OpenAnswer, ImagesAnswer};
ghost use Rattle.sched_text.specs.Outcomes.{CommandsAnswer, total};
ghost use Rattle.sched_text.specs.Outcomes.{SomeCommandsAnswer, LineOutcome, TaskImageAnswer};
ghost use Rattle.sched_text.specs.Outcomes.{ImageOutcome};

use crate::commands::is_end;
use crate::faults::ScheduleFault;
use crate::reader::{ScheduleReader, schedule_fault};
use crate::schedule::{Image, TaskLine};
use ctr_port::Source;
use std::alloc::Global;

/// Reads a whole schedule, and answers the first fault. What is read isn't kept.
///
/// A line is refused exactly where the text breaks, and `Ok` comes exactly where it is whole. After
/// a failed read the bytes that were taken are whole, or cut at their end. `Memory` is want of
/// memory, and may come of any text.
pub fn check_schedule<S: Source>(alloc: Global, source: &mut S) -> Result<(), ScheduleFault>
    ensures outcome { TextOutcome (S.left source.old) (S.left source.new) result }
    ensures cause { HasCause is_read (S.faults source.old) (S.faults source.new) result }
{
    let mut reader = read_to_commands(alloc, source)?;
    commands(&mut reader, source)
}

// A reader behind the header and the images of a schedule.
fn read_to_commands<S: Source>(
    alloc: Global,
    source: &mut S,
) -> Result<ScheduleReader, ScheduleFault>
    ensures opens { OpenAnswer (S.left source.old) (S.left source.new) result }
    ensures cause { HasCause is_read (S.faults source.old) (S.faults source.new) result }
{
    let mut reader = ScheduleReader::new();
    let header = reader.header(alloc, source)?;
    images(alloc, &mut reader, source, header.tasks.items())?;
    Ok(reader)
}

// The images of all tasks.
fn images<S: Source>(
    alloc: Global,
    reader: &mut ScheduleReader,
    source: &mut S,
    tasks: &[TaskLine],
) -> Result<(), ScheduleFault>
    requires open { reader.old.refused ≡ None }
    ensures passed { ImagesAnswer reader.old.line (total tasks.now)
        (text_of reader.old.hand (S.left source.old))
        (text_of reader.new.hand (S.left source.new)) reader.new.hand result }
    ensures cause { HasCause is_read (S.faults source.old) (S.faults source.new) result }
    ensures refused { reader.new.refused ≡ refusal_of result }
    ensures same { (reader.new.line ≡ reader.old.line)
        × (reader.new.commands ≡ reader.old.commands) × (reader.new.ended ≡ reader.old.ended) }
{
    for task in tasks {
        reader.image(alloc, source, task.image)?;
    }
    Ok(())
}

// The commands up to `end`.
fn commands<S: Source>(reader: &mut ScheduleReader, source: &mut S) -> Result<(), ScheduleFault>
    requires open { (reader.old.refused ≡ None) × (reader.old.ended ≡ false)
        × (reader.old.commands ≡ 0) }
    ensures answer { CommandsAnswer reader.old.line (text_of reader.old.hand (S.left source.old))
        (text_of reader.new.hand (S.left source.new)) reader.new.hand result }
    ensures cause { HasCause is_read (S.faults source.old) (S.faults source.new) result }
{
    loop {
        match reader.command(source) {
            Ok(command) => {
                if is_end(&command) {
                    return Ok(());
                }
            }
            Err(fault) => return Err(schedule_fault(fault)),
        }
    }
}

/// Reads a schedule up to the command of this number, from 1, and answers its line; none exactly
/// where `end` comes before. A fault comes as of the whole schedule, where it stands before that
/// command.
pub fn line_of_command<S: Source>(
    alloc: Global,
    source: &mut S,
    most: u32,
) -> Result<Option<u32>, ScheduleFault>
    requires some { 0 < most }
    ensures outcome { LineOutcome (S.left source.old) (S.left source.new) most result }
    ensures cause { HasCause is_read (S.faults source.old) (S.faults source.new) result }
{
    let mut reader = read_to_commands(alloc, source)?;
    let ended = some_commands(&mut reader, source, most)?;
    if ended {
        return Ok(None);
    }
    Ok(Some(reader.line()))
}

// So many commands, or those up to `end`: whether `end` came.
fn some_commands<S: Source>(
    reader: &mut ScheduleReader,
    source: &mut S,
    most: u32,
) -> Result<bool, ScheduleFault>
    requires open { (reader.old.refused ≡ None) × (reader.old.ended ≡ false)
        × (reader.old.commands ≡ 0) }
    requires some { 0 < most }
    ensures answer { SomeCommandsAnswer reader.old.line most
        (text_of reader.old.hand (S.left source.old))
        (text_of reader.new.hand (S.left source.new)) reader.new.hand reader.new.line result }
    ensures cause { HasCause is_read (S.faults source.old) (S.faults source.new) result }
{
    let mut count = 0;
    loop {
        match reader.command(source) {
            Ok(command) => {
                if is_end(&command) {
                    return Ok(true);
                }
                count += 1;
                if count >= most {
                    return Ok(false);
                }
            }
            Err(fault) => return Err(schedule_fault(fault)),
        }
    }
}

/// Reads a schedule up to the image of a task, by its number from 0; none exactly where there are
/// fewer tasks, which is found when all images were read. A fault comes as of the whole schedule,
/// where it stands before.
pub fn image_of<S: Source>(
    alloc: Global,
    source: &mut S,
    which: usize,
) -> Result<Option<Image>, ScheduleFault>
    ensures outcome { ImageOutcome (S.left source.old) (S.left source.new) which result }
    ensures cause { HasCause is_read (S.faults source.old) (S.faults source.new) result }
{
    let mut reader = ScheduleReader::new();
    let header = reader.header(alloc, source)?;
    one_image(alloc, &mut reader, source, header.tasks.items(), which)
}

fn one_image<S: Source>(
    alloc: Global,
    reader: &mut ScheduleReader,
    source: &mut S,
    tasks: &[TaskLine],
    which: usize,
) -> Result<Option<Image>, ScheduleFault>
    requires open { reader.old.refused ≡ None }
    ensures answer { TaskImageAnswer reader.old.line tasks.now which
        (text_of reader.old.hand (S.left source.old))
        (text_of reader.new.hand (S.left source.new)) reader.new.hand result }
    ensures cause { HasCause is_read (S.faults source.old) (S.faults source.new) result }
{
    let mut at = 0;
    for task in tasks {
        let image = reader.image(alloc, source, task.image)?;
        if at == which {
            return Ok(Some(image));
        }
        at += 1;
    }
    Ok(None)
}
