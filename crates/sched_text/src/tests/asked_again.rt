ghost use Rattle.std.specs.Prelude.{◌≡◌, Some};
ghost use Rattle.sched_text.specs.Reader.{schedule_fault};

use super::{Answers, EVERY_LINE, SCHEDULE, START, TASK, joined, read_all, repeat, schedule_fault};
use crate::{CommandFault, LineFault, Reason, ScheduleFault, ScheduleReader};
use ctr_port::{Got, MemSource, Source};
use std::alloc::Global;
use std::process::Abort;
use std::test::*;

// Asks a reader again after a refusal: each call of `image` and of `command` answers it.
fn answers_again(
    rt: &impl Abort,
    alloc: Global,
    reader: &mut ScheduleReader,
    source: &mut MemSource,
    fault: CommandFault,
)
    requires { reader.old.refused ≡ Some (schedule_fault fault) }
{
    let line = reader.line();
    assert_eq!(rt; reader.command(source), Err(fault));
    assert_eq!(rt;
        reader.image(alloc, source, 4).err(),
        Some(schedule_fault(fault))
    );
    assert_eq!(rt;
        reader.image(alloc, source, 0).err(),
        Some(schedule_fault(fault))
    );
    assert_eq!(rt; reader.command(source), Err(fault));
    assert_eq!(rt; reader.command(source), Err(fault));
    assert_eq!(rt; reader.line(), line);
}

// The bytes that a source has left.
fn bytes_left(alloc: Global, source: &mut MemSource) -> Result<Vec<u8>, Fail> {
    let mut left = Vec::new(alloc);
    let mut buf = [0u8; 16];
    for _ in 0..1000 {
        match source.read(&mut buf) {
            Got::Bytes(count) => left.extend_from_slice(buf.split_at(count).0)?,
            Got::End | Got::Failed => break,
        }
    }
    Ok(left)
}

// Reads a schedule that is refused after so many reads, and asks again: the fault is the same, and
// no read is made. For the call that comes after those reads is to fail, and it does so only when
// the source is asked here; and the bytes behind those that were read are still there.
fn is_told_again(
    rt: &impl Abort,
    alloc: Global,
    source: &mut MemSource,
    fault: CommandFault,
    left: &[u8],
) -> Result<(), Fail> {
    let mut reader = ScheduleReader::new();
    let answers = read_all(alloc, &mut reader, source)?;
    assert_eq!(rt; answers.fault, Some(schedule_fault(fault)));
    answers_again(rt, alloc, &mut reader, source, fault);
    let mut buf = [0u8; 1];
    assert_eq!(rt; source.read(&mut buf), Got::Failed, "after {fault:?}");
    assert_eq!(rt;
        bytes_left(alloc, source)?.as_slice(),
        left,
        "after {fault:?}"
    );
    Ok(())
}

// What stands behind the first three lines, how many bytes of it are read up to the refusal, one at
// a read, and whether one more read meets the end; the line that is refused, and why.
const REFUSALS: &[(&str, usize, bool, u32, Reason)] = &[
    ("image\ntask 4 8 0 4 0 0\n", 6, false, 4, Reason::NotWord),
    ("task 4 8", 8, true, 4, Reason::Cut),
    ("task 4 8 0 4 0 0\n", 17, true, 5, Reason::Cut),
    (
        "task 4 8 0 4 0 0\nirq 0 5 3\nirq 0 4 3\nimages\nabcdend\n",
        37,
        false,
        6,
        Reason::IrqOrder,
    ),
    (
        "task 4 8 0 4 0 0\nimages \nabcdend\n",
        25,
        false,
        5,
        Reason::NotWord,
    ),
    ("task 4 8 0 4 0 0\nimages\nabc", 27, true, 5, Reason::Cut),
    (
        "task 4 8 0 4 0 0\nimages\nabcdsample x\nsample 0\nend\n",
        37,
        false,
        6,
        Reason::NotNumber,
    ),
    (
        "task 4 8 0 4 0 0\nimages\nabcdsample 0\nrun 0 0 1000000001\nend\n",
        56,
        false,
        7,
        Reason::Range,
    ),
    (
        "task 4 8 0 4 0 0\nimages\nabcdsample 0\nen",
        39,
        true,
        7,
        Reason::Cut,
    ),
    (
        "task 4 8 0 4 0 0\nimages\nabcdend\nend\n",
        33,
        false,
        7,
        Reason::Trailing,
    ),
];

fn refusal_is_told_again(
    rt: &impl Abort,
    alloc: Global,
    refusal: &(&str, usize, bool, u32, Reason),
) -> Result<(), Fail> {
    let text = joined(alloc, &[START, refusal.0])?;
    let read = START.len().saturating_add(refusal.1);
    let reads = (read as u64).saturating_add(u64::from(refusal.2));
    let mut source = MemSource::new(alloc, &text, &[1], &[reads])?;
    let fault = CommandFault::Line(LineFault {
        line: refusal.3,
        reason: refusal.4,
    });
    let left = text.get(read..).ok_or("the bytes left")?;
    is_told_again(rt, alloc, &mut source, fault, left)
}

#[test]
fn a_refusal_is_told_again_without_a_read(rt: HostRuntime) -> Result<(), Fail> {
    for refusal in REFUSALS {
        refusal_is_told_again(&rt, rt.alloc(), refusal)?;
    }
    Ok(())
}

#[test]
fn a_long_line_is_told_again_without_a_read(rt: HostRuntime) -> Result<(), Fail> {
    let mut text = joined(rt.alloc(), &["harts"])?;
    repeat(&mut text, "0", 300)?;
    let mut source = MemSource::new(rt.alloc(), &text, &[1], &[256])?;
    let fault = CommandFault::Line(LineFault {
        line: 1,
        reason: Reason::LongLine,
    });
    let left = text.get(256..).ok_or("the bytes left")?;
    is_told_again(&rt, rt.alloc(), &mut source, fault, left)
}

// A read of one byte that fails, and the call after it, which nobody makes while the reader is
// asked again.
fn failed_read_is_told_again(
    rt: &impl Abort,
    alloc: Global,
    text: &[u8],
    read: usize,
) -> Result<(), Fail> {
    let call = read as u64;
    let mut source = MemSource::new(alloc, text, &[1], &[call, call.saturating_add(1)])?;
    let left = text.get(read..).ok_or("the bytes left")?;
    is_told_again(rt, alloc, &mut source, CommandFault::ReadFault, left)
}

#[test]
fn a_failed_read_is_told_again_without_a_read(rt: HostRuntime) -> Result<(), Fail> {
    // 85 and 146 bytes in reads of one byte, and one more read that looks past the end.
    for read in 0..86 {
        failed_read_is_told_again(&rt, rt.alloc(), SCHEDULE.as_bytes(), read)?;
    }
    for read in 0..147 {
        failed_read_is_told_again(&rt, rt.alloc(), EVERY_LINE.as_bytes(), read)?;
    }
    Ok(())
}

// Reads of one byte, from the first of these on: the line that they belong to, and how many images
// and commands are answered before one of them fails. Bytes of images belong to the line `images`,
// and the look behind `end` to that line.
type Reads = (u64, u64, u32, usize, usize);

const READS: [Reads; 8] = [
    (0, 15, 1, 0, 0),
    (15, 23, 2, 0, 0),
    (23, 34, 3, 0, 0),
    (34, 51, 4, 0, 0),
    (51, 62, 5, 0, 0),
    (62, 72, 6, 1, 0),
    (72, 81, 7, 1, 1),
    (81, 86, 8, 1, 2),
];

const READS_OF_EVERY_LINE: [Reads; 14] = [
    (0, 15, 1, 0, 0),
    (15, 23, 2, 0, 0),
    (23, 34, 3, 0, 0),
    (34, 47, 4, 0, 0), // branch
    (47, 64, 5, 0, 0),
    (64, 81, 6, 0, 0),
    (81, 91, 7, 0, 0), // irq
    (91, 102, 8, 0, 0),
    (102, 113, 9, 0, 0), // images, and the first of them
    (113, 115, 9, 1, 0), // the second
    (115, 125, 10, 2, 0),
    (125, 133, 11, 2, 1), // evict
    (133, 142, 12, 2, 2),
    (142, 147, 13, 2, 3),
];

fn reads_fail(rt: &impl Abort, alloc: Global, text: &[u8], reads: &Reads) -> Result<(), Fail> {
    for call in reads.0..reads.1 {
        let mut source = MemSource::new(alloc, text, &[1], &[call])?;
        let mut reader = ScheduleReader::new();
        let answers = read_all(alloc, &mut reader, &mut source)?;
        assert_eq!(rt; answers.fault, Some(ScheduleFault::ReadFault), "at {call}");
        assert_eq!(rt; reader.line(), reads.2, "at {call}");
        assert_eq!(rt; answers.images.len(), reads.3, "images at {call}");
        assert_eq!(rt; answers.commands.len(), reads.4, "commands at {call}");
    }
    Ok(())
}

#[test]
fn a_failed_read_is_answered_in_its_line(rt: HostRuntime) -> Result<(), Fail> {
    for reads in &READS {
        reads_fail(&rt, rt.alloc(), SCHEDULE.as_bytes(), reads)?;
    }
    for reads in &READS_OF_EVERY_LINE {
        reads_fail(&rt, rt.alloc(), EVERY_LINE.as_bytes(), reads)?;
    }
    Ok(())
}

#[test]
fn no_read_is_made_behind_the_end(rt: HostRuntime) -> Result<(), Fail> {
    let mut source = MemSource::new(rt.alloc(), SCHEDULE.as_bytes(), &[1], &[86])?;
    let answers = read_all(rt.alloc(), &mut ScheduleReader::new(), &mut source)?;
    assert_eq!(rt; answers.fault, None, "85 bytes, and a look past the end");
    let mut source = MemSource::new(rt.alloc(), EVERY_LINE.as_bytes(), &[1], &[147])?;
    let answers = read_all(rt.alloc(), &mut ScheduleReader::new(), &mut source)?;
    assert_eq!(rt; answers.fault, None, "146 bytes, and a look past the end");
    Ok(())
}
