ghost use Rattle.std.specs.Prelude.{◌<◌};

use super::{EVERY_LINE, SCHEDULE, START, joined, refused};
use crate::{Image, Reason, ScheduleFault, check_schedule, image_of, line_of_command};
use ctr_port::MemSource;
use std::alloc::Global;
use std::process::Abort;
use std::test::*;

// What stands behind the first three lines, and the line that is refused.
#[test]
fn a_whole_schedule_is_taken_and_a_refused_line_is_told(rt: HostRuntime) -> Result<(), Fail> {
    for (tail, fault) in [
        (
            "task 4 8 0 4 0 0\nimages\nabcdrun 0 0 1\nsample 0\nend\n",
            None,
        ),
        ("task 4 8 0 4 0 0\nimage\n", refused(5, Reason::NotWord)),
        ("task 4 8 0 4 0 0\nimages\nabc", refused(5, Reason::Cut)),
        (
            "task 4 8 0 4 0 0\nimages\nabcdsample 0\nrun 0 0\nend\n",
            refused(7, Reason::NotWord),
        ),
        (
            "task 4 8 0 4 0 0\nimages\nabcdend\nend\n",
            refused(7, Reason::Trailing),
        ),
    ] {
        let text = joined(rt.alloc(), &[START, tail])?;
        let mut source = MemSource::new(rt.alloc(), &text, &[7], &[])?;
        assert_eq!(rt;
            check_schedule(rt.alloc(), &mut source).err(),
            fault,
            "{tail}"
        );
    }
    Ok(())
}

// A schedule of three commands, the third refused in line 8.
#[test]
fn a_command_has_its_line(rt: HostRuntime) -> Result<(), Fail> {
    let tail = "task 4 8 0 4 0 0\nimages\nabcdsample 0\nevict 0\nrun 0 0 x\nend\n";
    let text = joined(rt.alloc(), &[START, tail])?;
    let source = || MemSource::new(rt.alloc(), &text, &[7], &[]);
    assert_eq!(rt; line_of_command(rt.alloc(), &mut source()?, 1), Ok(Some(6)));
    assert_eq!(rt; line_of_command(rt.alloc(), &mut source()?, 2), Ok(Some(7)));
    let third = line_of_command(rt.alloc(), &mut source()?, 3);
    assert_eq!(rt; third.err(), refused(8, Reason::NotNumber));
    // One that ends behind two.
    let source = || MemSource::new(rt.alloc(), SCHEDULE.as_bytes(), &[7], &[]);
    assert_eq!(rt; line_of_command(rt.alloc(), &mut source()?, 2), Ok(Some(7)));
    assert_eq!(rt; line_of_command(rt.alloc(), &mut source()?, 3), Ok(None));
    Ok(())
}

// The image of a task of a schedule with images of four and two bytes, with so many of those bytes.
fn image_with(alloc: Global, bytes: &str, which: usize) -> Result<Outcome, Fail> {
    let rows = "task 4 8 0 4 0 0\ntask 2 8 0 4 0 0\nimages\n";
    let text = joined(alloc, &[START, rows, bytes])?;
    let mut source = MemSource::new(alloc, &text, &[7], &[])?;
    Ok(image_of(alloc, &mut source, which))
}

type Outcome = Result<Option<Image>, ScheduleFault>;

fn is_image(rt: &impl Abort, outcome: &Outcome, bytes: &[u8]) {
    match outcome {
        Ok(Some(image)) => assert_eq!(rt; image.items(), bytes),
        _ => assert!(rt; false, "an image"),
    }
}

#[test]
fn each_task_has_its_image(rt: HostRuntime) -> Result<(), Fail> {
    is_image(&rt, &image_with(rt.alloc(), "abcdefend\n", 0)?, b"abcd");
    is_image(&rt, &image_with(rt.alloc(), "abcdefend\n", 1)?, b"ef");
    // The lines behind the images aren't read.
    is_image(&rt, &image_with(rt.alloc(), "abcdef", 1)?, b"ef");
    let none = image_with(rt.alloc(), "abcdef", 2)?;
    assert!(rt; matches!(none, Ok(None)), "a third image");
    let cut = image_with(rt.alloc(), "abcde", 2)?;
    assert_eq!(rt; cut.err(), refused(6, Reason::Cut));
    Ok(())
}

// The calls make 86, 72 and 62 reads of one byte, and answer the one that fails.
#[test]
fn each_call_answers_a_read_that_fails(rt: HostRuntime) -> Result<(), Fail> {
    let failed = Some(ScheduleFault::ReadFault);
    for call in 0..88 {
        let bytes = SCHEDULE.as_bytes();
        let mut source = MemSource::new(rt.alloc(), bytes, &[1], &[call])?;
        let fault = check_schedule(rt.alloc(), &mut source).err();
        assert_eq!(rt; fault, failed.filter(|_| call < 86), "the whole at {call}");
        let mut source = MemSource::new(rt.alloc(), bytes, &[1], &[call])?;
        let fault = line_of_command(rt.alloc(), &mut source, 1).err();
        assert_eq!(rt; fault, failed.filter(|_| call < 72), "a command at {call}");
        let mut source = MemSource::new(rt.alloc(), bytes, &[1], &[call])?;
        let fault = image_of(rt.alloc(), &mut source, 0).err();
        assert_eq!(rt; fault, failed.filter(|_| call < 62), "an image at {call}");
    }
    Ok(())
}

// Looks for a command of the schedule with a line of each kind in so many reads of one byte, and
// finds it in this line; each of these reads fails in turn.
fn command_is_found_in(
    rt: &impl Abort,
    alloc: Global,
    which: u32,
    reads: u64,
    line: Option<u32>,
) -> Result<(), Fail>
    requires { 0 < which }
{
    for call in 0..148 {
        let mut source = MemSource::new(alloc, EVERY_LINE.as_bytes(), &[1], &[call])?;
        let found = line_of_command(alloc, &mut source, which);
        let wanted = if call < reads {
            Err(ScheduleFault::ReadFault)
        } else {
            Ok(line)
        };
        assert_eq!(rt; found, wanted, "command {which} at {call}");
    }
    Ok(())
}

// The same of an image; whether there is one.
fn image_is_found_in(
    rt: &impl Abort,
    alloc: Global,
    which: usize,
    reads: u64,
    is_there: bool,
) -> Result<(), Fail> {
    for call in 0..148 {
        let mut source = MemSource::new(alloc, EVERY_LINE.as_bytes(), &[1], &[call])?;
        let found = image_of(alloc, &mut source, which).map(|image| image.is_some());
        let wanted = if call < reads {
            Err(ScheduleFault::ReadFault)
        } else {
            Ok(is_there)
        };
        assert_eq!(rt; found, wanted, "image {which} at {call}");
    }
    Ok(())
}

// 146 bytes, and one more read that looks past `end`. A fourth command and a third image aren't
// there.
#[test]
fn each_call_answers_a_read_that_fails_in_any_line(rt: HostRuntime) -> Result<(), Fail> {
    let failed = Some(ScheduleFault::ReadFault);
    for call in 0..148 {
        let mut source = MemSource::new(rt.alloc(), EVERY_LINE.as_bytes(), &[1], &[call])?;
        let fault = check_schedule(rt.alloc(), &mut source).err();
        assert_eq!(rt; fault, failed.filter(|_| call < 147), "the whole at {call}");
    }
    command_is_found_in(&rt, rt.alloc(), 1, 125, Some(10))?;
    command_is_found_in(&rt, rt.alloc(), 2, 133, Some(11))?;
    command_is_found_in(&rt, rt.alloc(), 3, 142, Some(12))?;
    command_is_found_in(&rt, rt.alloc(), 4, 147, None)?;
    image_is_found_in(&rt, rt.alloc(), 0, 113, true)?;
    image_is_found_in(&rt, rt.alloc(), 1, 115, true)?;
    image_is_found_in(&rt, rt.alloc(), 2, 115, false)
}
