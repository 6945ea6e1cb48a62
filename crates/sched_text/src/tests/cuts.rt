use super::{IMAGE, SCHEDULE, START, TASK, comes_to, joined, read_all, refused, repeat};
use crate::{Reason, ScheduleReader};
use ctr_port::MemSource;
use std::alloc::Global;
use std::process::Abort;
use std::test::*;

// A line, the place of its first byte, that of the first byte behind it, and the commands before
// it.
const LINES: &[(u32, usize, usize, usize)] = &[
    (1, 0, 15, 0),
    (2, 15, 23, 0),
    (3, 23, 34, 0),
    (4, 34, 51, 0),
    (5, 51, 62, 0), // `images` and the image
    (6, 62, 72, 0),
    (7, 72, 81, 1),
    (8, 81, 85, 2),
];

#[test]
fn a_schedule_cut_anywhere_is_refused_at_its_line(rt: HostRuntime) -> Result<(), Fail> {
    let text = SCHEDULE.as_bytes();
    for (line, first, end, commands) in LINES {
        for bytes in *first..*end {
            let front = text.get(..bytes).ok_or("a front")?;
            let fault = refused(*line, Reason::Cut);
            comes_to(&rt, rt.alloc(), "a front", front, *commands, fault)?;
        }
    }
    comes_to(&rt, rt.alloc(), "the whole", text, 2, None)
}

// Two tasks with images of so many bytes, an irq line, and so many bytes of images: they are cut in
// the second image.
fn cut_in_the_second_image(
    rt: &impl Abort,
    alloc: Global,
    tasks: &str,
    bytes: u32,
) -> Result<(), Fail> {
    let mut text = joined(alloc, &[START, tasks, "irq 1 5 3\nimages\n"])?;
    repeat(&mut text, "\n", bytes)?;
    // Lines 4 and 5 are the tasks, and line 6 is the irq line.
    comes_to(rt, alloc, tasks, &text, 0, refused(7, Reason::Cut))?;
    let mut source = MemSource::new(alloc, &text, &[4095], &[])?;
    let answers = read_all(alloc, &mut ScheduleReader::new(), &mut source)?;
    assert_eq!(rt;
        answers.images.len(),
        1,
        "the first image is whole, and {bytes} bytes are there"
    );
    Ok(())
}

#[test]
fn a_cut_in_the_second_image_is_charged_to_the_line_images(rt: HostRuntime) -> Result<(), Fail> {
    for bytes in [4, 5, 6] {
        cut_in_the_second_image(
            &rt,
            rt.alloc(),
            "task 4 8 0 4 0 0\ntask 3 4 0 4 0 0\n",
            bytes,
        )?;
    }
    for bytes in [5000, 5001, 8191, 8192, 8193, 9999] {
        cut_in_the_second_image(
            &rt,
            rt.alloc(),
            "task 5000 5000 0 4 0 0\ntask 5000 5000 0 4 0 0\n",
            bytes,
        )?;
    }
    Ok(())
}

#[test]
fn a_schedule_with_no_bytes_of_images_is_whole(rt: HostRuntime) -> Result<(), Fail> {
    let text = joined(
        rt.alloc(),
        &[START, "task 0 4 0 4 0 0\ntask 0 4 0 4 0 0\nimages\nend\n"],
    )?;
    comes_to(&rt, rt.alloc(), "two empty images", &text, 0, None)?;
    let text = joined(rt.alloc(), &[START, TASK, IMAGE, "end\n"])?;
    comes_to(&rt, rt.alloc(), "no command", &text, 0, None)
}
