use super::{START, START_2, TASK, joined, refuses_each, refuses_each_at_once, repeat};
use crate::Reason;
use std::alloc::Global;
use std::test::*;

// In place of the first line.
const VERSIONS: &[(&str, Reason)] = &[
    ("", Reason::Cut), // in place of the line
    ("ctr-schedule 1", Reason::Cut), // no line feed
    ("\n", Reason::NotWord), // one empty word
    ("ctr-schedule\n", Reason::NotWord),
    ("CTR-schedule 1\n", Reason::NotWord),
    ("ctr-schedule 1 \n", Reason::NotWord), // three words
    (" ctr-schedule 1\n", Reason::NotWord),
    ("ctr-schedule  1\n", Reason::NotWord),
    ("ctr-schedule 1 1\n", Reason::NotWord),
    ("harts 1\n", Reason::NotWord),
    ("ctr-schedule \n", Reason::NotNumber), // an empty word
    ("ctr-schedule x\n", Reason::NotNumber),
    ("ctr-schedule +1\n", Reason::NotNumber),
    ("ctr-schedule 1\r\n", Reason::NotNumber),
    ("ctr-schedule 1a\n", Reason::NotNumber),
    ("ctr-schedule 0\n", Reason::Range),
    ("ctr-schedule 3\n", Reason::Range),
    ("ctr-schedule 12\n", Reason::Range),
    ("ctr-schedule 21\n", Reason::Range),
    ("ctr-schedule 4294967298\n", Reason::Range), // 2^32 + 2
    ("ctr-schedule 2 2\n", Reason::NotWord),
    ("ctr-schedule 4294967297\n", Reason::Range), // 2^32 + 1
    ("ctr-schedule 18446744073709551617\n", Reason::Range), // 2^64 + 1
];

// In place of the second line.
const HARTS: &[(&str, Reason)] = &[
    ("", Reason::Cut),
    ("harts 1", Reason::Cut),
    ("hart 1\n", Reason::NotWord),
    ("harts\n", Reason::NotWord),
    ("harts 1 1\n", Reason::NotWord),
    ("harts  1\n", Reason::NotWord), // three words
    ("layout 803\n", Reason::NotWord),
    ("ctr-schedule 1\n", Reason::NotWord),
    ("harts x\n", Reason::NotNumber),
    ("harts +1\n", Reason::NotNumber),
    ("harts /\n", Reason::NotNumber), // the byte before 0
    ("harts :\n", Reason::NotNumber), // the byte behind 9
    ("harts \n", Reason::NotNumber), // an empty word
    ("harts 1\r\n", Reason::NotNumber),
    ("harts 0\n", Reason::Range),
    ("harts 17\n", Reason::Range),
    ("harts 257\n", Reason::Range), // 2^8 + 1
    ("harts 18446744073709551617\n", Reason::Range),
];

// In place of the third line.
const LAYOUTS: &[(&str, Reason)] = &[
    ("", Reason::Cut),
    ("layout 803", Reason::Cut),
    ("layout\n", Reason::NotWord),
    ("layout 803 803\n", Reason::NotWord),
    ("layout  803\n", Reason::NotWord),
    ("Layout 803\n", Reason::NotWord),
    ("task 4 8 0 4 0 0\n", Reason::NotWord),
    ("layout \n", Reason::NotNumber),
    ("layout 0x803\n", Reason::NotNumber),
    ("layout 80/\n", Reason::NotNumber), // the bytes beside the digits and letters
    ("layout 80:\n", Reason::NotNumber),
    ("layout 80@\n", Reason::NotNumber),
    ("layout 80G\n", Reason::NotNumber),
    ("layout 80`\n", Reason::NotNumber),
    ("layout 80g\n", Reason::NotNumber),
    ("layout 0\n", Reason::Range),
    ("layout 3\n", Reason::Range), // no branch stack
    ("layout 103CF\n", Reason::Range),
    ("layout 7ff\n", Reason::Range),
    ("layout 810\n", Reason::Range), // bits that no layout has
    ("layout 820\n", Reason::Range),
    ("layout c00\n", Reason::Range),
    ("layout 1800\n", Reason::Range),
    ("layout 20800\n", Reason::Range),
    ("layout 8000000000000803\n", Reason::Range),
    ("layout 10000000000000803\n", Reason::Range), // 2^64 + 803
];

// In place of the fourth line of version 2.
const BRANCHES: &[(&str, Reason)] = &[
    ("", Reason::Cut),
    ("branch 20000", Reason::Cut),
    ("branch\n", Reason::NotWord),
    ("branch 0 0\n", Reason::NotWord),
    ("branch 0 \n", Reason::NotWord), // three words
    ("branch  0\n", Reason::NotWord),
    ("Branch 0\n", Reason::NotWord),
    ("layout 803\n", Reason::NotWord),
    ("task 4 8 0 4 0 0\n", Reason::NotWord), // no branch line
    ("images\n", Reason::NotWord),
    ("branch \n", Reason::NotNumber), // an empty word
    ("branch 0x20000\n", Reason::NotNumber),
    ("branch +0\n", Reason::NotNumber),
    ("branch 2000g\n", Reason::NotNumber),
    ("branch 1\n", Reason::Range), // bits of branch_sample_type that no layout has
    ("branch 8\n", Reason::Range),
    ("branch 2000\n", Reason::Range),
    ("branch 20001\n", Reason::Range),
    ("branch 40000\n", Reason::Range),
    ("branch 60000\n", Reason::Range),
    ("branch 200000\n", Reason::Range),
    ("branch 100020000\n", Reason::Range), // 2^32 + 20000
    ("branch 8000000000020000\n", Reason::Range),
    ("branch 10000000000000000\n", Reason::Range), // 2^64
    ("branch 10000000000020000\n", Reason::Range),
];

// In place of any task line.
const TASKS: &[(&str, Reason)] = &[
    ("", Reason::Cut),
    ("task 4 8 0 4 0 0", Reason::Cut),
    ("task 4 8 0 4 0\n", Reason::NotWord),
    ("task 4 8 0 4 0 0 0\n", Reason::NotWord),
    ("task 4 8 0 4 0 0 \n", Reason::NotWord), // eight words
    ("task\n", Reason::NotWord),
    ("tasks 4 8 0 4 0 0\n", Reason::NotWord),
    ("layout 803\n", Reason::NotWord),
    ("branch 0\n", Reason::NotWord),
    ("run 0 0 1\n", Reason::NotWord),
    ("end\n", Reason::NotWord),
    ("task x 8 0 4 0 0\n", Reason::NotNumber),
    ("task a 8 0 4 0 0\n", Reason::NotNumber), // a hexadecimal digit in a decimal number
    ("task 4 x 0 4 0 0\n", Reason::NotNumber),
    ("task 4 8 x 4 0 0\n", Reason::NotNumber),
    ("task 4 8 0 x 0 0\n", Reason::NotNumber),
    ("task 4 8 0 0x4 0 0\n", Reason::NotNumber),
    ("task 4 8 0 4 x 0\n", Reason::NotNumber),
    ("task 4 8 0 4 0 x\n", Reason::NotNumber),
    ("task  8 0 4 0 0\n", Reason::NotNumber), // seven words, the second of them empty
    ("task 4  0 4 0 0\n", Reason::NotNumber),
    ("task 4 8  4 0 0\n", Reason::NotNumber),
    ("task 4 8 0  0 0\n", Reason::NotNumber),
    ("task 4 8 0 4  0\n", Reason::NotNumber),
    ("task 4 8 0 4 0 \n", Reason::NotNumber),
    ("task 4 6 0 4 0 y\n", Reason::NotNumber), // before the range of its memory
    ("task 9 8 0 4 0 0\n", Reason::Range), // the image is longer than the memory
    ("task 1 0 0 4 0 0\n", Reason::Range),
    ("task 1048577 1048576 0 4 0 0\n", Reason::Range),
    ("task 4294967300 8 0 4 0 0\n", Reason::Range), // 2^32 + 4
    ("task 18446744073709551616 8 0 4 0 0\n", Reason::Range), // 2^64
    ("task 0 0 0 4 0 0\n", Reason::Range),
    ("task 0 3 0 4 0 0\n", Reason::Range),
    ("task 4 6 0 4 0 0\n", Reason::Range),
    ("task 4 1048577 0 4 0 0\n", Reason::Range),
    ("task 4 1048580 0 4 0 0\n", Reason::Range),
    ("task 4 4294967304 0 4 0 0\n", Reason::Range), // 2^32 + 8
    ("task 4 8 5 4 0 0\n", Reason::Range),
    ("task 4 8 256 4 0 0\n", Reason::Range),
    ("task 4 8 0 10000000000000000 0 0\n", Reason::Range), // 2^64
    ("task 4 8 0 4 10000000000000000 0\n", Reason::Range),
    ("task 4 8 0 4 0 1000000001\n", Reason::Range),
    ("task 4 8 0 4 0 4294967296\n", Reason::Range), // 2^32
];

// In place of an irq line, the first or a later one, where there is one task. Any of them may be
// the line `images`.
const IRQS: &[(&str, Reason)] = &[
    ("", Reason::Cut),
    ("irq 0 2000 3", Reason::Cut),
    ("images", Reason::Cut),
    ("irq\n", Reason::NotWord),
    ("irq 0 2000\n", Reason::NotWord), // three words
    ("irq 0 2000 3 0\n", Reason::NotWord),
    ("irq 0 2000 3 \n", Reason::NotWord), // five words, the last of them empty
    ("irq  0 2000 3\n", Reason::NotWord),
    ("IRQ 0 2000 3\n", Reason::NotWord),
    ("task 4 8 0 4 0\n", Reason::NotWord),
    ("branch 0\n", Reason::NotWord),
    ("images 0\n", Reason::NotWord),
    ("images \n", Reason::NotWord),
    ("image\n", Reason::NotWord),
    ("run 0 0 1\n", Reason::NotWord), // in place of `images`
    ("sample 0\n", Reason::NotWord),
    ("evict 0\n", Reason::NotWord),
    ("end\n", Reason::NotWord),
    ("\n", Reason::NotWord),
    ("irq x 2000 3\n", Reason::NotNumber),
    ("irq 0 x 3\n", Reason::NotNumber),
    ("irq 0 2000 x\n", Reason::NotNumber),
    ("irq  2000 3\n", Reason::NotNumber), // four words, the second of them empty
    ("irq 0  3\n", Reason::NotNumber),
    ("irq 0 2000 \n", Reason::NotNumber),
    ("irq 0 2000 b\n", Reason::NotNumber), // a hexadecimal digit
    ("irq 1 1000000000000001 x\n", Reason::NotNumber), // before the range and the task
    ("irq 0 1000000000000001 3\n", Reason::Range),
    ("irq 0 18446744073709551616 3\n", Reason::Range), // 2^64
    ("irq 0 2000 0\n", Reason::Range),
    ("irq 0 2000 4\n", Reason::Range),
    ("irq 0 2000 8\n", Reason::Range),
    ("irq 0 2000 12\n", Reason::Range),
    ("irq 0 2000 14\n", Reason::Range),
    ("irq 0 2000 15\n", Reason::Range),
    ("irq 0 2000 16\n", Reason::Range),
    ("irq 0 2000 17\n", Reason::Range), // 16 + 1
    ("irq 0 2000 65\n", Reason::Range), // 64 + 1
    ("irq 0 2000 259\n", Reason::Range), // 2^8 + 3
    ("irq 0 2000 18446744073709551619\n", Reason::Range), // 2^64 + 3
    ("irq 1 2000 4\n", Reason::Range), // before the task is looked for
    ("irq 1 2000 3\n", Reason::NoTask),
    ("irq 1 0 1\n", Reason::NoTask),
    ("irq 64 2000 3\n", Reason::NoTask),
    ("irq 256 2000 3\n", Reason::NoTask), // 2^8
    ("irq 18446744073709551615 2000 3\n", Reason::NoTask),
    ("irq 18446744073709551616 2000 3\n", Reason::NoTask), // 2^64
];

// Behind `irq 0 5 5`.
const OUT_OF_ORDER: &[(&str, Reason)] = &[
    ("irq 0 4 13\n", Reason::IrqOrder),
    ("irq 0 0 13\n", Reason::IrqOrder),
    ("irq 0 5 5\n", Reason::IrqOrder),
    ("irq 0 5 3\n", Reason::IrqOrder),
    ("irq 0 5 1\n", Reason::IrqOrder),
    ("irq 0 4 4\n", Reason::Range), // before the order
    ("irq 1 4 3\n", Reason::NoTask),
    ("task 4 8 0 4 0 0\n", Reason::NotWord), // no task line stands behind an irq line
];

#[test]
fn each_rule_of_the_first_three_lines_refuses_its_line(rt: HostRuntime) -> Result<(), Fail> {
    refuses_each(&rt, rt.alloc(), b"", 1, 0, VERSIONS)?;
    refuses_each(&rt, rt.alloc(), b"ctr-schedule 1\n", 2, 0, HARTS)?;
    refuses_each(&rt, rt.alloc(), b"ctr-schedule 1\nharts 1\n", 3, 0, LAYOUTS)
}

#[test]
fn each_rule_of_the_first_four_lines_of_version_2_refuses_its_line(
    rt: HostRuntime,
) -> Result<(), Fail> {
    refuses_each(&rt, rt.alloc(), b"ctr-schedule 2\n", 2, 0, HARTS)?;
    refuses_each(&rt, rt.alloc(), b"ctr-schedule 2\nharts 1\n", 3, 0, LAYOUTS)?;
    let front = b"ctr-schedule 2\nharts 1\nlayout 803\n";
    refuses_each(&rt, rt.alloc(), front, 4, 0, BRANCHES)
}

#[test]
fn each_rule_refuses_its_line_behind_a_branch_line(rt: HostRuntime) -> Result<(), Fail> {
    let mut front = joined(rt.alloc(), &[START_2])?;
    refuses_each_at_once(&rt, rt.alloc(), &front, 5, 0, TASKS)?;
    // One branch line, and it stands before the task lines.
    let more = [
        ("branch 20000\n", Reason::NotWord),
        ("images\n", Reason::NotWord),
        ("irq 0 5 3\n", Reason::NotWord),
    ];
    refuses_each(&rt, rt.alloc(), &front, 5, 0, &more)?;
    front.extend_from_slice(TASK.as_bytes())?;
    refuses_each_at_once(&rt, rt.alloc(), &front, 6, 0, IRQS)?;
    front.extend_from_slice(b"irq 0 5 5\n")?;
    refuses_each(&rt, rt.alloc(), &front, 7, 0, OUT_OF_ORDER)?;
    let mut full = joined(rt.alloc(), &[START_2])?;
    repeat(&mut full, TASK, 64)?;
    let too_many = ("task 4 8 0 4 0 0\n", Reason::TooMany);
    refuses_each_at_once(&rt, rt.alloc(), &full, 69, 0, &[too_many])
}

#[test]
fn each_rule_refuses_the_first_and_the_last_task_line(rt: HostRuntime) -> Result<(), Fail> {
    let mut front = joined(rt.alloc(), &[START])?;
    refuses_each(&rt, rt.alloc(), &front, 4, 0, TASKS)?;
    // A task line stands first.
    refuses_each(
        &rt,
        rt.alloc(),
        &front,
        4,
        0,
        &[
            ("images\n", Reason::NotWord),
            ("irq 0 5 3\n", Reason::NotWord),
        ],
    )?;
    repeat(&mut front, TASK, 63)?;
    refuses_each(&rt, rt.alloc(), &front, 67, 0, TASKS)
}

#[test]
fn each_rule_refuses_the_first_and_a_later_irq_line(rt: HostRuntime) -> Result<(), Fail> {
    let mut front = joined(rt.alloc(), &[START, TASK])?;
    refuses_each(&rt, rt.alloc(), &front, 5, 0, IRQS)?;
    front.extend_from_slice(b"irq 0 5 5\n")?;
    refuses_each(&rt, rt.alloc(), &front, 6, 0, IRQS)?;
    refuses_each(&rt, rt.alloc(), &front, 6, 0, OUT_OF_ORDER)
}

// One task and 1,023 irq lines of it, the last of them `irq 0 1022 3`: 1,027 lines.
fn nearly_all_irqs(alloc: Global) -> Result<Vec<u8>, Fail> {
    let mut front = joined(alloc, &[START, TASK])?;
    for step in 0..1023u32 {
        front.extend_from_slice(format!(in alloc; "irq 0 {step} 3\n")?.as_bytes())?;
    }
    Ok(front)
}

// In place of the last irq line of the task, behind `irq 0 1022 3`.
const OUT_OF_ORDER_AT_LAST: &[(&str, Reason)] = &[
    ("irq 0 1021 13\n", Reason::IrqOrder),
    ("irq 0 1022 2\n", Reason::IrqOrder),
    ("irq 0 1022 3\n", Reason::IrqOrder),
];

#[test]
fn each_rule_refuses_the_last_irq_line(rt: HostRuntime) -> Result<(), Fail> {
    let front = nearly_all_irqs(rt.alloc())?;
    refuses_each_at_once(&rt, rt.alloc(), &front, 1028, 0, IRQS)?;
    refuses_each_at_once(&rt, rt.alloc(), &front, 1028, 0, OUT_OF_ORDER_AT_LAST)
}

// Behind the last irq line that the task may have.
const ONE_MORE: &[(&str, Reason)] = &[
    ("irq 0 1023 3\n", Reason::TooMany),
    ("irq 0 0 1\n", Reason::TooMany), // before the order
    ("irq 0 1023 4\n", Reason::Range), // before the number of lines
    ("irq 1 1023 3\n", Reason::NoTask),
    ("images\n", Reason::Cut), // in the image
];

#[test]
fn irq_line_1025_of_a_task_is_too_many(rt: HostRuntime) -> Result<(), Fail> {
    let mut front = nearly_all_irqs(rt.alloc())?;
    front.extend_from_slice(b"irq 0 1022 5\n")?;
    refuses_each_at_once(&rt, rt.alloc(), &front, 1029, 0, ONE_MORE)?;
    let too_many = ("irq 0 1023 3\n", Reason::TooMany);
    refuses_each(&rt, rt.alloc(), &front, 1029, 0, &[too_many])
}
