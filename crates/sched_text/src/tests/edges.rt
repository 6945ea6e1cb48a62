use super::{IMAGE, START, TASK, joined, read_all};
use crate::{Command, Header, IrqLine, ScheduleReader, TaskLine};
use ctr_port::MemSource;
use std::alloc::Global;
use std::process::Abort;
use std::test::*;

fn header_of(alloc: Global, parts: &[&str]) -> Result<Header, Fail> {
    let text = joined(alloc, parts)?;
    let mut source = MemSource::new(alloc, &text, &[7], &[])?;
    match ScheduleReader::new().header(alloc, &mut source) {
        Ok(header) => Ok(header),
        Err(_) => Err("a header".into()),
    }
}

#[test]
fn the_first_and_the_last_numbers_of_harts_are_taken(rt: HostRuntime) -> Result<(), Fail> {
    for (line, harts) in [
        ("harts 1\n", 1),
        ("harts 2\n", 2),
        ("harts 15\n", 15),
        ("harts 16\n", 16),
        ("harts 00000000000000000000000000000016\n", 16),
    ] {
        let parts = ["ctr-schedule 1\n", line, "layout 803\n", TASK, "images\n"];
        let header = header_of(rt.alloc(), &parts)?;
        assert_eq!(rt; header.harts, harts, "{line}");
    }
    Ok(())
}

#[test]
fn a_version_may_have_leading_zeros(rt: HostRuntime) -> Result<(), Fail> {
    for line in [
        "ctr-schedule 1\n",
        "ctr-schedule 00000000000000000000000001\n",
    ] {
        let parts = [line, "harts 1\nlayout 803\n", TASK, "images\n"];
        let header = header_of(rt.alloc(), &parts)?;
        assert_eq!(rt; header.tasks.items().len(), 1, "{line}");
    }
    Ok(())
}

#[test]
fn the_branch_word_is_that_of_the_branch_line(rt: HostRuntime) -> Result<(), Fail> {
    for (line, branch) in [
        ("branch 0\n", 0),
        ("branch 00\n", 0),
        ("branch 20000\n", 0x20000),
        ("branch 020000\n", 0x20000),
        ("branch 000000000000000000020000\n", 0x20000),
    ] {
        let start = "ctr-schedule 2\nharts 2\nlayout 883\n";
        let header = header_of(rt.alloc(), &[start, line, TASK, IMAGE])?;
        assert_eq!(rt; header.branch, branch, "{line}");
        assert_eq!(rt; header.layout, 0x883, "{line}");
        assert_eq!(rt; header.harts, 2, "{line}");
        assert_eq!(rt; header.tasks.items().len(), 1, "{line}");
    }
    // Version 1 has no branch line.
    let header = header_of(rt.alloc(), &[START, TASK, IMAGE])?;
    assert_eq!(rt; header.branch, 0);
    Ok(())
}

#[test]
fn a_schedule_of_version_2_is_read_as_one_of_version_1(rt: HostRuntime) -> Result<(), Fail> {
    let first = joined(rt.alloc(), &[START, TASK, IMAGE, super::COMMANDS])?;
    let branch = "ctr-schedule 2\nharts 1\nlayout 803\nbranch 0\n";
    let second = joined(rt.alloc(), &[branch, TASK, IMAGE, super::COMMANDS])?;
    for text in [first, second] {
        let mut source = MemSource::new(rt.alloc(), &text, &[], &[])?;
        let answers = read_all(rt.alloc(), &mut ScheduleReader::new(), &mut source)?;
        assert_eq!(rt; answers.fault, None);
        assert_eq!(rt; answers.images.len(), 1);
        let run = Command::Run {
            hart: 0,
            task: 0,
            steps: 1,
        };
        assert_eq!(rt;
            answers.commands.as_slice(),
            [run, Command::Sample { task: 0 }].as_slice()
        );
    }
    Ok(())
}

// The branch stack alone, every bit that a layout may have, and each of these bits beside the
// branch stack.
const LAYOUTS: &[(&str, u64)] = &[
    ("layout 800\n", 0x800),
    ("layout 10bcf\n", 0x1_0BCF),
    ("layout 10BCF\n", 0x1_0BCF),
    ("layout 10BcF\n", 0x1_0BCF),
    ("layout 0000000000000000000000010bcf\n", 0x1_0BCF),
    ("layout 801\n", 0x801),
    ("layout 802\n", 0x802),
    ("layout 804\n", 0x804),
    ("layout 808\n", 0x808),
    ("layout 840\n", 0x840),
    ("layout 880\n", 0x880),
    ("layout 900\n", 0x900),
    ("layout a00\n", 0xA00),
    ("layout 10800\n", 0x1_0800),
];

#[test]
fn each_layout_is_kept(rt: HostRuntime) -> Result<(), Fail> {
    for (line, layout) in LAYOUTS {
        let parts = ["ctr-schedule 1\nharts 1\n", line, TASK, "images\n"];
        let header = header_of(rt.alloc(), &parts)?;
        assert_eq!(rt; header.layout, *layout, "{line}");
    }
    Ok(())
}

// A task line, and its six numbers in their order.
const TASKS: &[(&str, (u32, u32, u8, u64, u64, u32))] = &[
    ("task 0 4 0 0 0 0\n", (0, 4, 0, 0, 0, 0)),
    ("task 4 4 0 0 0 0\n", (4, 4, 0, 0, 0, 0)),
    ("task 1 4 1 0 0 1\n", (1, 4, 1, 0, 0, 1)),
    ("task 3 8 2 0 0 2\n", (3, 8, 2, 0, 0, 2)),
    ("task 7 8 3 0 0 3\n", (7, 8, 3, 0, 0, 3)),
    (
        "task 1048576 1048576 4 ffffffffffffffff FFFFFFFFFFFFFFFF 1000000000\n",
        (1_048_576, 1_048_576, 4, u64::MAX, u64::MAX, 1_000_000_000),
    ),
    (
        "task 1048575 1048576 4 FfFfFfFfFfFfFfFf 8000000000000000 999999999\n",
        (
            1_048_575,
            1_048_576,
            4,
            u64::MAX,
            0x8000_0000_0000_0000,
            999_999_999,
        ),
    ),
    (
        "task 1048572 1048572 4 fedcba9876543210 0123456789ABCDEF 0\n",
        (
            1_048_572,
            1_048_572,
            4,
            0xFEDC_BA98_7654_3210,
            0x0123_4567_89AB_CDEF,
            0,
        ),
    ),
    (
        "task 00000000000000000000000 000000000000000000000000004 0000000000000000000004 \
         00000000ffffffffffffffff 000000000000000000000000a 0000000000000000000001000000000\n",
        (0, 4, 4, u64::MAX, 0xA, 1_000_000_000),
    ),
];

fn task_of(numbers: (u32, u32, u8, u64, u64, u32)) -> TaskLine {
    TaskLine {
        image: numbers.0,
        mem: numbers.1,
        depth: numbers.2,
        mctrctl: numbers.3,
        vsctrctl: numbers.4,
        period: numbers.5,
    }
}

#[test]
fn the_first_and_the_last_numbers_of_a_task_are_taken(rt: HostRuntime) -> Result<(), Fail> {
    for (line, numbers) in TASKS {
        let header = header_of(rt.alloc(), &[START, line, "images\n"])?;
        assert_eq!(rt;
            header.tasks.items(),
            [task_of(*numbers)].as_slice(),
            "{line}"
        );
    }
    Ok(())
}

const IRQS: &[(&str, u64, u8)] = &[
    ("irq 0 0 1\n", 0, 1),
    ("irq 0 0 2\n", 0, 2),
    ("irq 0 0 3\n", 0, 3),
    ("irq 0 0 5\n", 0, 5),
    ("irq 0 0 6\n", 0, 6),
    ("irq 0 0 7\n", 0, 7),
    ("irq 0 0 9\n", 0, 9),
    ("irq 0 0 10\n", 0, 10),
    ("irq 0 0 11\n", 0, 11),
    ("irq 0 0 13\n", 0, 13),
    ("irq 0 1 1\n", 1, 1),
    ("irq 0 999999999999999 13\n", 999_999_999_999_999, 13),
    ("irq 0 1000000000000000 1\n", 1_000_000_000_000_000, 1),
    (
        "irq 00000000000000000000 0000000000001000000000000000 0000000000000000000013\n",
        1_000_000_000_000_000,
        13,
    ),
];

#[test]
fn each_cause_and_the_first_and_the_last_step_are_taken(rt: HostRuntime) -> Result<(), Fail> {
    for (line, step, cause) in IRQS {
        let header = header_of(rt.alloc(), &[START, TASK, line, "images\n"])?;
        let irq = IrqLine {
            task: 0,
            step: *step,
            cause: *cause,
        };
        assert_eq!(rt; header.irqs.items(), [irq].as_slice(), "{line}");
    }
    Ok(())
}

#[test]
fn irq_lines_of_one_task_come_in_order_and_those_of_two_in_any(
    rt: HostRuntime,
) -> Result<(), Fail> {
    // All ten causes at one step, a later step with a lesser cause, and an earlier step of the
    // other task.
    let header = header_of(
        rt.alloc(),
        &[
            START,
            TASK,
            TASK,
            "irq 1 7 1\nirq 1 7 2\nirq 1 7 3\nirq 1 7 5\nirq 1 7 6\n\
             irq 1 7 7\nirq 1 7 9\nirq 1 7 10\nirq 1 7 11\nirq 1 7 13\n",
            "irq 1 8 1\nirq 0 6 3\nirq 0 7 1\nirq 1 1000000000000000 13\nirq 0 7 2\nimages\n",
        ],
    )?;
    assert_eq!(rt; header.irqs.items().len(), 15);
    assert_eq!(rt;
        header.irqs.items().last(),
        Some(&IrqLine {
            task: 0,
            step: 7,
            cause: 2
        })
    );
    Ok(())
}

const COMMANDS: &[(&str, Command)] = &[
    (
        "run 0 0 0\n",
        Command::Run {
            hart: 0,
            task: 0,
            steps: 0,
        },
    ),
    (
        "run 1 2 3\n",
        Command::Run {
            hart: 1,
            task: 2,
            steps: 3,
        },
    ),
    (
        "run 18446744073709551614 18446744073709551615 999999999\n",
        Command::Run {
            hart: 0xFFFF_FFFF_FFFF_FFFE,
            task: 0xFFFF_FFFF_FFFF_FFFF,
            steps: 999_999_999,
        },
    ),
    (
        "run 18446744073709551615 18446744073709551614 1000000000\n",
        Command::Run {
            hart: 0xFFFF_FFFF_FFFF_FFFF,
            task: 0xFFFF_FFFF_FFFF_FFFE,
            steps: 1_000_000_000,
        },
    ),
    (
        "run 18446744073709551616 18446744073709551616 1000000000\n",
        Command::Run {
            hart: 0xFFFF_FFFF_FFFF_FFFF,
            task: 0xFFFF_FFFF_FFFF_FFFF,
            steps: 1_000_000_000,
        },
    ),
    (
        "run 0000000000000000000000001 0000000000000000000000002 0000000000000000000000003\n",
        Command::Run {
            hart: 1,
            task: 2,
            steps: 3,
        },
    ),
    ("sample 0\n", Command::Sample { task: 0 }),
    (
        "sample 18446744073709551614\n",
        Command::Sample {
            task: 0xFFFF_FFFF_FFFF_FFFE,
        },
    ),
    (
        "sample 18446744073709551615\n",
        Command::Sample {
            task: 0xFFFF_FFFF_FFFF_FFFF,
        },
    ),
    (
        "sample 18446744073709551616\n",
        Command::Sample {
            task: 0xFFFF_FFFF_FFFF_FFFF,
        },
    ),
    (
        "sample 18446744073709551617\n",
        Command::Sample {
            task: 0xFFFF_FFFF_FFFF_FFFF,
        },
    ),
    (
        "sample 00000000000000000064\n",
        Command::Sample { task: 64 },
    ),
    ("evict 0\n", Command::Evict { hart: 0 }),
    ("evict 16\n", Command::Evict { hart: 16 }),
    (
        "evict 18446744073709551614\n",
        Command::Evict {
            hart: 0xFFFF_FFFF_FFFF_FFFE,
        },
    ),
    (
        "evict 18446744073709551615\n",
        Command::Evict {
            hart: 0xFFFF_FFFF_FFFF_FFFF,
        },
    ),
    (
        "evict 18446744073709551616\n",
        Command::Evict {
            hart: 0xFFFF_FFFF_FFFF_FFFF,
        },
    ),
    (
        "evict 36893488147419103233\n",
        Command::Evict {
            hart: 0xFFFF_FFFF_FFFF_FFFF,
        },
    ), // 2^65 + 1
];

fn answers_command(
    rt: &impl Abort,
    alloc: Global,
    line: &str,
    command: Command,
) -> Result<(), Fail> {
    let text = joined(alloc, &[START, TASK, IMAGE, "sample 0\n", line, "end\n"])?;
    let mut source = MemSource::new(alloc, &text, &[7], &[])?;
    let answers = read_all(alloc, &mut ScheduleReader::new(), &mut source)?;
    assert_eq!(rt; answers.fault, None, "{line}");
    assert_eq!(rt;
        answers.commands.as_slice(),
        [Command::Sample { task: 0 }, command].as_slice(),
        "{line}"
    );
    Ok(())
}

#[test]
fn the_first_and_the_last_numbers_of_a_command_are_taken(rt: HostRuntime) -> Result<(), Fail> {
    for (line, command) in COMMANDS {
        answers_command(&rt, rt.alloc(), line, *command)?;
    }
    Ok(())
}

#[test]
fn each_call_answers_what_the_text_says(rt: HostRuntime) -> Result<(), Fail> {
    let text = "ctr-schedule 01\nharts 2\nlayout 0000000000000000000000883\ntask 2 8 3 aB 2 10\n\
         task 0 4 0 0 0 0\nirq 0 5 3\nirq 1 5 3\nirq 0 5 13\nimages\n\n\nrun 1 0 1000000000\n\
         sample 18446744073709551616\nevict 99999999999999999999999999999999999999999999\nend\n";
    let mut source = MemSource::new(rt.alloc(), text.as_bytes(), &[3], &[])?;
    let mut reader = ScheduleReader::new();
    assert_eq!(rt; reader.line(), 0);
    let header = reader
        .header(rt.alloc(), &mut source)
        .ok()
        .ok_or("a header")?;
    assert_eq!(rt; header.harts, 2);
    assert_eq!(rt; header.layout, 0x883);
    let tasks = [task_of((2, 8, 3, 0xAB, 2, 10)), task_of((0, 4, 0, 0, 0, 0))];
    assert_eq!(rt; header.tasks.items(), tasks.as_slice());
    let irqs = [
        IrqLine {
            task: 0,
            step: 5,
            cause: 3,
        },
        IrqLine {
            task: 1,
            step: 5,
            cause: 3,
        },
        IrqLine {
            task: 0,
            step: 5,
            cause: 13,
        },
    ];
    assert_eq!(rt; header.irqs.items(), irqs.as_slice());
    assert_eq!(rt; reader.line(), 9);
    // Two line feeds are the first image.
    let image = reader
        .image(rt.alloc(), &mut source, 2)
        .ok()
        .ok_or("an image")?;
    assert_eq!(rt; image.items(), b"\n\n".as_slice());
    let image = reader
        .image(rt.alloc(), &mut source, 0)
        .ok()
        .ok_or("an image")?;
    assert_eq!(rt; image.items().len(), 0);
    assert_eq!(rt; reader.line(), 9);
    let command = reader.command(&mut source).ok().ok_or("a command")?;
    assert_eq!(rt;
        command,
        Command::Run {
            hart: 1,
            task: 0,
            steps: 1_000_000_000
        }
    );
    assert_eq!(rt; reader.line(), 10);
    // What is past the end of 64 bits is kept as the last number of 64 bits.
    assert_eq!(rt;
        reader.command(&mut source),
        Ok(Command::Sample { task: u64::MAX })
    );
    assert_eq!(rt; reader.line(), 11);
    assert_eq!(rt;
        reader.command(&mut source),
        Ok(Command::Evict { hart: u64::MAX })
    );
    assert_eq!(rt; reader.line(), 12);
    assert_eq!(rt; reader.command(&mut source), Ok(Command::End));
    assert_eq!(rt; reader.line(), 13);
    Ok(())
}
