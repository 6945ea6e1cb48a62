// Which commands are refused, and that they change nothing.
use super::{LOOP, Play, Schedule, TASK_0, Taken, Wanted, begin_schedule, held, leaves, writes};
use replay_engine::PerformFault;
use sched_text::Command;
use std::process::Abort;
use std::test::*;

// Of two tasks on two harts, in any state. 256 and 65,536 are 0 in their low bytes.
const ALWAYS: [(Command, PerformFault); 17] = [
    (
        Command::Run {
            hart: 0,
            task: 2,
            steps: 3,
        },
        PerformFault::NoTask,
    ),
    (
        Command::Run {
            hart: 0,
            task: 64,
            steps: 3,
        },
        PerformFault::NoTask,
    ),
    (
        Command::Run {
            hart: 0,
            task: 256,
            steps: 3,
        },
        PerformFault::NoTask,
    ),
    (
        Command::Run {
            hart: 0,
            task: 0x1_0000_0000,
            steps: 3,
        },
        PerformFault::NoTask,
    ),
    (
        Command::Run {
            hart: 0,
            task: u64::MAX,
            steps: 3,
        },
        PerformFault::NoTask,
    ),
    (
        Command::Run {
            hart: 2,
            task: 0,
            steps: 3,
        },
        PerformFault::NoHart,
    ),
    (
        Command::Run {
            hart: 16,
            task: 0,
            steps: 3,
        },
        PerformFault::NoHart,
    ),
    (
        Command::Run {
            hart: 256,
            task: 0,
            steps: 3,
        },
        PerformFault::NoHart,
    ),
    (
        Command::Run {
            hart: 0x1_0000_0001,
            task: 1,
            steps: 3,
        },
        PerformFault::NoHart,
    ),
    (
        Command::Run {
            hart: u64::MAX,
            task: 1,
            steps: 3,
        },
        PerformFault::NoHart,
    ),
    (
        Command::Run {
            hart: 2,
            task: 2,
            steps: 3,
        },
        PerformFault::NoTask,
    ), // and there is no hart either
    (Command::Sample { task: 2 }, PerformFault::NoTask),
    (Command::Sample { task: 256 }, PerformFault::NoTask),
    (Command::Sample { task: u64::MAX }, PerformFault::NoTask),
    (Command::Evict { hart: 2 }, PerformFault::NoHart),
    (Command::Evict { hart: 256 }, PerformFault::NoHart),
    (Command::Evict { hart: u64::MAX }, PerformFault::NoHart),
];

// Before the first run.
const AT_FIRST: [(Command, PerformFault); 4] = [
    (Command::Sample { task: 0 }, PerformFault::NotResident),
    (Command::Sample { task: 1 }, PerformFault::NotResident),
    (Command::Evict { hart: 0 }, PerformFault::EmptyHart),
    (Command::Evict { hart: 1 }, PerformFault::EmptyHart),
];

// While task 0 is on hart 1, and task 1 on none.
const AFTER_A_RUN: [(Command, PerformFault); 2] = [
    (Command::Sample { task: 1 }, PerformFault::NotResident),
    (Command::Evict { hart: 0 }, PerformFault::EmptyHart),
];

// Performs commands that are refused, and compares why; the harts and what was written stay.
fn refuses(rt: &impl Abort, name: &str, play: &mut Play, commands: &[(Command, PerformFault)]) {
    for (command, fault) in commands {
        let before = [
            held(&play.harts, 0),
            held(&play.harts, 1),
            held(&play.harts, 2),
        ];
        let len = play.sink.bytes().len();
        let answer = play.perform(rt, *command);
        assert_eq!(rt; answer, Err(*fault), "{name}: {command:?}");
        let after = [
            held(&play.harts, 0),
            held(&play.harts, 1),
            held(&play.harts, 2),
        ];
        assert_eq!(rt; after, before, "{name}: {command:?}");
        assert_eq!(rt; play.sink.bytes().len(), len, "{name}: {command:?}");
    }
}

const AROUND: Taken = (0x8000_0000, 0x8000_0000, 0x20_0000);

const TWO_LOOPS: Schedule = Schedule {
    head: &[(
        "ctr-schedule 1\nharts 2\nlayout 887\ntask 4 4 0 4 0 2\ntask 4 4 0 4 0 0\n",
        1,
    )],
    images: &[LOOP, LOOP],
    commands: &[("run 1 0 3\nsample 0\nevict 1\nrun 0 0 1\n", 1)],
};

#[test]
fn refused_commands_change_nothing(rt: HostRuntime) -> Result<(), Fail> {
    let mut play = begin_schedule(&rt, rt.alloc(), &TWO_LOOPS)?;
    refuses(&rt, "at first", &mut play, &ALWAYS);
    refuses(&rt, "at first", &mut play, &AT_FIRST);
    assert_eq!(rt; play.step(&rt), Ok(()), "run 1 0 3");
    refuses(&rt, "after a run", &mut play, &ALWAYS);
    refuses(&rt, "after a run", &mut play, &AFTER_A_RUN);
    assert_eq!(rt; play.step(&rt), Ok(()), "sample 0");
    assert_eq!(rt; play.step(&rt), Ok(()), "evict 1");
    refuses(&rt, "after an evict", &mut play, &ALWAYS);
    refuses(&rt, "after an evict", &mut play, &AT_FIRST);
    assert_eq!(rt; play.step(&rt), Ok(()), "run 0 0 1");
    assert_eq!(rt; play.perform(&rt, Command::End), Ok(()), "end");
    writes(
        &rt,
        rt.alloc(),
        "no refused command is seen later",
        &play,
        &[
            Wanted {
                misc: 3,
                fields: &[0x8000_0000, TASK_0, 2, 1],
                index: &[],
                branches: &[AROUND; 2],
            },
            Wanted {
                misc: 3,
                fields: &[0x8000_0000, TASK_0, 3, 1],
                index: &[],
                branches: &[AROUND; 3],
            },
            Wanted {
                misc: 3,
                fields: &[0x8000_0000, TASK_0, 4, 0],
                index: &[],
                branches: &[AROUND; 4],
            },
        ],
    )?;
    // 70 + 67 on hart 0, and 70 + 67 + 67 + 69 on hart 1
    leaves(
        &rt,
        "no refused command is seen later",
        &play,
        &[(1, 137, Some(0)), (3, 273, None)],
    );
    Ok(())
}
