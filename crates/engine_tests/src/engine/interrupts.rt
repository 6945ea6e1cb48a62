// Interrupts come at the task's own steps, and samples at its own counts, wherever and in how many
// runs it makes them.
use super::{
    Case, EMPTY, LOOP, Schedule, TASK_0, TASK_1, Taken, Wanted, begin_schedule, check_all, writes,
};
use std::alloc::Global;
use std::process::Abort;
use std::test::*;

// Enables the interrupts 3 and 7 with a handler at 8000001C, which returns, and loops at 80000018
// from step 6 on.
const HANDLED: &[u32] = &[
    0x0000_0297,
    0x01C2_8293,
    0x3052_9073,
    0x0880_0293,
    0x3042_9073,
    0x3002_9073,
    0x0000_006F,
    0x3020_0073,
];

const AROUND: Taken = (0x8000_0018, 0x8000_0018, 0x20_0000);

const INTERRUPT: Taken = (0x8000_0018, 0x8000_001C, 0xC0_0000);

const RETURN: Taken = (0x8000_001C, 0x8000_0018, 0xB0_0000);

// Both are raised at step 7, of which 3 comes first, and 3 once more at step 12. The other task
// loops.
const HEAD: &[(&str, u32)] = &[
    (
        "ctr-schedule 1\nharts 2\nlayout 807\ntask 32 32 0 4 0 0\ntask 4 4 0 4 0 0\n",
        1,
    ),
    ("irq 0 7 3\nirq 1 3 7\nirq 0 7 7\nirq 0 12 3\n", 1),
];

const AFTER_14: Wanted = Wanted {
    misc: 3,
    fields: &[0x8000_0018, TASK_0, 14],
    index: &[],
    branches: &[
        RETURN, INTERRUPT, AROUND, RETURN, INTERRUPT, RETURN, INTERRUPT, AROUND,
    ],
};

// The same fourteen steps of task 0.
const RUNS: [&[(&str, u32)]; 11] = [
    &[("run 0 0 14\nsample 0\n", 1)],
    &[("run 0 0 1\n", 14), ("sample 0\n", 1)],
    &[("run 0 0 6\nrun 0 0 8\nsample 0\n", 1)],
    &[("run 0 0 7\nrun 0 0 7\nsample 0\n", 1)],
    &[("run 0 0 8\nrun 0 0 6\nsample 0\n", 1)],
    &[("run 0 0 7\nrun 1 0 7\nsample 0\n", 1)],
    &[("run 0 0 8\nrun 1 0 4\nrun 0 0 2\nsample 0\n", 1)],
    &[("run 0 0 7\nrun 0 0 0\nevict 0\nrun 0 0 7\nsample 0\n", 1)],
    &[(
        "run 0 1 100\nrun 0 0 7\nrun 0 1 7\nrun 1 0 7\nsample 0\n",
        1,
    )],
    &[
        ("run 1 1 5\n", 3),
        ("run 1 0 12\nrun 1 1 9\nrun 0 0 2\nsample 0\n", 1),
    ],
    &[
        ("run 0 0 1\nrun 1 1 1\nrun 1 0 1\nrun 0 1 1\n", 7),
        ("sample 0\n", 1),
    ],
];

fn gives(rt: &impl Abort, alloc: Global, runs: &'static [(&'static str, u32)]) -> Result<(), Fail> {
    let schedule = Schedule {
        head: HEAD,
        images: &[HANDLED, LOOP],
        commands: runs,
    };
    let mut play = begin_schedule(rt, alloc, &schedule)?;
    super::answers(rt, "interrupts", &mut play, &[]);
    writes(rt, alloc, "interrupts", &play, &[AFTER_14])
}

#[test]
fn interrupts_come_at_the_own_steps_of_a_task(rt: HostRuntime) -> Result<(), Fail> {
    for runs in RUNS {
        gives(&rt, rt.alloc(), runs)?;
    }
    Ok(())
}

const JUMP: Taken = (0x8000_0000, 0x8000_0000, 0x20_0000);

const CASES: [Case; 5] = [
    Case {
        name: "two tasks of different periods on one hart",
        schedule: Schedule {
            head: &[(
                "ctr-schedule 1\nharts 1\nlayout 907\ntask 4 4 0 4 0 2\ntask 4 4 0 4 0 3\n",
                1,
            )],
            images: &[LOOP, LOOP],
            commands: &[("run 0 0 3\nrun 0 1 4\nrun 0 0 1\nrun 0 1 2\n", 1)],
        },
        refused: &[],
        samples: &[
            Wanted {
                fields: &[0x8000_0000, TASK_0, 2, 2],
                branches: &[JUMP; 2],
                ..EMPTY
            },
            Wanted {
                fields: &[0x8000_0000, TASK_1, 3, 3],
                branches: &[JUMP; 3],
                ..EMPTY
            },
            Wanted {
                fields: &[0x8000_0000, TASK_0, 4, 2],
                branches: &[JUMP; 4],
                ..EMPTY
            },
            Wanted {
                fields: &[0x8000_0000, TASK_1, 6, 3],
                branches: &[JUMP; 6],
                ..EMPTY
            },
        ],
        // 70 + 67, then three times 69 + 70 + 67
        harts: &[(10, 755, Some(1))],
    },
    Case {
        name: "a period over runs on two harts, and no period",
        schedule: Schedule {
            head: &[(
                "ctr-schedule 1\nharts 2\nlayout 986\ntask 4 4 0 4 0 4\ntask 4 4 0 4 0 0\n",
                1,
            )],
            images: &[LOOP, LOOP],
            commands: &[("run 0 0 3\nrun 0 1 8\nrun 1 0 1\nrun 1 1 4\nrun 0 0 4\n", 1)],
        },
        refused: &[],
        samples: &[
            Wanted {
                fields: &[TASK_0, 4, 1, 4],
                branches: &[JUMP; 4],
                ..EMPTY
            },
            Wanted {
                fields: &[TASK_0, 8, 0, 4],
                branches: &[JUMP; 8],
                ..EMPTY
            },
        ],
        // hart 0: 70, 69 + 70, 69 as task 1 leaves, 70 + 67; hart 1: 70 + 67, 69 + 70, 0
        harts: &[(15, 415, Some(0)), (5, 276, Some(1))],
    },
    Case {
        name: "a period of 1, with a sample as the task stands",
        schedule: Schedule {
            head: &[("ctr-schedule 1\nharts 1\nlayout 904\ntask 4 4 0 4 0 1\n", 1)],
            images: &[LOOP],
            commands: &[("run 0 0 2\nsample 0\nrun 0 0 0\n", 1)],
        },
        refused: &[],
        samples: &[
            Wanted {
                fields: &[1, 1],
                branches: &[JUMP; 1],
                ..EMPTY
            },
            Wanted {
                fields: &[2, 1],
                branches: &[JUMP; 2],
                ..EMPTY
            },
            Wanted {
                fields: &[2, 1],
                branches: &[JUMP; 2],
                ..EMPTY
            },
        ],
        harts: &[(2, 271, Some(0))],
    },
    Case {
        name: "a period that is longer than the run",
        schedule: Schedule {
            head: &[(
                "ctr-schedule 1\nharts 1\nlayout 904\ntask 4 4 0 4 0 1000000000\n",
                1,
            )],
            images: &[LOOP],
            commands: &[("run 0 0 20\n", 1)],
        },
        refused: &[],
        samples: &[],
        harts: &[(20, 70, Some(0))],
    },
    Case {
        name: "the sample of a period shows the interrupt of its step",
        schedule: Schedule {
            head: &[(
                "ctr-schedule 1\nharts 1\nlayout 905\ntask 32 32 0 4 0 8\nirq 0 7 7\n",
                1,
            )],
            images: &[HANDLED],
            commands: &[("run 0 0 8\n", 1)],
        },
        refused: &[],
        samples: &[Wanted {
            fields: &[0x8000_001C, 8, 8],
            branches: &[INTERRUPT, AROUND],
            ..EMPTY
        }],
        harts: &[(8, 137, Some(0))],
    },
];

#[test]
fn periods_are_counted_in_own_steps(rt: HostRuntime) -> Result<(), Fail> {
    check_all(&rt, rt.alloc(), &CASES)
}
