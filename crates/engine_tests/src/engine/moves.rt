// What moves cost, and what they leave on the harts. At depth 16 a restore takes 70 accesses, a
// save 69 and a sample 67.
use super::{Case, LOOP, Schedule, TASK_0, TASK_1, Taken, Wanted, check_all};
use std::test::*;

const AROUND: Taken = (0x8000_0000, 0x8000_0000, 0x20_0000);

// Two tasks that loop, on three harts.
const LOOPS: Schedule = Schedule {
    head: &[(
        "ctr-schedule 1\nharts 3\nlayout 883\ntask 4 4 0 4 0 0\ntask 4 4 0 4 0 0\n",
        1,
    )],
    images: &[LOOP, LOOP],
    commands: &[],
};

const CASES: [Case; 7] = [
    Case {
        name: "no step restores a task",
        schedule: Schedule {
            commands: &[("run 0 0 0\nsample 0\n", 1)],
            ..LOOPS
        },
        refused: &[],
        samples: &[Wanted {
            misc: 3,
            fields: &[0x8000_0000, TASK_0, 0],
            index: &[],
            branches: &[],
        }],
        harts: &[(0, 137, Some(0))],
    },
    Case {
        name: "a task where it is isn't moved",
        schedule: Schedule {
            commands: &[("run 1 0 0\n", 3), ("run 1 0 2\nsample 0\n", 1)],
            ..LOOPS
        },
        refused: &[],
        samples: &[Wanted {
            misc: 3,
            fields: &[0x8000_0000, TASK_0, 1],
            index: &[],
            branches: &[AROUND; 2],
        }],
        harts: &[(0, 0, None), (2, 137, Some(0))],
    },
    Case {
        name: "no step moves a task with its records",
        schedule: Schedule {
            commands: &[("run 0 0 2\nrun 2 0 0\nsample 0\n", 1)],
            ..LOOPS
        },
        refused: &[],
        samples: &[Wanted {
            misc: 3,
            fields: &[0x8000_0000, TASK_0, 2],
            index: &[],
            branches: &[AROUND; 2],
        }],
        harts: &[(2, 139, None), (0, 0, None), (0, 137, Some(0))],
    },
    Case {
        name: "a task drives another one from its hart, and its records are its own",
        schedule: Schedule {
            commands: &[("run 0 0 2\nrun 0 1 1\nsample 1\nrun 0 0 1\nsample 0\n", 1)],
            ..LOOPS
        },
        refused: &[],
        samples: &[
            Wanted {
                misc: 3,
                fields: &[0x8000_0000, TASK_1, 0],
                index: &[],
                branches: &[AROUND; 1],
            },
            Wanted {
                misc: 3,
                fields: &[0x8000_0000, TASK_0, 0],
                index: &[],
                branches: &[AROUND; 3],
            },
        ],
        // 70, 69 + 70 + 67, 69 + 70 + 67
        harts: &[(4, 482, Some(0))],
    },
    Case {
        name: "two tasks exchange their harts",
        schedule: Schedule {
            commands: &[
                ("run 0 0 1\nrun 1 1 2\nrun 1 0 3\nrun 0 1 4\n", 1),
                ("sample 0\nsample 1\n", 1),
            ],
            ..LOOPS
        },
        refused: &[],
        samples: &[
            Wanted {
                misc: 3,
                fields: &[0x8000_0000, TASK_0, 1],
                index: &[],
                branches: &[AROUND; 4],
            },
            Wanted {
                misc: 3,
                fields: &[0x8000_0000, TASK_1, 0],
                index: &[],
                branches: &[AROUND; 6],
            },
        ],
        // 70 + 69 + 70 + 67, and 70 + 69 + 70 + 67
        harts: &[(5, 276, Some(1)), (5, 276, Some(0))],
    },
    Case {
        name: "an evicted task goes on elsewhere",
        schedule: Schedule {
            commands: &[("run 0 0 1\nevict 0\nrun 2 0 1\nsample 0\n", 1)],
            ..LOOPS
        },
        refused: &[],
        samples: &[Wanted {
            misc: 3,
            fields: &[0x8000_0000, TASK_0, 2],
            index: &[],
            branches: &[AROUND; 2],
        }],
        harts: &[(1, 139, None), (0, 0, None), (1, 137, Some(0))],
    },
    Case {
        name: "an evicted task goes on where it was",
        schedule: Schedule {
            commands: &[(
                "run 1 0 1\nevict 1\nrun 1 1 1\nevict 1\nrun 1 0 1\nsample 0\n",
                1,
            )],
            ..LOOPS
        },
        refused: &[],
        samples: &[Wanted {
            misc: 3,
            fields: &[0x8000_0000, TASK_0, 1],
            index: &[],
            branches: &[AROUND; 2],
        }],
        // 70 + 69, 70 + 69, 70 + 67
        harts: &[(0, 0, None), (3, 415, Some(0))],
    },
];

#[test]
fn moves_cost_their_accesses_and_keep_the_records(rt: HostRuntime) -> Result<(), Fail> {
    check_all(&rt, rt.alloc(), &CASES)
}
