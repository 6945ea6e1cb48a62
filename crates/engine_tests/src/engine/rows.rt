// Schedules with the samples that they give, and what they leave.
use super::{
    CALL, Case, LOOP, Schedule, TASK_0, TASK_1, Taken, Wanted, answers, append_images,
    append_lines, begin, begin_schedule, check_all, leaves, spell,
};
use ctr_port::MemSink;
use replay_engine::PerformFault;
use std::alloc::Global;
use std::process::Abort;
use std::test::*;

// Adds sctrstatus and siselect, stores the sum at 80000030, and loops by one of two jumps, as the
// sum is even or odd.
const SWAPPED: &[u32] = &[
    0x14F0_22F3,
    0x1500_2373,
    0x0062_82B3,
    0x0000_0397,
    0x0253_B223,
    0x0012_F293,
    0x0002_9463,
    0xFE5F_F06F,
    0xFE1F_F0EF,
];

// Calls once and returns once, which pops; then reads entry 15 and calls the address 24 above its
// source.
const POPPED: &[u32] = &[
    0x0040_00EF,
    0x0040_8067,
    0x20F0_0293,
    0x1502_9073,
    0x1510_2373,
    0x0183_00E7,
];

// Enables interrupt 3 and loops at 8000000C.
const WAITS: &[u32] = &[0x0080_0293, 0x3042_9073, 0x3002_9073, 0x0000_006F];

// Writes 4 to sctrdepth, 256 entries, and loops at 80000008.
const DEEPENS: &[u32] = &[0x0040_0293, 0x15F2_9073, 0x0000_006F];

const AROUND: Taken = (0x8000_0000, 0x8000_0000, 0x20_0000);

const SWAPPED_BRANCHES: &[Taken] = &[
    (0x8000_0020, 0x8000_0000, 0x40_0000),
    (0x8000_0018, 0x8000_0020, 0x10_0001),
    (0x8000_0020, 0x8000_0000, 0x40_0000),
    (0x8000_0018, 0x8000_0020, 0x10_0001),
    (0x8000_001C, 0x8000_0000, 0x20_0000),
];

const ONE_CALL: Wanted = Wanted {
    misc: 3,
    fields: &[0x8000_0008, TASK_0],
    index: &[],
    branches: &[(0x8000_0000, 0x8000_0008, 0x40_0000)],
};

const ONE_CALL_OF_1: Wanted = Wanted {
    fields: &[0x8000_0008, TASK_1],
    ..ONE_CALL
};

// Of a task at 80000000 with a period of 2, time and period alone.
const AFTER_2: Wanted = Wanted {
    misc: 3,
    fields: &[2, 2],
    index: &[],
    branches: &[AROUND; 2],
};

const AFTER_4: Wanted = Wanted {
    misc: 3,
    fields: &[4, 2],
    index: &[],
    branches: &[AROUND; 4],
};

const PERIODS: &[(&str, u32)] = &[("ctr-schedule 1\nharts 1\nlayout 904\ntask 4 4 0 4 0 2\n", 1)];

const INDEXED: &[(&str, u32)] = &[(
    "ctr-schedule 2\nharts 1\nlayout 803\nbranch 20000\ntask 4 8 0 4 0 0\n",
    1,
)];

const TWO_CALLS: &[(&str, u32)] = &[(
    "ctr-schedule 1\nharts 2\nlayout 803\ntask 4 8 0 4 0 0\ntask 4 8 0 4 0 0\n",
    1,
)];

const CASES: [Case; 14] = [
    // At depth 16 a restore takes 70 accesses, a save 69 and a sample 67; at depth 256 they take
    // 1,030, 1,029 and 1,027.
    Case {
        name: "two tasks that swap their harts at each step",
        schedule: Schedule {
            head: &[(
                "ctr-schedule 1\nharts 2\nlayout 883\ntask 36 56 0 4 0 0\ntask 36 56 4 4 0 0\n",
                1,
            )],
            images: &[SWAPPED, SWAPPED],
            commands: &[
                ("run 0 0 1\nrun 1 1 1\nrun 1 0 1\nrun 0 1 1\n", 12),
                ("sample 0\nsample 1\n", 1),
            ],
        },
        refused: &[],
        samples: &[
            Wanted {
                misc: 3,
                fields: &[0x8000_0000, TASK_0, 1],
                index: &[],
                branches: SWAPPED_BRANCHES,
            },
            Wanted {
                misc: 3,
                fields: &[0x8000_0000, TASK_1, 0],
                index: &[],
                branches: SWAPPED_BRANCHES,
            },
        ],
        // 70 + 23 * (70 + 1029) + 1027, and 1030 + 23 * (1030 + 69) + 67
        harts: &[(24, 26_374, Some(1)), (24, 26_374, Some(0))],
    },
    Case {
        name: "a popped entry goes with its task to a hart whose pointer is elsewhere",
        schedule: Schedule {
            head: &[(
                "ctr-schedule 1\nharts 2\nlayout 803\ntask 24 24 0 84 0 0\ntask 4 4 4 4 0 0\n",
                1,
            )],
            images: &[POPPED, LOOP],
            commands: &[("run 1 1 256\nrun 0 0 2\nrun 1 0 4\nsample 0\n", 1)],
        },
        refused: &[],
        samples: &[Wanted {
            misc: 3,
            fields: &[0x8000_0018, TASK_0],
            index: &[],
            branches: &[(0x8000_0014, 0x8000_0018, 0x50_0002)],
        }],
        harts: &[(2, 139, None), (260, 2_196, Some(0))],
    },
    Case {
        name: "a task that was evicted is on no hart",
        schedule: Schedule {
            head: &[(
                "ctr-schedule 1\nharts 1\nlayout 803\ntask 4 8 0 4 0 0\ntask 4 8 0 4 0 0\n",
                1,
            )],
            images: &[CALL, CALL],
            commands: &[("run 0 0 1\nsample 0\nrun 0 1 1\nevict 0\nsample 1\n", 1)],
        },
        refused: &[(4, PerformFault::NotResident)],
        samples: &[ONE_CALL],
        harts: &[(2, 345, None)],
    },
    Case {
        name: "an interrupt at the task's own step on another hart",
        schedule: Schedule {
            head: &[
                (
                    "ctr-schedule 1\nharts 2\nlayout 803\ntask 16 16 0 4 0 0\ntask 4 4 0 4 0 0\n",
                    1,
                ),
                ("irq 0 5 3\n", 1),
            ],
            images: &[WAITS, LOOP],
            commands: &[("run 0 1 100\nrun 0 0 4\nrun 1 0 2\nsample 0\n", 1)],
        },
        refused: &[],
        samples: &[Wanted {
            misc: 3,
            fields: &[0, TASK_0],
            index: &[],
            branches: &[
                (0x8000_000C, 0, 0xC0_0000),
                (0x8000_000C, 0x8000_000C, 0x20_0000),
                (0x8000_000C, 0x8000_000C, 0x20_0000),
            ],
        }],
        harts: &[(104, 278, None), (2, 137, Some(0))],
    },
    Case {
        name: "a sample at each multiple of a period",
        schedule: Schedule {
            head: PERIODS,
            images: &[LOOP],
            commands: &[("run 0 0 5\n", 1)],
        },
        refused: &[],
        samples: &[AFTER_2, AFTER_4],
        harts: &[(5, 204, Some(0))],
    },
    Case {
        name: "the same in two runs",
        schedule: Schedule {
            head: PERIODS,
            images: &[LOOP],
            commands: &[("run 0 0 2\nrun 0 0 3\n", 1)],
        },
        refused: &[],
        samples: &[AFTER_2, AFTER_4],
        harts: &[(5, 204, Some(0))],
    },
    Case {
        name: "the same in runs of 3, 0 and 2 steps",
        schedule: Schedule {
            head: PERIODS,
            images: &[LOOP],
            commands: &[("run 0 0 3\nrun 0 0 0\nrun 0 0 2\n", 1)],
        },
        refused: &[],
        samples: &[AFTER_2, AFTER_4],
        harts: &[(5, 204, Some(0))],
    },
    Case {
        name: "the same step by step",
        schedule: Schedule {
            head: PERIODS,
            images: &[LOOP],
            commands: &[("run 0 0 1\n", 5)],
        },
        refused: &[],
        samples: &[AFTER_2, AFTER_4],
        harts: &[(5, 204, Some(0))],
    },
    Case {
        name: "samples in the order of their commands",
        schedule: Schedule {
            head: TWO_CALLS,
            images: &[CALL, CALL],
            commands: &[("run 0 0 1\nrun 1 1 1\nsample 1\nsample 0\n", 1)],
        },
        refused: &[],
        samples: &[ONE_CALL_OF_1, ONE_CALL],
        harts: &[(1, 137, Some(0)), (1, 137, Some(1))],
    },
    Case {
        name: "a task that another one drove from its hart is on none",
        schedule: Schedule {
            head: TWO_CALLS,
            images: &[CALL, CALL],
            commands: &[("run 0 0 1\nrun 0 1 1\nsample 1\nsample 0\n", 1)],
        },
        refused: &[(3, PerformFault::NotResident)],
        samples: &[ONE_CALL_OF_1],
        harts: &[(2, 276, Some(1))],
    },
    Case {
        name: "the place of the youngest entry",
        schedule: Schedule {
            head: INDEXED,
            images: &[CALL],
            commands: &[("run 0 0 1\nsample 0\n", 1)],
        },
        refused: &[],
        samples: &[Wanted {
            index: &[0],
            ..ONE_CALL
        }],
        harts: &[(1, 139, Some(0))],
    },
    Case {
        name: "the place of the youngest entry, where there is none",
        schedule: Schedule {
            head: INDEXED,
            images: &[CALL],
            commands: &[("run 0 0 0\nsample 0\n", 1)],
        },
        refused: &[],
        samples: &[Wanted {
            misc: 3,
            fields: &[0x8000_0000, TASK_0],
            index: &[0xFFFF_FFFF_FFFF_FFFF],
            branches: &[],
        }],
        harts: &[(0, 139, Some(0))],
    },
    Case {
        name: "the place of the youngest entry, where the pointer is 0 again",
        schedule: Schedule {
            head: &[(
                "ctr-schedule 2\nharts 1\nlayout 800\nbranch 20000\ntask 4 8 1 4 0 32\n",
                1,
            )],
            images: &[LOOP],
            commands: &[("run 0 0 33\n", 1)],
        },
        refused: &[],
        samples: &[Wanted {
            misc: 3,
            fields: &[],
            index: &[31],
            branches: &[AROUND; 32],
        }],
        // 6 + 128, and 3 + 128 + 2
        harts: &[(33, 267, Some(0))],
    },
    Case {
        name: "the accesses go by the depth that the task has",
        schedule: Schedule {
            head: &[(
                "ctr-schedule 1\nharts 2\nlayout 800\ntask 12 12 0 4 0 0\n",
                1,
            )],
            images: &[DEEPENS],
            commands: &[("run 0 0 3\nevict 0\nrun 1 0 1\nsample 0\nrun 0 0 0\n", 1)],
        },
        refused: &[],
        samples: &[Wanted {
            misc: 3,
            fields: &[],
            index: &[],
            branches: &[(0x8000_0008, 0x8000_0008, 0x20_0000); 2],
        }],
        // 70 + 1029 + 1030, and 1030 + 1027 + 1029
        harts: &[(3, 2_129, Some(0)), (1, 3_086, None)],
    },
];

#[test]
fn schedules_give_their_samples_and_leave_their_harts(rt: HostRuntime) -> Result<(), Fail> {
    check_all(&rt, rt.alloc(), &CASES)
}

// The sample of a call with the place of its entry, byte for byte: type 9, misc 3, size 64; ip; pid
// and tid; one branch; hw_index; from, to, flags.
const INDEXED_CALL: [u8; 64] = [
    0x09, 0, 0, 0, 0x03, 0, 0x40, 0, //
    0x08, 0, 0, 0x80, 0, 0, 0, 0, //
    0x01, 0, 0, 0, 0x01, 0, 0, 0, //
    0x01, 0, 0, 0, 0, 0, 0, 0, //
    0, 0, 0, 0, 0, 0, 0, 0, //
    0, 0, 0, 0x80, 0, 0, 0, 0, //
    0x08, 0, 0, 0x80, 0, 0, 0, 0, //
    0, 0, 0x40, 0, 0, 0, 0, 0,
];

// The same before the first step, without a branch: size 40.
const INDEXED_NONE: [u8; 40] = [
    0x09, 0, 0, 0, 0x03, 0, 0x28, 0, //
    0, 0, 0, 0x80, 0, 0, 0, 0, //
    0x01, 0, 0, 0, 0x01, 0, 0, 0, //
    0, 0, 0, 0, 0, 0, 0, 0, //
    0xFF, 0xFF, 0xFF, 0xFF, 0xFF, 0xFF, 0xFF, 0xFF,
];

// Performs a schedule, and compares what it wrote byte for byte.
fn bytes_are(
    rt: &impl Abort,
    alloc: Global,
    name: &str,
    schedule: &Schedule,
    want: &[u8],
) -> Result<(), Fail> {
    let mut play = begin_schedule(rt, alloc, schedule)?;
    answers(rt, name, &mut play, &[]);
    assert_eq!(rt; play.sink.bytes(), want, "{name}");
    Ok(())
}

const ONE_STEP: Schedule = Schedule {
    head: INDEXED,
    images: &[CALL],
    commands: &[("run 0 0 1\nsample 0\n", 1)],
};

const NO_STEP: Schedule = Schedule {
    commands: &[("run 0 0 0\nsample 0\n", 1)],
    ..ONE_STEP
};

#[test]
fn samples_with_the_place_of_the_youngest_entry_are_these_bytes(
    rt: HostRuntime,
) -> Result<(), Fail> {
    bytes_are(&rt, rt.alloc(), "a call", &ONE_STEP, &INDEXED_CALL)?;
    bytes_are(&rt, rt.alloc(), "no branch", &NO_STEP, &INDEXED_NONE)
}

// Calls 80000008, and from then on loops between 80000004 and a return at 80000008.
const RETURNS: &[u32] = &[0x0080_00EF, 0x0000_0013, 0x0000_8067];

const ROUND_0: &str = "run 0 0 250000\nrun 1 1 250000\nrun 2 2 250000\nrun 3 3 250000\n";

const ROUND_1: &str = "run 1 0 250000\nrun 2 1 250000\nrun 3 2 250000\nrun 0 3 250000\n";

const ROUND_2: &str = "run 2 0 250000\nrun 3 1 250000\nrun 0 2 250000\nrun 1 3 250000\n";

const ROUND_3: &str = "run 3 0 250000\nrun 0 1 250000\nrun 1 2 250000\nrun 2 3 250000\n";

// Four tasks with images as large as their memories and a sample after each 10,000 steps go around
// four harts, 250,000 steps at a time.
const LONG: Schedule = Schedule {
    head: &[
        ("ctr-schedule 1\nharts 4\nlayout 10bcf\n", 1),
        ("task 65536 65536 2 4 0 10000\n", 4),
    ],
    images: &[RETURNS, RETURNS, RETURNS, RETURNS],
    commands: &[
        (ROUND_0, 1),
        (ROUND_1, 1),
        (ROUND_2, 1),
        (ROUND_3, 1),
        (ROUND_0, 1),
        (ROUND_1, 1),
        (ROUND_2, 1),
        (ROUND_3, 1),
        (ROUND_0, 1),
        (ROUND_1, 1),
    ],
};

// The text of that schedule, with zeros behind the instructions of each image.
fn long_text(alloc: Global) -> Result<Vec<u8>, Fail> {
    let mut text = Vec::new(alloc);
    append_lines(&mut text, LONG.head)?;
    text.extend_from_slice(b"images\n")?;
    for image in LONG.images {
        append_images(&mut text, &[*image])?;
        for _ in 0..65_524 {
            text.push(0)?;
        }
    }
    append_lines(&mut text, LONG.commands)?;
    text.extend_from_slice(b"end\n")?;
    Ok(text)
}

// Of each command, of each of its 25 samples: identifier, ip, pid and tid, time, addr, id,
// stream_id, cpu, period.
fn long_samples(alloc: Global) -> Result<Vec<u8>, Fail> {
    let branches = [(0x8000_0008, 0x8000_0004, 0x60_0002); 64];
    let mut out = Vec::new(alloc);
    for i in 0..40u64 {
        let (task, hart) = (i % 4, (i + i / 4) % 4);
        for k in 1..26u64 {
            let time = (i / 4) * 250_000 + k * 10_000;
            let process = (task + 1) * 0x1_0000_0001;
            let fields = [task, 0x8000_0004, process, time, 0, task, 0, hart, 10_000];
            spell(&mut out, 3, &fields, &[], &branches)?;
        }
    }
    Ok(out)
}

#[test]
fn a_thousand_samples_of_four_tasks(rt: HostRuntime) -> Result<(), Fail> {
    let text = long_text(rt.alloc())?;
    let sink = MemSink::new(rt.alloc(), 1 << 21, &[], &[])?;
    let mut play = begin(&rt, rt.alloc(), &text, sink)?;
    answers(&rt, "a long run", &mut play, &[]);
    let want = long_samples(rt.alloc())?;
    assert_eq!(rt; want.len(), 1_624_000);
    assert!(rt;
        play.sink.bytes() == want.as_slice(),
        "the samples of a long run"
    );
    // 262 + 9 * (261 + 262) + 250 * 259
    leaves(
        &rt,
        "a long run",
        &play,
        &[
            (2_500_000, 69_719, Some(3)),
            (2_500_000, 69_719, Some(0)),
            (2_500_000, 69_719, Some(1)),
            (2_500_000, 69_719, Some(2)),
        ],
    );
    Ok(())
}
