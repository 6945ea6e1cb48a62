// Tasks that are moved between harts: each sample is that of its task alone.
use crate::call::{
    CANNOT_WRITE, CANNOT_WRITE_SAID, DONE, Ended, ends, leaves, refused, run, writing,
};
use crate::case::{Case, check_all};
use ctr_port::NoMemory;
use ctr_vectors::images::*;
use ctr_vectors::{Branch, SampleWords, Schedule, bytes_of_samples};
use sched_text::Reason;
use std::process::Abort;

/// What a task that sums its registers leaves after 24 steps.
pub const SUMMED: &[Branch] = &[
    (0x8000_0020, 0x8000_0000, 0x40_0000),
    (0x8000_0018, 0x8000_0020, 0x10_0001),
    (0x8000_0020, 0x8000_0000, 0x40_0000),
    (0x8000_0018, 0x8000_0020, 0x10_0001),
    (0x8000_001C, 0x8000_0000, 0x20_0000),
];

/// Two tasks that swap their harts at each step, one of 16 and one of 256 entries.
pub const SWAPPING: Schedule = Schedule {
    head: &[(
        "ctr-schedule 1\nharts 2\nlayout 883\ntask 36 56 0 4 0 0\ntask 36 56 4 4 0 0\n",
        1,
    )],
    images: &[SUMS, SUMS],
    commands: &[
        ("run 0 0 1\nrun 1 1 1\nrun 1 0 1\nrun 0 1 1\n", 12),
        ("sample 0\nsample 1\n", 1),
    ],
};

pub const SWAPPED: &[SampleWords] = &[
    SampleWords {
        misc: 3,
        fields: &[0x8000_0000, 0x1_0000_0001, 1],
        index: &[],
        branches: SUMMED,
    },
    SampleWords {
        misc: 3,
        fields: &[0x8000_0000, 0x2_0000_0002, 0],
        index: &[],
        branches: SUMMED,
    },
];

const ONE_CALL: SampleWords = SampleWords {
    misc: 3,
    fields: &[0x8000_0008, 0x1_0000_0001],
    index: &[],
    branches: &[(0x8000_0000, 0x8000_0008, 0x40_0000)],
};

const ONE_CALL_OF_1: SampleWords = SampleWords {
    fields: &[0x8000_0008, 0x2_0000_0002],
    ..ONE_CALL
};

const TWO_CALLS: &[(&str, u32)] = &[(
    "ctr-schedule 1\nharts 2\nlayout 803\ntask 4 8 0 4 0 0\ntask 4 8 0 4 0 0\n",
    1,
)];

// At depth 16 a restore takes 70 accesses, a save 69 and a sample 67; at depth 256 they take 1,030,
// 1,029 and 1,027.
const CASES: [Case; 6] = [
    Case {
        name: "two tasks that swap their harts at each step",
        schedule: SWAPPING,
        refused: None,
        said: b"",
        samples: SWAPPED,
        // 70 + 23 * (70 + 1029) + 1027, and 1030 + 23 * (1030 + 69) + 67
        harts: &[(24, 26_374, Some(1)), (24, 26_374, Some(0))],
    },
    Case {
        name: "a popped entry goes with its task to a hart whose pointer is elsewhere",
        schedule: Schedule {
            head: &[(
                "ctr-schedule 1\nharts 2\nlayout 803\ntask 24 24 0 84 0 0\ntask 4 4 4 4 0 0\n",
                1,
            )],
            images: &[READS_POPPED, LOOP],
            commands: &[("run 1 1 256\nrun 0 0 2\nrun 1 0 4\nsample 0\n", 1)],
        },
        refused: None,
        said: b"",
        samples: &[SampleWords {
            misc: 3,
            fields: &[0x8000_0018, 0x1_0000_0001],
            index: &[],
            branches: &[(0x8000_0014, 0x8000_0018, 0x50_0002)],
        }],
        harts: &[(2, 139, None), (260, 2_196, Some(0))],
    },
    Case {
        name: "a task that was evicted is on no hart",
        schedule: Schedule {
            head: &[(
                "ctr-schedule 1\nharts 1\nlayout 803\ntask 4 8 0 4 0 0\ntask 4 8 0 4 0 0\n",
                1,
            )],
            images: &[CALL, CALL],
            commands: &[("run 0 0 1\nsample 0\nrun 0 1 1\nevict 0\nsample 1\n", 1)],
        },
        refused: Some((11, Reason::NotResident)),
        said: b"ctrsim: line 11: task is on no hart\n",
        samples: &[ONE_CALL],
        // 70 + 67 + 69 + 70 + 69
        harts: &[(2, 345, None)],
    },
    Case {
        name: "an interrupt at the task's own step on another hart",
        schedule: Schedule {
            head: &[(
                "ctr-schedule 1\nharts 2\nlayout 803\ntask 16 16 0 4 0 0\ntask 4 4 0 4 0 0\n\
                irq 0 5 3\n",
                1,
            )],
            images: &[WAITS, LOOP],
            commands: &[("run 0 1 100\nrun 0 0 4\nrun 1 0 2\nsample 0\n", 1)],
        },
        refused: None,
        said: b"",
        samples: &[SampleWords {
            misc: 3,
            fields: &[0, 0x1_0000_0001],
            index: &[],
            branches: &[
                (0x8000_000C, 0, 0xC0_0000),
                (0x8000_000C, 0x8000_000C, 0x20_0000),
                (0x8000_000C, 0x8000_000C, 0x20_0000),
            ],
        }],
        // 70 + 69 + 70 + 69, and 70 + 67
        harts: &[(104, 278, None), (2, 137, Some(0))],
    },
    Case {
        name: "samples in the order of their commands",
        schedule: Schedule {
            head: TWO_CALLS,
            images: &[CALL, CALL],
            commands: &[("run 0 0 1\nrun 1 1 1\nsample 1\nsample 0\n", 1)],
        },
        refused: None,
        said: b"",
        samples: &[ONE_CALL_OF_1, ONE_CALL],
        harts: &[(1, 137, Some(0)), (1, 137, Some(1))],
    },
    Case {
        name: "a task that another one drove from its hart is on none",
        schedule: Schedule {
            head: TWO_CALLS,
            images: &[CALL, CALL],
            commands: &[("run 0 0 1\nrun 0 1 1\nsample 1\nsample 0\n", 1)],
        },
        refused: Some((10, Reason::NotResident)),
        said: b"ctrsim: line 10: task is on no hart\n",
        samples: &[ONE_CALL_OF_1],
        // 70 + 69 + 70 + 67
        harts: &[(2, 276, Some(1))],
    },
];

#[test]
fn a_task_takes_its_records_along(rt: HostRuntime) -> Result<(), NoMemory> {
    check_all(&rt, rt.alloc(), &CASES)
}

// The call wrote this, and left its harts as two tasks leave them that swap.
fn is_swapped(rt: &impl Abort, ended: &Ended, want: &[u8]) {
    ends(rt, "in pieces", ended, DONE, b"", want);
    leaves(
        rt,
        "in pieces",
        ended,
        &[(24, 26_374, Some(1)), (24, 26_374, Some(0))],
    );
}

#[test]
fn pieces_of_the_input_change_nothing(rt: HostRuntime) -> Result<(), NoMemory> {
    let text = SWAPPING.text(rt.alloc())?;
    let want = bytes_of_samples(rt.alloc(), SWAPPED)?;
    assert_eq!(rt; want.len(), 320);
    is_swapped(&rt, &run(rt.alloc(), &["run"], &text, &[1])?, &want);
    is_swapped(&rt, &run(rt.alloc(), &["run"], &text, &[7])?, &want);
    Ok(())
}

#[test]
fn an_input_that_ends_inside_an_image_is_cut_at_the_line_images(
    rt: HostRuntime,
) -> Result<(), NoMemory> {
    let mut text = SWAPPING.text(rt.alloc())?;
    // 79 bytes of lines, and 40 of the first image
    text.truncate(119);
    let ended = run(rt.alloc(), &["run"], text.as_slice(), &[])?;
    let said = b"ctrsim: line 6: input ended\n";
    ends(&rt, "cut", &ended, refused(6, Reason::Cut), said, b"");
    assert!(rt; ended.harts.is_fresh(), "the harts were touched");
    Ok(())
}

#[test]
fn a_second_write_that_fails_leaves_the_first_sample(rt: HostRuntime) -> Result<(), NoMemory> {
    let text = SWAPPING.text(rt.alloc())?;
    let want = bytes_of_samples(rt.alloc(), SWAPPED)?;
    assert!(rt; want.len() == 320);
    let ended = writing(rt.alloc(), &["run"], &text, &[], &[1])?;
    let first = want.get(..160).unwrap_or(b"");
    ends(
        &rt,
        "the second sample",
        &ended,
        CANNOT_WRITE,
        CANNOT_WRITE_SAID,
        first,
    );
    leaves(
        &rt,
        "the second sample",
        &ended,
        &[(24, 26_374, Some(1)), (24, 26_374, Some(0))],
    );
    Ok(())
}
