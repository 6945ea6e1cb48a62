// Schedules of version 2, whose samples say the place of the youngest entry.
use crate::call::run;
use crate::case::{Case, check_all};
use ctr_port::NoMemory;
use ctr_vectors::images::*;
use ctr_vectors::{SampleWords, Schedule};

const INDEXED: Schedule = Schedule {
    head: &[(
        "ctr-schedule 2\nharts 1\nlayout 803\nbranch 20000\ntask 4 8 0 4 0 0\n",
        1,
    )],
    images: &[CALL],
    commands: &[("run 0 0 1\nsample 0\n", 1)],
};

// A sample with the place takes two accesses more.
const ONE_CALL: Case = Case {
    name: "one call",
    schedule: INDEXED,
    refused: None,
    said: b"",
    samples: &[SampleWords {
        misc: 3,
        fields: &[0x8000_0008, 0x1_0000_0001],
        index: &[0],
        branches: &[(0x8000_0000, 0x8000_0008, 0x40_0000)],
    }],
    // 70 + 69
    harts: &[(1, 139, Some(0))],
};

const CASES: [Case; 5] = [
    ONE_CALL,
    Case {
        name: "no branch",
        schedule: Schedule {
            commands: &[("run 0 0 0\nsample 0\n", 1)],
            ..INDEXED
        },
        samples: &[SampleWords {
            misc: 3,
            fields: &[0x8000_0000, 0x1_0000_0001],
            index: &[0xFFFF_FFFF_FFFF_FFFF],
            branches: &[],
        }],
        harts: &[(0, 139, Some(0))],
        ..ONE_CALL
    },
    Case {
        name: "seventeen jumps, the last again in place 0",
        schedule: Schedule {
            head: &[(
                "ctr-schedule 2\nharts 1\nlayout 800\nbranch 20000\ntask 4 4 0 4 0 0\n",
                1,
            )],
            images: &[LOOP],
            commands: &[("run 0 0 17\nsample 0\n", 1)],
        },
        samples: &[SampleWords {
            misc: 3,
            fields: &[],
            index: &[0],
            branches: &[(0x8000_0000, 0x8000_0000, 0x20_0000); 16],
        }],
        harts: &[(17, 139, Some(0))],
        ..ONE_CALL
    },
    Case {
        name: "sixteen jumps, where the pointer is 0 again",
        schedule: Schedule {
            head: &[(
                "ctr-schedule 2\nharts 1\nlayout 800\nbranch 20000\ntask 4 4 0 4 0 0\n",
                1,
            )],
            images: &[LOOP],
            commands: &[("run 0 0 16\nsample 0\n", 1)],
        },
        samples: &[SampleWords {
            misc: 3,
            fields: &[],
            index: &[15],
            branches: &[(0x8000_0000, 0x8000_0000, 0x20_0000); 16],
        }],
        harts: &[(16, 139, Some(0))],
        ..ONE_CALL
    },
    Case {
        name: "a branch word of 0, whose samples have no place",
        schedule: Schedule {
            head: &[(
                "ctr-schedule 2\nharts 1\nlayout 803\nbranch 0\ntask 4 8 0 4 0 0\n",
                1,
            )],
            ..INDEXED
        },
        samples: &[SampleWords {
            misc: 3,
            fields: &[0x8000_0008, 0x1_0000_0001],
            index: &[],
            branches: &[(0x8000_0000, 0x8000_0008, 0x40_0000)],
        }],
        harts: &[(1, 137, Some(0))],
        ..ONE_CALL
    },
];

#[test]
fn a_sample_says_the_place_of_its_youngest_entry(rt: HostRuntime) -> Result<(), NoMemory> {
    check_all(&rt, rt.alloc(), &CASES)
}

// The bytes after one call: a header of 64 bytes, ip, pid and tid, one branch, place 0, and from,
// to and flags.
const BYTES: [u8; 64] = [
    0x09, 0, 0, 0, 3, 0, 0x40, 0, //
    0x08, 0, 0, 0x80, 0, 0, 0, 0, //
    1, 0, 0, 0, 1, 0, 0, 0, //
    1, 0, 0, 0, 0, 0, 0, 0, //
    0, 0, 0, 0, 0, 0, 0, 0, //
    0, 0, 0, 0x80, 0, 0, 0, 0, //
    0x08, 0, 0, 0x80, 0, 0, 0, 0, //
    0, 0, 0x40, 0, 0, 0, 0, 0, //
];

#[test]
fn one_call_with_its_place_is_these_bytes(rt: HostRuntime) -> Result<(), NoMemory> {
    let text = INDEXED.text(rt.alloc())?;
    let ended = run(rt.alloc(), &["run"], &text, &[])?;
    assert_eq!(rt; ended.sink.bytes(), BYTES.as_slice());
    Ok(())
}
