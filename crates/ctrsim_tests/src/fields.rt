// Samples of every field that the engine fills.
use crate::case::{Case, check_all};
use ctr_port::NoMemory;
use ctr_vectors::images::*;
use ctr_vectors::{SampleWords, Schedule};

// The layout of all fields: identifier, ip, pid and tid, time, addr, id, stream_id, cpu, period, the
// number of branches, and the place of the youngest. Task 1 loops on hart 15.
const LOOPING: Schedule = Schedule {
    head: &[(
        "ctr-schedule 2\nharts 16\nlayout 10BCF\nbranch 20000\n\
task 4 8 0 4 0 0\ntask 4 4 0 4 0 3\n",
        1,
    )],
    images: &[CALL, LOOP],
    commands: &[("run 15 1 5\nsample 1\n", 1)],
};

const CASES: [Case; 1] = [Case {
    name: "the sample of a period, and one where the task stands",
    schedule: LOOPING,
    refused: None,
    said: b"",
    samples: &[
        SampleWords {
            misc: 3,
            fields: &[1, 0x8000_0000, 0x2_0000_0002, 3, 0, 1, 0, 15, 3],
            index: &[2],
            branches: &[(0x8000_0000, 0x8000_0000, 0x20_0000); 3],
        },
        SampleWords {
            misc: 3,
            fields: &[1, 0x8000_0000, 0x2_0000_0002, 5, 0, 1, 0, 15, 3],
            index: &[4],
            branches: &[(0x8000_0000, 0x8000_0000, 0x20_0000); 5],
        },
    ],
    // hart 15: 70 to restore the task, and 69 for each sample
    harts: &[
        (0, 0, None),
        (0, 0, None),
        (0, 0, None),
        (0, 0, None),
        (0, 0, None),
        (0, 0, None),
        (0, 0, None),
        (0, 0, None),
        (0, 0, None),
        (0, 0, None),
        (0, 0, None),
        (0, 0, None),
        (0, 0, None),
        (0, 0, None),
        (0, 0, None),
        (5, 208, Some(1)),
    ],
}];

#[test]
fn every_field_is_filled_by_its_task_its_hart_and_its_count(
    rt: HostRuntime,
) -> Result<(), NoMemory> {
    check_all(&rt, rt.alloc(), &CASES)
}
