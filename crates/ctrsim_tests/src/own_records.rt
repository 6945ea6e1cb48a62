// Tasks that write their own records.
use crate::call::run;
use crate::case::{ALONE, Alone, check_alones, depth_of, text_of};
use ctr_port::NoMemory;
use ctr_vectors::images::*;

const WRITES: Alone = Alone {
    task: "task 28 28 0 4 0 0\n",
    run: "run 0 0 7\n",
    steps: 7,
    ip: 0x8000_001C,
    ..ALONE
};

// At depth 32 a sample takes 131 accesses.
const CHANGED_DEPTH: Alone = Alone {
    name: "another depth, which clears, and a reserved one, which changes nothing",
    task: "task 16 16 0 4 0 0\n",
    image: CHANGES_DEPTH,
    run: "run 0 0 4\n",
    steps: 4,
    ip: 0x8000_0010,
    branches: &[(0x8000_0008, 0x8000_000C, 0x20_0000)],
    status: 1,
    accesses: 201,
    ..ALONE
};

const CASES: [Alone; 9] = [
    Alone {
        name: "an entry with a source alone",
        task: "task 16 16 0 4 0 0\n",
        image: WRITES_SOURCE,
        run: "run 0 0 4\n",
        steps: 4,
        ip: 0x8000_0010,
        branches: &[(0x100, 0, 0)],
        ..ALONE
    },
    Alone {
        name: "MISP in an entry of a branch that is taken",
        image: WRITES_BRANCH,
        branches: &[(0x100, 0x202, 0x10_0001)],
        ..WRITES
    },
    Alone {
        name: "MISP in an entry of a return",
        image: WRITES_RETURN,
        branches: &[(0x100, 0x202, 0x60_0001)],
        ..WRITES
    },
    Alone {
        name: "MISP in an entry of type 6",
        image: WRITES_TYPE_6,
        branches: &[(0x100, 0x202, 0)],
        ..WRITES
    },
    Alone {
        name: "MISP in an entry of type 7",
        image: WRITES_TYPE_7,
        branches: &[(0x100, 0x202, 0)],
        ..WRITES
    },
    Alone {
        name: "the pointer turned back: the record is the oldest now",
        task: "task 12 12 0 4 0 0\n",
        image: TURNS_BACK,
        run: "run 0 0 2\n",
        steps: 2,
        ip: 0x8000_0008,
        branches: &[(0x8000_0000, 0x8000_0004, 0x20_0000)],
        ..ALONE
    },
    Alone {
        name: "and it is lost by the next one",
        task: "task 12 12 0 4 0 0\n",
        image: TURNS_BACK,
        run: "run 0 0 3\n",
        steps: 3,
        ip: 0x8000_000C,
        branches: &[(0x8000_0008, 0x8000_000C, 0x20_0000)],
        status: 1,
        ..ALONE
    },
    Alone {
        name: "FROZEN, and the pointer with it",
        task: "task 16 16 0 4 0 0\n",
        image: FREEZES,
        run: "run 0 0 4\n",
        steps: 4,
        ip: 0x8000_0010,
        branches: &[(0x8000_0000, 0x8000_0004, 0x20_0000)],
        status: 0x8000_0000,
        ..ALONE
    },
    CHANGED_DEPTH,
];

#[test]
fn a_sample_shows_what_the_task_made_of_its_records(rt: HostRuntime) -> Result<(), NoMemory> {
    check_alones(&rt, rt.alloc(), &CASES)
}

// RISC-V Control Transfer Records 1.0, register sctrdepth: 1 names 32 entries, and 7 is reserved.
#[test]
fn a_reserved_depth_leaves_the_depth_that_the_task_wrote(rt: HostRuntime) -> Result<(), NoMemory> {
    let text = text_of(rt.alloc(), &CHANGED_DEPTH)?;
    let mut ended = run(rt.alloc(), &["run"], &text, &[])?;
    assert_eq!(rt; depth_of(&rt, &mut ended), 1);
    Ok(())
}
