// Branches that were predicted otherwise: backward is predicted taken, and forward isn't.
use crate::case::{ALONE, Alone, check_alones};
use ctr_port::NoMemory;
use ctr_vectors::images::*;

const CASES: [Alone; 7] = [
    Alone {
        name: "a branch forward that is taken",
        task: "task 4 12 0 4 0 0\n",
        image: TAKEN,
        ip: 0x8000_0008,
        branches: &[(0x8000_0000, 0x8000_0008, 0x10_0001)],
        status: 1,
        ..ALONE
    },
    Alone {
        name: "a branch that isn't taken isn't recorded",
        task: "task 4 4 0 4 0 0\n",
        image: NOT_TAKEN,
        ip: 0x8000_0004,
        ..ALONE
    },
    Alone {
        name: "a branch forward that isn't taken, recorded with NTBREN",
        task: "task 4 4 0 1000000004 0 0\n",
        image: NOT_TAKEN,
        ip: 0x8000_0004,
        branches: &[(0x8000_0000, 0x8000_0004, 0x10_0002)],
        status: 1,
        ..ALONE
    },
    Alone {
        name: "a branch forward that is taken by what was loaded",
        task: "task 12 16 0 4 0 0\n",
        image: BRANCH_ON_A_LOAD,
        run: "run 0 0 3\n",
        steps: 3,
        ip: 0x8000_0010,
        branches: &[(0x8000_0008, 0x8000_0010, 0x10_0001)],
        status: 1,
        ..ALONE
    },
    Alone {
        name: "a branch to itself that is taken counts as forward",
        task: "task 4 4 0 4 0 0\n",
        image: TAKEN_TO_ITSELF,
        ip: 0x8000_0000,
        branches: &[(0x8000_0000, 0x8000_0000, 0x10_0001)],
        status: 1,
        ..ALONE
    },
    Alone {
        name: "a branch to itself that isn't taken",
        task: "task 4 4 0 1000000004 0 0\n",
        image: NOT_TAKEN_TO_ITSELF,
        ip: 0x8000_0004,
        branches: &[(0x8000_0000, 0x8000_0004, 0x10_0002)],
        status: 1,
        ..ALONE
    },
    Alone {
        name: "a branch backward that isn't taken",
        task: "task 8 8 0 1000000004 0 0\n",
        image: NOT_TAKEN_BACKWARD,
        run: "run 0 0 2\n",
        steps: 2,
        ip: 0x8000_0008,
        branches: &[(0x8000_0004, 0x8000_0008, 0x10_0001)],
        status: 1,
        ..ALONE
    },
];

#[test]
fn a_branch_says_whether_it_was_predicted_otherwise(rt: HostRuntime) -> Result<(), NoMemory> {
    check_alones(&rt, rt.alloc(), &CASES)
}
