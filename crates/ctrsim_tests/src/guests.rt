// Tasks in VS and VU, and traps out of them.
use crate::case::{ALONE, Alone, check_alones};
use ctr_port::NoMemory;
use ctr_vectors::images::*;

const CASES: [Alone; 4] = [
    Alone {
        name: "a sample in VU",
        task: "task 48 48 0 0 1 0\n",
        image: LOOP_IN_VU,
        run: "run 0 0 12\n",
        steps: 12,
        misc: 5,
        ip: 0x8000_002C,
        branches: &[(0x8000_002C, 0x8000_002C, 0x20_0000)],
        status: 1,
        ..ALONE
    },
    Alone {
        name: "a freeze at a counter overflow in a guest",
        task: "task 48 48 0 0 1001 0\n",
        irqs: "irq 0 12 13\n",
        image: LOOP_IN_VU,
        run: "run 0 0 13\n",
        steps: 13,
        misc: 4,
        branches: &[(0x8000_002C, 0x8000_002C, 0x20_0000)],
        status: 0x8000_0001,
        ..ALONE
    },
    Alone {
        name: "a trap out of a guest is filtered by vsctrctl",
        task: "task 40 40 0 2 200000001 0\n",
        image: ECALL_IN_VU,
        run: "run 0 0 10\n",
        steps: 10,
        misc: 1,
        ..ALONE
    },
    Alone {
        name: "a trap out of a guest isn't filtered by mctrctl",
        task: "task 40 40 0 200000002 1 0\n",
        image: ECALL_IN_VU,
        run: "run 0 0 10\n",
        steps: 10,
        misc: 1,
        branches: &[(0x8000_0024, 0, 0x70_0000)],
        status: 1,
        ..ALONE
    },
];

#[test]
fn guests_record_by_vsctrctl(rt: HostRuntime) -> Result<(), NoMemory> {
    check_alones(&rt, rt.alloc(), &CASES)
}
