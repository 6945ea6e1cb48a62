// Traps, returns from them, freezes and interrupts of one task in M, S and U.
use crate::case::{ALONE, Alone, check_alones};
use ctr_port::NoMemory;
use ctr_vectors::images::*;

const ECALL_FROM_U: Alone = Alone {
    image: ECALL_IN_U,
    run: "run 0 0 5\n",
    steps: 5,
    ..ALONE
};

const CASES: [Alone; 10] = [
    Alone {
        name: "a trap from U to M with mctrctl 201",
        task: "task 20 20 0 201 0 0\n",
        ..ECALL_FROM_U
    },
    Alone {
        name: "a trap from U to M with mctrctl 101",
        task: "task 20 20 0 101 0 0\n",
        ..ECALL_FROM_U
    },
    Alone {
        name: "a trap from U to M with mctrctl 301",
        task: "task 20 20 0 301 0 0\n",
        branches: &[(0x8000_0010, 0, 0x70_0000)],
        status: 1,
        ..ECALL_FROM_U
    },
    Alone {
        name: "a trap from U to M with mctrctl 200000301",
        task: "task 20 20 0 200000301 0 0\n",
        branches: &[(0x8000_0010, 0, 0x70_0000)],
        status: 1,
        ..ECALL_FROM_U
    },
    Alone {
        name: "a fault behind a branch that isn't taken",
        task: "task 4 4 0 1000000004 0 0\n",
        image: NOT_TAKEN,
        run: "run 0 0 2\n",
        steps: 2,
        branches: &[
            (0x8000_0004, 0, 0x70_0000),
            (0x8000_0000, 0x8000_0004, 0x10_0002),
        ],
        status: 2,
        ..ALONE
    },
    Alone {
        name: "a freeze at a breakpoint",
        task: "task 24 24 0 804 0 0\n",
        image: BREAKPOINT,
        run: "run 0 0 6\n",
        steps: 6,
        ip: 0x8000_0014,
        branches: &[(0x8000_000C, 0x8000_0010, 0x20_0000)],
        status: 0x8000_0001,
        ..ALONE
    },
    Alone {
        name: "a return from S to U where U doesn't record",
        task: "task 36 36 0 2 0 0\n",
        image: SRET_TO_U,
        run: "run 0 0 9\n",
        steps: 9,
        misc: 2,
        ip: 0x8000_0020,
        branches: &[(0x8000_0020, 0, 0xB0_0000)],
        status: 1,
        ..ALONE
    },
    Alone {
        name: "a call of the environment from M",
        task: "task 4 4 0 4 0 0\n",
        image: ECALL_IN_M,
        branches: &[(0x8000_0000, 0, 0x70_0000)],
        status: 1,
        ..ALONE
    },
    Alone {
        name: "an interrupt is raised at the task's own step",
        task: "task 16 16 0 4 0 0\n",
        irqs: "irq 0 5 3\n",
        image: WAITS,
        run: "run 0 0 6\n",
        steps: 6,
        branches: &[
            (0x8000_000C, 0, 0xC0_0000),
            (0x8000_000C, 0x8000_000C, 0x20_0000),
            (0x8000_000C, 0x8000_000C, 0x20_0000),
        ],
        status: 3,
        ..ALONE
    },
    Alone {
        name: "an interrupt at a step that isn't made",
        task: "task 16 16 0 4 0 0\n",
        irqs: "irq 0 5 3\n",
        image: WAITS,
        run: "run 0 0 5\n",
        steps: 5,
        ip: 0x8000_000C,
        branches: &[(0x8000_000C, 0x8000_000C, 0x20_0000); 2],
        status: 2,
        ..ALONE
    },
];

#[test]
fn traps_are_recorded_as_the_controls_of_both_modes_say(rt: HostRuntime) -> Result<(), NoMemory> {
    check_alones(&rt, rt.alloc(), &CASES)
}
