// Calls, jumps and returns of one task.
use crate::call::{DONE, Ended, ends, leaves, run};
use crate::case::{ALONE, Alone, check_alones, status_of, text_of};
use ctr_port::NoMemory;
use ctr_vectors::images::*;
use ctr_vectors::{CALL_BYTES, append_sample};
use std::alloc::Global;
use std::process::Abort;

const CASES: [Alone; 9] = [
    Alone {
        name: "one call",
        ip: 0x8000_0008,
        branches: &[(0x8000_0000, 0x8000_0008, 0x40_0000)],
        status: 1,
        ..ALONE
    },
    Alone {
        name: "no step",
        run: "run 0 0 0\n",
        steps: 0,
        ip: 0x8000_0000,
        ..ALONE
    },
    Alone {
        name: "leading zeros, and hexadecimal digits of either case",
        task: "task 004 0008 00 0000004 0aF 0000\n",
        ip: 0x8000_0008,
        branches: &[(0x8000_0000, 0x8000_0008, 0x40_0000)],
        status: 1,
        ..ALONE
    },
    Alone {
        name: "calls and returns under return-stack emulation leave one call",
        task: "task 140 140 0 84 0 0\n",
        image: CALLS_AND_RETURNS,
        run: "run 0 0 35\n",
        steps: 35,
        ip: 0x8000_008C,
        branches: &[(0x8000_0088, 0x8000_008C, 0x40_0000)],
        status: 1,
        ..ALONE
    },
    Alone {
        name: "a co-routine swap under return-stack emulation replaces the youngest entry",
        task: "task 4 4 0 84 0 0\n",
        image: SWAP,
        branches: &[(0x8000_0000, 0, 0x50_0002)],
        ..ALONE
    },
    Alone {
        name: "a filter of jumps",
        task: "task 68 68 0 80000000004 0 0\n",
        image: JUMPS,
        run: "run 0 0 17\n",
        steps: 17,
        ip: 0x8000_0044,
        ..ALONE
    },
    Alone {
        name: "a popped entry is read back and called past",
        task: "task 24 24 0 84 0 0\n",
        image: READS_POPPED,
        run: "run 0 0 6\n",
        steps: 6,
        ip: 0x8000_0018,
        branches: &[(0x8000_0014, 0x8000_0018, 0x50_0002)],
        status: 1,
        ..ALONE
    },
    Alone {
        name: "a clear between two transfers",
        task: "task 12 12 0 4 0 0\n",
        image: CLEARS,
        run: "run 0 0 3\n",
        steps: 3,
        ip: 0x8000_0008,
        branches: &[(0x8000_0008, 0x8000_0008, 0x20_0000)],
        status: 2,
        ..ALONE
    },
    Alone {
        name: "a loop, a jump and a swap of co-routines",
        task: "task 20 20 0 4 0 0\n",
        image: COUNTS_DOWN,
        run: "run 0 0 7\n",
        steps: 7,
        ip: 0x8000_0010,
        branches: &[
            (0x8000_0010, 0x8000_0010, 0x50_0002),
            (0x8000_000C, 0x8000_0010, 0x20_0000),
            (0x8000_0008, 0x8000_0004, 0x10_0002),
        ],
        status: 3,
        ..ALONE
    },
];

#[test]
fn calls_jumps_and_returns_are_recorded(rt: HostRuntime) -> Result<(), NoMemory> {
    check_alones(&rt, rt.alloc(), &CASES)
}

fn is_one_call(rt: &impl Abort, ended: &Ended) {
    ends(rt, "one call", ended, DONE, b"", &CALL_BYTES);
    leaves(rt, "one call", ended, &[(1, 137, Some(0))]);
}

#[test]
fn one_call_is_these_bytes(rt: HostRuntime) -> Result<(), NoMemory> {
    let text = text_of(rt.alloc(), &ALONE)?;
    assert_eq!(rt; text.len(), 85);
    is_one_call(&rt, &run(rt.alloc(), &["run"], &text, &[])?);
    is_one_call(&rt, &run(rt.alloc(), &["run"], &text, &[1])?);
    is_one_call(&rt, &run(rt.alloc(), &["run"], &text, &[7, 2])?);
    is_one_call(&rt, &run(rt.alloc(), &["run"], &text, &[40])?);
    Ok(())
}

#[test]
fn one_call_on_two_harts_is_the_same(rt: HostRuntime) -> Result<(), NoMemory> {
    let text = ctr_vectors::schedule_text(
        rt.alloc(),
        &[("ctr-schedule 1\nharts 2\nlayout 803\ntask 4 8 0 4 0 0\n", 1)],
        &[CALL],
        &[("run 0 0 1\nsample 0\n", 1)],
    )?;
    let ended = run(rt.alloc(), &["run"], &text, &[])?;
    ends(&rt, "one call", &ended, DONE, b"", &CALL_BYTES);
    Ok(())
}

// Seventeen jumps at a depth, of which so many are kept: the size of the sample, the pointer, and
// the accesses.
fn jumps(
    rt: &impl Abort,
    alloc: Global,
    task: &'static str,
    kept: u64,
    want: (usize, u64, u64),
) -> Result<(), NoMemory> {
    let (size, pointer, accesses) = want;
    let mut branches = Vec::new(alloc);
    for i in 0..17u64 {
        if i < kept {
            branches.push((0x8000_0040 - 4 * i, 0x8000_0044 - 4 * i, 0x20_0000))?;
        }
    }
    let mut sample = Vec::new(alloc);
    append_sample(
        &mut sample,
        3,
        &[0x8000_0044, 0x1_0000_0001],
        &[],
        &branches,
    )?;
    assert_eq!(rt; sample.len(), size, "{task}");
    let case = Alone {
        task,
        image: JUMPS,
        run: "run 0 0 17\n",
        ..ALONE
    };
    let text = text_of(alloc, &case)?;
    let mut ended = run(alloc, &["run"], &text, &[])?;
    ends(rt, task, &ended, DONE, b"", &sample);
    leaves(rt, task, &ended, &[(17, accesses, Some(0))]);
    assert_eq!(rt; status_of(rt, &mut ended), pointer, "{task}");
    Ok(())
}

#[test]
fn a_depth_keeps_as_many_jumps_as_it_has_entries(rt: HostRuntime) -> Result<(), NoMemory> {
    jumps(&rt, rt.alloc(), "task 68 68 0 4 0 0\n", 16, (416, 1, 137))?;
    jumps(&rt, rt.alloc(), "task 68 68 1 4 0 0\n", 17, (440, 17, 265))?;
    jumps(&rt, rt.alloc(), "task 68 68 4 4 0 0\n", 17, (440, 17, 2057))?;
    Ok(())
}
