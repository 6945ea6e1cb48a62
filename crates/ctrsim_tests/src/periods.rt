// Samples at the multiples of a period.
ghost use Rattle.std.specs.Prelude.{◌<◌, All};

use crate::call::{CANNOT_WRITE, CANNOT_WRITE_SAID, DONE, Held, ends, leaves, writing};
use crate::case::{Case, check_all};
use ctr_port::NoMemory;
use ctr_vectors::images::LOOP;
use ctr_vectors::{Branch, SampleWords, Schedule, bytes_of_samples};
use std::alloc::Global;
use std::process::Abort;

const AROUND: Branch = (0x8000_0000, 0x8000_0000, 0x20_0000);

const HEAD: &[(&str, u32)] = &[("ctr-schedule 1\nharts 1\nlayout 904\ntask 4 4 0 4 0 2\n", 1)];

const WHOLE: Schedule = Schedule {
    head: HEAD,
    images: &[LOOP],
    commands: &[("run 0 0 5\n", 1)],
};

// After 2 and 4 steps, of 80 and 128 bytes: time and period alone.
const SAMPLES: &[SampleWords] = &[
    SampleWords {
        misc: 3,
        fields: &[2, 2],
        index: &[],
        branches: &[AROUND; 2],
    },
    SampleWords {
        misc: 3,
        fields: &[4, 2],
        index: &[],
        branches: &[AROUND; 4],
    },
];

const ONE_RUN: Case = Case {
    name: "a sample at each multiple of a period",
    schedule: WHOLE,
    refused: None,
    said: b"",
    samples: SAMPLES,
    // 70 + 2 * 67
    harts: &[(5, 204, Some(0))],
};

const CASES: [Case; 4] = [
    ONE_RUN,
    Case {
        name: "the same in two runs",
        schedule: Schedule {
            commands: &[("run 0 0 2\nrun 0 0 3\n", 1)],
            ..WHOLE
        },
        ..ONE_RUN
    },
    Case {
        name: "the same in runs of 3, 0 and 2 steps",
        schedule: Schedule {
            commands: &[("run 0 0 3\nrun 0 0 0\nrun 0 0 2\n", 1)],
            ..WHOLE
        },
        ..ONE_RUN
    },
    Case {
        name: "the same step by step",
        schedule: Schedule {
            commands: &[("run 0 0 1\n", 5)],
            ..WHOLE
        },
        ..ONE_RUN
    },
];

#[test]
fn samples_come_at_the_multiples_of_a_period(rt: HostRuntime) -> Result<(), NoMemory> {
    check_all(&rt, rt.alloc(), &CASES)
}

// A sink that takes pieces of this length and fails at this call: how many bytes it got, and what
// hart 0 holds.
fn stops(
    rt: &impl Abort,
    alloc: Global,
    pieces: &[usize],
    call: u64,
    bytes: usize,
    held: Held,
) -> Result<(), NoMemory>
    requires { All (λ p. 0 < p) pieces.now }
{
    let text = WHOLE.text(alloc)?;
    let whole = bytes_of_samples(alloc, SAMPLES)?;
    let ended = writing(alloc, &["run"], &text, pieces, &[call])?;
    let written = whole.get(..bytes).unwrap_or(b"");
    if bytes == 208 {
        ends(rt, "no failed write", &ended, DONE, b"", written);
    } else {
        ends(
            rt,
            "a failed write",
            &ended,
            CANNOT_WRITE,
            CANNOT_WRITE_SAID,
            written,
        );
    }
    leaves(rt, "after a write", &ended, &[held]);
    Ok(())
}

#[test]
fn a_write_that_fails_leaves_the_step_of_its_sample(rt: HostRuntime) -> Result<(), NoMemory> {
    let alloc = rt.alloc();
    stops(&rt, alloc, &[100], 0, 0, (2, 137, Some(0)))?;
    stops(&rt, alloc, &[100], 1, 80, (4, 204, Some(0)))?;
    stops(&rt, alloc, &[100], 2, 180, (4, 204, Some(0)))?;
    stops(&rt, alloc, &[100], 3, 208, (5, 204, Some(0)))?;
    Ok(())
}

#[test]
fn each_byte_of_the_samples_may_be_the_last(rt: HostRuntime) -> Result<(), NoMemory> {
    for call in 0..209usize {
        let held = if call < 80 {
            (2, 137, Some(0))
        } else if call < 208 {
            (4, 204, Some(0))
        } else {
            (5, 204, Some(0))
        };
        stops(&rt, rt.alloc(), &[1], call as u64, call, held)?;
    }
    Ok(())
}
