// Schedules with the samples that they give, and what they leave.
use crate::call::{DONE, Ended, Held, ends, leaves, refused, run};
use ctr_port::NoMemory;
use ctr_vectors::{Branch, SampleWords, Schedule, append_sample, bytes_of_samples, schedule_text};
use indirect_regs::{CtrPort, PortReg};
use sched_text::Reason;
use std::alloc::Global;
use std::process::Abort;

/// A schedule, the line of it that is refused and what is said of that, its samples, and of each
/// hart from the first on what it holds.
#[derive(Clone, Copy)]
pub struct Case {
    pub name: &'static str,
    pub schedule: Schedule,
    pub refused: Option<(u32, Reason)>,
    pub said: &'static [u8],
    pub samples: &'static [SampleWords],
    pub harts: &'static [Held],
}

/// Runs a schedule, and compares all that it left.
pub(crate) fn check(rt: &impl Abort, alloc: Global, case: &Case) -> Result<(), NoMemory> {
    let text = case.schedule.text(alloc)?;
    let want = bytes_of_samples(alloc, case.samples)?;
    let ended = run(alloc, &["run"], &text, &[])?;
    let outcome = match case.refused {
        None => DONE,
        Some((line, reason)) => refused(line, reason),
    };
    ends(rt, case.name, &ended, outcome, case.said, &want);
    leaves(rt, case.name, &ended, case.harts);
    Ok(())
}

pub(crate) fn check_all(rt: &impl Abort, alloc: Global, cases: &[Case]) -> Result<(), NoMemory> {
    for case in cases {
        check(rt, alloc, case)?;
    }
    Ok(())
}

/// One task on hart 0, its steps and the sample after them, and the hart's sctrstatus then: its
/// pointer in bits 7:0, and FROZEN in bit 31.
#[derive(Clone, Copy)]
pub struct Alone {
    pub name: &'static str,
    // the task line, and the irq lines
    pub task: &'static str,
    pub irqs: &'static str,
    pub image: &'static [u32],
    // the line that makes the steps, and their number
    pub run: &'static str,
    pub steps: u64,
    pub misc: u64,
    pub ip: u64,
    pub branches: &'static [Branch],
    pub status: u64,
    pub accesses: u64,
}

/// One step of a task that calls, with a sample of mode M that has no branch. At depth 16 a restore
/// takes 70 accesses, and a sample 67.
pub const ALONE: Alone = Alone {
    name: "",
    task: "task 4 8 0 4 0 0\n",
    irqs: "",
    image: ctr_vectors::images::CALL,
    run: "run 0 0 1\n",
    steps: 1,
    misc: 3,
    ip: 0,
    branches: &[],
    status: 0,
    accesses: 137,
};

/// The text of its schedule.
pub(crate) fn text_of(alloc: Global, case: &Alone) -> Result<Vec<u8>, NoMemory> {
    let text = schedule_text(
        alloc,
        &[
            ("ctr-schedule 1\nharts 1\nlayout 803\n", 1),
            (case.task, 1),
            (case.irqs, 1),
        ],
        &[case.image],
        &[(case.run, 1), ("sample 0\n", 1)],
    )?;
    Ok(text)
}

// What sctrstatus of hart 0 holds.
pub(crate) fn status_of(rt: &impl Abort, ended: &mut Ended) -> u64 {
    let hart = ended.harts.hart_mut(0);
    assert!(rt; hart.accesses() < 4096, "too many accesses");
    hart.get(PortReg::Status)
}

// What sctrdepth of hart 0 holds.
pub(crate) fn depth_of(rt: &impl Abort, ended: &mut Ended) -> u64 {
    let hart = ended.harts.hart_mut(0);
    assert!(rt; hart.accesses() < 4096, "too many accesses");
    hart.get(PortReg::Depth)
}

pub(crate) fn check_alone(rt: &impl Abort, alloc: Global, case: &Alone) -> Result<(), NoMemory> {
    let text = text_of(alloc, case)?;
    let mut want = Vec::new(alloc);
    append_sample(
        &mut want,
        case.misc,
        &[case.ip, 0x1_0000_0001],
        &[],
        case.branches,
    )?;
    let mut ended = run(alloc, &["run"], &text, &[])?;
    ends(rt, case.name, &ended, DONE, b"", &want);
    leaves(
        rt,
        case.name,
        &ended,
        &[(case.steps, case.accesses, Some(0))],
    );
    let status = status_of(rt, &mut ended);
    assert_eq!(rt; status, case.status, "{}: sctrstatus", case.name);
    Ok(())
}

pub(crate) fn check_alones(
    rt: &impl Abort,
    alloc: Global,
    cases: &[Alone],
) -> Result<(), NoMemory> {
    for case in cases {
        check_alone(rt, alloc, case)?;
    }
    Ok(())
}
