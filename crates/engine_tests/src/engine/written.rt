// What others wrote into a hart shows in the samples.
use super::{EMPTY, LOOP, Play, Schedule, TASK_0, Taken, Wanted, begin_schedule, leaves, writes};
use ctr_csrs::Mode;
use rv_hart::Core;
use std::alloc::Global;
use std::process::Abort;
use std::test::*;

// Entries, from the youngest on: source word, target word, type. The third holds no transfer.
const ENTRIES: [(u8, u64, u64, u64); 4] = [
    (0, 0x1001, 0x2001, 4),
    (1, 0x3001, 0x4000, 9),
    (2, 0x5000, 0x6001, 10),
    (3, 0x7003, 0x8003, 10),
];

// A mispredicted branch, a call, and an indirect jump that was mispredicted.
const FIRST: Taken = (0x1000, 0x2000, 0x10_0001);

const SECOND: Taken = (0x3000, 0x4000, 0x40_0000);

const THIRD: Taken = (0x7002, 0x8002, 0x30_0001);

const AROUND: Taken = (0x8000_0000, 0x8000_0000, 0x20_0000);

const COMMANDS: &[(&str, u32)] = &[("run 0 0 0\nsample 0\nrun 0 0 1\nrun 1 0 1\n", 1)];

const QUIET: Schedule = Schedule {
    head: &[("ctr-schedule 1\nharts 2\nlayout 887\ntask 4 4 0 0 0 1\n", 1)],
    images: &[LOOP],
    commands: COMMANDS,
};

const RECORDED: Schedule = Schedule {
    head: &[("ctr-schedule 1\nharts 2\nlayout 887\ntask 4 4 0 4 0 1\n", 1)],
    images: &[LOOP],
    commands: COMMANDS,
};

// As the task stands; after a step on the same hart; and after a step on another one.
const QUIET_SAMPLES: [Wanted; 3] = [
    Wanted {
        fields: &[0x8000_0000, TASK_0, 0, 0],
        branches: &[FIRST, SECOND, THIRD],
        ..EMPTY
    },
    Wanted {
        fields: &[0x8000_0000, TASK_0, 1, 0],
        branches: &[FIRST, SECOND, THIRD],
        ..EMPTY
    },
    Wanted {
        fields: &[0x8000_0000, TASK_0, 2, 1],
        branches: &[FIRST, SECOND, THIRD],
        ..EMPTY
    },
];

const RECORDED_SAMPLES: [Wanted; 3] = [
    Wanted {
        fields: &[0x8000_0000, TASK_0, 0, 0],
        branches: &[FIRST, SECOND, THIRD],
        ..EMPTY
    },
    Wanted {
        fields: &[0x8000_0000, TASK_0, 1, 0],
        branches: &[AROUND, FIRST, SECOND, THIRD],
        ..EMPTY
    },
    Wanted {
        fields: &[0x8000_0000, TASK_0, 2, 1],
        branches: &[AROUND, AROUND, FIRST, SECOND, THIRD],
        ..EMPTY
    },
];

// Writes the entries into hart 0.
fn write_entries(rt: &impl Abort, play: &mut Play) {
    for (i, source, target, kind) in ENTRIES {
        play.write_entry(rt, i, source, target, kind);
    }
}

fn shows(
    rt: &impl Abort,
    alloc: Global,
    name: &str,
    schedule: &Schedule,
    samples: &[Wanted],
) -> Result<(), Fail> {
    let mut play = begin_schedule(rt, alloc, schedule)?;
    assert_eq!(rt; play.step(rt), Ok(()), "{name}: run 0 0 0");
    write_entries(rt, &mut play);
    super::answers(rt, name, &mut play, &[]);
    writes(rt, alloc, name, &play, samples)?;
    // 70 + 16 + 67 + 67 + 69, and 70 + 67
    leaves(rt, name, &play, &[(1, 289, None), (1, 137, Some(0))]);
    Ok(())
}

#[test]
fn entries_of_others_are_sampled_and_go_with_the_task(rt: HostRuntime) -> Result<(), Fail> {
    shows(&rt, rt.alloc(), "nothing recorded", &QUIET, &QUIET_SAMPLES)?;
    shows(&rt, rt.alloc(), "recorded", &RECORDED, &RECORDED_SAMPLES)
}

const MODES: [(Mode, u64); 5] = [
    (Mode::M, 3),
    (Mode::S, 1),
    (Mode::U, 2),
    (Mode::Vs, 4),
    (Mode::Vu, 5),
];

const MOVED: Schedule = Schedule {
    head: &[("ctr-schedule 1\nharts 2\nlayout 883\ntask 4 8 0 0 0 0\n", 1)],
    images: &[LOOP],
    commands: &[("run 0 0 1\nsample 0\nrun 1 0 0\nsample 0\n", 1)],
};

// A core in a mode, at 80000004.
fn core_in(mode: Mode) -> Core {
    let mut core = Core::fresh();
    core.pc = 0x8000_0004;
    core.mode = mode;
    core
}

fn shows_core(rt: &impl Abort, alloc: Global, mode: Mode, misc: u64) -> Result<(), Fail> {
    let mut play = begin_schedule(rt, alloc, &MOVED)?;
    assert_eq!(rt; play.step(rt), Ok(()), "run 0 0 1");
    play.put_core(rt, core_in(mode));
    super::answers(rt, "another core", &mut play, &[]);
    let mut want = Vec::new(alloc);
    super::spell(&mut want, misc, &[0x8000_0004, TASK_0, 0], &[], &[])?;
    super::spell(&mut want, misc, &[0x8000_0004, TASK_0, 1], &[], &[])?;
    assert_eq!(rt; play.sink.bytes(), want.as_slice(), "in mode {misc}");
    Ok(())
}

#[test]
fn a_core_of_others_is_sampled_and_goes_with_the_task(rt: HostRuntime) -> Result<(), Fail> {
    for (mode, misc) in MODES {
        shows_core(&rt, rt.alloc(), mode, misc)?;
    }
    Ok(())
}
