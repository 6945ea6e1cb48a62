// A sink that fails in mid-stream.
ghost use Rattle.std.specs.Prelude.{◌<◌};

use super::{LOOP, Play, Schedule, begin, held, leaves, spell, text_of};
use ctr_port::MemSink;
use replay_engine::PerformFault;
use std::alloc::Global;
use std::process::Abort;
use std::test::*;

const WHOLE: Schedule = Schedule {
    head: &[("ctr-schedule 1\nharts 1\nlayout 904\ntask 4 4 0 4 0 2\n", 1)],
    images: &[LOOP],
    commands: &[("run 0 0 5\n", 1)],
};

const CUT: Schedule = Schedule {
    commands: &[("run 0 0 2\nrun 0 0 3\n", 1)],
    ..WHOLE
};

// The samples after 2 and 4 steps, of 80 and 128 bytes: time and period alone.
fn samples(alloc: Global) -> Result<Vec<u8>, Fail> {
    let around = (0x8000_0000, 0x8000_0000, 0x20_0000);
    let mut out = Vec::new(alloc);
    spell(&mut out, 3, &[2, 2], &[], &[around; 2])?;
    spell(&mut out, 3, &[4, 2], &[], &[around; 4])?;
    Ok(out)
}

// Performs the commands up to one that isn't done.
fn last_answer(rt: &impl Abort, play: &mut Play) -> Result<(), PerformFault> {
    for _ in play.next..play.commands.len() {
        let answer = play.step(rt);
        if answer.is_err() {
            return answer;
        }
    }
    Ok(())
}

// A sink that takes pieces of this length and fails at this call: how many bytes it got, and what
// hart 0 holds.
fn stops(
    rt: &impl Abort,
    alloc: Global,
    schedule: &Schedule,
    piece: usize,
    call: u64,
    want: (usize, u64, u64),
) -> Result<(), Fail>
    requires { 0 < piece }
{
    let (bytes, steps, accesses) = want;
    let whole = samples(alloc)?;
    let text = text_of(alloc, schedule)?;
    let sink = MemSink::new(alloc, 4096, &[piece], &[call])?;
    let mut play = begin(rt, alloc, &text, sink)?;
    let answer = last_answer(rt, &mut play);
    let fails = bytes < 208;
    assert_eq!(rt;
        answer == Err(PerformFault::Write),
        fails,
        "call {call} of {piece}"
    );
    assert_eq!(rt; play.engine.broken(), fails, "call {call} of {piece}");
    assert_eq!(rt; whole.len(), 208);
    assert_eq!(rt;
        play.sink.bytes(),
        whole.get(..bytes).unwrap_or(&[]),
        "call {call} of {piece}"
    );
    assert_eq!(rt;
        held(&play.harts, 0),
        (steps, accesses, Some(0)),
        "call {call} of {piece}"
    );
    Ok(())
}

// Of pieces of 100 bytes, at each call.
const OF_100: [(usize, u64, u64); 4] = [(0, 2, 137), (80, 4, 204), (180, 4, 204), (208, 5, 204)];

// Of pieces of 1 byte, by the call.
fn of_1(call: usize) -> (usize, u64, u64) {
    if call < 80 {
        (call, 2, 137)
    } else if call < 208 {
        (call, 4, 204)
    } else {
        (208, 5, 204)
    }
}

fn stop_at_each(rt: &impl Abort, alloc: Global, schedule: &Schedule) -> Result<(), Fail> {
    for (call, want) in OF_100.iter().enumerate() {
        stops(rt, alloc, schedule, 100, call as u64, *want)?;
    }
    for call in 0..209 {
        stops(rt, alloc, schedule, 1, call as u64, of_1(call))?;
    }
    Ok(())
}

#[test]
fn a_write_that_fails_leaves_a_prefix_and_the_step_of_its_sample(
    rt: HostRuntime,
) -> Result<(), Fail> {
    stop_at_each(&rt, rt.alloc(), &WHOLE)?;
    stop_at_each(&rt, rt.alloc(), &CUT)
}

const ONE_STEP_EACH: Schedule = Schedule {
    head: &[("ctr-schedule 1\nharts 2\nlayout 803\ntask 4 4 0 4 0 2\n", 1)],
    images: &[LOOP],
    commands: &[("run 0 0 1\nrun 1 0 3\n", 1)],
};

const SAMPLED: Schedule = Schedule {
    head: &[("ctr-schedule 1\nharts 2\nlayout 803\ntask 4 4 0 4 0 0\n", 1)],
    images: &[LOOP],
    commands: &[("run 1 0 3\nsample 0\n", 1)],
};

// The first write fails: what the two harts hold.
fn fails_at_once(
    rt: &impl Abort,
    alloc: Global,
    name: &str,
    schedule: &Schedule,
    harts: &[(u64, u64, Option<u8>)],
) -> Result<(), Fail> {
    let text = text_of(alloc, schedule)?;
    let sink = MemSink::new(alloc, 4096, &[], &[0])?;
    let mut play = begin(rt, alloc, &text, sink)?;
    assert_eq!(rt;
        last_answer(rt, &mut play),
        Err(PerformFault::Write),
        "{name}"
    );
    assert_eq!(rt; play.sink.bytes().len(), 0, "{name}");
    leaves(rt, name, &play, harts);
    Ok(())
}

#[test]
fn a_sample_that_fails_cost_its_accesses_where_the_task_is(rt: HostRuntime) -> Result<(), Fail> {
    fails_at_once(
        &rt,
        rt.alloc(),
        "after a move",
        &ONE_STEP_EACH,
        &[(1, 139, None), (1, 137, Some(0))],
    )?;
    fails_at_once(
        &rt,
        rt.alloc(),
        "a sample as the task stands",
        &SAMPLED,
        &[(0, 0, None), (3, 137, Some(0))],
    )
}
