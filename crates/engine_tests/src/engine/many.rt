// Many tasks on sixteen harts, each moved at each of its runs, against each task alone.
ghost use Rattle.std.specs.Prelude.{◌<◌};

use super::{Play, append_images, begin, held};
use ctr_port::MemSink;
use sched_text::Command;
use std::alloc::Global;
use std::process::Abort;
use std::test::*;

// The task lines, of which each task has one by its number: with another depth and another period.
const LINES: [&str; 4] = [
    "task 16 16 0 4 0 3\n",
    "task 16 16 4 4 0 4\n",
    "task 16 16 2 4 0 5\n",
    "task 16 16 1 4 0 2\n",
];

const ROUNDS: u32 = 6;

// addi x5, x0, TASK + 1; addi x5, x5, -1; bne x5, x0, -4; jal x0, -12: a loop as often as the
// number of the task says.
fn image(task: u32) -> [u32; 4] {
    [
        (task % 64 + 1) * 0x10_0000 + 0x293,
        0xFFF2_8293,
        0xFE02_9EE3,
        0xFF5F_F06F,
    ]
}

// How many steps a task makes in a round.
fn steps(task: u32, round: u32) -> u32 {
    1 + (5 * (task % 64) + 3 * (round % 64)) % 11
}

// So many tasks from this one on, before their first steps.
fn tasks(rt: &impl Abort, alloc: Global, first: u32, end: u32) -> Result<Play, Fail> {
    let mut text = Vec::from_slice(alloc, b"ctr-schedule 1\nharts 16\nlayout 907\n")?;
    for task in first..end {
        text.extend_from_slice(LINES[task as usize % 4].as_bytes())?;
    }
    text.extend_from_slice(b"images\n")?;
    for task in first..end {
        append_images(&mut text, &[&image(task)])?;
    }
    text.extend_from_slice(b"end\n")?;
    begin(rt, alloc, &text, MemSink::new(alloc, 1 << 20, &[], &[])?)
}

fn runs(rt: &impl Abort, play: &mut Play, hart: u32, task: u32, steps: u32) {
    let command = Command::Run {
        hart: u64::from(hart),
        task: u64::from(task),
        steps,
    };
    assert_eq!(rt;
        play.perform(rt, command),
        Ok(()),
        "run {hart} {task} {steps}"
    );
}

fn samples(rt: &impl Abort, play: &mut Play, task: u32) {
    let command = Command::Sample {
        task: u64::from(task),
    };
    assert_eq!(rt; play.perform(rt, command), Ok(()), "sample {task}");
}

// A task alone makes all its steps in one run.
fn alone(rt: &impl Abort, alloc: Global, task: u32) -> Result<Play, Fail>
    requires { task < 64 }
{
    let mut play = tasks(rt, alloc, task, task + 1)?;
    let mut all = 0;
    for round in 0..ROUNDS {
        all = steps(task, round).saturating_add(all);
    }
    runs(rt, &mut play, 0, 0, all);
    samples(rt, &mut play, 0);
    Ok(play)
}

// All tasks make the same steps, each on another hart in each round.
fn together(rt: &impl Abort, alloc: Global) -> Result<Play, Fail> {
    let mut play = tasks(rt, alloc, 0, 64)?;
    for round in 0..ROUNDS {
        for task in 0..64 {
            runs(rt, &mut play, (task + round) % 16, task, steps(task, round));
        }
    }
    for task in 0..64 {
        runs(rt, &mut play, task % 16, task, 0);
        samples(rt, &mut play, task);
    }
    Ok(play)
}

// The samples of a task, as if it were the first one: pid and tid stand in the third word, the size
// in the first.
fn samples_of(rt: &impl Abort, alloc: Global, bytes: &[u8], task: u8) -> Result<Vec<u8>, Fail>
    requires { task < 64 }
{
    let mut own = Vec::new(alloc);
    let mut rest = bytes;
    for _ in 0..10_000 {
        if rest.len() < 48 {
            break;
        }
        let size = usize::from(rest[6]) + 256 * usize::from(rest[7]);
        assert!(rt; 48 <= size && size <= rest.len(), "the size of a sample");
        let (sample, after) = rest.split_at(size);
        if sample[16] == task + 1 {
            assert_eq!(rt; sample[20], task + 1, "pid and tid");
            own.extend_from_slice(&sample[..16])?;
            own.extend_from_slice(&[1, 0, 0, 0, 1, 0, 0, 0])?;
            own.extend_from_slice(&sample[24..])?;
        }
        rest = after;
    }
    assert_eq!(rt; rest.len(), 0, "all samples were looked at");
    Ok(own)
}

#[test]
fn tasks_that_move_at_each_run_have_the_samples_of_their_lone_runs(
    rt: HostRuntime,
) -> Result<(), Fail> {
    let play = together(&rt, rt.alloc())?;
    for h in 0..16 {
        assert_eq!(rt; held(&play.harts, h).2, Some(48 + h as u8), "hart {h}");
    }
    for task in 0..64u8 {
        let lone = alone(&rt, rt.alloc(), u32::from(task))?;
        let own = samples_of(&rt, rt.alloc(), play.sink.bytes(), task)?;
        assert!(rt; own.len() > 48, "task {task}");
        assert_eq!(rt; own.as_slice(), lone.sink.bytes(), "task {task}");
    }
    Ok(())
}
