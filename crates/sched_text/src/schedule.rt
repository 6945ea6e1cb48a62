//! What a schedule says.

use ctr_port::List;

/// A line `task IMAGE MEM DEPTH MCTRCTL VSCTRCTL PERIOD`.
#[derive(Clone, Copy, Debug, Default, PartialEq, Eq)]
pub struct TaskLine {
    /// The length of the task's image in bytes, at most `mem`.
    pub image: u32,
    /// The length of its memory in bytes: 4 to 1,048,576, and a multiple of 4.
    pub mem: u32,
    /// The code of the depth that its records begin with, 0 to 4 (RISC-V Control Transfer Records
    /// 1.0, sctrdepth).
    pub depth: u8,
    /// What is written to mctrctl before the first step. Bits that the register doesn't keep are
    /// still here.
    pub mctrctl: u64,
    /// What is written to vsctrctl before the first step. Bits that the register doesn't keep are
    /// still here.
    pub vsctrctl: u64,
    /// A sample is taken each time that the task's step count is a multiple of it: 0, for none, to
    /// 1,000,000,000.
    pub period: u32,
}

/// A line `irq TASK STEP CAUSE`.
#[derive(Clone, Copy, Debug, Default, PartialEq, Eq)]
pub struct IrqLine {
    /// The task, by the place of its line, from 0.
    pub task: u8,
    /// The step count of the task at which the interrupt is raised, at most 1,000,000,000,000,000.
    pub step: u64,
    /// The number of the interrupt: 1, 2, 3, 5, 6, 7, 9, 10, 11 or 13.
    pub cause: u8,
}

/// Task lines, in order.
pub type TaskLines = List<TaskLine>;

/// Irq lines, in order.
pub type IrqLines = List<IrqLine>;

/// The bytes of an image.
pub type Image = List<u8>;

/// What the lines up to `images` say.
#[derive(Debug, Drop)]
pub struct Header {
    /// How many harts there are: 1 to 16.
    pub harts: u8,
    /// The layout of the samples, which `perf_sample::Layout::of` accepts.
    pub layout: u64,
    /// The branch word of the samples, which `perf_sample::Layout::with_branch` accepts; 0 in
    /// version 1.
    pub branch: u64,
    /// The task lines: 1 to 64.
    pub tasks: TaskLines,
    /// The irq lines, at most 1,024 of each task, and those of a task in the order of their steps
    /// and causes.
    pub irqs: IrqLines,
}

/// A line after the images. A hart or a task of any size is a number here: the largest is kept
/// where it is larger.
#[derive(Clone, Copy, Debug, PartialEq, Eq)]
pub enum Command {
    /// `run HART TASK STEPS`: the task makes so many steps, at most 1,000,000,000, on the hart.
    Run { hart: u64, task: u64, steps: u32 },
    /// `sample TASK`: a sample of the task is written.
    Sample { task: u64 },
    /// `evict HART`: the task that is on the hart leaves it.
    Evict { hart: u64 },
    /// `end`: the schedule ends.
    End,
}
