// What an engine is given once.
use crate::irqs::Irqs;
use perf_sample::Layout;
use std::marker::Model;

/// What a schedule says of a task once: the size of its memory in bytes, the period of its samples
/// in steps of its own, 0 for none, and its interrupts.
#[derive(Drop)]
pub struct TaskPlan {
    pub memory: u32,
    pub period: u32,
    pub irqs: Irqs,
}

/// What a schedule says once: the number of harts, the layout of samples, and of each task.
#[derive(Drop)]
pub struct Plan {
    pub(crate) harts: u8,
    pub(crate) layout: Layout,
    pub(crate) tasks: Vec<TaskPlan>,
}

impl Model for Plan {
    ghost use Rattle.replay_engine.specs.View.{Plan};

    ghost Value = { Plan };

    ghost view = { λ p. record { harts = p.harts; layout = p.layout; tasks = p.tasks.items } };
}
