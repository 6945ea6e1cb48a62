// A task of an engine.
use rv_hart::{Core, TaskMem};
use std::marker::Model;
use task_switch::SaveArea;

/// What an engine keeps of a task.
#[derive(Drop)]
pub(crate) struct Task {
    pub(crate) steps: u64,
    pub(crate) mem: TaskMem,
    pub(crate) core: Core,
    pub(crate) area: SaveArea,
    pub(crate) place: Option<u8>,
    // Where its last run came to in its list of interrupts. It says where the next run looks first,
    // and nothing else.
    pub(crate) next_irq: usize,
}

impl Model for Task {
    ghost use Rattle.replay_engine.specs.Tasks.{TaskState};
    ghost use Rattle.task_switch.specs.SaveArea.{IsWhole};

    ghost Value = { TaskState };

    ghost view = { λ t. record {
      steps = t.steps;
      mem = t.mem;
      core = t.core;
      area = t.area;
      place = t.place;
    } };

    ghost invariant = { λ t. IsWhole t.area };
}
