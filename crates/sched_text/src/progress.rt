//! The lines up to `images`, one by one: what is kept of them.

ghost use Rattle.std.specs.Prelude.{◌≡◌, ◌+◌, ◌<◌, ◌≤◌, [], length, IfOk};
ghost use Rattle.sched_text.specs.Progress.{step, after_layout, task_step, irq_step};
ghost use Rattle.sched_text.specs.Progress.{after_irq_step, after_task_step, Stepped, lines_before};
ghost use Rattle.sched_text.specs.Progress.{lines_of, Sound, start};

use crate::faults::Reason;
use crate::irqs::Irqs;
use crate::limits::{MAX_ALL_IRQS, MAX_TASKS};
use crate::rows::{
    IMAGES, IRQ, TASK, Version, branch_row, harts_row, has_form, irq_row, layout_row, task_row,
    version_row,
};
use crate::schedule::{IrqLine, TaskLines};
use ctr_port::NoMemory;
use std::alloc::Global;

/// Which line may stand next.
#[derive(Clone, Copy, PartialEq, Eq)]
pub(crate) enum Place {
    Version,
    Harts(Version),
    Layout(Version),
    Branch,
    FirstTask,
    /// A further task line, an irq line or `images`.
    Tasks,
    /// A further irq line or `images`.
    Irqs,
    /// None: the images follow.
    Images,
}

/// What the lines so far say.
#[derive(Drop)]
pub(crate) struct Progress {
    pub(crate) place: Place,
    pub(crate) harts: u8,
    pub(crate) layout: u64,
    pub(crate) branch: u64,
    pub(crate) tasks: TaskLines,
    pub(crate) irqs: Irqs,
}

/// Why a line didn't bring the header further.
#[derive(Clone, Copy)]
pub(crate) enum StepFault {
    Refused(Reason),
    Memory,
}

impl From<Reason> for StepFault {
    ghost use Rattle.std.specs.Prelude.{◌≡◌};
    ghost use Rattle.sched_text.specs.declared.progress.StepFault.TheVariants.{Refused};

    ghost from_gives = { λ reason fault. fault ≡ Refused reason };

    fn from(reason: Reason) -> Self {
        StepFault::Refused(reason)
    }
}

impl From<NoMemory> for StepFault {
    ghost use Rattle.std.specs.Prelude.{◌≡◌};
    ghost use Rattle.sched_text.specs.declared.progress.StepFault.TheVariants.{Memory};

    ghost from_gives = { λ _ fault. fault ≡ Memory };

    fn from(_: NoMemory) -> Self {
        StepFault::Memory
    }
}

// Which line follows the layout: version 1 has no branch line.
fn after_layout(version: Version) -> Place
    ensures { result ≡ after_layout version }
{
    match version {
        Version::One => Place::FirstTask,
        Version::Two => Place::Branch,
    }
}

impl Progress {
    /// Before the first line.
    pub(crate) fn new(alloc: Global) -> Self
        ensures start { result ≡ start }
        ensures sound { Sound result }
    {
        Progress {
            place: Place::Version,
            harts: 1,
            layout: 0x800,
            branch: 0,
            tasks: TaskLines::new(alloc),
            irqs: Irqs::new(alloc),
        }
    }

    // A task line.
    fn task(&mut self, line: &[u8]) -> Result<(), StepFault>
        requires sound { Sound self.old }
        requires early { self.old.irqs ≡ [] }
        ensures step { Stepped (task_step self.old line.now) self.new result }
        ensures count { IfOk result
            (λ _. (length self.new.tasks ≡ length self.old.tasks + 1) ×
            (self.new.irqs ≡ self.old.irqs) × (self.new.place ≡ Place.Tasks)) }
        ensures sound { IfOk result (λ _. Sound self.new) }
    {
        let task = task_row(line)?;
        if self.tasks.items().len() >= MAX_TASKS {
            return Err(StepFault::Refused(Reason::TooMany));
        }
        self.tasks.push(task)?;
        self.place = Place::Tasks;
        Ok(())
    }

    // An irq line.
    fn irq(&mut self, line: &[u8]) -> Result<(), StepFault>
        requires sound { Sound self.old }
        requires some { 0 < length self.old.tasks }
        ensures step { Stepped (irq_step self.old line.now) self.new result }
        ensures count { IfOk result
            (λ _. (length self.new.irqs ≡ length self.old.irqs + 1) ×
            (self.new.tasks ≡ self.old.tasks) × (self.new.place ≡ Place.Irqs)) }
        ensures few { IfOk result (λ _. length self.new.irqs ≤ 65537) }
        ensures sound { IfOk result (λ _. Sound self.new) }
    {
        let words = irq_row(line)?;
        if words.task >= self.tasks.items().len() as u64 {
            return Err(StepFault::Refused(Reason::NoTask));
        }
        let irq = IrqLine {
            task: words.task as u8,
            step: words.step,
            cause: words.cause,
        };
        if let Some(reason) = self.irqs.refusal(irq) {
            return Err(StepFault::Refused(reason));
        }
        self.irqs.push(irq)?;
        self.place = Place::Irqs;
        Ok(())
    }

    // An irq line or `images`.
    fn after_irq(&mut self, line: &[u8]) -> Result<(), StepFault>
        requires sound { Sound self.old }
        requires some { 0 < length self.old.tasks }
        requires irqs { length self.old.irqs ≤ MAX_ALL_IRQS + 1 }
        ensures step { Stepped (after_irq_step self.old line.now) self.new result }
        ensures count { IfOk result
            (λ _. length self.new.irqs + lines_before self.new.place ≡ length self.old.irqs +
            5) }
        ensures tasks { IfOk result (λ _. self.new.tasks ≡ self.old.tasks) }
        ensures few { IfOk result (λ _. length self.new.irqs ≤ 65537) }
        ensures sound { IfOk result (λ _. Sound self.new) }
    {
        if has_form(line, IRQ, 4) {
            return self.irq(line);
        }
        if !has_form(line, IMAGES, 1) {
            return Err(StepFault::Refused(Reason::NotWord));
        }
        self.place = Place::Images;
        Ok(())
    }

    // A task line, an irq line or `images`.
    fn after_task(&mut self, line: &[u8]) -> Result<(), StepFault>
        requires sound { Sound self.old }
        requires some { 0 < length self.old.tasks }
        requires early { self.old.irqs ≡ [] }
        requires irqs { length self.old.irqs ≤ MAX_ALL_IRQS + 1 }
        ensures step { Stepped (after_task_step self.old line.now) self.new result }
        ensures count { IfOk result
            (λ _. length self.new.tasks + length self.new.irqs + lines_before self.new.place ≡
            length self.old.tasks + length self.old.irqs + 5) }
        ensures few { IfOk result (λ _. length self.new.irqs ≤ 65537) }
        ensures sound { IfOk result (λ _. Sound self.new) }
    {
        if has_form(line, TASK, 7) {
            return self.task(line);
        }
        self.after_irq(line)
    }

    /// What one more line says.
    pub(crate) fn step(&mut self, line: &[u8]) -> Result<(), StepFault>
        requires sound { Sound self.old }
        requires irqs { length self.old.irqs ≤ MAX_ALL_IRQS + 1 }
        ensures step { Stepped (step self.old line.now) self.new result }
        ensures count { IfOk result (λ _. lines_of self.old < lines_of self.new) }
        ensures few { IfOk result (λ _. length self.new.irqs ≤ 65537) }
        ensures sound { IfOk result (λ _. Sound self.new) }
    {
        match self.place {
            Place::Version => {
                let version = version_row(line)?;
                self.place = Place::Harts(version);
                Ok(())
            }
            Place::Harts(version) => {
                self.harts = harts_row(line)?;
                self.place = Place::Layout(version);
                Ok(())
            }
            Place::Layout(version) => {
                self.layout = layout_row(line)?;
                self.place = after_layout(version);
                Ok(())
            }
            Place::Branch => {
                self.branch = branch_row(line)?;
                self.place = Place::FirstTask;
                Ok(())
            }
            Place::FirstTask => self.task(line),
            Place::Tasks => self.after_task(line),
            Place::Irqs => self.after_irq(line),
            Place::Images => Err(StepFault::Refused(Reason::NotWord)),
        }
    }
}
