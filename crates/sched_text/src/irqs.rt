//! The irq lines of a header, with a mark for each task by which the next line is judged.

ghost use Rattle.std.specs.Prelude.{◌≡◌, ◌<◌, ◌≤◌, [], ◌∷◌, ◌++◌, length, None, OnOk};
ghost use Rattle.sched_text.specs.Irqs.{irq_refusal};
ghost use Rattle.sched_text.specs.Marks.{mark_of, mark_refusal};

use crate::faults::Reason;
use crate::limits::{MAX_ALL_IRQS, MAX_IRQS, MAX_TASKS};
use crate::schedule::{IrqLine, IrqLines};
use ctr_port::NoMemory;
use std::alloc::Global;
use std::marker::Model;

/// What the irq lines of a task so far come to.
#[derive(Clone, Copy)]
pub(crate) struct Mark {
    /// How many there are.
    pub(crate) count: u16,
    /// The step of the last.
    pub(crate) step: u64,
    /// The cause of the last.
    pub(crate) cause: u8,
}

// Why a line may not follow those of its task, if so.
fn mark_refusal(mark: Mark, irq: IrqLine) -> Option<Reason>
    ensures { result ≡ mark_refusal mark irq }
{
    if mark.count >= MAX_IRQS {
        return Some(Reason::TooMany);
    }
    if mark.count > 0
        && (irq.step < mark.step || irq.step == mark.step && irq.cause <= mark.cause)
    {
        return Some(Reason::IrqOrder);
    }
    None
}

/// Irq lines, in order. Contracts see the list of them.
#[derive(Drop)]
pub(crate) struct Irqs {
    list: IrqLines,
    marks: [Mark; MAX_TASKS],
}

impl Model for Irqs {
    ghost use Rattle.std.specs.Prelude.{◌≡◌, List, length};
    ghost use Rattle.sched_text.specs.declared.schedule.IrqLine.{IrqLine};
    ghost use Rattle.sched_text.specs.Marks.{Marked};

    ghost Value = { List IrqLine };

    ghost view = { λ i. i.list };

    ghost invariant = { λ i. Marked i.marks i.list };
}

impl Irqs {
    pub(crate) fn new(alloc: Global) -> Self
        ensures { result ≡ [] }
    {
        Irqs {
            list: IrqLines::new(alloc),
            marks: [Mark {
                count: 0,
                step: 0,
                cause: 0,
            }; MAX_TASKS],
        }
    }

    /// Why a line may not follow those that are here, if so. It looks at one mark, however many
    /// lines there are.
    #[tactic(auto, using(crate::proofs::MarkLaws::marked_few))]
    pub(crate) fn refusal(&self, irq: IrqLine) -> Option<Reason>
        requires { irq.task < MAX_TASKS }
        ensures refusal { result ≡ irq_refusal self.now irq }
        ensures mark { result ≡ mark_refusal (mark_of irq.task self.now) irq }
        ensures few { length self.now ≤ MAX_ALL_IRQS }
    {
        mark_refusal(self.marks[irq.task as usize], irq)
    }

    /// Adds a line last.
    pub(crate) fn push(&mut self, irq: IrqLine) -> Result<(), NoMemory>
        requires task { irq.task < MAX_TASKS }
        requires follows { mark_refusal (mark_of irq.task self.old) irq ≡ None }
        ensures { OnOk result (self.new ≡ self.old ++ irq ∷ []) }
    {
        self.list.push(irq)?;
        let mark = &mut self.marks[irq.task as usize];
        *mark = Mark {
            count: mark.count + 1,
            step: irq.step,
            cause: irq.cause,
        };
        Ok(())
    }

    pub(crate) fn into_lines(self) -> IrqLines
        ensures { result ≡ self }
    {
        self.list
    }
}
