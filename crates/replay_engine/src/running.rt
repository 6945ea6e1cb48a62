//! Steps of a task on a hart.

ghost use Rattle.std.specs.Prelude.{◌≡◌, ◌+◌, ◌-◌, ◌≤◌, ◌^◌, List, OnOk, OnErr};
ghost use Rattle.ctr_port.specs.Sink.{GainsPart};
ghost use Rattle.ctr_port.specs.Counts.{Rose};
ghost use Rattle.guest_modes.specs.declared.causes.TheConstants.{INTERRUPTS};
ghost use Rattle.guest_modes.specs.Words.{IsWithin};
ghost use Rattle.rv_hart.specs.Task.{Irq, causes};
ghost use Rattle.sched_text.specs.declared.limits.TheConstants.{MAX_STEPS};
ghost use Rattle.replay_engine.specs.Parts.{RunMade, RunCut, next_due};
ghost use Rattle.replay_engine.specs.Runs.{next_present, due_sample, due_cost, spellings};
ghost use Rattle.replay_engine.specs.Tasks.{state_on};

use crate::irqs::Irqs;
use crate::sampling::{SampleContext, SampleRoom, write_sample};
use crate::task::Task;
use ctr_port::{Sink, WriteFault};
use rv_hart::{Hart, Store};

// One step of a task on a hart.
#[inline(always)]
fn step(hart: &mut Hart<Store>, task: &mut Task, pending: u64)
    requires pending { IsWithin INTERRUPTS pending }
    requires hart_room { hart.old.steps ≤ 2 ^ 62 }
    requires task_room { task.old.steps ≤ 2 ^ 62 }
    ensures seat { (irqs : List Irq) → pending ≡ causes irqs task.old.steps →
        state_on hart.new task.new ≡ next_present irqs (state_on hart.old task.old) }
    ensures hart { hart.new ≡ record hart.old {
      core = hart.new.core;
      unit = hart.new.unit;
      steps =
          hart.old.steps + 1;
    } }
    ensures task { task.new ≡ record task.old { mem = task.new.mem; steps = task.old.steps + 1 } }
{
    hart.step(&mut task.mem, pending);
    task.steps += 1;
}

// The first count of steps after this one that asks for a sample; without a period, one that no
// count reaches.
fn next_due(period: u32, steps: u64) -> u64
    requires { steps ≤ 2 ^ 62 }
    ensures { result ≡ next_due period steps }
{
    if period == 0 {
        return u64::MAX;
    }
    let period = u64::from(period);
    steps + (period - steps % period)
}

// Writes the sample of a task after a step, if one is due, and says when the next one is.
fn write_due<K: Sink>(
    hart: &mut Hart<Store>,
    task: &Task,
    context: &SampleContext,
    due: &mut u64,
    room: &mut SampleRoom,
    sink: &mut K,
) -> Result<(), WriteFault>
    requires room { hart.old.accesses + 2 ≤ 2 ^ 62 }
    requires steps { task.now.steps ≤ 2 ^ 62 }
    requires some { 1 ≤ task.now.steps }
    requires due { due.old ≡ next_due context.now.period (task.now.steps - 1) }
    ensures whole { OnOk result
        (K.gained sink.old (spellings context.now.layout
        (due_sample context.now (state_on hart.old task.now))) sink.new) }
    ensures part { OnErr result (GainsPart K.gained sink.old sink.new
        (spellings context.now.layout (due_sample context.now (state_on hart.old task.now)))) }
    ensures hart { hart.new ≡ record hart.old {
      accesses =
          hart.old.accesses + due_cost context.now (state_on hart.old task.now);
    } }
    ensures due { due.new ≡ next_due context.now.period task.now.steps }
    ensures later { K.faults sink.old ≤ K.faults sink.new }
    ensures cause { OnErr result (Rose (K.faults sink.old) (K.faults sink.new)) }
{
    if task.steps != *due {
        return Ok(());
    }
    *due = next_due(context.period, task.steps);
    write_sample(hart, context, task.steps, room, sink)
}

// Makes so many steps of a task on a hart, and writes the samples that its period wants. It is
// never inlined: beside the moves of a command the compiler inlines less of a step into the loop.
#[inline(never)]
pub(crate) fn run_steps<K: Sink>(
    hart: &mut Hart<Store>,
    task: &mut Task,
    irqs: &Irqs,
    context: &SampleContext,
    steps: u32,
    room: &mut SampleRoom,
    sink: &mut K,
) -> Result<(), WriteFault>
    requires few { steps ≤ MAX_STEPS }
    requires accesses { hart.old.accesses ≤ 2 ^ 61 + 5000 }
    requires hart_room { hart.old.steps ≤ 2 ^ 61 }
    requires task_room { task.old.steps ≤ 2 ^ 61 }
    ensures whole { OnOk result (RunMade K.gained sink.old sink.new hart.old hart.new task.old
        task.new context.now irqs.now steps) }
    ensures part { OnErr result (RunCut K.gained sink.old sink.new hart.old hart.new task.old
        task.new context.now irqs.now steps) }
    ensures later { K.faults sink.old ≤ K.faults sink.new }
    ensures cause { OnErr result (Rose (K.faults sink.old) (K.faults sink.new)) }
{
    let mut place = irqs.place(task.next_irq, task.steps);
    let mut next = irqs.step_at(place);
    let mut due = next_due(context.period, task.steps);
    for _ in 0..steps {
        let pending = irqs.raised_at(&mut place, &mut next, task.steps);
        step(hart, task, pending);
        match write_due(hart, task, context, &mut due, room, sink) {
            Ok(()) => {}
            Err(fault) => return Err(fault),
        }
    }
    task.next_irq = place;
    Ok(())
}
