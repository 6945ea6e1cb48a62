//! A command on tasks and harts: refused, performed, or cut off where the sink failed.
ghost use Rattle.std.specs.Prelude.{◌≡◌, ◌≢◌, ◌+◌, ◌≤◌, ◌<◌, ◌^◌, Some};
ghost use Rattle.std.specs.Prelude.{None, Err, length, OnOk, OnErr};
ghost use Rattle.ctr_port.specs.Counts.{Rose};
ghost use Rattle.sched_text.specs.Rows.{IsCommand};
ghost use Rattle.sched_text.specs.declared.limits.TheConstants.{MAX_STEPS};
ghost use Rattle.replay_engine.specs.Counts.{CountsHaveRoom};
ghost use Rattle.replay_engine.specs.Parts.{RunAmong, CutAmong, SampleAmong, SampleCutAmong};
ghost use Rattle.sched_text.specs.declared.schedule.Command.TheVariants as command;
ghost use Rattle.replay_engine.specs.View.{view_of};
ghost use Rattle.replay_engine.specs.Outcome.{IsReady, IsOutcome, is_write};

use crate::fault::PerformFault;
use crate::plan::{Plan, TaskPlan};
use crate::running::run_steps;
use crate::sampling::{SampleContext, SampleRoom, write_sample};
use crate::tasks::Tasks;
use ctr_port::{Sink, WriteFault};
use rv_hart::Harts;
use sched_text::Command;

// Makes steps of a task on the hart that it is on.
fn run_on_hart<K: Sink>(
    tasks: &mut Tasks,
    harts: &mut Harts,
    task_plan: &TaskPlan,
    context: &SampleContext,
    steps: u32,
    room: &mut SampleRoom,
    sink: &mut K,
) -> Result<(), WriteFault>
    requires task { context.now.task < length tasks.old }
    requires hart { context.now.hart < 16 }
    requires few { steps ≤ MAX_STEPS }
    requires room { CountsHaveRoom (2 ^ 61 + 3090) (view_of tasks.old harts.old) }
    ensures whole { OnOk result (RunAmong K.gained sink.old sink.new tasks.old tasks.new harts.old
        harts.new context.now task_plan.now.irqs steps) }
    ensures part { OnErr result (CutAmong K.gained sink.old sink.new tasks.old tasks.new harts.old
        harts.new context.now task_plan.now.irqs steps) }
    ensures size { length tasks.new ≡ length tasks.old }
    ensures later { K.faults sink.old ≤ K.faults sink.new }
    ensures cause { OnErr result (Rose (K.faults sink.old) (K.faults sink.new)) }
{
    run_steps(
        harts.hart_mut(context.hart as usize),
        &mut tasks.list[context.task as usize],
        &task_plan.irqs,
        context,
        steps,
        room,
        sink,
    )
}

// Writes the sample of a task on the hart that it is on.
fn sample_on_hart<K: Sink>(
    tasks: &Tasks,
    harts: &mut Harts,
    context: &SampleContext,
    room: &mut SampleRoom,
    sink: &mut K,
) -> Result<(), WriteFault>
    requires task { context.now.task < length tasks.now }
    requires hart { context.now.hart < 16 }
    requires room { CountsHaveRoom (2 ^ 61) (view_of tasks.now harts.old) }
    ensures whole { OnOk result (SampleAmong K.gained sink.old sink.new tasks.now harts.old
        harts.new context.now) }
    ensures part { OnErr result (SampleCutAmong K.gained sink.old sink.new tasks.now harts.old
        harts.new context.now) }
    ensures later { K.faults sink.old ≤ K.faults sink.new }
    ensures cause { OnErr result (Rose (K.faults sink.old) (K.faults sink.new)) }
{
    let steps = tasks.list[context.task as usize].steps;
    write_sample(
        harts.hart_mut(context.hart as usize),
        context,
        steps,
        room,
        sink,
    )
}

// Brings a task to a hart and makes its steps there.
fn run<K: Sink>(
    plan: &Plan,
    tasks: &mut Tasks,
    hart: u64,
    task: u64,
    steps: u32,
    harts: &mut Harts,
    room: &mut SampleRoom,
    sink: &mut K,
) -> Result<(), PerformFault>
    requires ready { IsReady plan.now tasks.old harts.old }
    requires few { steps ≤ MAX_STEPS }
    ensures outcome { IsOutcome K.gained sink.old sink.new plan.now tasks.old tasks.new harts.old
        harts.new (command.Run hart task steps) result }
    ensures size { length tasks.new ≡ length tasks.old }
    ensures later { K.faults sink.old ≤ K.faults sink.new }
    ensures cause { result ≡ Err PerformFault.Write → Rose (K.faults sink.old) (K.faults sink.new) }
{
    if task >= tasks.count() {
        return Err(PerformFault::NoTask);
    }
    if hart >= u64::from(plan.harts) {
        return Err(PerformFault::NoHart);
    }
    let (h, t) = (hart as u8, task as u8);
    let task_plan = &plan.tasks[t as usize];
    let context = SampleContext {
        layout: plan.layout,
        task: t,
        hart: h,
        period: task_plan.period,
    };
    tasks.bring(t, h, harts);
    match run_on_hart(tasks, harts, task_plan, &context, steps, room, sink) {
        Ok(()) => Ok(()),
        Err(_) => Err(PerformFault::Write),
    }
}

// Writes the sample of a task as it stands.
fn sample<K: Sink>(
    plan: &Plan,
    tasks: &mut Tasks,
    task: u64,
    harts: &mut Harts,
    room: &mut SampleRoom,
    sink: &mut K,
) -> Result<(), PerformFault>
    requires ready { IsReady plan.now tasks.old harts.old }
    ensures outcome { IsOutcome K.gained sink.old sink.new plan.now tasks.old tasks.new harts.old
        harts.new (command.Sample task) result }
    ensures size { length tasks.new ≡ length tasks.old }
    ensures later { K.faults sink.old ≤ K.faults sink.new }
    ensures cause { result ≡ Err PerformFault.Write → Rose (K.faults sink.old) (K.faults sink.new) }
{
    if task >= tasks.count() {
        return Err(PerformFault::NoTask);
    }
    let t = task as u8;
    match tasks.place(t) {
        None => Err(PerformFault::NotResident),
        Some(h) => {
            let context = SampleContext {
                layout: plan.layout,
                task: t,
                hart: h,
                period: plan.tasks[t as usize].period,
            };
            match sample_on_hart(tasks, harts, &context, room, sink) {
                Ok(()) => Ok(()),
                Err(_) => Err(PerformFault::Write),
            }
        }
    }
}

// Saves the task that is on a hart.
fn evict<K: Sink>(
    plan: &Plan,
    tasks: &mut Tasks,
    hart: u64,
    harts: &mut Harts,
    sink: &mut K,
) -> Result<(), PerformFault>
    requires ready { IsReady plan.now tasks.old harts.old }
    ensures outcome { IsOutcome K.gained sink.old sink.new plan.now tasks.old tasks.new harts.old
        harts.new (command.Evict hart) result }
    ensures size { length tasks.new ≡ length tasks.old }
    ensures same { sink.new ≡ sink.old }
    ensures cause { result ≢ Err PerformFault.Write }
{
    if hart >= u64::from(plan.harts) {
        return Err(PerformFault::NoHart);
    }
    let h = hart as u8;
    match harts.hart(h as usize).resident() {
        None => Err(PerformFault::EmptyHart),
        Some(_) => {
            tasks.free(h, harts);
            Ok(())
        }
    }
}

// Performs a command.
pub(crate) fn attempt<K: Sink>(
    plan: &Plan,
    tasks: &mut Tasks,
    command: Command,
    harts: &mut Harts,
    room: &mut SampleRoom,
    sink: &mut K,
) -> Result<(), PerformFault>
    requires ready { IsReady plan.now tasks.old harts.old }
    requires command { IsCommand command }
    ensures outcome { IsOutcome K.gained sink.old sink.new plan.now tasks.old tasks.new harts.old
        harts.new command result }
    ensures later { K.faults sink.old ≤ K.faults sink.new }
    ensures cause { result ≡ Err PerformFault.Write → Rose (K.faults sink.old) (K.faults sink.new) }
{
    match command {
        Command::Run { hart, task, steps } => run(
            plan, tasks, hart, task, steps, harts, room, sink,
        ),
        Command::Sample { task } => sample(plan, tasks, task, harts, room, sink),
        Command::Evict { hart } => evict(plan, tasks, hart, harts, sink),
        Command::End => Ok(()),
    }
}

// Whether the sink failed.
pub(crate) fn is_write(answer: Result<(), PerformFault>) -> bool
    ensures { result ≡ is_write answer }
{
    matches!(answer, Err(PerformFault::Write))
}
