//! The word `demo`: a schedule that is made and not read, performed on the harts, and what its
//! samples come to.

ghost use Rattle.std.specs.Prelude.{◌≡◌, ◌≤◌, [], replicate, IfOk};
ghost use Rattle.replay_engine.specs.Start.{memories};
ghost use Rattle.ctrsim_cli.specs.Demo.{demo_image, demo_line, demo_lines, demo_header, DemoEnds};
ghost use Rattle.ctrsim_cli.specs.Demo.{run_of_turn, sample_of_turn, turns};
ghost use Rattle.ctrsim_cli.specs.OnHarts.{CountedOnHarts, line_of};
ghost use Rattle.ctrsim_cli.specs.Parts.{Made};
ghost use Rattle.ctrsim_cli.specs.Performed.{WriteCause};

use crate::bytes::{put, put_decimal};
use crate::counting::Counter;
use crate::fault::Fault;
use crate::memories::add_memory;
use arrayvec::ArrayVec;
use ctr_port::{NoMemory, Sink, write_whole};
use replay_engine::{HartSet, TaskMems, engine_laws};
use rv_hart::fact_laws;
use sched_text::{Command, Header, IrqLines, TaskLine, TaskLines};
use std::alloc::Global;

// The tasks, by their numbers from 0.
const TASKS: u8 = 8;

// jal x1, 8; nop; jalr x0, x1
const IMAGE: [u8; 12] = [
    0xEF, 0x00, 0x80, 0x00, 0x13, 0x00, 0x00, 0x00, 0x67, 0x80, 0x00, 0x00,
];

// Room for the summary: at most 85 bytes are written.
type Summary = ArrayVec<u8, 96>;

// The line of a task.
fn task_line(number: u8) -> TaskLine
    ensures { result ≡ demo_line number }
{
    TaskLine {
        image: 12,
        mem: 12,
        depth: number % 5,
        mctrctl: 4,
        vsctrctl: 0,
        period: 7,
    }
}

// The header.
fn header(alloc: Global) -> Result<Header, NoMemory>
    ensures { IfOk result (λ h. h ≡ demo_header) }
{
    let mut tasks = TaskLines::new(alloc);
    for number in 0..TASKS {
        tasks.push(task_line(number))?;
    }
    Ok(Header {
        harts: 4,
        layout: 0x803,
        branch: 0,
        tasks,
        irqs: IrqLines::new(alloc),
    })
}

// The memories of the tasks.
fn memories(alloc: Global) -> Result<TaskMems, NoMemory>
    ensures { IfOk result (λ mems. mems ≡ memories (demo_lines 8) (replicate 8 demo_image)) }
{
    let mut mems = TaskMems::new(alloc);
    for _ in 0..TASKS {
        add_memory(alloc, &mut mems, &IMAGE, 12)?;
    }
    Ok(mems)
}

// The engine before the first turn.
fn begin<H: HartSet>(alloc: Global) -> Result<H::Engine, NoMemory>
    ensures { (harts : H) → H.fresh harts →
        IfOk result (λ e. H.follows demo_header (replicate 8 demo_image) [] e harts) }
{
    let header = header(alloc)?;
    let mems = memories(alloc)?;
    let engine = H::start(alloc, header, mems)?;
    Ok(engine)
}

// `run H T S` of a turn.
fn run_of(turn: u32) -> Command
    requires { turn ≤ 100000 }
    ensures { result ≡ run_of_turn turn }
{
    let i = u64::from(turn);
    Command::Run {
        hart: (i + i / 8) % 4,
        task: i % 8,
        steps: 1 + ((i * i + 3 * i) % 97) as u32,
    }
}

// `sample T` of a turn.
fn sample_of(turn: u32) -> Command
    ensures { result ≡ sample_of_turn turn }
{
    Command::Sample {
        task: u64::from(turn % 8),
    }
}

// Performs the turns, and counts their samples.
fn perform_turns<H: HartSet>(engine: &mut H::Engine, harts: &mut H, number: u32) -> Counter
    requires few { number ≤ 100000 }
    requires begun { H.follows demo_header (replicate 8 demo_image) [] engine.old harts.old }
    ensures made { Made H.follows H.performed engine.old harts.old (turns number) engine.new harts.new
        result }
{
    H::laws();
    let mut counter = Counter::new();
    for turn in 0..number {
        let Ok(()) = H::perform(engine, run_of(turn), harts, &mut counter) else {
            unreachable!()
        };
        let Ok(()) = H::perform(engine, sample_of(turn), harts, &mut counter) else {
            unreachable!()
        };
    }
    counter
}

// The line that says what was counted.
#[tactic(auto, unfolding(crate::specs::Demo::summary_line))]
fn summary(counter: &Counter) -> Summary
    ensures { result.items ≡ line_of counter.now }
{
    let mut out = Summary::new();
    put(&mut out, b"samples ");
    put_decimal(&mut out, counter.samples);
    put(&mut out, b" bytes ");
    put_decimal(&mut out, counter.bytes);
    put(&mut out, b" branches ");
    put_decimal(&mut out, counter.branches);
    put(&mut out, b"\n");
    out
}

/// Performs so many turns of a schedule of eight tasks on four harts, and writes what its samples
/// come to.
// Never inlined: no word pays on the stack for what another word keeps there.
#[inline(never)]
pub(crate) fn demo<H: HartSet, K: Sink>(
    alloc: Global,
    turns: u32,
    sink: &mut K,
    harts: &mut H,
) -> Option<Fault>
    requires few { turns ≤ 100000 }
    requires fresh { H.fresh harts.old }
    ensures ends { H.tells harts.old →
        DemoEnds K.gained sink.old sink.new (H.held harts.new) turns result }
    ensures on_harts { CountedOnHarts H.performed K.gained turns harts.old harts.new sink.old sink.new
        result }
    ensures write { WriteCause (K.faults sink.old) (K.faults sink.new) result }
{
    engine_laws();
    fact_laws();
    H::laws();
    let Ok(mut engine) = begin::<H>(alloc) else {
        return Some(Fault::Memory);
    };
    let counter = perform_turns::<H>(&mut engine, harts, turns);
    match write_whole(sink, summary(&counter).as_slice()) {
        Ok(()) => None,
        Err(_) => Some(Fault::WriteFault),
    }
}
