// An engine and sixteen harts, with the commands of a schedule, over ends in memory.
ghost use Rattle.std.specs.Prelude.{◌≡◌, ◌<◌, ◌≤◌, ◌+◌, ◌^◌, None, false, length, IfOk};
ghost use Rattle.std.specs.Bool.{OnTrue};
ghost use Rattle.sched_text.specs.Rows.{IsCommand};
ghost use Rattle.replay_engine.specs.Start.{AreMemories};
ghost use Rattle.engine_tests.specs.Played.{IsPlayed};

use ctr_port::{MemSink, MemSource};
use indirect_regs::{CtrPort, PortReg};
use replay_engine::{Engine, PerformFault, TaskMems};
use rv_hart::{Core, Harts, TaskMem};
use sched_text::{Command, Image, ScheduleReader, TaskLines};
use std::alloc::Global;
use std::process::Abort;
use std::test::Fail;

mod failing;
mod interrupts;
mod many;
mod moves;
mod refusals;
mod rows;
mod written;

// The words pid and tid of a sample of the first and of the second task.
const TASK_0: u64 = 0x1_0000_0001;

const TASK_1: u64 = 0x2_0000_0002;

// jal x1, 8
const CALL: &[u32] = &[0x0080_00EF];

// jal x0, 0
const LOOP: &[u32] = &[0x0000_006F];

// from, to, flags
type Taken = (u64, u64, u64);

// A schedule: its lines up to `images` and its commands, in groups with how often each comes, and
// the images.
#[derive(Clone, Copy)]
struct Schedule {
    head: &'static [(&'static str, u32)],
    images: &'static [&'static [u32]],
    commands: &'static [(&'static str, u32)],
}

// A sample: misc, the words from the header to the number of branches, the word behind that number,
// if there is one, and the branches, youngest first.
#[derive(Clone, Copy)]
struct Wanted {
    misc: u64,
    fields: &'static [u64],
    index: &'static [u64],
    branches: &'static [Taken],
}

// A sample in mode M without words and branches.
const EMPTY: Wanted = Wanted {
    misc: 3,
    fields: &[],
    index: &[],
    branches: &[],
};

// A schedule, the commands that are refused, by their places, the samples that it gives, and of
// each hart from the first on its steps, its accesses and its resident.
#[derive(Clone, Copy)]
struct Case {
    name: &'static str,
    schedule: Schedule,
    refused: &'static [(usize, PerformFault)],
    samples: &'static [Wanted],
    harts: &'static [(u64, u64, Option<u8>)],
}

// An engine on harts, what was written, and the commands of its schedule that come next.
#[derive(Drop)]
struct Play {
    engine: Engine,
    harts: Harts,
    sink: MemSink,
    commands: Vec<Command>,
    next: usize,
    // At least how many commands were performed, with the changes of others.
    performed: u64,
    ghost played: { IsPlayed performed engine.tasks harts },
}

// A sample as bytes.
fn spell(
    out: &mut Vec<u8>,
    misc: u64,
    fields: &[u64],
    index: &[u64],
    branches: &[Taken],
) -> Result<(), Fail> {
    let count = branches.len() as u64;
    let words = fields.len() as u64 % 64 + index.len() as u64 % 2;
    let size = count.wrapping_mul(24).wrapping_add(16 + 8 * words);
    let header = 9 + (misc % 65536) * (1 << 32) + (size % 65536) * (1 << 48);
    out.extend_from_slice(&header.to_le_bytes())?;
    for word in fields {
        out.extend_from_slice(&word.to_le_bytes())?;
    }
    out.extend_from_slice(&count.to_le_bytes())?;
    for word in index {
        out.extend_from_slice(&word.to_le_bytes())?;
    }
    for (from, to, flags) in branches {
        for word in [*from, *to, *flags] {
            out.extend_from_slice(&word.to_le_bytes())?;
        }
    }
    Ok(())
}

// Appends images as bytes.
fn append_images(text: &mut Vec<u8>, images: &[&[u32]]) -> Result<(), Fail> {
    for image in images {
        for word in *image {
            text.extend_from_slice(&word.to_le_bytes())?;
        }
    }
    Ok(())
}

// Appends groups of lines.
fn append_lines(text: &mut Vec<u8>, groups: &[(&str, u32)]) -> Result<(), Fail> {
    for (lines, times) in groups {
        for _ in 0..*times {
            text.extend_from_slice(lines.as_bytes())?;
        }
    }
    Ok(())
}

// The text of a schedule.
fn text_of(alloc: Global, schedule: &Schedule) -> Result<Vec<u8>, Fail> {
    let mut text = Vec::new(alloc);
    append_lines(&mut text, schedule.head)?;
    text.extend_from_slice(b"images\n")?;
    append_images(&mut text, schedule.images)?;
    append_lines(&mut text, schedule.commands)?;
    text.extend_from_slice(b"end\n")?;
    Ok(text)
}

// The images of tasks, which come next in a text.
fn images(
    rt: &impl Abort,
    alloc: Global,
    reader: &mut ScheduleReader,
    source: &mut MemSource,
    tasks: &TaskLines,
) -> Result<Vec<Image>, Fail>
    requires goes_on { reader.old.refused ≡ None }
    requires before { reader.old.ended ≡ false }
    ensures goes_on { IfOk result (λ _. reader.new.refused ≡ None) }
    ensures before { IfOk result (λ _. reader.new.ended ≡ false) }
{
    let mut images = Vec::new(alloc);
    for task in tasks.items() {
        match reader.image(alloc, source, task.image) {
            Ok(image) => images.push(image)?,
            Err(_) => panic!(rt; "an image is refused"),
        }
    }
    Ok(images)
}

// A memory of this size that begins with an image.
fn memory(rt: &impl Abort, alloc: Global, image: &Image, size: u32) -> Result<TaskMem, Fail>
    ensures { IfOk result (λ mem. length mem ≡ size) }
{
    assert!(rt; image.items().len() <= size as usize, "the image fits");
    assert!(rt; size <= 1_048_576, "the memory isn't too large");
    let mem = TaskMem::new(alloc, image.items(), size)?;
    assert!(rt; mem.len() == size, "the memory has its size");
    Ok(mem)
}

// The memories of tasks with these images.
fn memories(
    rt: &impl Abort,
    alloc: Global,
    tasks: &TaskLines,
    images: &[Image],
) -> Result<TaskMems, Fail>
    ensures { IfOk result (λ mems. AreMemories tasks.now mems) }
{
    let mut mems = TaskMems::new(alloc);
    let mut i = 0;
    for task in tasks.items() {
        assert!(rt; i < images.len(), "an image for each task");
        mems.push(memory(rt, alloc, &images[i], task.mem)?)?;
        i += 1;
    }
    Ok(mems)
}

// The commands of a schedule up to its end.
fn commands(
    rt: &impl Abort,
    alloc: Global,
    reader: &mut ScheduleReader,
    source: &mut MemSource,
) -> Result<Vec<Command>, Fail>
    requires goes_on { reader.old.refused ≡ None }
    requires before { reader.old.ended ≡ false }
{
    let mut commands = Vec::new(alloc);
    for _ in 0..100_000 {
        match reader.command(source) {
            Ok(Command::End) => break,
            Ok(command) => commands.push(command)?,
            Err(_) => panic!(rt; "a command is refused"),
        }
    }
    Ok(commands)
}

// The engine and the commands of a schedule, on fresh harts.
fn begin(rt: &impl Abort, alloc: Global, text: &[u8], sink: MemSink) -> Result<Play, Fail> {
    let mut source = MemSource::new(alloc, text, &[], &[])?;
    let mut reader = ScheduleReader::new();
    let Ok(header) = reader.header(alloc, &mut source) else {
        panic!(rt; "the header is refused")
    };
    let images = images(rt, alloc, &mut reader, &mut source, &header.tasks)?;
    let mems = memories(rt, alloc, &header.tasks, &images)?;
    let commands = commands(rt, alloc, &mut reader, &mut source)?;
    let engine = Engine::start(alloc, header, mems)?;
    let harts = Harts::new(alloc)?;
    Ok(Play {
        engine,
        harts,
        sink,
        commands,
        next: 0,
        performed: 0,
    })
}

// The same of a schedule, with ample room for its samples.
fn begin_schedule(rt: &impl Abort, alloc: Global, schedule: &Schedule) -> Result<Play, Fail> {
    let text = text_of(alloc, schedule)?;
    begin(rt, alloc, &text, MemSink::new(alloc, 1 << 21, &[], &[])?)
}

// Whether a command may be performed.
fn is_command(command: &Command) -> bool
    ensures { OnTrue result (IsCommand command.now) }
{
    match command {
        Command::Run { steps, .. } => *steps <= 1_000_000_000,
        Command::Sample { .. } => true,
        Command::Evict { .. } => true,
        Command::End => true,
    }
}

// One more command.
fn perform(
    engine: &mut Engine,
    harts: &mut Harts,
    sink: &mut MemSink,
    performed: u64,
    command: Command,
) -> Result<(), PerformFault>
    requires few { performed ≤ 1000000 }
    requires played { IsPlayed performed engine.old.tasks harts.old }
    requires command { IsCommand command }
    requires broken { engine.old.broken ≡ false }
    ensures { IsPlayed (performed + 1) engine.new.tasks harts.new }
{
    engine.perform(command, harts, sink)
}

// Writes an entry through a port.
fn write_entry<P: CtrPort>(port: &mut P, i: u8, source: u64, target: u64, kind: u64)
    requires { P.count port.old ≤ 2 ^ 62 }
    ensures count { P.count port.new ≡ P.count port.old + 4 }
    ensures rest { P.same_rest port.old port.new }
{
    port.set(PortReg::Select, 0x200 + u64::from(i));
    port.set(PortReg::From, source);
    port.set(PortReg::To, target);
    port.set(PortReg::Kind, kind);
}

// Writes an entry of hart 0, as a monitor does.
fn write_entry_of(
    harts: &mut Harts,
    i: u8,
    source: u64,
    target: u64,
    kind: u64,
    tasks: &Engine,
    performed: u64,
)
    requires few { performed ≤ 1000000 }
    requires played { IsPlayed performed tasks.now.tasks harts.old }
    ensures { IsPlayed (performed + 1) tasks.now.tasks harts.new }
{
    write_entry(harts.hart_mut(0), i, source, target, kind);
}

// Puts another core into hart 0.
fn put_core_of(harts: &mut Harts, core: Core, tasks: &Engine, performed: u64)
    requires few { performed ≤ 1000000 }
    requires played { IsPlayed performed tasks.now.tasks harts.old }
    ensures { IsPlayed (performed + 1) tasks.now.tasks harts.new }
{
    let mut core = core;
    harts.hart_mut(0).swap_core(&mut core);
}

impl Play {
    // Performs a command.
    fn perform(&mut self, rt: &impl Abort, command: Command) -> Result<(), PerformFault> {
        assert!(rt; !self.engine.broken(), "the engine is broken");
        assert!(rt; self.performed <= 1_000_000, "too many commands");
        assert!(rt; is_command(&command), "too many steps");
        let answer = perform(
            &mut self.engine,
            &mut self.harts,
            &mut self.sink,
            self.performed,
            command,
        );
        self.performed += 1;
        assert_eq!(rt;
            self.engine.broken(),
            answer == Err(PerformFault::Write),
            "broken after {command:?}"
        );
        answer
    }

    // Performs the next command of the schedule.
    fn step(&mut self, rt: &impl Abort) -> Result<(), PerformFault> {
        assert!(rt; self.next < self.commands.len(), "no further command");
        let command = self.commands[self.next];
        self.next += 1;
        self.perform(rt, command)
    }

    // Writes an entry of hart 0, as a monitor does.
    fn write_entry(&mut self, rt: &impl Abort, i: u8, source: u64, target: u64, kind: u64) {
        assert!(rt; self.performed <= 1_000_000, "too many changes");
        write_entry_of(
            &mut self.harts,
            i,
            source,
            target,
            kind,
            &self.engine,
            self.performed,
        );
        self.performed += 1;
    }

    // Puts another core into hart 0.
    fn put_core(&mut self, rt: &impl Abort, core: Core) {
        assert!(rt; self.performed <= 1_000_000, "too many changes");
        put_core_of(&mut self.harts, core, &self.engine, self.performed);
        self.performed += 1;
    }
}

// What a hart holds: its steps, its accesses and its resident.
fn held(harts: &Harts, h: usize) -> (u64, u64, Option<u8>)
    requires { h < 16 }
{
    let hart = harts.hart(h);
    (hart.steps(), hart.accesses(), hart.resident())
}

// The harts hold this, and those behind have done nothing.
fn leaves(rt: &impl Abort, name: &str, play: &Play, harts: &[(u64, u64, Option<u8>)]) {
    for h in 0..16 {
        let want = harts.get(h).copied().unwrap_or((0, 0, None));
        assert_eq!(rt; held(&play.harts, h), want, "{name}: hart {h}");
    }
}

// The answer to the command at a place, where those at these places are refused.
fn answer_at(refused: &[(usize, PerformFault)], at: usize) -> Result<(), PerformFault> {
    for (place, fault) in refused {
        if *place == at {
            return Err(*fault);
        }
    }
    Ok(())
}

// Performs all commands that are left, and compares each answer.
fn answers(rt: &impl Abort, name: &str, play: &mut Play, refused: &[(usize, PerformFault)]) {
    for at in play.next..play.commands.len() {
        assert_eq!(rt;
            play.step(rt),
            answer_at(refused, at),
            "{name}: command {at}"
        );
    }
}

// A play wrote these samples.
fn writes(
    rt: &impl Abort,
    alloc: Global,
    name: &str,
    play: &Play,
    samples: &[Wanted],
) -> Result<(), Fail> {
    let mut want = Vec::new(alloc);
    for sample in samples {
        spell(
            &mut want,
            sample.misc,
            sample.fields,
            sample.index,
            sample.branches,
        )?;
    }
    assert_eq!(rt; play.sink.bytes(), want.as_slice(), "{name}");
    Ok(())
}

// Performs a schedule, and compares all that it left.
fn check(rt: &impl Abort, alloc: Global, case: &Case) -> Result<(), Fail> {
    let mut play = begin_schedule(rt, alloc, &case.schedule)?;
    answers(rt, case.name, &mut play, case.refused);
    writes(rt, alloc, case.name, &play, case.samples)?;
    leaves(rt, case.name, &play, case.harts);
    Ok(())
}

fn check_all(rt: &impl Abort, alloc: Global, cases: &[Case]) -> Result<(), Fail> {
    for case in cases {
        check(rt, alloc, case)?;
    }
    Ok(())
}
