// The call over ends in memory, and what it leaves.
ghost use Rattle.std.specs.Prelude.{◌<◌, All};

use ctr_port::{MemSink, MemSource, NoMemory};
use ctrsim_cli::{Fault, Outcome, ctrsim};
use indirect_regs::CtrPort;
use rv_hart::Harts;
use sched_text::{LineFault, Reason};
use std::alloc::Global;
use std::process::Abort;

/// Ample room for what is written.
const ROOM: usize = 1 << 16;

/// A call with all that it left.
#[derive(Drop)]
pub struct Ended {
    pub outcome: Outcome,
    pub sink: MemSink,
    pub notes: MemSink,
    pub harts: Harts,
}

/// What a hart holds: its steps, its accesses and its resident.
pub type Held = (u64, u64, Option<u8>);

pub const DONE: Outcome = Outcome {
    status: 0,
    fault: None,
};

pub const USAGE: Outcome = Outcome {
    status: 2,
    fault: Some(Fault::Usage),
};

pub const USAGE_SAID: &[u8] = b"ctrsim: usage: ctrsim run | show HEX [BRANCH] | demo N\n";

pub const CANNOT_READ: Outcome = Outcome {
    status: 3,
    fault: Some(Fault::ReadFault),
};

pub const CANNOT_READ_SAID: &[u8] = b"ctrsim: cannot read\n";

pub const CANNOT_WRITE: Outcome = Outcome {
    status: 4,
    fault: Some(Fault::WriteFault),
};

pub const CANNOT_WRITE_SAID: &[u8] = b"ctrsim: cannot write\n";

/// A line that is refused.
pub(crate) fn refused(line: u32, reason: Reason) -> Outcome {
    Outcome {
        status: 5,
        fault: Some(Fault::Line(LineFault { line, reason })),
    }
}

/// The call with these words over these ends and on fresh harts. What it says is kept in `notes`.
pub(crate) fn call(
    alloc: Global,
    words: &[&str],
    source: &mut MemSource,
    sink: MemSink,
    notes: MemSink,
) -> Result<Ended, NoMemory> {
    let mut list = Vec::new(alloc);
    for word in words {
        list.push(String::from_str(alloc, word)?)?;
    }
    let mut sink = sink;
    let mut notes = notes;
    let mut harts = Harts::new(alloc)?;
    let outcome = ctrsim(alloc, &list, source, &mut sink, &mut notes, &mut harts);
    Ok(Ended {
        outcome,
        sink,
        notes,
        harts,
    })
}

/// The same on this input, which comes in pieces and fails at these calls, into ample room.
pub(crate) fn reading(
    alloc: Global,
    words: &[&str],
    input: &[u8],
    pieces: &[usize],
    failing: &[u64],
) -> Result<Ended, NoMemory>
    requires { All (λ p. 0 < p) pieces.now }
{
    let mut source = MemSource::new(alloc, input, pieces, failing)?;
    let sink = MemSink::new(alloc, ROOM, &[], &[])?;
    let notes = MemSink::new(alloc, 128, &[], &[])?;
    call(alloc, words, &mut source, sink, notes)
}

/// The same on an input that doesn't fail.
pub(crate) fn run(
    alloc: Global,
    words: &[&str],
    input: &[u8],
    pieces: &[usize],
) -> Result<Ended, NoMemory>
    requires { All (λ p. 0 < p) pieces.now }
{
    reading(alloc, words, input, pieces, &[])
}

/// The same into a sink that takes pieces of these lengths and fails at these calls.
pub(crate) fn writing(
    alloc: Global,
    words: &[&str],
    input: &[u8],
    pieces: &[usize],
    failing: &[u64],
) -> Result<Ended, NoMemory>
    requires { All (λ p. 0 < p) pieces.now }
{
    let mut source = MemSource::new(alloc, input, &[], &[])?;
    let sink = MemSink::new(alloc, ROOM, pieces, failing)?;
    let notes = MemSink::new(alloc, 128, &[], &[])?;
    call(alloc, words, &mut source, sink, notes)
}

/// The call ended so, said this and wrote this.
pub(crate) fn ends(
    rt: &impl Abort,
    name: &str,
    ended: &Ended,
    want: Outcome,
    said: &[u8],
    written: &[u8],
) {
    assert_eq!(rt; ended.outcome, want, "{name}");
    assert_eq!(rt; ended.notes.bytes(), said, "{name}: notes");
    assert_eq!(rt; ended.sink.bytes(), written, "{name}: output");
}

/// What a hart holds.
pub(crate) fn held(harts: &Harts, h: usize) -> Held
    requires { h < 16 }
{
    let hart = harts.hart(h);
    (hart.steps(), hart.accesses(), hart.resident())
}

/// The harts hold this, and those behind have done nothing.
pub(crate) fn leaves(rt: &impl Abort, name: &str, ended: &Ended, harts: &[Held]) {
    for h in 0..16 {
        let want = harts.get(h).copied().unwrap_or((0, 0, None));
        assert_eq!(rt; held(&ended.harts, h), want, "{name}: hart {h}");
    }
}
