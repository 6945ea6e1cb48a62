//! The word `run`: a schedule, performed as it is read.

ghost use Rattle.std.specs.Prelude.{◌≡◌, None, Some, false, OnOk};
ghost use Rattle.ctr_port.specs.Counts.{HasCause};
ghost use Rattle.ctr_port.specs.InHand.{text_of};
ghost use Rattle.sched_text.specs.Causes.{is_read};
ghost use Rattle.sched_text.specs.Reader.{fresh};
ghost use Rattle.ctrsim_cli.specs.OnHarts.{ReadOnHarts};
ghost use Rattle.ctrsim_cli.specs.Parts.{OpenAnswer, opening_fault};
ghost use Rattle.ctrsim_cli.specs.Performed.{ReadCause, WriteCause};
ghost use Rattle.ctrsim_cli.specs.RunEnds.{RunEnds};

use crate::fault::Fault;
use crate::memories::read_memories;
use crate::performing::perform_all;
use ctr_port::{Sink, Source};
use replay_engine::HartSet;
use sched_text::{ScheduleFault, ScheduleReader};
use std::alloc::Global;

// Why a schedule can't be opened.
fn not_opened(fault: ScheduleFault) -> Fault
    ensures { result ≡ opening_fault fault }
{
    match fault {
        ScheduleFault::Line(fault) => Fault::Line(fault),
        ScheduleFault::ReadFault => Fault::ReadFault,
        ScheduleFault::Memory => Fault::Memory,
    }
}

// Reads the header and the images of a schedule. All memory that its tasks ever take is taken here.
fn open<S: Source, H: HartSet>(
    alloc: Global,
    reader: &mut ScheduleReader,
    source: &mut S,
) -> Result<H::Engine, ScheduleFault>
    requires { reader.old ≡ fresh }
    ensures answer { OpenAnswer H.fresh H.follows reader.new.line (text_of reader.old.hand (S.left source.old))
        (text_of reader.new.hand (S.left source.new)) reader.new.hand result }
    ensures cause { HasCause is_read (S.faults source.old) (S.faults source.new) result }
    ensures open { OnOk result ((reader.new.refused ≡ None) × (reader.new.ended ≡ false)
        × (reader.new.commands ≡ 0)) }
{
    let header = reader.header(alloc, source)?;
    let mems = read_memories(alloc, reader, source, header.tasks.items())?;
    match H::start(alloc, header, mems) {
        Ok(engine) => Ok(engine),
        Err(_) => Err(ScheduleFault::Memory),
    }
}

/// Reads a schedule and performs its commands on the harts, each before the next is read.
// Never inlined: no word pays on the stack for what another word keeps there.
#[inline(never)]
pub(crate) fn run<S: Source, H: HartSet, K: Sink>(
    alloc: Global,
    source: &mut S,
    sink: &mut K,
    harts: &mut H,
) -> Option<Fault>
    requires { H.fresh harts.old }
    ensures ends { H.tells harts.old → RunEnds (S.left source.old) (S.left source.new)
        K.gained sink.old sink.new (H.held harts.new) result }
    ensures on_harts { ReadOnHarts H.performed K.gained harts.old harts.new sink.old sink.new }
    ensures known { result ≡ Some Fault.Usage → ⊥ }
    ensures read { ReadCause (S.faults source.old) (S.faults source.new) result }
    ensures write { WriteCause (K.faults sink.old) (K.faults sink.new) result }
{
    H::laws();
    let mut reader = ScheduleReader::new();
    match open::<S, H>(alloc, &mut reader, source) {
        Ok(mut engine) => { perform_all::<S, H, K>(&mut reader, source, &mut engine, harts, sink) }
        Err(fault) => Some(not_opened(fault)),
    }
}
