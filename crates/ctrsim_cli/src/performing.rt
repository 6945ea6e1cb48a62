//! The commands of a schedule, each performed before the next is read.

ghost use Rattle.std.specs.Prelude.{◌≡◌, List, [], None, false, ℕ};
ghost use Rattle.ctr_port.specs.InHand.{text_of};
ghost use Rattle.sched_text.specs.Commands.{is_end};
ghost use Rattle.sched_text.specs.declared.schedule.Header.{Header};
ghost use Rattle.ctrsim_cli.specs.Parts.{PerformAnswer, performing_fault, reading_fault};
ghost use Rattle.ctrsim_cli.specs.Performed.{ReadCause, WriteCause};

use crate::fault::Fault;
use ctr_port::{Sink, Source};
use replay_engine::{HartSet, PerformFault};
use sched_text::{Command, CommandFault, LineFault, Reason, ScheduleReader};

fn is_end(command: &Command) -> bool
    ensures { result ≡ is_end command.now }
{
    matches!(command, Command::End)
}

// A line that is refused.
fn line_fault(line: u32, reason: Reason) -> Fault
    ensures { result ≡ Fault.Line (record { line = line; reason = reason }) }
{
    Fault::Line(LineFault { line, reason })
}

// Why the command of this line wasn't performed.
fn not_performed(fault: PerformFault, line: u32) -> Fault
    ensures { result ≡ performing_fault fault line }
{
    match fault {
        PerformFault::NoTask => line_fault(line, Reason::NoTask),
        PerformFault::NoHart => line_fault(line, Reason::NoHart),
        PerformFault::NotResident => line_fault(line, Reason::NotResident),
        PerformFault::EmptyHart => line_fault(line, Reason::EmptyHart),
        PerformFault::Write => Fault::WriteFault,
    }
}

// Why there is no next command.
fn not_read(fault: CommandFault) -> Fault
    ensures { result ≡ reading_fault fault }
{
    match fault {
        CommandFault::Line(fault) => Fault::Line(fault),
        CommandFault::ReadFault => Fault::ReadFault,
    }
}

/// Performs the commands of a schedule whose header and images were read, up to `end` or to the
/// first fault.
pub(crate) fn perform_all<S: Source, H: HartSet, K: Sink>(
    reader: &mut ScheduleReader,
    source: &mut S,
    engine: &mut H::Engine,
    harts: &mut H,
    sink: &mut K,
) -> Option<Fault>
    requires reader { (reader.old.refused ≡ None) × (reader.old.ended ≡ false)
        × (reader.old.commands ≡ 0) }
    requires follows { (h : Header) × (images : List (List ℕ))
        × H.follows h images [] engine.old harts.old }
    ensures answer { PerformAnswer H.follows H.performed K.gained engine.old harts.old sink.old
        harts.new sink.new reader.old.line (text_of reader.old.hand (S.left source.old))
        (text_of reader.new.hand (S.left source.new)) reader.new.hand result }
    ensures read { ReadCause (S.faults source.old) (S.faults source.new) result }
    ensures write { WriteCause (K.faults sink.old) (K.faults sink.new) result }
{
    H::laws();
    loop {
        match reader.command(source) {
            Ok(command) => {
                if is_end(&command) {
                    return None;
                }
                match H::perform(engine, command, harts, sink) {
                    Ok(()) => {}
                    Err(fault) => return Some(not_performed(fault, reader.line())),
                }
            }
            Err(fault) => return Some(not_read(fault)),
        }
    }
}
