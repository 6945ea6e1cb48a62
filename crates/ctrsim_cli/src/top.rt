//! The top call.

ghost use Rattle.std.specs.Prelude.{◌≡◌, ◌↔◌, Some};
ghost use Rattle.ctr_port.specs.Counts.{Rose};
ghost use Rattle.ctrsim_cli.specs.Does.{Does, DoesOnHarts, LeavesSource, Completes};
ghost use Rattle.ctrsim_cli.specs.Fault.{status_of, said_if};
ghost use Rattle.ctrsim_cli.specs.Performed.{SaidPart};
ghost use Rattle.ctrsim_cli.specs.Words.{IsAsked, IsKnown};
ghost use Rattle.ctrsim_cli.specs.declared.words.Word.{Word};

use crate::command::command;
use crate::fault::{Fault, Outcome};
use crate::notes::line_of;
use ctr_port::{Sink, Source, write_whole};
use replay_engine::{HartSet, engine_laws};
use std::alloc::Global;

// The exit status of a fault, or of none.
fn status(fault: Option<Fault>) -> u8
    ensures { result ≡ status_of fault }
{
    match fault {
        None => 0,
        Some(Fault::Usage) => 2,
        Some(Fault::ReadFault) => 3,
        Some(Fault::WriteFault) => 4,
        Some(Fault::Line(_)) => 5,
        Some(Fault::Sample(_, _)) => 6,
        Some(Fault::Memory) => 7,
    }
}

// Says a fault, if there is one; a failure to say it changes nothing.
fn say<N: Sink>(fault: Option<Fault>, notes: &mut N)
    ensures { SaidPart N.gained notes.old notes.new (said_if fault) (N.faults notes.old) (N.faults notes.new) }
{
    match fault {
        Some(fault) => {
            let line = line_of(fault);
            let _ = write_whole(notes, line.as_slice());
        }
        None => {}
    }
}

/// Does what the words ask for, which are the arguments after the program's name.
///
/// `run` reads a schedule from `source`, performs each command on the harts before the next is
/// read, and writes the samples to `sink`. `show HEX` and `show HEX BRANCH` read samples of a layout
/// and write their text, each when it was read whole. `demo N` performs N turns of a schedule that
/// is made and not read, and writes one line of what its samples come to.
///
/// What is said of a fault goes to `notes`; a failure of `notes` changes neither the status nor the
/// output. Memory is asked for under `run` and `demo` alone, and before the first command.
pub fn ctrsim<S: Source, K: Sink, N: Sink, H: HartSet>(
    alloc: Global,
    words: &[String],
    source: &mut S,
    sink: &mut K,
    notes: &mut N,
    harts: &mut H,
) -> Outcome
    requires { H.fresh harts.old }
    ensures status { result.status ≡ status_of result.fault }

    // What the words ask for was done. Of `run` this is the headline: without a fault all input is
    // an accepted schedule, and the sink gained the bytes of all its samples, in order, and nothing
    // else; each is the sample of its task's lone run, whatever other tasks and moves came between;
    // and the harts are what the commands make of them. With a fault, what was read, written and
    // performed before it. Of `show`, the samples that were read, and their texts, which the sink
    // gained. Of `demo`, what the samples of the turns come to.
    ensures does { (word : Word) → IsAsked words.now word → Does word (H.tells harts.old)
        (S.left source.old) (S.left source.new) K.gained sink.old sink.new (H.held harts.new)
        result.fault }

    // Whatever the harts are: what `run` wrote, and `demo` counted, was read on them in the commands
    // that were performed there, one after the other, and nothing else; and `show` leaves them.
    ensures on_harts { (word : Word) → IsAsked words.now word → DoesOnHarts H.performed word
        K.gained harts.old harts.new sink.old sink.new result.fault }

    // `demo` reads nothing.
    ensures source_stays { (word : Word) → IsAsked words.now word →
        LeavesSource word source.old source.new }

    // Other words come exactly to this, and touch nothing.
    ensures usage { (result.fault ≡ Some Fault.Usage) ↔ (IsKnown words.now → ⊥) }
    ensures untouched { (IsKnown words.now → ⊥) → (source.new ≡ source.old)
        × (sink.new ≡ sink.old) × (harts.new ≡ harts.old) }

    // A failure has a cause: a count of faults that rose in this call.
    ensures read_cause { result.fault ≡ Some Fault.ReadFault →
        Rose (S.faults source.old) (S.faults source.new) }
    ensures write_cause { result.fault ≡ Some Fault.WriteFault →
        Rose (K.faults sink.old) (K.faults sink.new) }

    // Each comes wherever its cause is there, but for want of memory and for counts that rose.
    ensures complete { (word : Word) → IsAsked words.now word → Completes word (H.tells harts.old)
        (Rose (S.faults source.old) (S.faults source.new) → ⊥)
        (Rose (K.faults sink.old) (K.faults sink.new) → ⊥) (S.left source.old) result.fault }

    // The text of the fault, or of it what the notes took; nothing where there is none.
    ensures notes { SaidPart N.gained notes.old notes.new (said_if result.fault)
        (N.faults notes.old) (N.faults notes.new) }
{
    engine_laws();
    let fault = command(alloc, words, source, sink, harts);
    say(fault, notes);
    Outcome {
        status: status(fault),
        fault,
    }
}
