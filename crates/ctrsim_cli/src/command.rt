//! What the words of a call ask for, done.

ghost use Rattle.std.specs.Prelude.{◌≡◌, ◌↔◌, ℕ, List, Some};
ghost use Rattle.ctrsim_cli.specs.Does.{Does, DoesOnHarts, LeavesSource};
ghost use Rattle.ctrsim_cli.specs.Performed.{ReadCause, WriteCause, fault_of};
ghost use Rattle.ctrsim_cli.specs.ShowEnds.{ShowEnds, ShowsBytes};
ghost use Rattle.ctrsim_cli.specs.Words.{IsAsked, IsKnown, IsWithin};
ghost use Rattle.ctrsim_cli.specs.declared.words.Word.{Word};

use crate::demo::demo;
use crate::fault::Fault;
use crate::running::run;
use crate::showing::{ShowFault, show};
use crate::words::{Word, word_of};
use ctr_port::{Sink, Source};
use perf_sample::{Layout, SampleFault};
use replay_engine::HartSet;
use std::alloc::Global;

// Which fault of the call a broken sample is.
fn broken(fault: SampleFault, offset: u64) -> Fault
    ensures { result ≡ fault_of fault offset }
{
    match fault {
        SampleFault::ReadFault => Fault::ReadFault,
        fault => Fault::Sample(offset, fault),
    }
}

// Shows samples until the input ends or breaks.
fn show_all<S: Source, K: Sink>(layout: Layout, source: &mut S, sink: &mut K) -> Option<Fault>
    ensures ends { ShowEnds K.gained layout (S.left source.old) (S.left source.new)
        sink.old sink.new result }
    ensures bytes { (bytes : List ℕ) → S.left source.old ≡ Some bytes →
        ShowsBytes K.gained layout bytes (S.left source.new) sink.old sink.new result }
    ensures read { ReadCause (S.faults source.old) (S.faults source.new) result }
    ensures write { WriteCause (K.faults sink.old) (K.faults sink.new) result }
{
    match show(layout, source, sink) {
        Ok(()) => None,
        Err(stop) => match stop {
            ShowFault::Sample(fault, offset) => Some(broken(fault, offset)),
            ShowFault::Write => Some(Fault::WriteFault),
        },
    }
}

// Does what one word asks for.
fn follow<S: Source, K: Sink, H: HartSet>(
    alloc: Global,
    word: Word,
    source: &mut S,
    sink: &mut K,
    harts: &mut H,
) -> Option<Fault>
    requires fresh { H.fresh harts.old }
    requires within { IsWithin word }
    ensures does { Does word (H.tells harts.old) (S.left source.old) (S.left source.new) K.gained
        sink.old sink.new (H.held harts.new) result }
    ensures on_harts { DoesOnHarts H.performed word K.gained harts.old harts.new sink.old sink.new
        result }
    ensures source_stays { LeavesSource word source.old source.new }
    ensures known { result ≡ Some Fault.Usage → ⊥ }
    ensures read { ReadCause (S.faults source.old) (S.faults source.new) result }
    ensures write { WriteCause (K.faults sink.old) (K.faults sink.new) result }
{
    match word {
        Word::Run => run::<S, H, K>(alloc, source, sink, harts),
        Word::Show(layout) => show_all(layout, source, sink),
        Word::Demo(turns) => demo::<H, K>(alloc, turns, sink, harts),
    }
}

/// Does what the words ask for.
pub fn command<S: Source, K: Sink, H: HartSet>(
    alloc: Global,
    words: &[String],
    source: &mut S,
    sink: &mut K,
    harts: &mut H,
) -> Option<Fault>
    requires { H.fresh harts.old }
    ensures does { (word : Word) → IsAsked words.now word → Does word (H.tells harts.old)
        (S.left source.old) (S.left source.new) K.gained sink.old sink.new (H.held harts.new)
        result }
    ensures on_harts { (word : Word) → IsAsked words.now word → DoesOnHarts H.performed word
        K.gained harts.old harts.new sink.old sink.new result }
    ensures source_stays { (word : Word) → IsAsked words.now word →
        LeavesSource word source.old source.new }
    ensures usage { (result ≡ Some Fault.Usage) ↔ (IsKnown words.now → ⊥) }
    ensures untouched { (IsKnown words.now → ⊥) → (source.new ≡ source.old)
        × (sink.new ≡ sink.old) × (harts.new ≡ harts.old) }
    ensures read { ReadCause (S.faults source.old) (S.faults source.new) result }
    ensures write { WriteCause (K.faults sink.old) (K.faults sink.new) result }
{
    match word_of(words) {
        None => Some(Fault::Usage),
        Some(word) => follow(alloc, word, source, sink, harts),
    }
}
