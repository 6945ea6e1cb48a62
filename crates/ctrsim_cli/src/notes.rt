//! What is said of a fault.

ghost use Rattle.std.specs.Prelude.{◌≡◌, ◌+◌, ◌≤◌, ◌++◌, length};
ghost use Rattle.arrayvec.specs.ArrayVec.{array_vec_len};
ghost use Rattle.ctrsim_cli.specs.Fault.{place_text, broken_text, reason_text, text_of, said};
ghost use Rattle.ctrsim_cli.specs.SampleText.{dec};

use crate::bytes::{put, put_decimal};
use crate::fault::Fault;
use arrayvec::ArrayVec;
use perf_sample::{Place, SampleFault};
use sched_text::Reason;

/// Room for the line of a fault: at most 71 bytes are written.
pub type Note = ArrayVec<u8, 128>;

// A word with the number of a branch.
fn put_branch_place(out: &mut Note, word: &[u8], number: u16)
    requires { array_vec_len out.old + length word.now + 20 ≤ 128 }
    ensures items { out.new.items ≡ out.old.items ++ word.now ++ dec number }
    ensures most { array_vec_len out.new ≤ array_vec_len out.old + length word.now + 20 }
{
    put(out, word);
    put_decimal(out, u64::from(number));
}

// The name of a field.
#[tactic(auto, unfolding(crate::specs::Fault::place_text))]
fn put_place(out: &mut Note, place: Place)
    requires { array_vec_len out.old ≤ 60 }
    ensures items { out.new.items ≡ out.old.items ++ place_text place }
    ensures most { array_vec_len out.new ≤ array_vec_len out.old + 26 }
{
    match place {
        Place::Identifier => put(out, b"identifier"),
        Place::Ip => put(out, b"ip"),
        Place::Tid => put(out, b"tid"),
        Place::Time => put(out, b"time"),
        Place::Addr => put(out, b"addr"),
        Place::Id => put(out, b"id"),
        Place::StreamId => put(out, b"stream_id"),
        Place::Cpu => put(out, b"cpu"),
        Place::Period => put(out, b"period"),
        Place::Nr => put(out, b"nr"),
        Place::HwIndex => put(out, b"hw_index"),
        Place::From(number) => put_branch_place(out, b"from ", number),
        Place::To(number) => put_branch_place(out, b"to ", number),
        Place::Flags(number) => put_branch_place(out, b"flags ", number),
    }
}

// Why bytes are no sample.
#[tactic(auto, unfolding(crate::specs::Fault::broken_text))]
fn put_broken(out: &mut Note, fault: SampleFault)
    requires { array_vec_len out.old ≤ 48 }
    ensures items { out.new.items ≡ out.old.items ++ broken_text fault }
    ensures most { array_vec_len out.new ≤ array_vec_len out.old + 45 }
{
    match fault {
        SampleFault::Header => put(out, b"header cut"),
        SampleFault::Kind => put(out, b"not a sample"),
        SampleFault::Size => put(out, b"wrong size"),
        SampleFault::Short(place) => {
            put(out, b"cut in ");
            put_place(out, place);
        }
        SampleFault::CpuReserved => put(out, b"reserved cpu bytes"),
        SampleFault::Count => put(out, b"too many branches"),
        SampleFault::FlagReserved(number) => {
            put_branch_place(out, b"reserved flags in branch ", number);
        }
        SampleFault::TooMany => put(out, b"too many samples"),
        SampleFault::ReadFault => put(out, b"cannot read"),
    }
}

// Why a line is refused.
#[tactic(auto, unfolding(crate::specs::Fault::reason_text))]
fn put_reason(out: &mut Note, reason: Reason)
    requires { array_vec_len out.old ≤ 48 }
    ensures items { out.new.items ≡ out.old.items ++ reason_text reason }
    ensures most { array_vec_len out.new ≤ array_vec_len out.old + 23 }
{
    match reason {
        Reason::LongLine => put(out, b"too long"),
        Reason::Cut => put(out, b"input ended"),
        Reason::NotWord => put(out, b"unexpected words"),
        Reason::NotNumber => put(out, b"not a number"),
        Reason::Range => put(out, b"out of range"),
        Reason::TooMany => put(out, b"too many"),
        Reason::NoTask => put(out, b"no such task"),
        Reason::NoHart => put(out, b"no such hart"),
        Reason::NotResident => put(out, b"task is on no hart"),
        Reason::EmptyHart => put(out, b"hart has no task"),
        Reason::IrqOrder => put(out, b"interrupts out of order"),
        Reason::Trailing => put(out, b"input goes on"),
    }
}

// The text of a fault.
fn put_text(out: &mut Note, fault: Fault)
    requires { array_vec_len out.old ≤ 8 }
    ensures items { out.new.items ≡ out.old.items ++ text_of fault }
    ensures most { array_vec_len out.new ≤ array_vec_len out.old + 80 }
{
    match fault {
        Fault::Usage => put(out, b"usage: ctrsim run | show HEX [BRANCH] | demo N"),
        Fault::ReadFault => put(out, b"cannot read"),
        Fault::WriteFault => put(out, b"cannot write"),
        Fault::Memory => put(out, b"no memory"),
        Fault::Line(fault) => {
            put(out, b"line ");
            put_decimal(out, u64::from(fault.line));
            put(out, b": ");
            put_reason(out, fault.reason);
        }
        Fault::Sample(offset, fault) => {
            put(out, b"sample at ");
            put_decimal(out, offset);
            put(out, b": ");
            put_broken(out, fault);
        }
    }
}

/// The line that is said of a fault.
#[tactic(auto, unfolding(crate::specs::Fault::said))]
pub fn line_of(fault: Fault) -> Note
    ensures { result.items ≡ said fault }
{
    let mut out = Note::new();
    put(&mut out, b"ctrsim: ");
    put_text(&mut out, fault);
    put(&mut out, b"\n");
    out
}
