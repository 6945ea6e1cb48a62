// Where bytes go.
ghost use Rattle.std.specs.Prelude.{◌≡◌, ℕ, ◌<◌, ◌≤◌, List, [], ◌++◌, length, OnOk, OnErr};
ghost use Rattle.ctr_port.specs.Counts.{Rose};
ghost use Rattle.ctr_port.specs.Sink.{TakesFront, GainsPart};

use crate::ends::{Put, WriteFault};

/// Where bytes go, in pieces of any length from 1.
pub trait Sink {
    // the second state is the first with these bytes appended; a sink that doesn't tell relates all
    // states
    ghost gained: { Self → List ℕ → Self → Type 0 };

    // how often a write has failed; it stays at 2^64 - 1 once it is there
    ghost faults: { Self → ℕ };

    /// Appends bytes from the front of `piece`, which isn't empty.
    fn write(&mut self, piece: &[u8]) -> Put
        requires { 0 < length piece.now }
        ensures takes { TakesFront gained self.old self.new result piece.now }
        ensures later { faults self.old ≤ faults self.new }
        ensures cause { result ≡ Put.Failed → Rose (faults self.old) (faults self.new) };

    ghost gained_nothing: { (a : Self) → gained a [] a };

    ghost gained_then: { (a b c : Self) (x y : List ℕ) → gained a x b → gained b y c → gained a (x ++ y) c };
}

/// Appends all bytes, in as many writes as the sink wants. Empty `bytes` need no call of the sink.
///
/// After a `WriteFault` a proper prefix of `bytes` was appended.
pub fn write_whole<K: Sink>(sink: &mut K, bytes: &[u8]) -> Result<(), WriteFault>
    ensures whole { OnOk result (K.gained sink.old bytes.now sink.new) }
    ensures part { OnErr result (GainsPart K.gained sink.old sink.new bytes.now) }
    ensures later { K.faults sink.old ≤ K.faults sink.new }
    ensures cause { OnErr result (Rose (K.faults sink.old) (K.faults sink.new)) }
    ensures nothing { bytes.now ≡ [] → sink.new ≡ sink.old }
{
    let mut at = 0;
    while at < bytes.len() {
        let (_, rest) = bytes.split_at(at);
        match sink.write(rest) {
            Put::Took(count) => at += count,
            Put::Failed => return Err(WriteFault),
        }
    }
    Ok(())
}
