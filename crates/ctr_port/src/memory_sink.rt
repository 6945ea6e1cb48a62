// A sink over room in memory.
ghost use Rattle.std.specs.Prelude.{◌≡◌, ℕ, ◌<◌, ◌≤◌, ◌-◌, [], ◌++◌, All, take, length, min, IfOk};
ghost use Rattle.ctr_port.specs.Counts.{Rose};
ghost use Rattle.ctr_port.specs.Sink.{TakesFront};
ghost use Rattle.ctr_port.specs.Script.{limit, after, put_of, writes_failed};

use crate::ends::{NoMemory, Put};
use crate::script::Script;
use crate::sink::Sink;
use std::alloc::Global;

/// A sink over room in memory, which takes bytes in pieces and fails as it was told to.
///
/// All room is made at once, so a write grows nothing. Calls are numbered from 0. Call k takes as
/// many bytes as the least of three numbers: the length of the piece, the room that is free, and
/// `pieces[k mod pieces.len()]`. A call whose number is in `failing`, and one without room, answers
/// `Failed`.
#[derive(Drop)]
pub struct MemSink {
    bytes: Vec<u8>,
    len: usize,
    script: Script,
    faults: u64,
    ghost within: { len ≤ length bytes.items },
}

impl MemSink {
    ghost use Rattle.ctr_port.specs.MemorySink.{held_of, room_of, sink_plan, sink_faults};

    /// An empty sink with so many bytes of room. No number in `pieces` is 0; no `pieces` sets no
    /// limit.
    pub fn new(
        alloc: Global,
        room: usize,
        pieces: &[usize],
        failing: &[u64],
    ) -> Result<MemSink, NoMemory>
        requires { All (λ p. 0 < p) pieces.now }
        ensures held { IfOk result (λ s. held_of s ≡ []) }
        ensures room { IfOk result (λ s. room_of s ≡ room) }
        ensures plan { IfOk result (λ s. sink_plan s
            ≡ record { pieces = pieces.now; failing = failing.now; call = 0 }) }
        ensures faults { IfOk result (λ s. sink_faults s ≡ 0) }
    {
        Ok(MemSink {
            bytes: vec![in alloc; 0; room]?,
            len: 0,
            script: Script::new(alloc, pieces, failing)?,
            faults: 0,
        })
    }

    /// The bytes that were appended, in order.
    pub fn bytes(&self) -> &[u8]
        ensures { result.now ≡ held_of self.now }
    {
        &self.bytes[..self.len]
    }
}

impl Sink for MemSink {
    ghost use Rattle.ctr_port.specs.MemorySink.{held_of, room_of, sink_plan, sink_faults};
    ghost use Rattle.ctr_port.specs.MemorySink.{held_nothing, held_then};

    ghost gained = { λ a x b. held_of b ≡ held_of a ++ x };

    ghost faults = { sink_faults };

    ghost gained_nothing = { λ a. held_nothing (held_of a) };

    ghost gained_then = { λ a b c x y p q. held_then (held_of a) (held_of b) (held_of c) x y p q };

    fn write(&mut self, piece: &[u8]) -> Put
        requires { 0 < length piece.now }
        ensures takes { TakesFront (λ a x b. held_of b ≡ held_of a ++ x)
            self.old self.new result piece.now }
        ensures later { sink_faults self.old ≤ sink_faults self.new }
        ensures cause { result ≡ Put.Failed → Rose (sink_faults self.old) (sink_faults self.new) }
        ensures exact { result
            ≡ put_of (limit (sink_plan self.old) (min (length piece.now) (room_of self.old))) }
        ensures plan { sink_plan self.new ≡ after (sink_plan self.old) }
        ensures count { sink_faults self.new ≡ writes_failed result (sink_faults self.old) }
    {
        let room = self.bytes.len() - self.len;
        match self.script.next(room.min(piece.len())) {
            None | Some(0) => {
                self.faults = self.faults.saturating_add(1);
                Put::Failed
            }
            Some(count) => {
                self.bytes[self.len..self.len + count].copy_from_slice(&piece[..count]);
                self.len += count;
                Put::Took(count)
            }
        }
    }
}
