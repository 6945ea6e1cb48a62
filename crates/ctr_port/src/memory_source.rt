// A source over bytes in memory.
ghost use Rattle.std.specs.Prelude.{◌≡◌, ◌↔◌, ℕ, ◌<◌, ◌≤◌, IsTrue, Some, None, All, drop, length};
ghost use Rattle.std.specs.Prelude.{min, IfOk};
ghost use Rattle.ctr_port.specs.Counts.{Rose};
ghost use Rattle.ctr_port.specs.Source.{GivesNext, GivesField};
ghost use Rattle.ctr_port.specs.Script.{limit, after, got_of, reads_failed};

use crate::ends::{Got, NoMemory};
use crate::script::Script;
use crate::source::Source;
use std::alloc::Global;

/// A source over bytes in memory, which gives them in pieces and fails as it was told to.
///
/// Calls are numbered from 0. Call k gives as many bytes as the least of three numbers: the length
/// of the buffer, what is left, and `pieces[k mod pieces.len()]`. A call whose number is in
/// `failing` answers `Failed`.
#[derive(Drop)]
pub struct MemSource {
    bytes: Vec<u8>,
    at: usize,
    script: Script,
    faults: u64,
    ghost within: { at ≤ length bytes.items },
}

impl MemSource {
    ghost use Rattle.ctr_port.specs.MemorySource.{left_of, source_plan, source_faults};

    /// A source that has all of `bytes` left. No number in `pieces` is 0; no `pieces` sets no
    /// limit.
    pub fn new(
        alloc: Global,
        bytes: &[u8],
        pieces: &[usize],
        failing: &[u64],
    ) -> Result<MemSource, NoMemory>
        requires { All (λ p. 0 < p) pieces.now }
        ensures left { IfOk result (λ s. left_of s ≡ bytes.now) }
        ensures plan { IfOk result (λ s. source_plan s
            ≡ record { pieces = pieces.now; failing = failing.now; call = 0 }) }
        ensures faults { IfOk result (λ s. source_faults s ≡ 0) }
    {
        Ok(MemSource {
            bytes: Vec::from_slice(alloc, bytes)?,
            at: 0,
            script: Script::new(alloc, pieces, failing)?,
            faults: 0,
        })
    }

    // Whether a read into so much room gives the eight bytes of a field, since nothing was told of
    // calls and pieces.
    #[inline(always)]
    fn gives_field(&self, room: usize) -> bool
        ensures { IsTrue result ↔ GivesField room (left_of self.now) (source_plan self.now) }
    {
        room == 8 && self.bytes.len() - self.at >= 8 && self.script.is_free()
    }

    // Gives the next eight bytes. They pass through an array of their own, which overlaps neither
    // side, so that they are moved as one word.
    #[inline(always)]
    fn give_field(&mut self, buf: &mut [u8])
        requires { GivesField (length buf.old) (left_of self.old) (source_plan self.old) }
        ensures gives { GivesNext (Some (left_of self.old)) (Some (left_of self.new))
            (Got.Bytes 8) buf.new }
        ensures plan { source_plan self.new ≡ after (source_plan self.old) }
        ensures faults { source_faults self.new ≡ source_faults self.old }
    {
        let mut field = [0; 8];
        field.copy_from_slice(&self.bytes[self.at..self.at + 8]);
        buf.copy_from_slice(&field);
        self.at += 8;
        self.script.pass();
    }

    // A read of any length, by whatever was told of calls and pieces.
    #[inline(never)]
    fn read_piece(&mut self, buf: &mut [u8]) -> Got
        requires { 0 < length buf.old }
        ensures gives { GivesNext (Some (left_of self.old)) (Some (left_of self.new))
            result buf.new }
        ensures later { source_faults self.old ≤ source_faults self.new }
        ensures cause { result ≡ Got.Failed
            → Rose (source_faults self.old) (source_faults self.new) }
        ensures exact { result ≡ got_of (limit (source_plan self.old)
            (min (length buf.old) (length (left_of self.old)))) }
        ensures plan { source_plan self.new ≡ after (source_plan self.old) }
        ensures count { source_faults self.new ≡ reads_failed result (source_faults self.old) }
    {
        let left = self.bytes.len() - self.at;
        match self.script.next(left.min(buf.len())) {
            None => {
                self.faults = self.faults.saturating_add(1);
                Got::Failed
            }
            Some(0) => Got::End,
            Some(count) => {
                buf[..count].copy_from_slice(&self.bytes[self.at..self.at + count]);
                self.at += count;
                Got::Bytes(count)
            }
        }
    }
}

impl Source for MemSource {
    ghost use Rattle.ctr_port.specs.MemorySource.{left_of, source_plan, source_faults};

    ghost left = { λ s. Some (left_of s) };

    ghost faults = { source_faults };

    // Readers of samples take most of their bytes in fields of eight. Every other read is never
    // inlined and called last, so that nothing is kept across a call here.
    #[inline(never)]
    fn read(&mut self, buf: &mut [u8]) -> Got
        requires { 0 < length buf.old }
        ensures gives { GivesNext (Some (left_of self.old)) (Some (left_of self.new))
            result buf.new }
        ensures later { source_faults self.old ≤ source_faults self.new }
        ensures cause { result ≡ Got.Failed
            → Rose (source_faults self.old) (source_faults self.new) }
        ensures exact { result ≡ got_of (limit (source_plan self.old)
            (min (length buf.old) (length (left_of self.old)))) }
        ensures plan { source_plan self.new ≡ after (source_plan self.old) }
        ensures count { source_faults self.new ≡ reads_failed result (source_faults self.old) }
    {
        if self.gives_field(buf.len()) {
            self.give_field(buf);
            return Got::Bytes(8);
        }
        self.read_piece(buf)
    }
}
