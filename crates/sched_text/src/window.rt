//! The bytes that a reader has in hand.

ghost use Rattle.std.specs.Prelude.{◌≡◌, ◌<◌, ◌≤◌, length, drop, []};
ghost use Rattle.ctr_port.specs.Counts.{Rose};
ghost use Rattle.sched_text.specs.Window.{Fills, IsAtMost};

use crate::limits::WINDOW;
use arrayvec::ArrayVec;
use ctr_port::{Got, Source};
use std::marker::Model;

/// Bytes that were read and not yet passed over. Contracts see the list of them.
#[derive(Drop)]
pub(crate) struct Window {
    bytes: ArrayVec<u8, WINDOW>,
    start: usize,
}

impl Model for Window {
    ghost use Rattle.std.specs.Prelude.{ℕ, List, ◌≤◌, length, drop};
    ghost use Rattle.sched_text.specs.declared.limits.TheConstants.{WINDOW};

    ghost Value = { List ℕ };

    ghost view = { λ w. drop w.start w.bytes.items };

    ghost invariant = { λ w. (w.start ≤ length w.bytes.items) × (length w.bytes.items ≤ WINDOW) };
}

impl Window {
    pub(crate) fn new() -> Self
        ensures { result ≡ [] }
    {
        Window {
            bytes: ArrayVec::new(),
            start: 0,
        }
    }

    /// The bytes in hand.
    pub(crate) fn bytes(&self) -> &[u8]
        ensures bytes { result.now ≡ self.now }
        ensures most { length self.now ≤ WINDOW }
    {
        self.bytes.as_slice().split_at(self.start).1
    }

    /// Passes over the first bytes.
    pub(crate) fn pass(&mut self, count: usize)
        requires { count ≤ length self.old }
        ensures { self.new ≡ drop count self.old }
    {
        self.start += count;
    }

    /// Reads once, at most so many bytes, as far as there is room.
    pub(crate) fn fill<S: Source>(&mut self, source: &mut S, most: usize) -> Got
        requires room { length self.old < WINDOW }
        requires some { 0 < most }
        ensures asks { IsAtMost most result }
        ensures fills { Fills (S.left source.old) (S.left source.new) self.old self.new result }
        ensures most { length self.new ≤ WINDOW }
        ensures later { S.faults source.old ≤ S.faults source.new }
        ensures cause { result ≡ Got.Failed → Rose (S.faults source.old) (S.faults source.new) }
    {
        let mut piece = [0u8; WINDOW];
        let room = most.min(WINDOW - self.bytes().len());
        let got = source.read(&mut piece[..room]);
        if let Got::Bytes(count) = got {
            let mut kept = ArrayVec::new();
            kept.try_extend_from_slice(self.bytes()).unwrap();
            kept.try_extend_from_slice(piece.split_at(count).0).unwrap();
            *self = Window {
                bytes: kept,
                start: 0,
            };
        }
        got
    }
}
