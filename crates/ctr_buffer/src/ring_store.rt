//! A record store that moves no entry: a ring.

ghost use Rattle.std.specs.Prelude.{◌≡◌, ◌<◌, ◌≤◌, ◌+◌, ◌%◌};
ghost use Rattle.ctr_buffer.specs.Ring.{place_of};

use crate::slot::{Slot, zeros};
use crate::store::CtrStore;
use ctr_csrs::{Depth, entries};
use std::marker::Model;

// The physical entry that holds entry `i` of a ring of this size.
#[inline(always)]
fn place(size: u16, wrptr: u8, i: u16) -> usize
    requires pointer_within { wrptr < size }
    requires index_within { i < size }
    ensures is { result ≡ place_of size wrptr i }
    ensures within { result < size }
{
    let (size, next, i) = (usize::from(size), usize::from(wrptr), usize::from(i));
    if i < next {
        next - 1 - i
    } else {
        next + size - 1 - i
    }
}

// The pointer after a push.
#[inline(always)]
fn stepped(size: u16, wrptr: u8) -> u8
    requires within { wrptr < size }
    requires small { size ≤ 256 }
    ensures { result ≡ (wrptr + 1) % size }
{
    let next = u16::from(wrptr) + 1;
    if next < size { next as u8 } else { 0 }
}

/// The fast store: a ring in an array of 256 physical entries (RISC-V Control Transfer Records 1.0, "Entry Registers").
/// Slot `i` is physical entry `(WRPTR - 1 - i)` modulo the depth, so the youngest lies just before WRPTR and the oldest at
/// it. Physical entries from the depth up are zero. A push, a pop, a swap and a write of a slot change one physical entry,
/// and a write of WRPTR none; only `fresh`, `clear` and another depth write them all.
#[derive(Drop)]
pub struct RingStore {
    ring: [Slot; 256],
    depth: Depth,
    wrptr: u8,
}

// Clauses see the entries in their order, the youngest first.
impl Model for RingStore {
    ghost use Rattle.ctr_buffer.specs.Stack.{Stack};
    ghost use Rattle.ctr_buffer.specs.Ring.{IsRing, ring_stack};

    ghost Value = { Stack };

    ghost view = { λ s. ring_stack s.depth s.wrptr s.ring };

    ghost invariant = { λ s. IsRing s.depth s.wrptr s.ring };
}

impl CtrStore for RingStore {
    ghost means = { λ s. s };

    fn fresh(depth: Depth) -> Self {
        RingStore {
            ring: zeros(),
            depth,
            wrptr: 0,
        }
    }

    #[inline(always)]
    fn depth(&self) -> Depth {
        self.depth
    }

    fn wrptr(&self) -> u8 {
        self.wrptr
    }

    #[inline(always)]
    fn slot(&self, i: u16) -> Slot {
        self.ring[place(entries(self.depth), self.wrptr, i)]
    }

    #[inline(always)]
    fn set_slot(&mut self, i: u16, s: Slot) {
        self.ring[place(entries(self.depth), self.wrptr, i)] = s;
    }

    #[inline(always)]
    fn push(&mut self, s: Slot) {
        self.ring[usize::from(self.wrptr)].become_slot(s);
        self.wrptr = stepped(entries(self.depth), self.wrptr);
    }

    fn pop(&mut self) {
        let first = place(entries(self.depth), self.wrptr, 0);
        self.ring[first] = self.ring[first].unlinked();
        self.wrptr = first as u8;
    }

    fn swap(&mut self, s: Slot) {
        self.ring[place(entries(self.depth), self.wrptr, 0)] = s;
    }

    fn clear(&mut self) {
        *self = RingStore {
            ring: zeros(),
            depth: self.depth,
            wrptr: self.wrptr,
        };
    }

    fn set_wrptr(&mut self, w: u8) {
        self.wrptr = w;
    }

    fn set_depth(&mut self, d: Depth) {
        if entries(d) != entries(self.depth) {
            *self = <RingStore as CtrStore>::fresh(d);
        }
    }
}
