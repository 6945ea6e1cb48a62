//! A record store that keeps its entries in their order: a plain list.

ghost use Rattle.std.specs.Prelude.{◌≡◌, ◌<◌, ◌≤◌, ◌-◌, ◌∷◌, length, take};
ghost use Rattle.ctr_buffer.specs.Stack.{turned_slots};

use crate::slot::{Slot, zeros};
use crate::store::CtrStore;
use ctr_csrs::{Depth, entries};
use std::marker::Model;

// Puts a slot first and loses the last.
fn put_first(slots: &mut [Slot], s: Slot)
    requires { 0 < length slots.old }
    ensures { slots.new ≡ s ∷ take (length slots.old - 1) slots.old }
{
    slots.rotate_right(1);
    slots[0] = s;
}

// Puts first the slot that a pointer at `new` makes the youngest, where one at `old` stood.
fn turn(slots: &mut [Slot], old: usize, new: usize)
    requires old_within { old < length slots.old }
    requires new_within { new < length slots.old }
    requires small { length slots.old ≤ 256 }
    ensures { slots.new ≡ turned_slots (length slots.old) old new slots.old }
{
    let back = (old + slots.len() - new) % slots.len();
    slots.rotate_left(back);
}

/// The plain store: the slots lie in an array in their order, the youngest first, and each push and pop moves them all.
#[derive(Drop)]
pub struct ListStore {
    slots: [Slot; 256],
    depth: Depth,
    wrptr: u8,
}

// The array's first slots, as many as the depth says, are the store's.
impl Model for ListStore {
    ghost use Rattle.std.specs.Prelude.{◌≡◌, ◌<◌, length, take};
    ghost use Rattle.ctr_csrs.specs.Depths.{entries_of};
    ghost use Rattle.ctr_buffer.specs.Stack.{Stack};

    ghost Value = { Stack };

    ghost view = { λ s. record { depth = s.depth; slots = take (entries_of s.depth) s.slots; pointer = s.wrptr } };

    ghost invariant = { λ s. (s.wrptr < entries_of s.depth) × (length s.slots ≡ 256) };
}

impl CtrStore for ListStore {
    ghost means = { λ s. s };

    fn fresh(depth: Depth) -> Self {
        ListStore {
            slots: zeros(),
            depth,
            wrptr: 0,
        }
    }

    fn depth(&self) -> Depth {
        self.depth
    }

    fn wrptr(&self) -> u8 {
        self.wrptr
    }

    fn slot(&self, i: u16) -> Slot {
        self.slots[usize::from(i)]
    }

    fn set_slot(&mut self, i: u16, s: Slot) {
        self.slots[usize::from(i)] = s;
    }

    fn push(&mut self, s: Slot) {
        let size = entries(self.depth);
        put_first(&mut self.slots[..usize::from(size)], s);
        self.wrptr = ((u16::from(self.wrptr) + 1) % size) as u8;
    }

    fn pop(&mut self) {
        let size = entries(self.depth);
        self.slots[0] = self.slots[0].unlinked();
        self.slots[..usize::from(size)].rotate_left(1);
        self.wrptr = ((u16::from(self.wrptr) + size - 1) % size) as u8;
    }

    fn swap(&mut self, s: Slot) {
        self.slots[0] = s;
    }

    fn clear(&mut self) {
        *self = ListStore {
            slots: zeros(),
            depth: self.depth,
            wrptr: self.wrptr,
        };
    }

    fn set_wrptr(&mut self, w: u8) {
        let size = usize::from(entries(self.depth));
        turn(
            &mut self.slots[..size],
            usize::from(self.wrptr),
            usize::from(w),
        );
        self.wrptr = w;
    }

    fn set_depth(&mut self, d: Depth) {
        if entries(d) != entries(self.depth) {
            *self = <ListStore as CtrStore>::fresh(d);
        }
    }
}
