//! Entries that were read, youngest first.

ghost use Rattle.std.specs.Prelude.{◌≡◌, ◌<◌, ◌≤◌, [], ◌∷◌, ◌++◌, length, replicate};
ghost use Rattle.ctr_buffer.specs.Entry.{zero_entry};

use ctr_buffer::Slot;
use std::marker::Model;

// Zero slots, as many as there can be.
fn zero_slots() -> [Slot; 256]
    ensures { result ≡ replicate 256 zero_entry }
{
    [Slot {
        source: 0,
        target: 0,
        kind: 0,
    }; 256]
}

/// Up to 256 entries of a record buffer, youngest first. Contracts see the list of them.
#[derive(Debug, Drop)]
pub struct Slots {
    // The entries are the first of these. What lies behind them is left as it was, so that to remove
    // entries clears nothing.
    list: [Slot; 256],
    count: usize,
}

impl Model for Slots {
    ghost use Rattle.std.specs.Prelude.{List, ◌≡◌, ◌≤◌, length, take};
    ghost use Rattle.ctr_buffer.specs.Entry.{Entry};

    ghost Value = { List Entry };

    ghost view = { λ s. take s.count s.list };

    ghost invariant = { λ s. (s.count ≤ 256) × (length s.list ≡ 256) };
}

impl Slots {
    /// No entry.
    pub fn new() -> Self
        ensures { result ≡ [] }
    {
        Slots {
            list: zero_slots(),
            count: 0,
        }
    }

    /// Removes every entry.
    pub fn clear(&mut self)
        ensures { self.new ≡ [] }
    {
        self.count = 0;
    }

    /// The entries, youngest first.
    pub fn items(&self) -> &[Slot]
        ensures items { result.now ≡ self.now }
        ensures fits { length self.now ≤ 256 }
    {
        &self.list[..self.count]
    }

    /// Adds an entry that is older than those before it. There is room for 256.
    pub fn push(&mut self, slot: Slot)
        requires { length self.old < 256 }
        ensures { self.new ≡ self.old ++ slot ∷ [] }
    {
        self.list[self.count] = slot;
        self.count += 1;
    }
}
