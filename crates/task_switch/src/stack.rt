//! The entries with V, read through a port.

ghost use Rattle.std.specs.Prelude.{◌≡◌, ◌≤◌, ◌<◌, ◌+◌, ◌*◌, ◌^◌, ◌++◌, ◌∷◌, [], take, length};
ghost use Rattle.ctr_csrs.specs.Depths.{entries_of};
ghost use Rattle.ctr_buffer.specs.Entry.{valid_entries};
ghost use Rattle.task_switch.specs.Costs.{read_cost};
ghost use Rattle.task_switch.specs.WhilePassing.{passed};

use crate::entry::{read_depth, read_entry};
use crate::slots::Slots;
use ctr_buffer::Slot;
use ctr_csrs::entries;
use indirect_regs::{CtrPort, PortReg};

/// The entries that hold a transfer, those with V=1, youngest first, in 3 accesses and 4 for each entry of the depth. The
/// unit is as before.
pub fn read_stack<P: CtrPort>(port: &mut P) -> Slots
    requires { P.count port.old ≤ 2 ^ 62 }
    ensures slots { result ≡ valid_entries (P.unit port.old).stack.slots }
    ensures unit { P.unit port.new ≡ P.unit port.old }
    ensures count { P.count port.new
        ≡ P.count port.old + read_cost (entries_of (P.unit port.old).stack.depth) }
    ensures rest { P.same_rest port.old port.new }
{
    let mut slots = Slots::new();
    read_stack_into(port, &mut slots);
    slots
}

/// Makes slots those that [`read_stack`] answers, whatever they were, in as many accesses. They are
/// read in their place, so a caller that keeps it from one reading to the next moves none of them.
pub fn read_stack_into<P: CtrPort>(port: &mut P, slots: &mut Slots)
    requires { P.count port.old ≤ 2 ^ 62 }
    ensures slots { slots.new ≡ valid_entries (P.unit port.old).stack.slots }
    ensures unit { P.unit port.new ≡ P.unit port.old }
    ensures count { P.count port.new
        ≡ P.count port.old + read_cost (entries_of (P.unit port.old).stack.depth) }
    ensures rest { P.same_rest port.old port.new }
{
    let depth = read_depth(port);
    let select = port.get(PortReg::Select);
    read_valid(port, entries(depth), slots);
    port.set(PortReg::Select, select);
}

// Reads as many entries from the youngest on, in 4 accesses each, and keeps those that hold a transfer.
fn read_valid<P: CtrPort>(port: &mut P, number: u16, slots: &mut Slots)
    requires room { P.count port.old ≤ 2 ^ 62 + 8 }
    requires all { number ≤ length (P.unit port.old).stack.slots }
    requires small { number ≤ 256 }
    ensures slots { slots.new ≡ valid_entries (take number (P.unit port.old).stack.slots) }
    ensures unit { P.unit port.new ≡ passed number (P.unit port.old) }
    ensures count { P.count port.new ≡ P.count port.old + 4 * number }
    ensures rest { P.same_rest port.old port.new }
{
    slots.clear();
    for i in 0..number {
        let slot = read_entry(port, i);
        keep(slots, slot);
    }
}

// Adds an entry if it holds a transfer.
fn keep(slots: &mut Slots, slot: Slot)
    requires { length slots.old < 256 }
    ensures slots { slots.new ≡ slots.old ++ valid_entries (slot ∷ []) }
    ensures most { length slots.new ≤ length slots.old + 1 }
{
    if slot.is_valid() {
        slots.push(slot);
    }
}
