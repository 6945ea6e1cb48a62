//! What a hart gets when a task comes to it.

ghost use Rattle.std.specs.Prelude.{◌≡◌, ◌≤◌, ◌+◌, ◌*◌, ◌^◌, length, replicate};
ghost use Rattle.ctr_csrs.specs.Depths.{entries_of};
ghost use Rattle.ctr_csrs.specs.StatusFigure.{pointer_in, frozen_in};
ghost use Rattle.ctr_buffer.specs.Entry.{zero_entry};
ghost use Rattle.task_switch.specs.Costs.{restore_cost};
ghost use Rattle.task_switch.specs.SaveArea.{unit_in, IsWhole};
ghost use Rattle.task_switch.specs.WhilePassing.{filled};

use crate::entry::write_entry;
use crate::save_area::SaveArea;
use ctr_buffer::Slot;
use ctr_csrs::{Depth, depth_code};
use indirect_regs::{CtrPort, PortReg};

/// Makes the unit behind a port the one that an area holds, whatever it was, in 6 accesses and 4 for each entry.
pub fn restore<P: CtrPort>(port: &mut P, area: &SaveArea)
    requires room { P.count port.old ≤ 2 ^ 62 }
    requires whole { IsWhole area.now }
    ensures unit { P.unit port.new ≡ unit_in area.now }
    ensures count { P.count port.new ≡ P.count port.old + restore_cost (entries_of area.now.depth) }
    ensures rest { P.same_rest port.old port.new }
{
    empty_to(port, area.depth);
    port.set(PortReg::Mctrctl, area.m);
    port.set(PortReg::Vsctrctl, area.vs);
    point_to(port, area.status);
    write_entries(port, area.slots.items());
    port.set(PortReg::Select, area.select);
}

// Gives the buffer a depth and zero entries, in 2 accesses. The pointer is 0 or as before.
fn empty_to<P: CtrPort>(port: &mut P, depth: Depth)
    requires { P.count port.old ≤ 2 ^ 62 }
    ensures unit { P.unit port.new ≡ record (P.unit port.old) {
      stack = record {
        depth = depth;
        slots = replicate (entries_of depth) zero_entry;
        pointer = (P.unit port.new).stack.pointer;
      };
    } }
    ensures count { P.count port.new ≡ P.count port.old + 2 }
    ensures rest { P.same_rest port.old port.new }
{
    port.set(PortReg::Depth, depth_code(depth));
    port.clear();
}

// Writes the status, in 1 access. The entries move as the pointer does.
fn point_to<P: CtrPort>(port: &mut P, status: u64)
    requires room { P.count port.old ≤ 2 ^ 62 + 2000 }
    requires full { length (P.unit port.old).stack.slots
        ≡ entries_of (P.unit port.old).stack.depth }
    ensures unit { P.unit port.new ≡ record (P.unit port.old) {
      frozen = frozen_in status;
      stack = record {
        depth = (P.unit port.old).stack.depth;
        slots = (P.unit port.new).stack.slots;
        pointer = pointer_in status (P.unit port.old).stack.depth;
      };
    } }
    ensures full { length (P.unit port.new).stack.slots ≡ entries_of (P.unit port.old).stack.depth }
    ensures count { P.count port.new ≡ P.count port.old + 1 }
    ensures rest { P.same_rest port.old port.new }
{
    port.set(PortReg::Status, status);
}

// Writes every entry of the buffer, in 4 accesses each.
fn write_entries<P: CtrPort>(port: &mut P, slots: &[Slot])
    requires room { P.count port.old ≤ 2 ^ 62 + 8 }
    requires small { length slots.now ≤ 256 }
    requires all { length slots.now ≡ entries_of (P.unit port.old).stack.depth }
    requires full { length (P.unit port.old).stack.slots
        ≡ entries_of (P.unit port.old).stack.depth }
    ensures unit { P.unit port.new ≡ filled (length slots.now) slots.now (P.unit port.old) }
    ensures count { P.count port.new ≡ P.count port.old + 4 * length slots.now }
    ensures rest { P.same_rest port.old port.new }
{
    let mut i = 0;
    for slot in slots {
        write_entry(port, i, *slot);
        i += 1;
    }
}
