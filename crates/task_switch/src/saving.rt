//! What a task takes with it when it leaves a hart.

ghost use Rattle.std.specs.Prelude.{◌≡◌, ◌≤◌, ◌+◌, ◌*◌, ◌^◌, take, length};
ghost use Rattle.ctr_csrs.specs.Depths.{entries_of};
ghost use Rattle.task_switch.specs.Costs.{save_cost};
ghost use Rattle.task_switch.specs.SaveArea.{area_of, unit_in, IsWhole};
ghost use Rattle.task_switch.specs.WhilePassing.{passed, with_last_select};

use crate::entry::{read_depth, read_entry};
use crate::save_area::SaveArea;
use crate::slots::Slots;
use ctr_csrs::entries;
use indirect_regs::{CtrPort, PortReg};

/// Saves the unit behind a port, in 5 accesses and 4 for each entry. All of the unit stays but the select, which is left
/// at the last entry.
pub fn save<P: CtrPort>(port: &mut P, area: &mut SaveArea)
    requires { P.count port.old ≤ 2 ^ 62 }
    ensures area { area.new ≡ area_of (P.unit port.old) }
    ensures holds { unit_in area.new ≡ P.unit port.old }
    ensures whole { IsWhole area.new }
    ensures unit { P.unit port.new ≡ with_last_select (P.unit port.old) }
    ensures count { P.count port.new
        ≡ P.count port.old + save_cost (entries_of (P.unit port.old).stack.depth) }
    ensures rest { P.same_rest port.old port.new }
{
    area.depth = read_depth(port);
    area.m = port.get(PortReg::Mctrctl);
    area.vs = port.get(PortReg::Vsctrctl);
    area.status = port.get(PortReg::Status);
    area.select = port.get(PortReg::Select);
    read_entries(port, entries(area.depth), &mut area.slots);
}

// Reads as many entries from the youngest on, in 4 accesses each.
fn read_entries<P: CtrPort>(port: &mut P, number: u16, slots: &mut Slots)
    requires room { P.count port.old ≤ 2 ^ 62 + 8 }
    requires all { number ≤ length (P.unit port.old).stack.slots }
    requires small { number ≤ 256 }
    ensures slots { slots.new ≡ take number (P.unit port.old).stack.slots }
    ensures unit { P.unit port.new ≡ passed number (P.unit port.old) }
    ensures count { P.count port.new ≡ P.count port.old + 4 * number }
    ensures rest { P.same_rest port.old port.new }
{
    slots.clear();
    for i in 0..number {
        let slot = read_entry(port, i);
        slots.push(slot);
    }
}
