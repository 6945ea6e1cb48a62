//! The registers by number, those of the unit among them.

ghost use Rattle.std.specs.Prelude.{◌≡◌, ◌≤◌, ◌<◌};
ghost use Rattle.indirect_regs.specs.Unit.{after_any};
ghost use Rattle.indirect_regs.specs.Ports.{names_entry, part_written};
ghost use Rattle.indirect_regs.specs.Table.{row_of, part_read, unused_read};

use crate::port::PortReg;
use crate::unit::CtrUnit;
use ctr_buffer::{CtrStore, Part};
use ctr_csrs::{legal_s, view_s};
use guest_modes::{Priv, is_register, read_csr, write_csr};

// What a register reads as, or `None` where it is one of an entry and its select names none.
pub(crate) fn read_register<B: CtrStore>(unit: &CtrUnit<B>, p: &Priv, number: u16) -> Option<u64>
    ensures { result ≡ (row_of number).reads unit.now p.now }
{
    match number {
        0x34E => Some(unit.get(PortReg::Mctrctl)),
        0x14E => Some(view_s(unit.m)),
        0x24E => Some(unit.get(PortReg::Vsctrctl)),
        0x14F => Some(unit.get(PortReg::Status)),
        0x15F => Some(unit.get(PortReg::Depth)),
        0x150 => Some(unit.get(PortReg::Select)),
        0x151 => read_part(unit, unit.select, Part::Source),
        0x152 => read_part(unit, unit.select, Part::Target),
        0x153 => read_part(unit, unit.select, Part::Kind),
        0x155 => read_unused(unit.select),
        0x156 => read_unused(unit.select),
        0x157 => read_unused(unit.select),
        0x250 => Some(u64::from(p.vsiselect())),
        0x251 => read_part(unit, p.vsiselect(), Part::Source),
        0x252 => read_part(unit, p.vsiselect(), Part::Target),
        0x253 => read_part(unit, p.vsiselect(), Part::Kind),
        0x255 => read_unused(p.vsiselect()),
        0x256 => read_unused(p.vsiselect()),
        0x257 => read_unused(p.vsiselect()),
        _ => {
            if is_register(number) {
                Some(read_csr(p, number))
            } else {
                None
            }
        }
    }
}

// Writes a register.
pub(crate) fn write_register<B: CtrStore>(
    unit: &mut CtrUnit<B>,
    p: &mut Priv,
    number: u16,
    value: u64,
)
    ensures unit { unit.new ≡ record ((row_of number).unit unit.old value)
        { stack = after_any unit.old.stack ((row_of number).event unit.old p.old value) } }
    ensures registers { p.new ≡ (row_of number).registers p.old value }
{
    match number {
        0x34E => unit.set(PortReg::Mctrctl, value),
        0x14E => unit.m = legal_s(unit.m, value),
        0x24E => unit.set(PortReg::Vsctrctl, value),
        0x14F => unit.set(PortReg::Status, value),
        0x15F => unit.set(PortReg::Depth, value),
        0x150 => unit.set(PortReg::Select, value),
        0x151 => write_part(unit, unit.select, Part::Source, value),
        0x152 => write_part(unit, unit.select, Part::Target, value),
        0x153 => write_part(unit, unit.select, Part::Kind, value),
        0x250 => p.set_vsiselect((value % 4096) as u16),
        0x251 => write_part(unit, p.vsiselect(), Part::Source, value),
        0x252 => write_part(unit, p.vsiselect(), Part::Target, value),
        0x253 => write_part(unit, p.vsiselect(), Part::Kind, value),
        _ => {
            if is_register(number) {
                write_csr(p, number, value);
            }
        }
    }
}

// Whether a select names an entry.
fn is_entry(select: u16) -> bool
    ensures { result ≡ names_entry select }
{
    select >= 0x200 && select < 0x300
}

fn read_part<B: CtrStore>(unit: &CtrUnit<B>, select: u16, part: Part) -> Option<u64>
    ensures { result ≡ part_read unit.now select part }
{
    if is_entry(select) {
        Some(unit.part(select, part))
    } else {
        None
    }
}

fn read_unused(select: u16) -> Option<u64>
    ensures { result ≡ unused_read select }
{
    if is_entry(select) { Some(0) } else { None }
}

fn write_part<B: CtrStore>(unit: &mut CtrUnit<B>, select: u16, part: Part, value: u64)
    ensures { unit.new ≡ record unit.old
        { stack = after_any unit.old.stack (part_written unit.old.stack select part value) } }
{
    let event = unit.part_event(select, part, value);
    unit.perform_any(event);
}
