//! One entry through a port.

ghost use Rattle.std.specs.Prelude.{◌≡◌, ◌<◌, ◌≤◌, ◌+◌, ◌^◌, length};
ghost use Rattle.ctr_buffer.specs.Entry.{FitsPart, with_part};
ghost use Rattle.ctr_buffer.specs.Stack.{size_of, entry_at, after_poke};
ghost use Rattle.indirect_regs.specs.Unit.{IsUnit};

use ctr_buffer::{Part, Slot};
use ctr_csrs::{Depth, depth_of};
use indirect_regs::{CtrPort, PortReg};

// Reads the depth, in 1 access.
pub(crate) fn read_depth<P: CtrPort>(port: &mut P) -> Depth
    requires { P.count port.old < 2 ^ 63 }
    ensures depth { result ≡ (P.unit port.old).stack.depth }
    ensures shape { IsUnit (P.unit port.old) }
    ensures unit { P.unit port.new ≡ P.unit port.old }
    ensures count { P.count port.new ≡ P.count port.old + 1 }
    ensures rest { P.same_rest port.old port.new }
{
    let code = port.get(PortReg::Depth);
    let Some(depth) = depth_of(code) else {
        unreachable!()
    };
    depth
}

// Selects entry `i` and reads its parts, in 4 accesses.
#[inline(always)]
pub(crate) fn read_entry<P: CtrPort>(port: &mut P, i: u16) -> Slot
    requires room { P.count port.old ≤ 2 ^ 62 + 2000 }
    requires within { i < 256 }
    ensures slot { result ≡ entry_at (P.unit port.old).stack i }
    ensures unit { P.unit port.new ≡ record (P.unit port.old) { select = 512 + i } }
    ensures count { P.count port.new ≡ P.count port.old + 4 }
    ensures rest { P.same_rest port.old port.new }
{
    port.set(PortReg::Select, 0x200 + u64::from(i));
    let source = port.get(PortReg::From);
    let target = port.get(PortReg::To);
    let kind = port.get(PortReg::Kind);
    Slot {
        source,
        target,
        kind: kind as u8,
    }
}

// Selects entry `i` and writes its parts, in 4 accesses.
#[inline(always)]
pub(crate) fn write_entry<P: CtrPort>(port: &mut P, i: u16, slot: Slot)
    requires room { P.count port.old ≤ 2 ^ 62 + 2000 }
    requires within { i < size_of (P.unit port.old).stack }
    requires small { i < 256 }
    requires there { i < length (P.unit port.old).stack.slots }
    ensures unit { P.unit port.new ≡ record (P.unit port.old)
        { select = 512 + i; stack = after_poke (P.unit port.old).stack i slot } }
    ensures count { P.count port.new ≡ P.count port.old + 4 }
    ensures rest { P.same_rest port.old port.new }
{
    port.set(PortReg::Select, 0x200 + u64::from(i));
    write_part(port, i, Part::Source, slot.source);
    write_part(port, i, Part::Target, slot.target);
    write_part(port, i, Part::Kind, u64::from(slot.kind));
}

// Writes a part of entry `i`, which is selected, in 1 access.
#[inline(always)]
fn write_part<P: CtrPort>(port: &mut P, i: u16, part: Part, value: u64)
    requires room { P.count port.old < 2 ^ 63 }
    requires selected { (P.unit port.old).select ≡ 512 + i }
    requires within { i < size_of (P.unit port.old).stack }
    requires small { i < 256 }
    requires fits { FitsPart part value }
    ensures unit { P.unit port.new ≡ record (P.unit port.old) {
      stack = after_poke (P.unit port.old).stack i
          (with_part (entry_at (P.unit port.old).stack i) part value);
    } }
    ensures count { P.count port.new ≡ P.count port.old + 1 }
    ensures rest { P.same_rest port.old port.new }
{
    match part {
        Part::Source => port.set(PortReg::From, value),
        Part::Target => port.set(PortReg::To, value),
        Part::Kind => port.set(PortReg::Kind, value),
    }
}
