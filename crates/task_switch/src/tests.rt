//! Save, restore and read over a port that counts.

ghost use Rattle.std.specs.Prelude.{◌≡◌};

use crate::{SaveArea, area_laws, read_stack, restore, save};
use ctr_buffer::{Event, ListStore, Slot};
use ctr_csrs::Depth;
use indirect_regs::{CtrPort, CtrUnit, PortReg};
use std::process::Abort;

// A branch that was mispredicted: MISP is bit 0 of the target word. The words are those of RISC-V
// Control Transfer Records 1.0, "Entry Registers", and the numbers of a unit those of its
// registers' figures.
const MISSED: Slot = Slot {
    source: 0x101,
    target: 0x401,
    kind: 5,
};

// A call whose V is cleared. It keeps MISP.
const GONE: Slot = Slot {
    source: 0x200,
    target: 0x501,
    kind: 8,
};

const OLDER: Slot = Slot {
    source: 0x301,
    target: 0x600,
    kind: 3,
};

// A port over a unit alone.
#[derive(Drop)]
struct Monitor {
    unit: CtrUnit<ListStore>,
    count: u64,
}

impl CtrPort for Monitor {
    ghost unit = { λ m. m.unit };

    ghost count = { λ m. m.count };

    ghost same_rest = { λ a b. Unit {0} };

    ghost same_self = { λ a. tt };

    ghost same_then = { λ a b c x y. tt };

    fn get(&mut self, reg: PortReg) -> u64 {
        self.count += 1;
        self.unit.get(reg)
    }

    fn set(&mut self, reg: PortReg, value: u64) {
        self.count += 1;
        self.unit.set(reg, value);
    }

    fn clear(&mut self) {
        self.count += 1;
        self.unit.clear();
    }

    fn accesses(&self) -> u64 {
        self.count
    }
}

// A frozen unit with WRPTR 6 and three entries, the second of which has V=0.
fn used(depth: Depth) -> Monitor
    ensures { result.count ≡ 0 }
{
    let mut unit = CtrUnit::fresh(depth);
    unit.set(PortReg::Mctrctl, 0x83);
    unit.set(PortReg::Vsctrctl, 0x3);
    unit.set(PortReg::Status, 0x8000_0003);
    unit.perform(Event::Push(OLDER));
    unit.perform(Event::Push(Slot {
        source: GONE.source + 1,
        ..GONE
    }));
    unit.set(PortReg::Select, 0x200);
    unit.set(PortReg::From, GONE.source);
    unit.perform(Event::Push(MISSED));
    unit.set(PortReg::Select, 0x203);
    Monitor { unit, count: 0 }
}

// Saves a unit and restores it over another one.
fn moved(rt: &impl Abort, depth: Depth, code: u64, saving: u64, restoring: u64) {
    let mut from = used(depth);
    let mut area = SaveArea::fresh(Depth::D16, 0, 0);
    save(&mut from, &mut area);
    assert_eq!(rt; from.accesses(), saving, "accesses of a save at {depth:?}");
    let mut to = Monitor {
        unit: CtrUnit::fresh(Depth::D64),
        count: 0,
    };
    to.unit.perform(Event::Push(OLDER));
    restore(&mut to, &area);
    assert_eq!(rt;
        to.accesses(),
        restoring,
        "accesses of a restore at {depth:?}"
    );
    for (reg, value) in [
        (PortReg::Mctrctl, 0x83),
        (PortReg::Vsctrctl, 0x3),
        (PortReg::Depth, code),
        (PortReg::Status, 0x8000_0006), // WRPTR was 3, and three transfers were recorded
        (PortReg::Select, 0x203),
    ] {
        assert_eq!(rt; to.unit.get(reg), value, "{reg:?} at {depth:?}");
    }
    assert_eq!(rt;
        area.slots.items().get(..4),
        Some([MISSED, GONE, OLDER, Slot::default()].as_slice()),
        "the saved entries at {depth:?}"
    );
    let mut again = SaveArea::fresh(Depth::D16, 0, 0);
    save(&mut to, &mut again);
    assert_eq!(rt;
        again.slots.items(),
        area.slots.items(),
        "the entries at {depth:?}"
    );
}

#[test]
fn a_unit_moves_to_another_hart(rt: HostRuntime) {
    area_laws();
    moved(&rt, Depth::D16, 0, 69, 70); // 5 + 4·16, 6 + 4·16
    moved(&rt, Depth::D256, 4, 1029, 1030); // 5 + 4·256, 6 + 4·256
}

#[test]
fn the_stack_has_the_entries_with_v_and_the_select_stays(rt: HostRuntime) {
    let mut port = used(Depth::D16);
    let stack = read_stack(&mut port);
    assert_eq!(rt;
        stack.items(),
        [MISSED, OLDER].as_slice(),
        "the entry with V=0 is skipped"
    );
    assert_eq!(rt; port.accesses(), 67, "3 + 4·16");
    assert_eq!(rt; port.get(PortReg::Select), 0x203, "the select stays");
}

#[test]
fn a_fresh_area_keeps_the_bits_that_the_registers_have(rt: HostRuntime) {
    let area = SaveArea::fresh(Depth::D32, 0xFFFF_FFFF_FFFF_FFFF, 0xFFFF_FFFF_FFFF_FFFF);
    assert_eq!(rt;
        (area.m, area.vs, area.status, area.select),
        (0xFF3E_0000_1B87, 0xFF3E_0000_1983, 0, 0),
        "vsctrctl has no M and no MTE"
    );
    assert_eq!(rt;
        area.slots.items(),
        [Slot::default(); 32].as_slice(),
        "zero entries"
    );
}
