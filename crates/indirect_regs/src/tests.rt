//! Accesses by number and mode, and a monitor's port.

ghost use Rattle.std.specs.Prelude.{◌≡◌, ◌+◌, ◌<◌};

use crate::{CsrUse, CtrPort, CtrUnit, PortReg, access};
use ctr_buffer::{Event, ListStore, Slot};
use ctr_csrs::{Depth, Mode};
use guest_modes::{CsrFault, Priv};

const ONES: u64 = 0xFFFF_FFFF_FFFF_FFFF;

fn unit() -> CtrUnit<ListStore> {
    CtrUnit::fresh(Depth::D16)
}

// RISC-V Control Transfer Records 1.0, "CSRs": the register figures.
#[test]
fn registers_of_the_records_keep_the_bits_of_their_table(rt: HostRuntime) {
    for (csr, fresh, ones) in [
        (0x34E, 0, 0xFF3E_0000_1B87), // mctrctl
        (0x14E, 0, 0xFF3E_0000_1983), // sctrctl has no M and no MTE
        (0x24E, 0, 0xFF3E_0000_1983), // vsctrctl
        (0x14F, 0, 0x8000_000F), // sctrstatus: FROZEN, and WRPTR 255 modulo 16
        (0x15F, 0, 0), // sctrdepth: the code 7 changes nothing
        (0x150, 0x200, 0xFFF), // siselect
        (0x250, 0x200, 0xFFF), // vsiselect
        (0x151, 0, ONES), // sireg, the source word
        (0x152, 0, ONES), // sireg2, the target word with MISP
        (0x153, 0, 0xF), // sireg3, the type
        (0x155, 0, 0), // sireg4 to sireg6 are unused
        (0x156, 0, 0),
        (0x157, 0, 0),
        (0x251, 0, ONES), // vsireg to vsireg6 by vsiselect
        (0x252, 0, ONES),
        (0x253, 0, 0xF),
        (0x255, 0, 0),
        (0x256, 0, 0),
        (0x257, 0, 0),
        (0x340, 0, ONES), // mscratch, a register of M
    ] {
        let mut unit = unit();
        let mut p = Priv::fresh();
        assert_eq!(rt;
            access(&mut unit, &mut p, Mode::M, 0x150, CsrUse::Write(0x200)),
            Ok(0),
            "siselect"
        );
        assert_eq!(rt;
            access(&mut unit, &mut p, Mode::M, 0x250, CsrUse::Write(0x200)),
            Ok(0),
            "vsiselect"
        );
        assert_eq!(rt;
            access(&mut unit, &mut p, Mode::M, csr, CsrUse::Read),
            Ok(fresh),
            "register {csr}, fresh"
        );
        assert_eq!(rt;
            access(&mut unit, &mut p, Mode::M, csr, CsrUse::Write(ONES)),
            Ok(fresh),
            "register {csr}"
        );
        assert_eq!(rt;
            access(&mut unit, &mut p, Mode::M, csr, CsrUse::Write(0)),
            Ok(ones),
            "register {csr} after ones"
        );
        if csr != 0x150 && csr != 0x250 {
            assert_eq!(rt;
                access(&mut unit, &mut p, Mode::M, csr, CsrUse::Read),
                Ok(0),
                "register {csr} after zero"
            );
        }
    }
}

// RISC-V Control Transfer Records 1.0, "Entry Registers"; Privileged Architecture, "Indirect CSR
// Access".
#[test]
fn selects_name_entries_from_0x200_on(rt: HostRuntime) {
    for (select, answer, kept) in [
        (0, Err(CsrFault::Illegal), Err(CsrFault::Illegal)),
        (0x1FF, Err(CsrFault::Illegal), Err(CsrFault::Illegal)),
        (0x200, Ok(0), Ok(0x11)), // the youngest entry
        (0x20F, Ok(0), Ok(0x11)), // the oldest at depth 16
        (0x210, Ok(0), Ok(0)), // past the depth nothing is kept
        (0x2FF, Ok(0), Ok(0)),
        (0x300, Err(CsrFault::Illegal), Err(CsrFault::Illegal)),
        (0xFFF, Err(CsrFault::Illegal), Err(CsrFault::Illegal)),
    ] {
        for (select_register, register) in [(0x150, 0x151), (0x250, 0x251)] {
            let mut unit = unit();
            let mut p = Priv::fresh();
            assert_eq!(rt;
                access(
                    &mut unit,
                    &mut p,
                    Mode::S,
                    select_register,
                    CsrUse::Write(select)
                ),
                Ok(0),
                "select {select}"
            );
            assert_eq!(rt;
                access(&mut unit, &mut p, Mode::S, register, CsrUse::Write(0x11)),
                answer,
                "select {select}"
            );
            assert_eq!(rt;
                access(&mut unit, &mut p, Mode::S, register, CsrUse::Read),
                kept,
                "select {select}"
            );
        }
    }
    let mut unit = unit();
    let mut p = Priv::fresh();
    assert_eq!(rt;
        access(&mut unit, &mut p, Mode::M, 0x151, CsrUse::Read),
        Err(CsrFault::Illegal),
        "the select is 0"
    );
    for unused in [0x155, 0x156, 0x157, 0x255, 0x256, 0x257] {
        assert_eq!(rt;
            access(&mut unit, &mut p, Mode::M, unused, CsrUse::Read),
            Err(CsrFault::Illegal),
            "{unused}, the select is 0"
        );
    }
}

// RISC-V Control Transfer Records 1.0, register sctrdepth.
#[test]
fn another_depth_empties_and_moves_the_pointer(rt: HostRuntime) {
    let mut unit = unit();
    let mut p = Priv::fresh();
    for (written, code) in [
        (1, 1),
        (5, 1), // reserved codes change nothing
        (6, 1),
        (7, 1),
        (4, 4),
        (8, 0), // bits 2:0 alone count
        (2, 2),
        (3, 3),
    ] {
        assert!(rt;
            access(&mut unit, &mut p, Mode::M, 0x15F, CsrUse::Write(written)).is_ok(),
            "depth {written}"
        );
        assert_eq!(rt;
            access(&mut unit, &mut p, Mode::M, 0x15F, CsrUse::Read),
            Ok(code),
            "depth {written}"
        );
    }
    // sctrdepth; then WRPTR and the entry that siselect names, which were 5 and 0x11.
    for (written, wrptr, entry) in [(3, 5, 0x11), (5, 5, 0x11), (0, 0, 0)] {
        assert!(rt;
            access(&mut unit, &mut p, Mode::M, 0x15F, CsrUse::Write(3)).is_ok(),
            "depth 128"
        );
        assert!(rt;
            access(&mut unit, &mut p, Mode::M, 0x14F, CsrUse::Write(5)).is_ok(),
            "WRPTR 5"
        );
        assert!(rt;
            access(&mut unit, &mut p, Mode::M, 0x150, CsrUse::Write(0x207)).is_ok(),
            "entry 7"
        );
        assert!(rt;
            access(&mut unit, &mut p, Mode::M, 0x151, CsrUse::Write(0x11)).is_ok(),
            "source 0x11"
        );
        assert!(rt;
            access(&mut unit, &mut p, Mode::M, 0x15F, CsrUse::Write(written)).is_ok(),
            "depth {written}"
        );
        assert_eq!(rt;
            access(&mut unit, &mut p, Mode::M, 0x14F, CsrUse::Read),
            Ok(wrptr),
            "depth {written}"
        );
        assert_eq!(rt;
            access(&mut unit, &mut p, Mode::M, 0x151, CsrUse::Read),
            Ok(entry),
            "depth {written}"
        );
    }
}

// RISC-V Control Transfer Records 1.0, register sctrstatus: WRPTR.
#[test]
fn the_write_pointer_turns_the_entries(rt: HostRuntime) {
    let mut unit = unit();
    let mut p = Priv::fresh();
    unit.perform(Event::Push(Slot {
        source: 0x101,
        target: 0x200,
        kind: 9,
    }));
    assert_eq!(rt;
        access(
            &mut unit,
            &mut p,
            Mode::S,
            0x14F,
            CsrUse::Write(0x8000_0002)
        ),
        Ok(1),
        "one push"
    );
    assert_eq!(rt;
        access(&mut unit, &mut p, Mode::S, 0x14F, CsrUse::Read),
        Ok(0x8000_0002),
        "FROZEN is kept too"
    );
    for (select, source, target, kind) in [(0x200, 0, 0, 0), (0x201, 0x101, 0x200, 9)] {
        assert!(rt;
            access(&mut unit, &mut p, Mode::S, 0x150, CsrUse::Write(select)).is_ok(),
            "select {select}"
        );
        assert_eq!(rt;
            access(&mut unit, &mut p, Mode::S, 0x151, CsrUse::Read),
            Ok(source),
            "source of {select}"
        );
        assert_eq!(rt;
            access(&mut unit, &mut p, Mode::S, 0x152, CsrUse::Read),
            Ok(target),
            "target of {select}"
        );
        assert_eq!(rt;
            access(&mut unit, &mut p, Mode::S, 0x153, CsrUse::Read),
            Ok(kind),
            "type of {select}"
        );
    }
}

// RISC-V Privileged Architecture, "Indirect CSR Access": vsiselect and vsireg; Control Transfer
// Records 1.0, register vsctrctl.
#[test]
fn a_guest_reaches_registers_of_its_own(rt: HostRuntime) {
    let mut unit = unit();
    let mut p = Priv::fresh();
    for (csr, guest, value) in [
        (0x14E, 0x24E, 0x3), // sctrctl is vsctrctl
        (0x150, 0x250, 0x203), // siselect is vsiselect
        (0x151, 0x251, 0x21), // sireg is vsireg, by vsiselect
        (0x152, 0x252, 0x22),
        (0x153, 0x253, 0xD),
        (0x14F, 0x14F, 0x3), // sctrstatus is one
    ] {
        assert_eq!(rt;
            access(&mut unit, &mut p, Mode::Vs, csr, CsrUse::Write(value)),
            Ok(0),
            "register {csr}"
        );
        assert_eq!(rt;
            access(&mut unit, &mut p, Mode::S, guest, CsrUse::Read),
            Ok(value),
            "register {guest}"
        );
    }
    for (mode, csr, fault) in [
        (Mode::Vs, 0x15F, CsrFault::Virtual),
        (Mode::Vs, 0x251, CsrFault::Virtual),
        (Mode::Vu, 0x14F, CsrFault::Virtual),
        (Mode::U, 0x14F, CsrFault::Illegal),
        (Mode::S, 0x34E, CsrFault::Illegal),
    ] {
        assert_eq!(rt;
            access(&mut unit, &mut p, mode, csr, CsrUse::Write(0)),
            Err(fault),
            "{mode:?}, register {csr}"
        );
    }
    assert_eq!(rt;
        access(&mut unit, &mut p, Mode::S, 0x150, CsrUse::Read),
        Ok(0),
        "siselect stays"
    );
}

// RISC-V Control Transfer Records 1.0, "Entry Registers"; Privileged Architecture, "Indirect CSR
// Access": the registers of S go by siselect, those of VS by vsiselect, each whatever the other holds.
#[test]
fn each_select_reaches_the_registers_of_its_own_mode(rt: HostRuntime) {
    let illegal = Err(CsrFault::Illegal);
    for (select, guest_select, answer, guest_answer) in [
        (0, 0x200, illegal, Ok(0)),
        (0x200, 0, Ok(0), illegal),
    ] {
        let mut unit = unit();
        let mut p = Priv::fresh();
        for (csr, value) in [(0x150, select), (0x250, guest_select)] {
            assert_eq!(rt;
                access(&mut unit, &mut p, Mode::S, csr, CsrUse::Write(value)),
                Ok(0),
                "register {csr:x}"
            );
        }
        for (csr, guest_csr) in [
            (0x151, 0x251),
            (0x152, 0x252),
            (0x153, 0x253),
            (0x155, 0x255),
            (0x156, 0x256),
            (0x157, 0x257),
        ] {
            for (mode, register, want) in [
                (Mode::S, csr, answer),
                (Mode::S, guest_csr, guest_answer),
                (Mode::M, csr, answer),
                (Mode::M, guest_csr, guest_answer),
                (Mode::Vs, csr, guest_answer), // in VS it is the register of VS
            ] {
                assert_eq!(rt;
                    access(&mut unit, &mut p, mode, register, CsrUse::Read),
                    want,
                    "{register:x} in {mode:?} with siselect {select:x}"
                );
                assert_eq!(rt;
                    access(&mut unit, &mut p, mode, register, CsrUse::Write(0)),
                    want,
                    "a write of it"
                );
            }
        }
    }
}

// RISC-V Control Transfer Records 1.0, registers sctrdepth and sctrstatus: another depth sets WRPTR
// to 0, and FROZEN stays.
#[test]
fn another_depth_leaves_frozen(rt: HostRuntime) {
    for (frozen, want) in [(0x8000_0000, 0x8000_0000), (0, 0)] {
        let mut unit = unit();
        let mut p = Priv::fresh();
        for (csr, value) in [(0x14F, frozen + 5), (0x15F, 3)] {
            assert_eq!(rt;
                access(&mut unit, &mut p, Mode::M, csr, CsrUse::Write(value)),
                Ok(0),
                "register {csr:x}"
            );
        }
        assert_eq!(rt;
            access(&mut unit, &mut p, Mode::S, 0x14F, CsrUse::Read),
            Ok(want),
            "sctrstatus"
        );
    }
}

// RISC-V Unprivileged ISA, "Zicsr".
#[test]
fn set_and_clear_write_over_the_old_value(rt: HostRuntime) {
    let mut unit = unit();
    let mut p = Priv::fresh();
    for (csr, op, answer) in [
        (0x340, CsrUse::Write(0xF0), Ok(0)),
        (0x340, CsrUse::Set(0x0F), Ok(0xF0)),
        (0x340, CsrUse::Clear(0x3C), Ok(0xFF)),
        (0x340, CsrUse::Read, Ok(0xC3)),
        (0x34E, CsrUse::Write(0x207), Ok(0)),
        (0x14E, CsrUse::Clear(0x7), Ok(0x3)), // M and MTE stay
        (0x34E, CsrUse::Read, Ok(0x204)),
        (0xF14, CsrUse::Read, Ok(0)),
        (0xF14, CsrUse::Set(0), Err(CsrFault::Illegal)), // a write even where it sets nothing
        (0xF14, CsrUse::Clear(0), Err(CsrFault::Illegal)),
    ] {
        assert_eq!(rt;
            access(&mut unit, &mut p, Mode::M, csr, op),
            answer,
            "register {csr}, {op:?}"
        );
    }
}

// A port over a unit alone.
#[derive(Drop)]
struct Monitor {
    unit: CtrUnit<ListStore>,
    count: u64,
}

impl CtrPort for Monitor {
    ghost unit = { λ m. m.unit };

    ghost count = { λ m. m.count };

    ghost same_rest = { λ a b. Unit {0} };

    ghost same_self = { λ a. tt };

    ghost same_then = { λ a b c x y. tt };

    fn get(&mut self, reg: PortReg) -> u64 {
        self.count += 1;
        self.unit.get(reg)
    }

    fn set(&mut self, reg: PortReg, value: u64) {
        self.count += 1;
        self.unit.set(reg, value);
    }

    fn clear(&mut self) {
        self.count += 1;
        self.unit.clear();
    }

    fn accesses(&self) -> u64 {
        self.count
    }
}

// RISC-V Control Transfer Records 1.0, "CSRs".
#[test]
fn a_monitor_reaches_the_unit_with_the_rights_of_m(rt: HostRuntime) {
    let mut port = Monitor {
        unit: unit(),
        count: 0,
    };
    port.set(PortReg::Mctrctl, ONES);
    assert_eq!(rt; port.get(PortReg::Mctrctl), 0xFF3E_0000_1B87, "mctrctl");
    port.set(PortReg::Vsctrctl, ONES);
    assert_eq!(rt; port.get(PortReg::Vsctrctl), 0xFF3E_0000_1983, "vsctrctl");
    port.set(PortReg::Depth, 1);
    assert_eq!(rt; port.get(PortReg::Depth), 1, "depth 32");
    port.set(PortReg::Status, 0x8000_0021);
    assert_eq!(rt;
        port.get(PortReg::Status),
        0x8000_0001,
        "WRPTR 33 modulo 32, FROZEN"
    );
    port.set(PortReg::Select, 0x201);
    assert_eq!(rt; port.get(PortReg::Select), 0x201, "entry 1");
    assert_eq!(rt; port.accesses(), 10, "five writes and five reads");
    port.clear();
    assert_eq!(rt; port.accesses(), 11, "and the clear");
}

// Writes and reads the parts of entry 1.
fn entry_parts(port: &mut Monitor) -> (u64, u64, u64)
    requires { port.old.count < 1000 }
    ensures { port.new.count ≡ port.old.count + 7 }
{
    port.set(PortReg::Select, 0x201);
    port.set(PortReg::From, 0x31);
    port.set(PortReg::To, 0x33);
    port.set(PortReg::Kind, 0x1B);
    let from = port.get(PortReg::From);
    let to = port.get(PortReg::To);
    (from, to, port.get(PortReg::Kind))
}

// RISC-V Control Transfer Records 1.0, "Entry Registers".
#[test]
fn a_monitor_reaches_the_entry_that_it_selects(rt: HostRuntime) {
    let mut port = Monitor {
        unit: unit(),
        count: 0,
    };
    assert_eq!(rt;
        entry_parts(&mut port),
        (0x31, 0x33, 0xB),
        "both words are whole, the type has four bits"
    );
    port.clear();
    assert_eq!(rt; entry_parts(&mut port), (0x31, 0x33, 0xB), "after a clear");
}
