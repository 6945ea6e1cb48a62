//! The registers by number (Privileged Architecture, the register figures of "Machine-Level ISA",
//! "Supervisor-Level ISA" and "Hypervisor Extension"), and the gate ("CSR Address Mapping
//! Conventions", "Hypervisor and Virtual Supervisor CSRs").

use super::{ONES, delegating};
use crate::{CsrFault, Priv, gate, is_register, privilege_laws, read_csr, write_csr};
use ctr_csrs::Mode;

// sstatus, sie and sip; hie, hip and hvip; vsie and vsip.
const VIEWS: [u16; 8] = [0x100, 0x104, 0x144, 0x604, 0x644, 0x645, 0x204, 0x244];

// The field UXL of sstatus, which reads 2.
const UXL: u64 = 0x2_0000_0000;

// The registers of M, S, the hypervisor and VS, then those of control transfer records.
const NUMBERS: [u16; 64] = [
    0x300, 0x301, 0x302, 0x303, 0x304, 0x305, 0x340, 0x341, 0x342, 0x343, 0x344, 0x34A, 0x34B,
    0xF11, 0xF12, 0xF13, 0xF14, 0xF15, 0x100, 0x104, 0x105, 0x140, 0x141, 0x142, 0x143, 0x144,
    0x180, 0x600, 0x602, 0x603, 0x604, 0x643, 0x644, 0x645, 0x64A, 0x680, 0x200, 0x204, 0x205,
    0x240, 0x241, 0x242, 0x243, 0x244, 0x280, 0x34E, 0x14E, 0x24E, 0x14F, 0x15F, 0x150, 0x151,
    0x152, 0x153, 0x155, 0x156, 0x157, 0x250, 0x251, 0x252, 0x253, 0x255, 0x256, 0x257,
];

#[test]
fn registers_keep_the_bits_of_their_table(rt: HostRuntime) {
    privilege_laws();
    for (csr, fresh, ones) in [
        (0x300, 0xA_0000_0000, 0x8A_0000_19AA), // mstatus; UXL and SXL read 2
        (0x301, 0x8000_0000_0014_1180, 0x8000_0000_0014_1180), // misa: 64 bits, H, I, M, S, U
        (0x302, 0, 0x40_07FF), // medeleg: 0 to 10 and 22
        (0x303, 0x444, 0x2666), // mideleg; 2, 6 and 10 are always delegated
        (0x304, 0, 0x2EEE), // mie
        (0x305, 0, 0xFFFF_FFFF_FFFF_FFFD), // mtvec: direct or vectored
        (0x340, 0, ONES), // mscratch
        (0x341, 0, 0xFFFF_FFFF_FFFF_FFFC), // mepc
        (0x342, 0, ONES), // mcause
        (0x343, 0, ONES), // mtval
        (0x344, 0, 0x2226), // mip: SSIP, VSSIP, STIP, SEIP, LCOFIP
        (0x34A, 0, ONES), // mtinst
        (0x34B, 0, ONES), // mtval2
        (0xF11, 0, 0), // mvendorid
        (0xF12, 0, 0), // marchid
        (0xF13, 0, 0), // mimpid
        (0xF14, 0, 0), // mhartid
        (0xF15, 0, 0), // mconfigptr
        (0x100, 0x2_0000_0000, 0x2_0000_0122), // sstatus: SIE, SPIE, SPP
        (0x104, 0, 0), // sie, nothing delegated
        (0x144, 0, 0), // sip, nothing delegated
        (0x105, 0, 0xFFFF_FFFF_FFFF_FFFD), // stvec
        (0x140, 0, ONES), // sscratch
        (0x141, 0, 0xFFFF_FFFF_FFFF_FFFC), // sepc
        (0x142, 0, ONES), // scause
        (0x143, 0, ONES), // stval
        (0x180, 0, 0), // satp
        (0x600, 0x2_0000_0000, 0x2_0000_0180), // hstatus: SPV, SPVP
        (0x602, 0, 0x1FF), // hedeleg: 0 to 8
        (0x603, 0, 0x2444), // hideleg: 2, 6, 10, 13
        (0x604, 0, 0x444), // hie
        (0x644, 0, 0x4), // hip: VSSIP alone is written
        (0x645, 0, 0x444), // hvip
        (0x643, 0, ONES), // htval
        (0x64A, 0, ONES), // htinst
        (0x680, 0, 0), // hgatp
        (0x200, 0x2_0000_0000, 0x2_0000_0122), // vsstatus
        (0x204, 0, 0), // vsie, nothing delegated
        (0x244, 0, 0), // vsip, nothing delegated
        (0x205, 0, 0xFFFF_FFFF_FFFF_FFFD), // vstvec
        (0x240, 0, ONES), // vsscratch
        (0x241, 0, 0xFFFF_FFFF_FFFF_FFFC), // vsepc
        (0x242, 0, ONES), // vscause
        (0x243, 0, ONES), // vstval
        (0x280, 0, 0), // vsatp
    ] {
        let mut p = Priv::fresh();
        assert!(rt; is_register(csr), "{csr} is a register");
        assert_eq!(rt; read_csr(&p, csr), fresh, "register {csr}, fresh");
        write_csr(&mut p, csr, ONES);
        assert_eq!(rt;
            read_csr(&p, csr),
            ones,
            "register {csr} after a write of ones"
        );
        write_csr(&mut p, csr, 0);
        assert_eq!(rt;
            read_csr(&p, csr),
            fresh,
            "register {csr} after a write of zero"
        );
    }
}

#[test]
fn views_change_their_part_of_the_register_behind(rt: HostRuntime) {
    for (mideleg, hideleg, view, behind, kept, seen) in [
        (0, 0, 0x100, 0x300, 0xA_0000_0122, 0x2_0000_0122), // sstatus in mstatus
        (0x2222, 0, 0x104, 0x304, 0x2222, 0x2222), // sie in mie
        (0x20, 0, 0x104, 0x304, 0x20, 0x20), // the timer alone is delegated
        (0x2222, 0, 0x144, 0x344, 0x2002, 0x2002), // of sip SSIP and LCOFIP can be written
        (0x20, 0, 0x144, 0x344, 0, 0),
        (0, 0, 0x604, 0x304, 0x444, 0x444), // hie in mie
        (0, 0, 0x644, 0x344, 0x4, 0x4), // hip in mip
        (0, 0, 0x645, 0x344, 0x444, 0x444), // hvip in mip
        (0x2222, 0x2444, 0x204, 0x304, 0x2444, 0x2222), // vsie: every shown bit is written
        (0, 0x2444, 0x204, 0x304, 0x444, 0x222), // a counter overflow wants M's delegation too
        (0x2222, 0x40, 0x204, 0x304, 0x40, 0x20), // the timer of VS alone is delegated
        (0x2222, 0x2444, 0x244, 0x344, 0x2004, 0x2002), // of vsip SSIP and LCOFIP can be written
        (0, 0x2444, 0x244, 0x344, 0x4, 0x2),
        (0x2222, 0x40, 0x244, 0x344, 0, 0),
    ] {
        let mut p = delegating(0, mideleg, 0, hideleg);
        assert!(rt;
            is_register(view) && is_register(behind),
            "{view} and {behind} are registers"
        );
        write_csr(&mut p, view, ONES);
        assert_eq!(rt; read_csr(&p, behind), kept, "view {view} over {behind}");
        assert_eq!(rt; read_csr(&p, view), seen, "view {view}");
    }
    let mut p = delegating(0, 0x2222, 0, 0x2444);
    p.raise(0x2EEE);
    assert_eq!(rt; read_csr(&p, 0x244), 0x2222, "vsip");
    write_csr(&mut p, 0x244, 0);
    assert_eq!(rt;
        read_csr(&p, 0x344),
        0x0EEA,
        "vsip clears VSSIP and LCOFIP of mip alone"
    );
    assert_eq!(rt; read_csr(&p, 0x144), 0x0222, "sip has what M delegates");
    write_csr(&mut p, 0x300, 0x1800);
    write_csr(&mut p, 0x300, 0x1008);
    assert_eq!(rt;
        read_csr(&p, 0x300),
        0xA_0000_1808,
        "the reserved value leaves MPP as it is"
    );
}

#[test]
fn the_gate_goes_by_mode_and_number(rt: HostRuntime) {
    for (mode, csr, write, want) in [
        (Mode::Vs, 0x15F, false, Err(CsrFault::Virtual)), // sctrdepth is the hypervisor's
        (Mode::Vu, 0x15F, false, Err(CsrFault::Virtual)),
        (Mode::Vs, 0x14E, false, Ok(0x24E)), // sctrctl is vsctrctl in VS
        (Mode::Vs, 0x24E, false, Err(CsrFault::Virtual)), // by its own number it isn't there for VS
        (Mode::Vu, 0x14E, false, Err(CsrFault::Virtual)),
        (Mode::U, 0x14E, false, Err(CsrFault::Illegal)),
        (Mode::S, 0x34E, false, Err(CsrFault::Illegal)), // registers of M
        (Mode::Vs, 0x34E, false, Err(CsrFault::Illegal)),
        (Mode::Vs, 0x14F, false, Ok(0x14F)), // sctrstatus is one for S and VS
        (Mode::M, 0x999, false, Err(CsrFault::Illegal)), // there is no such register
        (Mode::M, 0xF14, true, Err(CsrFault::Illegal)), // a read-only number
        (Mode::M, 0xF14, false, Ok(0xF14)),
        (Mode::S, 0x204, true, Ok(0x204)), // the hypervisor reaches registers of VS
        (Mode::S, 0x603, true, Ok(0x603)),
        (Mode::Vs, 0x603, true, Err(CsrFault::Virtual)),
        (Mode::Vs, 0x104, true, Ok(0x204)),
        (Mode::Vs, 0x180, true, Ok(0x280)),
        (Mode::Vu, 0x300, false, Err(CsrFault::Illegal)),
        (Mode::Vu, 0x104, false, Err(CsrFault::Virtual)),
        (Mode::U, 0x200, false, Err(CsrFault::Illegal)),
        (Mode::Vu, 0x600, false, Err(CsrFault::Virtual)), // there for the hypervisor
        (Mode::Vu, 0x24E, false, Err(CsrFault::Virtual)),
        (Mode::Vs, 0x1FF, false, Err(CsrFault::Illegal)), // there is no such register for anyone
        (Mode::Vu, 0x1FF, false, Err(CsrFault::Illegal)),
        (Mode::Vu, 0x154, false, Err(CsrFault::Illegal)), // there is none between sireg3 and sireg4
        (Mode::Vs, 0x154, false, Err(CsrFault::Illegal)),
        (Mode::Vs, 0xF14, true, Err(CsrFault::Illegal)),
        (Mode::Vu, 0xF14, false, Err(CsrFault::Illegal)),
    ] {
        assert_eq!(rt; gate(mode, csr, write), want, "{mode:?}, register {csr}");
    }
}

// Each view after its bits came into the register behind it by that register's own number, by an
// interrupt, or not at all: mstatus by 300, mie by 304, mip by interrupts that became pending.
#[test]
fn views_show_their_part_of_the_register_behind(rt: HostRuntime) {
    for (mideleg, hideleg, seen) in [
        // sstatus, sie, sip, hie, hip, hvip, vsie and vsip. sie and sip show what M delegates.
        (0, 0, [0x122, 0, 0, 0x444, 0x444, 0x444, 0, 0]),
        (0x20, 0, [0x122, 0x20, 0x20, 0x444, 0x444, 0x444, 0, 0]),
        (
            0x2222,
            0,
            [0x122, 0x2222, 0x2222, 0x444, 0x444, 0x444, 0, 0],
        ),
        // vsie and vsip show what the hypervisor delegates, and of a counter overflow what both do.
        (0, 0x2444, [0x122, 0, 0, 0x444, 0x444, 0x444, 0x222, 0x222]),
        (
            0x20,
            0x40,
            [0x122, 0x20, 0x20, 0x444, 0x444, 0x444, 0x20, 0x20],
        ),
        (
            0x2222,
            0x2444,
            [0x122, 0x2222, 0x2222, 0x444, 0x444, 0x444, 0x2222, 0x2222],
        ),
    ] {
        let mut p = delegating(0, mideleg, 0, hideleg);
        for csr in VIEWS {
            assert!(rt; is_register(csr), "{csr} is a register");
            assert_eq!(rt; read_csr(&p, csr) & !UXL, 0, "view {csr:x}, all clear");
        }
        write_csr(&mut p, 0x300, ONES);
        write_csr(&mut p, 0x304, ONES);
        p.raise(0x2EEE);
        for (csr, want) in VIEWS.into_iter().zip(seen) {
            assert!(rt; is_register(csr), "{csr} is a register");
            assert_eq!(rt;
                read_csr(&p, csr) & !UXL,
                want,
                "view {csr:x}, mideleg {mideleg:x}, hideleg {hideleg:x}"
            );
        }
        assert_eq!(rt; read_csr(&p, 0x100), UXL | 0x122, "sstatus");
        assert_eq!(rt; read_csr(&p, 0x344), 0x2EEE, "mip");
    }
}

// Of all numbers M reaches those of registers and no other: those of the table above, and those of
// control transfer records.
#[test]
fn no_number_but_a_registers_passes_the_gate(rt: HostRuntime) {
    for csr in 0..4096 {
        let there = NUMBERS.contains(&csr);
        let want = if there {
            Ok(csr)
        } else {
            Err(CsrFault::Illegal)
        };
        assert_eq!(rt; gate(Mode::M, csr, false), want, "register {csr:x}");
    }
}

#[test]
fn vsiselect_keeps_twelve_bits(rt: HostRuntime) {
    let mut p = Priv::fresh();
    assert_eq!(rt; p.vsiselect(), 0, "fresh");
    p.set_vsiselect(0xFFF);
    assert_eq!(rt; p.vsiselect(), 0xFFF, "the largest");
}
