//! Traps and returns from states in which every bit that they clear is set (Privileged
//! Architecture, "Privilege and Global Interrupt-Enable Stack in mstatus register", "Trap Entry"
//! and "Trap Return" of the hypervisor extension). mstatus keeps SIE 1, MIE 3, SPIE 5, MPIE 7, SPP
//! 8, MPP 12:11 and MPV 39, and reads with 0xA_0000_0000 besides; hstatus keeps SPV 7 and SPVP 8,
//! vsstatus SIE 1, SPIE 5 and SPP 8, and both read with 0x2_0000_0000 besides.

use super::delegating;
use crate::{Priv, Ret, Trap, enter_trap, leave_trap, read_csr, trap_target, write_csr};
use ctr_csrs::Mode;

// These registers with both bits of hstatus.
fn with_statuses(mut p: Priv, mstatus: u64, vsstatus: u64) -> Priv {
    write_csr(&mut p, 0x300, mstatus);
    write_csr(&mut p, 0x600, 0x180);
    write_csr(&mut p, 0x200, vsstatus);
    p
}

// mstatus, hstatus and vsstatus as they read.
fn statuses(p: &Priv) -> (u64, u64, u64) {
    (read_csr(p, 0x300), read_csr(p, 0x600), read_csr(p, 0x200))
}

// The mode that takes an exception, and the three registers after it.
fn trapped(mut p: Priv, mode: Mode) -> (Mode, (u64, u64, u64)) {
    let trap = Trap::Exception(8);
    let target = trap_target(&p, mode, trap);
    enter_trap(&mut p, mode, trap, 0x8000_0000, 0);
    (target, statuses(&p))
}

// The mode that a return goes to, and the three registers after it.
fn returned(mut p: Priv, ret: Ret) -> (Mode, (u64, u64, u64)) {
    let (mode, _) = leave_trap(&mut p, ret);
    (mode, statuses(&p))
}

#[test]
fn a_trap_into_m_sets_each_bit_anew(rt: HostRuntime) {
    for (mode, before, after) in [
        (Mode::M, 0x80_0000_19A2, 0xA_0000_1922),
        (Mode::S, 0x80_0000_19A2, 0xA_0000_0922),
        (Mode::U, 0x80_0000_19A2, 0xA_0000_0122),
        (Mode::Vs, 0x80_0000_19A2, 0x8A_0000_0922),
        (Mode::Vu, 0x80_0000_19A2, 0x8A_0000_0122),
        (Mode::M, 0x80_0000_19AA, 0xA_0000_19A2), // with MIE
        (Mode::S, 0x80_0000_19AA, 0xA_0000_09A2),
        (Mode::U, 0x80_0000_19AA, 0xA_0000_01A2),
        (Mode::Vs, 0x80_0000_19AA, 0x8A_0000_09A2),
        (Mode::Vu, 0x80_0000_19AA, 0x8A_0000_01A2),
    ] {
        assert_eq!(rt;
            trapped(with_statuses(Priv::fresh(), before, 0x122), mode),
            (Mode::M, (after, 0x2_0000_0180, 0x2_0000_0122)),
            "from {mode:?} with mstatus {before:x}"
        );
    }
}

#[test]
fn a_trap_into_s_sets_each_bit_anew(rt: HostRuntime) {
    for (mode, before, after, guest) in [
        (Mode::S, 0x80_0000_19A0, 0x8A_0000_1980, 0x2_0000_0100),
        (Mode::U, 0x80_0000_19A0, 0x8A_0000_1880, 0x2_0000_0100),
        (Mode::Vs, 0x80_0000_19A0, 0x8A_0000_1980, 0x2_0000_0180),
        (Mode::Vu, 0x80_0000_19A0, 0x8A_0000_1880, 0x2_0000_0080),
        (Mode::S, 0x80_0000_19A2, 0x8A_0000_19A0, 0x2_0000_0100), // with SIE
        (Mode::U, 0x80_0000_19A2, 0x8A_0000_18A0, 0x2_0000_0100),
        (Mode::Vs, 0x80_0000_19A2, 0x8A_0000_19A0, 0x2_0000_0180),
        (Mode::Vu, 0x80_0000_19A2, 0x8A_0000_18A0, 0x2_0000_0080),
    ] {
        let p = delegating(0x40_07FF, 0, 0, 0);
        assert_eq!(rt;
            trapped(with_statuses(p, before, 0x122), mode),
            (Mode::S, (after, guest, 0x2_0000_0122)),
            "from {mode:?} with mstatus {before:x}"
        );
    }
}

#[test]
fn a_trap_into_vs_sets_each_bit_anew(rt: HostRuntime) {
    for (mode, before, after) in [
        (Mode::Vs, 0x120, 0x2_0000_0100),
        (Mode::Vu, 0x120, 0x2_0000_0000),
        (Mode::Vs, 0x122, 0x2_0000_0120), // with SIE
        (Mode::Vu, 0x122, 0x2_0000_0020),
    ] {
        let p = delegating(0x40_07FF, 0, 0x1FF, 0);
        assert_eq!(rt;
            trapped(with_statuses(p, 0x80_0000_19AA, before), mode),
            (Mode::Vs, (0x8A_0000_19AA, 0x2_0000_0180, after)),
            "from {mode:?} with vsstatus {before:x}"
        );
    }
}

#[test]
fn a_return_sets_each_bit_anew(rt: HostRuntime) {
    for (before, after) in [
        (0x80_0000_19A2, 0xA_0000_01AA),
        (0x80_0000_19AA, 0xA_0000_01AA),
        (0x80_0000_1922, 0xA_0000_01A2), // without MPIE
        (0x80_0000_192A, 0xA_0000_01A2),
    ] {
        assert_eq!(rt;
            returned(with_statuses(Priv::fresh(), before, 0x122), Ret::Mret),
            (Mode::M, (after, 0x2_0000_0180, 0x2_0000_0122)),
            "MRET with mstatus {before:x}"
        );
    }
    for (before, after) in [
        (0x80_0000_19A0, 0x8A_0000_18A2),
        (0x80_0000_19A2, 0x8A_0000_18A2),
        (0x80_0000_1980, 0x8A_0000_18A0), // without SPIE
        (0x80_0000_1982, 0x8A_0000_18A0),
    ] {
        assert_eq!(rt;
            returned(with_statuses(Priv::fresh(), before, 0x122), Ret::SretHs),
            (Mode::Vs, (after, 0x2_0000_0100, 0x2_0000_0122)),
            "SRET with mstatus {before:x}"
        );
    }
    for (before, after) in [
        (0x120, 0x2_0000_0022),
        (0x122, 0x2_0000_0022),
        (0x100, 0x2_0000_0020), // without SPIE
        (0x102, 0x2_0000_0020),
    ] {
        let p = with_statuses(Priv::fresh(), 0x80_0000_19AA, before);
        assert_eq!(rt;
            returned(p, Ret::SretVs),
            (Mode::Vs, (0x8A_0000_19AA, 0x2_0000_0180, after)),
            "SRET in VS with vsstatus {before:x}"
        );
    }
}
