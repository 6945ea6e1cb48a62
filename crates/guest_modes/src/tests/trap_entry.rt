//! Traps and returns (Privileged Architecture, "Trap Entry" and "Trap Return" of the hypervisor
//! extension; "Machine Trap-Vector Base-Address Register" and its forms of S and VS).

use super::{ONES, delegating};
use crate::{
    Priv, Ret, Trap, enter_trap, is_interrupt, is_register, leave_trap, pick_interrupt, read_csr,
    trap_target, write_csr,
};
use ctr_csrs::Mode;

#[test]
fn a_trap_into_m_keeps_the_mode_it_comes_from(rt: HostRuntime) {
    for (mode, status) in [
        (Mode::M, 0xA_0000_1880), // MPP 3, MPIE from MIE, MIE 0
        (Mode::S, 0xA_0000_0880), // MPP 1
        (Mode::U, 0xA_0000_0080), // MPP 0
        (Mode::Vs, 0x8A_0000_0880), // MPP 1, MPV
        (Mode::Vu, 0x8A_0000_0080), // MPP 0, MPV
    ] {
        let mut p = Priv::fresh();
        write_csr(&mut p, 0x300, 0x8);
        write_csr(&mut p, 0x305, 0x8000_0101);
        write_csr(&mut p, 0x34A, ONES);
        write_csr(&mut p, 0x34B, ONES);
        let trap = Trap::Exception(2);
        assert_eq!(rt;
            trap_target(&p, mode, trap),
            Mode::M,
            "nothing is delegated"
        );
        assert_eq!(rt;
            enter_trap(&mut p, mode, trap, 0x8000_0010, 0x77),
            (Mode::M, 0x8000_0100),
            "an exception goes to the base"
        );
        for (csr, want) in [
            (0x300, status),
            (0x341, 0x8000_0010),
            (0x342, 2),
            (0x343, 0x77),
            (0x34A, 0),
            (0x34B, 0),
        ] {
            assert!(rt; is_register(csr), "{csr} is a register");
            assert_eq!(rt;
                read_csr(&p, csr),
                want,
                "register {csr} after a trap from {mode:?}"
            );
        }
    }
}

#[test]
fn a_trap_into_s_or_vs_keeps_the_mode_it_comes_from(rt: HostRuntime) {
    for (mode, status, guest) in [
        (Mode::S, 0xA_0000_0120, 0x2_0000_0100), // SPP 1, SPIE from SIE, SIE 0; SPV 0, SPVP as it was
        (Mode::U, 0xA_0000_0020, 0x2_0000_0100), // SPP 0
        (Mode::Vs, 0xA_0000_0120, 0x2_0000_0180), // SPV, and SPVP is the new SPP
        (Mode::Vu, 0xA_0000_0020, 0x2_0000_0080),
    ] {
        let mut p = delegating(0x40_07FF, 0, 0, 0);
        write_csr(&mut p, 0x300, 0x2);
        write_csr(&mut p, 0x600, 0x100);
        write_csr(&mut p, 0x105, 0x8000_0200);
        write_csr(&mut p, 0x643, ONES);
        write_csr(&mut p, 0x64A, ONES);
        let trap = Trap::Exception(8);
        assert_eq!(rt; trap_target(&p, mode, trap), Mode::S, "M delegates it");
        assert_eq!(rt;
            enter_trap(&mut p, mode, trap, 0x8000_0014, 0x78),
            (Mode::S, 0x8000_0200),
            "from {mode:?}"
        );
        for (csr, want) in [
            (0x300, status),
            (0x600, guest),
            (0x141, 0x8000_0014),
            (0x142, 8),
            (0x143, 0x78),
            (0x643, 0),
            (0x64A, 0),
        ] {
            assert!(rt; is_register(csr), "{csr} is a register");
            assert_eq!(rt;
                read_csr(&p, csr),
                want,
                "register {csr} after a trap from {mode:?}"
            );
        }
    }
    for (mode, status) in [(Mode::Vs, 0x2_0000_0120), (Mode::Vu, 0x2_0000_0020)] {
        let mut p = delegating(0x40_07FF, 0, 0x1FF, 0);
        write_csr(&mut p, 0x200, 0x2);
        write_csr(&mut p, 0x205, 0x8000_0300);
        let trap = Trap::Exception(8);
        assert_eq!(rt;
            trap_target(&p, mode, trap),
            Mode::Vs,
            "the hypervisor delegates it too"
        );
        assert_eq!(rt;
            enter_trap(&mut p, mode, trap, 0x8000_0018, 0x79),
            (Mode::Vs, 0x8000_0300),
            "from {mode:?}"
        );
        for (csr, want) in [
            (0x200, status),
            (0x241, 0x8000_0018),
            (0x242, 8),
            (0x243, 0x79),
            (0x300, 0xA_0000_0000),
            (0x600, 0x2_0000_0000),
        ] {
            assert!(rt; is_register(csr), "{csr} is a register");
            assert_eq!(rt;
                read_csr(&p, csr),
                want,
                "register {csr} after a trap from {mode:?}"
            );
        }
    }
}

#[test]
fn interrupts_have_handlers_of_their_own_in_vectored_mode(rt: HostRuntime) {
    let mut p = delegating(0, 0x2222, 0, 0x2444);
    write_csr(&mut p, 0x304, 0x2EEE);
    write_csr(&mut p, 0x305, 0x1001);
    write_csr(&mut p, 0x105, 0x2001);
    write_csr(&mut p, 0x205, 0x3001);
    p.raise(0x2EEE);
    for (cause, mode, handler, register, word) in [
        (11, Mode::M, 0x102C, 0x342, 0x8000_0000_0000_000B),
        (3, Mode::M, 0x100C, 0x342, 0x8000_0000_0000_0003),
        (7, Mode::M, 0x101C, 0x342, 0x8000_0000_0000_0007),
        (9, Mode::S, 0x2024, 0x142, 0x8000_0000_0000_0009),
        (1, Mode::S, 0x2004, 0x142, 0x8000_0000_0000_0001),
        (5, Mode::S, 0x2014, 0x142, 0x8000_0000_0000_0005),
        (10, Mode::Vs, 0x3024, 0x242, 0x8000_0000_0000_0009), // VS sees the number of S, in its vector too
        (2, Mode::Vs, 0x3004, 0x242, 0x8000_0000_0000_0001),
        (6, Mode::Vs, 0x3014, 0x242, 0x8000_0000_0000_0005),
        (13, Mode::Vs, 0x3034, 0x242, 0x8000_0000_0000_000D), // this one has one number everywhere
    ] {
        assert!(rt; is_interrupt(cause), "{cause} is an interrupt");
        assert_eq!(rt;
            pick_interrupt(&p, Mode::Vu),
            Some(cause),
            "interrupt {cause} is next"
        );
        let mut q = p;
        assert_eq!(rt;
            enter_trap(&mut q, Mode::Vu, Trap::Interrupt(cause), 0x8000_0000, 0),
            (mode, handler),
            "interrupt {cause}"
        );
        assert!(rt; is_register(register), "{register} is a register");
        assert_eq!(rt;
            read_csr(&q, register),
            word,
            "the cause of interrupt {cause}"
        );
        p.lower(cause);
    }
}

// The interrupts of VS by who takes them: S finds them by their own numbers, VS by those of S.
#[test]
fn interrupts_of_vs_have_other_numbers_in_vs_alone(rt: HostRuntime) {
    for (cause, in_s, s_handler, in_vs, vs_handler) in [
        (
            2,
            0x8000_0000_0000_0002,
            0x2008,
            0x8000_0000_0000_0001,
            0x3004,
        ),
        (
            6,
            0x8000_0000_0000_0006,
            0x2018,
            0x8000_0000_0000_0005,
            0x3014,
        ),
        (
            10,
            0x8000_0000_0000_000A,
            0x2028,
            0x8000_0000_0000_0009,
            0x3024,
        ),
    ] {
        for (hideleg, mode, handler, register, word) in [
            (0, Mode::S, s_handler, 0x142, in_s),
            (0x2444, Mode::Vs, vs_handler, 0x242, in_vs),
        ] {
            let mut p = delegating(0, 0, 0, hideleg);
            write_csr(&mut p, 0x304, ONES);
            write_csr(&mut p, 0x105, 0x2001);
            write_csr(&mut p, 0x205, 0x3001);
            assert!(rt; is_interrupt(cause), "{cause} is an interrupt");
            p.raise(0x444);
            for other in [2, 6, 10] {
                if other != cause && is_interrupt(other) {
                    p.lower(other);
                }
            }
            assert_eq!(rt;
                pick_interrupt(&p, Mode::Vu),
                Some(cause),
                "{cause} is next"
            );
            assert_eq!(rt;
                enter_trap(&mut p, Mode::Vu, Trap::Interrupt(cause), 0x8000_0000, 0),
                (mode, handler),
                "interrupt {cause} with hideleg {hideleg:x}"
            );
            assert!(rt; is_register(register), "{register} is a register");
            assert_eq!(rt; read_csr(&p, register), word, "its cause");
        }
    }
}

#[test]
fn returns_go_back_by_the_kept_mode(rt: HostRuntime) {
    // The return; mstatus and hstatus, or vsstatus alone, before it; the mode; the same registers after it.
    for (ret, status, guest, mode, status_after, guest_after) in [
        (
            Ret::Mret,
            0x80_0000_1880,
            0x80,
            Mode::M,
            0xA_0000_0088,
            0x2_0000_0080,
        ), // M whatever MPV says, and MPV is cleared
        (Ret::Mret, 0x1808, 0, Mode::M, 0xA_0000_0080, 0x2_0000_0000), // MIE from MPIE
        (Ret::Mret, 0x880, 0, Mode::S, 0xA_0000_0088, 0x2_0000_0000),
        (
            Ret::Mret,
            0x80_0000_0800,
            0,
            Mode::Vs,
            0xA_0000_0080,
            0x2_0000_0000,
        ),
        (
            Ret::Mret,
            0x1A2,
            0x180,
            Mode::U,
            0xA_0000_01AA,
            0x2_0000_0180,
        ), // SIE, SPIE, SPP and hstatus stay
        (
            Ret::Mret,
            0x80_0000_0000,
            0,
            Mode::Vu,
            0xA_0000_0080,
            0x2_0000_0000,
        ),
        (
            Ret::SretHs,
            0x120,
            0x100,
            Mode::S,
            0xA_0000_0022,
            0x2_0000_0100,
        ),
        (
            Ret::SretHs,
            0x102,
            0x80,
            Mode::Vs,
            0xA_0000_0020,
            0x2_0000_0000,
        ), // SPV is cleared
        (Ret::SretHs, 0x20, 0, Mode::U, 0xA_0000_0022, 0x2_0000_0000),
        (
            Ret::SretHs,
            0x80_0000_18A8,
            0x180,
            Mode::Vu,
            0x8A_0000_18AA,
            0x2_0000_0100,
        ), // what is M's stays
    ] {
        let mut p = Priv::fresh();
        write_csr(&mut p, 0x300, status);
        write_csr(&mut p, 0x600, guest);
        write_csr(&mut p, 0x341, 0x8000_0020);
        write_csr(&mut p, 0x141, 0x8000_0020);
        assert_eq!(rt;
            leave_trap(&mut p, ret),
            (mode, 0x8000_0020),
            "{ret:?} with mstatus {status}"
        );
        assert_eq!(rt;
            read_csr(&p, 0x300),
            status_after,
            "{ret:?} with mstatus {status}"
        );
        assert_eq!(rt;
            read_csr(&p, 0x600),
            guest_after,
            "{ret:?} with mstatus {status}"
        );
    }
    for (status, mode, after) in [
        (0x120, Mode::Vs, 0x2_0000_0022),
        (0x2, Mode::Vu, 0x2_0000_0020),
    ] {
        let mut p = Priv::fresh();
        write_csr(&mut p, 0x200, status);
        write_csr(&mut p, 0x241, 0x8000_0024);
        assert_eq!(rt;
            leave_trap(&mut p, Ret::SretVs),
            (mode, 0x8000_0024),
            "vsstatus {status}"
        );
        assert_eq!(rt; read_csr(&p, 0x200), after, "vsstatus {status}");
    }
}
