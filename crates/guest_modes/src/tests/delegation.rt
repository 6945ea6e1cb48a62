//! Which mode takes a trap, and which interrupt comes (Privileged Architecture, "Machine Trap
//! Delegation Registers", "Hypervisor Trap Delegation Registers", "Machine Interrupt Registers").

use super::delegating;
use crate::{Trap, is_interrupt, pick_interrupt, trap_target, write_csr};
use ctr_csrs::Mode;

#[test]
fn exceptions_go_where_they_are_delegated(rt: HostRuntime) {
    let none = delegating(0, 0, 0x1FF, 0);
    let all = delegating(0x40_07FF, 0, 0x1FF, 0);
    let machine = delegating(0x40_07FF, 0, 0, 0);
    for (cause, host, guest) in [
        (0, Mode::S, Mode::Vs),
        (1, Mode::S, Mode::Vs),
        (2, Mode::S, Mode::Vs),
        (3, Mode::S, Mode::Vs),
        (4, Mode::S, Mode::Vs),
        (5, Mode::S, Mode::Vs),
        (6, Mode::S, Mode::Vs),
        (7, Mode::S, Mode::Vs),
        (8, Mode::S, Mode::Vs),
        (9, Mode::S, Mode::S), // the hypervisor delegates 0 to 8
        (10, Mode::S, Mode::S),
        (11, Mode::M, Mode::M), // an ECALL in M can't be delegated
        (22, Mode::S, Mode::S),
    ] {
        assert!(rt; cause < 12 || cause == 22, "{cause} is an exception");
        let trap = Trap::Exception(cause);
        for (mode, want) in [
            (Mode::M, Mode::M),
            (Mode::S, host),
            (Mode::U, host),
            (Mode::Vs, guest),
            (Mode::Vu, guest),
        ] {
            assert_eq!(rt;
                trap_target(&all, mode, trap),
                want,
                "exception {cause} in {mode:?}"
            );
            assert_eq!(rt;
                trap_target(&none, mode, trap),
                Mode::M,
                "exception {cause} in {mode:?}, nothing delegated"
            );
            if mode != Mode::M {
                assert_eq!(rt;
                    trap_target(&machine, mode, trap),
                    host,
                    "exception {cause} in {mode:?}, no guest"
                );
            }
        }
    }
}

#[test]
fn interrupts_go_where_they_are_delegated(rt: HostRuntime) {
    let none = delegating(0, 0, 0, 0);
    let machine = delegating(0, 0x2222, 0, 0);
    let guest = delegating(0, 0, 0, 0x2444);
    let all = delegating(0, 0x2222, 0, 0x2444);
    for (cause, in_none, in_machine, in_guest, in_all) in [
        (1, Mode::M, Mode::S, Mode::M, Mode::S),
        (2, Mode::S, Mode::S, Mode::Vs, Mode::Vs), // M always delegates the interrupts of VS
        (3, Mode::M, Mode::M, Mode::M, Mode::M),
        (5, Mode::M, Mode::S, Mode::M, Mode::S),
        (6, Mode::S, Mode::S, Mode::Vs, Mode::Vs),
        (7, Mode::M, Mode::M, Mode::M, Mode::M),
        (9, Mode::M, Mode::S, Mode::M, Mode::S),
        (10, Mode::S, Mode::S, Mode::Vs, Mode::Vs),
        (11, Mode::M, Mode::M, Mode::M, Mode::M),
        (13, Mode::M, Mode::S, Mode::M, Mode::Vs), // wants both delegations
    ] {
        assert!(rt; is_interrupt(cause), "{cause} is an interrupt");
        let trap = Trap::Interrupt(cause);
        for mode in [Mode::M, Mode::S, Mode::U, Mode::Vs, Mode::Vu] {
            assert_eq!(rt;
                trap_target(&none, mode, trap),
                in_none,
                "interrupt {cause} in {mode:?}"
            );
            assert_eq!(rt;
                trap_target(&machine, mode, trap),
                in_machine,
                "interrupt {cause} in {mode:?}, S"
            );
            assert_eq!(rt;
                trap_target(&guest, mode, trap),
                in_guest,
                "interrupt {cause} in {mode:?}, VS"
            );
            assert_eq!(rt;
                trap_target(&all, mode, trap),
                in_all,
                "interrupt {cause} in {mode:?}, both"
            );
        }
    }
}

#[test]
fn interrupts_are_taken_in_their_order(rt: HostRuntime) {
    for (mideleg, hideleg, order) in [
        (0, 0, [11, 3, 7, 9, 1, 5, 13, 10, 2, 6]), // all but those of VS go to M
        (0x2222, 0, [11, 3, 7, 9, 1, 5, 10, 2, 6, 13]), // 11, 3 and 7 go to M, the others to S
        (0x2222, 0x2444, [11, 3, 7, 9, 1, 5, 10, 2, 6, 13]), // 9, 1 and 5 go to S, then those of VS
        (0, 0x2444, [11, 3, 7, 9, 1, 5, 13, 10, 2, 6]), // those of VS go to VS
    ] {
        let mut p = delegating(0, mideleg, 0, hideleg);
        write_csr(&mut p, 0x304, 0x2EEE);
        p.raise(0x2EEE);
        for cause in order {
            assert!(rt; is_interrupt(cause), "{cause} is an interrupt");
            assert_eq!(rt;
                pick_interrupt(&p, Mode::Vu),
                Some(cause),
                "mideleg {mideleg}, hideleg {hideleg}"
            );
            p.lower(cause);
        }
        assert_eq!(rt; pick_interrupt(&p, Mode::Vu), None, "nothing is pending");
    }
}

#[test]
fn interrupts_come_where_the_mode_lets_them(rt: HostRuntime) {
    // The pending interrupt; mstatus and vsstatus; whether it is taken in M, S, U, VS and VU.
    for (cause, status, guest_status, taken) in [
        (3, 0, 0, [false, true, true, true, true]), // one of M
        (3, 0x8, 0, [true, true, true, true, true]), // MIE
        (9, 0, 0, [false, false, true, true, true]), // one of S
        (9, 0x2, 0, [false, true, true, true, true]), // SIE
        (9, 0x8, 0, [false, false, true, true, true]), // M doesn't take one of S
        (10, 0, 0, [false, false, false, false, true]), // one of VS
        (10, 0xA, 0x2, [false, false, false, true, true]), // SIE of VS
        (10, 0xA, 0, [false, false, false, false, true]),
    ] {
        let mut p = delegating(0, 0x2222, 0, 0x2444);
        write_csr(&mut p, 0x304, 0x2EEE);
        write_csr(&mut p, 0x300, status);
        write_csr(&mut p, 0x200, guest_status);
        assert!(rt; is_interrupt(cause), "{cause} is an interrupt");
        let all = 0x2EEE;
        p.raise(all);
        for other in [1, 2, 3, 5, 6, 7, 9, 10, 11, 13] {
            if other != cause && is_interrupt(other) {
                p.lower(other);
            }
        }
        let [m, s, u, vs, vu] = taken;
        for (mode, is_taken) in [
            (Mode::M, m),
            (Mode::S, s),
            (Mode::U, u),
            (Mode::Vs, vs),
            (Mode::Vu, vu),
        ] {
            assert_eq!(rt;
                pick_interrupt(&p, mode).is_some(),
                is_taken,
                "interrupt {cause} in {mode:?}, mstatus {status}"
            );
        }
        write_csr(&mut p, 0x304, 0);
        assert_eq!(rt;
            pick_interrupt(&p, Mode::Vu),
            None,
            "interrupt {cause} isn't enabled"
        );
    }
}
