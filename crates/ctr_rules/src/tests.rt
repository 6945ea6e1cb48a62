//! The recording table, line by line.

ghost use Rattle.std.specs.Prelude.{◌≡◌, true};
ghost use Rattle.ctr_rules.specs.Admitted.{is_branch};

use super::*;
use ctr_csrs::{Control, Mode, legal_m, legal_vs};
use std::process::Abort;
use xfer_class::XferType;

// A transfer from 0x1000 to 0x2000 that freezes nothing.
fn transfer(from: Mode, to: Mode, kind: XferType) -> Transfer
    ensures { result.misp ≡ true → is_branch result.kind ≡ true }
{
    Transfer {
        from,
        to,
        kind,
        source: 0x1000,
        target: 0x2000,
        breakpoint: false,
        lcofi: false,
        misp: false,
    }
}

fn record(source: u64, target: u64, kind: XferType) -> Record {
    Record {
        source,
        target,
        kind,
        misp: false,
    }
}

// Each type with its filter bit, by the register figure of mctrctl (RISC-V Control Transfer Records
// 1.0, "Transfer Type Filtering").
const FILTERS: [(XferType, u64); 13] = [
    (XferType::Exception, 0x2_0000_0000),
    (XferType::Interrupt, 0x4_0000_0000),
    (XferType::TrapReturn, 0x8_0000_0000),
    (XferType::NotTaken, 0x10_0000_0000), // NTBREN, which lets in
    (XferType::Taken, 0x20_0000_0000),
    (XferType::IndirectCall, 0x100_0000_0000),
    (XferType::DirectCall, 0x200_0000_0000),
    (XferType::IndirectJump, 0x400_0000_0000),
    (XferType::DirectJump, 0x800_0000_0000),
    (XferType::Swap, 0x1000_0000_0000),
    (XferType::Return, 0x2000_0000_0000),
    (XferType::IndirectLinkJump, 0x4000_0000_0000),
    (XferType::DirectLinkJump, 0x8000_0000_0000),
];

// All filter bits, and U, S and M.
const ALL: u64 = 0xFF3E_0000_0007;

// The filter bits with which every type is recorded: NTBREN alone.
const LET_IN: u64 = 0x10_0000_0007;

#[test]
fn each_filter_bit_keeps_its_own_type_out_and_no_other(rt: HostRuntime) {
    for (kind, bit) in FILTERS {
        let jump = transfer(Mode::M, Mode::M, kind);
        let whole = Act::Push(record(0x1000, 0x2000, kind));
        let out = Act::Nothing;
        let lets_in = kind == XferType::NotTaken;
        let vs = legal_vs(0);
        assert_eq!(rt;
            act(jump, legal_m(LET_IN), vs, false),
            whole,
            "{kind:?} with NTBREN alone"
        );
        assert_eq!(rt;
            act(jump, legal_m(LET_IN ^ bit), vs, false),
            out,
            "{kind:?} with its own bit changed"
        );
        let others = if lets_in { ALL } else { ALL & !bit };
        assert_eq!(rt;
            act(jump, legal_m(others), vs, false),
            whole,
            "{kind:?} with every other bit changed"
        );
        let guest = transfer(Mode::Vu, Mode::Vu, kind);
        assert_eq!(rt;
            act(guest, legal_m(ALL), legal_vs(LET_IN), false),
            whole,
            "{kind:?} in VU takes vsctrctl"
        );
        assert_eq!(rt;
            act(guest, legal_m(LET_IN), legal_vs(LET_IN ^ bit), false),
            out,
            "{kind:?} in VU"
        );
    }
}

// RISC-V Control Transfer Records 1.0, "RAS Emulation Mode".
#[test]
fn return_stack_emulation_takes_calls_returns_and_swaps_alone(rt: HostRuntime) {
    // U and RASEMU; the filter bits count for nothing under it.
    let m = legal_m(0xFF2E_0000_0081);
    for (kind, _) in FILTERS {
        let whole = record(0x1000, 0x2000, kind);
        let want = match kind {
            XferType::IndirectCall | XferType::DirectCall => Act::Push(whole),
            XferType::Return => Act::Pop,
            XferType::Swap => Act::Swap(whole),
            _ => Act::Nothing,
        };
        let jump = transfer(Mode::U, Mode::U, kind);
        assert_eq!(rt;
            act(jump, m, legal_vs(0), false),
            want,
            "{kind:?} in an enabled mode"
        );
        assert_eq!(rt;
            act(jump, legal_m(0x80), legal_vs(0), false),
            Act::Nothing,
            "{kind:?} in no enabled mode"
        );
    }
    let trap = transfer(Mode::U, Mode::M, XferType::Exception);
    assert_eq!(rt;
        act(trap, legal_m(0x385), legal_vs(0), false),
        Act::Nothing,
        "no trap is recorded under it"
    );
}

// RISC-V Control Transfer Records 1.0, "External Traps".
#[test]
fn an_external_trap_needs_every_trap_enable_bit_of_its_modes(rt: HostRuntime) {
    // STE is 0x100 and MTE 0x200 of mctrctl; STE of vsctrctl is 0x100 too. U is 1 and S is 2.
    for (from, to, mode_m, mode_vs, need_m, need_vs) in [
        (Mode::U, Mode::S, 1, 0, 0x100, 0),
        (Mode::U, Mode::M, 1, 0, 0x300, 0),
        (Mode::S, Mode::M, 2, 0, 0x200, 0),
        (Mode::Vu, Mode::Vs, 0, 1, 0, 0x100),
        (Mode::Vu, Mode::S, 0, 1, 0x100, 0x100),
        (Mode::Vu, Mode::M, 0, 1, 0x300, 0x100),
        (Mode::Vs, Mode::S, 0, 2, 0x100, 0),
        (Mode::Vs, Mode::M, 0, 2, 0x300, 0),
    ] {
        for kind in [XferType::Exception, XferType::Interrupt] {
            let trap = transfer(from, to, kind);
            let seen = |bits_m: u64, bits_vs: u64| act(
                trap,
                legal_m(mode_m | bits_m),
                legal_vs(mode_vs | bits_vs),
                false,
            );
            let out = Act::Push(record(0x1000, 0, kind));
            assert_eq!(rt;
                seen(need_m, need_vs),
                out,
                "{from:?} to {to:?} with the bits needed"
            );
            for (bit_m, bit_vs) in [(0x100, 0), (0x200, 0), (0, 0x100)] {
                let needed = need_m & bit_m != 0 || need_vs & bit_vs != 0;
                let want = if needed { Act::Nothing } else { out };
                let less = seen(0x300 & !bit_m, 0x100 & !bit_vs);
                assert_eq!(rt;
                    less,
                    want,
                    "{from:?} to {to:?} without {bit_m:x} and {bit_vs:x}"
                );
            }
        }
    }
}

// RISC-V Control Transfer Records 1.0, "Privilege Mode Transitions".
#[test]
fn an_address_of_a_mode_that_is_not_enabled_is_recorded_as_zero(rt: HostRuntime) {
    let u = legal_m(0x1); // U alone
    let m = legal_m(0x4); // M alone
    let both = legal_m(0x5);
    let none = legal_vs(0);
    for (from, to, kind, control, want, what) in [
        (
            Mode::U,
            Mode::M,
            XferType::Exception,
            m,
            Act::Push(record(0, 0x2000, XferType::Exception)),
            "a trap in",
        ),
        (
            Mode::M,
            Mode::U,
            XferType::TrapReturn,
            m,
            Act::Push(record(0x1000, 0, XferType::TrapReturn)),
            "a return out",
        ),
        (
            Mode::M,
            Mode::U,
            XferType::TrapReturn,
            u,
            Act::Nothing,
            "a return in isn't recorded",
        ),
        (
            Mode::U,
            Mode::M,
            XferType::Exception,
            both,
            Act::Push(record(0x1000, 0x2000, XferType::Exception)),
            "a trap within",
        ),
        (
            Mode::S,
            Mode::S,
            XferType::DirectJump,
            both,
            Act::Nothing,
            "S isn't enabled",
        ),
        (
            Mode::Vs,
            Mode::Vs,
            XferType::DirectJump,
            both,
            Act::Nothing,
            "nor is VS, by vsctrctl",
        ),
    ] {
        assert_eq!(rt;
            act(transfer(from, to, kind), control, none, false),
            want,
            "{what}"
        );
    }
}

// RISC-V Control Transfer Records 1.0, "Virtualization Mode Transitions".
#[test]
fn a_trap_between_v_0_and_v_1_takes_the_filter_of_vsctrctl(rt: HostRuntime) {
    let ecall = transfer(Mode::Vu, Mode::S, XferType::Exception);
    let excinh = 0x2_0000_0000;
    let in_vs = act(ecall, legal_m(2), legal_vs(excinh | 1), false);
    assert_eq!(rt;
        in_vs,
        Act::Nothing,
        "EXCINH of vsctrctl inhibits, though both modes are enabled"
    );
    let in_m = act(ecall, legal_m(excinh | 2), legal_vs(1), false);
    assert_eq!(rt;
        in_m,
        Act::Push(record(0x1000, 0x2000, XferType::Exception)),
        "EXCINH of mctrctl doesn't"
    );
}

// RISC-V Control Transfer Records 1.0, "Freeze".
#[test]
fn a_freeze_records_nothing_and_needs_no_enabled_mode(rt: HostRuntime) {
    let breakpoint = XferType::Exception;
    let overflow = XferType::Interrupt;
    let bp = 0x800; // BPFRZ
    let lc = 0x1000; // LCOFIFRZ
    for (to, kind, bits_m, bits_vs, freezes) in [
        (Mode::M, breakpoint, bp, 0, true),
        (Mode::M, breakpoint, bp | 7, 0, true), // the trap isn't recorded either
        (Mode::M, breakpoint, lc, 0, false),
        (Mode::S, breakpoint, bp, 0, true),
        (Mode::S, breakpoint, 0, bp, false), // vsctrctl counts for VS alone
        (Mode::Vs, breakpoint, 0, bp, true),
        (Mode::Vs, breakpoint, bp, 0, false),
        (Mode::M, overflow, lc, 0, true),
        (Mode::M, overflow, bp, 0, false),
        (Mode::Vs, overflow, 0, lc, true),
        (Mode::Vs, overflow, lc, 0, false),
    ] {
        let trap = Transfer {
            breakpoint: kind == breakpoint,
            lcofi: kind == overflow,
            ..transfer(to, to, kind)
        };
        let m = legal_m(bits_m);
        let vs = legal_vs(bits_vs);
        let want = if freezes { Act::Freeze } else { Act::Nothing };
        assert_eq!(rt; act(trap, m, vs, false), want, "{kind:?} to {to:?}");
        assert_eq!(rt;
            act(trap, m, vs, true),
            Act::Nothing,
            "{kind:?} to {to:?} while FROZEN is set"
        );
    }
    row_laws();
}

// A transfer of a kind between modes under two controls, and what it does.
#[derive(Clone, Copy)]
struct Row {
    from: Mode,
    to: Mode,
    kind: XferType,
    m: u64,
    vs: u64,
    want: Act,
    what: &'static str,
}

const SOURCE: u64 = 0x1000;

const TARGET: u64 = 0x2000;

// Bits of the two control registers, by their figures.
const U: u64 = 0x1;

const S: u64 = 0x2;

const M: u64 = 0x4;

const RASEMU: u64 = 0x80;

const STE_MTE: u64 = 0x300;

const BPFRZ: u64 = 0x800;

const LCOFIFRZ: u64 = 0x1000;

const EXCINH: u64 = 0x2_0000_0000;

const INTRINH: u64 = 0x4_0000_0000;

const TRETINH: u64 = 0x8_0000_0000;

// What a transfer of a type between modes does under two controls.
fn answer(from: Mode, to: Mode, kind: XferType, m: u64, vs: u64) -> Act {
    act(transfer(from, to, kind), legal_m(m), legal_vs(vs), false)
}

fn pushes(source: u64, target: u64, kind: XferType) -> Act {
    Act::Push(record(source, target, kind))
}

// RISC-V Control Transfer Records 1.0, "Transfer Type Filtering" and "External Traps".
#[test]
fn a_filter_counts_for_traps_in_and_returns_out_and_not_for_external_traps(rt: HostRuntime) {
    let exception = XferType::Exception;
    let interrupt = XferType::Interrupt;
    let back = XferType::TrapReturn;
    let jump = XferType::DirectJump;
    for row in [
        Row {
            from: Mode::U,
            to: Mode::M,
            kind: exception,
            m: EXCINH | M,
            vs: 0,
            want: Act::Nothing,
            what: "an exception in, inhibited",
        },
        Row {
            from: Mode::U,
            to: Mode::M,
            kind: interrupt,
            m: INTRINH | M,
            vs: 0,
            want: Act::Nothing,
            what: "an interrupt in, inhibited",
        },
        Row {
            from: Mode::U,
            to: Mode::M,
            kind: interrupt,
            m: M,
            vs: 0,
            want: pushes(0, TARGET, interrupt),
            what: "an interrupt in",
        },
        Row {
            from: Mode::M,
            to: Mode::U,
            kind: back,
            m: TRETINH | M,
            vs: 0,
            want: Act::Nothing,
            what: "a return out, inhibited",
        },
        Row {
            from: Mode::S,
            to: Mode::Vs,
            kind: back,
            m: S,
            vs: TRETINH | S,
            want: Act::Nothing,
            what: "a return into the guest, inhibited by vsctrctl",
        },
        Row {
            from: Mode::S,
            to: Mode::Vs,
            kind: back,
            m: TRETINH | S,
            vs: S,
            want: pushes(SOURCE, TARGET, back),
            what: "and not by mctrctl",
        },
        Row {
            from: Mode::M,
            to: Mode::Vu,
            kind: back,
            m: M,
            vs: TRETINH,
            want: Act::Nothing,
            what: "a return out to the guest's user, inhibited by vsctrctl",
        },
        Row {
            from: Mode::Vu,
            to: Mode::Vu,
            kind: XferType::Return,
            m: 0,
            vs: RASEMU | U,
            want: Act::Pop,
            what: "a return in VU under emulation by vsctrctl",
        },
        Row {
            from: Mode::Vu,
            to: Mode::Vu,
            kind: XferType::Return,
            m: RASEMU | U,
            vs: U,
            want: pushes(SOURCE, TARGET, XferType::Return),
            what: "and not by mctrctl",
        },
        Row {
            from: Mode::Vu,
            to: Mode::Vu,
            kind: jump,
            m: 0,
            vs: RASEMU | U,
            want: Act::Nothing,
            what: "a jump in VU under emulation",
        },
        Row {
            from: Mode::U,
            to: Mode::M,
            kind: exception,
            m: EXCINH | STE_MTE | U,
            vs: 0,
            want: pushes(SOURCE, 0, exception),
            what: "an external exception, which no filter keeps out",
        },
    ] {
        assert_eq!(rt;
            answer(row.from, row.to, row.kind, row.m, row.vs),
            row.want,
            "{}",
            row.what
        );
    }
}

// RISC-V Control Transfer Records 1.0, "Freeze".
#[test]
fn an_overflow_into_s_freezes_by_mctrctl_alone(rt: HostRuntime) {
    let overflow = Transfer {
        lcofi: true,
        ..transfer(Mode::S, Mode::S, XferType::Interrupt)
    };
    for (m, vs, want) in [(LCOFIFRZ, 0, Act::Freeze), (0, LCOFIFRZ, Act::Nothing)] {
        assert_eq!(rt;
            act(overflow, legal_m(m), legal_vs(vs), false),
            want,
            "mctrctl {m:#x}, vsctrctl {vs:#x}"
        );
    }
}

// A trap of a type between modes under two controls, and whether it sets FROZEN.
fn trap_act(from: Mode, to: Mode, kind: XferType, m: u64, vs: u64) -> Act {
    let trap = Transfer {
        breakpoint: kind == XferType::Exception,
        lcofi: kind == XferType::Interrupt,
        ..transfer(from, to, kind)
    };
    act(trap, legal_m(m), legal_vs(vs), false)
}

// RISC-V Control Transfer Records 1.0, "Freeze": the register of the mode that the trap goes to,
// vsctrctl for VS and mctrctl for M and S, wherever the trap comes from.
#[test]
fn a_freeze_goes_by_the_mode_that_the_trap_goes_to(rt: HostRuntime) {
    let breakpoint = XferType::Exception;
    let overflow = XferType::Interrupt;
    for (from, to, kind, m, vs, want) in [
        (Mode::Vu, Mode::S, breakpoint, BPFRZ, 0, Act::Freeze),
        (Mode::Vu, Mode::S, breakpoint, 0, BPFRZ, Act::Nothing),
        (Mode::Vs, Mode::M, breakpoint, 0, BPFRZ, Act::Nothing),
        (Mode::Vs, Mode::M, breakpoint, BPFRZ, 0, Act::Freeze),
        (Mode::Vu, Mode::M, overflow, LCOFIFRZ, 0, Act::Freeze),
        (Mode::Vu, Mode::M, overflow, 0, LCOFIFRZ, Act::Nothing),
        (Mode::Vu, Mode::Vs, overflow, 0, LCOFIFRZ, Act::Freeze),
        (Mode::Vu, Mode::Vs, overflow, LCOFIFRZ, 0, Act::Nothing),
    ] {
        assert_eq!(rt;
            trap_act(from, to, kind, m, vs),
            want,
            "{kind:?} from {from:?} to {to:?} under {m:x} and {vs:x}"
        );
    }
    for from in MODES {
        for to in [Mode::M, Mode::S, Mode::Vs] {
            for (kind, bit) in [(breakpoint, BPFRZ), (overflow, LCOFIFRZ)] {
                let (by_m, by_vs) = match to {
                    Mode::Vs => (Act::Nothing, Act::Freeze),
                    _ => (Act::Freeze, Act::Nothing),
                };
                assert_eq!(rt;
                    trap_act(from, to, kind, bit, 0),
                    by_m,
                    "{kind:?} from {from:?} to {to:?} by mctrctl"
                );
                assert_eq!(rt;
                    trap_act(from, to, kind, 0, bit),
                    by_vs,
                    "{kind:?} from {from:?} to {to:?} by vsctrctl"
                );
            }
        }
    }
}

// RISC-V Control Transfer Records 1.0, "Virtualization Mode Transitions".
#[test]
fn between_v_0_and_v_1_the_filters_of_vsctrctl_count(rt: HostRuntime) {
    let exception = XferType::Exception;
    for row in [
        Row {
            from: Mode::Vu,
            to: Mode::M,
            kind: exception,
            m: M,
            vs: EXCINH | U,
            want: Act::Nothing,
            what: "an exception of VU into M, inhibited by vsctrctl",
        },
        Row {
            from: Mode::Vu,
            to: Mode::M,
            kind: exception,
            m: EXCINH | M,
            vs: U,
            want: pushes(SOURCE, TARGET, exception),
            what: "an exception of VU into M, which mctrctl doesn't inhibit",
        },
    ] {
        assert_eq!(rt;
            answer(row.from, row.to, row.kind, row.m, row.vs),
            row.want,
            "{}",
            row.what
        );
    }
    // Each pair of modes with another V, both of them enabled.
    for host in [Mode::M, Mode::S] {
        for guest in [Mode::Vs, Mode::Vu] {
            for (from, to, kind, bit) in [
                (guest, host, XferType::Exception, EXCINH),
                (guest, host, XferType::Interrupt, INTRINH),
                (host, guest, XferType::TrapReturn, TRETINH),
            ] {
                let whole = pushes(SOURCE, TARGET, kind);
                let jump = transfer(from, to, kind);
                let by_vs = act(jump, legal_m(M | S), legal_vs(bit | U | S), false);
                assert_eq!(rt; by_vs, Act::Nothing, "{kind:?} from {from:?} to {to:?}");
                let by_m = act(jump, legal_m(bit | M | S), legal_vs(U | S), false);
                assert_eq!(rt; by_m, whole, "{kind:?} from {from:?} to {to:?}");
            }
        }
    }
}

// RISC-V Control Transfer Records 1.0, "Transfer Type Filtering": within V=1, also where the mode
// changes, the filter bits are those of vsctrctl.
#[test]
fn between_two_modes_of_a_guest_the_filters_of_vsctrctl_count(rt: HostRuntime) {
    for (from, to, kind, bit) in [
        (Mode::Vu, Mode::Vs, XferType::Exception, EXCINH),
        (Mode::Vu, Mode::Vs, XferType::Interrupt, INTRINH),
        (Mode::Vs, Mode::Vs, XferType::Exception, EXCINH),
        (Mode::Vs, Mode::Vu, XferType::TrapReturn, TRETINH),
        (Mode::Vs, Mode::Vs, XferType::TrapReturn, TRETINH),
    ] {
        assert_eq!(rt;
            answer(from, to, kind, M | S, bit | U | S),
            Act::Nothing,
            "{kind:?} from {from:?} to {to:?}, inhibited by vsctrctl"
        );
        assert_eq!(rt;
            answer(from, to, kind, bit | M | S, U | S),
            pushes(SOURCE, TARGET, kind),
            "{kind:?} from {from:?} to {to:?}, and not by mctrctl"
        );
    }
}

// RISC-V Control Transfer Records 1.0, "RAS Emulation Mode": with it no trap and no return from one
// is recorded, also where one of the two modes isn't enabled; a freeze comes all the same.
#[test]
fn under_emulation_a_trap_into_or_out_of_an_enabled_mode_is_not_recorded(rt: HostRuntime) {
    for (from, to, kind, m) in [
        (Mode::U, Mode::M, XferType::Exception, RASEMU | STE_MTE | U),
        (Mode::U, Mode::M, XferType::Exception, RASEMU | M),
        (Mode::U, Mode::M, XferType::Interrupt, RASEMU | STE_MTE | U),
        (Mode::U, Mode::M, XferType::Interrupt, RASEMU | M),
        (Mode::M, Mode::U, XferType::TrapReturn, RASEMU | M),
        (Mode::M, Mode::U, XferType::TrapReturn, RASEMU | U),
    ] {
        assert_eq!(rt;
            act(transfer(from, to, kind), legal_m(m), legal_vs(0), false),
            Act::Nothing,
            "{kind:?} from {from:?} to {to:?} under {m:x}"
        );
    }
    for (from, kind, m) in [
        (Mode::M, XferType::Exception, BPFRZ | RASEMU | M),
        (Mode::U, XferType::Exception, BPFRZ | RASEMU | U),
        (Mode::M, XferType::Interrupt, LCOFIFRZ | RASEMU | M),
    ] {
        assert_eq!(rt;
            trap_act(from, Mode::M, kind, m, 0),
            Act::Freeze,
            "{kind:?} from {from:?} under {m:x}"
        );
    }
}

// The modes in the order of their ranks: a trap goes up or stays.
const MODES: [Mode; 5] = [Mode::U, Mode::S, Mode::M, Mode::Vu, Mode::Vs];

// The pairs between which there are external traps.
fn is_external_pair(from: Mode, to: Mode) -> bool {
    matches!(
        (from, to),
        (Mode::U, Mode::S | Mode::M)
            | (Mode::S, Mode::M)
            | (Mode::Vu, Mode::Vs | Mode::S | Mode::M)
            | (Mode::Vs, Mode::S | Mode::M)
    )
}

// The controls that enable a mode alone, with every trap-enable bit.
fn alone(mode: Mode) -> (u64, u64) {
    match mode {
        Mode::U => (STE_MTE | U, STE_MTE),
        Mode::S => (STE_MTE | S, STE_MTE),
        Mode::M => (STE_MTE | M, STE_MTE),
        Mode::Vu => (STE_MTE, STE_MTE | U),
        Mode::Vs => (STE_MTE, STE_MTE | S),
    }
}

// RISC-V Control Transfer Records 1.0, "External Traps".
#[test]
fn between_the_seventeen_other_pairs_of_modes_no_external_trap_is_recorded(rt: HostRuntime) {
    for from in MODES {
        for to in MODES {
            let (m, vs) = alone(from);
            let trap = transfer(from, to, XferType::Exception);
            let same = from == to;
            let want = if same {
                pushes(SOURCE, TARGET, XferType::Exception)
            } else if is_external_pair(from, to) {
                pushes(SOURCE, 0, XferType::Exception)
            } else {
                Act::Nothing
            };
            assert_eq!(rt;
                act(trap, legal_m(m), legal_vs(vs), false),
                want,
                "{from:?} to {to:?} with every trap-enable bit"
            );
        }
    }
}

// A branch in M, mispredicted or not, and its record.
fn records_a_branch(rt: &impl Abort, kind: XferType, misp: bool)
    requires { is_branch kind ≡ true }
{
    let branch = Transfer {
        from: Mode::M,
        to: Mode::M,
        kind,
        source: SOURCE,
        target: TARGET,
        breakpoint: false,
        lcofi: false,
        misp,
    };
    let want = Act::Push(Record {
        source: SOURCE,
        target: TARGET,
        kind,
        misp,
    });
    let lets_in = 0x10_0000_0004; // NTBREN and M
    assert_eq!(rt;
        act(branch, legal_m(lets_in), legal_vs(0), false),
        want,
        "{kind:?} with {misp}"
    );
}

// RISC-V Control Transfer Records 1.0, register ctrtarget: MISP.
#[test]
fn the_record_of_a_branch_has_its_misprediction(rt: HostRuntime) {
    for misp in [false, true] {
        records_a_branch(&rt, XferType::NotTaken, misp);
        records_a_branch(&rt, XferType::Taken, misp);
    }
}
