//! Causes, interrupts, and that laws do no work.

use crate::{
    BREAKPOINT, ENVIRONMENT_CALL_FROM_M, ENVIRONMENT_CALL_FROM_S, ENVIRONMENT_CALL_FROM_U,
    ENVIRONMENT_CALL_FROM_VS, ILLEGAL_INSTRUCTION, INSTRUCTION_ACCESS_FAULT,
    INSTRUCTION_ADDRESS_MISALIGNED, LOAD_ACCESS_FAULT, LOAD_ADDRESS_MISALIGNED,
    LOCAL_COUNTER_OVERFLOW, Priv, STORE_ACCESS_FAULT, STORE_ADDRESS_MISALIGNED,
    VIRTUAL_INSTRUCTION, fact_laws, interrupt_laws, is_interrupt, priv_facts, privilege_laws,
    status_laws, write_csr,
};

mod delegation;
mod register_table;
mod status_bits;
mod trap_entry;

const ONES: u64 = 0xFFFF_FFFF_FFFF_FFFF;

// Fresh registers with these delegations.
fn delegating(medeleg: u64, mideleg: u64, hedeleg: u64, hideleg: u64) -> Priv {
    let mut p = Priv::fresh();
    write_csr(&mut p, 0x302, medeleg);
    write_csr(&mut p, 0x303, mideleg);
    write_csr(&mut p, 0x602, hedeleg);
    write_csr(&mut p, 0x603, hideleg);
    p
}

// RISC-V Privileged Architecture, "Machine Cause Register", and the hypervisor extension's table of
// causes.
#[test]
fn each_cause_has_the_number_of_the_standard(rt: HostRuntime) {
    for (cause, want) in [
        (INSTRUCTION_ADDRESS_MISALIGNED, 0),
        (INSTRUCTION_ACCESS_FAULT, 1),
        (ILLEGAL_INSTRUCTION, 2),
        (BREAKPOINT, 3),
        (LOAD_ADDRESS_MISALIGNED, 4),
        (LOAD_ACCESS_FAULT, 5),
        (STORE_ADDRESS_MISALIGNED, 6),
        (STORE_ACCESS_FAULT, 7),
        (ENVIRONMENT_CALL_FROM_U, 8),
        (ENVIRONMENT_CALL_FROM_S, 9),
        (ENVIRONMENT_CALL_FROM_VS, 10),
        (ENVIRONMENT_CALL_FROM_M, 11),
        (LOCAL_COUNTER_OVERFLOW, 13),
        (VIRTUAL_INSTRUCTION, 22),
    ] {
        assert_eq!(rt; cause, want);
    }
}

// RISC-V Privileged Architecture, "Machine Interrupt Registers", and the counter overflow of
// Sscofpmf.
#[test]
fn ten_numbers_are_those_of_interrupts(rt: HostRuntime) {
    for number in [1, 2, 3, 5, 6, 7, 9, 10, 11, 13] {
        assert!(rt; is_interrupt(number), "{number}");
    }
    for number in [0, 4, 8, 12, 14, 15, 63, 64, 65, 77, 255] {
        assert!(rt; !is_interrupt(number), "{number}");
    }
}

#[test]
fn the_laws_do_no_work(rt: HostRuntime) {
    privilege_laws();
    interrupt_laws();
    status_laws();
    fact_laws();
    let fresh = Priv::fresh();
    priv_facts(&fresh);
    assert_eq!(rt; fresh, Priv::fresh());
}
