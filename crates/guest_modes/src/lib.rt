//! Privilege of a hart with the hypervisor extension: the registers of its software and who may reach them, traps and
//! their delegation, interrupts and returns. Nothing here knows of control transfer records but their numbers.
//!
//! It stands on `ctr_csrs` and `ctr_bits`.
#![tactic(auto)]

pub use causes::{
    BREAKPOINT, ENVIRONMENT_CALL_FROM_M, ENVIRONMENT_CALL_FROM_S, ENVIRONMENT_CALL_FROM_U,
    ENVIRONMENT_CALL_FROM_VS, ILLEGAL_INSTRUCTION, INSTRUCTION_ACCESS_FAULT,
    INSTRUCTION_ADDRESS_MISALIGNED, INTERRUPTS, LOAD_ACCESS_FAULT, LOAD_ADDRESS_MISALIGNED,
    LOCAL_COUNTER_OVERFLOW, STORE_ACCESS_FAULT, STORE_ADDRESS_MISALIGNED, VIRTUAL_INSTRUCTION,
};
pub use entering::enter_trap;
pub use facts::{fact_laws, priv_facts};
pub use gating::{CsrFault, gate};
pub use interrupts::{is_interrupt, is_quiet, pick_interrupt};
pub use laws::{interrupt_laws, privilege_laws, status_laws};
pub use numbered::{is_register, read_csr, write_csr};
pub use registers::Priv;
pub use returning::{Ret, leave_trap};
pub use targets::{Trap, trap_target};

mod causes;
mod entering;
mod facts;
mod gating;
mod interrupts;
mod laws;
mod masked;
mod mstatus;
mod numbered;
mod registers;
mod returning;
mod targets;
#[cfg(test)]
mod tests;
