//! A hart of RV64IM with the modes M, S, U, VS and VU, its control transfer records, and the memory of the task that it
//! runs: one step of the architecture, and sixteen harts.
//!
//! It stands on the crates of the instructions (`rv_decode`, `rv_alu`, `xfer_class`), of the records (`ctr_csrs`,
//! `ctr_rules`, `ctr_buffer`), of privilege (`guest_modes`) and of the registers of both (`indirect_regs`), on `ctr_port`
//! for its want of memory, and on `byteorder`.
#![tactic(auto)]

pub use hart::Hart;
pub use harts::{Harts, Store};
pub use laws::{core_facts, fact_laws, lone_run_laws, step_laws};
pub use memory::TaskMem;
pub use processor::Core;

mod effect;
mod freshness;
mod hart;
mod harts;
mod laws;
mod memory;
mod outcome;
mod processor;
mod step;
#[cfg(test)]
mod tests;
mod transfers;
