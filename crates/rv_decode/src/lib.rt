//! Words of RISC-V instructions (RV64IM, Zicsr, Zifencei, the returns from traps, WFI and SCTRCLR) as instructions.
//! Stands on the bit fields of `ctr_bits`.
#![tactic(auto)]

mod fields;
mod instruction;
mod laws;
mod operations;
mod table;
mod words;

pub use instruction::{CsrArg, Instr};
pub use laws::{table_laws, word_laws};
pub use operations::{AluOp, Cond, CsrOp, Width};
pub use words::decode;

#[cfg(test)]
mod tests;
