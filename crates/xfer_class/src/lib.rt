//! Transfer types of RISC-V Control Transfer Records 1.0: which jump, branch or return is of which
//! type, and which of them the static predictor of this project misses. Stands on the instructions
//! of `rv_decode`.
#![tactic(auto)]

mod class;
mod prediction;
mod types;

pub use class::class_of;
pub use prediction::{missed, prediction_laws};
pub use types::XferType;

#[cfg(test)]
mod tests;
