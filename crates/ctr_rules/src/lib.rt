//! What a control transfer does to the records: recorded, popped, swapped, frozen, or nothing, by the modes, the
//! controls and the transfer type.
//!
//! It stands on `ctr_csrs` and `xfer_class`.
#![tactic(auto)]

pub use rules::{act, row_laws};
pub use transfer::{Act, Record, Transfer};

mod parts;
mod rules;
#[cfg(test)]
mod tests;
mod transfer;
