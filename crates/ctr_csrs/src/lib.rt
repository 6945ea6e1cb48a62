//! The privilege modes and the control registers of control transfer records: which values each register holds,
//! which part of it a narrower mode sees, how deep the record buffer is, and where it writes next.
//!
//! It stands on `ctr_bits`.
#![tactic(auto)]

pub use control::{Control, legal_m, legal_s, legal_vs, view_s};
pub use control_bit::ControlBit;
pub use depth::{Depth, depth_code, depth_of, entries};
pub use laws::{register_laws, trap_laws};
pub use mode::Mode;
pub use status::{Status, status_of, status_word};

mod control;
mod control_bit;
mod depth;
mod laws;
mod mode;
mod status;
#[cfg(test)]
mod tests;
