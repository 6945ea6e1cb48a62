//! What a monitor does to a control transfer unit when it switches tasks: it saves the unit of a hart in an area, makes
//! a hart's unit the one that an area holds, and reads the stack of the recorded transfers.
//!
//! It stands on `indirect_regs`, `ctr_buffer` and `ctr_csrs`.
#![tactic(auto)]

pub use laws::area_laws;
pub use restoring::restore;
pub use save_area::SaveArea;
pub use saving::save;
pub use slots::Slots;
pub use stack::{read_stack, read_stack_into};

mod entry;
mod laws;
mod restoring;
mod save_area;
mod saving;
mod slots;
mod stack;
#[cfg(test)]
mod tests;
