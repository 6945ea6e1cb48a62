//! Bit fields of registers and instruction words, and sign extension. Stands on nothing.
#![tactic(auto)]

mod extend;
mod field;
mod laws;

pub use extend::sext;
pub use field::Field;
pub use laws::{field_laws, mask_laws, sext_laws};

#[cfg(test)]
mod tests;
