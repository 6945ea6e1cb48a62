//! What the operations of RV64I and of the extension M compute, and when a branch is taken.
//! Stands on the operations and conditions that `rv_decode` names.
#![tactic(auto)]

mod conditions;
mod divisions;
mod laws;
mod operations;
mod products;
mod words;

pub use conditions::taken;
pub use laws::{division_laws, product_laws, size_laws};
pub use operations::apply;

#[cfg(test)]
mod tests;
