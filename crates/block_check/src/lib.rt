//! Branch stacks judged against the code that they are said to come from.
//!
//! The branches of a sample are the transfers that its task made, the youngest first. Each must
//! start at a jump, branch or return of the image that it fits, and from where one went to where
//! the next one started the code must run straight on. That a stack passes doesn't say that a run
//! made it.
#![tactic(auto)]

mod checking;
mod image;
mod laws;
mod rules;
mod straight;

pub use checking::check_sample;
pub use image::IMAGE_BASE;
pub use laws::check_laws;
pub use rules::{Broken, Why};

#[cfg(test)]
mod tests;
