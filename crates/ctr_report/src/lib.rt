//! What the branches of many samples come to: each pair of source and target, and how many branches
//! have it.
//!
//! A [`Report`] counts one branch after another, and its [`Rows`] are the pairs, the one that most
//! branches have first.
#![tactic(auto)]

mod laws;
mod report;
mod rows;

pub use laws::report_laws;
pub use report::{MAX_PAIRS, Report, ReportFault};
pub use rows::{Row, Rows};

#[cfg(test)]
mod tests;
