//! The top call: what the program does with its words, its input and its output.
#![tactic(auto)]

mod bytes;
mod command;
mod counting;
mod demo;
mod fault;
mod laws;
mod memories;
mod notes;
mod numbers;
mod performing;
mod running;
mod sample_text;
mod showing;
mod top;
mod words;

pub use fault::{Fault, Outcome};
pub use laws::schedule_laws;
pub use top::ctrsim;
