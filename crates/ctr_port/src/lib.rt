//! The outside of the simulator: where bytes come from, where they go, and what is said when that
//! fails.
//!
//! A [`Source`] gives bytes in pieces of any length from 1, and a [`Sink`] takes them so. Both
//! count their faults, and a call may report a failure only where the count rose. There are two
//! pairs of ends: over memory, for tests and for callers who have all bytes at hand, and over
//! `std::io`, for programs. A [`NullSink`] keeps nothing of what it takes. [`NoMemory`] is the one
//! answer where memory is missing, and a [`List`] grows by it.
#![tactic(auto)]

mod ends;
mod laws;
mod list;
mod memory_sink;
mod memory_source;
mod null_sink;
mod script;
mod sink;
mod source;
mod std_sink;
mod std_source;
#[cfg(test)]
mod tests;

pub use ends::{Got, NoMemory, Put, WriteFault};
pub use laws::port_laws;
pub use list::List;
pub use memory_sink::MemSink;
pub use memory_source::MemSource;
pub use null_sink::NullSink;
pub use sink::{Sink, write_whole};
pub use source::Source;
pub use std_sink::StdSink;
pub use std_source::StdSource;
