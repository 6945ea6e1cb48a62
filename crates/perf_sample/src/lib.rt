//! Perf samples with branch stacks, as values and as bytes: the record PERF_RECORD_SAMPLE of Linux
//! `perf_event.h`.
//!
//! A layout says which fields a sample has. `encode` writes a sample as the one spelling that its
//! layout gives it, and a `SampleReader` reads a stream of them, or answers the first field that is
//! broken. The parts of a sample (its header, the fields in front of the number of branches, a number
//! of its own, and what stands behind) are read and written one by one for records that hold
//! something more between them.
#![tactic(auto)]

mod back;
mod branch;
mod branches;
mod faults;
mod field;
mod fields;
mod flags;
mod front;
mod header;
mod laws;
mod layout;
mod limits;
mod numbers;
mod perf_types;
mod reader;
mod reading;
mod sample;
mod word;
mod writing;

pub use back::read_back;
pub use branches::Branches;
pub use faults::{Place, SampleFault};
pub use field::{Stop, read_number};
pub use flags::{
    BRANCH_SIZE, BRANCH_STACK, FIRST_RESERVED, HW_INDEX, MISC_GUEST_KERNEL, MISC_GUEST_USER,
    MISC_HYPERVISOR, MISC_KERNEL, MISC_USER, MISPRED, PERF_RECORD_SAMPLE, PREDICTED, TYPE,
};
pub use front::read_front;
pub use header::{Header, read_header};
pub use laws::sample_laws;
pub use layout::Layout;
pub use limits::{
    BUFFER_SIZE, FIELD_SIZE, MAX_BRANCHES, MAX_FIXED_LEN, MAX_FRONT_SIZE, MAX_SAMPLE_SIZE,
    MAX_SAMPLES, MAX_STACK_SIZE,
};
pub use perf_types::perf_type;
pub use reader::SampleReader;
pub use sample::{Branch, Sample};
pub use writing::{Buffer, encode, put_back, put_front, put_header, put_number};

#[cfg(test)]
mod tests;
