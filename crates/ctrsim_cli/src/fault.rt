//! How a call of the program ends.

use perf_sample::SampleFault;
use sched_text::LineFault;

/// Why a call did not do all that it was asked to.
#[derive(Clone, Copy, Debug, PartialEq, Eq)]
pub enum Fault {
    /// The words are none that the program knows.
    Usage,
    /// A read of the source failed.
    ReadFault,
    /// A write to the sink failed.
    WriteFault,
    /// A line of the schedule is refused: its number from 1, and why.
    Line(LineFault),
    /// The bytes at this offset of the input are no sample, and why; never a failed read.
    Sample(u64, SampleFault),
    /// No memory was found. It comes before the first command is performed.
    Memory,
}

/// The exit status, and the fault that it stands for: 0 for none, 2 Usage, 3 ReadFault, 4 WriteFault,
/// 5 Line, 6 Sample, 7 Memory.
#[derive(Clone, Copy, Debug, PartialEq, Eq)]
pub struct Outcome {
    pub status: u8,
    pub fault: Option<Fault>,
}
