//! Why a schedule is refused.

use ctr_port::NoMemory;

/// Why a line is refused, in the order in which the rules apply. No reader answers `NoHart`,
/// `NotResident`, `EmptyHart`, or `NoTask` of a command: whoever performs the commands does.
#[derive(Clone, Copy, Debug, PartialEq, Eq)]
pub enum Reason {
    /// 256 bytes came without a line feed.
    LongLine,
    /// The input ended before the line feed, or in place of the line, or inside the images.
    Cut,
    /// The first word may not stand here, or the number of words isn't that of its line.
    NotWord,
    /// A word in a number's place is empty or has another byte than its digits.
    NotNumber,
    /// A number is outside its range.
    Range,
    /// The line is task line 65, irq line 1,025 of its task, or command line 1,048,577.
    TooMany,
    /// There is no task of this number.
    NoTask,
    /// There is no hart of this number.
    NoHart,
    /// The task is on no hart.
    NotResident,
    /// The hart has no task.
    EmptyHart,
    /// An irq line isn't later than the one before it of the same task.
    IrqOrder,
    /// A byte follows the line feed of `end`.
    Trailing,
}

/// A line that is refused, by its number from 1, and why.
#[derive(Clone, Copy, Debug, PartialEq, Eq)]
pub struct LineFault {
    pub line: u32,
    pub reason: Reason,
}

/// Why there is no header or no image.
#[derive(Clone, Copy, Debug, PartialEq, Eq)]
pub enum ScheduleFault {
    Line(LineFault),
    /// A read failed. It comes only where the source's count of faults rose, or was answered
    /// before.
    ReadFault,
    /// No memory was found.
    Memory,
}

impl From<NoMemory> for ScheduleFault {
    ghost use Rattle.std.specs.Prelude.{◌≡◌};
    ghost use Rattle.sched_text.specs.declared.faults.ScheduleFault.TheVariants.{Memory};

    ghost from_gives = { λ _ fault. fault ≡ Memory };

    fn from(_: NoMemory) -> Self {
        ScheduleFault::Memory
    }
}

/// Why there is no command.
#[derive(Clone, Copy, Debug, PartialEq, Eq)]
pub enum CommandFault {
    Line(LineFault),
    /// A read failed. It comes only where the source's count of faults rose, or was answered
    /// before.
    ReadFault,
}
