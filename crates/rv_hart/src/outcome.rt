//! How an instruction goes on.

use guest_modes::Ret;
use xfer_class::XferType;

/// A jump or a branch: its transfer type, and whether the static predictor missed it, which it does of branches alone.
#[derive(Clone, Copy, Debug, PartialEq, Eq)]
pub struct Jump {
    pub kind: XferType,

    pub misp: bool,
}

/// How an instruction goes on.
#[derive(Clone, Copy, Debug, PartialEq, Eq)]
pub enum Outcome {
    /// At this address, by a jump or a branch if it is one.
    Goes(Option<Jump>, u64),

    /// By a return from a trap.
    Returns(Ret),

    /// By an exception: its number, and the value for the trap value register.
    Raises(u8, u64),
}
