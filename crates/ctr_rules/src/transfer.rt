//! A transfer, what is recorded of it, and what it does.

use ctr_csrs::Mode;
use xfer_class::XferType;

/// A control transfer that a hart makes.
#[derive(Clone, Copy, Debug, PartialEq, Eq)]
pub struct Transfer {
    /// The mode before it.
    pub from: Mode,

    /// The mode after it.
    pub to: Mode,

    pub kind: XferType,

    /// The address of the instruction that made it, or that a trap was taken at.
    pub source: u64,

    /// The address that it went to.
    pub target: u64,

    /// A breakpoint exception, which is cause 3.
    pub breakpoint: bool,

    /// A local counter overflow interrupt, which is number 13.
    pub lcofi: bool,

    /// A branch that was predicted wrongly.
    pub misp: bool,
}

/// What is recorded of a transfer. An address is 0 where its mode records nothing.
#[derive(Clone, Copy, Debug, PartialEq, Eq)]
pub struct Record {
    /// The address of the transfer.
    pub source: u64,

    /// The address that it went to.
    pub target: u64,

    pub kind: XferType,

    /// A branch that was predicted wrongly.
    pub misp: bool,
}

/// What a transfer does to the records.
#[derive(Clone, Copy, Debug, PartialEq, Eq)]
pub enum Act {
    Nothing,

    /// The record becomes the youngest entry.
    Push(Record),

    /// The youngest entry goes to the end and loses V.
    Pop,

    /// The record takes the place of the youngest entry.
    Swap(Record),

    /// FROZEN is set, and nothing is recorded.
    Freeze,
}
