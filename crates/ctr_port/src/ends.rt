// What the two ends answer.
use std::alloc::{AllocError, AllocFailed};

/// What a read of a [`crate::Source`] gave.
#[derive(Clone, Copy, Debug, PartialEq, Eq)]
pub enum Got {
    /// So many bytes, at least 1, at the front of the buffer.
    Bytes(usize),
    /// Nothing is left.
    End,
    /// The read failed, and no byte was taken.
    Failed,
}

/// What a write to a [`crate::Sink`] did.
#[derive(Clone, Copy, Debug, PartialEq, Eq)]
pub enum Put {
    /// So many bytes, at least 1, from the front of the piece were appended.
    Took(usize),
    /// The write failed, and nothing was appended.
    Failed,
}

/// A sink failed before all bytes were appended.
#[derive(Clone, Copy, Debug, PartialEq, Eq)]
pub struct WriteFault;

/// No memory was found. It is the one answer of every call that allocates and finds none.
#[derive(Clone, Copy, Debug, PartialEq, Eq)]
pub struct NoMemory;

impl From<AllocError> for NoMemory {
    fn from(_: AllocError) -> Self {
        NoMemory
    }
}

impl<T: Drop> From<AllocFailed<T>> for NoMemory {
    fn from(_: AllocFailed<T>) -> Self {
        NoMemory
    }
}
