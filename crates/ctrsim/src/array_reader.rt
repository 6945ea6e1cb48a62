//! A reader with a buffer that takes no memory.

ghost use Rattle.std.specs.Prelude.{◌≤◌};

use std::io::{Read, Result};

/// How many bytes are asked for at once.
const ROOM: usize = 16_384;

/// A reader over another, which it reads in pieces of 16,384 bytes; they are kept in an array.
#[derive(Drop)]
pub struct ArrayReader<R: Read> {
    inner: R,
    buffer: [u8; ROOM],
    from: usize,
    to: usize,
    ghost within: { (from ≤ to) × (to ≤ 16384) },
}

impl<R: Read> ArrayReader<R> {
    /// A reader with nothing in its array.
    pub fn new(inner: R) -> ArrayReader<R> {
        ArrayReader {
            inner,
            buffer: [0; ROOM],
            from: 0,
            to: 0,
        }
    }
}

impl<R: Read> Read for ArrayReader<R> {
    fn read(&mut self, buf: &mut [u8]) -> Result<usize> {
        if self.from == self.to {
            let count = self.inner.read(&mut self.buffer)?;
            self.from = 0;
            self.to = count.min(ROOM);
        }
        let count = buf.len().min(self.to - self.from);
        let end = self.from + count;
        buf[..count].copy_from_slice(&self.buffer[self.from..end]);
        self.from = end;
        Ok(count)
    }
}
