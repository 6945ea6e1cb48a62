//! A sink that counts the samples that are written to it, and never fails.

ghost use Rattle.std.specs.Prelude.{◌≡◌, ◌+◌, ◌≤◌, ◌<◌};
ghost use Rattle.ctrsim_cli.specs.Counted.{none_counted, size_after, count_byte, passed};

use ctr_port::{Put, Sink};

/// How many samples, bytes and branches came, each modulo 2^64; and the place of the next byte in
/// its sample, and the sample's size as far as it was read.
#[derive(Clone, Copy, Debug, PartialEq, Eq)]
pub struct Counter {
    pub(crate) samples: u64,
    pub(crate) bytes: u64,
    pub(crate) branches: u64,
    pub(crate) at: u64,
    pub(crate) size: u16,
}

impl Counter {
    /// Before the first byte.
    pub(crate) fn new() -> Counter
        ensures { result ≡ none_counted }
    {
        Counter {
            samples: 0,
            bytes: 0,
            branches: 0,
            at: 0,
            size: 0,
        }
    }

    // The size as it is known after this byte.
    fn size_after(&self, byte: u8) -> u16
        ensures { result ≡ size_after self.now byte }
    {
        match self.at {
            6 => u16::from(byte),
            7 => self.size % 256 + 256 * u16::from(byte),
            _ => self.size,
        }
    }

    // Counts one byte.
    fn count(&mut self, byte: u8)
        ensures { self.new ≡ count_byte self.old byte }
    {
        self.size = self.size_after(byte);
        self.at = self.at.wrapping_add(1);
        self.bytes = self.bytes.wrapping_add(1);
        if self.at == u64::from(self.size) {
            let branches = u64::from(self.size.saturating_sub(32) / 24);
            self.samples = self.samples.wrapping_add(1);
            self.branches = self.branches.wrapping_add(branches);
            self.at = 0;
        }
    }

    // How many of so many bytes can be passed over at once: inside a sample whose size was read,
    // and before its last byte.
    fn inside(&self, left: usize) -> usize
        ensures some { 0 < result → (8 ≤ self.now.at) × (self.now.at + result < self.now.size) }
        ensures small { self.now.size ≤ 65535 }
        ensures most { result ≤ left }
    {
        let last = u64::from(self.size.saturating_sub(1));
        if self.at < 8 || self.at >= last {
            return 0;
        }
        left.min((last - self.at) as usize)
    }

    // Passes over bytes inside a sample.
    fn pass(&mut self, count: usize)
        requires inside { (8 ≤ self.old.at) × (self.old.at + count < self.old.size) }
        ensures { self.new ≡ passed self.old count }
    {
        self.at += count as u64;
        self.bytes = self.bytes.wrapping_add(count as u64);
    }
}

impl Sink for Counter {
    ghost use Rattle.std.specs.Prelude.{◌≡◌};
    ghost use Rattle.ctrsim_cli.specs.Counted.{counted, counted_nothing, counted_then};

    ghost gained = { λ a bytes b. b ≡ counted a bytes };

    ghost faults = { λ _. 0 };

    ghost gained_nothing = { λ a. counted_nothing a };

    ghost gained_then = { λ a b c x y p q. counted_then a b c x y p q };

    fn write(&mut self, piece: &[u8]) -> Put {
        let mut at = 0;
        while at < piece.len() {
            let inside = self.inside(piece.len() - at);
            if inside > 0 {
                self.pass(inside);
                at += inside;
            } else {
                self.count(piece[at]);
                at += 1;
            }
        }
        Put::Took(piece.len())
    }
}
