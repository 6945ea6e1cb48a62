//! Sources for the tests of readers.

ghost use Rattle.std.specs.Prelude.{◌<◌, None};

use ctr_port::{Got, MemSource, Source};

// A source in memory, and how often it was read.
#[derive(Drop)]
pub(crate) struct CountingSource {
    pub(crate) source: MemSource,
    pub(crate) reads: u64,
}

impl Source for CountingSource {
    ghost use Rattle.ctr_port.specs.MemorySource.{source_faults};

    ghost left = { λ s. None };

    ghost faults = { λ s. source_faults s.source };

    fn read(&mut self, buf: &mut [u8]) -> Got {
        self.reads = self.reads.saturating_add(1);
        self.source.read(buf)
    }
}

// The smallest samples, those of the layout 800 with no branches: so many fields, a header and the
// number of branches in turn. A byte may follow them.
#[derive(Drop)]
pub(crate) struct SmallestSamples {
    pub(crate) fields: u32,
    pub(crate) byte_follows: bool,
    pub(crate) reads: u64,
}

impl Source for SmallestSamples {
    ghost left = { λ s. None };

    ghost faults = { λ s. 0 };

    fn read(&mut self, buf: &mut [u8]) -> Got {
        self.reads = self.reads.saturating_add(1);
        if self.fields == 0 {
            if !self.byte_follows {
                return Got::End;
            }
            self.byte_follows = false;
            buf[0] = 9;
            return Got::Bytes(1);
        }
        let field = if self.fields % 2 == 0 {
            [9, 0, 0, 0, 0, 0, 16, 0]
        } else {
            [0; 8]
        };
        self.fields -= 1;
        let count = buf.len().min(8);
        buf[..count].copy_from_slice(&field[..count]);
        Got::Bytes(count)
    }
}
