// A source over `std::io::Read`.
ghost use Rattle.std.specs.Prelude.{◌≡◌, ℕ, None};
ghost use Rattle.std.specs.declared.option.Option.{Option};

use crate::ends::Got;
use crate::source::Source;
use std::io::Read;

/// A source over a reader, such as standard input. It tells nothing of its bytes.
///
/// Each `Err` of the reader, and each count beyond the buffer, is a fault. A read of no byte is the
/// end.
#[derive(Drop)]
pub struct StdSource<R: Read> {
    reader: R,
    faults: u64,
}

impl<R: Read> StdSource<R> {
    ghost use Rattle.ctr_port.specs.StdSource.{reader_of, read_faults};

    /// A source whose count of faults is 0.
    pub fn new(reader: R) -> StdSource<R>
        ensures reader { reader_of result ≡ reader }
        ensures faults { read_faults result ≡ 0 }
    {
        StdSource { reader, faults: 0 }
    }
}

impl<R: Read> Source for StdSource<R> {
    ghost left = { λ s. None };

    ghost faults = { λ s. s.faults };

    fn read(&mut self, buf: &mut [u8]) -> Got {
        match self.reader.read(buf) {
            Ok(0) => Got::End,
            Ok(count) => Got::Bytes(count),
            Err(_) => {
                self.faults = self.faults.saturating_add(1);
                Got::Failed
            }
        }
    }
}
