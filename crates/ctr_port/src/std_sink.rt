// A sink over `std::io::Write`.
ghost use Rattle.std.specs.Prelude.{◌≡◌, ℕ, ◌<◌, ◌≤◌, List, length};

use crate::ends::Put;
use crate::sink::Sink;
use std::io::Write;

/// A sink over a writer, such as standard output or standard error. It tells nothing of its bytes.
///
/// Each write is flushed. An `Err`, a failing flush, and a writer that takes nothing are faults.
#[derive(Drop)]
pub struct StdSink<W: Write> {
    writer: W,
    faults: u64,
}

impl<W: Write> StdSink<W> {
    ghost use Rattle.ctr_port.specs.StdSink.{writer_of, write_faults};

    /// A sink whose count of faults is 0.
    pub fn new(writer: W) -> StdSink<W>
        ensures writer { writer_of result ≡ writer }
        ensures faults { write_faults result ≡ 0 }
    {
        StdSink { writer, faults: 0 }
    }

    // Writes and flushes: how many bytes were taken, and 0 at a fault.
    fn put(&mut self, piece: &[u8]) -> usize
        ensures within { result ≤ length piece.now }
        ensures faults { self.new.faults ≡ self.old.faults }
    {
        match self.writer.write(piece) {
            Ok(count) => match self.writer.flush() {
                Ok(()) => count,
                Err(_) => 0,
            },
            Err(_) => 0,
        }
    }
}

impl<W: Write> Sink for StdSink<W> {
    ghost gained = { λ a x b. Unit {0} };

    ghost faults = { λ s. s.faults };

    ghost gained_nothing = { λ a. tt };

    ghost gained_then = { λ a b c x y p q. tt };

    fn write(&mut self, piece: &[u8]) -> Put {
        match self.put(piece) {
            0 => {
                self.faults = self.faults.saturating_add(1);
                Put::Failed
            }
            count => Put::Took(count),
        }
    }
}
