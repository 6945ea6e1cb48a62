// Where bytes come from.
ghost use Rattle.std.specs.Prelude.{◌≡◌, ℕ, ◌<◌, ◌≤◌, List, length};
ghost use Rattle.std.specs.declared.option.Option.{Option};
ghost use Rattle.ctr_port.specs.Counts.{Rose};
ghost use Rattle.ctr_port.specs.Source.{GivesNext};

use crate::ends::Got;

/// Where bytes come from, in pieces of any length from 1.
pub trait Source {
    // the bytes that reads will give from here on; `None` where the source doesn't tell
    ghost left: { Self → Option (List ℕ) };

    // how often a read has failed; it stays at 2^64 - 1 once it is there
    ghost faults: { Self → ℕ };

    /// Reads the next bytes into the front of `buf`, which isn't empty.
    fn read(&mut self, buf: &mut [u8]) -> Got
        requires { 0 < length buf.old }
        ensures gives { GivesNext (left self.old) (left self.new) result buf.new }
        ensures later { faults self.old ≤ faults self.new }
        ensures cause { result ≡ Got.Failed → Rose (faults self.old) (faults self.new) };
}
