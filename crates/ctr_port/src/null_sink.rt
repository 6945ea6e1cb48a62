// A sink that keeps nothing.
ghost use Rattle.std.specs.Prelude.{◌≡◌, ℕ, ◌<◌, ◌≤◌, length};
ghost use Rattle.ctr_port.specs.Counts.{Rose};
ghost use Rattle.ctr_port.specs.Sink.{TakesFront};

use crate::ends::Put;
use crate::sink::Sink;

/// A sink that takes every piece whole, keeps nothing of it, and never fails. It tells nothing of
/// its bytes, and its count of faults is 0.
#[derive(Clone, Copy, Debug, PartialEq, Eq)]
pub struct NullSink;

impl Sink for NullSink {
    ghost gained = { λ a x b. Unit {0} };

    ghost faults = { λ s. 0 };

    ghost gained_nothing = { λ a. tt };

    ghost gained_then = { λ a b c x y p q. tt };

    fn write(&mut self, piece: &[u8]) -> Put
        requires { 0 < length piece.now }
        ensures takes { TakesFront (λ a x b. Unit {0}) self.old self.new result piece.now }
        ensures later { 0 ≤ 0 }
        ensures cause { result ≡ Put.Failed → Rose 0 0 }
        ensures all { result ≡ Put.Took (length piece.now) }
    {
        Put::Took(piece.len())
    }
}
