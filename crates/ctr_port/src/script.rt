// How an end over memory behaves: the length of each piece and the calls that fail.
ghost use Rattle.std.specs.Prelude.{◌≡◌, ◌↔◌, ℕ, ◌<◌, ◌≤◌, [], IfSome, IfOk, IsTrue};
ghost use Rattle.ctr_port.specs.Script.{limit, after, Plan};

use crate::ends::NoMemory;
use std::alloc::Global;
use std::marker::Model;

/// The lengths of pieces, used in turn, the numbers of the calls that fail, and the number of the
/// next call.
#[derive(Drop)]
pub struct Script {
    pieces: Vec<usize>,
    failing: Vec<u64>,
    call: u64,
}

impl Model for Script {
    ghost use Rattle.std.specs.Prelude.{ℕ, ◌<◌, All};
    ghost use Rattle.ctr_port.specs.Script.{Plan};

    ghost Value = { Plan };

    ghost view = { λ s. record { pieces = s.pieces.items; failing = s.failing.items; call = s.call } };

    ghost invariant = { λ s. All (λ p. 0 < p) s.pieces.items };
}

impl Script {
    ghost use Rattle.std.specs.Prelude.{All};

    /// A script whose next call has the number 0. No piece is empty.
    pub fn new(alloc: Global, pieces: &[usize], failing: &[u64]) -> Result<Script, NoMemory>
        requires { All (λ p. 0 < p) pieces.now }
        ensures { IfOk result (λ s. s
            ≡ record { pieces = pieces.now; failing = failing.now; call = 0 }) }
    {
        Ok(Script {
            pieces: Vec::from_slice(alloc, pieces)?,
            failing: Vec::from_slice(alloc, failing)?,
            call: 0,
        })
    }

    /// Whether no call fails and no piece has a length of its own, so that each call moves as much
    /// as it is asked to.
    #[inline(always)]
    pub fn is_free(&self) -> bool
        ensures free { IsTrue result ↔ (self.now.failing ≡ []) × (self.now.pieces ≡ []) }
    {
        self.failing.is_empty() && self.pieces.is_empty()
    }

    /// Counts a call, whatever it moves.
    #[inline(always)]
    pub fn pass(&mut self)
        ensures { self.new ≡ after self.old }
    {
        self.call = self.call.saturating_add(1);
    }

    /// How many of `most` bytes the next call moves; `None` where that call fails.
    pub fn next(&mut self, most: usize) -> Option<usize>
        ensures limit { result ≡ limit self.old most }
        ensures after { self.new ≡ after self.old }
        ensures most { IfSome result (λ n. n ≤ most) }
        ensures some { 0 < most → IfSome result (λ n. 0 < n) }
    {
        let call = self.call;
        self.call = call.saturating_add(1);
        if self.failing.contains(&call) {
            return None;
        }
        let count = self.pieces.len();
        if count == 0 {
            return Some(most);
        }
        let piece = self.pieces[(call % count as u64) as usize];
        Some(most.min(piece))
    }
}
