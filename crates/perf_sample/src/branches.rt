//! The branch stack of a sample.

ghost use Rattle.std.specs.Prelude.{◌≡◌, ◌<◌, ◌≤◌, [], ◌∷◌, ◌++◌, length, All};
ghost use Rattle.perf_sample.specs.BranchRange.{IsBranch};

use crate::limits::MAX_BRANCHES;
use crate::sample::Branch;
use std::fmt::{self, Debug};
use std::marker::Model;

/// Up to 256 branches, youngest first. Contracts see the list of them.
///
/// They lie at the front of an array, and what lies behind them is never looked at: a stack is
/// cleared by a single store.
#[derive(Drop)]
pub struct Branches {
    room: [Branch; MAX_BRANCHES],
    len: usize,
}

impl Model for Branches {
    ghost use Rattle.std.specs.Prelude.{◌≡◌, List, ◌≤◌, length, take, All};
    ghost use Rattle.perf_sample.specs.BranchRange.{IsBranch};
    ghost use Rattle.perf_sample.specs.declared.limits.TheConstants.{MAX_BRANCHES};
    ghost use Rattle.perf_sample.specs.declared.sample.Branch.{Branch};

    ghost Value = { List Branch };

    ghost view = { λ b. take b.len b.room };

    ghost invariant = { λ b. (b.len ≤ MAX_BRANCHES) × (length b.room ≡ MAX_BRANCHES)
        × All IsBranch (take b.len b.room) };
}

impl Debug for Branches {
    fn fmt<W: fmt::Write>(&self, f: &mut fmt::Formatter<W>) -> fmt::Result {
        f.debug_struct("Branches")
            .field("list", &self.items())
            .finish()
    }
}

impl Branches {
    /// No branch.
    #[inline(always)]
    pub fn new() -> Self
        ensures { result ≡ [] }
    {
        Branches {
            room: [Branch {
                from: 0,
                to: 0,
                flags: 0,
            }; MAX_BRANCHES],
            len: 0,
        }
    }

    /// The branches, youngest first.
    pub fn items(&self) -> &[Branch]
        ensures items { result.now ≡ self.now }
        ensures fits { length self.now ≤ MAX_BRANCHES }
        ensures range { All IsBranch self.now }
    {
        &self.room[..self.len]
    }

    /// Adds a branch that is older than those before it. There is room for 256.
    pub fn push(&mut self, item: Branch)
        requires { length self.old < MAX_BRANCHES }
        ensures { self.new ≡ self.old ++ item ∷ [] }
    {
        self.room[self.len] = item;
        self.len += 1;
    }

    /// Removes every branch.
    pub fn clear(&mut self)
        ensures { self.new ≡ [] }
    {
        self.len = 0;
    }
}
