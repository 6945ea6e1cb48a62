//! The core of a hart: registers, program counter and mode.

ghost use Rattle.std.specs.Prelude.{◌≡◌, ◌<◌, ◌%◌, replicate};
ghost use Rattle.rv_hart.specs.Processor.{CoreState, fresh_core, plus, reg, put, at_next};

use crate::memory::BASE;
use ctr_csrs::Mode;
use guest_modes::Priv;
use std::marker::Model;

/// The core of a hart: its registers, of which `x[0]` is 0; the program counter, a multiple of 4; the mode; and the
/// registers of its software.
#[derive(Clone, Debug, PartialEq, Eq, Drop)]
pub struct Core {
    pub x: [u64; 32],
    pub pc: u64,
    pub mode: Mode,
    pub csrs: Priv,
}

impl Model for Core {
    ghost use Rattle.std.specs.Prelude.{◌≡◌, ◌%◌, length, slice_index};
    ghost use Rattle.rv_hart.specs.Processor.{CoreState};

    ghost Value = { CoreState };

    ghost view = { λ c. record { x = c.x; pc = c.pc; mode = c.mode; csrs = c.csrs } };

    ghost invariant = { λ c. (length c.x ≡ 32) × (slice_index c.x 0 ≡ 0) × (c.pc % 4 ≡ 0) };

    ghost inverse = { λ c. record { x = c.x; pc = c.pc; mode = c.mode; csrs = c.csrs } };
}

impl Core {
    /// A core that has executed nothing: registers of 0, the program counter at 0x80000000, mode M.
    pub fn fresh() -> Core
        ensures { result ≡ fresh_core }
    {
        Core {
            x: zeros(),
            pc: BASE,
            mode: Mode::M,
            csrs: Priv::fresh(),
        }
    }

    // The value of a register.
    pub(crate) fn reg(&self, r: u8) -> u64
        requires { r < 32 }
        ensures { result ≡ reg self.now r }
    {
        self.x[r as usize]
    }

    // Writes a register; x0 ignores it.
    pub(crate) fn put(&mut self, r: u8, value: u64)
        requires { r < 32 }
        ensures { self.new ≡ put self.old r value }
    {
        if r != 0 {
            self.x[r as usize] = value;
        }
    }

    // The address of the instruction after this one.
    pub(crate) fn after(&self) -> u64
        ensures value { result ≡ plus self.now.pc 4 }
        ensures aligned { result % 4 ≡ 0 }
    {
        self.pc.wrapping_add(4)
    }

    // Goes on at the instruction after this one.
    pub(crate) fn advance(&mut self)
        ensures { self.new ≡ at_next self.old }
    {
        self.pc = self.after();
    }
}

// Made apart, so that no goal spells the registers out.
fn zeros() -> [u64; 32]
    ensures { result ≡ replicate 32 0 }
{
    [0; 32]
}
