//! The control registers mctrctl, sctrctl and vsctrctl as words.

ghost use Rattle.std.specs.Prelude.{◌≡◌, ◌&&◌, bit_and, if◌then◌else◌};
ghost use Rattle.ctr_bits.specs.Mask.{with_masked};
ghost use Rattle.ctr_csrs.specs.ControlFigure.{is_on, is_shown, m_mask, s_mask};
ghost use Rattle.ctr_csrs.specs.declared.control_bit.ControlBit.{ControlBit};

use crate::control_bit::{ControlBit, place};
use std::marker::Model;

// The bits of `mctrctl`.
const M_MASK: u64 = 0x0000FF3E00001B87;

// The bits of `sctrctl` and `vsctrctl`.
const S_MASK: u64 = 0x0000FF3E00001983;

/// What `mctrctl` or `vsctrctl` holds: a word that has no bit outside the register figure of `mctrctl`.
#[derive(Clone, Copy, Debug, PartialEq, Eq)]
pub struct Control {
    word: u64,
}

// Clauses see the word.
impl Model for Control {
    ghost use Rattle.std.specs.Prelude.{◌≡◌, ℕ, bit_and};
    ghost use Rattle.ctr_csrs.specs.ControlFigure.{m_mask};

    ghost Value = { ℕ };

    ghost view = { λ c. c.word };

    ghost invariant = { λ c. bit_and c.word m_mask ≡ c.word };

    ghost inverse = { λ n. record { word = n } };
}

impl Control {
    /// The register's 64 bits.
    pub fn word(self) -> u64
        ensures is { result ≡ self }
        ensures legal { bit_and result m_mask ≡ result }
    {
        self.word
    }

    /// Whether the bit is set.
    pub fn on(self, bit: ControlBit) -> bool
        ensures { result ≡ is_on self bit }
    {
        (self.word >> place(bit)) % 2 == 1
    }
}

/// What `mctrctl` holds after a write of `value`: the bits that are built.
pub fn legal_m(value: u64) -> Control
    ensures word { result ≡ bit_and value m_mask }
    ensures bits { (bit : ControlBit) → is_on result bit ≡ is_on value bit }
{
    Control {
        word: value & M_MASK,
    }
}

/// What `mctrctl` holds after a write of `value` to `sctrctl`: M and MTE stay as they were.
pub fn legal_s(old: Control, value: u64) -> Control
    ensures word { result ≡ with_masked s_mask old value }
    ensures bits { (bit : ControlBit) → is_on result bit
        ≡ (if is_shown bit then is_on value bit else is_on old bit) }
{
    Control {
        word: (old.word & !S_MASK) | (value & S_MASK),
    }
}

/// What `vsctrctl` holds after a write of `value`: it has no M and no MTE.
pub fn legal_vs(value: u64) -> Control
    ensures word { result ≡ bit_and value s_mask }
    ensures bits { (bit : ControlBit) → is_on result bit ≡ (is_shown bit && is_on value bit) }
    ensures within { bit_and result s_mask ≡ result }
{
    Control {
        word: value & S_MASK,
    }
}

/// What `sctrctl` reads as: `mctrctl` without M and MTE.
pub fn view_s(m: Control) -> u64
    ensures word { result ≡ bit_and m s_mask }
    ensures bits { (bit : ControlBit) → is_on result bit ≡ (is_shown bit && is_on m bit) }
{
    m.word & S_MASK
}
