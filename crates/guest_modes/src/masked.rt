//! A register that keeps some of its bits.

ghost use Rattle.std.specs.Prelude.{◌≡◌, ℕ, ◌+◌, ◌-◌, ◌^◌, ◌<◌, ◌≤◌, bit_and, bit_or};
ghost use Rattle.ctr_bits.specs.Field.{field_of, with_field};
ghost use Rattle.ctr_bits.specs.Mask.{with_masked};
ghost use Rattle.guest_modes.specs.Words.{IsWithin};

use ctr_bits::Field;
use std::marker::Model;

/// A register that keeps the bits of `MASK`: the others are 0, whatever is written.
#[derive(Clone, Copy, Debug, PartialEq, Eq)]
pub struct Masked<const MASK: u64> {
    word: u64,
}

// Clauses see the word.
impl<const MASK: u64> Model for Masked<MASK> {
    ghost use Rattle.std.specs.Prelude.{ℕ};
    ghost use Rattle.guest_modes.specs.Words.{IsWithin};

    ghost Value = { ℕ };

    ghost view = { λ r. r.word };

    ghost invariant = { λ r. IsWithin MASK r.word };

    ghost inverse = { λ n. record { word = n } };
}

impl<const MASK: u64> Masked<MASK> {
    pub(crate) fn of(value: u64) -> Self
        ensures { result ≡ bit_and value MASK }
    {
        Masked { word: value & MASK }
    }

    pub(crate) fn get(self) -> u64
        ensures value { result ≡ self.entry }
        ensures kept { IsWithin MASK result }
    {
        self.word
    }

    // The bits of `part` are those of `value`.
    pub(crate) fn merge(self, part: u64, value: u64) -> Self
        requires { IsWithin MASK part }
        ensures { result ≡ with_masked part self.entry value }
    {
        Masked {
            word: (self.word & !part) | (value & part),
        }
    }

    // A field whose bits are all kept.
    pub(crate) fn put<const LO: u32, const LEN: u32>(self, value: u64) -> Self
        requires nonempty { 1 ≤ LEN }
        requires in_word { LO + LEN ≤ 64 }
        requires fits { value < 2 ^ LEN }
        requires kept { field_of LO LEN MASK ≡ 2 ^ LEN - 1 }
        ensures { result ≡ with_field LO LEN self.entry value }
    {
        Masked {
            word: Field::<LO, LEN>::put(self.word, value),
        }
    }

    // The bits of `bits` are 1.
    pub(crate) fn set(self, bits: u64) -> Self
        requires { IsWithin MASK bits }
        ensures { result ≡ bit_or self.entry bits }
    {
        Masked {
            word: self.word | bits,
        }
    }

    // Bit `place` is 0.
    pub(crate) fn clear(self, place: u8) -> Self
        requires { place < 64 }
        ensures { result ≡ bit_and self.entry (2 ^ 64 - 1 - 2 ^ place) }
    {
        Masked {
            word: self.word & !(1 << place),
        }
    }
}
