//! What mstatus keeps.

ghost use Rattle.std.specs.Prelude.{◌≡◌, ◌≢◌, ℕ, ◌+◌, ◌-◌, ◌^◌, ◌<◌, ◌≤◌, bit_and};
ghost use Rattle.ctr_bits.specs.Field.{field_of, with_field};
ghost use Rattle.ctr_bits.specs.Mask.{with_masked};
ghost use Rattle.guest_modes.specs.Words.{IsWithin, IsStatus, status_written};

use ctr_bits::Field;
use std::marker::Model;

// SIE, MIE, SPIE, MPIE, SPP, MPP and MPV.
const KEPT: u64 = 0x80000019AA;

// SIE, SPIE and SPP.
const SUPERVISOR_PART: u64 = 0x122;

/// What `mstatus` keeps. MPP never holds the reserved value 2.
#[derive(Clone, Copy, Debug, PartialEq, Eq)]
pub struct Mstatus {
    word: u64,
}

// Clauses see the word.
impl Model for Mstatus {
    ghost use Rattle.std.specs.Prelude.{ℕ};
    ghost use Rattle.guest_modes.specs.Words.{IsStatus};

    ghost Value = { ℕ };

    ghost view = { λ s. s.word };

    ghost invariant = { λ s. IsStatus s.word };

    ghost inverse = { λ n. record { word = n } };
}

impl Mstatus {
    pub(crate) fn zero() -> Self
        ensures { result ≡ 0 }
    {
        Mstatus { word: 0 }
    }

    pub(crate) fn get(self) -> u64
        ensures value { result ≡ self }
        ensures kept { IsStatus result }
    {
        self.word
    }

    // After a write by number. The reserved value of MPP leaves MPP as it is.
    pub(crate) fn write(self, value: u64) -> Self
        ensures { result ≡ status_written self value }
    {
        let kept = value & KEPT;
        if Field::<11, 2>::get(kept) == 2 {
            let mpp = Field::<11, 2>::get(self.word);
            Mstatus {
                word: Field::<11, 2>::put(kept, mpp),
            }
        } else {
            Mstatus { word: kept }
        }
    }

    // After a write of `sstatus`.
    pub(crate) fn write_supervisor(self, value: u64) -> Self
        ensures { result ≡ with_masked 0x122 self value }
    {
        Mstatus {
            word: (self.word & !SUPERVISOR_PART) | (value & SUPERVISOR_PART),
        }
    }

    // A field other than MPP.
    pub(crate) fn put<const LO: u32, const LEN: u32>(self, value: u64) -> Self
        requires nonempty { 1 ≤ LEN }
        requires in_word { LO + LEN ≤ 64 }
        requires fits { value < 2 ^ LEN }
        requires kept { field_of LO LEN 0x80000019AA ≡ 2 ^ LEN - 1 }
        requires apart { field_of LO LEN 0x1800 ≡ 0 }
        ensures { result ≡ with_field LO LEN self value }
    {
        Mstatus {
            word: Field::<LO, LEN>::put(self.word, value),
        }
    }

    pub(crate) fn put_mpp(self, value: u64) -> Self
        requires fits { value < 4 }
        requires known { value ≢ 2 }
        ensures { result ≡ with_field 11 2 self value }
    {
        Mstatus {
            word: Field::<11, 2>::put(self.word, value),
        }
    }
}
