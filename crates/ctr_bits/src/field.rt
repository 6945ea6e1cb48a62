//! A field of a word, by its lowest bit and its length.

ghost use Rattle.std.specs.Prelude.{◌≡◌, ◌+◌, ◌^◌, ◌<◌, ◌≤◌};
ghost use Rattle.ctr_bits.specs.Field.{field_of, with_field};

/// The `LEN` bits of a 64-bit word from bit `LO` up, as registers and instruction words hold them.
pub struct Field<const LO: u32, const LEN: u32>;

impl<const LO: u32, const LEN: u32> Field<LO, LEN> {
    /// The value of the field, moved down to bit 0.
    pub fn get(word: u64) -> u64
        requires nonempty { 1 ≤ LEN }
        requires in_word { LO + LEN ≤ 64 }
        ensures value { result ≡ field_of LO LEN word }
        ensures below { result < 2 ^ LEN }
    {
        (word >> LO) & (u64::MAX >> (64 - LEN))
    }

    /// The word with `value` in the field and every other bit as it was.
    pub fn put(word: u64, value: u64) -> u64
        requires nonempty { 1 ≤ LEN }
        requires in_word { LO + LEN ≤ 64 }
        requires fits { value < 2 ^ LEN }
        ensures { result ≡ with_field LO LEN word value }
    {
        let mask = (u64::MAX >> (64 - LEN)) << LO;
        (word & !mask) | (value << LO)
    }
}
