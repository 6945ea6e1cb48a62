//! Sign extension of a number to 64 bits.

ghost use Rattle.std.specs.Prelude.{◌≡◌, ◌^◌, ◌<◌, ◌≤◌};
ghost use Rattle.ctr_bits.specs.Sext.{sign_extension};

/// The two's complement number in the low `bits` bits, extended to 64 bits: bit `bits - 1` is its sign.
pub fn sext(value: u64, bits: u32) -> u64
    requires some { 1 ≤ bits }
    requires in_word { bits ≤ 64 }
    requires fits { value < 2 ^ bits }
    ensures { result ≡ sign_extension bits value }
{
    let above = 64 - bits;
    ((value << above).cast_signed() >> above).cast_unsigned()
}
