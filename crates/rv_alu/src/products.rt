//! The upper halves of products of 128 bits.

ghost use Rattle.std.specs.Prelude.{◌≡◌, ◌*◌, ◌/◌, ◌^◌, pos, ◌*ℤ◌};
ghost use Rattle.std.specs.Int.{w128, cast_unsigned};

fn product(a: i64, b: i64) -> i128
    ensures { result ≡ a *ℤ b }
{
    i128::from(a) * i128::from(b)
}

fn mixed_product(a: i64, b: u64) -> i128
    ensures { result ≡ a *ℤ pos b }
{
    i128::from(a) * i128::from(b)
}

pub(crate) fn mulh(a: i64, b: i64) -> u64
    ensures { result ≡ cast_unsigned w128 (a *ℤ b) / 2 ^ 64 }
{
    (product(a, b).cast_unsigned() >> 64) as u64
}

pub(crate) fn mulhsu(a: i64, b: u64) -> u64
    ensures { result ≡ cast_unsigned w128 (a *ℤ pos b) / 2 ^ 64 }
{
    (mixed_product(a, b).cast_unsigned() >> 64) as u64
}

pub(crate) fn mulhu(a: u64, b: u64) -> u64
    ensures { result ≡ a * b / 2 ^ 64 }
{
    ((u128::from(a) * u128::from(b)) >> 64) as u64
}
