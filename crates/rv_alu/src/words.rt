//! Operations on the low 32 bits, with results that are sign-extended to 64.

ghost use Rattle.std.specs.Prelude.{◌≡◌, ◌+◌, ◌-◌, ◌*◌, ◌%◌, ◌^◌, ◌<◌};
ghost use Rattle.std.specs.Int.{w32, cast_signed, int_shr};
ghost use Rattle.rv_alu.specs.Signed.{wide, signed_32, word};

// The low 32 bits.
pub(crate) fn low(a: u64) -> u32
    ensures { result ≡ a % 2 ^ 32 }
{
    (a % 4294967296) as u32
}

// A number of 32 bits, sign-extended.
pub(crate) fn widened(a: u32) -> u64
    ensures { result ≡ wide a }
{
    i64::from(a.cast_signed()).cast_unsigned()
}

pub(crate) fn addw(a: u32, b: u32) -> u64
    ensures { result ≡ wide ((a + b) % 2 ^ 32) }
{
    widened(a.wrapping_add(b))
}

pub(crate) fn subw(a: u32, b: u32) -> u64
    ensures { result ≡ wide ((a + (2 ^ 32 - b)) % 2 ^ 32) }
{
    widened(a.wrapping_sub(b))
}

pub(crate) fn sllw(a: u32, amount: u32) -> u64
    requires { amount < 32 }
    ensures { result ≡ wide (a * 2 ^ amount % 2 ^ 32) }
{
    widened(a.wrapping_shl(amount))
}

pub(crate) fn sraw(a: u32, amount: u64) -> u64
    requires { amount < 32 }
    ensures { result ≡ word (int_shr (signed_32 a) amount) }
{
    i64::from(a.cast_signed() >> amount).cast_unsigned()
}

pub(crate) fn mulw(a: u32, b: u32) -> u64
    ensures { result ≡ wide (a * b % 2 ^ 32) }
{
    widened(a.wrapping_mul(b))
}
