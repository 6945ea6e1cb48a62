//! Divisions (Unprivileged ISA, extension M). By zero the quotient is all ones and the remainder the dividend; signed
//! divisions round toward zero.

ghost use Rattle.std.specs.Prelude.{◌≡◌};
ghost use Rattle.rv_alu.specs.Signed.{wide};
ghost use Rattle.rv_alu.specs.Division.{quotient, remainder, quotient_32, remainder_32, unsigned_quotient, unsigned_remainder, unsigned_quotient_32, unsigned_remainder_32};

use crate::words::widened;

pub(crate) fn div(a: u64, b: u64) -> u64
    ensures { result ≡ quotient a b }
{
    if b == 0 {
        u64::MAX
    } else {
        a.cast_signed()
            .wrapping_div(b.cast_signed())
            .cast_unsigned()
    }
}

pub(crate) fn rem(a: u64, b: u64) -> u64
    ensures { result ≡ remainder a b }
{
    if b == 0 {
        a
    } else {
        a.cast_signed()
            .wrapping_rem(b.cast_signed())
            .cast_unsigned()
    }
}

fn div_32(a: u32, b: u32) -> u32
    ensures { result ≡ quotient_32 a b }
{
    if b == 0 {
        u32::MAX
    } else {
        a.cast_signed()
            .wrapping_div(b.cast_signed())
            .cast_unsigned()
    }
}

fn rem_32(a: u32, b: u32) -> u32
    ensures { result ≡ remainder_32 a b }
{
    if b == 0 {
        a
    } else {
        a.cast_signed()
            .wrapping_rem(b.cast_signed())
            .cast_unsigned()
    }
}

pub(crate) fn divw(a: u32, b: u32) -> u64
    ensures { result ≡ wide (quotient_32 a b) }
{
    widened(div_32(a, b))
}

pub(crate) fn remw(a: u32, b: u32) -> u64
    ensures { result ≡ wide (remainder_32 a b) }
{
    widened(rem_32(a, b))
}

pub(crate) fn divu(a: u64, b: u64) -> u64
    ensures { result ≡ unsigned_quotient a b }
{
    if b == 0 { u64::MAX } else { a / b }
}

pub(crate) fn remu(a: u64, b: u64) -> u64
    ensures { result ≡ unsigned_remainder a b }
{
    if b == 0 { a } else { a % b }
}

fn divu_32(a: u32, b: u32) -> u32
    ensures { result ≡ unsigned_quotient_32 a b }
{
    if b == 0 { u32::MAX } else { a / b }
}

fn remu_32(a: u32, b: u32) -> u32
    ensures { result ≡ unsigned_remainder_32 a b }
{
    if b == 0 { a } else { a % b }
}

pub(crate) fn divuw(a: u32, b: u32) -> u64
    ensures { result ≡ wide (unsigned_quotient_32 a b) }
{
    widened(divu_32(a, b))
}

pub(crate) fn remuw(a: u32, b: u32) -> u64
    ensures { result ≡ wide (unsigned_remainder_32 a b) }
{
    widened(remu_32(a, b))
}
