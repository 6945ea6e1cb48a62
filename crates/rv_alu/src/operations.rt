//! The operations of RV64I and M on two words.

ghost use Rattle.std.specs.Prelude.{◌≡◌};
ghost use Rattle.rv_alu.specs.Value.{value};

use crate::divisions::{div, divu, divuw, divw, rem, remu, remuw, remw};
use crate::products::{mulh, mulhsu, mulhu};
use crate::words::{addw, low, mulw, sllw, sraw, subw, widened};
use rv_decode::AluOp;

/// The result of an operation on two 64-bit words (Unprivileged ISA, RV64I and the extension M). It has no refusal:
/// a division by zero gives all ones, and a remainder by zero the dividend. A shift takes the low 6 bits of `b`,
/// and a shift that ends in w the low 5.
#[inline(always)]
pub fn apply(op: AluOp, a: u64, b: u64) -> u64
    ensures { result ≡ value op a b }
{
    match op {
        AluOp::Add => a.wrapping_add(b),
        AluOp::Sub => a.wrapping_sub(b),
        AluOp::Sll => a.wrapping_shl((b % 64) as u32),
        AluOp::Slt => u64::from(a.cast_signed() < b.cast_signed()),
        AluOp::Sltu => u64::from(a < b),
        AluOp::Xor => a ^ b,
        AluOp::Srl => a >> (b % 64),
        AluOp::Sra => (a.cast_signed() >> (b % 64)).cast_unsigned(),
        AluOp::Or => a | b,
        AluOp::And => a & b,
        AluOp::Addw => addw(low(a), low(b)),
        AluOp::Subw => subw(low(a), low(b)),
        AluOp::Sllw => sllw(low(a), (b % 32) as u32),
        AluOp::Srlw => widened(low(a) >> (b % 32)),
        AluOp::Sraw => sraw(low(a), b % 32),
        AluOp::Mul => a.wrapping_mul(b),
        AluOp::Mulh => mulh(a.cast_signed(), b.cast_signed()),
        AluOp::Mulhsu => mulhsu(a.cast_signed(), b),
        AluOp::Mulhu => mulhu(a, b),
        AluOp::Div => div(a, b),
        AluOp::Divu => divu(a, b),
        AluOp::Rem => rem(a, b),
        AluOp::Remu => remu(a, b),
        AluOp::Mulw => mulw(low(a), low(b)),
        AluOp::Divw => divw(low(a), low(b)),
        AluOp::Divuw => divuw(low(a), low(b)),
        AluOp::Remw => remw(low(a), low(b)),
        AluOp::Remuw => remuw(low(a), low(b)),
    }
}
