//! The conditions of branches.

ghost use Rattle.std.specs.Prelude.{◌≡◌};
ghost use Rattle.rv_alu.specs.Holds.{holds};

use rv_decode::Cond;

/// Whether a branch with this condition is taken at these values of its registers (Unprivileged ISA, conditional branches).
#[inline(always)]
pub fn taken(cond: Cond, a: u64, b: u64) -> bool
    ensures { result ≡ holds cond a b }
{
    match cond {
        Cond::Eq => a == b,
        Cond::Ne => a != b,
        Cond::Lt => a.cast_signed() < b.cast_signed(),
        Cond::Ge => a.cast_signed() >= b.cast_signed(),
        Cond::Ltu => a < b,
        Cond::Geu => a >= b,
    }
}
