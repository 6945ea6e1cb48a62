//! The static predictor of this project.

ghost use Rattle.std.specs.Prelude.{◌≡◌, true, Some, cond};
ghost use Rattle.xfer_class.specs.Types.{type_of};
ghost use Rattle.xfer_class.specs.declared.types.XferType.TheVariants.{NotTaken, Taken};
ghost use Rattle.xfer_class.specs.Missed.{is_backward, missed_of};
ghost use Rattle.xfer_class.specs.MissedLaws.{BackwardIsNegative};

use rv_decode::Instr;

/// Whether the static predictor of this project misses the transfer of an instruction: a branch
/// with a negative offset is predicted taken, any other branch not taken (an offset of 0 is
/// forward), and all other transfers are predicted rightly. `taken` says whether a branch was
/// taken, and matters for nothing else.
#[inline(always)]
pub fn missed(instr: Instr, taken: bool) -> bool
    ensures branch { result ≡ true → type_of instr taken ≡ Some (cond taken Taken NotTaken) }
    ensures value { result ≡ missed_of instr taken }
{
    match instr {
        Instr::Branch { off, .. } => taken != is_backward(off),
        _ => false,
    }
}

// Whether the offset is negative, as 64 bits in two's complement.
#[inline(always)]
fn is_backward(off: u64) -> bool
    ensures { result ≡ is_backward off }
{
    off >= 1 << 63
}

/// A branch backward has a negative offset, and any other hasn't: a proof and no work.
pub fn prediction_laws()
    ensures backward_is_negative { BackwardIsNegative }
{}
