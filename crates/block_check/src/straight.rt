//! Code that runs straight on.

ghost use Rattle.std.specs.Bool.{OnTrue, OnFalse};
ghost use Rattle.block_check.specs.Straight.{RunsOn, RunsOnAt, Straight};

use crate::image::word_at;
use rv_decode::{Instr, decode};

// Whether the next instruction may come after this one.
fn runs_on(instr: Instr) -> bool
    ensures yes { OnTrue result (RunsOn instr) }
    ensures no { OnFalse result (RunsOn instr → ⊥) }
{
    !matches!(
        instr,
        Instr::Jal { .. }
            | Instr::Jalr { .. }
            | Instr::Mret
            | Instr::Sret
            | Instr::Ecall
            | Instr::Ebreak
    )
}

// Whether the image has such an instruction at an address.
fn runs_on_at(image: &[u8], address: u64) -> bool
    ensures yes { OnTrue result (RunsOnAt image.now address) }
    ensures no { OnFalse result (RunsOnAt image.now address → ⊥) }
{
    match word_at(image, address) {
        Some(word) => match decode(word) {
            Some(instr) => runs_on(instr),
            None => false,
        },
        None => false,
    }
}

/// Whether every word from one address up to another is there and runs on.
pub(crate) fn is_straight(image: &[u8], start: u64, end: u64) -> bool
    ensures yes { OnTrue result (Straight image.now start end) }
    ensures no { OnFalse result (Straight image.now start end → ⊥) }
{
    if start % 4 != 0 || end % 4 != 0 || start > end {
        return false;
    }
    let mut address = start;
    while address < end {
        if !runs_on_at(image, address) {
            return false;
        }
        address += 4;
    }
    true
}
