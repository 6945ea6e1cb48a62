//! The instruction of a word: the public call.

ghost use Rattle.std.specs.Prelude.{◌≡◌, ◌↔◌, IfSome};
ghost use Rattle.rv_decode.specs.Rows.{Row, instruction_of};
ghost use Rattle.rv_decode.specs.Numbers.{NumbersFit};
ghost use Rattle.rv_decode.specs.WordFits.{WordsFit};

use crate::instruction::Instr;
use crate::table::row_of;

/// The instruction of a 32-bit word, or `None` where no row of the table has the word.
pub fn decode(word: u32) -> Option<Instr>
    ensures some { (i : Instr) → (result ≡ Some i) ↔ Row word i }
    ensures none { (result ≡ None) ↔ ((i : Instr) → Row word i → ⊥) }
    ensures numbers { IfSome result (λ i. NumbersFit i) }
    ensures words { IfSome result (λ i. WordsFit i) }
    ensures value { result ≡ instruction_of word }
{
    row_of(word)
}
