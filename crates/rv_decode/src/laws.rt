//! Laws of the table and of the numbers in an instruction.

ghost use Rattle.rv_decode.specs.Laws.{OneRow, OneInstr, RowsFit, RowWordsFit, DecodedWordsFit};

/// The laws of the table of instructions, of every word: a proof and no work.
pub fn table_laws()
    ensures one_row { OneRow }
    ensures one_instr { OneInstr }
    ensures rows_fit { RowsFit }
    ensures row_words_fit { RowWordsFit }
{}

/// Immediates and offsets of decoded words are words of 64 bits: a proof and no work.
pub fn word_laws()
    ensures words_fit { DecodedWordsFit }
{}
