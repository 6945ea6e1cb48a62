//! Laws of products, quotients and remainders.

ghost use Rattle.rv_alu.specs.Laws.{DivisionByZero, DivisionJoins, DivisionOverflows, HalvesJoin, MixedHalvesJoin, SignedDivisionJoins, SignedHalvesJoin, SignedWordDivisionJoins, WordDivisionJoins};
ghost use Rattle.rv_alu.specs.Sizes.{ValuesFit};

/// The two halves of products, of all operands: a proof and no work.
pub fn product_laws()
    ensures halves_join { HalvesJoin }
    ensures signed_halves_join { SignedHalvesJoin }
    ensures mixed_halves_join { MixedHalvesJoin }
{}

/// Quotients and remainders, of all operands: a proof and no work.
pub fn division_laws()
    ensures division_joins { DivisionJoins }
    ensures signed_division_joins { SignedDivisionJoins }
    ensures word_division_joins { WordDivisionJoins }
    ensures signed_word_division_joins { SignedWordDivisionJoins }
    ensures by_zero { DivisionByZero }
    ensures overflows { DivisionOverflows }
{}

/// Every operation gives a word of 64 bits: a proof and no work.
pub fn size_laws()
    ensures values_fit { ValuesFit }
{}
