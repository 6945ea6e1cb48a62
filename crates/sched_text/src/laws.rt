//! Laws of whole texts, as the clauses of a function without a body: whoever calls it has them.

ghost use Rattle.std.specs.Prelude.{◌≡◌, ℕ, List};
ghost use Rattle.sched_text.specs.Grammar.{IsGrammatical};
ghost use Rattle.sched_text.specs.Header.{HasHeader, IsHeader};
ghost use Rattle.sched_text.specs.Text.{TextBreak, WholeOrBroken, OneOfEach};
ghost use Rattle.sched_text.specs.declared.faults.LineFault.{LineFault};
ghost use Rattle.sched_text.specs.declared.schedule.Header.{Header};

/// A text breaks at one line and by one reason; it is whole or broken, and not both, and a whole
/// text has one list of commands; what is whole in it before a break, or before the end, is one of
/// each: a header, an image of each task, and a list of commands; and a header is the lines of its
/// grammar, each with what it says, and the other way round.
pub fn text_laws()
    ensures one_break { (text : List ℕ) (first second : LineFault) → TextBreak text first
        → TextBreak text second → first ≡ second }
    ensures whole_or_broken { (text : List ℕ) → WholeOrBroken text }
    ensures one_of_each { (text : List ℕ) → OneOfEach text }
    ensures grammar { (text rest : List ℕ) (lines : ℕ) (h : Header) → HasHeader text lines h rest
        → IsGrammatical text lines h rest }
    ensures grammar_is_read { (text rest : List ℕ) (lines : ℕ) (h : Header)
        → IsGrammatical text lines h rest → IsHeader h → HasHeader text lines h rest }
{}
