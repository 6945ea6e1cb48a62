//! What the words of a call ask for.

ghost use Rattle.std.specs.Prelude.{◌≡◌, ℕ, List, IfSome, IsNone};
ghost use Rattle.std.specs.Bool.{OnTrue, OnFalse};
ghost use Rattle.perf_sample.specs.Layout.{LayoutWords};
ghost use Rattle.ctrsim_cli.specs.Words.{IsRun, IsTypeWord, IsBranch, IsShow, IsTurns};
ghost use Rattle.ctrsim_cli.specs.Words.{IsDemo, IsAsked, IsKnown};

use crate::numbers::{decimal, hexadecimal};
use perf_sample::Layout;

/// What the program can be asked for.
pub(crate) enum Word {
    /// To run a schedule.
    Run,
    /// To show samples of a layout.
    Show(Layout),
    /// To perform so many turns of a schedule that is made, 1 to 100,000.
    Demo(u32),
}

fn is_run(words: &[String]) -> bool
    ensures yes { OnTrue result (IsRun words.now) }
    ensures no { OnFalse result (IsRun words.now → ⊥) }
{
    match words {
        [word] => word.as_str() == "run",
        _ => false,
    }
}

// The layout of a word HEX, with the branch word 0.
fn layout_of(word: &String) -> Option<Layout>
    ensures some { IfSome result (λ l. IsTypeWord word.now l.sample_type × (l.branch ≡ 0)) }
    ensures none { IsNone result → (bits : ℕ) → IsTypeWord word.now bits → ⊥ }
{
    let bits = hexadecimal(word.as_str().as_bytes())?;
    Layout::of(bits)
}

// The same with the branch word of a word BRANCH.
fn with_branch(layout: Layout, word: &String) -> Option<Layout>
    ensures some { IfSome result (λ l. (l.sample_type ≡ layout.sample_type)
        × IsBranch word.now l.branch) }
    ensures none { IsNone result → (bits : ℕ) → IsBranch word.now bits → ⊥ }
{
    let bits = hexadecimal(word.as_str().as_bytes())?;
    layout.with_branch(bits)
}

// The layout that the words after `show` say, if they are such words.
fn show_of(words: &[String]) -> Option<Layout>
    ensures some { IfSome result (IsShow words.now) }
    ensures none { IsNone result → (layout : LayoutWords) → IsShow words.now layout → ⊥ }
{
    match words {
        [word, hex] => {
            if word.as_str() != "show" {
                return None;
            }
            layout_of(hex)
        }
        [word, hex, branch] => {
            if word.as_str() != "show" {
                return None;
            }
            let layout = layout_of(hex)?;
            with_branch(layout, branch)
        }
        _ => None,
    }
}

// The turns of a word N.
fn turns_of(word: &String) -> Option<u32>
    ensures some { IfSome result (IsTurns word.now) }
    ensures none { IsNone result → (turns : ℕ) → IsTurns word.now turns → ⊥ }
{
    let turns = decimal(word.as_str().as_bytes(), 6)?;
    if turns == 0 || turns > 100_000 {
        return None;
    }
    Some(turns as u32)
}

// The turns that the words after `demo` say, if they are such words.
fn demo_of(words: &[String]) -> Option<u32>
    ensures some { IfSome result (IsDemo words.now) }
    ensures none { IsNone result → (turns : ℕ) → IsDemo words.now turns → ⊥ }
{
    match words {
        [word, number] => {
            if word.as_str() != "demo" {
                return None;
            }
            turns_of(number)
        }
        _ => None,
    }
}

/// What the words ask for; none where they ask for nothing that the program knows.
pub(crate) fn word_of(words: &[String]) -> Option<Word>
    ensures some { IfSome result (IsAsked words.now) }
    ensures none { IsNone result → IsKnown words.now → ⊥ }
{
    if is_run(words) {
        return Some(Word::Run);
    }
    if let Some(layout) = show_of(words) {
        return Some(Word::Show(layout));
    }
    let turns = demo_of(words)?;
    Some(Word::Demo(turns))
}
