//! What an image asks of one branch.

ghost use Rattle.std.specs.Prelude.{◌≡◌, IsNone, IfSome, List, ◌∷◌};
ghost use Rattle.std.specs.Bool.{OnTrue, OnFalse};
ghost use Rattle.block_check.specs.Rules.{kind_of, is_trap, HasClass, GoesTo, Meets, Breaks, IsFine};
ghost use Rattle.block_check.specs.declared.rules.Why.TheVariants.{Target, Gap};
ghost use Rattle.perf_sample.specs.declared.sample.Branch.{Branch};

use crate::image::word_at;
use crate::straight::is_straight;
use perf_sample::{Branch, TYPE, perf_type};
use rv_decode::{Instr, decode};
use xfer_class::class_of;

/// Which rule a branch breaks. The first three aren't asked of traps, which may start anywhere.
#[derive(Clone, Copy, Debug, PartialEq, Eq)]
pub enum Why {
    /// The image has no word at its source, or its source is no multiple of 4.
    Source,
    /// The word there is no jump, branch, MRET or SRET of its type, which is bits 20 to 23 of its
    /// flags (`perf_event.h`, struct perf_branch_entry).
    Kind,
    /// That instruction doesn't go to its target.
    Target,
    /// From where the next older branch went, the code doesn't run straight on to its source.
    Gap,
}

/// The first branch of a sample that breaks a rule, and the first rule that it breaks, in the order
/// of [`Why`].
#[derive(Clone, Copy, Debug, PartialEq, Eq)]
pub struct Broken {
    /// The number of the branch, 0 for the youngest.
    pub branch: u16,
    /// The rule.
    pub why: Why,
}

// The types of traps (`perf_event.h`, enum perf_branch_type).
const SYSCALL: u64 = 7;

const IRQ: u64 = 12;

// The type of a branch.
fn kind_of(branch: Branch) -> u64
    ensures { result ≡ kind_of branch }
{
    branch.flags / TYPE % 16
}

// Whether a branch is a trap.
fn is_trap(branch: Branch) -> bool
    ensures { result ≡ is_trap branch }
{
    let kind = kind_of(branch);
    kind == SYSCALL || kind == IRQ
}

// Whether an instruction is a transfer of a perf type. A branch has one type whether it is taken
// or not.
fn has_class(instr: Instr, kind: u64) -> bool
    ensures yes { OnTrue result (HasClass instr kind) }
    ensures no { OnFalse result (HasClass instr kind → ⊥) }
{
    match class_of(instr, false) {
        Some(class) => perf_type(class.code()) == kind,
        None => false,
    }
}

// Whether an instruction can go from one address to another.
fn goes_to(instr: Instr, from: u64, to: u64) -> bool
    ensures yes { OnTrue result (GoesTo instr from to) }
    ensures no { OnFalse result (GoesTo instr from to → ⊥) }
{
    match instr {
        Instr::Jal { off, .. } => to == from.wrapping_add(off),
        Instr::Branch { off, .. } => to == from.wrapping_add(off) || to == from.wrapping_add(4),
        _ => to % 4 == 0,
    }
}

// The first rule that a branch breaks by itself.
fn own_fault(image: &[u8], branch: Branch) -> Option<Why>
    ensures none { IsNone result → (older : List Branch) → Meets Target image.now branch older }
    ensures some { IfSome result (λ why. (older : List Branch) → Breaks why image.now branch older) }
{
    if is_trap(branch) {
        return None;
    }
    let word = match word_at(image, branch.from) {
        Some(word) => word,
        None => return Some(Why::Source),
    };
    let instr = match decode(word) {
        Some(instr) => instr,
        None => return Some(Why::Kind),
    };
    if !has_class(instr, kind_of(branch)) {
        return Some(Why::Kind);
    }
    if !goes_to(instr, branch.from, branch.to) {
        return Some(Why::Target);
    }
    None
}

// Whether the code runs straight on from the target of an older branch, where both addresses were
// kept.
fn follows(image: &[u8], branch: Branch, older: Branch) -> bool
    ensures yes { OnTrue result ((rest : List Branch) → Meets Gap image.now branch (older ∷ rest)) }
    ensures no { OnFalse result ((rest : List Branch) → (Meets Gap image.now branch (older ∷ rest) → ⊥)) }
{
    if older.to == 0 {
        return true;
    }
    if branch.from == 0 {
        return true;
    }
    is_straight(image, older.to, branch.from)
}

// The same of the branches that are older, if there are any.
fn meets_gap(image: &[u8], branch: Branch, older: &[Branch]) -> bool
    ensures yes { OnTrue result (Meets Gap image.now branch older.now) }
    ensures no { OnFalse result (Meets Gap image.now branch older.now → ⊥) }
{
    match older {
        [next, ..] => follows(image, branch, *next),
        [] => true,
    }
}

/// The first rule that a branch breaks, with the older ones behind it.
pub(crate) fn branch_fault(image: &[u8], branch: Branch, older: &[Branch]) -> Option<Why>
    ensures none { IsNone result → IsFine image.now branch older.now }
    ensures some { IfSome result (λ why. Breaks why image.now branch older.now) }
{
    if let Some(why) = own_fault(image, branch) {
        return Some(why);
    }
    if !meets_gap(image, branch, older) {
        return Some(Why::Gap);
    }
    None
}
