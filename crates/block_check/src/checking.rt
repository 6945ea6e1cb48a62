//! A sample judged against an image.

ghost use Rattle.std.specs.Prelude.{◌≡◌, ◌↔◌, ◌≤◌, length, Ok, Err};
ghost use Rattle.block_check.specs.Plausible.{IsPlausible, IsFault};
ghost use Rattle.block_check.specs.declared.rules.Broken.{Broken};

use crate::rules::{Broken, branch_fault};
use perf_sample::{Branch, MAX_BRANCHES, Sample};

/// Whether the branches of a sample can have come from an image, or the first of them that can't,
/// with the first rule that it breaks. The image begins at [`IMAGE_BASE`](crate::IMAGE_BASE), and a
/// word that it has in part isn't there.
pub fn check_sample(image: &[u8], sample: &Sample) -> Result<(), Broken>
    ensures plausible { (result ≡ Ok tt) ↔ IsPlausible image.now sample.now.branches }
    ensures broken { (f : Broken) → (result ≡ Err f) ↔ IsFault image.now sample.now.branches f }
{
    check_branches(image, sample.branches.items())
}

// The same of a branch stack.
fn check_branches(image: &[u8], branches: &[Branch]) -> Result<(), Broken>
    requires { length branches.now ≤ MAX_BRANCHES }
    ensures plausible { (result ≡ Ok tt) ↔ IsPlausible image.now branches.now }
    ensures broken { (f : Broken) → (result ≡ Err f) ↔ IsFault image.now branches.now f }
{
    for number in 0..branches.len() {
        if let Some(why) = branch_fault(image, branches[number], branches.split_at(number + 1).1) {
            return Err(Broken {
                branch: number as u16,
                why,
            });
        }
    }
    Ok(())
}
