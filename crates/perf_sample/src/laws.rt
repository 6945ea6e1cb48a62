//! Laws of samples as bytes, as the clauses of a function without a body: whoever calls it has
//! them.

ghost use Rattle.std.specs.Prelude.{◌≡◌, ℕ, ◌<◌, List, [], ◌++◌, All};
ghost use Rattle.perf_sample.specs.Layout.{LayoutWords};
ghost use Rattle.perf_sample.specs.Spelling.{Spells};
ghost use Rattle.perf_sample.specs.Reading.{sample_format};
ghost use Rattle.perf_sample.specs.Cases.{IsSpelled, IsBroken, ExactlyOne};
ghost use Rattle.perf_sample.specs.declared.sample.Sample.{Sample};

/// No spelling is a proper prefix of another in the same layout, so a stream of samples can be cut
/// in one way only. Of any bytes exactly one of three holds: they are empty; they begin with the
/// spelling of exactly one sample, and of no other length; they break the layout at exactly one
/// field. A sample is one whose numbers lie in the widths of their fields.
pub fn sample_laws()
    ensures no_proper_prefix { (layout : LayoutWords) (first second : Sample) (bytes more : List ℕ)
        → Spells layout first bytes → Spells layout second (bytes ++ more) → more ≡ [] }
    ensures one_of_three { (layout : LayoutWords) (bytes : List ℕ) → All (λ b. b < 256) bytes
        → ExactlyOne (bytes ≡ []) (IsSpelled (sample_format layout) bytes)
        (IsBroken (sample_format layout) bytes) }
{}
