//! Laws of what the ends count and append, as the clauses of a function without a body: whoever
//! calls it has them.

ghost use Rattle.std.specs.Prelude.{◌≡◌, ℕ, ◌<◌, ◌-◌, ◌^◌, List, ◌++◌};
ghost use Rattle.ctr_port.specs.Sink.{GainsPart};
ghost use Rattle.ctr_port.specs.Counts.{Rose};
ghost use Rattle.ctr_port.specs.MemorySink.{held_of};
ghost use Rattle.ctr_port.specs.declared.memory_sink.MemSink.{MemSink};

/// What a sink over memory took in part it didn't take whole, and a count that stays where it was
/// hasn't risen, but at its last value.
pub fn port_laws()
    ensures part_is_not_whole { (old new : MemSink) (bytes : List ℕ)
        → GainsPart (λ a x b. held_of b ≡ held_of a ++ x) old new bytes
        → held_of new ≡ held_of old ++ bytes → ⊥ }
    ensures stays_unrisen { (count : ℕ) → count < 2 ^ 64 - 1 → Rose count count → ⊥ }
{}
