//! Laws of depths, of the status word and of external traps.

ghost use Rattle.ctr_csrs.specs.RegisterLaws.{DepthComesBack, EntriesInRange, EntriesTellDepth, PointerComesBack, FrozenComesBack};
ghost use Rattle.ctr_csrs.specs.TrapLaws.{NeedsModesBetween, PairsRise};

/// What is read back from `sctrdepth` and `sctrstatus` is what was written: a proof and no work.
pub fn register_laws()
    ensures depth_comes_back { DepthComesBack }
    ensures entries_in_range { EntriesInRange }
    ensures entries_tell_depth { EntriesTellDepth }
    ensures pointer_comes_back { PointerComesBack }
    ensures frozen_comes_back { FrozenComesBack }
{}

/// Between which modes a trap goes, and which trap-enable bits an external trap needs: a proof and
/// no work.
pub fn trap_laws()
    ensures pairs_rise { PairsRise }
    ensures needs_modes_between { NeedsModesBetween }
{}
