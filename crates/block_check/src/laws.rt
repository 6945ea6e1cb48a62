//! Laws of what is asked of branches.

ghost use Rattle.block_check.specs.Laws.{OneFault, PlausibleHasNone};
ghost use Rattle.block_check.specs.Laws.{TransfersAreFine, TrapsAreFine};
ghost use Rattle.block_check.specs.Laws.{StraightOverNone, StraightOverOne, StraightOverBoth};
ghost use Rattle.block_check.specs.Laws.{TransfersEndStraight};

/// Laws of faults, of recorded transfers and of straight code: a proof and no work.
pub fn check_laws()
    ensures one { OneFault }
    ensures none { PlausibleHasNone }
    ensures transfers { TransfersAreFine }
    ensures traps { TrapsAreFine }
    ensures nowhere { StraightOverNone }
    ensures over_one { StraightOverOne }
    ensures over_both { StraightOverBoth }
    ensures ends { TransfersEndStraight }
{}
