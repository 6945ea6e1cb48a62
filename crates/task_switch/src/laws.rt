//! The law of areas and units.

ghost use Rattle.task_switch.specs.SaveArea.{UnitComesBack};

/// An area that a unit was saved in holds that unit: a proof and no work.
pub fn area_laws()
    ensures unit_comes_back { UnitComesBack }
{}
