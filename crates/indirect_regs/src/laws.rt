//! Laws of accesses and of a monitor's port.

ghost use Rattle.indirect_regs.specs.Facts.{AccessesKeepFacts, MonitorKeepsFacts};
ghost use Rattle.indirect_regs.specs.Laws.{MonitorReachesAsM, FrozenChangesByStatus, EventsMakeTheBuffer};

/// The laws of accesses and of a monitor's port: a proof and no work.
pub fn register_laws()
    ensures monitor_reaches_as_m { MonitorReachesAsM }
    ensures frozen_changes_by_status { FrozenChangesByStatus }

    // So an access is defined; the crates above are told by it.
    ensures events_make_the_buffer { EventsMakeTheBuffer }
{}

/// What accesses and a monitor's writes keep of the facts of units and registers, and that the record buffer can take the
/// event of an access: a proof and no work.
pub fn fact_laws()
    ensures access { AccessesKeepFacts }
    ensures monitor { MonitorKeepsFacts }
{}
