//! Laws of workloads. This function computes nothing: its contract says what holds.

ghost use Rattle.workload_accepted.specs.Laws.{WorkloadsAreAccepted};

/// The text of each workload is accepted.
pub fn workloads_are_accepted()
    ensures { WorkloadsAreAccepted }
{}
