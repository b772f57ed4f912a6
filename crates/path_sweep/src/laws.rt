//! Laws of paths. The functions do nothing: their contracts are the laws.

ghost use Rattle.path_sweep.specs.Laws.{PathsFail, FailuresHavePaths, GuardsAreTaken, TakenPathsHaveGuards, HasOneEnd, SweepsAreWhole, WholeDecides, FoundReaches, LimitsAreRight};

/// Paths that end in a failure are those of the runs that fail.
pub fn paths_are_runs()
    ensures fail { PathsFail }
    ensures have { FailuresHavePaths }
{}

/// A path's guard is met exactly where the path is taken.
pub fn guards_are_exact()
    ensures sound { GuardsAreTaken }
    ensures complete { TakenPathsHaveGuards }
{}

/// A sweep has one end.
pub fn one_end()
    ensures ends { HasOneEnd }
    ensures whole { SweepsAreWhole }
{}

/// What was found, and not found, is what runs do.
pub fn entries_are_true()
    ensures none { WholeDecides }
    ensures some { FoundReaches }
{}

/// The limit that a question meets is that of its cube or sum.
pub fn limits_are_right()
    ensures { LimitsAreRight }
{}
