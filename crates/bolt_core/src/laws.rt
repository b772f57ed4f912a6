//! What events keep. The functions do nothing: their contracts are the laws.

ghost use Rattle.bolt_core.specs.Anchors.{BoardsHaveOrigins};
ghost use Rattle.bolt_core.specs.Leads.{AnchoredAreClosed, ClosedAreGrounded, KillsLead, RootsAreAnchored};
ghost use Rattle.bolt_core.specs.KeptBoards.{BoardsAreKept, BoardsKeep, BoardsOpen, JobsMayBeTold, JobsStaySound};
ghost use Rattle.bolt_core.specs.KeptBoards.{MovesStay, OpeningGrants, OverByRoots, ReserveSuffices, RootsHaveBudget, TableHasRoom, TableIsWithin, TakenJobsAreSound};
ghost use Rattle.bolt_core.specs.LawfulStates.{StatesAreLawful};

/// Each event keeps what is true of a board.
pub fn boards_keep()
    ensures { BoardsKeep }
{}

/// It is true of a board that opens with roots.
pub fn boards_open()
    ensures { BoardsOpen }
{}

/// So it is true of every board.
pub fn boards_are_kept()
    ensures { BoardsAreKept }
{}

/// A sound job stays sound, whatever event comes.
pub fn jobs_stay_sound()
    ensures { JobsStaySound }
{}

/// What a call asks of a job is kept after any further events.
pub fn moves_stay()
    ensures { MovesStay }
{}

/// A sound job may get the news of how its children closed.
pub fn jobs_may_be_told()
    ensures { JobsMayBeTold }
{}

/// A job that is taken is sound, and has the news of its children.
pub fn taken_jobs_are_sound()
    ensures { TakenJobsAreSound }
{}

/// The table has at most one summary of each query.
pub fn table_fits()
    ensures within { TableIsWithin }
    ensures room { TableHasRoom }
{}

/// There is room for each event that may come.
pub fn reserve_suffices()
    ensures { ReserveSuffices }
{}

/// Each root has its grant.
pub fn opening_grants()
    ensures { OpeningGrants }
{}

/// A board is over exactly where the root of each assertion is.
pub fn over_by_roots()
    ensures { OverByRoots }
{}

/// What is left in the tree of a root, and what was spent there, is the budget together.
pub fn roots_have_budget()
    ensures { RootsHaveBudget }
{}

/// The states of queries are what the machine needs.
pub fn states_are_lawful()
    ensures { StatesAreLawful }
{}

/// Each place after the opening table has the query whose summary was appended there; a not-may
/// that a close appended is of a query that is anchored.
pub fn boards_have_origins()
    ensures { BoardsHaveOrigins }
{}

/// An anchored query closed without a path, and its state is stored.
pub fn anchored_are_closed()
    ensures { AnchoredAreClosed }
{}

/// Where a history has no Publish, the kills of an anchored query lead to anchored queries.
pub fn kills_lead()
    ensures { KillsLead }
{}

/// A root that is proved is anchored.
pub fn roots_are_anchored()
    ensures { RootsAreAnchored }
{}

/// The state of a query that closed without a path is a lawful one, and has no live path.
pub fn closed_are_grounded()
    ensures { ClosedAreGrounded }
{}
