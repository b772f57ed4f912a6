//! Jobs: queries that are out at work, with their states.

use query_rules::state::QueryState;
use query_tree::QueryId;
use shadow_elim::limit::LimitKind;

/// How a job is parked: to be taken again, to wait until a child closes or becomes Starved, or
/// since nothing is left of its query.
pub use query_tree::Rest as Parked;

/// A query that was taken. `taken` is the place of that event in the history, `left` counts the
/// steps that may be made, and `spent` those that were made since.
#[derive(Drop)]
pub struct Job {
    pub id: QueryId,
    pub taken: u64,
    pub left: u32,
    pub spent: u32,
    pub state: QueryState,
}

/// What a take gives.
#[derive(Drop)]
pub enum Taken {
    Job(Job),
    /// No query is Ready, and the board is neither over nor stopped: some query is Running.
    Idle,
    /// Each root is over, or the board was stopped.
    Over,
}

/// The query of a job isn't Running since its take any more. `event` is the place of the first
/// event that closed it, dropped it or gave it back.
#[derive(Drop)]
pub struct Gone {
    pub event: u64,
    pub job: Job,
}

/// What became of a root.
#[derive(Debug, Drop)]
pub enum Verdict {
    /// No run is what it asks for.
    Proved,
    /// These inputs lead to what it asks for.
    Found(Vec<i64>),
    /// This many steps were made, and it is open.
    Budget(u32),
    /// It was given up at a limit of this kind.
    Limit(LimitKind),
}
