//! What a board keeps of a query beside its entry in the forest.

use shadow_elim::limit::LimitKind;
use std::sync::Arc;
use summary_form::query::Query;
use summary_form::summary::Summary;

/// As what a query was closed.
#[derive(Clone, Copy, Debug, PartialEq, Eq)]
pub enum ClosedAs {
    /// It has no run, by itself or where the queries above it from the level `lowest` on have none.
    NotMay { lowest: Option<u32> },
    /// The table has a must of it.
    Must,
    /// It was given up at a limit of this kind.
    Stuck(LimitKind),
}

/// A query of the board.
#[derive(Drop)]
pub struct Slot {
    pub parent: Option<u32>,
    pub level: u32,
    pub query: Arc<Query>,
    pub closed: Option<ClosedAs>,
    /// What the close handed in, until it is published.
    pub summary: Option<Arc<Summary>>,
    /// Whether something was published of it after it was dropped.
    pub said: bool,
    /// The place of the close that published it.
    pub published: Option<u64>,
}
