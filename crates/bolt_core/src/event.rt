//! Events of a board.

use crate::job::Parked;
use crate::slot::ClosedAs;
use query_tree::QueryId;

/// An event, with what it records. `left` is what was left of the query at the take, `steps` its
/// stored steps, and `waiting` says whether some child was open and not Starved; `spent` counts the
/// steps of the job. Summaries are named by their places in the table, and an asked query by its
/// number.
#[derive(Clone, Copy, Debug, PartialEq, Eq)]
pub enum Event {
    Take {
        worker: u32,
        id: QueryId,
        left: u32,
        steps: u32,
        waiting: bool,
    },
    Publish {
        worker: u32,
        id: QueryId,
        place: u32,
    },
    Ask {
        worker: u32,
        id: QueryId,
        spent: u32,
        child: QueryId,
    },
    Feed {
        worker: u32,
        id: QueryId,
        spent: u32,
        child: QueryId,
    },
    Park {
        worker: u32,
        id: QueryId,
        spent: u32,
        rest: Parked,
    },
    /// The query is closed so, and `more` summaries were appended from this place on.
    Close {
        worker: u32,
        id: QueryId,
        spent: u32,
        how: ClosedAs,
        from: u32,
        more: u32,
    },
    Stop {
        worker: u32,
    },
}
