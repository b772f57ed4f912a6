//! What callers read of a board.

ghost use Rattle.std.specs.Prelude.{◌≡◌, ◌-◌, ◌<◌, ◌≤◌, Some, length, slice_get};
ghost use Rattle.bolt_core.specs.Boards.{IsBoard, most_summaries};
ghost use Rattle.bolt_core.specs.Origins.{origins_of};

use crate::board::Board;
use query_rules::state::QueryState;
use query_tree::{Forest, QueryId};
use summary_table::table::Table;

impl Board {
    /// What is true of every board: its history leads to it from its opening. It does nothing.
    pub fn reached(&self)
        ensures { IsBoard self.now }
    {
        let _stopped = self.stopped;
    }

    /// The queries, with their budgets and stored states.
    pub fn forest(&self) -> &Forest<QueryState>
        ensures { result.now.entries ≡ self.now.core.entries }
    {
        &self.forest
    }

    /// The summaries that were published, in order.
    pub fn table(&self) -> &Table
        ensures { result.now.summaries ≡ self.now.core.table }
    {
        &self.table
    }

    /// The most summaries that the table may ever hold: those with which the board opened, and one
    /// of each query that there may be.
    pub fn room(&self) -> u32
        ensures room { result ≡ most_summaries self.now }
        ensures within { length self.now.core.table ≤ result }
    {
        self.asserts * self.budget + self.asserts + self.kept.len() as u32
    }

    /// The query whose summary a close or a publish appended at this place of the table: where a
    /// close appended a group, the member itself and not its leader. The summaries with which the
    /// board opened have none.
    pub fn origin(&self, place: u32) -> QueryId
        requires behind { length self.now.core.kept ≤ place }
        requires here { place < length self.now.core.table }
        ensures { slice_get (origins_of self.now) (place - length self.now.core.kept)
            ≡ Some result }
    {
        self.origins[place as usize - self.kept.len()]
    }
}
