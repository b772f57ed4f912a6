//! To which queries kills lead.

ghost use Rattle.std.specs.Prelude.{◌≡◌, ◌≤◌, ℕ, [], IfNone, IfSome};
ghost use Rattle.query_rules.specs.declared.step.Closing.TheVariants as closing;
ghost use Rattle.bolt_core.specs.Leads.{IsAbove, LeadsTo};
ghost use Rattle.bolt_core.specs.Verdicts.{IsClosedIn};
ghost use Rattle.bundle_make.specs.Bundling.{IsLead};
ghost use Rattle.bundle_make.specs.steps.Leading.{IsOnLevel};

use bolt_core::board::Board;
use query_rules::state::QueryState;
use query_rules::step::Killer;
use query_tree::QueryId;

/// The query at this level on the way from the root down to one of level `own`.
fn above(board: &Board, id: QueryId, own: u32, level: u32) -> QueryId
    requires on { IsOnLevel board.now.core.nodes own id }
    requires within { level ≤ own }
    ensures { IsAbove board.now.core.nodes level id result }
{
    board.reached();
    let mut at = id;
    for _ in level..own {
        match board.forest().parent(at) {
            Some(parent) => at = parent,
            None => unreachable!(),
        }
    }
    at
}

/// The query to which a kill of the state of this query leads, or none where it is by a
/// certificate.
pub fn lead(board: &Board, id: QueryId, state: &QueryState, by: &Killer) -> Option<QueryId>
    requires bare { board.now.core.kept ≡ [] }
    requires closed { IsClosedIn board.now id state.now closing.NotMay }
    requires leads { LeadsTo board.now id state.now by.now }
    ensures some { IfSome result (IsLead board.now id state.now by.now) }
    ensures none { IfNone result ((x : ℕ) → IsLead board.now id state.now by.now x → ⊥) }
{
    board.reached();
    match by {
        Killer::Certificate(_) => None,
        Killer::Table { place, .. } => Some(board.origin(*place)),
        Killer::Child { asked } => Some(state.asked()[*asked as usize].child),
        Killer::Ancestor { level, .. } => Some(above(board, id, state.level(), *level)),
    }
}
