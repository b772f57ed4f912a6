//! The claims of queries that closed without a path.

ghost use Rattle.std.specs.Prelude.{◌≡◌, ℕ, List, Some, length, slice_get, IfOk};
ghost use Rattle.flow_graph.specs.declared.graph.Graph.{Graph as AGraph};
ghost use Rattle.summary_form.specs.declared.query.Query.{Query};
ghost use Rattle.bolt_core.specs.Anchors.{IsAnchored};
ghost use Rattle.proof_bundle.specs.Claims.{claim_of};
ghost use Rattle.proof_bundle.specs.Text.{IsClaim};
ghost use Rattle.bundle_check.specs.RightClaims.{IsRightClaim};
ghost use Rattle.bundle_make.specs.Bundling.{IsBare, IsClaimOf, LeadsOn, Listed};
ghost use Rattle.bundle_make.specs.steps.Listing.{AreAskedBy, IsListing};

use crate::killing::killed_of;
use crate::listing::Listing;
use crate::making::{Maker, closed_state};
use crate::ranges::claim_fits;
use bolt_core::board::Board;
use flow_graph::graph::Graph;
use linear_formula::error::OutOfMemory;
use proof_bundle::bundle::Claim;
use query_rules::state::QueryState;
use query_tree::QueryId;
use std::alloc::Global;

/// The graph of the procedure of a state.
fn graph_of<'a>(board: &'a Board, state: &QueryState) -> &'a Graph
    requires { (g : AGraph) × (slice_get board.now.graphs state.now.query.proc ≡ Some g) }
    ensures { slice_get board.now.graphs state.now.query.proc ≡ Some result.now }
{
    &board.graphs().graphs.as_slice()[state.query().proc as usize]
}

/// The claim of a query that closed without a path, where those to which its kills lead are listed:
/// what it asks, and the moves that its stored steps make.
pub fn claim_of(
    alloc: Global,
    board: &Board,
    listing: &Listing,
    id: QueryId,
) -> Result<Claim, OutOfMemory>
    requires bare { IsBare board.now }
    requires listing { IsListing (length board.now.core.entries) listing.now.ids.items
        listing.now.numbers.items }
    requires anchored { (l : ℕ) × IsAnchored board.now.core.nodes l id }
    requires led { (x : ℕ) → LeadsOn board.now id x → Listed listing.now.ids.items x }
    ensures claim { IfOk result (λ c. (claims : List Query) →
        AreAskedBy board.now.core.nodes listing.now.ids.items claims →
        IsClaimOf board.now claims id (claim_of c)) }
    ensures right { IfOk result (λ c. (claims : List Query) →
        AreAskedBy board.now.core.nodes listing.now.ids.items claims →
        IsRightClaim board.now.graphs claims (claim_of c)) }
    ensures ranges { IfOk result (λ c. IsClaim (claim_of c)) }
{
    board.reached();
    let state = closed_state(board, id);
    let graph = graph_of(board, state);
    let killed = killed_of(alloc, state)?;
    let maker = Maker {
        board,
        listing,
        id,
        state,
        graph,
        killed: killed.as_slice(),
    };
    let claim = maker.claim(alloc)?;
    claim_fits(&claim);
    Ok(claim)
}
