//! One claim of a bundle.

ghost use Rattle.std.specs.Prelude.{◌≡◌, ◌↔◌, Some, map, IfOk, IsTrue};
ghost use Rattle.summary_form.specs.Instances.{arity_of};
ghost use Rattle.summary_form.specs.NotMays.{Fits};
ghost use Rattle.proof_bundle.specs.Claims.{claim_of, move_of};
ghost use Rattle.bundle_check.specs.RightClaims.{IsRightClaim, queries_of};
ghost use Rattle.bundle_check.specs.steps.Checks.{Closes, Decides};
ghost use Rattle.bundle_check.specs.steps.Names.{exits_named};

use crate::columns::Allowed;
use crate::moves::Checker;
use crate::paths::has_no_path;
use flow_graph::graph::Graph;
use flow_graph::graphs::Graphs;
use linear_formula::error::OutOfMemory;
use may_partition::partition::Partition;
use proof_bundle::bundle::{Claim, Move};
use std::alloc::Global;
use summary_form::query::{ExitKind, Query};

/// The exit values that the end of a query names: at a failure none.
fn exits_named(graph: &Graph, exit: ExitKind) -> u32
    ensures { result ≡ exits_named exit graph.now.exits }
{
    match exit {
        ExitKind::Return => graph.exits,
        ExitKind::Fail(_) => 0,
    }
}

/// Whether the query's cubes name only values that the runs of its procedure's graph have.
fn fits(graph: &Graph, query: &Query) -> bool
    ensures { IsTrue result ↔ Fits query.now.proc (arity_of (Some graph.now)) query.now }
{
    let start = Allowed {
        slots: 0,
        entries: graph.params,
        exits: 0,
    };
    let end = Allowed {
        exits: exits_named(graph, query.exit),
        ..start
    };
    start.are_named_by(query.start.atoms.as_slice()) && end.are_named_by(query.end.atoms.as_slice())
}

/// Whether the moves are right one after the other, and leave no path to the query's end.
fn closes(
    alloc: Global,
    checker: &Checker,
    partition: &mut Partition,
    query: &Query,
    moves: &[Move],
) -> Result<bool, OutOfMemory>
    ensures { IfOk result (Decides partition.old
        (Closes checker.now.graph.now checker.now.exit
        (queries_of (map claim_of checker.now.claims.now)) query.now (map move_of moves.now))) }
{
    if !checker.make_all(alloc, partition, moves)? {
        return Ok(false);
    }
    has_no_path(alloc, checker.graph, query, partition)
}

/// Whether the claim is right, among these claims.
pub fn is_right_claim(
    alloc: Global,
    graphs: &Graphs,
    claims: &[Claim],
    claim: &Claim,
) -> Result<bool, OutOfMemory>
    ensures { IfOk result (λ r. IsTrue r ↔ IsRightClaim graphs.now.graphs
        (queries_of (map claim_of claims.now)) (claim_of claim.now)) }
{
    let query = &claim.query;
    let Some(graph) = graphs.graphs.as_slice().get(query.proc as usize) else {
        return Ok(false);
    };
    if !fits(graph, query) {
        return Ok(false);
    }
    let checker = Checker {
        graph,
        exit: query.exit,
        claims,
    };
    let mut partition = Partition::begin(alloc, graph, query)?;
    closes(
        alloc,
        &checker,
        &mut partition,
        query,
        claim.moves.as_slice(),
    )
}
