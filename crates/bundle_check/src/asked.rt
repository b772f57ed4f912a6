//! The queries that calls ask.

ghost use Rattle.std.specs.Prelude.{◌≡◌, IfOk};
ghost use Rattle.query_rules.specs.Rows.{call_exit};
ghost use Rattle.bundle_check.specs.steps.Places.{IfAsked};

use crate::place::place_of;
use call_bridge::ask_of;
use flow_graph::graph::Graph;
use linear_formula::error::OutOfMemory;
use may_partition::partition::Partition;
use may_partition::region::RegionEdge;
use shadow_elim::projection::ProjectionError;
use std::alloc::{AllocError, Global};
use summary_form::query::{ExitKind, Query};

/// How a call ends whose edge leads to the node: at the failure of the graph as the query fails.
fn exit_at(fail: u32, exit: ExitKind, node: u32) -> Option<ExitKind>
    ensures { result ≡ call_exit fail exit node }
{
    if node != fail {
        return Some(ExitKind::Return);
    }
    match exit {
        ExitKind::Return => None,
        ExitKind::Fail(_) => Some(exit),
    }
}

/// The query that the call of an edge asks in a query with this exit kind. There is none where the
/// edge is no call or doesn't exist, where the call fails and the query is about runs that return,
/// and where the asked query meets a limit.
pub fn asked_over(
    alloc: Global,
    graph: &Graph,
    exit: ExitKind,
    partition: &Partition,
    edge: &RegionEdge,
) -> Result<Option<Query>, OutOfMemory>
    ensures { IfOk result (IfAsked graph.now exit partition.now edge.now) }
{
    let Some(place) = place_of(graph, partition, edge) else {
        return Ok(None);
    };
    if !place.over.is_call() {
        return Ok(None);
    }
    let Some(kind) = exit_at(graph.fail, exit, place.target.node) else {
        return Ok(None);
    };
    let source = place.source.cube.to_cube(alloc)?;
    let target = place.target.cube.to_cube(alloc)?;
    match ask_of(alloc, &source, place.over, &target, kind) {
        Ok(asking) => Ok(Some(asking.query)),
        Err(ProjectionError::Limit(_)) => Ok(None),
        Err(ProjectionError::Memory) => Err(AllocError),
    }
}
