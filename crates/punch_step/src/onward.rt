//! Trails that are carried on, where they may be. Nothing rests on it but what is chosen.

use flow_graph::graph::Graph;
use linear_formula::error::OutOfMemory;
use must_region::error::TrailError;
use must_region::trail::Trail;
use std::alloc::{AllocError, Global};
use summary_form::path::Path;

/// The trail, if no limit was met.
fn within_limits(carried: Result<Trail, TrailError>) -> Result<Option<Trail>, OutOfMemory> {
    match carried {
        Ok(trail) => Ok(Some(trail)),
        Err(TrailError::Limit(_)) => Ok(None),
        Err(TrailError::Memory) => Err(AllocError),
    }
}

/// The trail carried over the edge of this place, if it is no call, leaves the trail's node and no
/// limit is met.
pub fn over_plain(
    alloc: Global,
    graph: &Graph,
    trail: &Trail,
    place: usize,
) -> Result<Option<Trail>, OutOfMemory> {
    match graph.edges.as_slice().get(place) {
        Some(edge) if !edge.is_call() && edge.source() == Some(trail.node) => {
            within_limits(trail.extend(alloc, edge))
        }
        _ => Ok(None),
    }
}

/// The trail carried over the call of this place by the path, if it leaves the trail's node and no
/// limit is met.
pub fn over_call(
    alloc: Global,
    graph: &Graph,
    trail: &Trail,
    place: usize,
    path: &Path,
) -> Result<Option<Trail>, OutOfMemory> {
    match graph.edges.as_slice().get(place) {
        Some(call) if call.is_call() && call.source() == Some(trail.node) => {
            within_limits(trail.extend_must(alloc, graph, call, path))
        }
        _ => Ok(None),
    }
}
