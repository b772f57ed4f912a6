//! Region edges in their graph and partition, and the preimages over them.

ghost use Rattle.std.specs.Prelude.{IfNone, IfOk, IfSome};
ghost use Rattle.bundle_check.specs.steps.Places.{HasNoPlace, IfPreimage, IsPlace};

use flow_graph::graph::{Edge, Graph};
use linear_formula::error::OutOfMemory;
use linear_formula::formula::Cube;
use linear_formula::shared::SharedCube;
use may_partition::partition::Partition;
use may_partition::region::{Region, RegionEdge};
use shadow_elim::projection::ProjectionError;
use std::alloc::{AllocError, Global};
use weakest_pre::pre;

/// A graph edge, and the regions between which it is seen.
#[derive(Clone, Copy)]
pub struct Place<'a> {
    pub over: &'a Edge,
    pub source: &'a Region,
    pub target: &'a Region,
}

/// The graph edge of a region edge, and its regions, where they exist.
pub fn place_of<'a>(
    graph: &'a Graph,
    partition: &'a Partition,
    edge: &RegionEdge,
) -> Option<Place<'a>>
    ensures found { IfSome result
        (λ p. IsPlace graph.now partition.now edge.now p.over.now p.source.now p.target.now) }
    ensures none { IfNone result (HasNoPlace graph.now partition.now edge.now) }
{
    let regions = partition.regions();
    let Some(over) = graph.edges.as_slice().get(edge.edge as usize) else {
        return None;
    };
    let Some(source) = regions.get(edge.from as usize) else {
        return None;
    };
    let Some(target) = regions.get(edge.to as usize) else {
        return None;
    };
    Some(Place {
        over,
        source,
        target,
    })
}

/// The same as `preimage_of`, of a cube with atoms of its own.
fn preimage_over(alloc: Global, over: &Edge, target: &Cube) -> Result<Option<Cube>, OutOfMemory>
    ensures { IfOk result (IfPreimage over.now target.now.atoms) }
{
    if over.is_call() {
        return Ok(None);
    }
    match pre(alloc, over, target) {
        Ok(before) => Ok(Some(before.cube)),
        Err(ProjectionError::Limit(_)) => Ok(None),
        Err(ProjectionError::Memory) => Err(AllocError),
    }
}

/// The cube of the states that go over an edge into the target; none over a call, or where the
/// preimage meets a limit.
pub fn preimage_of(
    alloc: Global,
    over: &Edge,
    target: &SharedCube,
) -> Result<Option<Cube>, OutOfMemory>
    ensures { IfOk result (IfPreimage over.now target.now.atoms) }
{
    let plain = target.to_cube(alloc)?;
    preimage_over(alloc, over, &plain)
}
