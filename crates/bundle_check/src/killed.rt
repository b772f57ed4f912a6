//! Kills by certificates.

ghost use Rattle.std.specs.Prelude.{IfOk, IsTrue, ◌↔◌};
ghost use Rattle.infeasible_cert.specs.Refutation.{refutation_of};
ghost use Rattle.bundle_check.specs.RightClaims.{IsRefutedBy, Kills};
ghost use Rattle.bundle_check.specs.steps.Checks.{Decides};

use crate::place::{place_of, preimage_of};
use flow_graph::graph::Graph;
use infeasible_cert::certificate::Certificate;
use infeasible_cert::refutes;
use linear_formula::error::OutOfMemory;
use linear_formula::formula::Cube;
use may_partition::partition::Partition;
use may_partition::region::RegionEdge;
use std::alloc::Global;

/// Whether the certificate refutes the cube.
pub fn is_refuted(cube: &Cube, by: &Certificate) -> bool
    ensures { IsTrue result ↔ IsRefutedBy cube.now.atoms (refutation_of by.now) }
{
    let _ = cube.atoms.as_slice();
    refutes(cube, by)
}

/// Whether the edge is live, and the certificate shows that no step is over it.
pub fn is_killed(
    alloc: Global,
    graph: &Graph,
    partition: &Partition,
    edge: &RegionEdge,
    by: &Certificate,
) -> Result<bool, OutOfMemory>
    ensures { IfOk result (Decides partition.now
        (λ p. Kills graph.now p edge.now (refutation_of by.now))) }
{
    if !partition.live(edge) {
        return Ok(false);
    }
    let Some(place) = place_of(graph, partition, edge) else {
        return Ok(false);
    };
    let Some(before) = preimage_of(alloc, place.over, &place.target.cube)? else {
        return Ok(false);
    };
    let rows = place.source.cube.cube_with(alloc, before)?;
    Ok(is_refuted(&rows, by))
}
