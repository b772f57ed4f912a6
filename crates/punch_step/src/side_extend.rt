//! Steps off the shortest path: a mark's own point carried over an edge that is no call.

ghost use Rattle.std.specs.Prelude.{◌≡◌, List, suc, IfOk, IfSome, OnOk};
ghost use Rattle.flow_graph.specs.declared.graph.Graph.{Graph as AGraph};
ghost use Rattle.summary_form.specs.declared.summary.Summary.{Summary as ASummary};
ghost use Rattle.may_partition.specs.Parted.{end_node};
ghost use Rattle.query_rules.specs.Steps.{Model};
ghost use Rattle.punch_step.specs.Confirming.{IsSideTurn};
ghost use Rattle.must_region.specs.Traces.{trace_of};
ghost use Rattle.punch_step.specs.Sides.{IsLanded};
ghost use Rattle.punch_step.specs.Analysed.{IsAnalysed};
ghost use Rattle.punch_step.specs.steps.Following.{IsFollowed};

use crate::distances::Distances;
use flow_graph::graph::Graph;
use linear_formula::error::OutOfMemory;
use may_partition::region::RegionEdge;
use must_region::error::TrailError;
use must_region::trail::Trail;
use query_rules::state::QueryState;
use query_rules::step::{Mark, Step};
use std::alloc::{AllocError, Global};

/// The step by which the trail of this number, which was carried over the edge, marks its target,
/// if the mark's own point is in it.
fn landed(
    alloc: Global,
    state: &QueryState,
    carried: &Trail,
    mark: &Mark,
    edge: RegionEdge,
) -> Result<Option<Step>, OutOfMemory>
    ensures { IfOk result
        (λ o. IfSome o (IsLanded state.now (trace_of carried.now) mark.now edge)) }
{
    let Some(target) = state.partition().regions().get(edge.to as usize) else {
        return Ok(None);
    };
    let target = target.cube.to_cube(alloc)?;
    match carried.guard_with(alloc, &state.query().start, &target) {
        Ok(rows) => {
            if !rows.holds(&mark.point) {
                return Ok(None);
            }
            Ok(Some(Step::Extend {
                edge,
                trail: mark.trail,
                point: mark.point.copy(alloc)?,
            }))
        }
        Err(TrailError::Limit(_)) => Ok(None),
        Err(TrailError::Memory) => Err(AllocError),
    }
}

/// The step by which the own point of the mark of this number marks the edge's target, if the edge
/// is open, no call, and leads from the mark's region to one that isn't marked, from which open
/// edges lead on to the target.
pub fn side_extend(
    alloc: Global,
    state: &QueryState,
    graph: &Graph,
    distances: &mut Distances,
    number: usize,
    edge: RegionEdge,
) -> Result<Option<Step>, OutOfMemory>
    requires state { (gs : List AGraph) × (table : List ASummary) × (m : Model)
        × IsAnalysed gs table graph.now state.now m }
    requires followed { IsFollowed state.now distances.old }
    requires target { distances.old.target ≡ suc (end_node graph.now state.now.query.exit) }
    ensures step { IfOk result (λ o. IfSome o (IsSideTurn graph.now state.now)) }
    ensures followed { OnOk result (IsFollowed state.now distances.new) }
    ensures same_target { OnOk result (distances.new.target ≡ distances.old.target) }
{
    let Some(mark) = state.marks().get(number) else {
        return Ok(None);
    };
    let Some(over) = graph.edges.as_slice().get(edge.edge as usize) else {
        return Ok(None);
    };
    if edge.from == 0 || edge.from != mark.region || over.is_call() {
        return Ok(None);
    }
    if !distances.is_side(alloc, state, &edge) {
        return Ok(None);
    }
    let Some(trail) = state.trails().get(mark.trail as usize) else {
        return Ok(None);
    };
    match trail.extend(alloc, over) {
        Ok(carried) => landed(alloc, state, &carried, mark, edge),
        Err(TrailError::Limit(_)) => Ok(None),
        Err(TrailError::Memory) => Err(AllocError),
    }
}
