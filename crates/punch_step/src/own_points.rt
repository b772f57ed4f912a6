//! Which own points are carried off the shortest path. `side_extend` confirms what is chosen.

ghost use Rattle.std.specs.Prelude.{◌≡◌, ◌<◌, List, length, suc, IfOk, IfSome, OnOk};
ghost use Rattle.flow_graph.specs.declared.graph.Graph.{Graph as AGraph};
ghost use Rattle.summary_form.specs.declared.summary.Summary.{Summary as ASummary};
ghost use Rattle.may_partition.specs.Parted.{end_node};
ghost use Rattle.query_rules.specs.Steps.{Model};
ghost use Rattle.punch_step.specs.Confirming.{IsSideTurn};
ghost use Rattle.punch_step.specs.Analysed.{IsAnalysed};
ghost use Rattle.punch_step.specs.steps.Following.{IsFollowed};

use crate::distances::Distances;
use crate::guess::is_missed;
use crate::onward::over_plain;
use crate::side_extend::side_extend;
use flow_graph::graph::{Edge, Graph};
use linear_formula::error::OutOfMemory;
use linear_formula::formula::Atom;
use may_partition::region::RegionEdge;
use must_region::trail::Trail;
use query_rules::state::QueryState;
use query_rules::step::{Mark, Step};
use std::alloc::Global;

/// Of how many marks, the newest ones, the points are carried.
const NEWEST: usize = 6;

/// Whether none of the atoms is seen to fail at the trail's end, at the mark's point.
pub(crate) fn may_hold(trail: &Trail, mark: &Mark, atoms: &[Atom]) -> bool {
    for atom in atoms {
        if is_missed(trail, &mark.point, atom) {
            return false;
        }
    }
    true
}

/// Whether the point may go over the edge.
fn may_go(trail: &Trail, mark: &Mark, over: &Edge) -> bool {
    match over {
        Edge::Guard { rows, .. } | Edge::Assert { rows, .. } => {
            may_hold(trail, mark, rows.atoms.as_slice())
        }
        Edge::Call { .. } | Edge::Entry { .. } => false,
        _ => true,
    }
}

/// A trail that was carried over a graph's edge, if its point may go there.
#[derive(Drop)]
struct Over {
    edge: u32,
    trail: Option<Trail>,
}

/// The mark's trail carried over the edge of this place, if its point may go there.
fn carried(
    alloc: Global,
    state: &QueryState,
    graph: &Graph,
    mark: &Mark,
    place: usize,
) -> Result<Option<Trail>, OutOfMemory> {
    let Some(over) = graph.edges.as_slice().get(place) else {
        return Ok(None);
    };
    let Some(trail) = state.trails().get(mark.trail as usize) else {
        return Ok(None);
    };
    if !may_go(trail, mark, over) {
        return Ok(None);
    }
    over_plain(alloc, graph, trail, place)
}

/// The same, with the edge's number.
fn over_edge(
    alloc: Global,
    state: &QueryState,
    graph: &Graph,
    mark: &Mark,
    edge: u32,
) -> Result<Over, OutOfMemory> {
    let trail = carried(alloc, state, graph, mark, edge as usize)?;
    Ok(Over { edge, trail })
}

/// Whether the trail was carried over the edge.
fn is_over(over: &Option<Over>, edge: u32) -> bool {
    match over {
        Some(over) => over.edge == edge,
        None => false,
    }
}

/// Whether the point may lie in the region after the edge.
fn may_land(
    alloc: Global,
    state: &QueryState,
    over: &Option<Over>,
    mark: &Mark,
    region: u32,
) -> Result<bool, OutOfMemory> {
    let Some(
        Over {
            trail: Some(trail),
            ..
        },
    ) = over
    else {
        return Ok(false);
    };
    let Some(target) = state.partition().regions().get(region as usize) else {
        return Ok(false);
    };
    let target = target.cube.to_cube(alloc)?;
    Ok(may_hold(trail, mark, target.atoms.as_slice()))
}

/// The first step by the mark's own point.
fn from_mark(
    alloc: Global,
    state: &QueryState,
    graph: &Graph,
    distances: &mut Distances,
    mark: &Mark,
    number: usize,
) -> Result<Option<Step>, OutOfMemory>
    requires region { mark.now.region < length state.now.partition.regions }
    requires state { (gs : List AGraph) × (table : List ASummary) × (m : Model)
        × IsAnalysed gs table graph.now state.now m }
    requires followed { IsFollowed state.now distances.old }
    requires target { distances.old.target ≡ suc (end_node graph.now state.now.query.exit) }
    ensures step { IfOk result (λ o. IfSome o (IsSideTurn graph.now state.now)) }
    ensures followed { OnOk result (IsFollowed state.now distances.new) }
    ensures same_target { OnOk result (distances.new.target ≡ distances.old.target) }
{
    let mut over: Option<Over> = None;
    for edge in state.partition().edges_from(mark.region) {
        if distances.may_be_side(&edge) {
            if !is_over(&over, edge.edge) {
                over = Some(over_edge(alloc, state, graph, mark, edge.edge)?);
            }
            if may_land(alloc, state, &over, mark, edge.to)? {
                if let Some(step) = side_extend(alloc, state, graph, distances, number, edge)? {
                    return Ok(Some(step));
                }
            }
        }
    }
    Ok(None)
}

/// The first step by the own point of the mark of this number.
fn from_number(
    alloc: Global,
    state: &QueryState,
    graph: &Graph,
    distances: &mut Distances,
    number: usize,
) -> Result<Option<Step>, OutOfMemory>
    requires state { (gs : List AGraph) × (table : List ASummary) × (m : Model)
        × IsAnalysed gs table graph.now state.now m }
    requires followed { IsFollowed state.now distances.old }
    requires target { distances.old.target ≡ suc (end_node graph.now state.now.query.exit) }
    ensures step { IfOk result (λ o. IfSome o (IsSideTurn graph.now state.now)) }
    ensures followed { OnOk result (IsFollowed state.now distances.new) }
    ensures same_target { OnOk result (distances.new.target ≡ distances.old.target) }
{
    let Some(mark) = state.marks().get(number) else {
        return Ok(None);
    };
    if mark.region == 0 || mark.region as usize >= state.partition().regions().len() {
        return Ok(None);
    }
    from_mark(alloc, state, graph, distances, mark, number)
}

/// Whether the last step may have left a new edge to carry a point over.
fn may_be_new(state: &QueryState) -> bool {
    !matches!(
        state.steps().last(),
        Some(Step::Kill { .. }) | Some(Step::Stuck { .. })
    )
}

/// The first step off the shortest path by the own points of the newest marks.
pub fn side_turn(
    alloc: Global,
    state: &QueryState,
    graph: &Graph,
    distances: &mut Distances,
    at: RegionEdge,
) -> Result<Option<Step>, OutOfMemory>
    requires state { (gs : List AGraph) × (table : List ASummary) × (m : Model)
        × IsAnalysed gs table graph.now state.now m }
    requires followed { IsFollowed state.now distances.old }
    requires target { distances.old.target ≡ suc (end_node graph.now state.now.query.exit) }
    ensures step { IfOk result (λ o. IfSome o (IsSideTurn graph.now state.now)) }
    ensures followed { OnOk result (IsFollowed state.now distances.new) }
    ensures same_target { OnOk result (distances.new.target ≡ distances.old.target) }
{
    if at.from == 0 || !may_be_new(state) {
        return Ok(None);
    }
    let count = state.marks().len();
    for back in 0..NEWEST {
        let Some(number) = count.checked_sub(back + 1) else {
            return Ok(None);
        };
        if let Some(step) = from_number(alloc, state, graph, distances, number)? {
            return Ok(Some(step));
        }
    }
    Ok(None)
}
