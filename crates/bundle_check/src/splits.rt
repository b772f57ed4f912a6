//! Splits of regions.

ghost use Rattle.std.specs.Prelude.{◌≡◌, ◌⊎◌, IfOk};
ghost use Rattle.std.specs.List.{list_all};
ghost use Rattle.flow_graph.specs.Columns.{rows_name_only};
ghost use Rattle.query_rules.specs.Rows.{is_own_column};
ghost use Rattle.bundle_check.specs.RightClaims.{SplitsByPreimage, SplitsRegion, is_among};
ghost use Rattle.bundle_check.specs.steps.Checks.{Decides};

use crate::answered::is_among;
use crate::columns::Allowed;
use crate::place::{place_of, preimage_of};
use flow_graph::graph::Graph;
use linear_formula::error::OutOfMemory;
use linear_formula::formula::{Atom, Atoms};
use may_partition::partition::Partition;
use may_partition::region::RegionEdge;
use std::alloc::Global;

/// Whether the atoms name slots and entry values of the graph alone.
fn name_own(graph: &Graph, atoms: &[Atom]) -> bool
    ensures { result ≡ rows_name_only (is_own_column graph.now) atoms.now }
{
    let own = Allowed {
        slots: graph.slots,
        entries: graph.params,
        exits: 0,
    };
    own.are_named_by(atoms)
}

fn are_among(rows: &[Atom], atoms: &[Atom]) -> bool
    ensures { result ≡ list_all (is_among rows.now) atoms.now }
{
    atoms.iter().all(|atom| is_among(rows, atom))
}

/// Whether the atoms are some of those of the preimage over the edge, which is live and leaves an
/// inner region.
fn splits_by_preimage(
    alloc: Global,
    graph: &Graph,
    partition: &Partition,
    edge: &RegionEdge,
    atoms: &[Atom],
) -> Result<bool, OutOfMemory>
    ensures { IfOk result (Decides partition.now
        (λ p. SplitsByPreimage graph.now p edge.now atoms.now)) }
{
    if !partition.live(edge) || edge.from == 0 || atoms.is_empty() {
        return Ok(false);
    }
    let Some(place) = place_of(graph, partition, edge) else {
        return Ok(false);
    };
    match preimage_of(alloc, place.over, &place.target.cube)? {
        Some(before) => Ok(are_among(before.atoms.as_slice(), atoms)),
        None => Ok(false),
    }
}

/// Whether graph edge 0 leads from an inner region to itself, so that no step does, whose node is
/// no end of the graph, and the atoms are of the graph.
fn splits_region(graph: &Graph, partition: &Partition, edge: &RegionEdge, atoms: &Atoms) -> bool
    ensures { Decides partition.now (λ p. SplitsRegion graph.now p edge.now atoms.now) result }
{
    let items = atoms.as_slice();
    if edge.edge != 0 || edge.to != edge.from || edge.from == 0 {
        return false;
    }
    if items.is_empty() || !name_own(graph, items) {
        return false;
    }
    match partition.regions().get(edge.from as usize) {
        Some(source) => source.node != graph.exit && source.node != graph.fail,
        None => false,
    }
}

/// Whether the region that the edge leaves may be split by the atoms, but for negations that are
/// too wide.
pub fn may_split(
    alloc: Global,
    graph: &Graph,
    partition: &Partition,
    edge: &RegionEdge,
    atoms: &Atoms,
) -> Result<bool, OutOfMemory>
    ensures { IfOk result (Decides partition.now
        (λ p. SplitsByPreimage graph.now p edge.now atoms.now
        ⊎ SplitsRegion graph.now p edge.now atoms.now)) }
{
    if splits_region(graph, partition, edge, atoms) {
        return Ok(true);
    }
    splits_by_preimage(alloc, graph, partition, edge, atoms.as_slice())
}
