//! Paths over the live edges of a partition.

ghost use Rattle.std.specs.Prelude.{◌≡◌, ◌<◌, ◌^◌, ◌++◌, ◌↔◌, IfOk, IsTrue, OnOk, length, map, replicate, false, true};
ghost use Rattle.query_rules.specs.Paths.{HasNoPath, target_region};
ghost use Rattle.may_partition.specs.Shown.{have_regions, is_live};
ghost use Rattle.may_partition.specs.declared.region.RegionEdge.{RegionEdge as AnEdge};
ghost use Rattle.bundle_check.specs.steps.Checks.{Decides};
ghost use Rattle.bundle_check.specs.steps.Roads.{IsJoined, ends_of};

use abstract_path::frontier::is_reached;
use flow_graph::graph::Graph;
use linear_formula::error::OutOfMemory;
use may_partition::RegionEdges;
use may_partition::partition::Partition;
use may_partition::region::RegionEdge;
use std::alloc::{AllocError, Global};
use summary_form::query::{ExitKind, Query};

/// The number of the region at the node at which the query's runs end.
fn target_of(graph: &Graph, query: &Query) -> u32
    ensures { result ≡ target_region graph.now query.now }
{
    let end = match query.exit {
        ExitKind::Return => graph.exit,
        ExitKind::Fail(_) => graph.fail,
    };
    prove!(end < graph.nodes);
    end + 1
}

fn ends_of(edge: &RegionEdge) -> (u32, u32)
    ensures { result ≡ ends_of edge.now }
{
    (edge.from, edge.to)
}

/// The regions of the edges.
fn pairs(alloc: Global, edges: &[RegionEdge]) -> Result<Vec<(u32, u32)>, OutOfMemory>
    ensures { IfOk result (λ v. v.items ≡ map ends_of edges.now) }
{
    edges.iter().map(|edge| ends_of(edge)).collect(alloc)
}

/// The marks of `edges` edges, none of which is shut.
fn none_shut(alloc: Global, edges: usize) -> Result<Vec<bool>, OutOfMemory>
    ensures { IfOk result (λ v. v.items ≡ replicate edges false) }
{
    vec![in alloc; false; edges]
}

/// Whether the edges lead from one of `regions` regions to another.
fn is_joined(
    alloc: Global,
    regions: u32,
    edges: &[RegionEdge],
    from: u32,
    to: u32,
) -> Result<bool, OutOfMemory>
    requires within { IsTrue (have_regions regions edges.now) }
    requires few { length edges.now < 2 ^ 32 }
    requires from { from < regions }
    requires to { to < regions }
    ensures { IfOk result (λ r. IsTrue r ↔ IsJoined edges.now from to) }
{
    let pairs = pairs(alloc, edges)?;
    let shut = none_shut(alloc, edges.len())?;
    is_reached(alloc, regions, &pairs, &shut, from, to)
}

/// Adds the edges after the others.
fn push_all(edges: &mut Vec<RegionEdge>, more: RegionEdges<'_>) -> Result<(), OutOfMemory>
    ensures { OnOk result (edges.new.items ≡ edges.old.items ++ more.entry) }
{
    for edge in more {
        edges.push(edge)?;
    }
    Ok(())
}

/// The live edges, region by region.
fn live_edges(
    alloc: Global,
    partition: &Partition,
    regions: u32,
) -> Result<Vec<RegionEdge>, OutOfMemory>
    requires { regions ≡ length partition.now.regions }
    ensures live { IfOk result (λ v. (e : AnEdge) →
        is_live v.items e ≡ is_live partition.now.edges e) }
    ensures within { IfOk result (λ v. IsTrue (have_regions regions v.items)) }
{
    partition.live_within();
    let mut edges = Vec::new(alloc);
    for region in 0..regions {
        push_all(&mut edges, partition.edges_from(region))?;
    }
    Ok(edges)
}

/// Whether no live edges lead from the outside to the region at which the query's runs end. Where
/// there are too many regions or edges for their numbers, memory is said to be out.
pub fn has_no_path(
    alloc: Global,
    graph: &Graph,
    query: &Query,
    partition: &Partition,
) -> Result<bool, OutOfMemory>
    ensures { IfOk result (Decides partition.now (HasNoPath graph.now query.now)) }
{
    partition.live_within();
    let Ok(regions) = u32::try_from(partition.regions().len()) else {
        return Err(AllocError);
    };
    let target = target_of(graph, query);
    if target >= regions {
        return Ok(true);
    }
    let edges = live_edges(alloc, partition, regions)?;
    if u32::try_from(edges.len()).is_err() {
        return Err(AllocError);
    }
    Ok(!is_joined(alloc, regions, &edges, 0, target)?)
}
