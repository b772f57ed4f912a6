//! A condition that reads the sum of many inputs.

ghost use Rattle.std.specs.Prelude.{◌≤◌};

use crate::swept::{End, Told, swept};
use flow_graph::graph::{Edge, Edges, Graph, Slots};
use flow_graph::graphs::{GraphList, Graphs};
use linear_formula::formula::Cube;
use shadow_elim::limit::LimitKind;
use std::alloc::Global;
use std::test::Fail;
use test_forms::kept::{Counts, are_graphs, is_graph};
use test_forms::rows::cube_of;

/// The sum of the first slots is at most 0.
fn low_sum(alloc: Global, slots: u32) -> Result<Cube, Fail> {
    let mut parts = Vec::new(alloc);
    for slot in 0..slots {
        parts.push((1, slot))?;
    }
    Ok(cube_of(alloc, &[(parts.as_slice(), 0)])?)
}

/// `inputs` inputs, each in a slot of its own, and then a condition on their sum.
fn edges_of(alloc: Global, inputs: u32) -> Result<Edges, Fail>
    requires { inputs ≤ 1000 }
{
    let mut edges = Vec::new(alloc);
    edges.push(Edge::Entry { to: 2, params: 0 })?;
    for slot in 0..inputs {
        let from = slot + 2;
        let to = slot + 3;
        edges.push(Edge::Input { from, to, slot })?;
    }
    let from = inputs + 2;
    let to = inputs + 3;
    let rows = low_sum(alloc, inputs)?;
    edges.push(Edge::Guard { from, to, rows })?;
    edges.push(Edge::Return {
        from: to,
        to: 0,
        slots: Slots::from_vec(Vec::new(alloc)),
    })?;
    Ok(Edges::from_vec(edges))
}

/// The graph of these edges.
fn graph_of(alloc: Global, inputs: u32) -> Result<Graph, Fail>
    requires { inputs ≤ 1000 }
{
    let edges = edges_of(alloc, inputs)?;
    let counts = Counts {
        nodes: inputs + 4,
        params: 0,
        exits: 0,
        slots: inputs,
    };
    if !is_graph(counts, edges.as_slice()) {
        return Err(Fail::new("no graph"));
    }
    Ok(Graph::new(inputs + 4, 0, 1, 0, 0, inputs, edges))
}

fn sum_of(alloc: Global, inputs: u32) -> Result<Told, Fail>
    requires { inputs ≤ 1000 }
{
    let graphs = vec![in alloc; graph_of(alloc, inputs)?]?;
    if !are_graphs(&graphs) {
        return Err(Fail::new("no graphs"));
    }
    let graphs = Graphs::new(GraphList::from_vec(graphs));
    swept(alloc, &graphs, 0, 0, 1000)
}

#[test]
fn sums_of_many_inputs(rt: HostRuntime) -> Result<(), Fail> {
    let whole = (End::Whole, 0, [None, None]);
    let limited = (End::Limit(LimitKind::Columns), 0, [None, None]);
    let sums = [sum_of(rt.alloc(), 256)?, sum_of(rt.alloc(), 257)?];
    assert!(rt; sums == [whole, limited], "256 and 257 columns");
    Ok(())
}
