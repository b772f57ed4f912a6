//! Graphs of plain edges.

ghost use Rattle.std.specs.Prelude.{◌≡◌, IfOk};

use crate::edges::{Step, edge_of};
use crate::error::FormError;
use crate::kept::{Counts, are_graphs, is_graph};
use flow_graph::graph::{Edge, Edges, Graph};
use flow_graph::graphs::{GraphList, Graphs};
use std::alloc::Global;

/// A graph with the exit 0, the failure 1, and node 2 after the entry.
#[derive(Clone, Copy)]
pub struct Shape<'a> {
    pub counts: Counts,
    /// The edges after the entry, in order.
    pub steps: &'a [Step<'a>],
}

fn edges_of(alloc: Global, shape: &Shape) -> Result<Edges, FormError> {
    let mut edges = Vec::new(alloc);
    edges.push(Edge::Entry {
        to: 2,
        params: shape.counts.params,
    })?;
    for step in shape.steps {
        edges.push(edge_of(alloc, step)?)?;
    }
    Ok(Edges::from_vec(edges))
}

/// The graph of this shape, or `NoGraph`.
pub fn graph_of(alloc: Global, shape: &Shape) -> Result<Graph, FormError>
    ensures params { IfOk result (λ g. g.params ≡ shape.now.counts.params) }
    ensures exits { IfOk result (λ g. g.exits ≡ shape.now.counts.exits) }
    ensures slots { IfOk result (λ g. g.slots ≡ shape.now.counts.slots) }
{
    let edges = edges_of(alloc, shape)?;
    let counts = shape.counts;
    if !is_graph(counts, edges.as_slice()) {
        return Err(FormError::NoGraph);
    }
    Ok(Graph::new(
        counts.nodes,
        0,
        1,
        counts.params,
        counts.exits,
        counts.slots,
        edges,
    ))
}

/// The graphs of these shapes, in order, where each call is of one of them, or `NoSuchCall`.
pub fn graphs_of(alloc: Global, shapes: &[Shape]) -> Result<Graphs, FormError> {
    let mut graphs = Vec::new(alloc);
    for shape in shapes {
        graphs.push(graph_of(alloc, shape)?)?;
    }
    if !are_graphs(&graphs) {
        return Err(FormError::NoSuchCall);
    }
    Ok(Graphs::new(GraphList::from_vec(graphs)))
}
