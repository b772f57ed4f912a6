//! The edges that leave each node, found without a search.

ghost use Rattle.std.specs.Prelude.{◌≡◌, ◌<◌, length, replicate, IfOk, None, Some, slice_get, slice_index_or};
ghost use Rattle.path_sweep.specs.declared.links.Links.{Links as ALinks};
ghost use Rattle.path_sweep.specs.steps.Linking.{AreLinks, AreAllLinks};

use c_tree::tree::ProcId;
use flow_graph::graph::Graph;
use flow_graph::graphs::Graphs;
use linear_formula::error::OutOfMemory;
use std::alloc::Global;

/// For each node of a graph the first edge that leaves it, and for each edge the next one that
/// leaves the same node.
#[derive(Drop)]
pub struct Links {
    first: Vec<Option<usize>>,
    next: Vec<Option<usize>>,
}

/// The links of each graph, by its number.
#[derive(Drop)]
pub struct Following {
    graphs: Vec<Links>,
}

/// Nothing, `count` times.
fn nothing(alloc: Global, count: usize) -> Result<Vec<Option<usize>>, OutOfMemory>
    ensures { IfOk result (λ v. v.items ≡ replicate count None) }
{
    let mut items = Vec::with_capacity(alloc, count)?;
    for _ in 0..count {
        items.push(None)?;
    }
    Ok(items)
}

/// The links of a graph, made from its last edge to its first.
fn links_of(alloc: Global, graph: &Graph) -> Result<Links, OutOfMemory>
    ensures { IfOk result (λ l. AreLinks graph.now l) }
{
    let edges = graph.edges.as_slice();
    let mut first = nothing(alloc, graph.nodes as usize)?;
    let mut next = nothing(alloc, edges.len())?;
    let mut left = edges.len();
    while left > 0 {
        left -= 1;
        if let Some(node) = edges[left].source() {
            next[left] = first[node as usize];
            first[node as usize] = Some(left);
        }
    }
    Ok(Links { first, next })
}

impl Following {
    /// Of all graphs.
    pub fn new(alloc: Global, graphs: &Graphs) -> Result<Following, OutOfMemory>
        ensures { IfOk result (λ f. AreAllLinks graphs.now.graphs f) }
    {
        let graphs = graphs.graphs.as_slice();
        let mut all = Vec::with_capacity(alloc, graphs.len())?;
        for graph in graphs {
            all.push(links_of(alloc, graph)?)?;
        }
        Ok(Following { graphs: all })
    }

    /// The first edge that leaves the node.
    pub fn first(&self, proc: ProcId, node: u32) -> Option<usize>
        requires { proc < length self.now.graphs.items }
        ensures { (l : ALinks) → slice_get self.now.graphs.items proc ≡ Some l →
            result ≡ slice_index_or l.first.items node None }
    {
        let links = &self.graphs[proc as usize];
        match links.first.get(node as usize) {
            Some(first) => *first,
            None => None,
        }
    }

    /// The next edge after this one that leaves the same node.
    pub fn next(&self, proc: ProcId, edge: usize) -> Option<usize>
        requires { proc < length self.now.graphs.items }
        ensures { (l : ALinks) → slice_get self.now.graphs.items proc ≡ Some l →
            result ≡ slice_index_or l.next.items edge None }
    {
        let links = &self.graphs[proc as usize];
        match links.next.get(edge) {
            Some(next) => *next,
            None => None,
        }
    }
}
