//! Sweeps, said by plain values.

ghost use Rattle.std.specs.Prelude.{◌≡◌, IsTrue, Some, slice_get};
ghost use Rattle.flow_graph.specs.declared.graph.Graph.{Graph as AGraph};

use flow_graph::graph::Graph;
use flow_graph::graphs::Graphs;
use path_sweep::{SweepEnd, Swept, sweep};
use shadow_elim::limit::LimitKind;
use std::alloc::Global;
use std::test::Fail;

/// How a sweep ended.
#[derive(Clone, Copy, Debug, PartialEq, Eq)]
pub enum End {
    Whole,
    More,
    Limit(LimitKind),
}

/// The inputs of an entry, of which there are at most three: how many, and their values.
pub type Entry = Option<(usize, [i64; 3])>;

/// The end, how many entries there are, and the first two.
pub type Told = (End, usize, [Entry; 2]);

fn end_of(end: &SweepEnd) -> End {
    match end {
        SweepEnd::Whole => End::Whole,
        SweepEnd::More => End::More,
        SweepEnd::Limit(kept) => End::Limit(kept.limit.kind()),
    }
}

fn entry_of(values: &[i64]) -> Entry {
    let mut three = [0; 3];
    for place in 0..3 {
        if place < values.len() {
            three[place] = values[place];
        }
    }
    Some((values.len(), three))
}

fn told_of(swept: &Swept) -> Told {
    let mut first = [None; 2];
    for place in 0..2 {
        if let Some(Some(values)) = swept.found.get(place) {
            first[place] = entry_of(values);
        }
    }
    (end_of(&swept.end), swept.found.len(), first)
}

/// Whether there is such a graph, without entry values.
fn is_main(graphs: &[Graph], main: u32) -> bool
    ensures { IsTrue result →
        (g : AGraph) × (slice_get graphs.now main ≡ Some g) × (g.params ≡ 0) }
{
    match graphs.get(main as usize) {
        Some(graph) => graph.params == 0,
        None => false,
    }
}

/// The sweep of `main`, if it is there and takes nothing.
pub fn swept(
    alloc: Global,
    graphs: &Graphs,
    main: u32,
    asserts: u32,
    edges: u32,
) -> Result<Told, Fail> {
    if !is_main(graphs.graphs.as_slice(), main) || edges < 1 || edges > 5000 {
        return Err(Fail::new("no sweep"));
    }
    Ok(told_of(&sweep(alloc, graphs, main, asserts, edges)?))
}
