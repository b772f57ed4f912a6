//! The sweep.

ghost use Rattle.std.specs.Prelude.{◌≡◌, ◌≤◌, IfOk, Some, slice_get};
ghost use Rattle.flow_graph.specs.declared.graph.Graph.{Graph};
ghost use Rattle.path_sweep.specs.Ends.{ComesWhole, EndsSo, HasRightLimit};

use crate::links::Following;
use crate::swept::{SweepEnd, Swept};
use crate::walk::Walk;
use c_tree::tree::ProcId;
use flow_graph::graphs::Graphs;
use linear_formula::error::OutOfMemory;
use std::alloc::Global;

/// Counts paths until the sweep ends.
fn count_paths(
    alloc: Global,
    graphs: &Graphs,
    main: ProcId,
    asserts: u32,
    edges: u32,
) -> Result<Swept, OutOfMemory>
    requires some { 1 ≤ edges }
    requires few { edges ≤ 5000 }
    requires main { (g : Graph) × (slice_get graphs.now.graphs main ≡ Some g)
        × (g.params ≡ 0) }
    ensures { IfOk result (λ s. EndsSo graphs.now.graphs main asserts edges s) }
{
    let following = Following::new(alloc, graphs)?;
    let mut walk = Walk::begin(alloc, graphs, main, asserts, &following)?;
    for _ in 0..edges {
        if let Some(end) = walk.advance(alloc, graphs, &following)? {
            return Ok(walk.into_swept(end));
        }
    }
    Ok(walk.into_swept(SweepEnd::More))
}

/// Counts the feasible paths of `main` in order, each before its longer ones and its edges in
/// ascending order, until all are counted, one more than `edges` (1 to 5,000) is, or a question
/// meets a limit; and finds, for each assertion below `asserts`, the inputs of the first counted
/// path that fails there. `main` takes no entry values. The error is lack of memory, or of a number
/// of 32 bits for a symbol.
pub fn sweep(
    alloc: Global,
    graphs: &Graphs,
    main: ProcId,
    asserts: u32,
    edges: u32,
) -> Result<Swept, OutOfMemory>
    requires some { 1 ≤ edges }
    requires few { edges ≤ 5000 }
    requires main { (g : Graph) × (slice_get graphs.now.graphs main ≡ Some g)
        × (g.params ≡ 0) }
    ensures ends { IfOk result (λ s. EndsSo graphs.now.graphs main asserts edges s) }
    ensures whole { IfOk result (λ s. ComesWhole graphs.now.graphs main edges s.end) }
    ensures right { IfOk result (λ s. HasRightLimit s.end) }
{
    count_paths(alloc, graphs, main, asserts, edges)
}
