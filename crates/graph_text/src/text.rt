//! The text of graphs.

ghost use Rattle.std.specs.Prelude.{◌≡◌, ◌++◌, IfOk, OnOk, flat_map, string_bytes};
ghost use Rattle.graph_text.specs.Text.{graph_text, graphs_text};

use crate::edge::write_edge;
use c_tree::tree::ProcId;
use flow_graph::graph::Graph;
use flow_graph::graphs::Graphs;
use linear_formula::error::OutOfMemory;
use std::alloc::Global;

/// Puts the text of a graph at the end.
fn write_graph(out: &mut String, graph: &Graph) -> Result<(), OutOfMemory>
    ensures { OnOk result (string_bytes out.new ≡ string_bytes out.old ++ graph_text graph.now) }
{
    let edges = graph.edges.as_slice();
    write!(out, "graph {} {} {}", graph.nodes, graph.exit, graph.fail)?;
    write!(out, " {} {} {}", graph.params, graph.exits, graph.slots)?;
    write!(out, " {}\n", edges.len())?;
    for edge in edges {
        write_edge(out, edge)?;
    }
    Ok(())
}

/// Puts the texts of graphs at the end, one after the other.
fn write_graphs(out: &mut String, graphs: &[Graph]) -> Result<(), OutOfMemory>
    ensures { OnOk result
        (string_bytes out.new ≡ string_bytes out.old ++ flat_map graph_text graphs.now) }
{
    for graph in graphs {
        write_graph(out, graph)?;
    }
    Ok(())
}

/// The text of the graphs of a program, whose `main` has this number. It takes time and memory in
/// proportion to the text.
pub fn print_graphs(alloc: Global, main: ProcId, graphs: &Graphs) -> Result<Vec<u8>, OutOfMemory>
    ensures { IfOk result (λ text. text.items ≡ graphs_text main graphs.now.graphs) }
{
    let graphs = graphs.graphs.as_slice();
    let mut out = String::new(alloc);
    write!(
        out,
        "smash-graphs 1\nmain {main}\ngraphs {}\n",
        graphs.len()
    )?;
    write_graphs(&mut out, graphs)?;
    Ok(out.into_bytes())
}
