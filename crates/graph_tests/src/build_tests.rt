//! The graph of a program, edge by edge.

use flow_build::build::build;
use flow_graph::calls::CallSite;
use flow_graph::graph::{Edge, Graph};
use flow_graph::graphs::Graphs;
use linear_formula::formula::Cube;
use std::alloc::{AllocError, Global};
use std::fmt::Write;
use std::test::Fail;
use test_programs::program::program_of;

const SUM: &str = "int main(){ int x = 3; x = x + 4; assert(x == 7); return 0; }";

/// The edges of the sum.
const EDGES: &[&str] = &[
    "to 4: entry of 0",
    "4 to 5: guard",
    "2 to 3: 1 = [] + 0",
    "3 to 0: return of [1]",
    // int x = 3;
    "5 to 6: 0 = [] + 3",
    // x = x + 4;
    "6 to 8: 1 = [(1, 0)] + 4",
    "8 to 7: 0 = [(1, 1)] + 0",
    // assert(x == 7);
    "7 to 9: guard [(0, 1)] + -7 <= 0 [(0, -1)] + 7 <= 0",
    "7 to 1: failure of 0 [(0, -1)] + 8 <= 0",
    "7 to 1: failure of 0 [(0, 1)] + -6 <= 0",
    // return 0;
    "9 to 10: 1 = [] + 0",
    "10 to 0: return of [1]",
];

/// Writes the rows of an edge.
fn write_rows(text: &mut String, rows: &Cube) -> Result<(), AllocError> {
    for row in rows.atoms.as_slice() {
        write!(
            text,
            " {:?} + {} <= 0",
            row.term.parts(),
            row.term.constant()
        )?;
    }
    Ok(())
}

/// Writes what an edge does: its kind, slots and coefficients.
fn write_kind(text: &mut String, edge: &Edge) -> Result<(), AllocError> {
    match edge {
        Edge::Entry { params, .. } => write!(text, "entry of {params}")?,
        Edge::Assign { slot, value, .. } => {
            let parts = value.parts.as_slice();
            write!(text, "{slot} = {parts:?} + {}", value.constant)?;
        }
        Edge::Guard { rows, .. } => {
            write!(text, "guard")?;
            write_rows(text, rows)?;
        }
        Edge::Assert { id, rows, .. } => {
            write!(text, "failure of {id}")?;
            write_rows(text, rows)?;
        }
        Edge::Return { slots, .. } => write!(text, "return of {:?}", slots.as_slice())?,
        Edge::Input { slot, .. } => write!(text, "input to {slot}")?,
        Edge::Pick { slot, rows, .. } => {
            write!(text, "pick of {slot}")?;
            write_rows(text, rows)?;
        }
        Edge::Call { .. } => {
            let site = CallSite::of(edge);
            let (results, arguments) = (site.results(), site.arguments());
            write!(
                text,
                "{results:?} = call of {} with {arguments:?}",
                site.procedure()
            )?;
        }
    }
    Ok(())
}

/// The text of an edge: its nodes, and what it does.
fn edge_text(alloc: Global, edge: &Edge) -> Result<String, AllocError> {
    let mut text = String::new(alloc);
    if let Some(from) = edge.source() {
        write!(text, "{from} ")?;
    }
    write!(text, "to {}: ", edge.target())?;
    write_kind(&mut text, edge)?;
    Ok(text)
}

/// The first edge that has another text.
fn first_other(alloc: Global, edges: &[Edge], texts: &[&str]) -> Result<Option<usize>, AllocError> {
    for (place, (edge, text)) in edges.iter().zip(texts).enumerate() {
        if edge_text(alloc, edge)?.as_str() != *text {
            return Ok(Some(place));
        }
    }
    Ok(None)
}

/// The nodes, the exit, the failure, the parameters, the slots and the edges.
fn numbers(graph: &Graph) -> [usize; 6] {
    [
        graph.nodes as usize,
        graph.exit as usize,
        graph.fail as usize,
        graph.params as usize,
        graph.slots as usize,
        graph.edges.as_slice().len(),
    ]
}

fn graphs_of(alloc: Global, text: &str) -> Result<Graphs, Fail> {
    let program = program_of(alloc, text.as_bytes())?;
    Ok(build(alloc, &program)?)
}

#[test]
fn builds_the_graph_of_a_sum(rt: HostRuntime) -> Result<(), Fail> {
    let graphs = graphs_of(rt.alloc(), SUM)?;
    let [graph] = graphs.graphs.as_slice() else {
        return Err(Fail::new("not one graph"));
    };
    assert_eq!(rt; numbers(graph), [11, 0, 1, 0, 2, 12]);
    assert_eq!(rt;
        first_other(rt.alloc(), graph.edges.as_slice(), EDGES)?,
        None
    );
    Ok(())
}
