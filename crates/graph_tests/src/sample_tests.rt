// Two procedures, of which one calls the other, built by hand and read back.

use flow_graph::graph::{Edge, Graph, Lin};
use flow_graph::graphs::Graphs;
use linear_formula::formula::{Atom, Cube};
use std::alloc::Global;
use std::test::Fail;
use test_forms::edges::{Does, Step};
use test_forms::error::FormError;
use test_forms::graphs::{Shape, graph_of, graphs_of};
use test_forms::kept::Counts;
use test_forms::rows::Row;

/// Slot 0 is at most 7.
const ROWS: &[Row] = &[(&[(1, 0)], -7)];

const CALLER: Shape = Shape {
    counts: Counts {
        nodes: 6,
        params: 1,
        exits: 1,
        slots: 3,
    },
    steps: &[
        (2, 3, Does::Guard(ROWS)),
        (2, 1, Does::Assert(0, ROWS)),
        (
            3,
            4,
            Does::Call {
                proc: 1,
                args: &[0],
                results: &[1, 0],
            },
        ),
        (4, 5, Does::Assign(2, (&[(2, 0), (-1, 1)], 9))),
        (5, 0, Does::Return(&[2])),
    ],
};

const CALLEE: Shape = Shape {
    counts: Counts {
        nodes: 4,
        params: 1,
        exits: 2,
        slots: 2,
    },
    steps: &[
        (2, 3, Does::Input(1)),
        (2, 3, Does::Pick(1, ROWS)),
        (3, 0, Does::Return(&[1, 1])),
    ],
};

fn is_row(atom: &Atom, row: &Row) -> bool {
    let parts = atom.term.parts();
    for (part, (multiple, column)) in parts.iter().zip(row.0) {
        if *part != (*column, i128::from(*multiple)) {
            return false;
        }
    }
    parts.len() == row.0.len() && atom.term.constant() == i128::from(row.1)
}

fn are_these(cube: &Cube, rows: &[Row]) -> bool {
    let atoms = cube.atoms.as_slice();
    for (atom, row) in atoms.iter().zip(rows) {
        if !is_row(atom, row) {
            return false;
        }
    }
    atoms.len() == rows.len()
}

fn is_sum(value: &Lin, row: &Row) -> bool {
    value.parts.as_slice() == row.0 && value.constant == row.1
}

/// Whether the edge does this.
fn does_it(edge: &Edge, does: &Does) -> bool {
    match (edge, does) {
        (Edge::Assign { slot, value, .. }, Does::Assign(x, row)) => slot == x && is_sum(value, row),
        (Edge::Guard { rows, .. }, Does::Guard(wanted)) => are_these(rows, wanted),
        (Edge::Input { slot, .. }, Does::Input(x)) => slot == x,
        (Edge::Pick { slot, rows, .. }, Does::Pick(x, wanted)) => {
            slot == x && are_these(rows, wanted)
        }
        (
            Edge::Call {
                proc,
                args,
                results,
                ..
            },
            Does::Call {
                proc: other,
                args: passed,
                results: stored,
            },
        ) => proc == other && args.as_slice() == *passed && results.as_slice() == *stored,
        (Edge::Assert { id, rows, .. }, Does::Assert(number, wanted)) => {
            id == number && are_these(rows, wanted)
        }
        (Edge::Return { slots, .. }, Does::Return(returned)) => slots.as_slice() == *returned,
        _ => false,
    }
}

fn is_step(edge: &Edge, step: &Step) -> bool {
    edge.source() == Some(step.0) && edge.target() == step.1 && does_it(edge, &step.2)
}

fn are_steps(edges: &[Edge], steps: &[Step]) -> bool {
    for (edge, step) in edges.iter().zip(steps) {
        if !is_step(edge, step) {
            return false;
        }
    }
    edges.len() == steps.len()
}

/// Whether edge 0 is the entry, and the steps follow it.
fn has_edges(edges: &[Edge], shape: &Shape) -> bool {
    match edges {
        [Edge::Entry { to: 2, params }, rest @ ..] => {
            *params == shape.counts.params && are_steps(rest, shape.steps)
        }
        _ => false,
    }
}

fn is_shaped(graph: &Graph, shape: &Shape) -> bool {
    let counts = shape.counts;
    (graph.nodes, graph.exit, graph.fail) == (counts.nodes, 0, 1)
        && (graph.params, graph.exits, graph.slots) == (counts.params, counts.exits, counts.slots)
        && has_edges(graph.edges.as_slice(), shape)
}

fn are_both(graphs: &Graphs) -> bool {
    match graphs.graphs.as_slice() {
        [caller, callee] => is_shaped(caller, &CALLER) && is_shaped(callee, &CALLEE),
        _ => false,
    }
}

#[test]
fn reads_graphs_back(rt: HostRuntime) -> Result<(), Fail> {
    let graphs = graphs_of(rt.alloc(), &[CALLER, CALLEE])?;
    assert!(rt; are_both(&graphs));
    Ok(())
}

const COUNTS: Counts = Counts {
    nodes: 4,
    params: 1,
    exits: 1,
    slots: 2,
};

/// One edge, or two, that are no graph's.
const NO_GRAPHS: &[&[Step]] = &[
    // a node that isn't there
    &[(2, 4, Does::Input(0))],
    // from the exit, and back to the node after the entry
    &[(0, 3, Does::Input(0))],
    &[(3, 2, Does::Input(0))],
    // a slot that isn't there
    &[(2, 3, Does::Guard(&[(&[(1, 2)], 0)]))],
    // a return that leads elsewhere, and what isn't one to the exit
    &[(2, 3, Does::Return(&[0]))],
    &[(2, 0, Does::Input(0))],
    // a return of two values
    &[(2, 0, Does::Return(&[0, 1]))],
    // a result twice
    &[(
        2,
        3,
        Does::Call {
            proc: 0,
            args: &[0],
            results: &[1, 1],
        },
    )],
];

fn fault_of(alloc: Global, steps: &[Step]) -> Option<FormError> {
    let shape = Shape {
        counts: COUNTS,
        steps,
    };
    match graph_of(alloc, &shape) {
        Ok(_) => None,
        Err(error) => Some(error),
    }
}

#[test]
fn other_edges_are_no_graph(rt: HostRuntime) -> Result<(), Fail> {
    for (place, steps) in NO_GRAPHS.iter().enumerate() {
        assert!(rt;
            fault_of(rt.alloc(), steps) == Some(FormError::NoGraph),
            "{place}"
        );
    }
    Ok(())
}

/// Calls of procedure 1 with other numbers of arguments or results than it has.
const WRONG_CALLS: &[[Shape; 2]] = &[
    [
        Shape {
            counts: COUNTS,
            steps: &[(
                2,
                3,
                Does::Call {
                    proc: 1,
                    args: &[0],
                    results: &[1],
                },
            )],
        },
        CALLEE,
    ],
    [
        Shape {
            counts: COUNTS,
            steps: &[(
                2,
                3,
                Does::Call {
                    proc: 1,
                    args: &[0, 0],
                    results: &[0, 1],
                },
            )],
        },
        CALLEE,
    ],
    [
        Shape {
            counts: COUNTS,
            steps: &[(
                2,
                3,
                Does::Call {
                    proc: 1,
                    args: &[],
                    results: &[0, 1],
                },
            )],
        },
        CALLEE,
    ],
];

fn calls_wrongly(alloc: Global, shapes: &[Shape]) -> bool {
    match graphs_of(alloc, shapes) {
        Err(FormError::NoSuchCall) => true,
        _ => false,
    }
}

#[test]
fn calls_with_other_lists_are_no_program(rt: HostRuntime) -> Result<(), Fail> {
    for (place, shapes) in WRONG_CALLS.iter().enumerate() {
        assert!(rt; calls_wrongly(rt.alloc(), shapes), "{place}");
    }
    Ok(())
}
