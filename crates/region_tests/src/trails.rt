//! Trails of one small graph: their beginning, what each kind of edge and a must make of them, and
//! what is read at their end.

use flow_graph::columns::{FIRST_SYMBOL, MAX_SLOTS};
use flow_graph::graph::{Edge, Graph};
use linear_formula::question::Question;
use linear_formula::shared::SharedCube;
use must_region::error::TrailError;
use must_region::trail::Trail;
use shadow_elim::limit::{Kept, LimitKind};
use std::alloc::Global;
use std::test::Fail;
use summary_form::path::Path;
use summary_form::query::{ExitKind, Query};
use test_forms::edges::{Does, Step, call_of, edge_of};
use test_forms::graphs::{Shape, graph_of};
use test_forms::kept::{Counts, has_slots, names_below};
use test_forms::queries::query_of;
use test_forms::rows::{Plain, Row, are_rows, are_terms, cube_of};

/// What a trail is wanted to hold.
#[derive(Clone, Copy)]
struct Wanted<'a> {
    node: u32,
    symbols: u32,
    guard: &'a [Plain<'a>],
    inputs: &'a [Plain<'a>],
    slots: &'a [Plain<'a>],
    failed: Option<u32>,
}

/// Node 2 after the entry; one parameter and two slots.
const ENTRY: Shape = Shape {
    counts: Counts {
        nodes: 3,
        params: 1,
        exits: 1,
        slots: 2,
    },
    steps: &[],
};

const SYMBOL: Plain = (&[(30_000, 1)], 0);

const NEXT_SYMBOL: Plain = (&[(30_001, 1)], 0);

const LAST_SYMBOL: Plain = (&[(30_002, 1)], 0);

const ZERO: Plain = (&[], 0);

/// Whether these are the rows of the guard, in order.
fn has_rows(alloc: Global, guard: &SharedCube, wanted: &[Plain]) -> Result<bool, Fail> {
    let cube = guard.to_cube(alloc)?;
    Ok(are_rows(&cube, wanted))
}

/// Whether the trail is the wanted one, with the first symbol as its entry value.
fn is_trail(alloc: Global, trail: &Trail, wanted: &Wanted) -> Result<bool, Fail> {
    let guarded = has_rows(alloc, &trail.guard, wanted.guard)?;
    Ok(
        guarded
            && trail.node == wanted.node
            && trail.symbols == wanted.symbols
            && trail.failed == wanted.failed
            && are_terms(trail.entry.as_slice(), &[SYMBOL])
            && are_terms(trail.inputs.as_slice(), wanted.inputs)
            && are_terms(trail.slots.as_slice(), wanted.slots),
    )
}

/// The trail over an edge that leaves its node.
fn over(alloc: Global, trail: &Trail, edge: &Edge) -> Result<Trail, Fail> {
    if edge.is_call() || edge.source() != Some(trail.node) || !has_slots(edge, MAX_SLOTS) {
        return Err(Fail::new("no edge from the trail's node"));
    }
    Ok(trail.extend(alloc, edge)?)
}

fn begun(alloc: Global) -> Result<Trail, Fail> {
    let graph = graph_of(alloc, &ENTRY)?;
    Ok(Trail::begin(alloc, &graph)?)
}

/// The beginning, extended over edges.
fn trail_over(alloc: Global, steps: &[Step]) -> Result<Trail, Fail> {
    let mut trail = begun(alloc)?;
    for step in steps {
        let edge = edge_of(alloc, step)?;
        trail = over(alloc, &trail, &edge)?;
    }
    Ok(trail)
}

/// Edges from the beginning, and the trail over them.
type Case<'a> = (&'a [Step<'a>], Wanted<'a>);

const INPUT: Step = (2, 2, Does::Input(0));

/// Slot 0 is at most 5.
const FIVE: Row = (&[(1, 0)], -5);

const BEGUN: Wanted = Wanted {
    node: 2,
    symbols: 1,
    guard: &[],
    inputs: &[],
    slots: &[SYMBOL, ZERO],
    failed: None,
};

/// A symbol of an input in slot 0.
const READ: Wanted = Wanted {
    node: 2,
    symbols: 2,
    guard: &[],
    inputs: &[NEXT_SYMBOL],
    slots: &[NEXT_SYMBOL, ZERO],
    failed: None,
};

const CASES: &[Case] = &[
    (&[], BEGUN),
    // a sum
    (
        &[(2, 2, Does::Assign(1, (&[(2, 0)], 3)))],
        Wanted {
            guard: &[
                (&[(30_000, 2)], -9_223_372_036_854_775_804),
                (&[(30_000, -2)], -9_223_372_036_854_775_811),
            ],
            slots: &[SYMBOL, (&[(30_000, 2)], 3)],
            ..BEGUN
        },
    ),
    // rows
    (
        &[(2, 2, Does::Guard(&[FIVE]))],
        Wanted {
            guard: &[(&[(30_000, 1)], -5)],
            ..BEGUN
        },
    ),
    (
        &[(2, 1, Does::Assert(9, &[FIVE]))],
        Wanted {
            node: 1,
            guard: &[(&[(30_000, 1)], -5)],
            failed: Some(9),
            ..BEGUN
        },
    ),
    (&[INPUT], READ),
    // a pick that reads its slot alone
    (
        &[(2, 2, Does::Pick(0, &[FIVE]))],
        Wanted {
            guard: &[(&[(30_001, 1)], -5)],
            inputs: &[],
            ..READ
        },
    ),
    // the half of an input, and then a sum of both
    (
        &[
            INPUT,
            (
                2,
                2,
                Does::Pick(1, &[(&[(2, 1), (-1, 0)], 0), (&[(1, 0), (-2, 1)], -1)]),
            ),
            (2, 2, Does::Guard(&[(&[(1, 0), (1, 1)], -9)])),
        ],
        Wanted {
            symbols: 3,
            guard: &[
                (&[(30_001, -1), (30_002, 2)], 0),
                (&[(30_001, 1), (30_002, -2)], -1),
                (&[(30_001, 1), (30_002, 1)], -9),
            ],
            slots: &[NEXT_SYMBOL, LAST_SYMBOL],
            ..READ
        },
    ),
    // one value and two
    (
        &[INPUT, (2, 0, Does::Return(&[0]))],
        Wanted {
            node: 0,
            slots: &[NEXT_SYMBOL],
            ..READ
        },
    ),
    (
        &[(2, 2, Does::Input(1)), (2, 0, Does::Return(&[1, 0, 1]))],
        Wanted {
            node: 0,
            slots: &[NEXT_SYMBOL, SYMBOL, NEXT_SYMBOL],
            ..READ
        },
    ),
];

/// Whether the trail over the edges, and its copy, are as wanted.
fn extends(alloc: Global, case: &Case) -> Result<bool, Fail> {
    let trail = trail_over(alloc, case.0)?;
    let copy = trail.copy(alloc)?;
    Ok(is_trail(alloc, &trail, &case.1)? && is_trail(alloc, &copy, &case.1)?)
}

#[test]
fn goes_over_edges(rt: HostRuntime) -> Result<(), Fail> {
    for (place, case) in CASES.iter().enumerate() {
        assert!(rt; extends(rt.alloc(), case)?, "{place}");
    }
    Ok(())
}

/// The kind of a limit, if it was met at one summand.
fn at_one_summand(kept: &Kept) -> Option<LimitKind> {
    match &kept.question {
        Question::Combine(summands, 0) if summands.as_slice().len() == 1 => {
            Some(kept.limit.kind())
        }
        _ => None,
    }
}

fn limit_of(made: &Result<Trail, TrailError>) -> Option<LimitKind> {
    match made {
        Err(TrailError::Limit(kept)) => at_one_summand(kept),
        _ => None,
    }
}

/// The limit that a trail meets over the edge.
fn limit_over(alloc: Global, trail: &Trail, edge: &Edge) -> Result<Option<LimitKind>, Fail> {
    if edge.is_call() || edge.source() != Some(trail.node) || !has_slots(edge, MAX_SLOTS) {
        return Err(Fail::new("no edge from the trail's node"));
    }
    Ok(limit_of(&trail.extend(alloc, edge)))
}

/// The limit at a multiple of slot 0.
fn limit_at(alloc: Global, coefficient: i64) -> Result<Option<LimitKind>, Fail> {
    let begun = begun(alloc)?;
    let edge = edge_of(alloc, &(2, 2, Does::Assign(1, (&[(coefficient, 0)], 0))))?;
    limit_over(alloc, &begun, &edge)
}

#[test]
fn meets_a_limit(rt: HostRuntime) -> Result<(), Fail> {
    assert!(rt; limit_at(rt.alloc(), 1 << 50)? == Some(LimitKind::Wide));
    Ok(())
}

/// The argument is at most 7.
const START: Row = (&[(1, 10_000)], -7);

/// Whether the rows at the end of an input are these.
fn reads(alloc: Global, region: &[Row], rows: &[Plain]) -> Result<bool, Fail> {
    let trail = trail_over(alloc, &[INPUT])?;
    let region = cube_of(alloc, region)?;
    Ok(are_rows(&trail.cube_at(alloc, &region)?, rows))
}

#[test]
fn reads_cubes_at_its_end(rt: HostRuntime) -> Result<(), Fail> {
    let rows: [Plain; 2] = [(&[(30_001, 1)], -5), (&[(30_000, 1)], -7)];
    assert!(rt; reads(rt.alloc(), &[FIVE, START], &rows)?);
    Ok(())
}

/// Whether the guard of an input with these rows at the start and at the end is this.
fn adds(alloc: Global, start: &[Row], end: &[Row], rows: &[Plain]) -> Result<bool, Fail> {
    let trail = trail_over(alloc, &[INPUT])?;
    let start = cube_of(alloc, start)?;
    let end = cube_of(alloc, end)?;
    let guard = trail.guard_with(alloc, &start, &end)?.to_cube(alloc)?;
    Ok(are_rows(&guard, rows))
}

#[test]
fn adds_start_and_end(rt: HostRuntime) -> Result<(), Fail> {
    let rows: [Plain; 2] = [(&[(30_000, 1)], -7), (&[(30_001, 1)], -5)];
    assert!(rt; adds(rt.alloc(), &[START], &[FIVE], &rows)?);
    Ok(())
}

/// The path of a trail for a query.
fn path_for(alloc: Global, trail: &Trail, query: &Query) -> Result<Path, Fail> {
    if !names_below(&query.start, FIRST_SYMBOL) || !names_below(&query.end, FIRST_SYMBOL) {
        return Err(Fail::new("the query names a symbol"));
    }
    Ok(trail.to_path(alloc, query)?)
}

/// The path over edges for a query with one row at its start.
fn path_over(alloc: Global, steps: &[Step], exit: ExitKind, end: &[Row]) -> Result<Path, Fail> {
    let trail = trail_over(alloc, steps)?;
    let query = query_of(alloc, 4, exit, &[START], end)?;
    path_for(alloc, &trail, &query)
}

/// An input that is returned.
const RETURNS: [Step; 2] = [INPUT, (2, 0, Does::Return(&[0]))];

/// What is returned is at most 6.
const SIX: [Row; 1] = [(&[(1, 20_000)], -6)];

fn is_returning(path: &Path) -> bool {
    path.proc == 4
        && path.exit == ExitKind::Return
        && path.symbols == 2
        && are_rows(&path.guard, &[(&[(30_000, 1)], -7), (&[(30_001, 1)], -6)])
        && are_terms(path.entry.as_slice(), &[SYMBOL])
        && are_terms(path.inputs.as_slice(), &[NEXT_SYMBOL])
        && are_terms(path.outcome.as_slice(), &[NEXT_SYMBOL])
}

#[test]
fn becomes_a_path(rt: HostRuntime) -> Result<(), Fail> {
    let path = path_over(rt.alloc(), &RETURNS, ExitKind::Return, &SIX)?;
    assert!(rt; is_returning(&path));
    Ok(())
}

// Calls

/// A must of procedure 4, over edges and for a query, with the argument and the results of a call
/// of it, and the trail over that call.
#[derive(Clone, Copy)]
struct Called<'a> {
    steps: &'a [Step<'a>],
    exit: ExitKind,
    end: &'a [Row<'a>],
    arg: u32,
    results: &'a [u32],
    wanted: Wanted<'a>,
}

/// The beginning, extended over a call by the must.
fn by_must(alloc: Global, must: &Path, arg: u32, results: &[u32]) -> Result<Trail, Fail> {
    let graph = graph_of(alloc, &ENTRY)?;
    let call = call_of(alloc, (2, 2), 4, &[arg], results)?;
    carried(alloc, &graph, &call, must)
}

fn carried(alloc: Global, graph: &Graph, call: &Edge, must: &Path) -> Result<Trail, Fail> {
    let begun = Trail::begin(alloc, graph)?;
    if !call.is_call() || call.source() != Some(begun.node) || !has_slots(call, MAX_SLOTS) {
        return Err(Fail::new("no call from the trail's node"));
    }
    Ok(begun.extend_must(alloc, graph, call, must)?)
}

fn calls(alloc: Global, called: &Called) -> Result<bool, Fail> {
    let must = path_over(alloc, called.steps, called.exit, called.end)?;
    let trail = by_must(alloc, &must, called.arg, called.results)?;
    is_trail(alloc, &trail, &called.wanted)
}

/// The argument is the callee's.
const AT_MOST_OWN: Plain = (&[(30_000, 1), (30_001, -1)], 0);

const AT_LEAST_OWN: Plain = (&[(30_000, -1), (30_001, 1)], 0);

/// The callee's argument is at most 7, and its input at most 6.
const TO_SIX: &[Plain] = &[
    (&[(30_001, 1)], -7),
    (&[(30_002, 1)], -6),
    AT_MOST_OWN,
    AT_LEAST_OWN,
];

const TO_SEVEN: &[Plain] = &[(&[(30_001, 1)], -7), AT_MOST_OWN, AT_LEAST_OWN];

const CALLED: Wanted = Wanted {
    node: 2,
    symbols: 3,
    guard: TO_SIX,
    inputs: &[LAST_SYMBOL],
    slots: &[SYMBOL, LAST_SYMBOL],
    failed: None,
};

/// The callee returns its argument and an input of it.
const TWO: [Step; 2] = [(2, 2, Does::Input(1)), (2, 0, Does::Return(&[0, 1]))];

const CALLS: &[Called] = &[
    Called {
        steps: &RETURNS,
        exit: ExitKind::Return,
        end: &SIX,
        arg: 0,
        results: &[1],
        wanted: CALLED,
    },
    // the result in the slot of the argument
    Called {
        steps: &RETURNS,
        exit: ExitKind::Return,
        end: &SIX,
        arg: 0,
        results: &[0],
        wanted: Wanted {
            slots: &[LAST_SYMBOL, ZERO],
            ..CALLED
        },
    },
    // two results, and the same exchanged
    Called {
        steps: &TWO,
        exit: ExitKind::Return,
        end: &[],
        arg: 0,
        results: &[0, 1],
        wanted: Wanted {
            guard: TO_SEVEN,
            slots: &[NEXT_SYMBOL, LAST_SYMBOL],
            ..CALLED
        },
    },
    Called {
        steps: &TWO,
        exit: ExitKind::Return,
        end: &[],
        arg: 0,
        results: &[1, 0],
        wanted: Wanted {
            guard: TO_SEVEN,
            slots: &[LAST_SYMBOL, NEXT_SYMBOL],
            ..CALLED
        },
    },
    // nothing is stored
    Called {
        steps: &[INPUT, (2, 0, Does::Return(&[]))],
        exit: ExitKind::Return,
        end: &[],
        arg: 0,
        results: &[],
        wanted: Wanted {
            guard: TO_SEVEN,
            slots: &[SYMBOL, ZERO],
            ..CALLED
        },
    },
    // a failure
    Called {
        steps: &[(2, 1, Does::Assert(9, &[FIVE]))],
        exit: ExitKind::Fail(9),
        end: &[(&[(1, 10_000)], -6)],
        arg: 0,
        results: &[1],
        wanted: Wanted {
            node: 1,
            symbols: 2,
            guard: &[
                (&[(30_001, 1)], -5),
                (&[(30_001, 1)], -7),
                (&[(30_001, 1)], -6),
                AT_MOST_OWN,
                AT_LEAST_OWN,
            ],
            inputs: &[],
            slots: &[SYMBOL, ZERO],
            failed: Some(9),
        },
    },
];

#[test]
fn calls_by_musts(rt: HostRuntime) -> Result<(), Fail> {
    for (place, called) in CALLS.iter().enumerate() {
        assert!(rt; calls(rt.alloc(), called)?, "{place}");
    }
    Ok(())
}
