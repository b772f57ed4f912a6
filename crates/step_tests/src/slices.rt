//! How slices end, and after how many steps.

ghost use Rattle.std.specs.Prelude.{[], IfOk};
ghost use Rattle.step_tests.specs.Ready.{IsReady};

use crate::made::{HALF, MANY_ROWS, NEXT, SEVENTH, WIDE, chain};
use crate::states::{advanced, begun};
use flow_graph::graphs::Graphs;
use punch_step::slice::{SliceEnd, Sliced};
use query_rules::state::QueryState;
use query_rules::step::{Closing, Step as Legal};
use shadow_elim::limit::LimitKind;
use std::alloc::Global;
use std::test::Fail;
use summary_form::path::Path;
use summary_form::query::ExitKind;
use test_forms::edges::Step;
use test_forms::rows::{Plain, are_rows, are_terms};

/// How a slice ends.
#[derive(Clone, Copy, PartialEq, Eq)]
enum End {
    Goes,
    NotMay,
    Must,
    Stuck(LimitKind),
    Spent,
    Other,
}

/// How many steps were made, and the end.
type Made = (u32, End);

fn seen_in(sliced: &Sliced) -> Made {
    let end = match &sliced.end {
        SliceEnd::Goes => End::Goes,
        SliceEnd::Closed(Closing::NotMay) => End::NotMay,
        SliceEnd::Closed(Closing::Must(_)) => End::Must,
        SliceEnd::Closed(Closing::Stuck(kind)) => End::Stuck(*kind),
        SliceEnd::Spent => End::Spent,
        _ => End::Other,
    };
    (sliced.steps, end)
}

/// The assertion fails, where the slot is at most 5.
const FAILS: ExitKind = ExitKind::Fail(0);

/// A slice of a query of runs with an argument of at least a bound: how they end, the bound, how
/// many steps are left, and how many may be made at once.
type Slice = (ExitKind, i32, u32, u32);

/// A slice of the state.
fn goes(
    alloc: Global,
    graphs: &Graphs,
    state: &mut QueryState,
    left: u32,
    at_most: u32,
) -> Result<Made, Fail>
    requires { IsReady graphs.now.graphs [] state.old }
    ensures { IfOk result (λ s. IsReady graphs.now.graphs [] state.new) }
{
    if at_most == 0 {
        return Err(Fail::new("no step is to be made"));
    }
    Ok(seen_in(&advanced(alloc, graphs, state, left, at_most)?))
}

fn sliced(alloc: Global, graphs: &Graphs, slice: Slice) -> Result<Made, Fail> {
    let (exit, least, left, at_most) = slice;
    let mut state = begun(alloc, graphs, exit, least)?;
    goes(alloc, graphs, &mut state, left, at_most)
}

/// Slices where slot 0 becomes itself and 1, and how they end.
const SLICES: &[(Slice, Made)] = &[
    // no path is left
    ((FAILS, 5, 9, 9), (5, End::NotMay)),
    ((FAILS, 5, 5, 5), (5, End::NotMay)),
    ((ExitKind::Fail(9), 0, 0, 1), (0, End::NotMay)),
    // a path fails
    ((FAILS, 4, 9, 9), (3, End::Must)),
    ((FAILS, 4, 3, 3), (3, End::Must)),
    // a path returns
    ((ExitKind::Return, 5, 9, 9), (3, End::Must)),
    // all is spent
    ((FAILS, 5, 0, 9), (0, End::Spent)),
    ((FAILS, 5, 1, 9), (1, End::Spent)),
    ((FAILS, 5, 2, 9), (2, End::Spent)),
    ((FAILS, 5, 3, 9), (3, End::Spent)),
    ((FAILS, 5, 4, 9), (4, End::Spent)),
    ((FAILS, 5, 3, 3), (3, End::Spent)),
    // as many as at once are made
    ((FAILS, 5, 5, 1), (1, End::Goes)),
    ((FAILS, 5, 5, 2), (2, End::Goes)),
    ((FAILS, 5, 5, 3), (3, End::Goes)),
    ((FAILS, 5, 5, 4), (4, End::Goes)),
];

#[test]
fn slices_end(rt: HostRuntime) -> Result<(), Fail> {
    let graphs = chain(rt.alloc(), NEXT)?;
    for (place, (slice, made)) in SLICES.iter().enumerate() {
        assert!(rt; sliced(rt.alloc(), &graphs, *slice)? == *made, "{place}");
    }
    Ok(())
}

/// The edges, the least argument, and how a slice of all steps ends.
type Middle<'a> = (&'a [Step<'a>], i32, Made);

const MIDDLES: &[Middle] = &[
    (WIDE, 5, (2, End::Stuck(LimitKind::Wide))),
    // halves of 11 and more, and of 12 and more
    (HALF, 11, (3, End::Must)),
    (HALF, 12, (5, End::NotMay)),
    // rationals meet the rows where no integer does, so the preimage isn't exact
    (SEVENTH, 29, (2, End::Stuck(LimitKind::Inexact))),
    // with more rows, so that their extreme ones are asked first
    (MANY_ROWS, 5, (3, End::Must)),
    (MANY_ROWS, 6, (5, End::NotMay)),
];

fn sliced_over(alloc: Global, middle: &Middle) -> Result<Made, Fail> {
    let graphs = chain(alloc, middle.0)?;
    sliced(alloc, &graphs, (FAILS, middle.1, 9, 9))
}

#[test]
fn slices_over_other_edges_end(rt: HostRuntime) -> Result<(), Fail> {
    for (place, middle) in MIDDLES.iter().enumerate() {
        assert!(rt; sliced_over(rt.alloc(), middle)? == middle.2, "{place}");
    }
    Ok(())
}

/// The rows of a path, and its outcome.
#[derive(Clone, Copy)]
struct Finds<'a> {
    edges: &'a [Step<'a>],
    exit: ExitKind,
    least: i32,
    rows: &'a [Plain<'a>],
    outcome: &'a [Plain<'a>],
}

fn is_path(path: &Path, finds: &Finds) -> bool {
    path.exit == finds.exit
        && are_rows(&path.guard, finds.rows)
        && are_terms(path.outcome.as_slice(), finds.outcome)
}

fn has_path(sliced: &Sliced, finds: &Finds) -> bool {
    match &sliced.end {
        SliceEnd::Closed(Closing::Must(path)) => is_path(path, finds),
        _ => false,
    }
}

/// Whether a slice of the state finds the path.
fn leads_to(
    alloc: Global,
    graphs: &Graphs,
    state: &mut QueryState,
    finds: &Finds,
) -> Result<bool, Fail>
    requires { IsReady graphs.now.graphs [] state.old }
{
    Ok(has_path(&advanced(alloc, graphs, state, 9, 9)?, finds))
}

fn leads_in(alloc: Global, graphs: &Graphs, finds: &Finds) -> Result<bool, Fail> {
    let mut state = begun(alloc, graphs, finds.exit, finds.least)?;
    leads_to(alloc, graphs, &mut state, finds)
}

fn finds_it(alloc: Global, finds: &Finds) -> Result<bool, Fail> {
    let graphs = chain(alloc, finds.edges)?;
    leads_in(alloc, &graphs, finds)
}

/// The symbol and 1 is at most the greatest value of 64 bits.
const HIGH: Plain = (&[(30_000, 1)], -9_223_372_036_854_775_806);

/// It is at least the least one.
const LOW: Plain = (&[(30_000, -1)], -9_223_372_036_854_775_809);

const FOUND: &[Finds] = &[
    Finds {
        edges: NEXT,
        exit: FAILS,
        least: 4,
        rows: &[HIGH, LOW, (&[(30_000, 1)], -4), (&[(30_000, -1)], 4)],
        outcome: &[],
    },
    Finds {
        edges: NEXT,
        exit: ExitKind::Return,
        least: 4,
        rows: &[HIGH, LOW, (&[(30_000, -1)], 4)],
        outcome: &[(&[(30_000, 1)], 1)],
    },
    // the half of at least 11, at most 5
    Finds {
        edges: HALF,
        exit: FAILS,
        least: 11,
        rows: &[
            (&[(30_000, -1), (30_001, 2)], 0),
            (&[(30_000, 1), (30_001, -2)], -1),
            (&[(30_001, 1)], -5),
            (&[(30_000, -1)], 11),
        ],
        outcome: &[],
    },
];

#[test]
fn a_path_has_the_rows_of_its_edges_and_its_query(rt: HostRuntime) -> Result<(), Fail> {
    for (place, finds) in FOUND.iter().enumerate() {
        assert!(rt; finds_it(rt.alloc(), finds)?, "{place}");
    }
    Ok(())
}

/// Two slices of one state.
fn goes_twice(alloc: Global, graphs: &Graphs, state: &mut QueryState) -> Result<[Made; 2], Fail>
    requires { IsReady graphs.now.graphs [] state.old }
{
    let first = goes(alloc, graphs, state, 9, 2)?;
    Ok([first, goes(alloc, graphs, state, 7, 7)?])
}

fn sliced_twice(alloc: Global) -> Result<[Made; 2], Fail> {
    let graphs = chain(alloc, NEXT)?;
    let mut state = begun(alloc, &graphs, FAILS, 5)?;
    goes_twice(alloc, &graphs, &mut state)
}

#[test]
fn a_slice_goes_on(rt: HostRuntime) -> Result<(), Fail> {
    let wanted = [(2, End::Goes), (3, End::NotMay)];
    assert!(rt; sliced_twice(rt.alloc())? == wanted);
    Ok(())
}

#[derive(Clone, Copy, PartialEq, Eq)]
enum Kind {
    Extend,
    Split,
    Kill,
    Other,
}

/// What a step does, and the numbers of its edge and regions.
type Done = (Kind, [u32; 3]);

fn kind_of(step: &Legal) -> Done {
    let (kind, edge) = match step {
        Legal::Extend { edge, .. } => (Kind::Extend, edge),
        Legal::Split { edge, .. } => (Kind::Split, edge),
        Legal::Kill { edge, .. } => (Kind::Kill, edge),
        _ => return (Kind::Other, [0; 3]),
    };
    (kind, [edge.edge, edge.from, edge.to])
}

fn are_kinds(steps: &[Legal], wanted: &[Done]) -> bool {
    for (step, kind) in steps.iter().zip(wanted) {
        if kind_of(step) != *kind {
            return false;
        }
    }
    steps.len() == wanted.len()
}

/// A split before the assertion, one before the middle, and the kill of the entry.
const BACK: &[Done] = &[
    (Kind::Extend, [0, 0, 3]),
    (Kind::Extend, [1, 3, 4]),
    (Kind::Split, [2, 4, 2]),
    (Kind::Split, [1, 3, 4]),
    (Kind::Kill, [0, 0, 3]),
];

/// Whether a slice of all steps makes these.
fn makes(
    alloc: Global,
    graphs: &Graphs,
    state: &mut QueryState,
    wanted: &[Done],
) -> Result<bool, Fail>
    requires { IsReady graphs.now.graphs [] state.old }
{
    advanced(alloc, graphs, state, 9, 9)?;
    Ok(are_kinds(state.steps(), wanted))
}

fn goes_back(alloc: Global, edges: &[Step], least: i32) -> Result<bool, Fail> {
    let graphs = chain(alloc, edges)?;
    let mut state = begun(alloc, &graphs, FAILS, least)?;
    makes(alloc, &graphs, &mut state, BACK)
}

#[test]
fn splits_back_to_the_entry(rt: HostRuntime) -> Result<(), Fail> {
    assert!(rt; goes_back(rt.alloc(), NEXT, 5)?);
    assert!(rt; goes_back(rt.alloc(), HALF, 12)?);
    Ok(())
}
