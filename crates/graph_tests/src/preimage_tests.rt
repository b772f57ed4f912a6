// Preimages over each kind of edge.

use flow_graph::graph::Edge;
use linear_formula::formula::Cube;
use linear_formula::question::Question;
use shadow_elim::limit::{Kept, LimitKind};
use shadow_elim::projection::ProjectionError;
use shadow_elim::shadow::{Pair, Pre};
use std::alloc::Global;
use std::test::Fail;
use test_forms::edges::{Does, edge_of};
use test_forms::rows::{Plain, Row, are_rows, cube_of, is_term};
use weakest_pre::preimage::pre;

/// An edge from node 1 to node 2, a target, and the rows of the preimage, which has no inexact
/// pair.
type Case<'a> = (Does<'a>, &'a [Row<'a>], &'a [Plain<'a>]);

/// Slot 1 becomes slot 0 and 1.
const NEXT: Does = Does::Assign(1, (&[(1, 0)], 1));

/// Slot 0 and 1 is a value of 64 bits.
const HIGH: Plain = (&[(0, 1)], -9_223_372_036_854_775_806);

const LOW: Plain = (&[(0, -1)], -9_223_372_036_854_775_809);

/// The half of slot 0, rounded down from 0 on.
const HALF: Does = Does::Pick(1, &[(&[(2, 1), (-1, 0)], 0), (&[(1, 0), (-2, 1)], -1)]);

const CASES: &[Case] = &[
    // sums
    (NEXT, &[(&[(1, 1)], -5)], &[(&[(0, 1)], -4), HIGH, LOW]),
    (NEXT, &[(&[(1, 1), (-1, 0)], 0)], &[(&[], 1), HIGH, LOW]),
    // rows
    (
        Does::Guard(&[(&[(1, 0)], -1)]),
        &[(&[(1, 1)], -2)],
        &[(&[(1, 1)], -2), (&[(0, 1)], -1)],
    ),
    (
        Does::Assert(7, &[(&[(-1, 0)], 3)]),
        &[(&[(1, 1)], -2)],
        &[(&[(1, 1)], -2), (&[(0, -1)], 3)],
    ),
    // a slot is forgotten
    (Does::Input(0), &[(&[(1, 0)], -5), (&[(-1, 0)], 5)], &[]),
    (
        Does::Pick(0, &[(&[(1, 0), (-1, 1)], 0), (&[(1, 1), (-1, 0)], 0)]),
        &[(&[(1, 0)], -5)],
        &[(&[(1, 1)], -5), (&[(1, -1)], -9_223_372_036_854_775_808)],
    ),
    // one value, in the place of the exit value
    (
        Does::Return(&[3]),
        &[(&[(1, 20_000), (-1, 10_000)], -1)],
        &[(&[(3, 1), (10_000, -1)], -1)],
    ),
    // two values, in their places
    (
        Does::Return(&[3, 1]),
        &[(&[(1, 20_000), (-2, 20_001)], -1)],
        &[(&[(1, -2), (3, 1)], -1)],
    ),
    // the same slot at two places
    (
        Does::Return(&[3, 3]),
        &[
            (&[(1, 20_000), (-2, 20_001)], -1),
            (&[(1, 20_000), (-1, 20_001)], 0),
        ],
        &[(&[(3, -1)], -1), (&[], 0)],
    ),
    // no value
    (
        Does::Return(&[]),
        &[(&[(1, 10_000)], -7)],
        &[(&[(10_000, 1)], -7)],
    ),
    // values and entry values in one row
    (
        Does::Return(&[0, 2]),
        &[(&[(1, 20_001), (1, 10_001)], 0)],
        &[(&[(2, 1), (10_001, 1)], 0)],
    ),
    // slots that an edge doesn't name stay
    (
        Does::Input(0),
        &[(&[(3, 1), (1, 10_000)], -7)],
        &[(&[(1, 3), (10_000, 1)], -7)],
    ),
];

/// The preimage over an edge that isn't a call.
fn preimage(
    alloc: Global,
    edge: &Edge,
    target: &Cube,
) -> Result<Result<Pre, ProjectionError>, Fail> {
    if edge.is_call() {
        return Err(Fail::new("a call"));
    }
    Ok(pre(alloc, edge, target))
}

/// The preimage of a target over what the edge does.
fn preimage_over(
    alloc: Global,
    does: Does,
    target: &[Row],
) -> Result<Result<Pre, ProjectionError>, Fail> {
    let edge = edge_of(alloc, &(1, 2, does))?;
    let target = cube_of(alloc, target)?;
    preimage(alloc, &edge, &target)
}

fn is_exactly(pre: &Pre, rows: &[Plain]) -> bool {
    are_rows(&pre.cube, rows) && pre.inexact.is_none()
}

fn gives(alloc: Global, case: &Case) -> Result<bool, Fail> {
    let pre = preimage_over(alloc, case.0, case.1)??;
    Ok(is_exactly(&pre, case.2))
}

#[test]
fn goes_back_over_edges(rt: HostRuntime) -> Result<(), Fail> {
    for (place, case) in CASES.iter().enumerate() {
        assert!(rt; gives(rt.alloc(), case)?, "{place}");
    }
    Ok(())
}

/// The entry with one parameter.
fn entered(alloc: Global) -> Result<Pre, Fail> {
    let entry = Edge::Entry { to: 1, params: 1 };
    let target: [Row; 1] = [(&[(2, 0), (3, 1), (1, 10_000)], -7)];
    let target = cube_of(alloc, &target)?;
    Ok(preimage(alloc, &entry, &target)??)
}

#[test]
fn enters(rt: HostRuntime) -> Result<(), Fail> {
    let pre = entered(rt.alloc())?;
    assert!(rt; is_exactly(&pre, &[(&[(10_000, 3)], -7)]));
    Ok(())
}

/// What is said of the first pair of an elimination: its column, its upper and its lower row.
type Told<'a> = (u32, Plain<'a>, Plain<'a>);

/// An edge and a target whose preimage isn't exact, the rows, and the pair.
type Inexact<'a> = (Does<'a>, &'a [Row<'a>], &'a [Plain<'a>], Told<'a>);

const INEXACT: [Inexact; 2] = [
    (
        Does::Input(0),
        &[(&[(2, 0), (-1, 1)], 0), (&[(1, 2), (-2, 0)], 0)],
        &[(&[(1, -1), (2, 1)], 0)],
        (0, (&[(0, 2), (1, -1)], 0), (&[(0, -2), (2, 1)], 0)),
    ),
    // the half of slot 0 is at most 5
    (
        HALF,
        &[(&[(1, 1)], -5)],
        &[(&[(0, 1)], -11)],
        (1, (&[(0, -1), (1, 2)], 0), (&[(0, 1), (1, -2)], -1)),
    ),
];

fn is_pair(pair: &Pair, told: &Told) -> bool {
    pair.column == told.0
        && is_term(&pair.upper.term, &told.1)
        && is_term(&pair.lower.term, &told.2)
}

fn tells(pre: &Pre, told: &Told) -> bool {
    match &pre.inexact {
        Some(pair) => is_pair(pair, told),
        None => false,
    }
}

/// Whether each of the rows is one of the preimage's.
fn has_each(pre: &Pre, rows: &[Plain]) -> bool {
    rows.iter().all(|row| {
        pre.cube
            .atoms
            .as_slice()
            .iter()
            .any(|atom| is_term(&atom.term, row))
    })
}

fn is_inexact(alloc: Global, case: &Inexact) -> Result<bool, Fail> {
    let pre = preimage_over(alloc, case.0, case.1)??;
    Ok(tells(&pre, &case.3) && has_each(&pre, case.2))
}

#[test]
fn tells_the_inexact_pair(rt: HostRuntime) -> Result<(), Fail> {
    for (place, case) in INEXACT.iter().enumerate() {
        assert!(rt; is_inexact(rt.alloc(), case)?, "{place}");
    }
    Ok(())
}

/// The kind of a limit, if it was met at one summand.
fn at_one_summand(kept: &Kept) -> Option<LimitKind> {
    match &kept.question {
        Question::Combine(summands, 0) if summands.as_slice().len() == 1 => {
            Some(kept.limit.kind())
        }
        _ => None,
    }
}

fn limit_of(pre: &Result<Pre, ProjectionError>) -> Option<LimitKind> {
    match pre {
        Err(ProjectionError::Limit(kept)) => at_one_summand(kept),
        _ => None,
    }
}

#[test]
fn keeps_a_wide_sum(rt: HostRuntime) -> Result<(), Fail> {
    let wide = Does::Assign(1, (&[(2_199_023_255_552, 0)], 0));
    let pre = preimage_over(rt.alloc(), wide, &[])?;
    assert!(rt; limit_of(&pre) == Some(LimitKind::Wide));
    Ok(())
}
