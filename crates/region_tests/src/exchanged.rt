//! A procedure that returns its two arguments exchanged, and the preimage over a call of it.

use call_bridge::preimage_of;
use flow_graph::columns::{FIRST_SYMBOL, MAX_SLOTS};
use flow_graph::graph::Graph;
use lia_solver::entails::entails;
use lia_solver::solved::Entailed;
use linear_formula::error::OutOfMemory;
use linear_formula::formula::Cube;
use must_region::trail::Trail;
use std::alloc::Global;
use std::test::Fail;
use summary_form::path::Path;
use summary_form::query::{ExitKind, Query};
use test_forms::edges::{Does, call_of};
use test_forms::graphs::{Shape, graph_of};
use test_forms::kept::{Counts, has_slots, names_below};
use test_forms::queries::query_of;
use test_forms::rows::{Row, cube_of};

const EXCHANGES: Shape = Shape {
    counts: Counts {
        nodes: 3,
        params: 2,
        exits: 2,
        slots: 2,
    },
    steps: &[(2, 0, Does::Return(&[1, 0]))],
};

/// The trail over the return.
fn returned(alloc: Global, graph: &Graph) -> Result<Trail, Fail> {
    let [_, leave] = graph.edges.as_slice() else {
        return Err(Fail::new("not two edges"));
    };
    let begun = Trail::begin(alloc, graph)?;
    if leave.is_call() || leave.source() != Some(begun.node) || !has_slots(leave, MAX_SLOTS) {
        return Err(Fail::new("no edge from the trail's node"));
    }
    Ok(begun.extend(alloc, leave)?)
}

fn path_for(alloc: Global, trail: &Trail, query: &Query) -> Result<Path, Fail> {
    if !names_below(&query.start, FIRST_SYMBOL) || !names_below(&query.end, FIRST_SYMBOL) {
        return Err(Fail::new("the query names a symbol"));
    }
    Ok(trail.to_path(alloc, query)?)
}

/// Its must, of any arguments.
fn must(alloc: Global) -> Result<Path, Fail> {
    let graph = graph_of(alloc, &EXCHANGES)?;
    let trail = returned(alloc, &graph)?;
    let query = query_of(alloc, 1, ExitKind::Return, &[], &[])?;
    path_for(alloc, &trail, &query)
}

/// What stands in the slots 2 and 3 after a call that passes slots 0 and 1, as rows before it.
fn before(alloc: Global, target: &[Row]) -> Result<Cube, Fail> {
    let must = must(alloc)?;
    let call = call_of(alloc, (2, 3), 1, &[0, 1], &[2, 3])?;
    let target = cube_of(alloc, target)?;
    Ok(preimage_of(alloc, &must, &call, &target)?.cube)
}

fn follows(alloc: Global, from: &Cube, to: &Cube) -> Result<bool, OutOfMemory> {
    Ok(matches!(&entails(alloc, from, to)?, Entailed::Yes(_)))
}

/// Whether the rows are met by the same values.
fn are_alike(alloc: Global, first: &Cube, second: &Cube) -> Result<bool, OutOfMemory> {
    Ok(follows(alloc, first, second)? && follows(alloc, second, first)?)
}

/// Whether these rows after the call are those rows before it.
fn comes_from(alloc: Global, behind: &[Row], rows: &[Row]) -> Result<bool, Fail> {
    let before = before(alloc, behind)?;
    let rows = cube_of(alloc, rows)?;
    Ok(are_alike(alloc, &before, &rows)?)
}

/// Rows after the call, and what they are before it.
const CASES: &[(&[Row], &[Row])] = &[
    // slot 2 is 5 where slot 1 was
    (
        &[(&[(1, 2)], -5), (&[(-1, 2)], 5)],
        &[(&[(1, 1)], -5), (&[(-1, 1)], 5)],
    ),
    // slot 3 is 5 where slot 0 was
    (
        &[(&[(1, 3)], -5), (&[(-1, 3)], 5)],
        &[(&[(1, 0)], -5), (&[(-1, 0)], 5)],
    ),
    // both, and a slot that the call doesn't name
    (
        &[(&[(1, 2), (-2, 3), (1, 4)], -5)],
        &[(&[(1, 1), (-2, 0), (1, 4)], -5)],
    ),
];

#[test]
fn two_values_come_from_their_arguments(rt: HostRuntime) -> Result<(), Fail> {
    for (place, (behind, rows)) in CASES.iter().enumerate() {
        assert!(rt; comes_from(rt.alloc(), behind, rows)?, "{place}");
    }
    Ok(())
}

/// The other slot, or another value, isn't it.
#[test]
fn the_other_argument_is_not_it(rt: HostRuntime) -> Result<(), Fail> {
    let five: [Row; 2] = [(&[(1, 2)], -5), (&[(-1, 2)], 5)];
    let other: [Row; 2] = [(&[(1, 0)], -5), (&[(-1, 0)], 5)];
    assert!(rt; !comes_from(rt.alloc(), &five, &other)?);
    Ok(())
}
