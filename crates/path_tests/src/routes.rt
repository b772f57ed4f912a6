//! Paths through small networks, and where they leave the marked regions.

ghost use Rattle.abstract_path.specs.Routes.{AreEdgesOf};

use abstract_path::frontier::{Route, frontier, is_reached, last_crossing, shortest};
use std::alloc::{AllocError, Global};
use std::test::Fail;

/// From 0 to 3 over 1 or 2, each over two edges, over 4 and 5, and straight; the last edge leads
/// back.
const EDGES: [(u32, u32); 9] = [
    (0, 1),
    (1, 3),
    (0, 2),
    (2, 3),
    (0, 4),
    (4, 5),
    (5, 3),
    (0, 3),
    (3, 0),
];

fn edges() -> &'static [(u32, u32); 9]
    ensures edges { AreEdgesOf 6 result.now }
{
    &EDGES
}

/// Which edges are shut, the marked regions, and the edges of a shortest path with the place of its
/// last crossing.
/// `None`: there is no path.
type Case = ([bool; 9], [bool; 6], Option<(&'static [u32], u32)>);

const OPEN: [bool; 9] = [false; 9];

const CASES: &[Case] = &[
    (
        OPEN,
        [true, false, false, false, false, false],
        Some((&[7], 0)),
    ),
    (
        [true, false, false, false, false, false, false, true, false],
        [true, false, true, false, false, false],
        Some((&[2, 3], 1)),
    ),
    (
        [true, false, true, false, false, false, false, true, false],
        [true, false, false, false, true, false],
        Some((&[4, 5, 6], 1)),
    ),
    (
        [true, false, true, false, false, false, false, true, false],
        [true, false, false, false, false, true],
        Some((&[4, 5, 6], 2)),
    ),
    (
        [true, false, true, false, false, true, false, true, false],
        [true, true, true, false, true, true],
        None,
    ),
];

fn is_answered(
    alloc: Global,
    shut: &[bool; 9],
    marked: &[bool; 6],
    wanted: Option<(&[u32], u32)>,
) -> Result<bool, AllocError> {
    if !marked[0] || marked[3] {
        return Ok(false);
    }
    match frontier(alloc, 6, edges(), marked, shut, 0, 3)? {
        Route::Found { path, at } => Ok(wanted == Some((path.as_slice(), at))),
        Route::NoPath => Ok(wanted.is_none()),
    }
}

#[test]
fn finds_frontiers(rt: HostRuntime) -> Result<(), Fail> {
    for &(shut, marked, wanted) in CASES {
        assert!(rt; is_answered(rt.alloc(), &shut, &marked, wanted)?);
    }
    Ok(())
}

/// From 0 over 1 to 2.
const LINE: [(u32, u32); 2] = [(0, 1), (1, 2)];

fn line() -> &'static [(u32, u32); 2]
    ensures edges { AreEdgesOf 3 result.now }
{
    &LINE
}

fn is_walked(
    alloc: Global,
    shut: &[bool; 2],
    wanted: Option<(&[u32], u32)>,
) -> Result<bool, AllocError> {
    match frontier(alloc, 3, line(), &[true, false, false], shut, 0, 2)? {
        Route::Found { path, at } => Ok(wanted == Some((path.as_slice(), at))),
        Route::NoPath => Ok(wanted.is_none()),
    }
}

#[test]
fn walks_a_line(rt: HostRuntime) -> Result<(), Fail> {
    assert!(rt; is_walked(rt.alloc(), &[false, false], Some((&[0, 1], 0)))?);
    assert!(rt; is_walked(rt.alloc(), &[false, true], None)?);
    Ok(())
}

/// Marked regions, and the place of the last edge of the line that leads out of them.
const CROSSINGS: &[([bool; 3], Option<usize>)] = &[
    ([true, false, false], Some(0)),
    ([true, true, false], Some(1)),
    ([true, false, true], Some(0)),
    ([true, true, true], None),
];

#[test]
fn finds_last_crossings(rt: HostRuntime) -> Result<(), Fail> {
    for &(marked, wanted) in CROSSINGS {
        assert!(rt; last_crossing(&LINE, &marked, &[0, 1]) == wanted);
    }
    Ok(())
}

/// Whether the shortest path over the line is the one that is wanted.
fn is_shortest(
    alloc: Global,
    shut: &[bool; 2],
    wanted: Option<&[u32]>,
) -> Result<bool, AllocError> {
    match shortest(alloc, 3, line(), shut, 0, 2)? {
        Some(path) => Ok(wanted == Some(path.as_slice())),
        None => Ok(wanted.is_none()),
    }
}

#[test]
fn finds_shortest_paths(rt: HostRuntime) -> Result<(), Fail> {
    assert!(rt; is_shortest(rt.alloc(), &[false, false], Some(&[0, 1]))?);
    assert!(rt; is_shortest(rt.alloc(), &[true, false], None)?);
    Ok(())
}

#[test]
fn reaches_regions(rt: HostRuntime) -> Result<(), Fail> {
    for (from, to, wanted) in [(0, 3, true), (3, 5, true), (5, 5, true), (1, 2, true)] {
        assert_eq!(rt;
            is_reached(rt.alloc(), 6, edges(), &OPEN, from, to)?,
            wanted
        );
    }
    Ok(())
}
