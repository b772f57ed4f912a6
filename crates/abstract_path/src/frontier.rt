//! Shortest paths and their frontiers.

ghost use Rattle.std.specs.Prelude.{ℕ, List, ◌≡◌, ◌≤◌, ◌<◌, ◌^◌, length, true, false, IfOk, IfSome, IsTrue, ◌↔◌, ◌≢◌, slice_get, slice_index};
ghost use Rattle.abstract_path.specs.Routes.{AreEdgesOf, IsRoute, IfShortest, is_at, leaves_marked, last_crossing, Answers};

use crate::search::{Reach, reach_to};
use std::alloc::{AllocError, Global};

/// The answer of a search for a path.
#[derive(Debug, Drop)]
pub enum Route {
    Found { path: Vec<u32>, at: u32 },
    NoPath,
}

fn is_marked(marked: &[bool], region: u32) -> bool
    ensures { result ≡ is_at marked.now region }
{
    match marked.get(region as usize) {
        Some(bit) => *bit,
        None => false,
    }
}

/// Whether the edge of this number leads from a marked region to one that isn't.
fn leaves(edges: &[(u32, u32)], marked: &[bool], number: u32) -> bool
    ensures { result ≡ leaves_marked marked.now (slice_get edges.now number) }
{
    match edges.get(number as usize) {
        Some((from, to)) => is_marked(marked, *from) && !is_marked(marked, *to),
        None => false,
    }
}

/// The place of the last edge of a path that leads from a marked region to one that isn't.
pub fn last_crossing(edges: &[(u32, u32)], marked: &[bool], path: &[u32]) -> Option<usize>
    ensures { result ≡ last_crossing edges.now marked.now path.now }
{
    let mut last = None;
    for (place, number) in path.iter().enumerate() {
        if leaves(edges, marked, *number) {
            last = Some(place);
        }
    }
    last
}

/// Looks for a shortest path without a shut edge.
pub fn shortest(
    alloc: Global,
    regions: u32,
    edges: &[(u32, u32)],
    shut: &[bool],
    start: u32,
    target: u32,
) -> Result<Option<Vec<u32>>, AllocError>
    requires edges { AreEdgesOf regions edges.now }
    requires few { length edges.now < 2 ^ 32 }
    requires shuts { length shut.now ≡ length edges.now }
    requires start { start < regions }
    requires target { target < regions }
    ensures shortest { IfOk result (IfShortest edges.now shut.now start target) }
    ensures few { IfOk result (λ found. IfSome found (λ path. length path.items ≤ regions)) }
{
    let Reach { far, way } = reach_to(alloc, regions, edges, shut, target)?;
    if far[start as usize] == 0 {
        return Ok(None);
    }
    let mut path = Vec::new(alloc);
    let mut here = start;
    while here != target {
        let number = way[here as usize];
        path.push(number)?;
        here = edges[number as usize].1;
    }
    Ok(Some(path))
}

/// Looks for a shortest path without a shut edge, and its last edge from a marked to an unmarked
/// region.
pub fn frontier(
    alloc: Global,
    regions: u32,
    edges: &[(u32, u32)],
    marked: &[bool],
    shut: &[bool],
    start: u32,
    target: u32,
) -> Result<Route, AllocError>
    requires edges { AreEdgesOf regions edges.now }
    requires few { length edges.now < 2 ^ 32 }
    requires shuts { length shut.now ≡ length edges.now }
    requires marks { length marked.now ≡ regions }
    requires start { start < regions }
    requires target { target < regions }
    requires from_marked { is_at marked.now start ≡ true }
    requires to_unmarked { is_at marked.now target ≡ false }
    ensures { IfOk result (Answers edges.now marked.now shut.now start target) }
{
    let Some(path) = shortest(alloc, regions, edges, shut, start, target)? else {
        return Ok(Route::NoPath);
    };
    match last_crossing(edges, marked, &path) {
        Some(at) => Ok(Route::Found {
            path,
            at: at as u32,
        }),
        None => unreachable!(),
    }
}

/// Whether there is a path without a shut edge.
pub fn is_reached(
    alloc: Global,
    regions: u32,
    edges: &[(u32, u32)],
    shut: &[bool],
    start: u32,
    target: u32,
) -> Result<bool, AllocError>
    requires edges { AreEdgesOf regions edges.now }
    requires few { length edges.now < 2 ^ 32 }
    requires shuts { length shut.now ≡ length edges.now }
    requires start { start < regions }
    requires target { target < regions }
    ensures { IfOk result
        (λ b. IsTrue b ↔ ((path : List ℕ) × IsRoute edges.now shut.now start path target)) }
{
    let Reach { far, .. } = reach_to(alloc, regions, edges, shut, target)?;
    Ok(is_met(&far, start))
}

fn is_met(far: &[u64], region: u32) -> bool
    requires { region < length far.now }
    ensures { IsTrue result ↔ (slice_index far.now region ≢ 0) }
{
    far[region as usize] != 0
}
