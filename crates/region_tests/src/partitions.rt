//! Partitions of one small graph: what they begin with, and what splits and kills make of them.

ghost use Rattle.std.specs.Prelude.{◌≡◌, ◌↔◌, ◌<◌, length, IsTrue};

use linear_formula::formula::{Atom, Cube};
use linear_formula::term::{Parts, Term};
use may_partition::{Partition, Region, RegionEdge, RegionEdges, SplitError};
use std::alloc::Global;
use std::test::Fail;
use summary_form::query::ExitKind;
use test_forms::edges::Does;
use test_forms::graphs::{Shape, graph_of};
use test_forms::kept::Counts;
use test_forms::queries::query_of;
use test_forms::rows::{Row, cube_of};

/// A live edge: the graph edge, and the numbers of its two regions.
type Live = (u32, u32, u32);

/// Nodes 2 and 3: a call from 2 to 3, and at 3 a loop, two assertions and the return.
pub(crate) const SMALL: Shape = Shape {
    counts: Counts {
        nodes: 4,
        params: 1,
        exits: 1,
        slots: 1,
    },
    steps: &[
        (
            2,
            3,
            Does::Call {
                proc: 0,
                args: &[],
                results: &[0],
            },
        ),
        (3, 3, Does::Guard(&[])),
        (3, 1, Does::Assert(0, &[])),
        (3, 1, Does::Assert(5, &[])),
        (3, 0, Does::Return(&[0])),
    ],
};

/// Slot 0 becomes a half of slot 1 at an edge from node 2, and is returned if it is at most 5.
const HALF: Shape = Shape {
    counts: Counts {
        nodes: 4,
        params: 2,
        exits: 1,
        slots: 2,
    },
    steps: &[
        (
            2,
            3,
            Does::Pick(0, &[(&[(2, 0), (-1, 1)], 0), (&[(1, 1), (-2, 0)], -1)]),
        ),
        (3, 1, Does::Assert(0, &[(&[(-1, 0)], 6)])),
        (3, 0, Does::Return(&[0])),
    ],
};

/// Reads: slot 0 is at most the greatest constant of a term. The negation has a greater one.
fn widest(alloc: Global) -> Result<Atom, Fail> {
    let parts = vec![in alloc; (0, 1)]?;
    let term = Term::new(Parts::from_vec(parts), -19_342_813_113_834_066_795_298_816);
    Ok(Atom { term })
}

/// The partition of a query with one row at its start and two at its end.
pub(crate) fn begun(alloc: Global, shape: &Shape, exit: ExitKind) -> Result<Partition, Fail> {
    let end: [Row; 2] = [(&[(1, 10_000)], -5), (&[(1, 10_000)], -6)];
    let query = query_of(alloc, 0, exit, &[(&[(1, 10_000)], -7)], &end)?;
    let graph = graph_of(alloc, shape)?;
    Ok(Partition::begin(alloc, &graph, &query)?)
}

fn edge_of(live: Live) -> RegionEdge
    ensures from { result.from ≡ live.1 }
    ensures to { result.to ≡ live.2 }
{
    RegionEdge {
        edge: live.0,
        from: live.1,
        to: live.2,
    }
}

/// How many atoms a region has.
fn size_of(alloc: Global, region: &Region) -> Result<usize, Fail> {
    let cube = region.cube.to_cube(alloc)?;
    Ok(cube.atoms.as_slice().len())
}

/// Whether the regions have these nodes and as many atoms.
fn has_regions(
    alloc: Global,
    partition: &Partition,
    wanted: &[(u32, usize)],
) -> Result<bool, Fail> {
    for (region, (node, atoms)) in partition.regions().iter().zip(wanted) {
        if region.node != *node || size_of(alloc, region)? != *atoms {
            return Ok(false);
        }
    }
    Ok(partition.regions().len() == wanted.len())
}

/// How many edges there are, or the greatest number.
pub fn count_of(edges: RegionEdges<'_>) -> usize {
    let mut count: usize = 0;
    for _ in edges {
        count = count.saturating_add(1);
    }
    count
}

/// How many edges are live.
fn live_count(partition: &Partition) -> usize {
    let mut count: usize = 0;
    for region in 0..u32::MAX {
        if !exists(partition, region) {
            return count;
        }
        count = count.saturating_add(count_of(partition.edges_from(region)));
    }
    count
}

/// Whether these edges are live, and no others.
fn has_live(partition: &Partition, wanted: &[Live]) -> bool {
    for live in wanted {
        if !partition.live(&edge_of(*live)) {
            return false;
        }
    }
    live_count(partition) == wanted.len()
}

pub(crate) fn exists(partition: &Partition, region: u32) -> bool
    ensures { IsTrue result ↔ (region < length partition.now.regions) }
{
    (region as usize) < partition.regions().len()
}

/// Splits where the two regions exist.
fn split(
    alloc: Global,
    partition: &mut Partition,
    at: Live,
    atoms: &[Atom],
) -> Result<Result<(), SplitError>, Fail> {
    if !exists(partition, at.1) || !exists(partition, at.2) {
        return Err(Fail::new("no such region"));
    }
    Ok(partition.split(alloc, &edge_of(at), atoms))
}

/// The partition of assertion 0 after one split, by these rows.
fn after_split(alloc: Global, shape: &Shape, at: Live, rows: &[Row]) -> Result<Partition, Fail> {
    let mut partition = begun(alloc, shape, ExitKind::Fail(0))?;
    let atoms = cube_of(alloc, rows)?;
    split(alloc, &mut partition, at, atoms.atoms.as_slice())??;
    Ok(partition)
}

/// The part and the constant of the last atom of the cube.
fn last_of(cube: &Cube) -> Option<(i128, i128)> {
    let atom = cube.atoms.as_slice().last()?;
    let part = atom.term.parts().first()?;
    Some((part.1, atom.term.constant()))
}

/// The part and the constant of the last atom of a region.
fn last_atom(
    alloc: Global,
    partition: &Partition,
    region: usize,
) -> Result<Option<(i128, i128)>, Fail> {
    let Some(region) = partition.regions().get(region) else {
        return Ok(None);
    };
    let cube = region.cube.to_cube(alloc)?;
    Ok(last_of(&cube))
}

/// Slot 0 is at most so much.
const SEVEN: Row = (&[(1, 0)], -7);

const SIX: Row = (&[(1, 0)], -6);

const FIVE: Row = (&[(1, 0)], -5);

/// Slot 1 is at most 11.
const ELEVEN: Row = (&[(1, 1)], -11);

/// What a partition begins with: the graph, the exit, the regions and the live edges.
type Beginning<'a> = (Shape<'a>, ExitKind, &'a [(u32, usize)], &'a [Live]);

const BEFORE: &[Live] = &[
    (0, 0, 3),
    (1, 3, 4),
    (1, 3, 2),
    (2, 4, 4),
    (3, 4, 2),
    (5, 4, 1),
];

const BEGINNINGS: &[Beginning] = &[
    (
        SMALL,
        ExitKind::Fail(0),
        &[(4, 0), (0, 0), (1, 2), (2, 1), (3, 0)],
        BEFORE,
    ),
    (
        SMALL,
        ExitKind::Return,
        &[(4, 0), (0, 2), (1, 0), (2, 1), (3, 0)],
        &[
            (0, 0, 3),
            (1, 3, 4),
            (1, 3, 2),
            (2, 4, 4),
            (3, 4, 2),
            (4, 4, 2),
            (5, 4, 1),
        ],
    ),
    (
        HALF,
        ExitKind::Fail(0),
        &[(4, 0), (0, 0), (1, 2), (2, 1), (3, 0)],
        &[(0, 0, 3), (1, 3, 4), (2, 4, 2), (3, 4, 1)],
    ),
];

#[test]
fn begins(rt: HostRuntime) -> Result<(), Fail> {
    for &(shape, exit, regions, live) in BEGINNINGS {
        let partition = begun(rt.alloc(), &shape, exit)?;
        let right = has_regions(rt.alloc(), &partition, regions)? && has_live(&partition, live);
        assert!(rt; right, "{exit:?}");
    }
    Ok(())
}

#[test]
fn another_assertion_is_not_live(rt: HostRuntime) -> Result<(), Fail> {
    let partition = begun(rt.alloc(), &SMALL, ExitKind::Fail(0))?;
    assert!(rt; !partition.live(&edge_of((4, 4, 2))));
    Ok(())
}

/// A split: the graph, the edge, the rows, and the live edges after it.
type Split<'a> = (Shape<'a>, Live, Row<'a>, &'a [Live]);

const SPLITS: &[Split] = &[
    // before an assertion
    (
        SMALL,
        (3, 4, 2),
        SEVEN,
        &[
            (0, 0, 3),
            (1, 3, 4),
            (1, 3, 5),
            (1, 3, 2),
            (2, 4, 4),
            (2, 4, 5),
            (2, 5, 4),
            (2, 5, 5),
            (3, 4, 2),
            (5, 4, 1),
            (5, 5, 1),
        ],
    ),
    // at a loop
    (
        SMALL,
        (2, 4, 4),
        SEVEN,
        &[
            (0, 0, 3),
            (1, 3, 4),
            (1, 3, 5),
            (1, 3, 2),
            (2, 4, 4),
            (2, 4, 5),
            (2, 5, 5),
            (3, 4, 2),
            (3, 5, 2),
            (5, 4, 1),
            (5, 5, 1),
        ],
    ),
    // before a pick
    (
        HALF,
        (1, 3, 4),
        ELEVEN,
        &[(0, 0, 3), (0, 0, 5), (1, 3, 4), (2, 4, 2), (3, 4, 1)],
    ),
];

#[test]
fn splits(rt: HostRuntime) -> Result<(), Fail> {
    for &(shape, at, row, live) in SPLITS {
        let partition = after_split(rt.alloc(), &shape, at, &[row])?;
        assert!(rt; has_live(&partition, live), "{at:?}");
    }
    Ok(())
}

/// A region after a split, and the part and the constant of its last atom.
const LAST_ATOMS: &[(Live, &[Row], usize, (i128, i128))] = &[
    ((3, 4, 2), &[SEVEN], 4, (1, -7)),
    ((3, 4, 2), &[SEVEN], 5, (-1, 8)),
    ((1, 3, 4), &[SEVEN, SIX, FIVE], 3, (1, -5)),
    ((1, 3, 4), &[SEVEN, SIX, FIVE], 5, (-1, 8)),
    ((1, 3, 4), &[SEVEN, SIX, FIVE], 6, (-1, 7)),
    ((1, 3, 4), &[SEVEN, SIX, FIVE], 7, (-1, 6)),
];

#[test]
fn pieces_have_the_rows_and_their_negations(rt: HostRuntime) -> Result<(), Fail> {
    for &(at, rows, region, atom) in LAST_ATOMS {
        let partition = after_split(rt.alloc(), &SMALL, at, rows)?;
        let last = last_atom(rt.alloc(), &partition, region)?;
        assert!(rt; last == Some(atom), "{region}");
    }
    Ok(())
}

#[test]
fn numbers_the_pieces(rt: HostRuntime) -> Result<(), Fail> {
    let partition = after_split(rt.alloc(), &SMALL, (1, 3, 4), &[SEVEN, SIX, FIVE])?;
    let regions = &[
        (4, 0),
        (0, 0),
        (1, 2),
        (2, 4),
        (3, 0),
        (2, 2),
        (2, 3),
        (2, 4),
    ];
    assert!(rt; has_regions(rt.alloc(), &partition, regions)?);
    Ok(())
}

/// Slot 0 is at most 7, and a row that has no negation.
fn one_too_wide(alloc: Global) -> Result<Cube, Fail> {
    let seven = cube_of(alloc, &[SEVEN])?;
    Ok(seven.with(alloc, widest(alloc)?)?)
}

/// Whether the split is refused as too wide, and all is as before.
fn is_too_wide(alloc: Global, partition: &mut Partition) -> Result<bool, Fail> {
    let atoms = one_too_wide(alloc)?;
    let answer = split(alloc, partition, (3, 4, 2), atoms.atoms.as_slice())?;
    Ok(
        answer == Err(SplitError::Wide)
            && has_regions(alloc, partition, &[(4, 0), (0, 0), (1, 2), (2, 1), (3, 0)])?
            && has_live(partition, BEFORE),
    )
}

#[test]
fn keeps_all_where_a_negation_is_too_wide(rt: HostRuntime) -> Result<(), Fail> {
    let mut partition = begun(rt.alloc(), &SMALL, ExitKind::Fail(0))?;
    assert!(rt; is_too_wide(rt.alloc(), &mut partition)?);
    Ok(())
}

/// The partition of assertion 0 after a kill.
fn after_kill(alloc: Global, shape: &Shape, at: Live) -> Result<Partition, Fail> {
    let mut partition = begun(alloc, shape, ExitKind::Fail(0))?;
    if !exists(&partition, at.1) || !exists(&partition, at.2) {
        return Err(Fail::new("no such region"));
    }
    partition.kill(&edge_of(at))?;
    Ok(partition)
}

/// A kill, of a call and of a pick, and the live edges after it.
const KILLS: [(Shape, Live, &[Live]); 2] = [
    (
        SMALL,
        (1, 3, 2),
        &[(0, 0, 3), (1, 3, 4), (2, 4, 4), (3, 4, 2), (5, 4, 1)],
    ),
    (HALF, (1, 3, 4), &[(0, 0, 3), (2, 4, 2), (3, 4, 1)]),
];

#[test]
fn kills_one_edge(rt: HostRuntime) -> Result<(), Fail> {
    for &(shape, at, live) in &KILLS {
        let partition = after_kill(rt.alloc(), &shape, at)?;
        assert!(rt; has_live(&partition, live), "{at:?}");
    }
    Ok(())
}
