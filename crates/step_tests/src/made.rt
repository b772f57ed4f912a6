//! Musts of one parameter, and the graph of four nodes with one edge in its middle.

ghost use Rattle.std.specs.Prelude.{IsTrue};
ghost use Rattle.step_tests.specs.Chained.{BeginsWith};

use flow_graph::graphs::Graphs;
use std::alloc::Global;
use summary_form::query::ExitKind;
use test_forms::edges::{Does, Step};
use test_forms::error::FormError;
use test_forms::graphs::{Shape, graphs_of};
use test_forms::kept::Counts;
use test_forms::paths::Says;

/// Whether the first graph has `params` entry values.
pub fn begins_with(graphs: &Graphs, params: u32) -> bool
    ensures { IsTrue result → BeginsWith graphs.now.graphs params }
{
    match graphs.graphs.as_slice().get(0) {
        Some(graph) => graph.params == params,
        None => false,
    }
}

/// The assertion fails where slot 0 is at most 5.
const FAILS_BY_FIRST: Step = (3, 1, Does::Assert(0, &[(&[(1, 0)], -5)]));

/// It fails where slot 1 is.
const FAILS_BY_SECOND: Step = (3, 1, Does::Assert(0, &[(&[(1, 1)], -5)]));

/// Slot 0 becomes itself and 1.
pub const NEXT: &[Step] = &[
    (2, 3, Does::Assign(0, (&[(1, 0)], 1))),
    FAILS_BY_FIRST,
    (3, 0, Does::Return(&[0])),
];

/// Slot 0 becomes 2 ^ 50 times itself and 1.
pub const WIDE: &[Step] = &[
    (2, 3, Does::Assign(0, (&[(1_125_899_906_842_624, 0)], 1))),
    FAILS_BY_FIRST,
    (3, 0, Does::Return(&[0])),
];

/// Slot 1 becomes the half of slot 0, rounded down.
pub const HALF: &[Step] = &[
    (
        2,
        3,
        Does::Pick(1, &[(&[(2, 1), (-1, 0)], 0), (&[(1, 0), (-2, 1)], -1)]),
    ),
    FAILS_BY_SECOND,
    (3, 0, Does::Return(&[1])),
];

/// Slot 0 is 7 times slot 1, and at most 34.
pub const SEVENTH: &[Step] = &[
    (
        2,
        3,
        Does::Pick(
            1,
            &[
                (&[(7, 1), (-1, 0)], 0),
                (&[(1, 0), (-7, 1)], 0),
                (&[(1, 0)], -34),
            ],
        ),
    ),
    FAILS_BY_SECOND,
    (3, 0, Does::Return(&[1])),
];

/// Slot 0 is at most 100, in 33 rows.
pub const MANY_ROWS: &[Step] = &[
    (
        2,
        3,
        Does::Guard(&[
            (&[(1, 0)], -100),
            (&[(1, 0)], -101),
            (&[(1, 0)], -102),
            (&[(1, 0)], -103),
            (&[(1, 0)], -104),
            (&[(1, 0)], -105),
            (&[(1, 0)], -106),
            (&[(1, 0)], -107),
            (&[(1, 0)], -108),
            (&[(1, 0)], -109),
            (&[(1, 0)], -110),
            (&[(1, 0)], -111),
            (&[(1, 0)], -112),
            (&[(1, 0)], -113),
            (&[(1, 0)], -114),
            (&[(1, 0)], -115),
            (&[(1, 0)], -116),
            (&[(1, 0)], -117),
            (&[(1, 0)], -118),
            (&[(1, 0)], -119),
            (&[(1, 0)], -120),
            (&[(1, 0)], -121),
            (&[(1, 0)], -122),
            (&[(1, 0)], -123),
            (&[(1, 0)], -124),
            (&[(1, 0)], -125),
            (&[(1, 0)], -126),
            (&[(1, 0)], -127),
            (&[(1, 0)], -128),
            (&[(1, 0)], -129),
            (&[(1, 0)], -130),
            (&[(1, 0)], -131),
            (&[(1, 0)], -132),
        ]),
    ),
    FAILS_BY_FIRST,
    (3, 0, Does::Return(&[0])),
];

/// One parameter and two slots: the edge from node 2 to node 3, and there an assertion that fails
/// where a slot is at most 5, and the return of that slot.
pub fn chain(alloc: Global, steps: &[Step]) -> Result<Graphs, FormError> {
    let shape = Shape {
        counts: Counts {
            nodes: 4,
            params: 1,
            exits: 1,
            slots: 2,
        },
        steps,
    };
    graphs_of(alloc, &[shape])
}

/// For each argument of at most 9 some run of procedure 4 returns it and 1.
pub const ONCE: Says = Says {
    proc: 4,
    exit: ExitKind::Return,
    symbols: 1,
    guard: &[(&[(1, 30_000)], -9)],
    entry: &[(&[(1, 30_000)], 0)],
    inputs: &[],
    outcome: &[(&[(1, 30_000)], 1)],
};
