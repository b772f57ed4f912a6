//! What a sweep counts and finds in graphs that are made by hand.

use crate::swept::{End, Told, swept};
use shadow_elim::limit::LimitKind;
use std::test::Fail;
use test_forms::edges::Does;
use test_forms::graphs::{Shape, graphs_of};
use test_forms::kept::Counts;
use test_forms::rows::Row;

/// Slot 0 is at most 0; at least 1, 2, 5.
const LOW: Row<'static> = (&[(1, 0)], 0);

const ONE: Row<'static> = (&[(-1, 0)], 1);

const TWO: Row<'static> = (&[(-1, 0)], 2);

const FIVE: Row<'static> = (&[(-1, 0)], 5);

/// Slot 1 is at least 10; exactly 7.
const TEN: Row<'static> = (&[(-1, 1)], 10);

const SEVEN: &[Row<'static>] = &[(&[(1, 1)], -7), (&[(-1, 1)], 7)];

/// Slot 2 is at least slot 1.
const ABOVE: Row<'static> = (&[(1, 1), (-1, 2)], 0);

const MANY: i64 = 4_611_686_018_427_387_904;

/// An input that is at most 0 or at least 1; at least 2 it fails, as the last edge says. Its paths
/// are `0`, `0 1`, `0 1 2`, `0 1 2 5`, `0 1 3`, `0 1 3 6` and `0 1 4`.
const BRANCHES: Shape<'static> = Shape {
    counts: Counts {
        nodes: 6,
        params: 0,
        exits: 0,
        slots: 1,
    },
    steps: &[
        (2, 3, Does::Input(0)),
        (3, 4, Does::Guard(&[LOW])),
        (3, 5, Does::Guard(&[ONE])),
        (3, 1, Does::Assert(0, &[TWO])),
        (4, 0, Does::Return(&[])),
        (5, 0, Does::Return(&[])),
    ],
};

/// No input is at most 0 and at least 1: the paths are `0` and `0 1`.
const NEVER: Shape<'static> = Shape {
    counts: Counts {
        nodes: 5,
        params: 0,
        exits: 0,
        slots: 1,
    },
    steps: &[
        (2, 3, Does::Input(0)),
        (3, 4, Does::Guard(&[LOW, ONE])),
        (4, 0, Does::Return(&[])),
    ],
};

/// Two edges fail at assertion 1; the first one wants a greater input.
const TWICE: Shape<'static> = Shape {
    counts: Counts {
        nodes: 4,
        params: 0,
        exits: 0,
        slots: 1,
    },
    steps: &[
        (2, 3, Does::Input(0)),
        (3, 1, Does::Assert(1, &[FIVE])),
        (3, 1, Does::Assert(1, &[ONE])),
        (3, 1, Does::Assert(7, &[ONE])),
    ],
};

/// A value is picked between two inputs, and is none.
const PICKED: Shape<'static> = Shape {
    counts: Counts {
        nodes: 6,
        params: 0,
        exits: 0,
        slots: 3,
    },
    steps: &[
        (2, 3, Does::Input(0)),
        (3, 4, Does::Pick(1, SEVEN)),
        (4, 5, Does::Input(2)),
        (5, 1, Does::Assert(0, &[ABOVE])),
    ],
};

/// Twice the input comes back; at least 10 it fails.
const CALLS: Shape<'static> = Shape {
    counts: Counts {
        nodes: 5,
        params: 0,
        exits: 0,
        slots: 2,
    },
    steps: &[
        (2, 3, Does::Input(0)),
        (
            3,
            4,
            Does::Call {
                proc: 1,
                args: &[0],
                results: &[1],
            },
        ),
        (4, 1, Does::Assert(0, &[TEN])),
        (4, 0, Does::Return(&[])),
    ],
};

const DOUBLES: Shape<'static> = Shape {
    counts: Counts {
        nodes: 4,
        params: 1,
        exits: 1,
        slots: 2,
    },
    steps: &[
        (2, 3, Does::Assign(1, (&[(2, 0)], 0))),
        (3, 0, Does::Return(&[1])),
    ],
};

/// It returns a slot that it never sets, which is 0.
const RESTS: Shape<'static> = Shape {
    counts: Counts {
        nodes: 3,
        params: 1,
        exits: 1,
        slots: 2,
    },
    steps: &[(2, 0, Does::Return(&[1]))],
};

/// It calls itself without end.
const SPINS: Shape<'static> = Shape {
    counts: Counts {
        nodes: 4,
        params: 0,
        exits: 0,
        slots: 1,
    },
    steps: &[
        (
            2,
            3,
            Does::Call {
                proc: 0,
                args: &[],
                results: &[],
            },
        ),
        (3, 0, Does::Return(&[])),
    ],
};

/// A product of products is too wide.
const WIDE: Shape<'static> = Shape {
    counts: Counts {
        nodes: 6,
        params: 0,
        exits: 0,
        slots: 1,
    },
    steps: &[
        (2, 3, Does::Input(0)),
        (3, 4, Does::Assign(0, (&[(MANY, 0)], 0))),
        (4, 5, Does::Assign(0, (&[(MANY, 0)], 0))),
        (5, 0, Does::Return(&[])),
    ],
};

/// Graphs, the first of which is `main`, and what is wanted.
struct Case {
    name: &'static str,
    shapes: &'static [Shape<'static>],
    asserts: u32,
    edges: u32,
    told: Told,
}

const CASES: [Case; 14] = [
    Case {
        name: "a tree of exactly so many edges",
        shapes: &[BRANCHES],
        asserts: 1,
        edges: 7,
        told: (End::Whole, 1, [Some((1, [2, 0, 0])), None]),
    },
    Case {
        name: "one more, which fails",
        shapes: &[BRANCHES],
        asserts: 1,
        edges: 6,
        told: (End::More, 1, [Some((1, [2, 0, 0])), None]),
    },
    Case {
        name: "two more, and the last one isn't counted",
        shapes: &[BRANCHES],
        asserts: 1,
        edges: 5,
        told: (End::More, 1, [None, None]),
    },
    Case {
        name: "one edge",
        shapes: &[BRANCHES],
        asserts: 1,
        edges: 1,
        told: (End::More, 1, [None, None]),
    },
    Case {
        name: "no assertion has an entry",
        shapes: &[BRANCHES],
        asserts: 0,
        edges: 7,
        told: (End::Whole, 0, [None, None]),
    },
    Case {
        name: "an infeasible path isn't counted",
        shapes: &[NEVER],
        asserts: 0,
        edges: 2,
        told: (End::Whole, 0, [None, None]),
    },
    Case {
        name: "but the one before it is",
        shapes: &[NEVER],
        asserts: 0,
        edges: 1,
        told: (End::More, 0, [None, None]),
    },
    Case {
        name: "the first of two paths that fail, and an assertion without an entry",
        shapes: &[TWICE],
        asserts: 2,
        edges: 5,
        told: (End::Whole, 2, [None, Some((1, [5, 0, 0]))]),
    },
    Case {
        name: "a picked value is no input",
        shapes: &[PICKED],
        asserts: 1,
        edges: 9,
        told: (End::Whole, 1, [Some((2, [0, 7, 0])), None]),
    },
    Case {
        name: "a result",
        shapes: &[CALLS, DOUBLES],
        asserts: 1,
        edges: 8,
        told: (End::Whole, 1, [Some((1, [5, 0, 0])), None]),
    },
    Case {
        name: "a call and the entry behind it are two paths",
        shapes: &[CALLS, DOUBLES],
        asserts: 1,
        edges: 7,
        told: (End::More, 1, [Some((1, [5, 0, 0])), None]),
    },
    Case {
        name: "the other slots of a called procedure are 0",
        shapes: &[CALLS, RESTS],
        asserts: 1,
        edges: 9,
        told: (End::Whole, 1, [None, None]),
    },
    Case {
        name: "two thousand and five hundred calls deep",
        shapes: &[SPINS],
        asserts: 0,
        edges: 5000,
        told: (End::More, 0, [None, None]),
    },
    Case {
        name: "a sum that is too wide",
        shapes: &[WIDE],
        asserts: 0,
        edges: 5,
        told: (End::Limit(LimitKind::Wide), 0, [None, None]),
    },
];

#[test]
fn sweeps_graphs(rt: HostRuntime) -> Result<(), Fail> {
    for case in &CASES {
        let graphs = graphs_of(rt.alloc(), case.shapes)?;
        let told = swept(rt.alloc(), &graphs, 0, case.asserts, case.edges)?;
        assert!(rt; told == case.told, "{}", case.name);
    }
    Ok(())
}
