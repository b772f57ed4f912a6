//! The queries that calls ask, and preimages over calls by a must.

use call_bridge::asking::Asking;
use call_bridge::{ask_of, preimage_of};
use linear_formula::error::LinError;
use linear_formula::formula::{Atom, Atoms, Cube};
use linear_formula::question::Question;
use shadow_elim::limit::{Kept, LimitKind};
use shadow_elim::projection::ProjectionError;
use shadow_elim::shadow::{Pair, Pre};
use std::alloc::Global;
use std::test::Fail;
use summary_form::path::Path;
use summary_form::query::ExitKind;
use test_forms::edges::call_of;
use test_forms::paths::{Says, path_of};
use test_forms::rows::{Plain, Row, are_rows, cube_of, is_term, term_of};

/// A call of procedure 3, the rows before it and after it, and what it asks.
#[derive(Clone, Copy)]
struct Asks<'a> {
    args: &'a [u32],
    results: &'a [u32],
    exit: ExitKind,
    source: &'a [Row<'a>],
    target: &'a [Row<'a>],
    start: &'a [Plain<'a>],
    end: &'a [Plain<'a>],
}

/// A call that passes slot 0, and puts what is returned into slot 1.
const ASKS: Asks = Asks {
    args: &[0],
    results: &[1],
    exit: ExitKind::Return,
    source: &[],
    target: &[],
    start: &[],
    end: &[],
};

/// Whether the query asks this, without an inexact pair.
fn is_asked(asking: &Asking, asks: &Asks) -> bool {
    asking.query.proc == 3
        && asking.query.exit == asks.exit
        && are_rows(&asking.query.start, asks.start)
        && are_rows(&asking.query.end, asks.end)
        && asking.inexact.is_none()
}

/// What the call asks between two cubes.
fn asked(
    alloc: Global,
    asks: &Asks,
    source: &Cube,
    target: &Cube,
) -> Result<Result<Asking, ProjectionError>, Fail> {
    let call = call_of(alloc, (1, 2), 3, asks.args, asks.results)?;
    Ok(ask_of(alloc, source, &call, target, asks.exit))
}

fn is_right(alloc: Global, asks: &Asks) -> Result<bool, Fail> {
    let source = cube_of(alloc, asks.source)?;
    let target = cube_of(alloc, asks.target)?;
    let asking = asked(alloc, asks, &source, &target)??;
    Ok(is_asked(&asking, asks))
}

/// Slot 1 exceeds slot 0 by at most 7.
const BEHIND: Row = (&[(1, 1), (-1, 0)], -7);

const QUERIES: &[Asks] = &[
    // the caller's own slots are forgotten
    Asks {
        source: &[(&[(1, 3), (-1, 0)], 0), (&[(-1, 3)], 5)],
        start: &[(&[(10_000, -1)], 5)],
        ..ASKS
    },
    // the exit value
    Asks {
        source: &[(&[(1, 0)], -3)],
        target: &[BEHIND],
        start: &[(&[(10_000, 1)], -3)],
        end: &[(&[(10_000, -1), (20_000, 1)], -7)],
        ..ASKS
    },
    // a failure, whose target is one of the caller's
    Asks {
        exit: ExitKind::Fail(7),
        source: &[(&[(1, 0)], -3)],
        target: &[BEHIND],
        start: &[
            (&[(10_000, 1)], -3),
            (&[(10_000, -1)], -9_223_372_036_854_775_815),
        ],
        ..ASKS
    },
    // a slot at two places
    Asks {
        args: &[0, 2, 0],
        source: &[(&[(1, 0), (2, 2)], -3)],
        start: &[
            (&[(10_000, 1), (10_001, 2)], -3),
            (&[(10_000, -1), (10_002, 1)], 0),
            (&[(10_000, 1), (10_002, -1)], 0),
        ],
        ..ASKS
    },
    // the result in the slot of the argument
    Asks {
        args: &[1],
        source: &[(&[(1, 1)], -3), (&[(1, 0)], -4)],
        target: &[(&[(1, 1), (-1, 0)], 0)],
        start: &[(&[(10_000, 1)], -3)],
        end: &[(&[(20_000, 1)], -4)],
        ..ASKS
    },
    // two results, exchanged
    Asks {
        args: &[0, 1],
        results: &[1, 0],
        source: &[(&[(1, 0)], -3)],
        target: &[(&[(1, 0)], -2), (&[(-1, 1)], 5)],
        start: &[(&[(10_000, 1)], -3)],
        end: &[(&[(20_001, 1)], -2), (&[(20_000, -1)], 5)],
        ..ASKS
    },
    // no result
    Asks {
        results: &[],
        source: &[(&[(1, 0)], -3)],
        target: &[(&[(1, 0)], -4)],
        start: &[(&[(10_000, 1)], -3), (&[(10_000, 1)], -4)],
        ..ASKS
    },
];

#[test]
fn asks_of_the_callee(rt: HostRuntime) -> Result<(), Fail> {
    for (place, asks) in QUERIES.iter().enumerate() {
        assert!(rt; is_right(rt.alloc(), asks)?, "{place}");
    }
    Ok(())
}

fn is_pair(pair: &Pair, column: u32, upper: &Plain, lower: &Plain) -> bool {
    pair.column == column && is_term(&pair.upper.term, upper) && is_term(&pair.lower.term, lower)
}

/// Whether this is the inexact pair of twice and three times the column 3.
fn tells_of_three(inexact: Option<&Pair>) -> bool {
    match inexact {
        Some(pair) => is_pair(
            pair,
            3,
            &(&[(3, 2), (40_000, -1)], 0),
            &(&[(3, -3), (40_000, 1)], 0),
        ),
        None => false,
    }
}

fn tells_a_pair(alloc: Global) -> Result<bool, Fail> {
    let source = cube_of(alloc, &[(&[(2, 3), (-1, 0)], 0), (&[(1, 0), (-3, 3)], 0)])?;
    let target = cube_of(alloc, &[])?;
    let asking = asked(alloc, &ASKS, &source, &target)??;
    Ok(tells_of_three(asking.inexact.as_ref()))
}

#[test]
fn tells_the_inexact_pair(rt: HostRuntime) -> Result<(), Fail> {
    assert!(rt; tells_a_pair(rt.alloc())?);
    Ok(())
}

/// The kind of a limit that an elimination met.
fn in_elimination(kept: &Kept) -> Option<LimitKind> {
    match &kept.question {
        Question::Eliminate(..) => Some(kept.limit.kind()),
        _ => None,
    }
}

fn limit_of(asking: &Result<Asking, ProjectionError>) -> Option<LimitKind> {
    match asking {
        Err(ProjectionError::Limit(kept)) => in_elimination(kept),
        _ => None,
    }
}

/// The limit of the elimination for a call that passes slot 0.
fn limit_at(alloc: Global, source: &Cube) -> Result<Option<LimitKind>, Fail> {
    let target = cube_of(alloc, &[])?;
    Ok(limit_of(&asked(alloc, &ASKS, source, &target)?))
}

#[test]
fn keeps_a_wide_elimination(rt: HostRuntime) -> Result<(), Fail> {
    let rows: [Row; 2] = [(&[(1 << 40, 3), (-1, 0)], 0), (&[(2, 5), (-3, 3)], 0)];
    let source = cube_of(rt.alloc(), &rows)?;
    assert!(rt; limit_at(rt.alloc(), &source)? == Some(LimitKind::Wide));
    Ok(())
}

/// Adds `each` rows of a multiple of slot 3, each with a slot of its own.
fn push_rows(
    atoms: &mut Atoms,
    alloc: Global,
    multiple: i64,
    first: u32,
    each: u8,
) -> Result<(), LinError> {
    for i in 0..each {
        let slot = first.wrapping_add(u32::from(i));
        let term = term_of(alloc, &(&[(multiple, 3), (1, slot)], 0))?;
        atoms.push(Atom { term })?;
    }
    Ok(())
}

/// Upper and lower rows of slot 3.
fn fan(alloc: Global, each: u8) -> Result<Cube, LinError> {
    let mut atoms = Atoms::new(alloc);
    push_rows(&mut atoms, alloc, 1, 100, each)?;
    push_rows(&mut atoms, alloc, -1, 1000, each)?;
    Ok(Cube { atoms })
}

#[test]
fn keeps_an_elimination_of_many_rows(rt: HostRuntime) -> Result<(), Fail> {
    let source = fan(rt.alloc(), 64)?;
    assert!(rt; limit_at(rt.alloc(), &source)? == Some(LimitKind::Rows));
    Ok(())
}

// Musts

/// Runs with an argument of at most 2 and the next number, which return any number.
const ANY: Says = Says {
    proc: 3,
    exit: ExitKind::Return,
    symbols: 2,
    guard: &[(&[(1, 30_000)], -2)],
    entry: &[(&[(1, 30_000)], 0), (&[(1, 30_000)], 1)],
    inputs: &[],
    outcome: &[(&[(1, 30_001)], 0)],
};

/// The same, which return their arguments.
const SAME: Says = Says {
    outcome: &[(&[(1, 30_000)], 0), (&[(1, 30_000)], 1)],
    ..ANY
};

/// A call that passes slots 0 and 1, by a must, and the preimage of a target.
#[derive(Clone, Copy)]
struct Leads<'a> {
    must: Says<'a>,
    results: &'a [u32],
    target: &'a [Row<'a>],
    rows: &'a [Plain<'a>],
}

/// The first argument is at most 2.
const FIRST: Plain = (&[(0, 1)], -2);

/// The second argument is the next number.
const AT_MOST_NEXT: Plain = (&[(0, -1), (1, 1)], -1);

const AT_LEAST_NEXT: Plain = (&[(0, 1), (1, -1)], 1);

const LEADS: &[Leads] = &[
    Leads {
        must: ANY,
        results: &[2],
        target: &[(&[(1, 2)], -5), (&[(1, 4), (-1, 2)], 0)],
        rows: &[FIRST, AT_MOST_NEXT, AT_LEAST_NEXT, (&[(4, 1)], -5)],
    },
    // a failure, whose target is one of the caller's
    Leads {
        must: Says {
            exit: ExitKind::Fail(7),
            ..ANY
        },
        results: &[2],
        target: &[(&[(1, 2), (3, 10_000)], -5)],
        rows: &[
            FIRST,
            AT_MOST_NEXT,
            AT_LEAST_NEXT,
            (&[(2, 1), (10_000, 3)], -5),
        ],
    },
    // the result in the slot of an argument
    Leads {
        must: ANY,
        results: &[0],
        target: &[(&[(1, 0)], -5), (&[(1, 4), (-1, 0)], 0)],
        rows: &[FIRST, AT_MOST_NEXT, AT_LEAST_NEXT, (&[(4, 1)], -5)],
    },
    // two results, exchanged: the arguments change places
    Leads {
        must: SAME,
        results: &[1, 0],
        target: &[(&[(1, 0)], -3), (&[(-1, 1)], 0)],
        rows: &[
            FIRST,
            AT_MOST_NEXT,
            AT_LEAST_NEXT,
            (&[(0, 1)], -2),
            (&[(0, -1)], 0),
        ],
    },
    // no result
    Leads {
        must: Says {
            outcome: &[],
            ..ANY
        },
        results: &[],
        target: &[(&[(1, 0)], -1)],
        rows: &[FIRST, AT_MOST_NEXT, AT_LEAST_NEXT, (&[(0, 1)], -1)],
    },
];

/// The preimage of a target over a call, by a must.
fn preimage(
    alloc: Global,
    must: &Path,
    results: &[u32],
    target: &Cube,
) -> Result<Result<Pre, ProjectionError>, Fail> {
    let call = call_of(alloc, (1, 2), 3, &[0, 1], results)?;
    Ok(preimage_of(alloc, must, &call, target))
}

fn is_preimage(pre: &Pre, rows: &[Plain]) -> bool {
    are_rows(&pre.cube, rows) && pre.inexact.is_none()
}

fn goes_back(alloc: Global, leads: &Leads) -> Result<bool, Fail> {
    let must = path_of(alloc, &leads.must)?;
    let target = cube_of(alloc, leads.target)?;
    let pre = preimage(alloc, &must, leads.results, &target)??;
    Ok(is_preimage(&pre, leads.rows))
}

#[test]
fn goes_back_over_musts(rt: HostRuntime) -> Result<(), Fail> {
    for (place, leads) in LEADS.iter().enumerate() {
        assert!(rt; goes_back(rt.alloc(), leads)?, "{place}");
    }
    Ok(())
}

/// How many summands the sum of the limit has.
fn summands_of(kept: &Kept) -> Option<usize> {
    match &kept.question {
        Question::Combine(summands, 0) => Some(summands.as_slice().len()),
        _ => None,
    }
}

fn limit_of_sum(pre: &Result<Pre, ProjectionError>) -> Option<usize> {
    match pre {
        Err(ProjectionError::Limit(kept)) => summands_of(kept),
        _ => None,
    }
}

/// The limit where the result comes 2 ^ 40 times into the target.
fn wide_sum(alloc: Global, must: &Says) -> Result<Option<usize>, Fail> {
    let must = path_of(alloc, must)?;
    let target = cube_of(alloc, &[(&[(1 << 40, 2), (1, 0)], 0)])?;
    Ok(limit_of_sum(&preimage(alloc, &must, &[2], &target)?))
}

#[test]
fn keeps_a_wide_sum(rt: HostRuntime) -> Result<(), Fail> {
    let must = Says {
        outcome: &[(&[(1, 30_000)], 0)],
        ..ANY
    };
    assert!(rt; wide_sum(rt.alloc(), &must)? == Some(3));
    Ok(())
}
