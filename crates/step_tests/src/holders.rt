//! Which not-mays, and which levels, answer an asked query.

use crate::made::ONCE;
use crate::tables::add;
use linear_formula::formula::{Atom, Cube};
use linear_formula::question::Question;
use linear_formula::term::{Parts, Term};
use punch_step::entailing::{Holder, level_of, not_may_of};
use shadow_elim::limit::Limit;
use std::alloc::{AllocError, Global};
use std::sync::Arc;
use std::test::Fail;
use summary_form::query::{ExitKind, Query};
use summary_form::summary::Summary;
use summary_table::table::Table;
use test_forms::paths::{Says, path_of};
use test_forms::rows::{Row, cube_of};

/// The place and the certificates, none, or the summands of a wide sum.
#[derive(Clone, Copy, PartialEq, Eq)]
enum Seen {
    At { place: u32, certificates: usize },
    Nothing,
    Wide { summands: usize },
    Other,
}

fn seen_in(holder: &Holder) -> Seen {
    match holder {
        Holder::At { place, proofs } => Seen::At {
            place: *place,
            certificates: proofs.as_slice().len(),
        },
        Holder::None => Seen::Nothing,
        Holder::Limit(kept) => match (&kept.question, &kept.limit) {
            (Question::Combine(summands, 1), Limit::Wide { .. }) => Seen::Wide {
                summands: summands.as_slice().len(),
            },
            _ => Seen::Other,
        },
    }
}

/// Asks for runs with an argument of at most this bound, which return at most 1 or fail.
#[derive(Clone, Copy)]
struct Bound {
    proc: u32,
    exit: ExitKind,
    most: i64,
    /// Whether another row of the start is so wide that it has no negation.
    wide: bool,
}

/// Of procedure 3, at most 1.
const ONE: Bound = Bound {
    proc: 3,
    exit: ExitKind::Return,
    most: 1,
    wide: false,
};

const TWO: Bound = Bound { most: 2, ..ONE };

const THREE: Bound = Bound { most: 3, ..ONE };

const FOUR: Bound = Bound { most: 4, ..ONE };

const FIVE: Bound = Bound { most: 5, ..ONE };

/// Of procedure 3, at most 2, with a row that has no negation.
const WIDE_TWO: Bound = Bound { wide: true, ..TWO };

const WIDE_FIVE: Bound = Bound { wide: true, ..FIVE };

/// Of another procedure.
const ELSEWHERE: Bound = Bound { proc: 4, ..FIVE };

/// Of another exit.
const FAILING: Bound = Bound {
    exit: ExitKind::Fail(1),
    ..FIVE
};

/// Reads: the argument is at most the greatest constant of a term.
fn widest(alloc: Global) -> Result<Atom, AllocError> {
    let parts = vec![in alloc; (10_000, 1)]?;
    let term = Term::new(Parts::from_vec(parts), -19_342_813_113_834_066_795_298_816);
    Ok(Atom { term })
}

fn start_of(alloc: Global, bound: Bound) -> Result<Cube, Fail> {
    let rows: [Row; 1] = [(&[(1, 10_000)], bound.most.wrapping_neg())];
    let start = cube_of(alloc, &rows)?;
    if bound.wide {
        return Ok(start.with(alloc, widest(alloc)?)?);
    }
    Ok(start)
}

fn query_of(alloc: Global, bound: Bound) -> Result<Query, Fail> {
    let end: &[Row] = match bound.exit {
        ExitKind::Return => &[(&[(1, 20_000)], -1)],
        ExitKind::Fail(_) => &[],
    };
    let start = start_of(alloc, bound)?;
    Ok(Query {
        proc: bound.proc,
        exit: bound.exit,
        start,
        end: cube_of(alloc, end)?,
    })
}

// Not-mays

/// A table of not-mays.
fn table_of(alloc: Global, bounds: &[Bound]) -> Result<Table, Fail> {
    let mut table = Table::with_room(alloc, 9)?;
    for bound in bounds {
        let query = query_of(alloc, *bound)?;
        add(&mut table, Arc::new(alloc, Summary::NotMay(query))?)?;
    }
    Ok(table)
}

/// A table of a must and a not-may after it.
fn behind_must(alloc: Global) -> Result<Table, Fail> {
    let must = path_of(alloc, &Says { proc: 3, ..ONCE })?;
    let not_may = query_of(alloc, THREE)?;
    let mut table = Table::with_room(alloc, 2)?;
    add(&mut table, Arc::new(alloc, Summary::Must(must))?)?;
    add(&mut table, Arc::new(alloc, Summary::NotMay(not_may))?)?;
    Ok(table)
}

/// Which not-may of the table answers whether an argument of at most 3 returns at most 1.
fn held_in(alloc: Global, table: &Table) -> Result<Seen, Fail> {
    let asked = query_of(alloc, THREE)?;
    Ok(seen_in(&not_may_of(alloc, &asked, table, 0)?))
}

fn held(alloc: Global, bounds: &[Bound]) -> Result<Seen, Fail> {
    let table = table_of(alloc, bounds)?;
    held_in(alloc, &table)
}

/// The first place, and so on.
const FIRST: Seen = Seen::At {
    place: 0,
    certificates: 2,
};

const SECOND: Seen = Seen::At {
    place: 1,
    certificates: 2,
};

const THIRD: Seen = Seen::At {
    place: 2,
    certificates: 2,
};

const TOO_WIDE: Seen = Seen::Wide { summands: 1 };

/// Not-mays, and the one of them that answers.
const TABLES: &[(&[Bound], Seen)] = &[
    (&[THREE], FIRST),
    (&[TWO, ONE, FIVE], THIRD),
    // none answers
    (&[], Seen::Nothing),
    (&[TWO, ONE], Seen::Nothing),
    // other procedures and exits are passed by
    (&[ELSEWHERE, FAILING], Seen::Nothing),
    (&[ELSEWHERE, FAILING, FIVE], THIRD),
    // a wide negation is kept
    (&[WIDE_FIVE], TOO_WIDE),
    (&[TWO, WIDE_FIVE, ONE], TOO_WIDE),
    // a later not-may, and a row that isn't entailed, pass a limit
    (&[WIDE_FIVE, FIVE], SECOND),
    (&[WIDE_TWO], Seen::Nothing),
];

#[test]
fn a_not_may_answers_or_not(rt: HostRuntime) -> Result<(), Fail> {
    for (place, (bounds, seen)) in TABLES.iter().enumerate() {
        assert!(rt; held(rt.alloc(), bounds)? == *seen, "{place}");
    }
    Ok(())
}

#[test]
fn musts_are_passed_by(rt: HostRuntime) -> Result<(), Fail> {
    let table = behind_must(rt.alloc())?;
    assert!(rt; held_in(rt.alloc(), &table)? == SECOND);
    Ok(())
}

// Levels

fn ancestors_of(alloc: Global, bounds: &[Bound]) -> Result<Vec<Arc<Query>>, Fail> {
    let mut ancestors = Vec::new(alloc);
    for bound in bounds {
        ancestors.push(Arc::new(alloc, query_of(alloc, *bound)?)?)?;
    }
    Ok(ancestors)
}

/// On which level the answer stands to whether an argument of at most 3 returns at most 1.
fn level_in(alloc: Global, ancestors: &[Arc<Query>], own: Bound) -> Result<Seen, Fail> {
    let own = query_of(alloc, own)?;
    let asked = query_of(alloc, THREE)?;
    Ok(seen_in(&level_of(alloc, &asked, ancestors, &own)?))
}

fn level(alloc: Global, ancestors: &[Bound], own: Bound) -> Result<Seen, Fail> {
    let ancestors = ancestors_of(alloc, ancestors)?;
    level_in(alloc, &ancestors, own)
}

/// Ancestors, the own query, and the level that answers.
const LEVELS: &[(&[Bound], Bound, Seen)] = &[
    // an ancestor
    (&[TWO, FOUR], ONE, SECOND),
    // the own query
    (&[], THREE, FIRST),
    (&[TWO, ONE], THREE, THIRD),
    // none answers
    (&[], TWO, Seen::Nothing),
    (&[TWO], ONE, Seen::Nothing),
    // other procedures and exits are passed by
    (&[ELSEWHERE], FAILING, Seen::Nothing),
    (&[ELSEWHERE, FAILING], FOUR, THIRD),
    // a limit is kept, and an answer passes it
    (&[WIDE_FIVE], TWO, TOO_WIDE),
    (&[TWO], WIDE_FIVE, TOO_WIDE),
    (&[WIDE_FIVE], FOUR, SECOND),
];

#[test]
fn a_level_answers_or_not(rt: HostRuntime) -> Result<(), Fail> {
    for (place, (ancestors, own, seen)) in LEVELS.iter().enumerate() {
        assert!(rt; level(rt.alloc(), ancestors, *own)? == *seen, "{place}");
    }
    Ok(())
}
