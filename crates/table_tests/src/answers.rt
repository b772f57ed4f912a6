//! What tables of two summaries answer.

use crate::made::{must, not_may, table_of};
use linear_formula::question::Question;
use shadow_elim::limit::Limit;
use std::alloc::Global;
use std::test::Fail;
use summary_form::query::ExitKind;
use summary_table::{Answer, AnswerProof, Table};
use test_forms::queries::query_of;
use test_forms::rows::Row;

/// The certificates of a not-may, the values of a must, none, or the summands of a wide sum.
#[derive(Clone, Copy, PartialEq, Eq)]
enum Seen {
    Entailed { place: u32, certificates: usize },
    Met { place: u32, column: u32, value: i64 },
    Nothing,
    Wide { summands: usize },
    Other,
}

fn seen_proof(place: u32, proof: &AnswerProof) -> Seen {
    match proof {
        AnswerProof::Entailed(certificates) => Seen::Entailed {
            place,
            certificates: certificates.as_slice().len(),
        },
        AnswerProof::Met(at) => match at.values.as_slice() {
            [(column, value)] => Seen::Met {
                place,
                column: *column,
                value: *value,
            },
            _ => Seen::Other,
        },
    }
}

fn seen_in(answer: &Answer) -> Seen {
    match answer {
        Answer::Yes { place, proof } => seen_proof(*place, proof),
        Answer::None => Seen::Nothing,
        Answer::Limit(kept) => match (&kept.question, &kept.limit) {
            (Question::Combine(summands, 0), Limit::Wide { .. }) => Seen::Wide {
                summands: summands.as_slice().len(),
            },
            _ => Seen::Other,
        },
    }
}

/// Which summaries the table has, in this order.
#[derive(Clone, Copy)]
enum Holds {
    NotMayAndMust,
    MustAndNotMay,
    TwoNotMays,
}

/// A table of two summaries.
fn table_with(alloc: Global, holds: Holds) -> Result<Table, Fail> {
    let first = match holds {
        Holds::MustAndNotMay => must(alloc)?,
        _ => not_may(alloc)?,
    };
    let second = match holds {
        Holds::NotMayAndMust => must(alloc)?,
        _ => not_may(alloc)?,
    };
    Ok(table_of(alloc, first, second)?)
}

/// A query of a procedure, and what the table answers.
#[derive(Clone, Copy)]
struct Case<'a> {
    holds: Holds,
    proc: u32,
    exit: ExitKind,
    start: &'a [Row<'a>],
    end: &'a [Row<'a>],
    seen: Seen,
}

const ASKED: Case = Case {
    holds: Holds::NotMayAndMust,
    proc: 3,
    exit: ExitKind::Return,
    start: &[],
    end: &[],
    seen: Seen::Nothing,
};

/// The argument is at most 3, or at least 8.
const LOW: Row = (&[(1, 10_000)], -3);

const HIGH: Row = (&[(-1, 10_000)], 8);

/// 2 ^ 21 times what is returned is at most 0.
const WIDE: Row = (&[(2_097_152, 20_000)], 0);

const CASES: &[Case] = &[
    // the not-may
    Case {
        start: &[LOW],
        end: &[(&[(1, 20_000)], -1)],
        seen: Seen::Entailed {
            place: 0,
            certificates: 2,
        },
        ..ASKED
    },
    // the must
    Case {
        start: &[HIGH],
        end: &[(&[(1, 20_000)], -8_388_609)],
        seen: Seen::Met {
            place: 1,
            column: 30_000,
            value: 8,
        },
        ..ASKED
    },
    // neither
    Case {
        start: &[HIGH],
        end: &[(&[(1, 20_000)], -8_388_608)],
        ..ASKED
    },
    // outside of the must's guard
    Case {
        start: &[(&[(-1, 10_000)], 10)],
        ..ASKED
    },
    Case { proc: 4, ..ASKED },
    Case {
        exit: ExitKind::Fail(1),
        start: &[LOW],
        ..ASKED
    },
    Case {
        start: &[HIGH],
        end: &[WIDE],
        seen: Seen::Wide { summands: 2 },
        ..ASKED
    },
    // a later answer passes a limit
    Case {
        holds: Holds::MustAndNotMay,
        start: &[LOW],
        end: &[WIDE],
        seen: Seen::Entailed {
            place: 1,
            certificates: 2,
        },
        ..ASKED
    },
    // both not-mays answer
    Case {
        holds: Holds::TwoNotMays,
        start: &[LOW],
        end: &[(&[(1, 20_000)], -1)],
        seen: Seen::Entailed {
            place: 0,
            certificates: 2,
        },
        ..ASKED
    },
];

/// What the table answers to the query.
fn answered(alloc: Global, table: &Table, case: &Case) -> Result<Seen, Fail> {
    let query = query_of(alloc, case.proc, case.exit, case.start, case.end)?;
    Ok(seen_in(&table.answer(alloc, &query)?))
}

fn told(alloc: Global, case: &Case) -> Result<Seen, Fail> {
    let table = table_with(alloc, case.holds)?;
    answered(alloc, &table, case)
}

#[test]
fn a_summary_answers_or_not(rt: HostRuntime) -> Result<(), Fail> {
    for (place, case) in CASES.iter().enumerate() {
        assert!(rt; told(rt.alloc(), case)? == case.seen, "{place}");
    }
    Ok(())
}

/// An empty table, and then the same with a not-may of the very query.
#[test]
fn a_not_may_answers_its_own_query(rt: HostRuntime) -> Result<(), Fail> {
    let first = own_answer(rt.alloc(), false)?;
    let second = own_answer(rt.alloc(), true)?;
    let wanted = Seen::Entailed {
        place: 0,
        certificates: 2,
    };
    assert!(rt; first == Seen::Nothing && second == wanted);
    Ok(())
}

/// A table with room for one summary, which has the not-may where it is to.
fn table_of_own(alloc: Global, has: bool) -> Result<Table, Fail> {
    let mut table = Table::with_room(alloc, 1)?;
    if has {
        table.push(not_may(alloc)?);
    }
    Ok(table)
}

/// What is answered to the query of the not-may.
fn own_answer(alloc: Global, has: bool) -> Result<Seen, Fail> {
    let table = table_of_own(alloc, has)?;
    let case = Case {
        start: &[(&[(1, 10_000)], -5)],
        end: &[(&[(1, 20_000)], -2)],
        ..ASKED
    };
    answered(alloc, &table, &case)
}
