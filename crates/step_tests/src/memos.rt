//! Questions that come again, and questions that share a slot.

use linear_formula::joined::JoinedCube;
use linear_formula::question::Question;
use punch_step::memo::Memo;
use punch_step::sight::{Sight, decided};
use shadow_elim::limit::{Kept, LimitKind};
use std::alloc::Global;
use std::test::Fail;
use test_forms::rows::{Row, cube_of};

/// The point's value at column 0, nothing, or a limit.
#[derive(Clone, Copy, PartialEq, Eq)]
enum Seen {
    At(i64),
    Never,
    /// At these rows.
    Limit(LimitKind),
    Other,
}

/// The answer of the rows.
fn asked(alloc: Global, memo: &mut Memo, rows: &[Row]) -> Result<Seen, Fail> {
    match decided(alloc, memo, JoinedCube::of(cube_of(alloc, rows)?))? {
        Sight::Met(at) => Ok(Seen::At(at.value(0))),
        Sight::Never(_) => Ok(Seen::Never),
        Sight::Limit(kept) => seen_limit(alloc, &kept, rows),
    }
}

/// The limit, where it is one of a question of these rows.
fn seen_limit(alloc: Global, kept: &Kept, rows: &[Row]) -> Result<Seen, Fail> {
    match &kept.question {
        Question::Cube(cube) if *cube == cube_of(alloc, rows)? => {
            Ok(Seen::Limit(kept.limit.kind()))
        }
        _ => Ok(Seen::Other),
    }
}

/// The answers of the rows where the same memo is asked twice.
fn asked_twice(alloc: Global, rows: &[Row]) -> Result<[Seen; 2], Fail> {
    let mut memo = Memo::new(alloc)?;
    let first = asked(alloc, &mut memo, rows)?;
    let second = asked(alloc, &mut memo, rows)?;
    Ok([first, second])
}

/// Rows, and their answer each time.
type Case<'a> = (&'a [Row<'a>], Seen);

const CASES: &[Case] = &[
    (&[(&[(1, 0)], -7), (&[(-1, 0)], 7)], Seen::At(7)),
    (&[(&[(2, 0)], -5), (&[(-2, 0)], 5)], Seen::Never),
    (&[(&[(1, 0)], 9), (&[(-1, 0)], -9)], Seen::At(-9)),
    (
        &[(&[(1_099_511_627_776, 0)], 5)],
        Seen::Limit(LimitKind::Wide),
    ),
    (
        &[(&[(1, 0)], 0), (&[(549_755_813_888, 0)], 3)],
        Seen::Limit(LimitKind::Wide),
    ),
];

#[test]
fn a_question_that_comes_again_has_the_same_answer(rt: HostRuntime) -> Result<(), Fail> {
    for (place, (rows, seen)) in CASES.iter().enumerate() {
        assert!(rt; asked_twice(rt.alloc(), rows)? == [*seen; 2], "{place}");
    }
    Ok(())
}

/// Whether column 0 has this value where it is asked for.
fn is_at(alloc: Global, memo: &mut Memo, value: i64) -> Result<bool, Fail> {
    let rows: [Row; 2] = [(&[(1, 0)], value.wrapping_neg()), (&[(-1, 0)], value)];
    Ok(asked(alloc, memo, &rows)? == Seen::At(value))
}

/// How many of `count` questions have answers of their own, where all are asked in order.
fn right_of(alloc: Global, memo: &mut Memo, count: i64) -> Result<i64, Fail> {
    let mut right: i64 = 0;
    for value in 0..count {
        if is_at(alloc, memo, value)? {
            right = right.wrapping_add(1);
        }
    }
    Ok(right)
}

/// Of this number of questions 75 share a slot with another one.
const MANY: i64 = 500;

#[test]
fn questions_that_share_a_slot_have_their_own_answers(rt: HostRuntime) -> Result<(), Fail> {
    let mut memo = Memo::new(rt.alloc())?;
    let first = right_of(rt.alloc(), &mut memo, MANY)?;
    let second = right_of(rt.alloc(), &mut memo, MANY)?;
    assert!(rt; (first, second) == (MANY, MANY));
    Ok(())
}
