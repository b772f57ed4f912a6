//! Several workers at one board, whose calls come in an order that the test says.

ghost use Rattle.std.specs.Prelude.{OnOk};
ghost use Rattle.board_tests.specs.Plays.{IsPlay};

use crate::play::{Back, How, Play, Took};
use crate::programs::THREE_DEEP;
use query_tree::Status;
use std::alloc::Global;
use std::test::Fail;

/// A call of a board, or a look at a query.
#[derive(Clone, Copy)]
enum Call {
    /// The worker takes, and makes a slice of at most this many steps.
    Take(u32, u32),
    HandIn(u32),
    /// The job is gone, and what it closed with is published twice.
    Late(u32),
    /// The job is given back, the query is taken again, and the step of that is reported as if it
    /// were of the first take.
    Again(u32),
    Look(u32),
}

/// What a call answers.
#[derive(Clone, Copy, PartialEq, Eq)]
enum Seen {
    Took(Took),
    Back(Back),
    /// And how many summaries there are before, between and after, and what the new one says.
    Late(Back, [usize; 3], Option<How>),
    Again([Back; 2]),
    /// The status of the query, and what is left of it.
    Query(Status, u32),
    NoQuery,
}

fn look(play: &Play, id: u32) -> Seen {
    let forest = play.board.forest();
    if id >= forest.count() {
        return Seen::NoQuery;
    }
    Seen::Query(forest.status(id), forest.left(id))
}

fn made(alloc: Global, play: &mut Play, call: Call) -> Result<Seen, Fail>
    requires { IsPlay play.old.board play.old.asserts play.old.known play.old.jobs.items }
    ensures { OnOk result
        (IsPlay play.new.board play.new.asserts play.new.known play.new.jobs.items) }
{
    match call {
        Call::Take(worker, at_most) => Ok(Seen::Took(play.take(alloc, worker, at_most)?)),
        Call::HandIn(worker) => Ok(Seen::Back(play.hand_in(worker))),
        Call::Late(worker) => {
            let (back, summaries, kind) = play.hand_in_late(worker)?;
            Ok(Seen::Late(back, summaries, kind))
        }
        Call::Again(worker) => Ok(Seen::Again(play.report_again(alloc, worker)?)),
        Call::Look(id) => Ok(look(play, id)),
    }
}

/// The place of the first call that is answered otherwise.
fn other_answer(
    alloc: Global,
    text: &str,
    budget: u32,
    rows: &[(Call, Seen)],
) -> Result<Option<usize>, Fail> {
    let mut play = Play::begin(alloc, text, budget)?;
    for place in 0..rows.len() {
        let (call, wanted) = rows[place];
        let seen = made(alloc, &mut play, call)?;
        if seen != wanted {
            return Ok(Some(place));
        }
    }
    Ok(None)
}

// Rows

const MOST: u32 = u32::MAX;

const DONE: Seen = Seen::Back(Back::Done);

const OVER: Seen = Seen::Took(Took::Over);

const fn job(id: u32, left: u32, steps: u32, how: How) -> Seen {
    Seen::Took(Took::Job {
        id,
        left,
        steps,
        how,
    })
}

const fn gone(event: u64) -> Seen {
    Seen::Back(Back::Gone(event))
}

/// A way to the failure through two calls, and one without a call.
const TWO_WAYS: &str = "int h(int a) { return a; } int g(int a) { return h(a); } \
     int main() { int c = input(); int y = 0; \
     if (c < 50) { y = g(c); y = y + 1; y = y + 1; y = y - 2; } else { y = 3; } \
     assert(y != 3); return 0; }";

/// The same through one call.
const SHORTER: &str = "int g(int a) { return a; } int main() { int c = input(); int y = 0; \
     if (c < 50) { y = g(c); y = y + 1; y = y + 1; y = y - 2; } else { y = 3; } \
     assert(y != 3); return 0; }";

/// The way without a call is the longer one.
const LONGER: &str = "int g(int a) { return a; } int main() { int c = input(); int y = 0; \
     if (c < 50) { y = g(c); } else { y = 3; y = y + 1; y = y - 1; } \
     assert(y != 3); return 0; }";

// Jobs that come late

/// The parent closes, as event 4, while its child is out, and gets what is left of it.
#[test]
fn a_job_of_a_dropped_child_is_gone(rt: HostRuntime) -> Result<(), Fail> {
    let rows = &[
        (Call::Take(0, MOST), job(0, 2000, 7, How::Ask)),
        (Call::HandIn(0), DONE),
        (Call::Take(1, 1), job(1, 996, 1, How::Ready)),
        (Call::Take(2, MOST), job(0, 997, 3, How::Must)),
        (Call::HandIn(2), DONE),
        (Call::HandIn(1), gone(4)),
        (Call::Look(0), Seen::Query(Status::Closed, 1990)),
        (Call::Look(1), Seen::Query(Status::Dropped { stamp: 4 }, 0)),
        (Call::Take(0, 1), OVER),
    ];
    let other = other_answer(rt.alloc(), TWO_WAYS, 2000, rows)?;
    assert!(rt; other.is_none(), "{other:?}");
    Ok(())
}

/// The dropped child had closed without a run, which is published once.
#[test]
fn what_a_gone_job_found_is_published_once(rt: HostRuntime) -> Result<(), Fail> {
    let rows = &[
        (Call::Take(0, MOST), job(0, 2000, 7, How::Ask)),
        (Call::HandIn(0), DONE),
        (Call::Take(1, MOST), job(1, 996, 0, How::NotMay)),
        (Call::Take(2, MOST), job(0, 997, 3, How::Must)),
        (Call::HandIn(2), DONE),
        (
            Call::Late(1),
            Seen::Late(Back::Gone(4), [1, 2, 2], Some(How::NotMay)),
        ),
        (Call::Look(1), Seen::Query(Status::Dropped { stamp: 4 }, 0)),
        (Call::Take(0, 1), OVER),
    ];
    let other = other_answer(rt.alloc(), SHORTER, 2000, rows)?;
    assert!(rt; other.is_none(), "{other:?}");
    Ok(())
}

/// The second child, asked where the first had no run, closes with a path while its parent fails on
/// the other way. Its must goes after the parent's, once.
#[test]
fn a_path_of_a_gone_job_is_published_once(rt: HostRuntime) -> Result<(), Fail> {
    let rows = &[
        (Call::Take(0, MOST), job(0, 2000, 7, How::Ask)),
        (Call::HandIn(0), DONE),
        (Call::Take(1, MOST), job(1, 996, 0, How::NotMay)),
        (Call::HandIn(1), DONE),
        (Call::Take(0, MOST), job(0, 1993, 2, How::Ask)),
        (Call::HandIn(0), DONE),
        (Call::Take(1, MOST), job(2, 995, 3, How::Must)),
        (Call::Take(2, MOST), job(0, 996, 7, How::Must)),
        (Call::HandIn(2), DONE),
        (Call::Look(0), Seen::Query(Status::Closed, 1984)),
        (
            Call::Late(1),
            Seen::Late(Back::Gone(8), [2, 3, 3], Some(How::Must)),
        ),
        (Call::Look(2), Seen::Query(Status::Dropped { stamp: 8 }, 0)),
        (Call::Take(0, 1), OVER),
    ];
    let other = other_answer(rt.alloc(), LONGER, 2000, rows)?;
    assert!(rt; other.is_none(), "{other:?}");
    Ok(())
}

/// The query was parked, as event 1, and is taken again: the answer names that Park, and the second
/// job is still given back as what it is.
#[test]
fn a_job_that_was_given_back_is_gone(rt: HostRuntime) -> Result<(), Fail> {
    let rows = &[
        (Call::Take(0, 1), job(0, 2000, 1, How::Ready)),
        (Call::Again(0), Seen::Again([Back::Done, Back::Gone(1)])),
        (Call::Look(0), Seen::Query(Status::Running, 1999)),
        (Call::HandIn(0), DONE),
        (Call::Look(0), Seen::Query(Status::Ready, 1998)),
        (Call::Take(1, 1), job(0, 1998, 1, How::Ready)),
    ];
    let other = other_answer(rt.alloc(), THREE_DEEP, 2000, rows)?;
    assert!(rt; other.is_none(), "{other:?}");
    Ok(())
}

/// The child is out, waits and is taken again while its parent is at work.
#[test]
fn a_parent_and_its_child_work_at_once(rt: HostRuntime) -> Result<(), Fail> {
    let rows = &[
        (Call::Take(0, MOST), job(0, 2000, 7, How::Ask)),
        (Call::Take(1, MOST), Seen::Took(Took::Idle)),
        (Call::HandIn(0), DONE),
        (Call::Take(0, 1), job(1, 996, 1, How::Ready)),
        (Call::Take(1, 1), job(0, 997, 1, How::Ready)),
        (Call::HandIn(0), DONE),
        (Call::HandIn(1), DONE),
        (Call::HandIn(1), Seen::Back(Back::None)),
        (Call::Look(0), Seen::Query(Status::Ready, 996)),
        (Call::Look(1), Seen::Query(Status::Ready, 995)),
        (Call::Look(2), Seen::NoQuery),
    ];
    let other = other_answer(rt.alloc(), TWO_WAYS, 2000, rows)?;
    assert!(rt; other.is_none(), "{other:?}");
    Ok(())
}

// Children for which nothing is left

/// Nothing is left of the child, and by the Feed nothing of its parent.
#[test]
fn a_starved_child_is_fed_nothing(rt: HostRuntime) -> Result<(), Fail> {
    let rows = &[
        (Call::Take(0, MOST), job(0, 8, 7, How::Ask)),
        (Call::HandIn(0), DONE),
        (Call::Look(0), Seen::Query(Status::Ready, 1)),
        (Call::Look(1), Seen::Query(Status::Starved, 0)),
        (Call::Take(0, MOST), job(0, 1, 1, How::Feed(0))),
        (Call::HandIn(0), DONE),
        (Call::Look(0), Seen::Query(Status::Starved, 0)),
        (Call::Look(1), Seen::Query(Status::Starved, 0)),
        (Call::Take(0, MOST), OVER),
    ];
    let other = other_answer(rt.alloc(), THREE_DEEP, 8, rows)?;
    assert!(rt; other.is_none(), "{other:?}");
    Ok(())
}

/// The child makes the steps that it was fed, and then its parent has none.
#[test]
fn a_starved_child_is_fed_a_step(rt: HostRuntime) -> Result<(), Fail> {
    let rows = &[
        (Call::Take(0, MOST), job(0, 12, 7, How::Ask)),
        (Call::HandIn(0), DONE),
        (Call::Take(0, MOST), job(1, 2, 2, How::Starved)),
        (Call::HandIn(0), DONE),
        (Call::Take(0, MOST), job(0, 3, 1, How::Feed(0))),
        (Call::HandIn(0), DONE),
        (Call::Look(0), Seen::Query(Status::Ready, 1)),
        (Call::Look(1), Seen::Query(Status::Ready, 1)),
        (Call::Take(0, MOST), job(1, 1, 1, How::Ask)),
        (Call::HandIn(0), DONE),
        (Call::Take(0, MOST), job(0, 1, 1, How::Feed(0))),
        (Call::HandIn(0), DONE),
        (Call::Take(0, MOST), OVER),
    ];
    let other = other_answer(rt.alloc(), THREE_DEEP, 12, rows)?;
    assert!(rt; other.is_none(), "{other:?}");
    Ok(())
}
