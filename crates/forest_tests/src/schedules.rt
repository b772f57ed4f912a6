//! Lists of moves from one beginning, with answers and outcomes that were worked out by hand.

use crate::cases::{
    ANY, ASKED, ASKS, BOTH_TAKEN, CLOSES, Case, DROPS, FEEDS, GIVEN_BACK, GONE, LATE, TAKES,
    WAKINGS, Want,
};
use crate::play::{Answer, Move, Play};
use std::alloc::Global;
use std::process::Abort;
use std::test::*;

/// Whether a number is the one that is wanted, or any is.
fn is_number(number: u32, wanted: u32) -> bool {
    wanted == ANY || number == wanted
}

/// What is not as it is wanted: the answer of the move at a place, or the query of a number.
#[derive(Clone, Copy, Debug, PartialEq, Eq)]
enum Fault {
    Answer(usize),
    Query(u32),
}

fn is_wanted(answer: Answer, wanted: Answer) -> bool {
    match (answer, wanted) {
        (
            Answer::Took { id, left },
            Answer::Took {
                id: wanted_id,
                left: wanted_left,
            },
        ) => is_number(id, wanted_id) && is_number(left, wanted_left),
        _ => answer == wanted,
    }
}

/// Makes each move, and says at which place an answer is not the one that is wanted.
fn first_wrong(play: &mut Play, moves: &[(Move, Answer)]) -> Option<usize> {
    for place in 0..moves.len() {
        let (step, wanted) = moves[place];
        if !is_wanted(play.make(step), wanted) {
            return Some(place);
        }
    }
    None
}

fn is_as_wanted(play: &Play, id: u32, wanted: Want) -> bool {
    let (status, left, spent) = wanted;
    id < play.forest.count()
        && play.forest.status(id) == status
        && play.forest.left(id) == left
        && play.forest.spent(id) == spent
}

/// The first query that is not as it is wanted, or the number that the next one would have where
/// there are more than are wanted.
fn first_other(play: &Play, wanted: &[Want]) -> Option<u32> {
    let mut id: u32 = 0;
    for want in wanted {
        if !is_as_wanted(play, id, *want) {
            return Some(id);
        }
        id = id.wrapping_add(1);
    }
    if id == play.forest.count() {
        None
    } else {
        Some(id)
    }
}

/// Makes the moves, and compares each answer and what the queries are then.
fn fault_of(play: &mut Play, case: &Case) -> Option<Fault> {
    if let Some(place) = first_wrong(play, case.moves) {
        return Some(Fault::Answer(place));
    }
    first_other(play, case.wanted).map(Fault::Query)
}

/// Makes the beginning and then the moves of the case, in a forest with room for 8.
fn play_out(alloc: Global, case: &Case) -> Result<[Option<Fault>; 3], Fail> {
    let mut play = Play::of(alloc, 8)?;
    let asked = fault_of(&mut play, &ASKED);
    let taken = fault_of(&mut play, &BOTH_TAKEN);
    let fault = fault_of(&mut play, case);
    drop(play);
    Ok([asked, taken, fault])
}

fn check_each(rt: &impl Abort, alloc: Global, cases: &[Case]) -> Result<(), Fail> {
    for case in cases {
        let name = case.name;
        let faults = play_out(alloc, case)?;
        assert_eq!(rt; faults, [None; 3], "{name}");
    }
    Ok(())
}

/// A job that is given back late finds what a close or a child did before: it is gone, or its query
/// is Ready again.
#[test]
fn late_reports(rt: HostRuntime) -> Result<(), Fail> {
    check_each(&rt, rt.alloc(), LATE)
}

/// A job is given back as Ready, as Blocked or as Starved.
#[test]
fn gives_back(rt: HostRuntime) -> Result<(), Fail> {
    check_each(&rt, rt.alloc(), GIVEN_BACK)
}

/// A Blocked parent is Ready once a child closes or becomes Starved, by whichever call, and at once
/// where that came before it was given back.
#[test]
fn wakes(rt: HostRuntime) -> Result<(), Fail> {
    check_each(&rt, rt.alloc(), WAKINGS)
}

/// A take gives a Ready query, and none where there is none.
#[test]
fn takes(rt: HostRuntime) -> Result<(), Fail> {
    check_each(&rt, rt.alloc(), TAKES)
}

/// A child gets half of what is left after the last step, rounded down, and is Starved at 0.
#[test]
fn asks(rt: HostRuntime) -> Result<(), Fail> {
    check_each(&rt, rt.alloc(), ASKS)
}

/// A child that is fed gets half, and is Ready where it was Starved; one that closed gets nothing.
#[test]
fn feeds(rt: HostRuntime) -> Result<(), Fail> {
    check_each(&rt, rt.alloc(), FEEDS)
}

/// What is left goes to the parent, which is Ready where it was Starved and now has something left.
#[test]
fn closes(rt: HostRuntime) -> Result<(), Fail> {
    check_each(&rt, rt.alloc(), CLOSES)
}

/// Each open query under a query that closes is dropped with its stamp, and what closed before
/// stays.
#[test]
fn drops(rt: HostRuntime) -> Result<(), Fail> {
    check_each(&rt, rt.alloc(), DROPS)
}

/// Each of the calls says that a query was dropped, by the stamp of that close, and changes
/// nothing.
#[test]
fn are_gone(rt: HostRuntime) -> Result<(), Fail> {
    check_each(&rt, rt.alloc(), GONE)
}
