//! Boards at their beginning.

use crate::play::{How, Play, Took};
use crate::programs::{NO_ASSERTION, ONE_INPUT};
use std::alloc::Global;
use std::test::Fail;

/// Two takes.
fn two_takes(alloc: Global) -> Result<(Took, Took), Fail> {
    let mut play = Play::begin(alloc, ONE_INPUT, 2000)?;
    let first = play.take(alloc, 0, 1)?;
    let second = play.take(alloc, 1, 1)?;
    Ok((first, second))
}

#[test]
fn one_query_is_taken_once(rt: HostRuntime) -> Result<(), Fail> {
    let job = Took::Job {
        id: 0,
        left: 2000,
        steps: 1,
        how: How::Ready,
    };
    assert!(rt; two_takes(rt.alloc())? == (job, Took::Idle));
    Ok(())
}

/// A stop and then a take; whether the board is over and whether it is stopped, before and after.
type Stopped = ([bool; 2], Took, [bool; 2]);

fn stopped(alloc: Global, text: &str) -> Result<Stopped, Fail> {
    let mut play = Play::begin(alloc, text, 2000)?;
    let before = [play.board.over(), play.board.stopped()];
    play.stop(0);
    let took = play.take(alloc, 0, 1)?;
    Ok((before, took, [play.board.over(), play.board.stopped()]))
}

#[test]
fn nothing_is_taken_of_a_stopped_board(rt: HostRuntime) -> Result<(), Fail> {
    let wanted = ([false, false], Took::Over, [false, true]);
    assert!(rt; stopped(rt.alloc(), ONE_INPUT)? == wanted);
    Ok(())
}

#[test]
fn a_board_without_roots_is_over(rt: HostRuntime) -> Result<(), Fail> {
    let wanted = ([true, false], Took::Over, [true, false]);
    assert!(rt; stopped(rt.alloc(), NO_ASSERTION)? == wanted);
    Ok(())
}
