//! Boards that are stopped after each number of calls.

ghost use Rattle.std.specs.Prelude.{OnOk};
ghost use Rattle.board_tests.specs.Plays.{IsPlay};

use crate::play::{Back, Play, Took};
use crate::programs::THREE_DEEP;
use std::alloc::Global;
use std::process::Abort;
use std::test::*;

/// How many workers there are.
#[derive(Clone, Copy)]
pub enum Crew {
    One,
    Two,
}

/// The budgets of the boards.
const BUDGETS: &[u32] = &[1, 2, 3, 4, 5, 6, 7, 8, 9, 10, 11, 12, 2000];

/// No board of these budgets makes as many calls.
const MOST: u32 = 200;

/// What a stop after some calls finds. A job was sliced before.
#[derive(Clone, Copy)]
struct Stopped {
    was_over: bool,
    /// Whether the first worker had a job, and whether the second had one.
    had: [bool; 2],
    took: Took,
    /// What became of their jobs after the stop.
    back: [Back; 2],
}

/// The call of this number: each worker takes, and then each gives his job back.
pub fn call(alloc: Global, play: &mut Play, crew: Crew, number: u32) -> Result<(), Fail>
    requires { IsPlay play.old.board play.old.asserts play.old.known play.old.jobs.items }
    ensures { OnOk result
        (IsPlay play.new.board play.new.asserts play.new.known play.new.jobs.items) }
{
    let turn = match crew {
        Crew::One => 2 * (number % 2),
        Crew::Two => number % 4,
    };
    if turn < 2 {
        play.take(alloc, turn, u32::MAX)?;
    } else {
        play.hand_in(turn - 2);
    }
    Ok(())
}

/// Whether the first worker has a job after `count` calls of a board that wasn't over before them.
fn has_first(crew: Crew, count: u32) -> bool {
    match crew {
        Crew::One => count % 2 == 1,
        Crew::Two => count % 4 == 1 || count % 4 == 2,
    }
}

fn has_job(play: &Play, worker: usize) -> bool {
    match play.jobs.get(worker) {
        Some(job) => job.is_some(),
        None => false,
    }
}

/// Stops the board, takes, and gives each job back by the call that fits the end of its slice.
fn stop(alloc: Global, play: &mut Play) -> Result<Stopped, Fail>
    requires { IsPlay play.old.board play.old.asserts play.old.known play.old.jobs.items }
{
    let was_over = play.board.over();
    let had = [has_job(play, 0), has_job(play, 1)];
    play.stop(2);
    let took = play.take(alloc, 2, 1)?;
    let back = [play.hand_in(0), play.hand_in(1)];
    Ok(Stopped {
        was_over,
        had,
        took,
        back,
    })
}

/// After `count` calls the board is stopped.
fn stopped_after(alloc: Global, crew: Crew, budget: u32, count: u32) -> Result<Stopped, Fail> {
    let mut play = Play::begin(alloc, THREE_DEEP, budget)?;
    for number in 0..count {
        call(alloc, &mut play, crew, number)?;
    }
    stop(alloc, &mut play)
}

/// Whether the job of a worker who had one is taken back, and there was none of one who had none.
fn is_back(had: bool, back: Back) -> bool {
    match back {
        Back::Done => had,
        Back::None => !had,
        Back::Gone(_) => false,
    }
}

/// Whether nothing is taken, and each job that is out is taken back.
fn is_right(crew: Crew, count: u32, stopped: &Stopped) -> bool {
    let [first, second] = stopped.back;
    stopped.took == Took::Over
        && stopped.had[0] == has_first(crew, count)
        && is_back(stopped.had[0], first)
        && is_back(stopped.had[1], second)
}

/// The first number of calls, up to that with which the board is over, after which a stop finds
/// something else than is wanted.
fn first_wrong(alloc: Global, crew: Crew, budget: u32) -> Result<Option<u32>, Fail> {
    for count in 0..MOST {
        let stopped = stopped_after(alloc, crew, budget, count)?;
        if !is_right(crew, count, &stopped) {
            return Ok(Some(count));
        }
        if stopped.was_over {
            return Ok(None);
        }
    }
    Ok(Some(MOST))
}

/// Boards of each of the budgets, stopped after each number of calls.
fn are_stopped(rt: &impl Abort, alloc: Global, crew: Crew) -> Result<(), Fail> {
    for &budget in BUDGETS {
        let wrong = first_wrong(alloc, crew, budget)?;
        assert_eq!(rt; wrong, None, "so many calls, with the budget {budget}");
    }
    Ok(())
}

#[test]
fn a_stopped_board_takes_jobs_back(rt: HostRuntime) -> Result<(), Fail> {
    are_stopped(&rt, rt.alloc(), Crew::One)
}

#[test]
fn it_does_so_of_two_workers(rt: HostRuntime) -> Result<(), Fail> {
    are_stopped(&rt, rt.alloc(), Crew::Two)
}
