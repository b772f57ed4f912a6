//! Boards that begin with what another board of the program learned.

ghost use Rattle.std.specs.Prelude.{◌≡◌, ◌<◌, ℕ, IfOk, IsTrue, map};
ghost use Rattle.summary_form.specs.declared.query.ExitKind.{ExitKind as AnExit};
ghost use Rattle.bolt_core.specs.Boards.{IsOneOf};
ghost use Rattle.bolt_core.specs.Machine.{AllOf};
ghost use Rattle.board_tests.specs.Plays.{IsOpened};

use crate::ends::{DESCENDS, End, Says, WIDE, brought, verdict_of};
use crate::play::{Back, Play, Took};
use crate::programs::{THREE_DEEP, board_of};
use crate::stops::{Crew, call};
use bolt_core::board::Board;
use bolt_rounds::alone::alone;
use shadow_elim::limit::LimitKind;
use std::alloc::{AllocError, Global};
use std::sync::Arc;
use std::test::Fail;
use summary_form::query::ExitKind;
use summary_form::summary::Summary;
use test_programs::program::program_of;

/// The summaries of a board.
fn summaries_of(alloc: Global, board: &Board) -> Result<Vec<Arc<Summary>>, AllocError>
    ensures { IfOk result (λ v. map (λ a. a.value) v.items ≡ board.now.core.table) }
{
    let mut summaries = Vec::new(alloc);
    for summary in board.table().all() {
        summaries.push(summary.clone()?)?;
    }
    Ok(summaries)
}

/// Whether the exit is a return, or the failure of one of `asserts` assertions.
fn is_exit(asserts: u32, exit: ExitKind) -> bool
    ensures { IsTrue result → (id : ℕ) → exit ≡ AnExit.Fail id → id < asserts }
{
    match exit {
        ExitKind::Return => true,
        ExitKind::Fail(id) => id < asserts,
    }
}

/// Whether the summary is of one of `procedures` procedures, and its failure of one of
/// `asserts` assertions.
fn is_one_of(procedures: usize, asserts: u32, summary: &Summary) -> bool
    ensures { IsTrue result → IsOneOf procedures asserts summary.now }
{
    match summary {
        Summary::NotMay(query) => {
            (query.proc as usize) < procedures && is_exit(asserts, query.exit)
        }
        Summary::Must(path) => (path.proc as usize) < procedures && is_exit(asserts, path.exit),
    }
}

/// Whether each is.
fn are_of(procedures: usize, asserts: u32, summaries: &[Arc<Summary>]) -> bool
    ensures { IsTrue result → AllOf (IsOneOf procedures asserts)
        (map (λ a. a.value) summaries.now) }
{
    for summary in summaries {
        if !is_one_of(procedures, asserts, summary) {
            return false;
        }
    }
    true
}

/// A board of the same graphs, which begins with what this one knows.
fn begun_again(
    alloc: Global,
    board: &Board,
    main: u32,
    asserts: u32,
    budget: u32,
) -> Result<Board, Fail>
    ensures { IfOk result (λ b. IsOpened b asserts) }
{
    board.reached();
    let graphs = board.graphs().clone()?;
    let procedures = graphs.graphs.as_slice().len();
    if main as usize >= procedures {
        return Err(Fail::new("no main"));
    }
    let kept = summaries_of(alloc, board)?;
    if procedures > 64 || !are_of(procedures, asserts, &kept) {
        return Err(Fail::new("of another program"));
    }
    if asserts > 64 || budget == 0 || budget > 20_000 || kept.len() > 2_000_000 {
        return Err(Fail::new("past a limit"));
    }
    Ok(Board::begin_with(alloc, graphs, main, asserts, budget, kept)?)
}

/// The budget of the board that learns something, and that of the one that begins with it.
#[derive(Clone, Copy)]
struct Budgets {
    first: u32,
    second: u32,
}

/// The second of two boards of a program, and its assertions.
fn informed(alloc: Global, text: &str, budgets: Budgets) -> Result<(Board, u32), Fail>
    ensures { IfOk result (λ r. IsOpened r.0 r.1) }
{
    let main = program_of(alloc, text.as_bytes())?.main;
    let (first, asserts) = board_of(alloc, text, budgets.first)?;
    let first = alone(alloc, first)?;
    let second = begun_again(alloc, &first, main, asserts, budgets.second)?;
    Ok((second, asserts))
}

/// How the second board ends.
fn end_of(alloc: Global, text: &str, budgets: Budgets) -> Result<End, Fail> {
    let (board, asserts) = informed(alloc, text, budgets)?;
    let board = alone(alloc, board)?;
    let says = verdict_of(alloc, &board, asserts, 0)?;
    let queries = board.forest().count();
    Ok((says, queries, brought(alloc, &board)?, board.room()))
}

/// The same budget for both boards.
fn twice(budget: u32) -> Budgets {
    Budgets {
        first: budget,
        second: budget,
    }
}

/// What is kept answers each call of `main`, so that nothing is asked: musts three calls deep, and
/// a not-may of a procedure that calls itself. Of a limit nothing is kept.
const TEXTS: &[&str] = &[THREE_DEEP, DESCENDS, WIDE];

fn all_ends(alloc: Global) -> Result<[End; 3], Fail> {
    let mut ends = [(Says::Proved, 0, 0, 0); 3];
    for place in 0..3 {
        ends[place] = end_of(alloc, TEXTS[place], twice(2000))?;
    }
    Ok(ends)
}

#[test]
fn what_is_kept_answers_at_once(rt: HostRuntime) -> Result<(), Fail> {
    let wanted = [
        (Says::Found(2, Some(2), Some(40)), 1, 5, 2005),
        (Says::Proved, 1, 6, 2006),
        (Says::Limit(LimitKind::Wide), 2, 0, 2001),
    ];
    assert!(rt; all_ends(rt.alloc())? == wanted);
    Ok(())
}

/// A board that knows the failure is stopped after `count` calls.
fn stopped_after(
    alloc: Global,
    crew: Crew,
    budget: u32,
    count: u32,
) -> Result<(Took, Back, Back), Fail> {
    let budgets = Budgets {
        first: 2000,
        second: budget,
    };
    let (board, asserts) = informed(alloc, THREE_DEEP, budgets)?;
    let mut play = Play::at(alloc, board, asserts)?;
    for number in 0..count {
        call(alloc, &mut play, crew, number)?;
    }
    play.stop(2);
    let took = play.take(alloc, 2, 1)?;
    Ok((took, play.hand_in(0), play.hand_in(1)))
}

/// How many jobs are given back to stopped boards, and how many are gone.
#[derive(Clone, Copy, PartialEq, Eq)]
struct Tally {
    done: u32,
    gone: u32,
    /// Takes of a stopped board that aren't answered with `Over`.
    taken: u32,
}

/// `done` jobs are given back, and nothing else.
const fn back(done: u32) -> Tally {
    Tally {
        done,
        gone: 0,
        taken: 0,
    }
}

fn counted(tally: Tally, back: Back) -> Tally {
    match back {
        Back::Done => Tally {
            done: tally.done.wrapping_add(1),
            ..tally
        },
        Back::Gone(_) => Tally {
            gone: tally.gone.wrapping_add(1),
            ..tally
        },
        Back::None => tally,
    }
}

/// What becomes of the jobs at a stop after each number of calls.
fn stops(alloc: Global, crew: Crew, budget: u32) -> Result<Tally, Fail> {
    let mut tally = back(0);
    for count in 0..8 {
        let (took, first, second) = stopped_after(alloc, crew, budget, count)?;
        if took != Took::Over {
            tally.taken = tally.taken.wrapping_add(1);
        }
        tally = counted(counted(tally, first), second);
    }
    Ok(tally)
}

/// One worker and two, with budgets that suffice and that don't.
fn all_stops(alloc: Global) -> Result<[Tally; 4], Fail> {
    let mut all = [back(0); 4];
    for place in 0..4 {
        let crew = if place < 2 { Crew::One } else { Crew::Two };
        let budget = if place % 2 == 0 { 2000 } else { 5 };
        all[place] = stops(alloc, crew, budget)?;
    }
    Ok(all)
}

#[test]
fn boards_with_what_is_kept_are_stopped(rt: HostRuntime) -> Result<(), Fail> {
    let wanted = [back(1), back(1), back(2), back(2)];
    assert!(rt; all_stops(rt.alloc())? == wanted);
    Ok(())
}
