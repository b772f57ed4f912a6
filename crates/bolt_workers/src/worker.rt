//! One worker: its turns with the board, and what it makes between them.

ghost use Rattle.std.specs.Prelude.{◌≡◌, ◌≤◌, IfErr, IfOk, IfSome, MatchResult, OnOk, Some, false, length, true};
ghost use Rattle.summary_table.specs.Tables.{StartsWith as FrontOf};
ghost use Rattle.board_lock.specs.Views.{StartsWith};
ghost use Rattle.bolt_core.specs.Boards.{Gives, SameProgram};
ghost use Rattle.bolt_rounds.specs.Moves.{IsMade, WasJustTaken};
ghost use Rattle.bolt_workers.specs.steps.Desks.{CanGive, CanShow, CanWork, Frees, HasEnded, Holds, IsBack, IsTold, Sits, program_of};

use crate::desk::{Desk, wake};
use board_lock::{BoardLock, Chronicle};
use bolt_core::board::Board;
use bolt_core::job::{Gone, Job, Taken};
use bolt_rounds::moves::{Made, Worked, hand_in, make};
use crossbeam_utils::sync::Unparker;
use flow_graph::graphs::Graphs;
use linear_formula::error::OutOfMemory;
use outer_io::Gate;
use punch_step::memo::Memos;
use std::alloc::Global;
use std::sync::{Arc, Wait};
use summary_form::summary::Summary;
use summary_table::table::Table;

/// Passes the gate, and waits for the board.
fn hold<R: Wait, G: Gate>(rt: &R, lock: &BoardLock<Board>, desk: &mut Desk, gate: &G) -> Board
    requires lock { desk.old.seat.lock ≡ lock.now }
    requires rests { desk.old.seat.view.turn ≡ false }
    ensures { Holds desk.old desk.new result }
{
    desk.calls = desk.calls.wrapping_add(1);
    gate.pass(desk.worker, desk.calls, false);
    let board = lock.hold(rt, &mut desk.seat);
    board.reached();
    desk.events = Chronicle::count(&board);
    board
}

/// Frees the board, wakes all workers where it has a new event, and passes the gate.
fn free<G: Gate>(lock: &BoardLock<Board>, desk: &mut Desk, board: Board, all: &[Unparker], gate: &G)
    requires lock { desk.old.seat.lock ≡ lock.now }
    requires holds { desk.old.seat.view.turn ≡ true }
    requires program { desk.old.seat.view.program ≡ Some (program_of board) }
    requires begins { StartsWith board.core.history desk.old.seat.view.seen }
    ensures { Frees desk.old desk.new board }
{
    board.reached();
    let has_more = Chronicle::count(&board) != desk.events;
    lock.free(&mut desk.seat, board);
    if has_more {
        wake(all);
    }
    gate.pass(desk.worker, desk.calls, true);
}

/// Brings a table up to the board's, and takes a query.
fn fetch(board: &mut Board, worker: u32, known: &mut Table) -> Result<Taken, OutOfMemory>
    requires room { length board.old.core.table ≤ known.old.room }
    requires front { FrontOf board.old.core.table known.old.summaries }
    ensures same { SameProgram board.old board.new }
    ensures room { known.new.room ≡ known.old.room }
    ensures front { FrontOf board.old.core.table known.new.summaries }
    ensures taken { MatchResult result
        (λ t. Gives board.old worker board.new t × (known.new.summaries ≡ board.old.core.table))
        (λ _. board.new ≡ board.old) }
{
    board.bring(known)?;
    Ok(board.take(worker, known))
}

/// A take, with the worker's table brought up to the board's before. Lack of memory stops the
/// board.
fn take_once<R: Wait, G: Gate>(
    rt: &R,
    lock: &BoardLock<Board>,
    desk: &mut Desk,
    all: &[Unparker],
    gate: &G,
) -> Result<Taken, OutOfMemory>
    requires lock { desk.old.seat.lock ≡ lock.now }
    requires sits { Sits desk.old }
    ensures lock { desk.new.seat.lock ≡ desk.old.seat.lock }
    ensures program { desk.new.seat.view.program ≡ desk.old.seat.view.program }
    ensures sits { Sits desk.new }
    ensures told { IfOk result (IsTold desk.new) }
    ensures ended { IfErr result (λ _. HasEnded desk.new) }
{
    let mut board = hold(rt, lock, desk, gate);
    match fetch(&mut board, desk.worker, &mut desk.known) {
        Ok(taken) => {
            free(lock, desk, board, all, gate);
            Ok(taken)
        }
        Err(error) => {
            board.stop(desk.worker);
            free(lock, desk, board, all, gate);
            Err(error)
        }
    }
}

/// The call of the board that gives a job back.
fn give_once<R: Wait, G: Gate>(
    rt: &R,
    lock: &BoardLock<Board>,
    desk: &mut Desk,
    worked: Worked,
    all: &[Unparker],
    gate: &G,
) -> Result<(), Gone>
    requires lock { desk.old.seat.lock ≡ lock.now }
    requires sits { Sits desk.old }
    requires may { CanGive desk.old worked }
    ensures lock { desk.new.seat.lock ≡ desk.old.seat.lock }
    ensures program { desk.new.seat.view.program ≡ desk.old.seat.view.program }
    ensures sits { Sits desk.new }
    ensures gone { IfErr result (λ gone. gone.job ≡ worked.job) }
    ensures shows { (s : _) → CanShow desk.old worked.job s → CanShow desk.new worked.job s }
    ensures back { IsBack desk.new worked.job }
{
    let mut board = hold(rt, lock, desk, gate);
    match hand_in(&mut board, desk.worker, worked) {
        Ok(()) => {
            free(lock, desk, board, all, gate);
            Ok(())
        }
        Err(gone) => {
            free(lock, desk, board, all, gate);
            Err(gone)
        }
    }
}

/// Publishes what may be published of a job that is gone.
fn publish_once<R: Wait, G: Gate>(
    rt: &R,
    lock: &BoardLock<Board>,
    desk: &mut Desk,
    gone: &Gone,
    summary: Arc<Summary>,
    all: &[Unparker],
    gate: &G,
)
    requires lock { desk.old.seat.lock ≡ lock.now }
    requires sits { Sits desk.old }
    requires may { CanShow desk.old gone.now.job summary.value }
    ensures lock { desk.new.seat.lock ≡ desk.old.seat.lock }
    ensures program { desk.new.seat.view.program ≡ desk.old.seat.view.program }
    ensures sits { Sits desk.new }
    ensures back { (j : _) → IsBack desk.old j → IsBack desk.new j }
{
    let mut board = hold(rt, lock, desk, gate);
    board.publish(desk.worker, gone, summary);
    free(lock, desk, board, all, gate);
}

/// Stops the board, for lack of memory.
fn stop_once<R: Wait, G: Gate>(
    rt: &R,
    lock: &BoardLock<Board>,
    desk: &mut Desk,
    all: &[Unparker],
    gate: &G,
)
    requires lock { desk.old.seat.lock ≡ lock.now }
    requires sits { Sits desk.old }
    ensures lock { desk.new.seat.lock ≡ desk.old.seat.lock }
    ensures program { desk.new.seat.view.program ≡ desk.old.seat.view.program }
    ensures sits { Sits desk.new }
    ensures ended { HasEnded desk.new }
{
    let mut board = hold(rt, lock, desk, gate);
    board.stop(desk.worker);
    free(lock, desk, board, all, gate);
}

/// Gives a job back. Where it is gone, what may be published of it is.
fn give<R: Wait, G: Gate>(
    rt: &R,
    lock: &BoardLock<Board>,
    desk: &mut Desk,
    made: Made,
    all: &[Unparker],
    gate: &G,
)
    requires lock { desk.old.seat.lock ≡ lock.now }
    requires sits { Sits desk.old }
    requires may { CanGive desk.old made.worked }
    requires shows { IfSome made.spare (λ s. CanShow desk.old made.worked.job s.value) }
    ensures lock { desk.new.seat.lock ≡ desk.old.seat.lock }
    ensures program { desk.new.seat.view.program ≡ desk.old.seat.view.program }
    ensures sits { Sits desk.new }
    ensures back { IsBack desk.new made.worked.job }
{
    let Made { worked, spare } = made;
    let Err(gone) = give_once(rt, lock, desk, worked, all, gate) else {
        return;
    };
    let Some(summary) = spare else {
        return;
    };
    publish_once(rt, lock, desk, &gone, summary, all, gate);
}

/// Makes the slice of a job, with all that its calls of the board take. What the worker remembers
/// is made for its first job, so that one who gets none takes no memory for it.
fn make_with(
    alloc: Global,
    memos: &mut Option<Memos>,
    graphs: &Graphs,
    known: &Table,
    job: Job,
) -> Result<Made, OutOfMemory>
    requires { WasJustTaken graphs.now.graphs known.now.summaries job }
    ensures { IfOk result (IsMade graphs.now.graphs known.now.summaries job) }
{
    if memos.is_none() {
        *memos = Some(Memos::new(alloc)?);
    }
    match memos {
        Some(memos) => make(alloc, memos, graphs, known, job),
        None => unreachable!(),
    }
}

/// Makes the slice of a job while others have the board, and gives the job back. Lack of memory
/// stops the board.
fn do_job<R: Wait, G: Gate>(
    rt: &R,
    alloc: Global,
    memos: &mut Option<Memos>,
    lock: &BoardLock<Board>,
    desk: &mut Desk,
    job: Job,
    all: &[Unparker],
    gate: &G,
) -> Result<(), OutOfMemory>
    requires lock { desk.old.seat.lock ≡ lock.now }
    requires sits { Sits desk.old }
    requires job { CanWork desk.old job }
    ensures lock { desk.new.seat.lock ≡ desk.old.seat.lock }
    ensures program { desk.new.seat.view.program ≡ desk.old.seat.view.program }
    ensures sits { Sits desk.new }
    ensures back { OnOk result (IsBack desk.new job) }
    ensures ended { IfErr result (λ _. HasEnded desk.new) }
{
    match make_with(alloc, memos, &desk.graphs, &desk.known, job) {
        Ok(made) => {
            give(rt, lock, desk, made, all, gate);
            Ok(())
        }
        Err(error) => {
            stop_once(rt, lock, desk, all, gate);
            Err(error)
        }
    }
}

/// Works until the board is over or stopped, and remembers what its slices asked.
pub(crate) fn run_worker<R: Wait, G: Gate>(
    rt: &R,
    alloc: Global,
    lock: &BoardLock<Board>,
    desk: &mut Desk,
    all: &[Unparker],
    gate: &G,
)
    requires lock { desk.old.seat.lock ≡ lock.now }
    requires sits { Sits desk.old }
    ensures lock { desk.new.seat.lock ≡ desk.old.seat.lock }
    ensures program { desk.new.seat.view.program ≡ desk.old.seat.view.program }
    ensures ended { HasEnded desk.new }
{
    let mut memos = None;
    for _ in rt.forever() {
        match take_once(rt, lock, desk, all, gate) {
            Ok(Taken::Job(job)) => {
                if do_job(rt, alloc, &mut memos, lock, desk, job, all, gate).is_err() {
                    return;
                }
            }
            Ok(Taken::Idle) => desk.parker.park(rt),
            Ok(Taken::Over) => return,
            Err(_) => return,
        }
    }
    unreachable!()
}
