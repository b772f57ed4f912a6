//! Workers side by side.

ghost use Rattle.std.specs.Prelude.{◌≡◌, ◌<◌, ℕ, IfOk, Some, false, length, slice_index_or, true, vec_len};
ghost use Rattle.std.specs.List.{All};
ghost use Rattle.bolt_core.specs.Machine.{is_over};
ghost use Rattle.bolt_core.specs.States.{reads};
ghost use Rattle.bolt_workers.specs.steps.Desks.{HasEnded, IsOpen, Sits, program_of};

use crate::desk::Desk;
use crate::worker::run_worker;
use board_lock::{BoardLock, Seat};
use bolt_core::board::Board;
use crossbeam_utils::sync::{Parker, Unparker};
use flow_graph::graphs::Graphs;
use linear_formula::error::OutOfMemory;
use outer_io::Gate;
use std::alloc::{AllocError, Global};
use std::sync::{Arc, Wait};
use std::thread;
use std::thread::Threads;
use summary_table::table::Table;

/// A desk with a seat that has seen as much as this one. Its table has room for `room` summaries.
fn open_desk(
    alloc: Global,
    lock: &BoardLock<Board>,
    seat: &mut Seat<Board>,
    graphs: &Arc<Graphs>,
    room: u32,
    worker: u32,
) -> Result<Desk, OutOfMemory>
    requires lock { seat.old.lock ≡ lock.now }
    requires rests { seat.old.view.turn ≡ false }
    ensures seat { seat.new ≡ seat.old }
    ensures desk { IfOk result (IsOpen seat.old graphs.now.value.graphs room) }
{
    let graphs = graphs.clone()?;
    let known = Table::with_room(alloc, room)?;
    let parker = Parker::new(alloc)?;
    Ok(Desk {
        worker,
        calls: 0,
        events: 0,
        seat: lock.split(seat),
        graphs,
        known,
        parker,
    })
}

/// A desk for each worker.
pub(crate) fn open_desks(
    alloc: Global,
    lock: &BoardLock<Board>,
    seat: &mut Seat<Board>,
    graphs: &Arc<Graphs>,
    room: u32,
    workers: u32,
) -> Result<Vec<Desk>, OutOfMemory>
    requires lock { seat.old.lock ≡ lock.now }
    requires rests { seat.old.view.turn ≡ false }
    ensures seat { seat.new ≡ seat.old }
    ensures len { IfOk result (λ v. vec_len v ≡ workers) }
    ensures desks { IfOk result (λ v. All (IsOpen seat.old graphs.now.value.graphs room) v.items) }
{
    let mut desks = Vec::with_capacity(alloc, workers as usize)?;
    for worker in 0..workers {
        desks.push_reserved(open_desk(alloc, lock, seat, graphs, room, worker)?);
    }
    Ok(desks)
}

/// What wakes each of the workers.
pub(crate) fn unparkers(alloc: Global, desks: &[Desk]) -> Result<Vec<Unparker>, OutOfMemory> {
    let mut all = Vec::with_capacity(alloc, desks.len())?;
    for desk in desks {
        all.push_reserved(desk.parker.unparker().clone()?);
    }
    Ok(all)
}

/// All workers at once, each on a thread of its own where one can be made; else one after another.
/// It takes no memory.
fn run_all<R: Threads + Wait + Sync, G: Gate>(
    rt: &R,
    alloc: Global,
    lock: &BoardLock<Board>,
    desks: &mut [Desk],
    all: &[Unparker],
    gate: &G,
)
    requires { All (λ (d : _). (d.seat.lock ≡ lock.now) × Sits d) desks.old }
    ensures len { length desks.new ≡ length desks.old }
    ensures each { (i : ℕ) (d : _) → i < length desks.old →
        ((slice_index_or desks.new i d).seat.lock ≡ lock.now)
        × ((slice_index_or desks.new i d).seat.view.program
        ≡ (slice_index_or desks.old i d).seat.view.program)
        × HasEnded (slice_index_or desks.new i d) }
{
    let threads = desks.len();
    if threads == 0 {
        return;
    }
    thread::for_each_mut(
        rt,
        desks,
        threads,
        &|_, desk: &mut Desk|
            requires { (desk.now.seat.lock ≡ lock.now) × Sits desk.now }
            ensures { (desk.exit.now.seat.lock ≡ lock.entry.now)
                × (desk.exit.now.seat.view.program ≡ desk.entry.now.seat.view.program)
                × HasEnded desk.exit.now }
        { run_worker(rt, alloc, lock, desk, all, gate) },
    );
}

/// All workers at once, until each has seen that the board is over or stopped.
pub(crate) fn run_desks<R: Threads + Wait + Sync, G: Gate>(
    rt: &R,
    alloc: Global,
    lock: &BoardLock<Board>,
    desks: &mut Vec<Desk>,
    all: &[Unparker],
    gate: &G,
)
    requires { All (λ d. (d.seat.lock ≡ lock.now) × Sits d) desks.old.items }
    ensures len { vec_len desks.new ≡ vec_len desks.old }
    ensures ended { All (λ d. (d.seat.lock ≡ lock.now) × HasEnded d) desks.new.items }
    ensures programs { (p : _) → All (λ d. d.seat.view.program ≡ p) desks.old.items →
        All (λ d. d.seat.view.program ≡ p) desks.new.items }
{
    run_all(rt, alloc, lock, desks.as_mut_slice(), all, gate);
}

/// Ends the lock by a seat that has seen the end. Where the board was stopped, it was so for want
/// of memory.
pub(crate) fn finish<R: Wait>(
    rt: &R,
    lock: BoardLock<Board>,
    desk: Desk,
) -> Result<Board, OutOfMemory>
    requires lock { desk.seat.lock ≡ lock }
    requires ended { HasEnded desk }
    ensures same { IfOk result (λ b. desk.seat.view.program ≡ Some (program_of b)) }
    ensures over { IfOk result (λ b. is_over (reads b.graphs) b.core ≡ true) }
    ensures going { IfOk result (λ b. b.core.is_stopped ≡ false) }
{
    let board = lock.finish(rt, desk.seat);
    board.reached();
    if board.stopped() {
        return Err(AllocError);
    }
    Ok(board)
}
