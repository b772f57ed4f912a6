//! Workers that bring a board to its end.

ghost use Rattle.std.specs.Prelude.{◌≡◌, ◌≤◌, [], IfOk, Some, false, true};
ghost use Rattle.board_lock.specs.Views.{StartsWith};
ghost use Rattle.bolt_core.specs.Boards.{SameProgram};
ghost use Rattle.bolt_core.specs.Machine.{is_over};
ghost use Rattle.bolt_core.specs.States.{reads};
ghost use Rattle.bolt_workers.specs.steps.Desks.{BeginsAt, program_of};

use crate::crew::{finish, open_desks, run_desks, unparkers};
use board_lock::{BoardLock, Seat};
use bolt_core::board::Board;
use flow_graph::graphs::Graphs;
use linear_formula::error::OutOfMemory;
use outer_io::Gate;
use std::alloc::Global;
use std::sync::{Arc, Wait};
use std::thread::Threads;

/// Works under the lock until the board is over.
fn work_under<R: Threads + Wait + Sync, G: Gate>(
    rt: &R,
    alloc: Global,
    lock: BoardLock<Board>,
    mut seat: Seat<Board>,
    graphs: Arc<Graphs>,
    room: u32,
    workers: u32,
    gate: &G,
) -> Result<Board, OutOfMemory>
    requires lock { seat.lock ≡ lock }
    requires begins { BeginsAt seat.view graphs.value.graphs room }
    requires some { 1 ≤ workers }
    ensures same { IfOk result (λ b. seat.view.program ≡ Some (program_of b)) }
    ensures over { IfOk result (λ b. is_over (reads b.graphs) b.core ≡ true) }
    ensures going { IfOk result (λ b. b.core.is_stopped ≡ false) }
{
    let mut desks = open_desks(alloc, &lock, &mut seat, &graphs, room, workers)?;
    let all = unparkers(alloc, &desks)?;
    run_desks(rt, alloc, &lock, &mut desks, &all, gate);
    let desk = desks.remove(0);
    finish(rt, lock, desk)
}

/// Works at a board without history until it is over, with several workers at once. Each takes a
/// query, makes its slice while others have the board, and gives it back. Lack of memory stops the
/// board, which is then dropped.
pub fn work<R: Threads + Wait + Sync, G: Gate>(
    rt: &R,
    alloc: Global,
    board: Board,
    workers: u32,
    gate: &G,
) -> Result<Board, OutOfMemory>
    requires fresh { board.core.history ≡ [] }
    requires some { 1 ≤ workers }
    requires few { workers ≤ 16 }
    ensures begins { IfOk result (λ b. StartsWith b.core.history board.core.history) }
    ensures same { IfOk result (λ b. SameProgram board b) }
    ensures over { IfOk result (λ b. is_over (reads b.graphs) b.core ≡ true) }
    ensures going { IfOk result (λ b. b.core.is_stopped ≡ false) }
{
    board.reached();
    let graphs = board.graphs().clone()?;
    let room = board.room();
    let (lock, seat) = BoardLock::new(alloc, board)?;
    work_under(rt, alloc, lock, seat, graphs, room, workers, gate)
}
