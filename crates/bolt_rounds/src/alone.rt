//! One worker.

ghost use Rattle.std.specs.Prelude.{◌≡◌, ℕ, [], IfOk, OnOk, false, true};
ghost use Rattle.summary_table.specs.Tables.{StartsWith};
ghost use Rattle.bolt_core.specs.Boards.{SameProgram, Shown, most_summaries};
ghost use Rattle.bolt_core.specs.Histories.{has_said};
ghost use Rattle.bolt_core.specs.Keeps.{IsNow};
ghost use Rattle.bolt_core.specs.Machine.{is_over};
ghost use Rattle.bolt_core.specs.States.{reads};
ghost use Rattle.bolt_rounds.specs.Moves.{IsJustTaken};
ghost use Rattle.bolt_rounds.specs.steps.Turning.{AreBack, GivesBack, IsTurned};

use crate::moves::{fetch, hand_in, work_on};
use bolt_core::board::Board;
use bolt_core::job::{Job, Taken};
use linear_formula::error::OutOfMemory;
use punch_step::memo::Memos;
use std::alloc::Global;
use summary_table::table::Table;

/// The number of the worker.
const WORKER: u32 = 0;

/// Makes the slice of a job that was just taken, and gives it back. Nobody else works at the board,
/// so it isn't gone.
fn do_job(
    alloc: Global,
    memos: &mut Memos,
    board: &mut Board,
    known: &Table,
    job: Job,
) -> Result<(), OutOfMemory>
    ghost shown: { Shown }
    requires shown { board.old ≡ shown }
    requires known { known.now.summaries ≡ board.old.core.table }
    requires job { IsJustTaken board.old job }
    requires running { IsNow board.old.core job.id job.taken }
    ensures same { SameProgram board.old board.new }
    ensures back { OnOk result (GivesBack board.old job.id board.new) }
{
    board.reached();
    let worked = work_on(alloc, memos, board.graphs(), known, job, u32::MAX)?;
    let Ok(()) = hand_in(board, WORKER, worked) else {
        unreachable!();
    };
    Ok(())
}

/// Takes a query, makes its slice and gives it back: two events. Whether there was one; else the
/// board is over.
fn turn(
    alloc: Global,
    memos: &mut Memos,
    board: &mut Board,
    known: &mut Table,
) -> Result<bool, OutOfMemory>
    requires back { AreBack board.old.core }
    requires going { board.old.core.is_stopped ≡ false }
    requires room { known.old.room ≡ most_summaries board.old }
    requires front { StartsWith board.old.core.table known.old.summaries }
    ensures same { SameProgram board.old board.new }
    ensures room { known.new.room ≡ known.old.room }
    ensures turned { IfOk result
        (λ more. IsTurned board.old known.new.summaries more board.new) }
{
    match fetch(board, WORKER, known)? {
        Taken::Over => Ok(false),
        Taken::Idle => unreachable!(),
        Taken::Job(job) => {
            do_job(alloc, memos, board, known, job)?;
            Ok(true)
        }
    }
}

/// Works at a board without history until it is over. No query is dropped while it is at work, so
/// nothing is published of one. Lack of memory stops the board, which is then dropped.
pub fn alone(alloc: Global, mut board: Board) -> Result<Board, OutOfMemory>
    requires { board.core.history ≡ [] }
    ensures same { IfOk result (λ b. SameProgram board b) }
    ensures over { IfOk result (λ b. is_over (reads b.graphs) b.core ≡ true) }
    ensures going { IfOk result (λ b. b.core.is_stopped ≡ false) }
    ensures said { IfOk result (λ b. (i : ℕ) → has_said b.core.history i ≡ false) }
{
    board.reached();
    let mut known = Table::with_room(alloc, board.room())?;
    let mut memos = Memos::new(alloc)?;
    loop {
        match turn(alloc, &mut memos, &mut board, &mut known) {
            Ok(true) => {}
            Ok(false) => return Ok(board),
            Err(error) => {
                board.stop(WORKER);
                return Err(error);
            }
        }
    }
}
