//! Workers in rounds: each takes a query, they make their slices side by side, and the jobs are
//! given back in order.

ghost use Rattle.std.specs.Prelude.{◌≡◌, ◌≤◌, ℕ, ◌<◌, [], IfOk, IfSome, OnOk, false, length, slice_index_or, true, vec_capacity};
ghost use Rattle.std.specs.List.{All};
ghost use Rattle.board_lock.specs.Views.{StartsWith};
ghost use Rattle.bolt_core.specs.Boards.{SameProgram, Stops};
ghost use Rattle.bolt_core.specs.Machine.{is_over};
ghost use Rattle.bolt_core.specs.States.{reads};
ghost use Rattle.bolt_rounds.specs.Moves.{IsMade, MayBeShown, WasJustTaken};
ghost use Rattle.bolt_rounds.specs.steps.Places.{AreMade, HasGiven, HasTaken, IsAtRest, IsRoundOf, IsToGive, MayBeMade, MayGive, MayHaveSaid, WasMade};

use crate::apart::each_apart;
use crate::crew::{Calls, Crew, Place, Stage};
use crate::moves::{Made, fetch, hand_in, make};
use bolt_core::board::Board;
use bolt_core::job::{Gone, Job, Taken};
use flow_graph::graphs::Graphs;
use linear_formula::error::OutOfMemory;
use outer_io::Gate;
use punch_step::memo::Memos;
use std::alloc::{AllocError, Global};
use std::mem;
use std::sync::Arc;
use std::thread::Threads;
use summary_form::summary::Summary;
use summary_table::table::Table;

/// Stops the board, since there was no memory for what the worker did.
fn stop<G: Gate>(board: &mut Board, gate: &G, calls: &mut Calls, worker: u32)
    ensures same { SameProgram board.old board.new }
    ensures stopped { Stops board.old worker board.new }
{
    let call = calls.begin(gate, worker);
    board.stop(worker);
    gate.pass(worker, call, true);
}

/// Takes a query for each worker, until there is none. Where a job comes, the pass after the call
/// is left to the thread of the worker.
fn take_all<G: Gate>(
    board: &mut Board,
    gate: &G,
    calls: &mut Calls,
    crew: &mut Crew,
) -> Result<(), OutOfMemory>
    requires { IsAtRest board.old crew.old }
    ensures same { SameProgram board.old board.new }
    ensures taken { OnOk result (HasTaken board.old crew.new board.new) }
    ensures over { OnOk result (crew.new.places.items ≡ [] →
        is_over (reads board.new.graphs) board.new.core ≡ true) }
{
    for worker in 0..crew.workers {
        let call = calls.begin(gate, worker);
        match fetch(board, worker, &mut crew.known) {
            Ok(Taken::Job(job)) => crew.places.push_reserved(Place {
                worker,
                call,
                stage: Stage::Taken(job),
            }),
            Ok(Taken::Idle) => {
                gate.pass(worker, call, true);
                return Ok(());
            }
            Ok(Taken::Over) => {
                gate.pass(worker, call, true);
                return Ok(());
            }
            Err(error) => {
                gate.pass(worker, call, true);
                stop(board, gate, calls, worker);
                return Err(error);
            }
        }
    }
    Ok(())
}

/// Makes the slice of a job, with memos of its own.
fn made_of(alloc: Global, graphs: &Graphs, known: &Table, job: Job) -> Result<Made, OutOfMemory>
    requires { WasJustTaken graphs.now.graphs known.now.summaries job }
    ensures { IfOk result (IsMade graphs.now.graphs known.now.summaries job) }
{
    let mut memos = Memos::new(alloc)?;
    make(alloc, &mut memos, graphs, known, job)
}

/// Makes the slice of a job, on the worker's thread.
fn slice_one<G: Gate>(alloc: Global, graphs: &Graphs, known: &Table, gate: &G, place: &mut Place)
    requires { MayBeMade graphs.now.graphs known.now.summaries place.old.stage }
    ensures { WasMade graphs.now.graphs known.now.summaries place.old.stage place.new.stage }
{
    gate.pass(place.worker, place.call, true);
    let Stage::Taken(job) = mem::replace(&mut place.stage, Stage::Failed) else {
        unreachable!();
    };
    if let Ok(made) = made_of(alloc, graphs, known, job) {
        place.stage = Stage::Made(made);
    }
}

/// Makes the slices of jobs, each on another thread than this one where one can be made. It takes
/// no memory.
fn slice_each<R: Threads + Sync, G: Gate>(
    rt: &R,
    alloc: Global,
    graphs: &Graphs,
    known: &Table,
    gate: &G,
    places: &mut [Place],
)
    requires { All (λ p. MayBeMade graphs.now.graphs known.now.summaries p.stage) places.old }
    ensures len { length places.new ≡ length places.old }
    ensures each { (i : ℕ) (d : _) → i < length places.old →
        WasMade graphs.now.graphs known.now.summaries (slice_index_or places.old i d).stage
        (slice_index_or places.new i d).stage }
{
    each_apart(
        rt,
        places,
        &|_, place: &mut Place|
            requires { MayBeMade graphs.now.graphs known.now.summaries place.now.stage }
            ensures { WasMade graphs.entry.now.graphs known.entry.now.summaries
                place.entry.now.stage place.exit.now.stage }
        { slice_one(alloc, graphs, known, gate, place) },
    );
}

/// Makes the slices of all jobs side by side.
fn slice_all<R: Threads + Sync, G: Gate>(
    rt: &R,
    alloc: Global,
    graphs: &Graphs,
    known: &Table,
    gate: &G,
    places: &mut Vec<Place>,
)
    requires { All (λ p. MayBeMade graphs.now.graphs known.now.summaries p.stage)
        places.old.items }
    ensures made { AreMade graphs.now.graphs known.now.summaries places.old.items
        places.new.items }
    ensures capacity { vec_capacity places.new ≡ vec_capacity places.old }
{
    slice_each(rt, alloc, graphs, known, gate, places.as_mut_slice());
}

/// Publishes what may be published of a job that is gone, if there is something.
fn say<G: Gate>(
    board: &mut Board,
    gate: &G,
    calls: &mut Calls,
    worker: u32,
    gone: &Gone,
    spare: Option<Arc<Summary>>,
)
    requires { IfSome spare (λ a. MayBeShown board.old gone.now.job a.value) }
    ensures same { SameProgram board.old board.new }
    ensures said { MayHaveSaid board.old worker gone.now.job.id board.new }
{
    let Some(summary) = spare else {
        return;
    };
    let call = calls.begin(gate, worker);
    board.publish(worker, gone, summary);
    gate.pass(worker, call, true);
}

/// Gives a job back, and where it is gone publishes what may be published of it.
fn give_one<G: Gate>(
    board: &mut Board,
    gate: &G,
    calls: &mut Calls,
    place: Place,
) -> Result<(), OutOfMemory>
    requires { MayGive board.old place.stage }
    ensures same { SameProgram board.old board.new }
    ensures given { OnOk result (HasGiven board.old place board.new) }
{
    board.reached();
    let Place { worker, stage, .. } = place;
    let Stage::Made(Made { worked, spare }) = stage else {
        stop(board, gate, calls, worker);
        return Err(AllocError);
    };
    let call = calls.begin(gate, worker);
    match hand_in(board, worker, worked) {
        Ok(()) => {
            gate.pass(worker, call, true);
            Ok(())
        }
        Err(gone) => {
            gate.pass(worker, call, true);
            say(board, gate, calls, worker, &gone, spare);
            Ok(())
        }
    }
}

/// Gives all jobs back, in order.
fn give_all<G: Gate>(
    board: &mut Board,
    gate: &G,
    calls: &mut Calls,
    crew: &mut Crew,
) -> Result<(), OutOfMemory>
    requires { IsToGive board.old crew.old }
    ensures same { SameProgram board.old board.new }
    ensures rest { OnOk result (IsAtRest board.new crew.new) }
    ensures more { OnOk result
        (length board.old.core.history ≤ length board.new.core.history) }
{
    while !crew.places.is_empty() {
        let place = crew.places.remove(0);
        give_one(board, gate, calls, place)?;
    }
    Ok(())
}

/// A round. Whether there was a job; else the board is over.
fn round<R: Threads + Sync, G: Gate>(
    rt: &R,
    alloc: Global,
    board: &mut Board,
    gate: &G,
    calls: &mut Calls,
    crew: &mut Crew,
) -> Result<bool, OutOfMemory>
    requires { IsAtRest board.old crew.old }
    ensures same { SameProgram board.old board.new }
    ensures worked { IfOk result (λ more. IsRoundOf board.old crew.new more board.new) }
{
    take_all(board, gate, calls, crew)?;
    if crew.places.is_empty() {
        return Ok(false);
    }
    board.reached();
    slice_all(
        rt,
        alloc,
        board.graphs(),
        &crew.known,
        gate,
        &mut crew.places,
    );
    give_all(board, gate, calls, crew)?;
    Ok(true)
}

/// Works at a board without history in rounds, until it is over.
fn run<R: Threads + Sync, G: Gate>(
    rt: &R,
    alloc: Global,
    board: &mut Board,
    workers: u32,
    gate: &G,
) -> Result<(), OutOfMemory>
    requires fresh { board.old.core.history ≡ [] }
    requires some { 1 ≤ workers }
    ensures same { SameProgram board.old board.new }
    ensures over { OnOk result (is_over (reads board.new.graphs) board.new.core ≡ true) }
    ensures going { OnOk result (board.new.core.is_stopped ≡ false) }
{
    board.reached();
    let mut crew = Crew::begin(alloc, workers, board.room())?;
    let mut calls = Calls::none();
    loop {
        if !round(rt, alloc, board, gate, &mut calls, &mut crew)? {
            return Ok(());
        }
    }
}

/// Works at a board without history in rounds, until it is over: in each round every worker takes a
/// query, in order, the slices are made at the same time, and the jobs are given back in the same
/// order. Where no thread can be made the slices are made one after another. Of a job that is gone
/// its summary is published, if it holds by itself. Lack of memory stops the board, which is then
/// dropped.
pub fn rounds<R: Threads + Sync, G: Gate>(
    rt: &R,
    alloc: Global,
    mut board: Board,
    workers: u32,
    gate: &G,
) -> Result<Board, OutOfMemory>
    requires fresh { board.core.history ≡ [] }
    requires some { 1 ≤ workers }
    requires few { workers ≤ 16 }
    ensures begins { IfOk result (λ b. StartsWith b.core.history board.core.history) }
    ensures same { IfOk result (λ b. SameProgram board b) }
    ensures over { IfOk result (λ b. is_over (reads b.graphs) b.core ≡ true) }
    ensures going { IfOk result (λ b. b.core.is_stopped ≡ false) }
{
    run(rt, alloc, &mut board, workers, gate)?;
    Ok(board)
}
