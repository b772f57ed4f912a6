//! A job that is gone in its own round.

use crate::gates::{Notes, Pass};
use crate::programs::{Says, verdicts_of, worked};
use board_lock::Chronicle;
use bolt_core::board::Board;
use query_tree::Status;
use std::test::Fail;
use summary_form::summary::Summary;

/// Three ways to the failure: through two calls, through one call, and without a call.
const THREE_WAYS: &str = "int h(int a) { return a; } int k(int a) { return a; } \
     int g(int a) { return h(a); } int main() { int c = input(); int y = 0; \
     if (c < 50) { y = g(c); y = y + 1; y = y + 1; y = y - 2; } \
     else { if (c < 100) { y = k(c); y = y + 1; y = y + 1; y = y + 1; y = y - 3; } \
     else { y = 3; } } assert(y != 3); return 0; }";

/// The number of `g` among the procedures.
const G: u32 = 2;

/// The procedure of the last summary of the table, if that is a not-may.
fn last_not_may(board: &Board) -> Option<u32> {
    match &**board.table().all().last()? {
        Summary::NotMay(query) => Some(query.proc),
        Summary::Must(_) => None,
    }
}

fn status_of(board: &Board, id: u32) -> Option<Status> {
    if id < board.forest().count() {
        Some(board.forest().status(id))
    } else {
        None
    }
}

/// How many calls the worker made.
fn calls_of(passes: &[Pass], worker: u64) -> Option<u64> {
    passes
        .iter()
        .filter(|p| p.worker == worker)
        .map(|p| p.call)
        .max()
}

/// In the fourth round worker 0 has `main` and worker 1 has `g`, of which no run is what is asked.
/// `main` closes on its third way, as event 12, so `g` is dropped while its job is out, and what it
/// closed with is published, as the eighth call of worker 1.
#[test]
fn what_a_gone_job_closed_with_is_published(rt: HostRuntime) -> Result<(), Fail> {
    let notes = Notes::with_slots(rt, rt.alloc(), 1000)?;
    let (board, asserts) = worked(&rt, rt.alloc(), THREE_WAYS, 2000, 2, &notes)?;
    let found = verdicts_of(rt.alloc(), &board, asserts)?;
    let status = status_of(&board, 1);
    let counts = (board.forest().count(), board.count());
    let published = last_not_may(&board);
    drop(board);
    assert!(rt; found == [Some(Says::Found(1, Some(100), None)), None]);
    assert!(rt; status == Some(Status::Dropped { stamp: 12 }) && counts == (4, 14));
    let calls = calls_of(&notes.passes(rt.alloc())?, 1);
    assert!(rt; published == Some(G) && calls == Some(8));
    Ok(())
}
