//! Slices that are made at the same time.

use crate::gates::{Meeting, Notes, Pass, this_thread};
use crate::programs::{Says, WORKLOAD, verdicts_of, worked};
use board_lock::Chronicle;
use std::test::Fail;
use std::thread;

#[test]
fn two_workers_are_in_their_slices_at_once(rt: HostRuntime) -> Result<(), Fail> {
    let meeting = Meeting::of(2);
    let (board, asserts) = worked(&rt, rt.alloc(), WORKLOAD, 2000, 2, &meeting)?;
    assert!(rt; meeting.met() == 2);
    let proved = Some(Says::Proved);
    assert!(rt; verdicts_of(rt.alloc(), &board, asserts)? == [proved, proved]);
    Ok(())
}

/// The place of the first pass that isn't the next one of its worker: before and after each call,
/// whose numbers run from 1.
fn other_pass(passes: &[Pass]) -> Option<usize> {
    for place in 0..passes.len() {
        let pass = passes[place];
        let earlier = passes[..place]
            .iter()
            .filter(|p| p.worker == pass.worker)
            .count();
        if pass.call != (earlier / 2) as u64 + 1 || pass.after != (earlier % 2 == 1) {
            return Some(place);
        }
    }
    None
}

/// How many passes were made on other threads than this one, and how many of these after a call.
fn apart(passes: &[Pass], own: u64) -> (usize, usize) {
    let all = passes.iter().filter(|p| p.thread != own).count();
    let behind = passes.iter().filter(|p| p.thread != own && p.after).count();
    (all, behind)
}

/// Each event but the takes is made by the call after a take, so half of them are takes. Where
/// threads can be made the pass after such a call is made on another one.
#[test]
fn the_pass_behind_a_take_is_the_workers_own(rt: HostRuntime) -> Result<(), Fail> {
    let notes = Notes::with_slots(rt, rt.alloc(), 1000)?;
    let (board, _) = worked(&rt, rt.alloc(), WORKLOAD, 2000, 2, &notes)?;
    let passes = notes.passes(rt.alloc())?;
    assert!(rt; other_pass(&passes).is_none());
    let takes = board.count() as usize / 2;
    if let Ok(child) = thread::spawn(&rt, || ()) {
        child.join(&rt);
        assert!(rt; apart(&passes, this_thread(&rt)) == (takes, takes));
    }
    Ok(())
}
