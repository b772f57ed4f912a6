//! Two workers at work at once.

use crate::gates::Meetings;
use crate::programs::board_of;
use crate::verdicts::{Says, verdicts};
use bolt_workers::work::work;
use std::test::*;
use workload_gen::program_of;

/// Each worker takes a root, and both meet in their passes after the take, before they give their
/// jobs back, and after that.
#[test]
fn two_workers_are_at_work_at_once(rt: HostRuntime) -> Result<(), Fail> {
    let text = program_of(rt.alloc(), 2)?;
    let (board, asserts) = board_of(rt.alloc(), &text)?;
    let gate = Meetings::of(2);
    let board = work(&rt, rt.alloc(), board, 2, &gate)?;
    let says = verdicts(rt.alloc(), &board, asserts)?;
    drop(board);
    assert!(rt; says.as_slice() == [Says::Proved, Says::Proved].as_slice());
    assert!(rt; gate.met() == [2, 2, 2]);
    Ok(())
}
