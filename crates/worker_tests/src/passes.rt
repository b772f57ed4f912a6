//! The passes of a gate.

ghost use Rattle.std.specs.Prelude.{◌≤◌};

use crate::gates::Pairs;
use crate::programs::board_of;
use bolt_workers::work::work;
use std::alloc::Global;
use std::sync::Wait;
use std::test::*;
use std::thread::Threads;
use workload_gen::program_of;

fn passes_are_whole<R: Threads + Wait + Sync>(
    rt: &R,
    alloc: Global,
    workers: u32,
) -> Result<bool, Fail>
    requires some { 1 ≤ workers }
    requires few { workers ≤ 16 }
{
    let text = program_of(alloc, 3)?;
    let (board, _) = board_of(alloc, &text)?;
    let gate = Pairs::of(alloc, workers)?;
    let board = work(rt, alloc, board, workers, &gate)?;
    drop(board);
    Ok(gate.are_whole())
}

/// Each worker's passes come in pairs, and are numbered from 1 without a gap.
#[test]
fn passes_come_in_pairs(rt: HostRuntime) -> Result<(), Fail> {
    assert!(rt; passes_are_whole(&rt, rt.alloc(), 1)?);
    assert!(rt; passes_are_whole(&rt, rt.alloc(), 2)?);
    assert!(rt; passes_are_whole(&rt, rt.alloc(), 16)?);
    Ok(())
}
