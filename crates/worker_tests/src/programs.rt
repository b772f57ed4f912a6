//! Boards of programs.

ghost use Rattle.std.specs.Prelude.{IfOk};
ghost use Rattle.worker_tests.specs.Opened.{IsOpened};

use bolt_core::board::Board;
use flow_build::build::build;
use flow_graph::graphs::Graphs;
use std::alloc::Global;
use std::sync::Arc;
use std::test::Fail;
use test_programs::program::program_of;

/// What each program is checked with.
pub const BUDGET: u32 = 2000;

/// A board of graphs, and its assertions.
fn opened(alloc: Global, graphs: Graphs, main: u32, asserts: usize) -> Result<(Board, u32), Fail>
    ensures { IfOk result (λ r. IsOpened r.0 r.1) }
{
    if main as usize >= graphs.graphs.as_slice().len() {
        return Err(Fail::new("no main"));
    }
    if asserts > 64 || graphs.graphs.as_slice().len() > 64 {
        return Err(Fail::new("past a limit"));
    }
    let graphs = Arc::new(alloc, graphs)?;
    let asserts = asserts as u32;
    let board = Board::begin(alloc, graphs, main, asserts, BUDGET)?;
    Ok((board, asserts))
}

/// The board of a program, and its assertions.
pub fn board_of(alloc: Global, bytes: &[u8]) -> Result<(Board, u32), Fail>
    ensures { IfOk result (λ r. IsOpened r.0 r.1) }
{
    let program = program_of(alloc, bytes)?;
    let graphs = build(alloc, &program)?;
    opened(alloc, graphs, program.main, program.asserts.len())
}
