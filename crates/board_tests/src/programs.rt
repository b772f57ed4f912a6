//! Boards of programs.

ghost use Rattle.std.specs.Prelude.{◌≡◌, [], IfOk};
ghost use Rattle.board_tests.specs.Plays.{IsOpened};

use bolt_core::board::Board;
use flow_build::build::build;
use flow_graph::graphs::Graphs;
use std::alloc::Global;
use std::sync::Arc;
use std::test::Fail;
use test_programs::program::program_of;

/// It fails with the input 5.
pub const ONE_INPUT: &str = "int main(){ int x = input(); assert(x != 5); return 0; }";

/// No assertion.
pub const NO_ASSERTION: &str = "int main(){ return 0; }";

/// Three calls deep it fails, with the inputs 2 and 40.
pub const THREE_DEEP: &str = "int h(int a, int b) { assert(a != 2 || b != 40); return 0; } \
     int g(int a, int b) { return h(a, b); } int f(int a, int b) { return g(a, b); } \
     int main() { int a = input(); int b = input(); return f(a, b); }";

/// A board of graphs, and its assertions.
fn opened(
    alloc: Global,
    graphs: Graphs,
    main: u32,
    asserts: usize,
    budget: u32,
) -> Result<(Board, u32), Fail>
    ensures opened { IfOk result (λ r. IsOpened r.0 r.1) }
    ensures none { IfOk result (λ r. r.0.core.kept ≡ []) }
{
    if main as usize >= graphs.graphs.as_slice().len() {
        return Err(Fail::new("no main"));
    }
    let few = graphs.graphs.as_slice().len() <= 64;
    if !few || asserts > 64 || budget == 0 || budget > 20_000 {
        return Err(Fail::new("past a limit"));
    }
    let graphs = Arc::new(alloc, graphs)?;
    let asserts = asserts as u32;
    let board = Board::begin(alloc, graphs, main, asserts, budget)?;
    Ok((board, asserts))
}

/// The board of a program with this budget, and its assertions. It begins without summaries.
pub fn board_of(alloc: Global, text: &str, budget: u32) -> Result<(Board, u32), Fail>
    ensures opened { IfOk result (λ r. IsOpened r.0 r.1) }
    ensures none { IfOk result (λ r. r.0.core.kept ≡ []) }
{
    let program = program_of(alloc, text.as_bytes())?;
    let graphs = build(alloc, &program)?;
    opened(alloc, graphs, program.main, program.asserts.len(), budget)
}
