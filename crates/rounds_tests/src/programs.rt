//! Boards of programs, and their ends.

ghost use Rattle.std.specs.Prelude.{◌≡◌, IfOk};
ghost use Rattle.rounds_tests.specs.Boards.{IsOpened};

use bolt_core::board::Board;
use bolt_core::job::Verdict;
use bolt_rounds::rounds::rounds;
use flow_build::build::build;
use flow_graph::graphs::Graphs;
use outer_io::Gate;
use shadow_elim::limit::LimitKind;
use std::alloc::Global;
use std::sync::Arc;
use std::test::Fail;
use std::thread::Threads;
use test_programs::program::program_of;

/// The workload with two procedures, whose assertions never fail.
pub const WORKLOAD: &str = "int p1(int a) { if (a > 0) { return 1; } assert(a <= 0); return 0; }\n\
     int p2(int a) { if (a > 0) { return 1; } assert(a <= 0); return 0; }\n\
     int main() { int k = input(); int v = input(); if (k == 1) { p1(v); } \
     if (k == 2) { p2(v); } return 0; }\n";

/// A board of graphs, and its assertions.
fn opened(
    alloc: Global,
    graphs: Graphs,
    main: u32,
    asserts: usize,
    budget: u32,
) -> Result<(Board, u32), Fail>
    ensures { IfOk result (λ r. IsOpened r.0 r.1) }
{
    if main as usize >= graphs.graphs.as_slice().len() {
        return Err(Fail::new("no main"));
    }
    let few = graphs.graphs.as_slice().len() <= 64;
    if !few || asserts > 64 || budget == 0 || budget > 20_000 {
        return Err(Fail::new("past a limit"));
    }
    let graphs = Arc::new(alloc, graphs)?;
    let asserts = asserts as u32;
    let board = Board::begin(alloc, graphs, main, asserts, budget)?;
    Ok((board, asserts))
}

/// The board of a program with this budget, and its assertions.
pub fn board_of(alloc: Global, text: &str, budget: u32) -> Result<(Board, u32), Fail>
    ensures { IfOk result (λ r. IsOpened r.0 r.1) }
{
    let program = program_of(alloc, text.as_bytes())?;
    let graphs = build(alloc, &program)?;
    opened(alloc, graphs, program.main, program.asserts.len(), budget)
}

/// The board of a program that `workers` workers brought to its end, and its assertions.
pub fn worked<R: Threads + Sync, G: Gate>(
    rt: &R,
    alloc: Global,
    text: &str,
    budget: u32,
    workers: u32,
    gate: &G,
) -> Result<(Board, u32), Fail>
    ensures { IfOk result (λ r. r.1 ≡ r.0.asserts) }
{
    if workers == 0 || workers > 16 {
        return Err(Fail::new("no such workers"));
    }
    let (board, asserts) = board_of(alloc, text, budget)?;
    let board = rounds(rt, alloc, board, workers, gate)?;
    Ok((board, asserts))
}

/// What a verdict says.
#[derive(Clone, Copy, PartialEq, Eq)]
pub enum Says {
    Proved,
    /// The first two inputs, and how many there are.
    Found(usize, Option<i64>, Option<i64>),
    Budget(u32),
    Limit(LimitKind),
}

fn said_by(verdict: &Verdict) -> Says {
    match verdict {
        Verdict::Proved => Says::Proved,
        Verdict::Found(list) => {
            Says::Found(list.len(), list.get(0).copied(), list.get(1).copied())
        }
        Verdict::Budget(steps) => Says::Budget(*steps),
        Verdict::Limit(kind) => Says::Limit(*kind),
    }
}

/// The verdicts of the first two roots of a board that is over.
pub fn verdicts_of(alloc: Global, board: &Board, asserts: u32) -> Result<[Option<Says>; 2], Fail>
    requires { asserts ≡ board.now.asserts }
{
    if board.stopped() || !board.over() {
        return Err(Fail::new("no verdict"));
    }
    let mut says = [None; 2];
    for root in 0..2 {
        if root < asserts {
            let verdict = board.verdict(alloc, root)?;
            says[root as usize] = Some(said_by(&verdict));
        }
    }
    Ok(says)
}
