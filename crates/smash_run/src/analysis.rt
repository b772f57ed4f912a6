//! The analysis of a program: a board with a root for each assertion, worked at until it is over.

ghost use Rattle.std.specs.Prelude.{◌≡◌, ◌≤◌, ℕ, [], IfOk, false, length, map, true};
ghost use Rattle.c_tree.specs.WellFormed.{DividesByLiterals};
ghost use Rattle.c_tree.specs.Whole.{program_of};
ghost use Rattle.flow_graph.specs.Columns.{AreAllValues};
ghost use Rattle.bolt_core.specs.Boards.{SameProgram};
ghost use Rattle.bolt_core.specs.Histories.{has_said};
ghost use Rattle.bolt_core.specs.Machine.{is_over};
ghost use Rattle.bolt_core.specs.States.{reads};
ghost use Rattle.smash_run.specs.Analysis.{IsAnalysis, IsBoardOf};
ghost use Rattle.command_words.specs.Words.{max_budget, max_workers};
ghost use Rattle.command_words.specs.Commands.{FitsCheck};
ghost use Rattle.smash_run.specs.steps.Judging.{AreGraphsFor, AreVerdicts, MayBegin};

use bolt_core::board::Board;
use bolt_core::job::Verdict;
use bolt_rounds::alone::alone;
use bolt_workers::work::work;
use c_tree::tree::Program;
use flow_build::build::build;
use flow_graph::graphs::Graphs;
use linear_formula::error::OutOfMemory;
use outer_io::Gate;
use std::alloc::Global;
use std::sync::{Arc, Wait};
use std::thread::Threads;
use summary_form::summary::Summary;

/// A board that is over, and the verdicts of its roots.
#[derive(Drop)]
pub struct Analysis {
    pub board: Board,
    pub verdicts: Vec<Verdict>,
}

/// How many steps the tree of each assertion has, and how many workers there are.
#[derive(Clone, Copy, PartialEq, Eq, Debug)]
pub struct Effort {
    pub budget: u32,
    pub workers: u32,
}

/// The verdicts of a board's roots, in order.
fn verdicts_of(alloc: Global, board: &Board, count: u32) -> Result<Vec<Verdict>, OutOfMemory>
    requires over { is_over (reads board.now.graphs) board.now.core ≡ true }
    requires going { board.now.core.is_stopped ≡ false }
    requires count { count ≡ board.now.asserts }
    ensures { IfOk result (λ vs. AreVerdicts board.now count vs.items) }
{
    let mut verdicts = Vec::with_capacity(alloc, count as usize)?;
    for root in 0..count {
        verdicts.push(board.verdict(alloc, root)?)?;
    }
    Ok(verdicts)
}

/// A board without history, worked at until it is over: by one worker in the calling thread, or by
/// several under a lock.
fn worked<R: Threads + Wait + Sync, G: Gate>(
    rt: &R,
    alloc: Global,
    board: Board,
    workers: u32,
    gate: &G,
) -> Result<Board, OutOfMemory>
    requires some { 1 ≤ workers }
    requires most { workers ≤ max_workers }
    requires begun { board.core.history ≡ [] }
    ensures same { IfOk result (λ b. SameProgram board b) }
    ensures over { IfOk result (λ b. is_over (reads b.graphs) b.core ≡ true) }
    ensures going { IfOk result (λ b. b.core.is_stopped ≡ false) }
{
    if workers == 1 {
        alone(alloc, board)
    } else {
        work(rt, alloc, board, workers, gate)
    }
}

/// Looks at numbers: each is a value.
pub fn are_values(numbers: &[i64])
    ensures { AreAllValues numbers.now }
{
    for number in numbers {
        let _value = *number;
    }
}

/// The graphs of a program.
pub fn graphs_of(alloc: Global, program: &Program) -> Result<Arc<Graphs>, OutOfMemory>
    requires divisors { DividesByLiterals (program_of program.now) }
    ensures { IfOk result (λ a. AreGraphsFor (program_of program.now) a.value.graphs) }
{
    Ok(Arc::new(alloc, build(alloc, program)?)?)
}

/// The board of a program before its first event, with a root of this budget for each assertion and
/// with these summaries in its table.
fn begun(
    alloc: Global,
    program: &Program,
    graphs: Arc<Graphs>,
    kept: Vec<Arc<Summary>>,
    budget: u32,
) -> Result<Board, OutOfMemory>
    requires some { 1 ≤ budget }
    requires most { budget ≤ max_budget }
    requires graphs { AreGraphsFor (program_of program.now) graphs.value.graphs }
    requires kept { MayBegin (program_of program.now) (map (λ a. a.value) kept.items) }
    ensures begun { IfOk result (λ b. b.core.history ≡ []) }
    ensures graphs { IfOk result (λ b. b.graphs ≡ graphs.value.graphs) }
    ensures main { IfOk result (λ b. b.main ≡ program.now.main) }
    ensures asserts { IfOk result (λ b. b.asserts ≡ length program.now.asserts.items) }
    ensures granted { IfOk result (λ b. b.budget ≡ budget) }
    ensures began { IfOk result (λ b. b.core.kept ≡ map (λ a. a.value) kept.items) }
{
    are_values(&program.globals);
    let count = program.asserts.len() as u32;
    Board::begin_with(alloc, graphs, program.main, count, budget, kept)
}

/// The board of a program, with a root of this budget for each assertion and with these summaries
/// in its table, worked at until it is over.
pub fn board_with<R: Threads + Wait + Sync, G: Gate>(
    rt: &R,
    alloc: Global,
    program: &Program,
    kept: Vec<Arc<Summary>>,
    effort: Effort,
    gate: &G,
) -> Result<Board, OutOfMemory>
    requires numbers { FitsCheck effort.budget effort.workers }
    requires divisors { DividesByLiterals (program_of program.now) }
    requires kept { MayBegin (program_of program.now) (map (λ a. a.value) kept.items) }
    ensures { IfOk result (IsBoardOf (program_of program.now) effort.budget
        (map (λ a. a.value) kept.items)) }
{
    let graphs = graphs_of(alloc, program)?;
    let board = begun(alloc, program, graphs, kept, effort.budget)?;
    let board = worked(rt, alloc, board, effort.workers, gate)?;
    board.reached();
    Ok(board)
}

/// The board of a program, with a root of this budget for each assertion, worked at by one worker
/// until it is over. Nothing is published on it.
pub fn board_by_one(alloc: Global, program: &Program, budget: u32) -> Result<Board, OutOfMemory>
    requires numbers { FitsCheck budget 1 }
    requires divisors { DividesByLiterals (program_of program.now) }
    ensures board { IfOk result (IsBoardOf (program_of program.now) budget []) }
    ensures unsaid { IfOk result (λ b. (i : ℕ) → has_said b.core.history i ≡ false) }
{
    let graphs = graphs_of(alloc, program)?;
    let board = begun(alloc, program, graphs, Vec::new(alloc), budget)?;
    let board = alone(alloc, board)?;
    board.reached();
    Ok(board)
}

/// Analyses each assertion of a program, whose divisors are literals, with a budget of legal steps
/// of its own, by `effort.workers` workers, where these summaries are known to hold.
pub fn analyse_with<R: Threads + Wait + Sync, G: Gate>(
    rt: &R,
    alloc: Global,
    program: &Program,
    kept: Vec<Arc<Summary>>,
    effort: Effort,
    gate: &G,
) -> Result<Analysis, OutOfMemory>
    requires numbers { FitsCheck effort.budget effort.workers }
    requires divisors { DividesByLiterals (program_of program.now) }
    requires kept { MayBegin (program_of program.now) (map (λ a. a.value) kept.items) }
    ensures { IfOk result (λ a. IsAnalysis (program_of program.now) effort.budget
        (map (λ a. a.value) kept.items) a.board a.verdicts.items) }
{
    let board = board_with(rt, alloc, program, kept, effort, gate)?;
    let verdicts = verdicts_of(alloc, &board, program.asserts.len() as u32)?;
    are_values(&program.globals);
    Ok(Analysis { board, verdicts })
}

/// The same where nothing is known.
pub fn analyse<R: Threads + Wait + Sync, G: Gate>(
    rt: &R,
    alloc: Global,
    program: &Program,
    effort: Effort,
    gate: &G,
) -> Result<Analysis, OutOfMemory>
    requires numbers { FitsCheck effort.budget effort.workers }
    requires divisors { DividesByLiterals (program_of program.now) }
    ensures { IfOk result (λ a. IsAnalysis (program_of program.now) effort.budget [] a.board
        a.verdicts.items) }
{
    analyse_with(rt, alloc, program, Vec::new(alloc), effort, gate)
}
