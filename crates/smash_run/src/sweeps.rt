//! The command `sweep`: the paths of a program, one by one.

ghost use Rattle.std.specs.Prelude.{◌≡◌, ◌≤◌, IfOk, length, map};
ghost use Rattle.c_tree.specs.WellFormed.{DividesByLiterals};
ghost use Rattle.c_tree.specs.Whole.{program_of};
ghost use Rattle.report_text.specs.Sweeps.{entry_of};
ghost use Rattle.smash_run.specs.Swept.{IsSwept, sweep_status, unfound_at};
ghost use Rattle.command_words.specs.Words.{max_edges};
ghost use Rattle.smash_run.specs.steps.Handing.{TellsSwept, handed_in};

use crate::analysis::{are_values, graphs_of};
use crate::replies::{Reply, bare_reply};
use c_tree::tree::Program;
use path_sweep::sweep;
use path_sweep::swept::{SweepEnd, Swept};
use report_text::sweeps::Unfound;
use report_text::{is_any_found, is_any_unfound, swept};
use std::alloc::{AllocError, Global};

/// What is written of the assertions that a sweep of at most `edges` edges didn't find.
fn unfound(end: &SweepEnd, edges: u32) -> Unfound
    ensures { result ≡ unfound_at edges end.now }
{
    match end {
        SweepEnd::Whole => Unfound::Proved,
        SweepEnd::More => Unfound::Spent(edges),
        SweepEnd::Limit(kept) => Unfound::Limit(kept.limit.kind()),
    }
}

/// The status with which a sweep ends.
fn status(others: Unfound, found: &[Option<Vec<i64>>]) -> u8
    ensures { result ≡ sweep_status others (map entry_of found.now) }
{
    if is_any_found(found) {
        return 1;
    }
    match others {
        Unfound::Proved => 0,
        Unfound::Spent(_) | Unfound::Limit(_) => { if is_any_unfound(found) { 2 } else { 0 } }
    }
}

/// What is written of a sweep of at most `edges` edges.
fn swept_reply(
    alloc: Global,
    program: &Program,
    paths: &Swept,
    edges: u32,
) -> Result<Reply, AllocError>
    requires { length program.now.asserts.items ≡ length paths.now.found.items }
    ensures { IfOk result (λ a. TellsSwept (program_of program.now) edges paths.now a.status
        a.text.items (handed_in a)) }
{
    let others = unfound(&paths.end, edges);
    let text = swept(alloc, program, &paths.found, others)?;
    Ok(bare_reply(status(others, &paths.found), text))
}

/// The reply of `sweep` to a program.
pub fn sweep_program(alloc: Global, program: &Program, edges: u32) -> Result<Reply, AllocError>
    requires some { 1 ≤ edges }
    requires few { edges ≤ max_edges }
    requires divisors { DividesByLiterals (program_of program.now) }
    ensures { IfOk result (λ a. IsSwept (program_of program.now) edges a.status a.text.items
        (handed_in a)) }
{
    let graphs = graphs_of(alloc, program)?;
    let count = program.asserts.len() as u32;
    let paths = sweep(alloc, &graphs, program.main, count, edges)?;
    are_values(&program.globals);
    swept_reply(alloc, program, &paths, edges)
}
