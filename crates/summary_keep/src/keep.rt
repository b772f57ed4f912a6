//! What is kept of a table.

ghost use Rattle.std.specs.Prelude.{◌≡◌, ◌++◌, [], IfOk, OnOk, map};
ghost use Rattle.std.specs.Option.{option_map};
ghost use Rattle.c_tree.specs.Whole.{program_of};
ghost use Rattle.summary_form.specs.declared.summary.Summary.{Summary as ASummary};
ghost use Rattle.summary_keep.specs.Keeping.{SummariesHold, IsMatchingOf, kept, new_exit, number_in, put, renumbered};

use crate::numbers::Matching;
use c_tree::tree::{AssertId, Program};
use linear_formula::error::OutOfMemory;
use std::alloc::Global;
use std::sync::Arc;
use summary_form::path::Path;
use summary_form::query::{ExitKind, Query};
use summary_form::summary::Summary;

/// The new number, if there is one.
fn number(numbers: &[Option<u32>], old: u32) -> Option<u32>
    ensures { result ≡ number_in numbers.now old }
{
    match numbers.get(old as usize) {
        Some(Some(number)) => Some(*number),
        _ => None,
    }
}

/// The same exit of the new program, if its assertion has a new number.
fn new_exit(asserts: &[Option<AssertId>], exit: ExitKind) -> Option<ExitKind>
    ensures { result ≡ new_exit asserts.now exit }
{
    match exit {
        ExitKind::Return => Some(ExitKind::Return),
        ExitKind::Fail(id) => match number(asserts, id) {
            Some(number) => Some(ExitKind::Fail(number)),
            None => None,
        },
    }
}

/// The query with other numbers.
fn query_of(
    alloc: Global,
    query: &Query,
    proc: u32,
    exit: ExitKind,
) -> Result<Arc<Summary>, OutOfMemory>
    ensures { IfOk result
        (λ a. a.value ≡ ASummary.NotMay (record query.now { proc = proc; exit = exit })) }
{
    let mut copy = query.copy(alloc)?;
    copy.proc = proc;
    copy.exit = exit;
    Ok(Arc::new(alloc, Summary::NotMay(copy))?)
}

/// The path with other numbers.
fn path_with(alloc: Global, path: &Path, proc: u32, exit: ExitKind) -> Result<Path, OutOfMemory>
    ensures { IfOk result (λ p. p ≡ record path.now { proc = proc; exit = exit }) }
{
    let guard = path.guard.copy(alloc)?;
    let entry = path.entry.copy(alloc)?;
    let inputs = path.inputs.copy(alloc)?;
    let outcome = path.outcome.copy(alloc)?;
    Ok(Path {
        proc,
        exit,
        symbols: path.symbols,
        guard,
        entry,
        inputs,
        outcome,
    })
}

/// The same as a summary.
fn path_of(
    alloc: Global,
    path: &Path,
    proc: u32,
    exit: ExitKind,
) -> Result<Arc<Summary>, OutOfMemory>
    ensures { IfOk result
        (λ a. a.value ≡ ASummary.Must (record path.now { proc = proc; exit = exit })) }
{
    let other = path_with(alloc, path, proc, exit)?;
    Ok(Arc::new(alloc, Summary::Must(other))?)
}

/// The same summary of the new program, if its procedure and its assertion have new numbers.
fn renumbered(
    alloc: Global,
    matching: &Matching,
    summary: &Summary,
) -> Result<Option<Arc<Summary>>, OutOfMemory>
    ensures { IfOk result (λ o. option_map (λ a. a.value) o
        ≡ renumbered matching.now.procs.items matching.now.asserts.items summary.now) }
{
    let (proc, exit) = match summary {
        Summary::NotMay(query) => (query.proc, query.exit),
        Summary::Must(path) => (path.proc, path.exit),
    };
    let Some(proc) = number(&matching.procs, proc) else {
        return Ok(None);
    };
    let Some(exit) = new_exit(&matching.asserts, exit) else {
        return Ok(None);
    };
    match summary {
        Summary::NotMay(query) => Ok(Some(query_of(alloc, query, proc, exit)?)),
        Summary::Must(path) => Ok(Some(path_of(alloc, path, proc, exit)?)),
    }
}

/// One more, if there is one.
fn push_some(out: &mut Vec<Arc<Summary>>, other: Option<Arc<Summary>>) -> Result<(), OutOfMemory>
    ensures { OnOk result (map (λ a. a.value) out.new.items
        ≡ map (λ a. a.value) out.old.items ++ put (option_map (λ a. a.value) other) []) }
{
    if let Some(other) = other {
        out.push(other)?;
    }
    Ok(())
}

/// The summaries of an old program that are kept, in order and with the new numbers: those whose
/// procedure is the same in the new program, and whose exit is a return or an assertion that is.
/// Each of them holds of the new program.
pub fn keep(
    alloc: Global,
    old: &Program,
    new: &Program,
    matching: &Matching,
    summaries: &[Arc<Summary>],
) -> Result<Vec<Arc<Summary>>, OutOfMemory>
    requires matching { IsMatchingOf (program_of old.now) (program_of new.now)
        matching.now.procs.items matching.now.asserts.items }
    requires hold { SummariesHold (program_of old.now) (map (λ a. a.value) summaries.now) }
    ensures kept { IfOk result (λ v. map (λ a. a.value) v.items
        ≡ kept matching.now.procs.items matching.now.asserts.items
        (map (λ a. a.value) summaries.now)) }
    ensures hold { IfOk result
        (λ v. SummariesHold (program_of new.now) (map (λ a. a.value) v.items)) }
{
    let _named = (old.main, new.main);
    let mut out = Vec::new(alloc);
    for summary in summaries {
        let other = renumbered(alloc, matching, summary)?;
        push_some(&mut out, other)?;
    }
    Ok(out)
}
