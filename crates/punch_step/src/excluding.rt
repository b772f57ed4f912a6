//! Which queries may part a call's source. Nothing is promised: `call_part` confirms.

ghost use Rattle.std.specs.Prelude.{IfOk, IfSome};
ghost use Rattle.must_region.specs.Traces.{trace_of};
ghost use Rattle.punch_step.specs.ByMusts.{CanCall};
ghost use Rattle.punch_step.specs.Confirming.{IsCallCut};
ghost use Rattle.punch_step.specs.Sights.{ReadsStart};

use crate::by_must::{called, number_of};
use crate::call_part::{call_part, excluded};
use crate::choice::{Choice, is_entailed};
use crate::memo::Memos;
use crate::over_call::CallFrontier;
use linear_formula::error::OutOfMemory;
use linear_formula::formula::{Atom, Cube};
use query_rules::step::{Excluded, Step};
use std::alloc::Global;
use summary_form::query::Query;
use summary_table::table::Table;

/// A query is tried if the asked one leaves at most so many of its atoms open.
const OPEN: usize = 2;

/// The same where no query waits for the answer of this one.
const OPEN_AT_ROOT: usize = 1;

/// Adds the numbers, from this one on, of those atoms that the rows don't entail, until they are
/// too many.
fn push_open(
    alloc: Global,
    rows: &Cube,
    atoms: &[Atom],
    first: u32,
    open: &mut Vec<u32>,
) -> Result<(), OutOfMemory> {
    let mut number = first;
    for atom in atoms {
        if open.len() > OPEN {
            return Ok(());
        }
        if !is_entailed(alloc, rows, atom)? {
            open.push(number)?;
        }
        number = number.saturating_add(1);
    }
    Ok(())
}

/// The numbers of the query's atoms that what the call asks doesn't entail; none where they are too
/// many.
fn open_atoms(alloc: Global, asked: &Cube, query: &Query) -> Result<Vec<u32>, OutOfMemory> {
    let mut open = Vec::new(alloc);
    let start = query.start.atoms.as_slice();
    push_open(alloc, asked, start, 0, &mut open)?;
    let end = query.end.atoms.as_slice();
    push_open(alloc, asked, end, number_of(start.len())?, &mut open)?;
    if open.len() > OPEN {
        open.clear();
    }
    Ok(open)
}

/// The split by one of the query's atoms.
fn part_by(
    alloc: Global,
    memos: &mut Memos,
    choice: &Choice,
    frontier: &CallFrontier,
    asked: &Cube,
    by: Excluded,
) -> Result<Option<Step>, OutOfMemory>
    requires can { CanCall frontier.now.calling }
    requires start { ReadsStart choice.now.query.now (trace_of choice.now.trail.now) }
    ensures { IfOk result (λ o. IfSome o (IsCallCut frontier.now)) }
{
    let Some(query) = excluded(frontier, by) else {
        return Ok(None);
    };
    if query.proc != called(frontier.calling.call) || query.exit != frontier.calling.exit {
        return Ok(None);
    }
    let open = open_atoms(alloc, asked, query)?;
    if frontier.ancestors.is_empty() && open.len() > OPEN_AT_ROOT {
        return Ok(None);
    }
    for atom in open.iter() {
        if let Some(step) = call_part(alloc, memos, choice, frontier, by, *atom)? {
            return Ok(Some(step));
        }
    }
    Ok(None)
}

/// The split by a query of a level, the own one first.
fn part_by_level(
    alloc: Global,
    memos: &mut Memos,
    choice: &Choice,
    frontier: &CallFrontier,
    asked: &Cube,
) -> Result<Option<Step>, OutOfMemory>
    requires can { CanCall frontier.now.calling }
    requires start { ReadsStart choice.now.query.now (trace_of choice.now.trail.now) }
    ensures { IfOk result (λ o. IfSome o (IsCallCut frontier.now)) }
{
    let own = number_of(frontier.ancestors.len())?;
    for below in 0..=own {
        let level = own - below;
        let by = Excluded::Level { level };
        if let Some(step) = part_by(alloc, memos, choice, frontier, asked, by)? {
            return Ok(Some(step));
        }
    }
    Ok(None)
}

/// The next place after this one with a summary of its procedure and exit kind, if it is one of the
/// table.
fn next_after(table: &Table, place: u32) -> Option<u32> {
    if place as usize >= table.all().len() {
        return None;
    }
    table.next_of(place)
}

/// The split by a not-may of the table.
fn part_by_table(
    alloc: Global,
    memos: &mut Memos,
    choice: &Choice,
    frontier: &CallFrontier,
    asked: &Cube,
) -> Result<Option<Step>, OutOfMemory>
    requires can { CanCall frontier.now.calling }
    requires start { ReadsStart choice.now.query.now (trace_of choice.now.trail.now) }
    ensures { IfOk result (λ o. IfSome o (IsCallCut frontier.now)) }
{
    let calling = &frontier.calling;
    let proc = called(calling.call);
    let mut at = frontier.table.next_from(proc, &calling.exit, 0);
    for _ in frontier.table.all() {
        let Some(place) = at else {
            return Ok(None);
        };
        let by = Excluded::Table { place };
        if let Some(step) = part_by(alloc, memos, choice, frontier, asked, by)? {
            return Ok(Some(step));
        }
        at = next_after(frontier.table, place);
    }
    Ok(None)
}

/// A split by a level or a not-may, so that it may answer what the mark's piece asks.
pub fn part(
    alloc: Global,
    memos: &mut Memos,
    choice: &Choice,
    frontier: &CallFrontier,
    asked: &Query,
) -> Result<Option<Step>, OutOfMemory>
    requires can { CanCall frontier.now.calling }
    requires start { ReadsStart choice.now.query.now (trace_of choice.now.trail.now) }
    ensures { IfOk result (λ o. IfSome o (IsCallCut frontier.now)) }
{
    let rows = asked.start.and(alloc, &asked.end)?;
    match part_by_level(alloc, memos, choice, frontier, &rows)? {
        Some(step) => Ok(Some(step)),
        None => part_by_table(alloc, memos, choice, frontier, &rows),
    }
}
