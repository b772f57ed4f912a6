//! Confirms an Ask of a query that the asked one entails.

ghost use Rattle.std.specs.Prelude.{◌≡◌, true, IfOk, IfSome, IsTrue};
ghost use Rattle.flow_graph.specs.Columns.{is_among, is_entry_column, is_value_column, names_only, rows_name_only};
ghost use Rattle.flow_graph.specs.Shapes.{is_call};
ghost use Rattle.summary_form.specs.NotMays.{is_end_column};
ghost use Rattle.punch_step.specs.ByMusts.{CanCall};
ghost use Rattle.punch_step.specs.CallFrontiers.{MayAskHere};
ghost use Rattle.punch_step.specs.Confirming.{FitsCallee, IsWeakerAsk};

use crate::entailing::{Entailing, Holder, entailing_query, not_may_of};
use crate::over_call::{CallFrontier, is_asked, seen};
use flow_graph::calls::CallSite;
use flow_graph::columns::{FIRST_ENTRY, FIRST_EXIT};
use linear_formula::error::OutOfMemory;
use linear_formula::formula::Atom;
use linear_formula::term::Term;
use query_rules::step::Step;
use std::alloc::Global;
use summary_form::query::{ExitKind, Query};

/// Whether the column is one of so many from the first on.
fn is_one_of(first: u32, count: usize, column: u32) -> bool
    ensures { result ≡ is_among first count column }
{
    column >= first && ((column - first) as usize) < count
}

fn is_value(entries: usize, exits: usize, column: u32) -> bool
    ensures { result ≡ is_value_column entries exits column }
{
    is_one_of(FIRST_ENTRY, entries, column) || is_one_of(FIRST_EXIT, exits, column)
}

fn names_values(entries: usize, exits: usize, term: &Term) -> bool
    ensures { result ≡ names_only (is_value_column entries exits) term.now }
{
    term.parts()
        .iter()
        .all(|part| is_value(entries, exits, part.0))
}

/// Whether the rows name so many entry and exit values alone.
fn name_values(entries: usize, exits: usize, rows: &[Atom]) -> bool
    ensures { result ≡ rows_name_only (is_value_column entries exits) rows.now }
{
    rows.iter()
        .all(|row| names_values(entries, exits, &row.term))
}

fn names_entries(entries: usize, term: &Term) -> bool
    ensures { result ≡ names_only (is_entry_column entries) term.now }
{
    term.parts()
        .iter()
        .all(|part| is_one_of(FIRST_ENTRY, entries, part.0))
}

/// Whether the rows name so many entry values alone.
fn name_entries(entries: usize, rows: &[Atom]) -> bool
    ensures { result ≡ rows_name_only (is_entry_column entries) rows.now }
{
    rows.iter().all(|row| names_entries(entries, &row.term))
}

/// Whether the rows can stand at the end of a query: at a failure there are no exit values.
fn fit_end(entries: usize, exits: usize, exit: ExitKind, rows: &[Atom]) -> bool
    ensures { result ≡ rows_name_only (is_end_column (record {
      entries = entries;
      exits = exits;
    }) exit) rows.now }
{
    match exit {
        ExitKind::Return => name_values(entries, exits, rows),
        ExitKind::Fail(_) => name_entries(entries, rows),
    }
}

/// Whether the query names only values that the runs of the called procedure have.
fn fits_callee(frontier: &CallFrontier, query: &Query) -> bool
    requires { is_call frontier.now.calling.call.now ≡ true }
    ensures { IsTrue result → FitsCallee frontier.now query.now }
{
    let site = CallSite::of(frontier.calling.call);
    let entries = site.arguments().len();
    let exits = site.results().len();
    name_entries(entries, query.start.atoms.as_slice())
        && fit_end(entries, exits, query.exit, query.end.atoms.as_slice())
}

/// The Ask of this query in the place of the asked one, if it is confirmed: the asked one entails
/// it, and nobody else answers it.
pub fn weaker_ask(
    alloc: Global,
    frontier: &CallFrontier,
    asked: &Query,
    query: &Query,
) -> Result<Option<Step>, OutOfMemory>
    requires can { CanCall frontier.now.calling }
    requires may { MayAskHere frontier.now asked.now }
    ensures { IfOk result (λ o. IfSome o (IsWeakerAsk frontier.now)) }
{
    if query.proc != asked.proc || query.exit != asked.exit || !fits_callee(frontier, query) {
        return Ok(None);
    }
    let Entailing::Yes(follows) = entailing_query(alloc, asked, query)? else {
        return Ok(None);
    };
    if is_asked(frontier, query) {
        return Ok(None);
    }
    let Holder::None = not_may_of(alloc, query, frontier.table, 0)? else {
        return Ok(None);
    };
    Ok(Some(Step::Ask {
        edge: frontier.at,
        query: query.copy(alloc)?,
        follows,
        seen: seen(frontier.table)?,
    }))
}
