//! Children of states: how they are begun, and what their states learn of them.

ghost use Rattle.std.specs.Prelude.{◌≡◌, ◌++◌, ◌∷◌, [], None, Some, slice_get, IfOk, IsTrue, OnOk};
ghost use Rattle.query_rules.specs.declared.step.Closing.TheVariants as closing;
ghost use Rattle.query_rules.specs.declared.step.News.TheVariants as news;
ghost use Rattle.punch_step.specs.declared.slice.SliceEnd.TheVariants as ends;
ghost use Rattle.step_tests.specs.Ready.{IsAskedAs, IsEnded, IsReady};

use crate::ready::begun_below;
use crate::tables::add;
use flow_graph::graphs::Graphs;
use linear_formula::error::OutOfMemory;
use punch_step::slice::SliceEnd;
use query_rules::laws::{a_longer_state, a_longer_table, a_must, no_run};
use query_rules::state::QueryState;
use query_rules::step::{Asked, Closing, News};
use shadow_elim::limit::LimitKind;
use std::alloc::Global;
use std::sync::Arc;
use std::test::Fail;
use summary_form::path::Path;
use summary_form::query::Query;
use summary_form::summary::Summary;
use summary_table::table::Table;

/// The asked query of this number.
fn entry_of(parent: &QueryState, asked: u32) -> Result<&Asked, Fail>
    ensures { IfOk result (λ a. slice_get parent.now.asked asked ≡ Some a.now) }
{
    let entries = parent.asked();
    let place = asked as usize;
    if place >= entries.len() {
        return Err(Fail::new("nothing is asked there"));
    }
    Ok(&entries[place])
}

/// The state of the asked query of this number, without steps.
pub fn ask_child(
    alloc: Global,
    graphs: &Graphs,
    table: &Table,
    parent: &QueryState,
    asked: u32,
) -> Result<QueryState, Fail>
    requires { IsReady graphs.now.graphs table.now.summaries parent.now }
    ensures { IfOk result (λ s. IsReady graphs.now.graphs table.now.summaries s) }
{
    let entry = entry_of(parent, asked)?;
    let copied = entry.query.copy(alloc)?;
    let query = Arc::new(alloc, copied)?;
    let own = parent.query().clone()?;
    let ancestors = vec![in alloc; own]?;
    Ok(begun_below(alloc, graphs, table, query, 1, ancestors)?)
}

/// Whether the entry is of this query, and nothing is reported of it.
fn is_of(entry: &Asked, query: &Query) -> bool
    ensures { IsTrue result → (entry.now.query ≡ query.now) × (entry.now.news ≡ news.Waiting) }
{
    entry.query == *query && entry.news == News::Waiting
}

/// The query of this number is that of the child, and nothing is reported of it.
fn see_asked(parent: &QueryState, asked: u32, child: &Query) -> Result<(), Fail>
    ensures { OnOk result (IsAskedAs parent.now asked child.now) }
{
    let entry = entry_of(parent, asked)?;
    if !is_of(entry, child) {
        return Err(Fail::new("another query is asked there, or something is told of it"));
    }
    Ok(())
}

/// The child leans on no level.
fn leans_on_none(child: &QueryState) -> Result<(), Fail>
    ensures { OnOk result (child.now.lowest ≡ None) }
{
    match child.lowest() {
        None => Ok(()),
        Some(_) => Err(Fail::new("the child leans on a level")),
    }
}

/// Adds the summary.
fn keep(alloc: Global, table: &mut Table, summary: Summary) -> Result<(), Fail>
    ensures { OnOk result (table.new.summaries ≡ table.old.summaries ++ summary ∷ []) }
{
    add(table, Arc::new(alloc, summary)?)
}

/// The table gets the path, and that is reported to the parent.
fn learn_must(
    alloc: Global,
    graphs: &Graphs,
    table: &mut Table,
    parent: &mut QueryState,
    asked: u32,
    child: &QueryState,
    path: &Path,
) -> Result<(), Fail>
    requires parent { IsReady graphs.now.graphs table.old.summaries parent.old }
    requires child { IsEnded graphs.now.graphs table.old.summaries child.now
        (ends.Closed (closing.Must path.now)) }
    ensures { OnOk result (IsReady graphs.now.graphs table.new.summaries parent.new) }
{
    a_must();
    a_longer_table();
    a_longer_state();
    let query = query_of(child);
    see_asked(parent, asked, query)?;
    let copied = path.copy(alloc)?;
    keep(alloc, table, Summary::Must(copied))?;
    parent.tell(asked, 1, News::Must);
    Ok(())
}

fn query_of(child: &QueryState) -> &Query
    ensures { result.now ≡ child.now.query }
{
    child.query()
}

fn copied_query(alloc: Global, child: &QueryState) -> Result<Query, OutOfMemory>
    ensures { IfOk result (λ q. q ≡ child.now.query) }
{
    query_of(child).copy(alloc)
}

/// The table gets the query as a not-may, and that is reported to the parent.
fn learn_not_may(
    alloc: Global,
    graphs: &Graphs,
    table: &mut Table,
    parent: &mut QueryState,
    asked: u32,
    child: &QueryState,
) -> Result<(), Fail>
    requires parent { IsReady graphs.now.graphs table.old.summaries parent.old }
    requires child { IsEnded graphs.now.graphs table.old.summaries child.now
        (ends.Closed closing.NotMay) }
    ensures { OnOk result (IsReady graphs.now.graphs table.new.summaries parent.new) }
{
    no_run();
    a_longer_table();
    a_longer_state();
    leans_on_none(child)?;
    let query = query_of(child);
    see_asked(parent, asked, query)?;
    let copied = copied_query(alloc, child)?;
    keep(alloc, table, Summary::NotMay(copied))?;
    parent.tell(asked, 1, News::NotMay { lowest: None });
    Ok(())
}

/// It is reported to the parent that the child was given up at such a limit.
pub fn learn_given_up(
    graphs: &Graphs,
    table: &Table,
    parent: &mut QueryState,
    asked: u32,
    kind: LimitKind,
) -> Result<(), Fail>
    requires { IsReady graphs.now.graphs table.now.summaries parent.old }
    ensures { OnOk result (IsReady graphs.now.graphs table.now.summaries parent.new) }
{
    a_longer_state();
    let entry = entry_of(parent, asked)?;
    see_asked(parent, asked, &entry.query)?;
    parent.tell(asked, 1, News::Stuck(kind));
    Ok(())
}

/// It is reported to the parent that the child has used up its part of the budget.
pub fn learn_starved(
    graphs: &Graphs,
    table: &Table,
    parent: &mut QueryState,
    asked: u32,
) -> Result<(), Fail>
    requires { IsReady graphs.now.graphs table.now.summaries parent.old }
    ensures { OnOk result (IsReady graphs.now.graphs table.now.summaries parent.new) }
{
    a_longer_state();
    let entry = entry_of(parent, asked)?;
    see_asked(parent, asked, &entry.query)?;
    parent.tell(asked, 1, News::Starved);
    Ok(())
}

/// The parent and the table learn how the child is closed.
pub fn learn(
    alloc: Global,
    graphs: &Graphs,
    table: &mut Table,
    parent: &mut QueryState,
    asked: u32,
    child: &QueryState,
    end: &SliceEnd,
) -> Result<(), Fail>
    requires parent { IsReady graphs.now.graphs table.old.summaries parent.old }
    requires child { IsEnded graphs.now.graphs table.old.summaries child.now end.now }
    ensures { OnOk result (IsReady graphs.now.graphs table.new.summaries parent.new) }
{
    match end {
        SliceEnd::Closed(Closing::Must(path)) => {
            learn_must(alloc, graphs, table, parent, asked, child, path)
        }
        SliceEnd::Closed(Closing::NotMay) => {
            learn_not_may(alloc, graphs, table, parent, asked, child)
        }
        _ => Err(Fail::new("the child isn't closed so")),
    }
}

/// The table gets the path, which isn't reported to the parent.
fn keep_must(
    alloc: Global,
    graphs: &Graphs,
    table: &mut Table,
    parent: &QueryState,
    child: &QueryState,
    path: &Path,
) -> Result<(), Fail>
    requires parent { IsReady graphs.now.graphs table.old.summaries parent.now }
    requires child { IsEnded graphs.now.graphs table.old.summaries child.now
        (ends.Closed (closing.Must path.now)) }
    ensures { OnOk result (IsReady graphs.now.graphs table.new.summaries parent.now) }
{
    a_must();
    a_longer_table();
    let copied = path.copy(alloc)?;
    keep(alloc, table, Summary::Must(copied))?;
    Ok(())
}

/// The table gets the query as a not-may, which isn't reported to the parent.
fn keep_not_may(
    alloc: Global,
    graphs: &Graphs,
    table: &mut Table,
    parent: &QueryState,
    child: &QueryState,
) -> Result<(), Fail>
    requires parent { IsReady graphs.now.graphs table.old.summaries parent.now }
    requires child { IsEnded graphs.now.graphs table.old.summaries child.now
        (ends.Closed closing.NotMay) }
    ensures { OnOk result (IsReady graphs.now.graphs table.new.summaries parent.now) }
{
    no_run();
    a_longer_table();
    leans_on_none(child)?;
    let copied = copied_query(alloc, child)?;
    keep(alloc, table, Summary::NotMay(copied))?;
    Ok(())
}

/// The table alone learns how the child is closed.
pub fn keep_end(
    alloc: Global,
    graphs: &Graphs,
    table: &mut Table,
    parent: &QueryState,
    child: &QueryState,
    end: &SliceEnd,
) -> Result<(), Fail>
    requires parent { IsReady graphs.now.graphs table.old.summaries parent.now }
    requires child { IsEnded graphs.now.graphs table.old.summaries child.now end.now }
    ensures { OnOk result (IsReady graphs.now.graphs table.new.summaries parent.now) }
{
    match end {
        SliceEnd::Closed(Closing::Must(path)) => {
            keep_must(alloc, graphs, table, parent, child, path)
        }
        SliceEnd::Closed(Closing::NotMay) => keep_not_may(alloc, graphs, table, parent, child),
        _ => Err(Fail::new("the child isn't closed so")),
    }
}
