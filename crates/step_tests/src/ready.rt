//! States of queries: their beginning, slices of them, and where they stand.

ghost use Rattle.std.specs.Prelude.{◌≡◌, ◌≤◌, List, [], length, IfOk};
ghost use Rattle.flow_graph.specs.declared.graph.Graph.{Graph as AGraph};
ghost use Rattle.query_rules.specs.States.{AllHold};
ghost use Rattle.step_tests.specs.Ready.{IsEnded, IsFitting, IsReady};

use flow_graph::graphs::Graphs;
use linear_formula::error::OutOfMemory;
use punch_step::slice::{Sliced, slice};
use query_rules::laws::{a_longer_state, an_asked_query};
use query_rules::state::{QueryState, begin_state};
use std::alloc::{AllocError, Global};
use std::sync::Arc;
use summary_form::query::Query;
use summary_table::table::Table;

/// No summary, and room for `room` of them.
pub fn no_table(alloc: Global, room: u32) -> Result<Table, OutOfMemory>
    ensures none { IfOk result (λ t. t.summaries ≡ []) }
    ensures holds { IfOk result (λ t. (gs : List AGraph) → AllHold gs t.summaries) }
{
    Table::with_room(alloc, room)
}

/// The state of a query without steps, for a table whose summaries hold.
pub fn begun_below(
    alloc: Global,
    graphs: &Graphs,
    table: &Table,
    query: Arc<Query>,
    level: u32,
    ancestors: Vec<Arc<Query>>,
) -> Result<QueryState, AllocError>
    requires fits { IsFitting graphs.now.graphs query.value }
    requires level { level ≡ length ancestors.items }
    requires holds { AllHold graphs.now.graphs table.now.summaries }
    ensures { IfOk result (λ s. IsReady graphs.now.graphs table.now.summaries s) }
{
    let _ = table.room();
    let state = begin_state(alloc, graphs, query, level, ancestors)?;
    Ok(state)
}

/// A slice of the state.
pub fn sliced(
    alloc: Global,
    graphs: &Graphs,
    table: &Table,
    state: &mut QueryState,
    left: u32,
    at_most: u32,
) -> Result<Sliced, OutOfMemory>
    requires at_most { 1 ≤ at_most }
    requires ready { IsReady graphs.now.graphs table.now.summaries state.old }
    ensures ready { IfOk result (λ s. IsReady graphs.now.graphs table.now.summaries state.new) }
    ensures ended { IfOk result
        (λ s. IsEnded graphs.now.graphs table.now.summaries state.new s.end) }
{
    a_longer_state();
    an_asked_query();
    slice(alloc, state, graphs, table, left, at_most)
}
