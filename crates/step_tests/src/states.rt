//! States of queries of one graph without calls, and slices of them.

ghost use Rattle.std.specs.Prelude.{◌≤◌, [], IfOk};
ghost use Rattle.step_tests.specs.Chained.{BeginsWith};
ghost use Rattle.step_tests.specs.Ready.{IsFitting, IsReady};

use crate::made::begins_with;
use crate::ready::{begun_below, no_table, sliced};
use flow_graph::graphs::Graphs;
use linear_formula::error::OutOfMemory;
use punch_step::slice::Sliced;
use query_rules::state::QueryState;
use std::alloc::{AllocError, Global};
use std::sync::Arc;
use std::test::Fail;
use summary_form::query::{ExitKind, Query};
use test_forms::bounds::at_least;
use test_forms::rows::empty;

/// Asks for runs with an argument of at least the bound.
fn asked_query(
    alloc: Global,
    graphs: &Graphs,
    exit: ExitKind,
    least: i32,
) -> Result<Query, AllocError>
    requires { BeginsWith graphs.now.graphs 1 }
    ensures { IfOk result (IsFitting graphs.now.graphs) }
{
    let start = at_least(alloc, 10_000, least)?;
    Ok(Query {
        proc: 0,
        exit,
        start,
        end: empty(alloc),
    })
}

fn begun_of(
    alloc: Global,
    graphs: &Graphs,
    exit: ExitKind,
    least: i32,
) -> Result<QueryState, AllocError>
    requires { BeginsWith graphs.now.graphs 1 }
    ensures { IfOk result (λ s. IsReady graphs.now.graphs [] s) }
{
    let query = Arc::new(alloc, asked_query(alloc, graphs, exit, least)?)?;
    let table = no_table(alloc, 0)?;
    begun_below(alloc, graphs, &table, query, 0, Vec::new(alloc))
}

/// The state of the query without steps.
pub fn begun(alloc: Global, graphs: &Graphs, exit: ExitKind, least: i32) -> Result<QueryState, Fail>
    ensures { IfOk result (λ s. IsReady graphs.now.graphs [] s) }
{
    if !begins_with(graphs, 1) {
        return Err(Fail::new("no procedure with one parameter"));
    }
    Ok(begun_of(alloc, graphs, exit, least)?)
}

/// A slice of the state, which goes on.
pub fn advanced(
    alloc: Global,
    graphs: &Graphs,
    state: &mut QueryState,
    left: u32,
    at_most: u32,
) -> Result<Sliced, OutOfMemory>
    requires at_most { 1 ≤ at_most }
    requires ready { IsReady graphs.now.graphs [] state.old }
    ensures { IfOk result (λ s. IsReady graphs.now.graphs [] state.new) }
{
    let table = no_table(alloc, 0)?;
    sliced(alloc, graphs, &table, state, left, at_most)
}
