//! Steps that are preferred to the ones that are made first, where they are confirmed.

ghost use Rattle.std.specs.Prelude.{IfOk, IfSome};
ghost use Rattle.punch_step.specs.ByMusts.{CanCall};
ghost use Rattle.punch_step.specs.CallFrontiers.{IsCallStep, MayAskHere};
ghost use Rattle.punch_step.specs.Confirming.{IsCallCut, IsEdgeSplit, IsPreferred, IsWeakerAsk};
ghost use Rattle.punch_step.specs.Frontiers.{CanGo};
ghost use Rattle.must_region.specs.Traces.{trace_of};
ghost use Rattle.punch_step.specs.Sights.{ReadsStart};

use crate::call_split::call_split;
use crate::choice::Choice;
use crate::edge_split::edge_split;
use crate::excluding::part;
use crate::joining::join;
use crate::memo::Memos;
use crate::over_call::{CallFrontier, asked};
use crate::plain::Frontier;
use crate::weaker_ask::weaker_ask;
use flow_graph::graph::Graph;
use flow_graph::graphs::Graphs;
use linear_formula::error::OutOfMemory;
use query_rules::state::QueryState;
use query_rules::step::Step;
use std::alloc::Global;
use summary_form::query::Query;

/// A split by a query that isn't met.
fn preferred_part(
    alloc: Global,
    memos: &mut Memos,
    choice: &Choice,
    frontier: &CallFrontier,
) -> Result<Option<Step>, OutOfMemory>
    requires can { CanCall frontier.now.calling }
    requires start { ReadsStart choice.now.query.now (trace_of choice.now.trail.now) }
    ensures { IfOk result (λ o. IfSome o (IsCallCut frontier.now)) }
{
    match asked(alloc, frontier)? {
        Some(asking) => part(alloc, memos, choice, frontier, &asking.query),
        None => Ok(None),
    }
}

/// A split by a query that isn't met, or else one by the must of this place.
fn preferred_cut(
    alloc: Global,
    memos: &mut Memos,
    choice: &Choice,
    frontier: &CallFrontier,
    place: u32,
) -> Result<Option<Step>, OutOfMemory>
    requires can { CanCall frontier.now.calling }
    requires start { ReadsStart choice.now.query.now (trace_of choice.now.trail.now) }
    ensures { IfOk result (λ o. IfSome o (IsCallCut frontier.now)) }
{
    match preferred_part(alloc, memos, choice, frontier)? {
        Some(step) => Ok(Some(step)),
        None => call_split(alloc, memos, choice, frontier, place),
    }
}

/// The Ask of a weaker query.
fn weakened(
    alloc: Global,
    frontier: &CallFrontier,
    asked: &Query,
) -> Result<Option<Step>, OutOfMemory>
    requires can { CanCall frontier.now.calling }
    requires may { MayAskHere frontier.now asked.now }
    ensures { IfOk result (λ o. IfSome o (IsWeakerAsk frontier.now)) }
{
    match join(alloc, frontier, asked)? {
        Some(query) => weaker_ask(alloc, frontier, asked, &query),
        None => Ok(None),
    }
}

/// A split by a query that isn't met, or else the Ask of a weaker query than this.
fn preferred_ask(
    alloc: Global,
    memos: &mut Memos,
    choice: &Choice,
    frontier: &CallFrontier,
    asked: &Query,
) -> Result<Option<Step>, OutOfMemory>
    requires can { CanCall frontier.now.calling }
    requires start { ReadsStart choice.now.query.now (trace_of choice.now.trail.now) }
    requires may { MayAskHere frontier.now asked.now }
    ensures { IfOk result (λ o. IfSome o (IsPreferred frontier.now)) }
{
    match part(alloc, memos, choice, frontier, asked)? {
        Some(step) => Ok(Some(step)),
        None => weakened(alloc, frontier, asked),
    }
}

/// What is preferred over a call to this step, if it is confirmed.
pub fn preferred_call(
    alloc: Global,
    memos: &mut Memos,
    state: &QueryState,
    graphs: &Graphs,
    frontier: &CallFrontier,
    step: &Step,
) -> Result<Option<Step>, OutOfMemory>
    requires can { CanCall frontier.now.calling }
    requires step { IsCallStep frontier.now step.now }
    ensures { IfOk result (λ o. IfSome o (IsPreferred frontier.now)) }
{
    let calling = &frontier.calling;
    let choice = Choice {
        state,
        graphs,
        graph: calling.graph,
        from: frontier.at.from,
        query: calling.query,
        trail: calling.trail,
        point: calling.point,
        source: calling.source,
    };
    match step {
        Step::CallSplit { place, .. } => preferred_cut(alloc, memos, &choice, frontier, *place),
        Step::Ask { query, .. } => preferred_ask(alloc, memos, &choice, frontier, query),
        Step::Feed { .. } | Step::Stuck { .. } => preferred_part(alloc, memos, &choice, frontier),
        _ => Ok(None),
    }
}

/// What is preferred over an edge that is no call to this step, if it is confirmed.
pub fn preferred_split(
    alloc: Global,
    memos: &mut Memos,
    state: &QueryState,
    graphs: &Graphs,
    graph: &Graph,
    frontier: &Frontier,
    step: &Step,
) -> Result<Option<Step>, OutOfMemory>
    requires { CanGo frontier.now }
    ensures { IfOk result (λ o. IfSome o (IsEdgeSplit graph.now frontier.now)) }
{
    let Step::Split { .. } = step else {
        return Ok(None);
    };
    if frontier.source.is_long() || frontier.target.is_long() {
        return Ok(None);
    }
    let source = frontier.source.to_cube(alloc)?;
    let choice = Choice {
        state,
        graphs,
        graph,
        from: frontier.at.from,
        query: frontier.query,
        trail: frontier.trail,
        point: frontier.point,
        source: &source,
    };
    edge_split(alloc, memos, &choice, graph, frontier, &source)
}
