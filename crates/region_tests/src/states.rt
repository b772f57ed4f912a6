//! A state of a query of one small graph: what it begins with, and what two steps make of it.

ghost use Rattle.std.specs.Prelude.{◌≡◌, [], IfOk};
ghost use Rattle.region_tests.specs.Returning.{AreReturning, IsEntryKill, ShowsAt, any_run, barred_model, entered_model, entry_step as entering, first_model, never as row_never, no_run, return_step as returning};

use flow_graph::graph::{Edge, Edges, Graph, Slots};
use flow_graph::graphs::{GraphList, Graphs};
use infeasible_cert::certificate::{Certificate, Derived, Multiples};
use linear_formula::assignment::{Assignment, Values};
use linear_formula::formula::Atom;
use linear_formula::term::{Parts, Term};
use may_partition::RegionEdge;
use query_rules::state::{QueryState, begin_state};
use query_rules::step::{Killer, Step};
use std::alloc::{AllocError, Global};
use std::sync::Arc;
use std::test::Fail;
use summary_form::query::{ExitKind, Query};
use summary_form::summary::Summary;
use test_forms::rows::empty;

/// Exit 0, `fail` 1, and node 2, which returns slot 0.
fn graphs(alloc: Global) -> Result<Graphs, AllocError>
    ensures { IfOk result (λ gs. AreReturning gs.graphs) }
{
    let enters = Edge::Entry { to: 2, params: 1 };
    let returns = Edge::Return {
        from: 2,
        to: 0,
        slots: Slots::from_vec(vec![in alloc; 0]?),
    };
    let edges = vec![in alloc; enters, returns]?;
    let graph = Graph::new(3, 0, 1, 1, 1, 1, Edges::from_vec(edges));
    let list = vec![in alloc; graph]?;
    Ok(Graphs::new(GraphList::from_vec(list)))
}

fn query(alloc: Global) -> Query
    ensures { result ≡ any_run }
{
    Query {
        proc: 0,
        exit: ExitKind::Return,
        start: empty(alloc),
        end: empty(alloc),
    }
}

fn begun(alloc: Global, graphs: &Graphs) -> Result<QueryState, AllocError>
    requires { AreReturning graphs.now.graphs }
    ensures { IfOk result (λ s. ShowsAt graphs.now.graphs s first_model) }
{
    let query = Arc::new(alloc, query(alloc))?;
    begin_state(alloc, graphs, query, 0, Vec::new(alloc))
}

/// Reads: 1 is at most 0.
fn never(alloc: Global) -> Atom
    ensures { result ≡ row_never }
{
    Atom {
        term: Term::new(Parts::from_vec(Vec::new(alloc)), 1),
    }
}

/// A query that starts at no state.
fn barred_query(alloc: Global) -> Result<Query, AllocError>
    ensures { IfOk result (λ q. q ≡ no_run) }
{
    let start = empty(alloc).with(alloc, never(alloc))?;
    Ok(Query {
        proc: 0,
        exit: ExitKind::Return,
        start,
        end: empty(alloc),
    })
}

fn barred(alloc: Global, graphs: &Graphs) -> Result<QueryState, AllocError>
    requires { AreReturning graphs.now.graphs }
    ensures { IfOk result (λ s. ShowsAt graphs.now.graphs s barred_model) }
{
    let query = Arc::new(alloc, barred_query(alloc)?)?;
    begin_state(alloc, graphs, query, 0, Vec::new(alloc))
}

/// The entry is killed, since nothing meets the start.
fn entry_kill(alloc: Global) -> Result<Step, AllocError>
    ensures { IfOk result (λ s. IsEntryKill s) }
{
    let edge = RegionEdge {
        edge: 0,
        from: 0,
        to: 3,
    };
    let parts = Multiples::from_vec(vec![in alloc; (0, 1)]?);
    let derived = Derived {
        row: never(alloc),
        parts,
        divide: 1,
    };
    let certificate = Certificate::Close(vec![in alloc; derived]?);
    Ok(Step::Kill {
        edge,
        by: Killer::Certificate(certificate),
    })
}

fn killed(alloc: Global, graphs: &Graphs) -> Result<QueryState, AllocError>
    requires { AreReturning graphs.now.graphs }
{
    let mut state = barred(alloc, graphs)?;
    let table: [Arc<Summary>; 0] = [];
    state.apply(alloc, entry_kill(alloc)?, graphs, &table)?;
    Ok(state)
}

/// The point at which each symbol is 0.
fn origin(alloc: Global) -> Assignment
    ensures { result ≡ [] }
{
    Assignment::new(Values::from_vec(Vec::new(alloc)))
}

/// Trail 0 over the entry edge.
fn entry_step(alloc: Global) -> Step
    ensures { result ≡ entering }
{
    let edge = RegionEdge {
        edge: 0,
        from: 0,
        to: 3,
    };
    Step::Extend {
        edge,
        trail: 0,
        point: origin(alloc),
    }
}

/// Trail 0 over the return.
fn return_step(alloc: Global) -> Step
    ensures { result ≡ returning }
{
    let edge = RegionEdge {
        edge: 1,
        from: 3,
        to: 1,
    };
    Step::Extend {
        edge,
        trail: 0,
        point: origin(alloc),
    }
}

fn entered(alloc: Global, graphs: &Graphs) -> Result<QueryState, AllocError>
    requires { AreReturning graphs.now.graphs }
    ensures { IfOk result (λ s. ShowsAt graphs.now.graphs s entered_model) }
{
    let mut state = begun(alloc, graphs)?;
    let table: [Arc<Summary>; 0] = [];
    state.apply(alloc, entry_step(alloc), graphs, &table)?;
    Ok(state)
}

fn returned(alloc: Global, graphs: &Graphs) -> Result<QueryState, AllocError>
    requires { AreReturning graphs.now.graphs }
{
    let mut state = entered(alloc, graphs)?;
    let table: [Arc<Summary>; 0] = [];
    state.apply(alloc, return_step(alloc), graphs, &table)?;
    Ok(state)
}

/// Whether the marks are of these trails and regions.
fn has_marks(state: &QueryState, wanted: &[(u32, u32)]) -> bool {
    for (mark, (trail, region)) in state.marks().iter().zip(wanted) {
        if mark.trail != *trail || mark.region != *region {
            return false;
        }
    }
    state.marks().len() == wanted.len()
}

fn is_live(state: &QueryState, edge: u32, from: u32, to: u32) -> bool {
    state.partition().live(&RegionEdge { edge, from, to })
}

/// The steps, trails, asked queries, ancestors and regions, and the level.
fn counts(state: &QueryState) -> [usize; 6] {
    [
        state.steps().len(),
        state.trails().len(),
        state.asked().len(),
        state.ancestors().len(),
        state.partition().regions().len(),
        state.level() as usize,
    ]
}

#[test]
fn begins_outside(rt: HostRuntime) -> Result<(), Fail> {
    let graphs = graphs(rt.alloc())?;
    let state = begun(rt.alloc(), &graphs)?;
    let marked = has_marks(&state, &[(0, 0)]);
    let first = state.lowest().is_none() && state.query().proc == 0;
    assert!(rt; marked && first && counts(&state) == [0, 1, 0, 0, 4, 0]);
    Ok(())
}

#[test]
fn enters_without_a_new_trail(rt: HostRuntime) -> Result<(), Fail> {
    let graphs = graphs(rt.alloc())?;
    let state = entered(rt.alloc(), &graphs)?;
    let marked = has_marks(&state, &[(0, 0), (0, 3)]);
    assert!(rt; marked && counts(&state) == [1, 1, 0, 0, 4, 0]);
    Ok(())
}

#[test]
fn returns_by_a_new_trail(rt: HostRuntime) -> Result<(), Fail> {
    let graphs = graphs(rt.alloc())?;
    let state = returned(rt.alloc(), &graphs)?;
    let marked = has_marks(&state, &[(0, 0), (0, 3), (1, 1)]);
    assert!(rt; marked && counts(&state) == [2, 2, 0, 0, 4, 0]);
    Ok(())
}

#[test]
fn kills_the_entry(rt: HostRuntime) -> Result<(), Fail> {
    let graphs = graphs(rt.alloc())?;
    let state = killed(rt.alloc(), &graphs)?;
    let marked = has_marks(&state, &[(0, 0)]);
    let live = (is_live(&state, 0, 0, 3), is_live(&state, 1, 3, 1));
    assert!(rt; marked && live == (false, true) && state.lowest().is_none());
    Ok(())
}
