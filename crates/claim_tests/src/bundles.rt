//! Bundles of hand-made claims over the graphs of sources.

use crate::sources::graphs;
use bundle_check::{Checked, asked_over, check_bundle};
use flow_graph::graph::{Edge, Graph};
use flow_graph::graphs::Graphs;
use linear_formula::formula::{Atoms, Cube};
use may_partition::partition::Partition;
use may_partition::region::RegionEdge;
use proof_bundle::bundle::{Bundle, Claim, Move, Moves};
use query_rules::certificates::Certificates;
use std::alloc::{AllocError, Global};
use std::test::Fail;
use summary_form::query::{ExitKind, Query};
use test_programs::program::program_of;

/// The failure of `f` is no run of `main`.
const UNCALLED: &str = "int main(){return 0;} int f(){assert(0);return 0;}";

/// `main` fails.
const FAILING: &str = "int main(){assert(0);return 0;}";

/// No run of `f` ends, so none of `main` reaches the assertion.
const ENDLESS: &str = "int f(){ return f(); } int main(){ f(); assert(0); return 0; }";

fn any(alloc: Global) -> Cube {
    Cube {
        atoms: Atoms::new(alloc),
    }
}

/// A query about all runs of a procedure that end so.
fn all_runs(alloc: Global, proc: u32, exit: ExitKind) -> Query {
    Query {
        proc,
        exit,
        start: any(alloc),
        end: any(alloc),
    }
}

fn claim(alloc: Global, proc: u32, exit: ExitKind, moves: Vec<Move>) -> Claim {
    Claim {
        query: all_runs(alloc, proc, exit),
        moves: Moves::from_vec(moves),
    }
}

/// The call is killed by a claim that needs no certificate.
fn by_claim(alloc: Global, edge: RegionEdge, claim: u32) -> Move {
    Move::KillCall {
        edge,
        claim,
        proof: Certificates::from_vec(Vec::new(alloc)),
    }
}

/// The first call of a graph: where it returns, and where it fails.
fn first_call(graph: &Graph) -> Option<(RegionEdge, RegionEdge)> {
    for (number, edge) in graph.edges.as_slice().iter().enumerate() {
        if let Edge::Call { from, to, .. } = edge {
            let edge = u32::try_from(number).ok()?;
            let from = from.wrapping_add(1);
            let returns = RegionEdge {
                edge,
                from,
                to: to.wrapping_add(1),
            };
            let fails = RegionEdge {
                edge,
                from,
                to: graph.fail.wrapping_add(1),
            };
            return Some((returns, fails));
        }
    }
    None
}

fn call_of(graphs: &Graphs, proc: usize) -> Result<(RegionEdge, RegionEdge), Fail> {
    let Some(graph) = graphs.graphs.as_slice().get(proc) else {
        return Err(Fail::new("no such procedure"));
    };
    match first_call(graph) {
        Some(call) => Ok(call),
        None => Err(Fail::new("no call")),
    }
}

/// The answer for the first assertion of a source.
fn answer(alloc: Global, source: &str, claims: Vec<Claim>) -> Result<Checked, Fail> {
    let program = program_of(alloc, source.as_bytes())?;
    let graphs = graphs(alloc, &program)?;
    let bundle = Bundle {
        source: Vec::from_slice(alloc, source.as_bytes())?,
        id: 0,
        claims,
    };
    Ok(check_bundle(alloc, &bundle, &program, &graphs)?)
}

/// The claim that no run of a procedure fails, without a move.
fn never_fails(alloc: Global, proc: u32) -> Result<Vec<Claim>, AllocError> {
    Ok(vec![in alloc; claim(alloc, proc, ExitKind::Fail(0), Vec::new(alloc))]?)
}

#[test]
fn accepts_what_is_never_called(rt: HostRuntime) -> Result<(), Fail> {
    let claims = never_fails(rt.alloc(), 0)?;
    assert_eq!(&rt; answer(rt.alloc(), UNCALLED, claims)?, Checked::Right);
    Ok(())
}

#[test]
fn rejects_a_failure(rt: HostRuntime) -> Result<(), Fail> {
    let claims = never_fails(rt.alloc(), 0)?;
    assert_eq!(&rt;
        answer(rt.alloc(), FAILING, claims)?,
        Checked::Wrong { claim: 0 }
    );
    Ok(())
}

#[test]
fn rejects_no_claims(rt: HostRuntime) -> Result<(), Fail> {
    assert_eq!(&rt;
        answer(rt.alloc(), UNCALLED, Vec::new(rt.alloc()))?,
        Checked::Wrong { claim: 0 }
    );
    Ok(())
}

/// The kills of the claims about the endless calls.
#[derive(Clone, Copy)]
struct Kills {
    main_returns: u32,
    main_fails: u32,
}

/// Claims that no run of `main` fails, that none of `f` returns and that none of `f` fails: the
/// last two name themselves.
fn endless(alloc: Global, graphs: &Graphs, kills: Kills) -> Result<Vec<Claim>, Fail> {
    let (main_returns, main_fails) = call_of(graphs, 1)?;
    let (returns, fails) = call_of(graphs, 0)?;
    let mut claims = Vec::new(alloc);
    let of_main = vec![in alloc;
        by_claim(alloc, main_returns, kills.main_returns),
        by_claim(alloc, main_fails, kills.main_fails),
    ]?;
    claims.push(claim(alloc, 1, ExitKind::Fail(0), of_main))?;
    let returning = vec![in alloc; by_claim(alloc, returns, 1)]?;
    claims.push(claim(alloc, 0, ExitKind::Return, returning))?;
    let failing = vec![in alloc; by_claim(alloc, fails, 2)]?;
    claims.push(claim(alloc, 0, ExitKind::Fail(0), failing))?;
    Ok(claims)
}

fn endless_answer(alloc: Global, kills: Kills) -> Result<Checked, Fail> {
    let program = program_of(alloc, ENDLESS.as_bytes())?;
    let graphs = graphs(alloc, &program)?;
    let claims = endless(alloc, &graphs, kills)?;
    let bundle = Bundle {
        source: Vec::new(alloc),
        id: 0,
        claims,
    };
    Ok(check_bundle(alloc, &bundle, &program, &graphs)?)
}

#[test]
fn claims_may_name_themselves(rt: HostRuntime) -> Result<(), Fail> {
    let kills = Kills {
        main_returns: 1,
        main_fails: 2,
    };
    assert_eq!(&rt; endless_answer(rt.alloc(), kills)?, Checked::Right);
    Ok(())
}

#[test]
fn the_named_claim_counts(rt: HostRuntime) -> Result<(), Fail> {
    for &(main_returns, main_fails) in &[(2, 2), (1, 1), (0, 2), (3, 2), (u32::MAX, 2)] {
        let kills = Kills {
            main_returns,
            main_fails,
        };
        assert_eq!(&rt;
            endless_answer(rt.alloc(), kills)?,
            Checked::Wrong { claim: 0 }
        );
    }
    Ok(())
}

/// The query that the first call of `main` asks where it returns.
fn asked(alloc: Global, exit: ExitKind, fails: bool) -> Result<Option<Query>, Fail> {
    let program = program_of(alloc, ENDLESS.as_bytes())?;
    let graphs = graphs(alloc, &program)?;
    let sides = call_of(&graphs, 1)?;
    let Some(graph) = graphs.graphs.as_slice().get(1) else {
        return Err(Fail::new("no main"));
    };
    let partition = Partition::begin(alloc, graph, &all_runs(alloc, 1, exit))?;
    let edge = if fails { sides.1 } else { sides.0 };
    Ok(asked_over(alloc, graph, exit, &partition, &edge)?)
}

#[test]
fn calls_ask(rt: HostRuntime) -> Result<(), Fail> {
    let returns = all_runs(rt.alloc(), 0, ExitKind::Return);
    assert_eq!(&rt; asked(rt.alloc(), ExitKind::Return, false)?, Some(returns));
    let fails = all_runs(rt.alloc(), 0, ExitKind::Fail(0));
    assert_eq!(&rt; asked(rt.alloc(), ExitKind::Fail(0), true)?, Some(fails));
    assert_eq!(&rt; asked(rt.alloc(), ExitKind::Return, true)?, None);
    Ok(())
}
