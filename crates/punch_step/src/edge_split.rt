//! Confirms a split over an edge that is no call by atoms that follow from the preimage.

ghost use Rattle.std.specs.Prelude.{◌≡◌, ◌≢◌, IfOk, IfSome};
ghost use Rattle.punch_step.specs.Confirming.{IsEdgeSplit};
ghost use Rattle.punch_step.specs.Frontiers.{CanGo, IsPreAt};
ghost use Rattle.must_region.specs.Traces.{trace_of};
ghost use Rattle.punch_step.specs.Sights.{ReadsStart};

use crate::choice::{Choice, induced};
use crate::confirm::{Marked, confirmed};
use crate::memo::Memos;
use crate::plain::Frontier;
use flow_graph::graph::Graph;
use linear_formula::error::OutOfMemory;
use linear_formula::formula::Cube;
use query_rules::step::Step;
use shadow_elim::shadow::Pre;
use std::alloc::{AllocError, Global};
use weakest_pre::error::PreError;
use weakest_pre::preimage::pre;

/// The preimage over the edge, if no limit is met.
fn preimage(alloc: Global, frontier: &Frontier) -> Result<Option<Pre>, OutOfMemory>
    requires { CanGo frontier.now }
    ensures { IfOk result (λ o. IfSome o (IsPreAt frontier.now)) }
{
    let target = frontier.target.to_cube(alloc)?;
    match pre(alloc, frontier.edge, &target) {
        Ok(pre) => Ok(Some(pre)),
        Err(PreError::Limit(_)) => Ok(None),
        Err(PreError::Memory) => Err(AllocError),
    }
}

/// The split of the source by these atoms, if it is confirmed.
fn split_by(
    alloc: Global,
    memos: &mut Memos,
    graph: &Graph,
    frontier: &Frontier,
    source: &Cube,
    pre: &Pre,
    atoms: &Cube,
) -> Result<Option<Step>, OutOfMemory>
    requires can { CanGo frontier.now }
    requires inner { frontier.now.at.from ≢ 0 }
    requires source { source.now.atoms ≡ frontier.now.source.now.atoms }
    requires pre { IsPreAt frontier.now pre.now }
    ensures { IfOk result (λ o. IfSome o (IsEdgeSplit graph.now frontier.now)) }
{
    let marked = Marked {
        graph,
        query: frontier.query,
        trail: frontier.trail,
        source,
    };
    match confirmed(alloc, &mut memos.questions, &marked, &pre.cube, atoms)? {
        Some(cut) => Ok(Some(Step::Split {
            edge: frontier.at,
            atoms: cut.atoms.atoms,
            follows: cut.follows,
            proofs: cut.proofs,
        })),
        None => Ok(None),
    }
}

/// The split of the source by chosen atoms, if one is confirmed.
pub fn edge_split(
    alloc: Global,
    memos: &mut Memos,
    choice: &Choice,
    graph: &Graph,
    frontier: &Frontier,
    source: &Cube,
) -> Result<Option<Step>, OutOfMemory>
    requires can { CanGo frontier.now }
    requires start { ReadsStart choice.now.query.now (trace_of choice.now.trail.now) }
    requires source { source.now.atoms ≡ frontier.now.source.now.atoms }
    ensures { IfOk result (λ o. IfSome o (IsEdgeSplit graph.now frontier.now)) }
{
    if frontier.at.from == 0 {
        return Ok(None);
    }
    let Some(pre) = preimage(alloc, frontier)? else {
        return Ok(None);
    };
    match induced(alloc, memos, choice, &pre.cube)? {
        Some(atoms) => split_by(alloc, memos, graph, frontier, source, &pre, &atoms),
        None => Ok(None),
    }
}
