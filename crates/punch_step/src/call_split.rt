//! Confirms a split over a call by atoms that follow from the preimage of a must.

ghost use Rattle.std.specs.Prelude.{IfOk, IfSome};
ghost use Rattle.must_region.specs.Traces.{trace_of};
ghost use Rattle.punch_step.specs.ByMusts.{CanCall};
ghost use Rattle.punch_step.specs.Confirming.{HasMustPreimage, IsCallCut};
ghost use Rattle.punch_step.specs.Sights.{ReadsStart};

use crate::by_must::is_of;
use crate::choice::{Choice, chosen};
use crate::confirm::{Marked, confirmed};
use crate::memo::Memos;
use crate::over_call::CallFrontier;
use crate::preimages::Preimage;
use call_bridge::musts::names_numbers;
use linear_formula::error::OutOfMemory;
use linear_formula::formula::Cube;
use query_rules::step::Step;
use std::alloc::Global;
use summary_form::summary::Summary;

/// The preimage of the must at this place, if it is one of the called procedure with this exit and
/// no limit is met.
fn preimage(
    alloc: Global,
    memos: &mut Memos,
    frontier: &CallFrontier,
    place: u32,
) -> Result<Option<Cube>, OutOfMemory>
    requires { CanCall frontier.now.calling }
    ensures { IfOk result (λ o. IfSome o (λ c. HasMustPreimage frontier.now place c.atoms)) }
{
    let calling = &frontier.calling;
    let Some(summary) = frontier.table.all().get(place as usize) else {
        return Ok(None);
    };
    let Summary::Must(must) = &**summary else {
        return Ok(None);
    };
    if !is_of(calling, must) {
        return Ok(None);
    }
    names_numbers(must);
    match memos
        .preimages
        .rows_of(alloc, must, calling.call, calling.target)?
    {
        Preimage::Rows(pre) => Ok(Some(pre.copy(alloc)?)),
        Preimage::Limit(_kept) => Ok(None),
    }
}

/// The split by the preimage of the must at this place, if one is confirmed.
pub fn call_split(
    alloc: Global,
    memos: &mut Memos,
    choice: &Choice,
    frontier: &CallFrontier,
    place: u32,
) -> Result<Option<Step>, OutOfMemory>
    requires can { CanCall frontier.now.calling }
    requires start { ReadsStart choice.now.query.now (trace_of choice.now.trail.now) }
    ensures { IfOk result (λ o. IfSome o (IsCallCut frontier.now)) }
{
    let Some(pre) = preimage(alloc, memos, frontier, place)? else {
        return Ok(None);
    };
    let Some(atoms) = chosen(alloc, memos, choice, &pre)? else {
        return Ok(None);
    };
    let calling = &frontier.calling;
    let marked = Marked {
        graph: calling.graph,
        query: calling.query,
        trail: calling.trail,
        source: calling.source,
    };
    match confirmed(alloc, &mut memos.questions, &marked, &pre, &atoms)? {
        Some(cut) => Ok(Some(Step::CallSplit {
            edge: frontier.at,
            place,
            atoms: cut.atoms.atoms,
            follows: cut.follows,
            proofs: cut.proofs,
        })),
        None => Ok(None),
    }
}
