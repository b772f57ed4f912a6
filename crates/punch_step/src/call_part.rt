//! Confirms a split over a call by the rest of an atom of a query that isn't met.

ghost use Rattle.std.specs.Prelude.{◌≡◌, Some, slice_get, IfOk, IfSome};
ghost use Rattle.query_rules.specs.Rows.{rows_of_query};
ghost use Rattle.must_region.specs.Traces.{trace_of};
ghost use Rattle.punch_step.specs.Sights.{ReadsStart};
ghost use Rattle.punch_step.specs.ByMusts.{CanCall};
ghost use Rattle.punch_step.specs.Confirming.{HasRest, IsCallCut, IsExcludedHere};

use crate::by_must::called;
use crate::choice::{Choice, chosen};
use crate::confirm::{Marked, confirmed};
use crate::memo::Memos;
use crate::over_call::CallFrontier;
use call_bridge::error::BridgeError;
use call_bridge::rest::rest_of;
use linear_formula::error::OutOfMemory;
use linear_formula::formula::{Atom, Cube};
use query_rules::step::{Excluded, Step};
use std::alloc::{AllocError, Global};
use summary_form::query::Query;
use summary_form::summary::Summary;

/// The query of a not-may of the table, or of a level.
pub fn excluded<'a>(frontier: &'a CallFrontier, by: Excluded) -> Option<&'a Query>
    ensures { IfSome result (λ q. IsExcludedHere frontier.now by q.now) }
{
    match by {
        Excluded::Table { place } => match frontier.table.all().get(place as usize) {
            Some(summary) => match &**summary {
                Summary::NotMay(query) => Some(query),
                Summary::Must(_) => None,
            },
            None => None,
        },
        Excluded::Level { level } => match frontier.ancestors.get(level as usize) {
            Some(query) => Some(&**query),
            None if level as usize == frontier.ancestors.len() => Some(frontier.calling.query),
            None => None,
        },
    }
}

/// The atom of this number among those of the start and then of the end.
fn atom_of(query: &Query, number: u32) -> Option<&Atom>
    ensures { IfSome result (λ a. slice_get (rows_of_query query.now) number ≡ Some a.now) }
{
    let start = query.start.atoms.as_slice();
    match start.get(number as usize) {
        Some(atom) => Some(atom),
        None => query
            .end
            .atoms
            .as_slice()
            .get(number as usize - start.len()),
    }
}

/// The rest of the query's atom over the call, if the query is of the called procedure and exit,
/// and no limit is met.
fn rest(
    alloc: Global,
    frontier: &CallFrontier,
    by: Excluded,
    atom: u32,
) -> Result<Option<Cube>, OutOfMemory>
    requires { CanCall frontier.now.calling }
    ensures { IfOk result (λ o. IfSome o (λ c. HasRest frontier.now by atom c.atoms)) }
{
    let calling = &frontier.calling;
    let Some(query) = excluded(frontier, by) else {
        return Ok(None);
    };
    if query.proc != called(calling.call) || query.exit != calling.exit {
        return Ok(None);
    }
    let Some(atom) = atom_of(query, atom) else {
        return Ok(None);
    };
    match rest_of(alloc, calling.exit, calling.call, calling.target, atom) {
        Ok(pre) => Ok(Some(pre.cube)),
        Err(BridgeError::Limit(_)) => Ok(None),
        Err(BridgeError::Memory) => Err(AllocError),
    }
}

/// The split by the rest of the atom of this number, if one is confirmed.
pub fn call_part(
    alloc: Global,
    memos: &mut Memos,
    choice: &Choice,
    frontier: &CallFrontier,
    by: Excluded,
    atom: u32,
) -> Result<Option<Step>, OutOfMemory>
    requires can { CanCall frontier.now.calling }
    requires start { ReadsStart choice.now.query.now (trace_of choice.now.trail.now) }
    ensures { IfOk result (λ o. IfSome o (IsCallCut frontier.now)) }
{
    let Some(rows) = rest(alloc, frontier, by, atom)? else {
        return Ok(None);
    };
    let Some(atoms) = chosen(alloc, memos, choice, &rows)? else {
        return Ok(None);
    };
    let calling = &frontier.calling;
    let marked = Marked {
        graph: calling.graph,
        query: calling.query,
        trail: calling.trail,
        source: calling.source,
    };
    match confirmed(alloc, &mut memos.questions, &marked, &rows, &atoms)? {
        Some(cut) => Ok(Some(Step::CallPart {
            edge: frontier.at,
            by,
            atom,
            atoms: cut.atoms.atoms,
            follows: cut.follows,
            proofs: cut.proofs,
        })),
        None => Ok(None),
    }
}
