//! Trails over calls by musts.

ghost use Rattle.std.specs.Prelude.{◌≡◌, ◌++◌, map, None, IfOk, IfErr, OnOk, IsTrue};
ghost use Rattle.linear_formula.specs.Formula.{renamed_atoms_by};
ghost use Rattle.linear_formula.specs.Results.{renamed_by};
ghost use Rattle.shadow_elim.specs.Projection.{IfRefused};
ghost use Rattle.shadow_elim.specs.RightLimit.{IsRight};
ghost use Rattle.shadow_elim.specs.Sums.{first_wide, rows_of_sums, IsFirstWide};
ghost use Rattle.flow_graph.specs.Shapes.{is_call};
ghost use Rattle.must_region.specs.Traces.{trace_of};
ghost use Rattle.must_region.specs.Rules.{shifted, matches, must_sums, must_node, must_failed, must_slots, carried, carried_sums};
ghost use Rattle.must_region.specs.steps.Drafts.{drafted};

use crate::draft::Draft;
use crate::error::TrailError;
use crate::shifting::{push_shifted, push_shifted_atoms};
use crate::slots::{term_at, with_terms};
use crate::trail::Trail;
use c_tree::tree::{AssertId, Slot};
use flow_graph::graph::Edge;
use linear_formula::error::OutOfMemory;
use linear_formula::formula::{Atoms, Cube};
use linear_formula::shared::SharedCube;
use linear_formula::term::Term;
use shadow_elim::sum::{Sum, push_equal, total_rows};
use std::alloc::Global;
use summary_form::numbers::number_behind_both;
use summary_form::path::{Path, Terms};
use summary_form::query::ExitKind;

/// Adds the two rows for each argument and its term.
fn push_matches(
    alloc: Global,
    sums: &mut Vec<Sum>,
    slots: &[Term],
    args: &[Slot],
    terms: &[Term],
) -> Result<(), OutOfMemory>
    ensures { OnOk result
        (sums.new.items ≡ sums.old.items ++ matches slots.now args.now terms.now) }
{
    for (arg, term) in args.iter().zip(terms) {
        let slot_term = term_at(alloc, slots, *arg)?;
        push_equal(alloc, sums, &slot_term, term)?;
    }
    Ok(())
}

/// The rows that make the arguments equal to the must's entry terms.
fn match_rows(alloc: Global, trail: &Trail, args: &[Slot], must: &Path) -> Result<Cube, TrailError>
    ensures rows { IfOk result
        (λ c. c.atoms ≡ rows_of_sums (must_sums (trace_of trail.now) args.now must.now)) }
    ensures decided { IfOk result
        (λ _. first_wide (must_sums (trace_of trail.now) args.now must.now) ≡ None) }
    ensures limit { IfErr result
        (λ e. IfRefused e (IsFirstWide (must_sums (trace_of trail.now) args.now must.now))) }
    ensures right { IfErr result (λ e. IfRefused e IsRight) }
{
    let mut entry = Vec::with_capacity(alloc, must.entry.as_slice().len())?;
    push_shifted(alloc, &mut entry, must.entry.as_slice(), trail.symbols)?;
    let mut sums = Vec::new(alloc);
    push_matches(alloc, &mut sums, trail.slots.as_slice(), args, &entry)?;
    total_rows(alloc, &sums)
}

/// The guards of both, and then the rows. The trail's own rows are shared.
fn joined_guard(
    alloc: Global,
    trail: &Trail,
    must: &Path,
    rows: &Cube,
) -> Result<SharedCube, OutOfMemory>
    ensures { IfOk result
        (λ c. c.atoms ≡ (trail.now.guard.atoms ++ renamed_atoms_by (shifted trail.now.symbols)
        must.now.guard.atoms) ++ rows.now.atoms) }
{
    let mut atoms = Atoms::new(alloc);
    push_shifted_atoms(
        alloc,
        &mut atoms,
        must.guard.atoms.as_slice(),
        trail.symbols,
    )?;
    let guards = trail.guard.and(alloc, &Cube { atoms })?;
    guards.and(alloc, rows)
}

/// The inputs of both.
fn joined_inputs(alloc: Global, trail: &Trail, must: &Path) -> Result<Terms, OutOfMemory>
    ensures { IfOk result
        (λ ts. ts ≡ trail.now.inputs ++ map (renamed_by (shifted trail.now.symbols))
        must.now.inputs) }
{
    let mut items = trail.inputs.copy(alloc)?.into_vec();
    push_shifted(alloc, &mut items, must.inputs.as_slice(), trail.symbols)?;
    Ok(Terms::from_vec(items))
}

fn node_behind(to: u32, fail: u32, exit: ExitKind) -> u32
    ensures { result ≡ must_node to fail exit }
{
    match exit {
        ExitKind::Return => to,
        ExitKind::Fail(_) => fail,
    }
}

fn failed_behind(exit: ExitKind, old: Option<AssertId>) -> Option<AssertId>
    ensures { result ≡ must_failed exit old }
{
    match exit {
        ExitKind::Return => old,
        ExitKind::Fail(id) => Some(id),
    }
}

/// The slots after the call: where the must returns, the call's results have the outcome terms.
fn slots_behind(
    alloc: Global,
    trail: &Trail,
    results: &[Slot],
    must: &Path,
) -> Result<Terms, OutOfMemory>
    ensures { IfOk result
        (λ ts. ts ≡ must_slots (trace_of trail.now) must.now.exit results.now must.now) }
{
    match must.exit {
        ExitKind::Return => {
            let mut outcome = Vec::new(alloc);
            push_shifted(alloc, &mut outcome, must.outcome.as_slice(), trail.symbols)?;
            with_terms(alloc, &trail.slots, results, &outcome)
        }
        ExitKind::Fail(_) => trail.slots.copy(alloc),
    }
}

/// The trail over a call by a must.
pub fn draft_by_must(
    alloc: Global,
    trail: &Trail,
    fail: u32,
    call: &Edge,
    must: &Path,
) -> Result<Draft, TrailError>
    requires { IsTrue (is_call call.now) }
    ensures draft { IfOk result
        (λ d. drafted d ≡ carried (trace_of trail.now) fail call.now must.now) }
    ensures decided { IfOk result
        (λ _. first_wide (carried_sums (trace_of trail.now) call.now must.now) ≡ None) }
    ensures limit { IfErr result
        (λ e. IfRefused e (IsFirstWide (carried_sums (trace_of trail.now) call.now must.now))) }
    ensures right { IfErr result (λ e. IfRefused e IsRight) }
{
    let Edge::Call {
        to,
        args,
        results,
        ..
    } = call
    else {
        unreachable!()
    };
    let symbols = number_behind_both(trail.symbols, must.symbols)?;
    let rows = match_rows(alloc, trail, args.as_slice(), must)?;
    let guard = joined_guard(alloc, trail, must, &rows)?;
    let entry = trail.entry.copy(alloc)?;
    let inputs = joined_inputs(alloc, trail, must)?;
    let slots = slots_behind(alloc, trail, results.as_slice(), must)?;
    Ok(Draft {
        node: node_behind(*to, fail, must.exit),
        symbols,
        guard,
        entry,
        inputs,
        slots,
        failed: failed_behind(must.exit, trail.failed),
    })
}
