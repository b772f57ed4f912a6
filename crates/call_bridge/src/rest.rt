//! The rest of an atom over a call.

ghost use Rattle.std.specs.Prelude.{◌≡◌, ◌∷◌, [], ◌+◌, None, true, IfOk, IfErr};
ghost use Rattle.flow_graph.specs.Calls.{call_site};
ghost use Rattle.flow_graph.specs.Columns.{first_entry};
ghost use Rattle.flow_graph.specs.Shapes.{is_call};
ghost use Rattle.shadow_elim.specs.Projection.{gives, refuses, summed, projected, IfRefused};
ghost use Rattle.shadow_elim.specs.RightLimit.{IsRight};
ghost use Rattle.shadow_elim.specs.Shadows.{pair_rows};
ghost use Rattle.shadow_elim.specs.Sums.{first_wide, rows_of_sums, IsFirstWide};
ghost use Rattle.call_bridge.specs.Laws.{IsRegion};
ghost use Rattle.call_bridge.specs.Rests.{entry_columns, negation, rest_sums, exit_values, rest, FitsRest, HoldsRest};

use crate::asking::exit_columns;
use crate::columns::{NewNumbers, from_on};
use crate::error::BridgeError;
use c_tree::tree::Slot;
use flow_graph::calls::CallSite;
use flow_graph::columns::{FIRST_ENTRY, FIRST_EXIT};
use flow_graph::graph::Edge;
use linear_formula::error::OutOfMemory;
use linear_formula::formula::{Atom, Cube};
use linear_formula::question::Summands;
use shadow_elim::projection::{named_columns, project};
use shadow_elim::shadow::Pre;
use shadow_elim::sum::{Sum, push_read, total_rows};
use std::alloc::{AllocError, Global};
use summary_form::query::ExitKind;

/// The place of the last argument that has an entry value's column.
const LAST_ENTRY: usize = (u32::MAX - FIRST_ENTRY) as usize;

/// The negation of the atom, as the only sum.
fn negation(alloc: Global, atom: &Atom) -> Result<Vec<Sum>, OutOfMemory>
    ensures { IfOk result (λ s. s.items ≡ negation atom.now ∷ []) }
{
    let summands = vec![in alloc; (-1, atom.term.copy(alloc)?)]?;
    let sum = Sum {
        summands: Summands::from_vec(summands),
        constant: 1,
    };
    Ok(vec![in alloc; sum]?)
}

/// The row of the negation, or its limit.
fn negated_row(alloc: Global, atom: &Atom) -> Result<Cube, BridgeError>
    ensures rows { IfOk result (λ cube. cube.atoms ≡ rows_of_sums (negation atom.now ∷ [])) }
    ensures decided { IfOk result (λ _. first_wide (negation atom.now ∷ []) ≡ None) }
    ensures limit { IfErr result (λ e. IfRefused e (IsFirstWide (negation atom.now ∷ []))) }
    ensures right { IfErr result (λ e. IfRefused e IsRight) }
{
    let sums = negation(alloc, atom)?;
    total_rows(alloc, &sums)
}

/// The column of an entry value. A list of arguments that needs more columns than there are is
/// beyond memory.
fn entry_column(place: usize) -> Result<u32, OutOfMemory>
    ensures { IfOk result (λ c. c ≡ first_entry + place) }
{
    if place <= LAST_ENTRY {
        Ok(FIRST_ENTRY + place as u32)
    } else {
        Err(AllocError)
    }
}

/// The slot of each argument by its entry value.
fn entry_columns(alloc: Global, args: &[Slot]) -> Result<Vec<(u32, u32)>, OutOfMemory>
    ensures { IfOk result (λ c. c.items ≡ entry_columns 0 args.now) }
{
    let mut columns = Vec::with_capacity(alloc, args.len())?;
    for (place, arg) in args.iter().enumerate() {
        columns.push((entry_column(place)?, *arg))?;
    }
    Ok(columns)
}

/// The sums of the rows: the target's, and then the negation's.
fn rest_sums(
    alloc: Global,
    exit: ExitKind,
    site: &CallSite,
    target: &Cube,
    negated: &Cube,
) -> Result<Vec<Sum>, OutOfMemory>
    ensures { IfOk result
        (λ s. s.items ≡ rest_sums exit site.now target.now.atoms negated.now.atoms) }
{
    let mut sums = Vec::new(alloc);
    let behind = NewNumbers {
        first: exit_columns(alloc, exit, site.results())?,
        then: Vec::new(alloc),
    };
    push_read(alloc, &mut sums, &behind, target.atoms.as_slice())?;
    let before = NewNumbers {
        first: entry_columns(alloc, site.arguments())?,
        then: Vec::new(alloc),
    };
    push_read(alloc, &mut sums, &before, negated.atoms.as_slice())?;
    Ok(sums)
}

/// The exit values that the rows name.
fn exit_values(alloc: Global, rows: &Cube) -> Result<Vec<u32>, OutOfMemory>
    ensures { IfOk result (λ v. v.items ≡ exit_values rows.now.atoms) }
{
    let named = named_columns(alloc, rows.atoms.as_slice())?;
    from_on(alloc, &named, FIRST_EXIT)
}

/// The rows without exit values.
fn without_exits(alloc: Global, rows: &Cube) -> Result<Pre, BridgeError>
    ensures rows { IfOk result
        (λ p. projected (exit_values rows.now.atoms) rows.now.atoms
        ≡ gives p.cube.atoms (pair_rows p.inexact)) }
    ensures limit { IfErr result
        (λ e. IfRefused e (λ kept. projected (exit_values rows.now.atoms) rows.now.atoms
        ≡ refuses kept)) }
    ensures right { IfErr result (λ e. IfRefused e IsRight) }
{
    let columns = exit_values(alloc, rows)?;
    project(alloc, rows, &columns)
}

/// The rest by the row of the negation, or the first limit.
fn rest_by(
    alloc: Global,
    exit: ExitKind,
    site: &CallSite,
    target: &Cube,
    negated: &Cube,
) -> Result<Pre, BridgeError>
    ensures rows { IfOk result
        (λ p. summed (rest_sums exit site.now target.now.atoms negated.now.atoms)
        (λ rows. projected (exit_values rows) rows)
        ≡ gives p.cube.atoms (pair_rows p.inexact)) }
    ensures limit { IfErr result
        (λ e. IfRefused e (λ kept. summed (rest_sums exit site.now target.now.atoms
        negated.now.atoms) (λ rows. projected (exit_values rows) rows)
        ≡ refuses kept)) }
    ensures right { IfErr result (λ e. IfRefused e IsRight) }
{
    let sums = rest_sums(alloc, exit, site, target, negated)?;
    let rows = total_rows(alloc, &sums)?;
    without_exits(alloc, &rows)
}

/// The rows of the rest, or the first limit.
fn rest_rows(
    alloc: Global,
    exit: ExitKind,
    site: &CallSite,
    target: &Cube,
    atom: &Atom,
) -> Result<Pre, BridgeError>
    ensures rows { IfOk result
        (λ p. rest exit site.now target.now.atoms atom.now
        ≡ gives p.cube.atoms (pair_rows p.inexact)) }
    ensures limit { IfErr result
        (λ e. IfRefused e (λ kept. rest exit site.now target.now.atoms atom.now
        ≡ refuses kept)) }
    ensures right { IfErr result (λ e. IfRefused e IsRight) }
{
    let negated = negated_row(alloc, atom)?;
    rest_by(alloc, exit, site, target, &negated)
}

/// The rest over a call's edge, or the first limit.
fn rest_over(
    alloc: Global,
    exit: ExitKind,
    call: &Edge,
    target: &Cube,
    atom: &Atom,
) -> Result<Pre, BridgeError>
    requires { is_call call.now ≡ true }
    ensures rows { IfOk result
        (λ p. rest exit (call_site call.now) target.now.atoms atom.now
        ≡ gives p.cube.atoms (pair_rows p.inexact)) }
    ensures limit { IfErr result
        (λ e. IfRefused e (λ kept. rest exit (call_site call.now) target.now.atoms atom.now
        ≡ refuses kept)) }
    ensures right { IfErr result (λ e. IfRefused e IsRight) }
{
    rest_rows(alloc, exit, &CallSite::of(call), target, atom)
}

/// The cube of the states from which the call may lead into the target by a run that doesn't meet
/// the atom, one of a query about the called procedure (the precondition that a not-may leaves over
/// a call: NOTMAY-PRE-USESUMMARY of POPL 2010). Its rows are those of the target, in which exit
/// values stand for the slots of the results, and the negation of the atom, in which the arguments'
/// slots stand for the entry values; the exit values are projected away. The limit is that of the
/// negation, of the first sum that is too wide, or of the elimination.
pub fn rest_of(
    alloc: Global,
    exit: ExitKind,
    call: &Edge,
    target: &Cube,
    atom: &Atom,
) -> Result<Pre, BridgeError>
    requires { is_call call.now ≡ true }
    ensures rows { IfOk result
        (λ p. rest exit (call_site call.now) target.now.atoms atom.now
        ≡ gives p.cube.atoms (pair_rows p.inexact)) }
    ensures holds { IfOk result
        (λ p. FitsRest (call_site call.now) target.now.atoms atom.now →
        HoldsRest exit (call_site call.now) target.now.atoms atom.now p.cube.atoms) }
    ensures region { IfOk result
        (λ p. FitsRest (call_site call.now) target.now.atoms atom.now →
        IsRegion p.cube.atoms) }
    ensures limit { IfErr result
        (λ e. IfRefused e (λ kept. rest exit (call_site call.now) target.now.atoms atom.now
        ≡ refuses kept)) }
    ensures right { IfErr result (λ e. IfRefused e IsRight) }
{
    rest_over(alloc, exit, call, target, atom)
}
