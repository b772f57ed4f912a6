//! Trails over edges that are no calls.

ghost use Rattle.std.specs.Prelude.{◌≡◌, ◌∷◌, [], ◌++◌, ◌+◌, None, Some, false, IfOk, IfErr};
ghost use Rattle.shadow_elim.specs.Projection.{IfRefused};
ghost use Rattle.shadow_elim.specs.RightLimit.{IsRight};
ghost use Rattle.shadow_elim.specs.Sums.{first_wide, row_sums, rows_of_sums, IsFirstWide};
ghost use Rattle.flow_graph.specs.Readings.{reading};
ghost use Rattle.flow_graph.specs.Columns.{first_symbol};
ghost use Rattle.flow_graph.specs.Shapes.{source, is_call};
ghost use Rattle.flow_graph.specs.declared.graph.Edge.TheVariants.{Assign, Guard, Input, Pick, Assert, Return};
ghost use Rattle.must_region.specs.Traces.{trace_of};
ghost use Rattle.must_region.specs.Rules.{value_sum, range_sums, sums_of, extended};
ghost use Rattle.must_region.specs.steps.Drafts.{drafted};

use crate::draft::Draft;
use crate::error::TrailError;
use crate::reading::AtEnd;
use crate::slots::{term_at, terms_at, with_last, with_term};
use crate::trail::Trail;
use c_tree::tree::Slot;
use flow_graph::columns::FIRST_SYMBOL;
use flow_graph::graph::{Edge, Lin, Slots};
use linear_formula::error::OutOfMemory;
use linear_formula::formula::{Atoms, Cube};
use linear_formula::question::Summands;
use linear_formula::reading::column_term;
use linear_formula::term::Term;
use shadow_elim::sum::{Sum, read_onto, total_rows, total_term};
use std::alloc::{AllocError, Global};
use summary_form::numbers::MAX_NUMBER;
use summary_form::path::Terms;

/// The cube's rows with the terms at the end of a trail in the places of their columns.
pub fn read_rows(alloc: Global, at_end: &AtEnd, cube: &Cube) -> Result<Cube, TrailError>
    ensures rows { IfOk result
        (λ c. c.atoms ≡ rows_of_sums (row_sums (reading at_end.now.slots.now at_end.now.entry.now)
        cube.now.atoms)) }
    ensures decided { IfOk result
        (λ _. first_wide (row_sums (reading at_end.now.slots.now at_end.now.entry.now)
        cube.now.atoms) ≡ None) }
    ensures limit { IfErr result
        (λ e. IfRefused e (IsFirstWide (row_sums (reading at_end.now.slots.now
        at_end.now.entry.now) cube.now.atoms))) }
    ensures right { IfErr result (λ e. IfRefused e IsRight) }
{
    let atoms = cube.atoms.as_slice();
    let mut rows = Atoms::with_capacity(alloc, atoms.len())?;
    read_onto(alloc, &mut rows, at_end, atoms)?;
    Ok(Cube { atoms: rows })
}

/// The rows of a start and then of an end, with the terms at the end of a trail in the places of
/// their columns.
pub fn read_both(
    alloc: Global,
    at_end: &AtEnd,
    start: &Cube,
    end: &Cube,
) -> Result<Cube, TrailError>
    ensures rows { IfOk result
        (λ c. c.atoms ≡ rows_of_sums (row_sums (reading at_end.now.slots.now at_end.now.entry.now)
        start.now.atoms ++ row_sums (reading at_end.now.slots.now at_end.now.entry.now)
        end.now.atoms)) }
    ensures decided { IfOk result
        (λ _. first_wide (row_sums (reading at_end.now.slots.now at_end.now.entry.now)
        start.now.atoms ++ row_sums (reading at_end.now.slots.now at_end.now.entry.now)
        end.now.atoms) ≡ None) }
    ensures limit { IfErr result
        (λ e. IfRefused e (IsFirstWide (row_sums (reading at_end.now.slots.now
        at_end.now.entry.now) start.now.atoms ++ row_sums (reading at_end.now.slots.now
        at_end.now.entry.now) end.now.atoms))) }
    ensures right { IfErr result (λ e. IfRefused e IsRight) }
{
    let first = start.atoms.as_slice();
    let second = end.atoms.as_slice();
    let mut rows = Atoms::with_capacity(alloc, first.len() + second.len())?;
    read_onto(alloc, &mut rows, at_end, first)?;
    read_onto(alloc, &mut rows, at_end, second)?;
    Ok(Cube { atoms: rows })
}

/// The value of an assignment at the terms of the slots.
fn assigned_sum(alloc: Global, slots: &[Term], value: &Lin) -> Result<Sum, OutOfMemory>
    ensures { IfOk result (λ s. s ≡ value_sum slots.now value.now) }
{
    let mut items = Vec::with_capacity(alloc, value.parts.as_slice().len())?;
    for (coefficient, slot) in value.parts.as_slice() {
        items.push((*coefficient, term_at(alloc, slots, *slot)?))?;
    }
    Ok(Sum {
        summands: Summands::from_vec(items),
        constant: value.constant,
    })
}

/// A multiple of a term and a constant.
fn multiple(alloc: Global, multiplier: i64, term: &Term, constant: i64) -> Result<Sum, OutOfMemory>
    ensures { IfOk result
        (λ s. s ≡ record { summands = (multiplier, term.now) ∷ []; constant = constant }) }
{
    let summands = vec![in alloc; (multiplier, term.copy(alloc)?)]?;
    Ok(Sum {
        summands: Summands::from_vec(summands),
        constant,
    })
}

/// The two rows of a term's range.
fn range_rows(alloc: Global, term: &Term) -> Result<Cube, TrailError>
    ensures rows { IfOk result (λ c. c.atoms ≡ rows_of_sums (range_sums term.now)) }
    ensures decided { IfOk result (λ _. first_wide (range_sums term.now) ≡ None) }
    ensures limit { IfErr result (λ e. IfRefused e (IsFirstWide (range_sums term.now))) }
    ensures right { IfErr result (λ e. IfRefused e IsRight) }
{
    let mut sums = Vec::with_capacity(alloc, 2)?;
    sums.push(multiple(alloc, 1, term, -i64::MAX)?)?;
    sums.push(multiple(alloc, -1, term, i64::MIN)?)?;
    total_rows(alloc, &sums)
}

/// The trail at another node, with more rows and with these slots.
fn behind(
    alloc: Global,
    trail: &Trail,
    node: u32,
    rows: &Cube,
    slots: Terms,
) -> Result<Draft, OutOfMemory>
    ensures { IfOk result
        (λ d. drafted d ≡ record {
          node = node;
          symbols = trail.now.symbols;
          guard = record { atoms = trail.now.guard.atoms ++ rows.now.atoms };
          entry = trail.now.entry;
          inputs = trail.now.inputs;
          slots = slots;
          failed = trail.now.failed;
        }) }
{
    let guard = trail.guard.and(alloc, rows)?;
    let entry = trail.entry.copy(alloc)?;
    let inputs = trail.inputs.copy(alloc)?;
    Ok(Draft {
        node,
        symbols: trail.symbols,
        guard,
        entry,
        inputs,
        slots,
        failed: trail.failed,
    })
}

/// The value first, and then its range.
fn over_assign(
    alloc: Global,
    trail: &Trail,
    to: u32,
    slot: Slot,
    value: &Lin,
) -> Result<Draft, TrailError>
    ensures draft { IfOk result
        (λ d. drafted d ≡ extended (trace_of trail.now) (Assign trail.now.node to slot value.now)) }
    ensures decided { IfOk result
        (λ _. first_wide (sums_of (trace_of trail.now) (Assign trail.now.node to slot value.now))
        ≡ None) }
    ensures limit { IfErr result
        (λ e. IfRefused e
        (IsFirstWide (sums_of (trace_of trail.now) (Assign trail.now.node to slot value.now)))) }
    ensures right { IfErr result (λ e. IfRefused e IsRight) }
{
    let sum = assigned_sum(alloc, trail.slots.as_slice(), value)?;
    let term = total_term(alloc, &sum)?;
    let rows = range_rows(alloc, &term)?;
    let slots = with_term(alloc, &trail.slots, slot, term)?;
    Ok(behind(alloc, trail, to, &rows, slots)?)
}

/// The rows at the end of the trail.
fn over_rows(alloc: Global, trail: &Trail, to: u32, rows: &Cube) -> Result<Draft, TrailError>
    ensures draft { IfOk result
        (λ d. drafted d ≡ extended (trace_of trail.now) (Guard trail.now.node to rows.now)) }
    ensures decided { IfOk result
        (λ _. first_wide (sums_of (trace_of trail.now) (Guard trail.now.node to rows.now)) ≡ None) }
    ensures limit { IfErr result
        (λ e. IfRefused e
        (IsFirstWide (sums_of (trace_of trail.now) (Guard trail.now.node to rows.now)))) }
    ensures right { IfErr result (λ e. IfRefused e IsRight) }
{
    let at_end = AtEnd {
        slots: trail.slots.as_slice(),
        entry: trail.entry.as_slice(),
    };
    let read = read_rows(alloc, &at_end, rows)?;
    let slots = trail.slots.copy(alloc)?;
    Ok(behind(alloc, trail, to, &read, slots)?)
}

/// The column of the next symbol, unless its number is too great.
fn next_column(symbols: u32) -> Result<u32, OutOfMemory>
    ensures { IfOk result (λ x. x ≡ first_symbol + symbols) }
{
    if symbols < MAX_NUMBER {
        Ok(FIRST_SYMBOL + symbols)
    } else {
        Err(AllocError)
    }
}

/// The slot has the next symbol, which is the last input.
fn over_input(alloc: Global, trail: &Trail, to: u32, slot: Slot) -> Result<Draft, OutOfMemory>
    ensures { IfOk result
        (λ d. drafted d ≡ extended (trace_of trail.now) (Input trail.now.node to slot)) }
{
    let column = next_column(trail.symbols)?;
    let slots = with_term(alloc, &trail.slots, slot, column_term(alloc, column)?)?;
    let inputs = with_last(alloc, &trail.inputs, column_term(alloc, column)?)?;
    let guard = trail.guard.copy(alloc)?;
    let entry = trail.entry.copy(alloc)?;
    Ok(Draft {
        node: to,
        symbols: trail.symbols + 1,
        guard,
        entry,
        inputs,
        slots,
        failed: trail.failed,
    })
}

/// The slot has the next symbol, at which the rows are read.
fn over_pick(
    alloc: Global,
    trail: &Trail,
    to: u32,
    slot: Slot,
    rows: &Cube,
) -> Result<Draft, TrailError>
    ensures draft { IfOk result
        (λ d. drafted d ≡ extended (trace_of trail.now) (Pick trail.now.node to slot rows.now)) }
    ensures decided { IfOk result
        (λ _. first_wide (sums_of (trace_of trail.now) (Pick trail.now.node to slot rows.now))
        ≡ None) }
    ensures limit { IfErr result
        (λ e. IfRefused e
        (IsFirstWide (sums_of (trace_of trail.now) (Pick trail.now.node to slot rows.now)))) }
    ensures right { IfErr result (λ e. IfRefused e IsRight) }
{
    let column = next_column(trail.symbols)?;
    let slots = with_term(alloc, &trail.slots, slot, column_term(alloc, column)?)?;
    let at_end = AtEnd {
        slots: slots.as_slice(),
        entry: trail.entry.as_slice(),
    };
    let read = read_rows(alloc, &at_end, rows)?;
    let mut draft = behind(alloc, trail, to, &read, slots)?;
    draft.symbols = trail.symbols + 1;
    Ok(draft)
}

/// The terms of what is returned stay alone.
fn over_return(
    alloc: Global,
    trail: &Trail,
    to: u32,
    returned: &Slots,
) -> Result<Draft, OutOfMemory>
    ensures { IfOk result
        (λ d. drafted d ≡ extended (trace_of trail.now) (Return trail.now.node to returned.now)) }
{
    let slots = terms_at(alloc, trail.slots.as_slice(), returned.as_slice())?;
    let rows = Cube {
        atoms: Atoms::new(alloc),
    };
    behind(alloc, trail, to, &rows, slots)
}

/// The trail over an edge that leaves its node and is no call.
pub fn draft_over(alloc: Global, trail: &Trail, edge: &Edge) -> Result<Draft, TrailError>
    requires no_call { is_call edge.now ≡ false }
    requires leaves { source edge.now ≡ Some trail.now.node }
    ensures draft { IfOk result (λ d. drafted d ≡ extended (trace_of trail.now) edge.now) }
    ensures decided { IfOk result
        (λ _. first_wide (sums_of (trace_of trail.now) edge.now) ≡ None) }
    ensures limit { IfErr result
        (λ e. IfRefused e (IsFirstWide (sums_of (trace_of trail.now) edge.now))) }
    ensures right { IfErr result (λ e. IfRefused e IsRight) }
{
    match edge {
        Edge::Assign {
            to,
            slot,
            value,
            ..
        } => over_assign(alloc, trail, *to, *slot, value),
        Edge::Guard { to, rows, .. } => over_rows(alloc, trail, *to, rows),
        Edge::Input { to, slot, .. } => Ok(over_input(alloc, trail, *to, *slot)?),
        Edge::Pick { to, slot, rows, .. } => over_pick(alloc, trail, *to, *slot, rows),
        Edge::Assert { to, id, rows, .. } => {
            let mut draft = over_rows(alloc, trail, *to, rows)?;
            draft.failed = Some(*id);
            Ok(draft)
        }
        Edge::Return { to, slots, .. } => Ok(over_return(alloc, trail, *to, slots)?),
        Edge::Entry { .. } | Edge::Call { .. } => unreachable!(),
    }
}
