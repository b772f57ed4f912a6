//! The limits of projections that may let other values in.

ghost use Rattle.std.specs.Prelude.{◌≡◌, List, true, None, Some, IfOk};
ghost use Rattle.linear_formula.specs.declared.formula.Atom.{Atom};
ghost use Rattle.linear_formula.specs.declared.question.Question.TheVariants as asks;
ghost use Rattle.flow_graph.specs.Calls.{call_site};
ghost use Rattle.flow_graph.specs.Shapes.{is_call};
ghost use Rattle.shadow_elim.specs.Projection.{cube_of, gives, projected};
ghost use Rattle.shadow_elim.specs.RightLimit.{IsRight};
ghost use Rattle.shadow_elim.specs.Shadows.{pair_rows};
ghost use Rattle.shadow_elim.specs.Sums.{first_wide, rows_of_sums};
ghost use Rattle.call_bridge.specs.Asked.{asked, call_rows, caller_columns};
ghost use Rattle.call_bridge.specs.Musts.{must_preimage, must_rows, symbol_columns};

use crate::asking::{call_sums, caller_columns};
use crate::error::BridgeError;
use crate::musts::{Matching, must_sums, replaced_sums, symbol_columns};
use flow_graph::calls::CallSite;
use flow_graph::graph::Edge;
use linear_formula::error::OutOfMemory;
use linear_formula::formula::Cube;
use linear_formula::question::{Columns, Question};
use shadow_elim::limit::{Kept, Limit};
use shadow_elim::shadow::Pair;
use shadow_elim::sum::{Sum, total_rows};
use std::alloc::{AllocError, Global};
use summary_form::path::Path;
use summary_form::query::ExitKind;

/// The rows of sums none of which is too wide.
fn narrow_rows(alloc: Global, sums: &[Sum]) -> Result<Cube, OutOfMemory>
    requires { first_wide sums.now ≡ None }
    ensures { IfOk result (λ cube. cube ≡ cube_of (rows_of_sums sums.now)) }
{
    match total_rows(alloc, sums) {
        Ok(rows) => Ok(rows),
        Err(BridgeError::Limit(_)) => unreachable!(),
        Err(BridgeError::Memory) => Err(AllocError),
    }
}

fn copied(alloc: Global, pair: &Pair) -> Result<Pair, OutOfMemory>
    ensures { IfOk result (λ p. p ≡ pair.now) }
{
    Ok(Pair {
        column: pair.column,
        upper: pair.upper.copy(alloc)?,
        lower: pair.lower.copy(alloc)?,
    })
}

/// The limit of the pair in the elimination of the columns.
fn inexact_limit(
    alloc: Global,
    rows: Cube,
    columns: Vec<u32>,
    pair: &Pair,
) -> Result<Kept, OutOfMemory>
    requires { (left : List Atom)
        × (projected columns.items rows.atoms ≡ gives left (pair_rows (Some pair.now))) }
    ensures right { IfOk result IsRight }
    ensures question { IfOk result (λ kept. kept.question ≡ asks.Eliminate rows columns.items) }
{
    let pair = copied(alloc, pair)?;
    Ok(Kept {
        question: Question::Eliminate(rows, Columns::from_vec(columns)),
        limit: Limit::Inexact(pair),
    })
}

/// The limit of the pair in the elimination that the rows of the query need.
fn asking_limit(
    alloc: Global,
    exit: ExitKind,
    site: &CallSite,
    source: &Cube,
    target: &Cube,
    pair: &Pair,
) -> Result<Kept, OutOfMemory>
    requires { (rows : List Atom)
        × (asked exit site.now source.now.atoms target.now.atoms
        ≡ gives rows (pair_rows (Some pair.now))) }
    ensures right { IfOk result IsRight }
    ensures question { IfOk result (λ kept. kept.question ≡ asks.Eliminate
        (cube_of (call_rows exit site.now source.now.atoms target.now.atoms))
        (caller_columns (call_rows exit site.now source.now.atoms target.now.atoms))) }
{
    let sums = call_sums(alloc, exit, site, source, target)?;
    let rows = narrow_rows(alloc, &sums)?;
    let columns = caller_columns(alloc, &rows)?;
    inexact_limit(alloc, rows, columns, pair)
}

/// The limit of the pair in the elimination that the rows of the preimage need.
fn preimage_limit(
    alloc: Global,
    must: &Path,
    site: &CallSite,
    target: &Cube,
    pair: &Pair,
) -> Result<Kept, OutOfMemory>
    requires { (rows : List Atom)
        × (must_preimage must.now site.now target.now.atoms
        ≡ gives rows (pair_rows (Some pair.now))) }
    ensures right { IfOk result IsRight }
    ensures question { IfOk result (λ kept. kept.question ≡ asks.Eliminate
        (cube_of (must_rows must.now site.now target.now.atoms))
        (symbol_columns (must_rows must.now site.now target.now.atoms))) }
{
    let Matching { columns, sums } = must_sums(alloc, must, site, target)?;
    let others = narrow_rows(alloc, &sums)?;
    let plain = must.guard.and(alloc, &others)?;
    let renamed = replaced_sums(alloc, columns, &plain)?;
    let rows = narrow_rows(alloc, &renamed)?;
    let left = symbol_columns(alloc, &rows)?;
    inexact_limit(alloc, rows, left, pair)
}

/// The limit of the pair in the elimination of the caller's columns that the asked query needs.
pub fn inexact_asking(
    alloc: Global,
    source: &Cube,
    call: &Edge,
    target: &Cube,
    exit: ExitKind,
    pair: &Pair,
) -> Result<Kept, OutOfMemory>
    requires call { is_call call.now ≡ true }
    requires pair { (rows : List Atom)
        × (asked exit (call_site call.now) source.now.atoms target.now.atoms
        ≡ gives rows (pair_rows (Some pair.now))) }
    ensures right { IfOk result IsRight }
    ensures question { IfOk result (λ kept. kept.question ≡ asks.Eliminate
        (cube_of (call_rows exit (call_site call.now) source.now.atoms
        target.now.atoms))
        (caller_columns (call_rows exit (call_site call.now)
        source.now.atoms target.now.atoms))) }
{
    asking_limit(alloc, exit, &CallSite::of(call), source, target, pair)
}

/// The limit of the pair in the elimination of the symbols that the preimage over the must needs.
pub fn inexact_preimage(
    alloc: Global,
    must: &Path,
    call: &Edge,
    target: &Cube,
    pair: &Pair,
) -> Result<Kept, OutOfMemory>
    requires call { is_call call.now ≡ true }
    requires pair { (rows : List Atom)
        × (must_preimage must.now (call_site call.now) target.now.atoms
        ≡ gives rows (pair_rows (Some pair.now))) }
    ensures right { IfOk result IsRight }
    ensures question { IfOk result (λ kept. kept.question ≡ asks.Eliminate
        (cube_of (must_rows must.now (call_site call.now) target.now.atoms))
        (symbol_columns (must_rows must.now (call_site call.now)
        target.now.atoms))) }
{
    preimage_limit(alloc, must, &CallSite::of(call), target, pair)
}
