//! The rows that a must has over a call beside those of a target, of which all symbols but the last
//! are eliminated once.

ghost use Rattle.std.specs.Prelude.{◌≡◌, ◌+◌, ◌≤◌, true, IfOk, IfSome};
ghost use Rattle.infeasible_cert.specs.Right.{rows_of};
ghost use Rattle.shadow_elim.specs.Elimination.{listed_rows};
ghost use Rattle.shadow_elim.specs.Stages.{AreStages, terms_of};
ghost use Rattle.shadow_elim.specs.declared.limit.TheConstants.{MAX_ROWS};
ghost use Rattle.lia_solver.specs.ByParts.{most_rows, rows_behind};
ghost use Rattle.flow_graph.specs.Calls.{call_site};
ghost use Rattle.flow_graph.specs.Shapes.{is_call};
ghost use Rattle.punch_step.specs.KnownMusts.{IfOwnRows, IsReadied};

use call_bridge::error::BridgeError;
use call_bridge::musts::{rows_of_must, symbol_columns};
use flow_graph::graph::Edge;
use linear_formula::error::OutOfMemory;
use linear_formula::formula::{Atom, Atoms, Cube};
use shadow_elim::eliminate::{push_atoms, push_ranges};
use shadow_elim::elimination::{Elimination, Stage, eliminate_columns};
use shadow_elim::limit::MAX_ROWS;
use shadow_elim::row::Row;
use shadow_elim::shadow::ShadowError;
use std::alloc::{AllocError, Global};
use summary_form::path::Path;

/// The must's own rows over a call, by slots, from which all symbols but the last are eliminated.
#[derive(Drop)]
pub struct OwnRows {
    pub rows: Cube,
    pub firsts: Vec<u32>,
    pub last: u32,
    /// This number of rows may join them before the last symbol is eliminated.
    pub room: usize,
}

/// The elimination of the first ones of the columns from the rows.
fn elimination_of(
    alloc: Global,
    rows: &Cube,
    columns: &[u32],
    firsts: &[u32],
) -> Result<Elimination, ShadowError>
    ensures { IfOk result (λ e. AreStages firsts.now (listed_rows rows.now.atoms columns.now)
        e.stages.items (terms_of e.rows.items)) }
{
    let mut all = Vec::new(alloc);
    push_atoms(alloc, &mut all, rows.atoms.as_slice())?;
    push_ranges(alloc, &mut all, columns)?;
    let Ok(first) = u32::try_from(all.len()) else {
        return Err(ShadowError::Memory);
    };
    eliminate_columns(alloc, firsts, all, first)
}

/// How many rows there are at most after the stage, if they can be counted.
fn count_behind(count: usize, stage: &Stage) -> Option<usize>
    ensures { IfSome result (λ n. n ≡ rows_behind count stage.now) }
{
    let uppers = stage.uppers.len();
    let lowers = stage.lowers.len();
    let sides = uppers.checked_add(lowers)?;
    count
        .saturating_sub(sides)
        .checked_add(uppers.checked_mul(lowers)?)
}

/// How many rows can still be added at every stage, if the present ones fit.
fn room_beside(rows: usize, stages: &[Stage]) -> Option<usize>
    ensures { IfSome result (λ room. most_rows rows stages.now + room ≤ MAX_ROWS) }
{
    let mut count = rows;
    let mut room = MAX_ROWS;
    for stage in stages {
        count = count_behind(count, stage)?;
        room = room.min(MAX_ROWS.checked_sub(count)?);
    }
    Some(room)
}

/// The rows as a cube.
fn cube_of(alloc: Global, rows: Vec<Row>) -> Result<Cube, OutOfMemory>
    ensures { IfOk result (λ cube. rows_of cube.atoms ≡ terms_of rows.items) }
{
    let mut atoms = Atoms::with_capacity(alloc, rows.len())?;
    for row in rows {
        atoms.push(Atom { term: row.term })?;
    }
    Ok(Cube { atoms })
}

/// What the elimination leaves, if there is room beside it.
fn left_by(
    alloc: Global,
    elimination: Elimination,
    count: usize,
    firsts: &[u32],
    last: u32,
) -> Result<Option<OwnRows>, OutOfMemory>
    ensures { IfOk result (λ o. IfSome o (λ own. (own.firsts.items ≡ firsts.now)
        × (own.last ≡ last) × (rows_of own.rows.atoms ≡ terms_of elimination.rows.items)
        × (most_rows count elimination.stages.items + own.room ≤ MAX_ROWS))) }
{
    let Elimination { stages, rows, .. } = elimination;
    let Some(room) = room_beside(count, &stages) else {
        return Ok(None);
    };
    Ok(Some(OwnRows {
        rows: cube_of(alloc, rows)?,
        firsts: Vec::from_slice(alloc, firsts)?,
        last,
        room,
    }))
}

/// All symbols of the rows but the last are eliminated, if there is one and no limit is met.
fn readied(alloc: Global, rows: &Cube) -> Result<Option<OwnRows>, OutOfMemory>
    ensures { IfOk result (λ o. IfSome o (IsReadied rows.now.atoms)) }
{
    let columns = symbol_columns(alloc, rows)?;
    let Some((last, firsts)) = columns.split_last() else {
        return Ok(None);
    };
    match elimination_of(alloc, rows, &columns, firsts) {
        Ok(elimination) => {
            let count = rows
                .atoms
                .as_slice()
                .len()
                .saturating_add(2 * columns.len());
            left_by(alloc, elimination, count, firsts, *last)
        }
        Err(ShadowError::Memory) => Err(AllocError),
        Err(_) => Ok(None),
    }
}

/// The must's own rows over a call, if they can be kept.
pub(crate) fn own_rows_of(
    alloc: Global,
    must: &Path,
    call: &Edge,
) -> Result<Option<OwnRows>, OutOfMemory>
    requires { is_call call.now ≡ true }
    ensures { IfOk result (IfOwnRows must.now (call_site call.now).arguments) }
{
    let none = Cube {
        atoms: Atoms::new(alloc),
    };
    match rows_of_must(alloc, must, call, &none) {
        Ok(rows) => readied(alloc, &rows),
        Err(BridgeError::Limit(_)) => Ok(None),
        Err(BridgeError::Memory) => Err(AllocError),
    }
}
