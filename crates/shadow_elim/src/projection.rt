//! Eliminations whose limits are kept, and the columns that rows name.

ghost use Rattle.std.specs.Prelude.{◌≡◌, None, IfOk, IfErr, OnOk, IsTrue};
ghost use Rattle.linear_formula.specs.Formula.{are_terms};
ghost use Rattle.infeasible_cert.specs.Right.{columns_of, with_columns, rows_of};
ghost use Rattle.shadow_elim.specs.Shadows.{KeepsAll, NamesNone, LosesNone, pair_rows};
ghost use Rattle.shadow_elim.specs.Projection.{projected, gives, refuses, wide_rows, long_rows, IfRefused};
ghost use Rattle.shadow_elim.specs.RightLimit.{IsRight};
ghost use Rattle.shadow_elim.specs.declared.projection.ProjectionError.TheVariants.{Memory};

use crate::eliminate::eliminate;
use crate::limit::{Kept, Limit};
use crate::shadow::{Pre, ShadowError};
use linear_formula::error::OutOfMemory;
use linear_formula::formula::{Atom, Cube};
use linear_formula::question::{Columns, Question};
use std::alloc::{AllocError, AllocFailed, Global};
use std::collections::BTreeSet;
use thiserror::Error;

/// Why a projection has no rows.
#[derive(Debug, Drop, Error)]
pub enum ProjectionError {
    /// The first sum is too wide, or the elimination meets a limit.
    #[error("a projection met a limit")]
    Limit(Kept),
    #[error("out of memory")]
    Memory,
}

impl From<AllocError> for ProjectionError {
    ghost from_gives = { λ _ e. e ≡ Memory };

    fn from(_error: AllocError) -> ProjectionError {
        ProjectionError::Memory
    }
}

impl<T: Drop> From<AllocFailed<T>> for ProjectionError {
    ghost from_gives = { λ _ e. e ≡ Memory };

    fn from(_error: AllocFailed<T>) -> ProjectionError {
        ProjectionError::Memory
    }
}

fn add_parts(columns: &mut BTreeSet<u32>, parts: &[(u32, i128)]) -> Result<(), OutOfMemory>
    ensures { OnOk result (columns.new.keys ≡ with_columns parts.now columns.old.keys) }
{
    let mut left = parts.len();
    while left > 0 {
        left -= 1;
        columns.insert(parts[left].0)?;
    }
    Ok(())
}

/// The columns that the rows name.
pub fn named_columns(alloc: Global, rows: &[Atom]) -> Result<BTreeSet<u32>, OutOfMemory>
    ensures { IfOk result (λ s. s.keys ≡ columns_of (rows_of rows.now)) }
{
    let mut columns = BTreeSet::new(alloc);
    let mut left = rows.len();
    while left > 0 {
        left -= 1;
        add_parts(&mut columns, rows[left].term.parts())?;
    }
    Ok(columns)
}

fn elimination_of(alloc: Global, cube: &Cube, columns: &[u32]) -> Result<Question, OutOfMemory>
    ensures { IfOk result (λ q. q ≡ (wide_rows columns.now cube.now.atoms).question) }
{
    let listed = Vec::from_slice(alloc, columns)?;
    Ok(Question::Eliminate(cube.copy(alloc)?, Columns::from_vec(listed)))
}

fn wide_elimination(alloc: Global, cube: &Cube, columns: &[u32]) -> Result<Kept, OutOfMemory>
    ensures { IfOk result (λ kept. kept ≡ wide_rows columns.now cube.now.atoms) }
{
    let question = elimination_of(alloc, cube, columns)?;
    let branch = question.copy(alloc)?;
    Ok(Kept {
        question,
        limit: Limit::Wide { branch },
    })
}

fn long_elimination(alloc: Global, cube: &Cube, columns: &[u32]) -> Result<Kept, OutOfMemory>
    ensures { IfOk result (λ kept. kept ≡ long_rows columns.now cube.now.atoms) }
{
    let question = elimination_of(alloc, cube, columns)?;
    let branch = cube.copy(alloc)?;
    Ok(Kept {
        question,
        limit: Limit::Rows { branch },
    })
}

/// The cube without the columns, which ascend, and the first pair of rows that may let other points
/// in. The columns' ranges are those of 64-bit values.
pub fn project(alloc: Global, cube: &Cube, columns: &[u32]) -> Result<Pre, ProjectionError>
    ensures rows { IfOk result
        (λ p. projected columns.now cube.now.atoms ≡ gives p.cube.atoms (pair_rows p.inexact)) }
    ensures keeps { IfOk result (λ p. KeepsAll cube.now.atoms p.cube.atoms) }
    ensures free { IfOk result (λ p. NamesNone columns.now p.cube.atoms) }
    ensures exact { IfOk result
        (λ p. p.inexact ≡ None → LosesNone columns.now cube.now.atoms p.cube.atoms) }
    ensures terms { IfOk result (λ p. IsTrue (are_terms p.cube.atoms)) }
    ensures limit { IfErr result
        (λ e. IfRefused e (λ kept. projected columns.now cube.now.atoms ≡ refuses kept)) }
    ensures right { IfErr result (λ e. IfRefused e IsRight) }
{
    match eliminate(alloc, cube, columns) {
        Ok(shadow) => {
            let _ = shadow.pre.cube.atoms.as_slice();
            Ok(shadow.pre)
        }
        Err(ShadowError::Wide) => {
            let kept = wide_elimination(alloc, cube, columns)?;
            Err(ProjectionError::Limit(kept))
        }
        Err(ShadowError::Rows) => {
            let kept = long_elimination(alloc, cube, columns)?;
            Err(ProjectionError::Limit(kept))
        }
        Err(ShadowError::Memory) => Err(ProjectionError::Memory),
    }
}
