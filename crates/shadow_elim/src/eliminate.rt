//! The elimination of columns from a cube.

ghost use Rattle.std.specs.Prelude.{◌≡◌, ◌++◌, ◌∷◌, [], ℕ, List, None, Some, option_map, find, not, IfOk, OnOk, IsErrOf};
ghost use Rattle.linear_formula.specs.LinearSum.{LinearSum};
ghost use Rattle.infeasible_cert.specs.Right.{AreRightSteps, rows_of, range_rows};
ghost use Rattle.shadow_elim.specs.Elimination.{elimination, remains, wide, too_many, first_inexact, listed_rows, is_unit, is_inexact, pairs};
ghost use Rattle.shadow_elim.specs.Stages.{terms_of, IsStage, AreStages};
ghost use Rattle.shadow_elim.specs.Shadows.{KeepsAll, NamesNone, LosesNone, AreDerived, pair_rows};
ghost use Rattle.shadow_elim.specs.steps.Making.{AreInPlace};

use crate::elimination::{Elimination, Stage, eliminate_columns};
use crate::row::{Row, lower_range, upper_range};
use crate::shadow::{DerivedRows, Pair, Pre, Shadow, ShadowError};
use linear_formula::error::OutOfMemory;
use linear_formula::formula::{Atom, Atoms, Cube};
use linear_formula::term::Term;
use std::alloc::{AllocError, Global};

/// Adds a row with the next number. Where no number is left, there would be no memory for the rows.
fn push_row(rows: &mut Vec<Row>, term: Term) -> Result<(), OutOfMemory>
    requires { AreInPlace 0 rows.old.items }
    ensures terms { OnOk result (terms_of rows.new.items ≡ terms_of rows.old.items ++ term ∷ []) }
    ensures numbers { OnOk result (AreInPlace 0 rows.new.items) }
{
    match u32::try_from(rows.len()) {
        Ok(number) => {
            rows.push(Row { term, number })?;
            Ok(())
        }
        Err(_) => Err(AllocError),
    }
}

/// Adds the atoms as rows.
pub fn push_atoms(alloc: Global, rows: &mut Vec<Row>, atoms: &[Atom]) -> Result<(), OutOfMemory>
    requires { AreInPlace 0 rows.old.items }
    ensures terms { OnOk result (terms_of rows.new.items ≡ terms_of rows.old.items
        ++ rows_of atoms.now) }
    ensures numbers { OnOk result (AreInPlace 0 rows.new.items) }
{
    for atom in atoms {
        push_row(rows, atom.term.copy(alloc)?)?;
    }
    Ok(())
}

/// Adds the rows of the columns' ranges, for each column the upper one and then the lower one.
pub fn push_ranges(alloc: Global, rows: &mut Vec<Row>, columns: &[u32]) -> Result<(), OutOfMemory>
    requires { AreInPlace 0 rows.old.items }
    ensures terms { OnOk result (terms_of rows.new.items ≡ terms_of rows.old.items
        ++ range_rows columns.now) }
    ensures numbers { OnOk result (AreInPlace 0 rows.new.items) }
{
    for column in columns {
        push_row(rows, upper_range(alloc, *column)?)?;
        push_row(rows, lower_range(alloc, *column)?)?;
    }
    Ok(())
}

/// The first row whose coefficient of the column is neither 1 nor -1.
fn first_other(column: u32, rows: &[Row]) -> Option<&Row>
    ensures { option_map (λ r. r.now) result ≡ find (λ r. not (is_unit column r.term)) rows.now }
{
    for row in rows {
        if row.term.coefficient(column).unsigned_abs() != 1 {
            return Some(row);
        }
    }
    None
}

fn pair(alloc: Global, column: u32, upper: &Row, lower: &Row) -> Result<Pair, OutOfMemory>
    ensures { IfOk result
        (λ p. pair_rows (Some p) ≡ Some (column, (upper.now.term, lower.now.term))) }
{
    Ok(Pair {
        column,
        upper: Atom {
            term: upper.term.copy(alloc)?,
        },
        lower: Atom {
            term: lower.term.copy(alloc)?,
        },
    })
}

/// The first pair of the stage with neither coefficient 1 or -1.
fn stage_pair(alloc: Global, stage: &Stage) -> Result<Option<Pair>, OutOfMemory>
    ensures { IfOk result (λ p. (x : ℕ) (rows : List LinearSum) → IsStage x rows stage.now →
        pair_rows p ≡ option_map (λ q. (x, q)) (find (is_inexact x) (pairs x rows))) }
{
    let column = stage.column;
    let Some(upper) = first_other(column, &stage.uppers) else {
        return Ok(None);
    };
    let Some(lower) = first_other(column, &stage.lowers) else {
        return Ok(None);
    };
    Ok(Some(pair(alloc, column, upper, lower)?))
}

/// The first pair with neither coefficient 1 or -1.
fn first_inexact(alloc: Global, stages: &[Stage]) -> Result<Option<Pair>, OutOfMemory>
    ensures { IfOk result (λ p. (columns : List ℕ) (rows left : List LinearSum) →
        AreStages columns rows stages.now left →
        pair_rows p ≡ first_inexact columns rows) }
{
    for stage in stages {
        if let Some(pair) = stage_pair(alloc, stage)? {
            return Ok(Some(pair));
        }
    }
    Ok(None)
}

fn cube_of(alloc: Global, rows: Vec<Row>) -> Result<Cube, OutOfMemory>
    ensures { IfOk result (λ cube. rows_of cube.atoms ≡ terms_of rows.items) }
{
    let mut atoms = Atoms::with_capacity(alloc, rows.len())?;
    for row in rows {
        atoms.push(Atom { term: row.term })?;
    }
    Ok(Cube { atoms })
}

/// Eliminates the columns, which ascend, from a cube and the ranges of these columns.
pub fn eliminate(alloc: Global, cube: &Cube, columns: &[u32]) -> Result<Shadow, ShadowError>
    ensures rows { IfOk result
        (λ s. elimination columns.now (listed_rows cube.now.atoms columns.now)
        ≡ remains (rows_of s.pre.cube.atoms)) }
    ensures keeps { IfOk result (λ s. KeepsAll cube.now.atoms s.pre.cube.atoms) }
    ensures free { IfOk result (λ s. NamesNone columns.now s.pre.cube.atoms) }
    ensures exact { IfOk result (λ s. s.pre.inexact ≡ None → LosesNone columns.now cube.now.atoms
        s.pre.cube.atoms) }
    ensures inexact { IfOk result
        (λ s. pair_rows s.pre.inexact ≡ first_inexact columns.now
        (listed_rows cube.now.atoms columns.now)) }
    ensures steps { IfOk result (λ s. AreRightSteps (listed_rows cube.now.atoms columns.now)
        s.rows) }
    ensures derived { IfOk result
        (λ s. AreDerived (listed_rows cube.now.atoms columns.now) s.rows s.pre.cube.atoms) }
    ensures wide { IsErrOf result ShadowError.Wide →
        elimination columns.now (listed_rows cube.now.atoms columns.now) ≡ wide }
    ensures too_many { IsErrOf result ShadowError.Rows →
        elimination columns.now (listed_rows cube.now.atoms columns.now) ≡ too_many }
{
    let mut rows = Vec::new(alloc);
    push_atoms(alloc, &mut rows, cube.atoms.as_slice())?;
    push_ranges(alloc, &mut rows, columns)?;
    let Ok(first) = u32::try_from(rows.len()) else {
        return Err(ShadowError::Memory);
    };
    let Elimination {
        stages,
        rows,
        steps,
    } = eliminate_columns(alloc, columns, rows, first)?;
    let inexact = first_inexact(alloc, &stages)?;
    let cube = cube_of(alloc, rows)?;
    Ok(Shadow {
        pre: Pre { cube, inexact },
        rows: DerivedRows::from_vec(steps),
    })
}
