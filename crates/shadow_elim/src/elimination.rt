//! The elimination of columns, one after the other.

ghost use Rattle.std.specs.Prelude.{◌≡◌, List, length, IfOk, IsErrOf};
ghost use Rattle.linear_formula.specs.LinearSum.{LinearSum};
ghost use Rattle.infeasible_cert.specs.Right.{AreRightSteps, rows_after};
ghost use Rattle.shadow_elim.specs.Elimination.{elimination, wide, too_many};
ghost use Rattle.shadow_elim.specs.Stages.{terms_of, AreStages, AreNumbered};

use crate::column::{eliminate_column, take_rows};
use crate::lists::{is_beyond, lists_of};
use crate::row::Row;
use crate::shadow::ShadowError;
use infeasible_cert::certificate::Derived;
use std::alloc::Global;

/// The rows that bounded a column when it was eliminated.
#[derive(Drop)]
pub struct Stage {
    pub column: u32,
    pub uppers: Vec<Row>,
    pub lowers: Vec<Row>,
}

/// The stages in order, the rows that are left, and how the made rows follow.
#[derive(Drop)]
pub struct Elimination {
    pub stages: Vec<Stage>,
    pub rows: Vec<Row>,
    pub steps: Vec<Derived>,
}

/// Eliminates the columns in their order. The made rows are numbered from `first` on.
pub fn eliminate_columns(
    alloc: Global,
    columns: &[u32],
    rows: Vec<Row>,
    first: u32,
) -> Result<Elimination, ShadowError>
    ensures stages { IfOk result (λ e. AreStages columns.now (terms_of rows.items) e.stages.items
        (terms_of e.rows.items)) }
    ensures steps { IfOk result (λ e. (base : List LinearSum) → length base ≡ first →
        AreNumbered base rows.items →
        (AreRightSteps base e.steps.items × AreNumbered (rows_after base e.steps.items)
        e.rows.items)) }
    ensures wide { IsErrOf result ShadowError.Wide → elimination columns.now (terms_of rows.items)
        ≡ wide }
    ensures too_many { IsErrOf result ShadowError.Rows →
        elimination columns.now (terms_of rows.items)
        ≡ too_many }
{
    let mut stages = Vec::with_capacity(alloc, columns.len())?;
    let mut steps = Vec::new(alloc);
    let mut lists = lists_of(alloc, columns)?;
    let mut left = rows;
    for (place, column) in columns.iter().enumerate() {
        let others = &columns[place + 1..];
        let stage = eliminate_column(alloc, *column, others, left, &mut lists)?;
        if is_beyond(&lists) {
            return Err(ShadowError::Rows);
        }
        stages.push(stage)?;
        left = take_rows(alloc, &mut lists, first, &mut steps)?;
    }
    Ok(Elimination {
        stages,
        rows: left,
        steps,
    })
}
