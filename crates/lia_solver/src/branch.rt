//! How one branch of a question ends.

ghost use Rattle.std.specs.Prelude.{◌≡◌, ◌++◌, IfOk, IsTrue};
ghost use Rattle.linear_formula.specs.Formula.{are_terms};
ghost use Rattle.linear_formula.specs.Rows.{all_rows};
ghost use Rattle.infeasible_cert.specs.Right.{columns_of, rows_of};
ghost use Rattle.shadow_elim.specs.Plan.{outcome_of};
ghost use Rattle.lia_solver.specs.steps.Branches.{planned, IsRightOutcome, IsBranch};
ghost use Rattle.lia_solver.specs.steps.Further.{AreOutcomeTerms};

use crate::columnwise::{Chosen, solve_columns};
use crate::derivation::derived_contradiction;
use crate::eliminate::Work;
use crate::gather::gather;
use crate::narrow::is_narrow;
use crate::table::Table;
use infeasible_cert::certificate::Derived;
use linear_formula::assignment::Assignment;
use linear_formula::error::OutOfMemory;
use linear_formula::formula::Atom;
use linear_formula::joined::Rows;
use std::alloc::{AllocError, Global};

#[derive(Drop)]
pub enum BranchOutcome {
    Point(Assignment),
    Refuted(Vec<Derived>),
    Split { column: u32, at: i64 },
    Wide,
    Rows,
}

/// The answer of the rows of a question, of the splits down to a branch and of the columns' ranges,
/// in a table that is filled anew.
pub fn solve_branch(
    alloc: Global,
    work: &mut Work,
    table: &mut Table,
    question: &Rows,
    splits: &[Atom],
    columns: &[u32],
) -> Result<BranchOutcome, OutOfMemory>
    requires columns { columns.now ≡ columns_of (rows_of (all_rows question.now)) }
    requires branch { IsBranch (all_rows question.now) splits.now }
    requires terms { IsTrue (are_terms (all_rows question.now ++ splits.now)) }
    ensures plan { IfOk result
        (λ o. outcome_of (all_rows question.now ++ splits.now) ≡ planned o) }
    ensures right { IfOk result (λ o. IsRightOutcome (all_rows question.now) splits.now o) }
    ensures terms { IfOk result (λ o. AreOutcomeTerms o) }
{
    let count = question.count()? as usize + 2 * columns.len() + splits.len();
    let Ok(first) = u32::try_from(count) else {
        return Err(AllocError);
    };
    gather(table, question, splits, columns)?;
    if !is_narrow(columns, table) {
        return Ok(BranchOutcome::Wide);
    }
    match solve_columns(alloc, work, table, columns, columns.len())? {
        Chosen::Values(values) => Ok(BranchOutcome::Point(Assignment::new(values))),
        Chosen::Split { column, at } => Ok(BranchOutcome::Split { column, at }),
        Chosen::Contradiction(place) => {
            let steps = derived_contradiction(alloc, table, place, first)?;
            Ok(BranchOutcome::Refuted(steps))
        }
        Chosen::Wide => Ok(BranchOutcome::Wide),
        Chosen::Rows => Ok(BranchOutcome::Rows),
    }
}
