//! Whether a cube, or rows where they lie, have a point.

ghost use Rattle.std.specs.Prelude.{◌≡◌, IfOk, IsTrue};
ghost use Rattle.linear_formula.specs.LinearSum.{Valuation, Is64, valuation};
ghost use Rattle.linear_formula.specs.Formula.{HoldsAll, are_terms};
ghost use Rattle.linear_formula.specs.Rows.{all_rows};
ghost use Rattle.infeasible_cert.specs.Refutation.{refutation_of};
ghost use Rattle.infeasible_cert.specs.Right.{Refutes, columns_of, rows_of};
ghost use Rattle.infeasible_cert.specs.Terms.{HasTerms};
ghost use Rattle.shadow_elim.specs.Plan.{solution};
ghost use Rattle.shadow_elim.specs.SplitCubes.{AreAllSplit, IfBranches};
ghost use Rattle.lia_solver.specs.Answers.{IsAnswer, IfPoint, IfNever, IfLimited};

use crate::columns::columns_of;
use crate::search::{Search, Searched};
use crate::solved::Solved;
use crate::table::Table;
use linear_formula::error::OutOfMemory;
use linear_formula::formula::Cube;
use linear_formula::joined::Rows;
use shadow_elim::limit::{Limit, MAX_COLUMNS};
use std::alloc::Global;

/// How many rows, and how many coefficients, have room at the start: most questions have no more
/// lists of coefficients.
const ROOM: usize = 8;

/// A point of the cube, a certificate that it has none, or the limit that was met.
pub fn solve(alloc: Global, cube: &Cube) -> Result<Solved, OutOfMemory>
    ensures plan { IfOk result (λ s. IsAnswer (solution cube.now.atoms) s) }
    ensures branches { IfOk result
        (λ s. IfLimited s (λ limit. IfBranches limit (AreAllSplit cube.now.atoms))) }
    ensures point { IfOk result (λ s. IfPoint s (λ at. HoldsAll (valuation at) cube.now.atoms)) }
    ensures never { IfOk result (λ s. IfNever s (λ c. Refutes cube.now.atoms (refutation_of c))) }
    ensures values { IfOk result (λ s. IfPoint s (λ at. Is64 (valuation at))) }
    ensures terms { IfOk result (λ s. IfNever s (λ c. HasTerms (refutation_of c))) }
    ensures sound { IfOk result
        (λ s. IfNever s (λ c. (v : Valuation) → Is64 v → HoldsAll v cube.now.atoms → ⊥)) }
{
    let rows = Rows::of(cube);
    solve_rows(alloc, &rows)
}

/// The same of rows where they lie. They are copied only where they are split or kept with a limit.
pub fn solve_rows(alloc: Global, rows: &Rows) -> Result<Solved, OutOfMemory>
    requires terms { IsTrue (are_terms (all_rows rows.now)) }
    ensures plan { IfOk result (λ s. IsAnswer (solution (all_rows rows.now)) s) }
    ensures branches { IfOk result
        (λ s. IfLimited s (λ limit. IfBranches limit (AreAllSplit (all_rows rows.now)))) }
    ensures point { IfOk result
        (λ s. IfPoint s (λ at. HoldsAll (valuation at) (all_rows rows.now))) }
    ensures never { IfOk result
        (λ s. IfNever s (λ c. Refutes (all_rows rows.now) (refutation_of c))) }
    ensures values { IfOk result (λ s. IfPoint s (λ at. Is64 (valuation at))) }
    ensures terms { IfOk result (λ s. IfNever s (λ c. HasTerms (refutation_of c))) }
    ensures sound { IfOk result
        (λ s. IfNever s (λ c. (v : Valuation) → Is64 v → HoldsAll v (all_rows rows.now) → ⊥)) }
{
    let columns = columns_of(alloc, rows)?;
    solve_along(alloc, rows, columns)
}

/// The same, where the columns of the rows are known.
#[inline(always)]
pub(crate) fn solve_along(
    alloc: Global,
    rows: &Rows,
    columns: Vec<u32>,
) -> Result<Solved, OutOfMemory>
    requires terms { IsTrue (are_terms (all_rows rows.now)) }
    requires columns { columns.items ≡ columns_of (rows_of (all_rows rows.now)) }
    ensures plan { IfOk result (λ s. IsAnswer (solution (all_rows rows.now)) s) }
    ensures branches { IfOk result
        (λ s. IfLimited s (λ limit. IfBranches limit (AreAllSplit (all_rows rows.now)))) }
    ensures point { IfOk result
        (λ s. IfPoint s (λ at. HoldsAll (valuation at) (all_rows rows.now))) }
    ensures never { IfOk result
        (λ s. IfNever s (λ c. Refutes (all_rows rows.now) (refutation_of c))) }
    ensures values { IfOk result (λ s. IfPoint s (λ at. Is64 (valuation at))) }
    ensures terms { IfOk result (λ s. IfNever s (λ c. HasTerms (refutation_of c))) }
    ensures sound { IfOk result
        (λ s. IfNever s (λ c. (v : Valuation) → Is64 v → HoldsAll v (all_rows rows.now) → ⊥)) }
{
    if columns.len() > MAX_COLUMNS {
        return Ok(Solved::Limit(Limit::Columns));
    }
    let atoms = rows.count()? as usize;
    let table = Table::new(alloc, ROOM, ROOM)?;
    let mut search = Search::new(alloc, atoms, columns, table);
    match search.question(rows)? {
        Searched::Answer(solved) => Ok(solved),
        Searched::Nothing(certificate) => Ok(Solved::Never(certificate)),
    }
}
