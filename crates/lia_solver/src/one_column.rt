//! Sums of two rows of one column. They name no column, and most of them always hold.

ghost use Rattle.std.specs.Prelude.{◌≡◌, true};
ghost use Rattle.lia_solver.specs.steps.Entries.{ArePaired};
ghost use Rattle.lia_solver.specs.steps.Tables.{IsSummed};

use crate::pairing::{first_size, sum_of};
use crate::table::Table;

/// Whether it is seen at once that the sum of the rows is within the limits, and always holds.
pub fn always_holds(column: u32, table: &Table, upper: usize, lower: usize) -> bool
    requires { ArePaired column table.now upper lower }
    ensures { result ≡ true → IsSummed column table.now upper lower }
{
    let _ = column;
    let (above, below) = (table.parts(upper), table.parts(lower));
    if above.len() != 1 || below.len() != 1 {
        return false;
    }
    let (first, second) = (first_size(below) as i64, first_size(above) as i64);
    match sum_of(first, table.constant(upper), second, table.constant(lower)) {
        Some(sum) => sum <= 0,
        None => false,
    }
}
