//! Whether sums of rows with the least constants of their coefficients are within the limits.

ghost use Rattle.std.specs.Prelude.{List, ◌≡◌, ◌⊎◌, ◌<◌, true, false, length, IsTrue};
ghost use Rattle.shadow_elim.specs.declared.row.Row.{Row};
ghost use Rattle.shadow_elim.specs.steps.Marks.{IsSmall};
ghost use Rattle.lia_solver.specs.steps.Entries.{sum_at, bounds_above, bounds_below};
ghost use Rattle.lia_solver.specs.steps.Gathered.{AreGathered, AreNarrowWith, AreNarrowBelow, HasWideBelow, IsNarrowFirst, IsWideFirst};
ghost use Rattle.lia_solver.specs.steps.Tables.{AreRows};

use crate::eliminate::{is_lower, is_upper};
use crate::pairing::is_least_narrow;
use crate::table::Table;

/// Whether the row has another first column, or a sum of it and another such row is within the
/// limits.
fn is_small(column: u32, parts: &[(u32, i128)], constant: i128) -> bool
    ensures { result ≡ true →
        IsTrue (bounds_above column parts.now) ⊎ IsTrue (bounds_below column parts.now) →
        IsSmall column (record { parts = parts.now; constant = constant }) }
{
    match parts.first() {
        Some((first, coefficient)) => {
            *first != column
                || (coefficient.unsigned_abs() <= 1 << 19 && constant.unsigned_abs() <= 1 << 64)
        }
        None => true,
    }
}

/// Whether the rows of the column are so small that none of their sums is too wide.
fn are_small(column: u32, table: &Table) -> bool
    requires { (rows : List Row) × AreGathered rows table.now }
    ensures { result ≡ true → AreNarrowBelow column table.now }
{
    for place in 0..table.len() {
        if table.first(place) == u64::from(column)
            && !is_small(column, table.parts(place), table.least(place))
        {
            return false;
        }
    }
    true
}

/// Whether the sums of an upper row with the lower ones are within the limits.
fn are_sums_narrow(column: u32, table: &Table, upper: usize) -> bool
    requires rows { AreRows table.now }
    requires upper { upper < length table.now }
    requires above { IsTrue (bounds_above column (sum_at table.now upper).parts) }
    ensures narrow { result ≡ true → AreNarrowWith column table.now upper }
    ensures wide { result ≡ false → HasWideBelow column table.now }
{
    for lower in 0..table.len() {
        if is_lower(column, table, lower) && !is_least_narrow(column, table, upper, lower) {
            return false;
        }
    }
    true
}

/// The same, of all upper rows.
fn are_all_sums_narrow(column: u32, table: &Table) -> bool
    requires { AreRows table.now }
    ensures narrow { result ≡ true → AreNarrowBelow column table.now }
    ensures wide { result ≡ false → HasWideBelow column table.now }
{
    for upper in 0..table.len() {
        if is_upper(column, table, upper) && !are_sums_narrow(column, table, upper) {
            return false;
        }
    }
    true
}

/// Whether with the least constants no sum of the first column is too wide. After it only the
/// greatest constants are left.
pub fn is_narrow(columns: &[u32], table: &Table) -> bool
    requires { (rows : List Row) × AreGathered rows table.now }
    ensures narrow { result ≡ true → IsNarrowFirst columns.now table.now }
    ensures wide { result ≡ false → IsWideFirst columns.now table.now }
{
    match columns.first() {
        Some(column) => are_small(*column, table) || are_all_sums_narrow(*column, table),
        None => true,
    }
}
