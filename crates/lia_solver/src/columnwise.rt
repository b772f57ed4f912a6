//! The answer of a table's rows: one column after another is eliminated, and then the columns
//! get values, the last one first.

ghost use Rattle.std.specs.Prelude.{◌≡◌, ◌+◌, ◌<◌, ◌≤ℤ◌, ◌<ℤ◌, ℕ, [], int_lt, IfOk, IsTrue};
ghost use Rattle.linear_formula.specs.LinearSum.{is_ascending_from};
ghost use Rattle.shadow_elim.specs.Points.{outcome, least_value, greatest_value, nearest};
ghost use Rattle.lia_solver.specs.steps.Solved.{high_in, low_in, floor_in, extended_in, outcome_by, AreReady, IsChosenIn};
ghost use Rattle.lia_solver.specs.steps.Tables.{live, AreRows};

use crate::bounds::{Bounds, bounds_of};
use crate::eliminate::{Eliminated, Work, eliminate};
use crate::table::Table;
use linear_formula::assignment::{Assignment, Values};
use linear_formula::error::OutOfMemory;
use std::alloc::Global;

/// Values for the columns, the split of a column into at most `at` and at least `at + 1`, the place
/// of a row that never holds, or a limit of the elimination.
#[derive(Drop)]
pub enum Chosen {
    Values(Values),
    Split { column: u32, at: i64 },
    Contradiction(usize),
    Wide,
    Rows,
}

/// The integer nearest to 0 from `low` to `high`.
fn nearest(low: i128, high: i128) -> i64
    requires least { least_value ≤ℤ low }
    requires order { low ≤ℤ high }
    requires greatest { high ≤ℤ greatest_value }
    ensures { result ≡ nearest low high }
{
    if low > 0 {
        low as i64
    } else if high < 0 {
        high as i64
    } else {
        0
    }
}

/// The values with one for the column, or the split of the column.
#[inline(always)]
fn extend(column: u32, table: &Table, values: Values) -> Result<Chosen, OutOfMemory>
    requires rows { AreRows table.now }
    requires ascending { IsTrue (is_ascending_from (column + 1) values) }
    requires sides { IsTrue (int_lt (high_in column values table.now)
        (low_in column values table.now)) → floor_in column values table.now <ℤ greatest_value }
    ensures { IfOk result (λ c. outcome_by c ≡ extended_in column table.now values) }
{
    let at = Assignment::new(values);
    let Bounds { low, floor, high } = bounds_of(column, table, &at);
    if low > high {
        return Ok(Chosen::Split {
            column,
            at: floor as i64,
        });
    }
    let Assignment { values } = at;
    let mut items = values.into_vec();
    items.insert(0, (column, nearest(low, high)))?;
    Ok(Chosen::Values(Values::from_vec(items)))
}

/// What is left of the rows where all columns are eliminated.
fn without_columns(alloc: Global, table: &Table, count: usize) -> Result<Chosen, OutOfMemory>
    requires { (low : ℕ) × AreReady low [] table.now }
    ensures plan { IfOk result (λ c. (low : ℕ) → AreReady low [] table.now →
        outcome [] (live low table.now) ≡ outcome_by c) }
    ensures found { IfOk result (λ c. IsChosenIn [] table.now table.now c) }
{
    match table.bare() {
        Some(place) => Ok(Chosen::Contradiction(place)),
        None => Ok(Chosen::Values(Values::from_vec(Vec::with_capacity(alloc, count)?))),
    }
}

/// Eliminates the columns, and gives them values where no contradiction is left. Memory for `count`
/// values is taken at once. The recursion is as deep as there are columns.
#[cycle(solve_columns)]
pub fn solve_columns(
    alloc: Global,
    work: &mut Work,
    table: &mut Table,
    columns: &[u32],
    count: usize,
) -> Result<Chosen, OutOfMemory>
    requires { (low : ℕ) × AreReady low columns.now table.old }
    ensures plan { IfOk result (λ c. (low : ℕ) → AreReady low columns.now table.old →
        outcome columns.now (live low table.old) ≡ outcome_by c) }
    ensures found { IfOk result (λ c. IsChosenIn columns.now table.old table.new c) }
{
    let Some((column, rest)) = columns.split_first() else {
        return without_columns(alloc, table, count);
    };
    match eliminate(work, table, *column)? {
        Eliminated::Wide => return Ok(Chosen::Wide),
        Eliminated::Rows => return Ok(Chosen::Rows),
        Eliminated::Done => {}
    }
    match solve_columns(alloc, work, table, rest, count)? {
        Chosen::Values(values) => extend(*column, table, values),
        chosen => Ok(chosen),
    }
}
