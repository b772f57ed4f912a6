//! Sums of two rows of the same two columns. Each is a row of one column, and in large tables most
//! say no more than one that stands.

ghost use Rattle.std.specs.Prelude.{◌≡◌, ◌<◌, ◌≤◌, ◌^◌, true, length, unsigned_abs, IfSome};
ghost use Rattle.lia_solver.specs.steps.Entries.{ArePaired};
ghost use Rattle.lia_solver.specs.steps.TwoColumns.{AreSides, IsOutdone, names_two};
ghost use Rattle.lia_solver.specs.steps.Tables.{AreRows, IsSummed};

use crate::pairing::{first_size, sum_of};
use crate::table::Table;
use linear_formula::term::MAX_COEFFICIENT;

/// This many sums are worth two look-ups.
const MANY: usize = 16;

/// The least and the greatest value of a column by the rows of it alone.
#[derive(Clone, Copy)]
pub struct Sides {
    column: u32,
    least: i128,
    greatest: i128,
}

/// The sides of the other column of a row of two, where it has rows alone. None are looked up for
/// a few sums.
pub fn sides_of(table: &Table, place: usize, sums: usize) -> Option<Sides>
    requires rows { AreRows table.now }
    requires place { place < length table.now }
    ensures { IfSome result (λ s. AreSides s table.now) }
{
    let parts = table.parts(place);
    if sums < MANY || parts.len() != 2 {
        return None;
    }
    let column = parts[1].0;
    let above = table.place_of(&[(column, 1)])?;
    let below = table.place_of(&[(column, -1)])?;
    Some(Sides {
        column,
        least: table.constant(below),
        greatest: -table.constant(above),
    })
}

/// Whether the row of the sides' column with this coefficient says no more than they do.
fn is_outdone(sides: Sides, coefficient: i128, constant: i128) -> bool
    requires greatest { unsigned_abs sides.greatest ≤ 2 ^ 84 }
    requires least { unsigned_abs sides.least ≤ 2 ^ 84 }
    requires coefficient { unsigned_abs coefficient ≤ 2 ^ 40 }
    requires constant { unsigned_abs constant ≤ 2 ^ 84 }
    ensures { result ≡ true → IsOutdone sides coefficient constant }
{
    if coefficient > 0 {
        coefficient * sides.greatest + constant <= 0
    } else {
        coefficient * sides.least + constant <= 0
    }
}

/// Whether the row names this column and one before it.
fn names_two(other: u32, parts: &[(u32, i128)]) -> bool
    ensures { result ≡ names_two other parts.now }
{
    parts.len() == 2 && parts[1].0 == other
}

/// Whether it is seen at once that the sum of the rows is within the limits, and says no more than
/// a row that stands.
pub fn is_needless(
    sides: Option<Sides>,
    column: u32,
    table: &Table,
    upper: usize,
    lower: usize,
) -> bool
    requires sides { IfSome sides (λ s. AreSides s table.now) }
    requires paired { ArePaired column table.now upper lower }
    ensures { result ≡ true → IsSummed column table.now upper lower }
{
    let _ = column;
    let Some(sides) = sides else {
        return false;
    };
    let (above, below) = (table.parts(upper), table.parts(lower));
    if !names_two(sides.column, above) || !names_two(sides.column, below) {
        return false;
    }
    let (first, second) = (first_size(below) as i64, first_size(above) as i64);
    let Some(coefficient) = sum_of(first, above[1].1, second, below[1].1) else {
        return false;
    };
    let Some(constant) = sum_of(first, table.constant(upper), second, table.constant(lower)) else {
        return false;
    };
    if coefficient > MAX_COEFFICIENT || coefficient < -MAX_COEFFICIENT {
        return false;
    }
    is_outdone(sides, coefficient, constant)
}
