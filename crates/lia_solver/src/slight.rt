//! Bounds of the numbers of a table's rows, by which no sum of two of them is too wide.

ghost use Rattle.std.specs.Prelude.{◌<◌, ℕ, length, Contains};
ghost use Rattle.shadow_elim.specs.RowSizes.{IsSized, AreLimited};
ghost use Rattle.lia_solver.specs.steps.Entries.{sum_at};
ghost use Rattle.lia_solver.specs.steps.Tables.{AreRows};

use crate::table::Table;
use shadow_elim::sizes::{Sizes, larger, sizes_of};

/// The sizes of the row at a place.
pub fn sizes_at(table: &Table, place: usize) -> Sizes
    requires rows { AreRows table.now }
    requires place { place < length table.now }
    ensures sized { IsSized (sum_at table.now place) result }
    ensures limited { AreLimited result }
{
    sizes_of(table.parts(place), table.constant(place))
}

/// The sizes of all rows at places.
pub fn sizes_of_all(table: &Table, places: &[usize]) -> Sizes
    requires rows { AreRows table.now }
    requires places { (i : ℕ) → Contains places.now i → i < length table.now }
    ensures sized { (i : ℕ) → Contains places.now i → IsSized (sum_at table.now i) result }
    ensures limited { AreLimited result }
{
    let mut sizes = Sizes::none();
    for place in places {
        sizes = larger(sizes, sizes_at(table, *place));
    }
    sizes
}
