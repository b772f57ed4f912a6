//! Rows that need no pairs, since those of an earlier row are as strong.

ghost use Rattle.std.specs.Prelude.{◌≡◌, ◌<◌, All, length, take, slice_index_or, true, IfOk};
ghost use Rattle.std.specs.List.{list_any};
ghost use Rattle.shadow_elim.specs.declared.row.Row.{Row};
ghost use Rattle.shadow_elim.specs.Reduction.{is_as_strong};
ghost use Rattle.shadow_elim.specs.steps.Marks.{IsSmall, AreMarked};

use crate::row::Row;
use linear_formula::error::OutOfMemory;
use linear_formula::term::Term;
use std::alloc::Global;

/// How many rows are looked at for one that is as strong.
const LOOK: usize = 32;

/// Whether no sum of two of these rows can have a constant beyond the limits.
fn are_small(column: u32, rows: &[Row]) -> bool
    ensures { result ≡ true → All (λ r. IsSmall column r.term) rows.now }
{
    for row in rows {
        if row.term.coefficient(column).unsigned_abs() > 1 << 19 {
            return false;
        }
        if row.term.constant().unsigned_abs() > 1 << 64 {
            return false;
        }
    }
    true
}

/// The same for both sides of a column.
pub fn are_both_small(column: u32, uppers: &[Row], lowers: &[Row]) -> bool
    ensures { result ≡ true → All (λ r. IsSmall column r.term) uppers.now
        × All (λ r. IsSmall column r.term) lowers.now }
{
    are_small(column, uppers) && are_small(column, lowers)
}

/// Whether one of the rows is as strong.
fn is_needless(rows: &[Row], term: &Term) -> bool
    ensures { result ≡ true → list_any (λ r. is_as_strong term.now r.term) rows.now ≡ true }
{
    for row in rows {
        if row.term.constant() >= term.constant() && row.term.parts == term.parts {
            return true;
        }
    }
    false
}

/// Whether an earlier row is as strong; none is looked for, unless the rows are small.
pub fn is_skipped(rows: &[Row], place: usize, are_small: bool) -> bool
    requires { place < length rows.now }
    ensures { (r : Row) → result ≡ true → (are_small ≡ true)
        × (list_any (λ s. is_as_strong (slice_index_or rows.now place r).term s.term)
        (take place rows.now) ≡ true) }
{
    are_small && is_needless(&rows[..place.min(LOOK)], &rows[place].term)
}

/// Which rows need no pairs.
pub fn marks_of(alloc: Global, rows: &[Row], are_small: bool) -> Result<Vec<bool>, OutOfMemory>
    ensures { IfOk result (λ marks. AreMarked (are_small ≡ true) rows.now marks.items) }
{
    let mut marks = Vec::with_capacity(alloc, rows.len())?;
    for place in 0..rows.len() {
        marks.push(is_skipped(rows, place, are_small))?;
    }
    Ok(marks)
}
