//! Rows in lists by the first of the columns that they name, so that a row isn't touched before its
//! column.

ghost use Rattle.std.specs.Prelude.{◌≡◌, ◌∷◌, ◌<◌, ◌*◌, ◌&&◌, [], All, length, min, nat_lt, IfOk, OnOk, if◌then◌else◌};
ghost use Rattle.std.specs.List.{sum_by};
ghost use Rattle.shadow_elim.specs.steps.Lists.{rank, staying, listed, AreAdded};

use crate::limit::MAX_ROWS;
use crate::pairing::Candidate;
use crate::reduction::Reduction;
use linear_formula::error::OutOfMemory;
use linear_formula::term::Term;
use std::alloc::Global;

/// As many empty lists as there are columns.
pub fn lists_of(alloc: Global, columns: &[u32]) -> Result<Vec<Reduction>, OutOfMemory>
    ensures count { IfOk result (λ ls. length ls.items ≡ length columns.now) }
    ensures empty { IfOk result (λ ls. All (λ l. l ≡ []) ls.items) }
{
    let mut lists = Vec::with_capacity(alloc, columns.len())?;
    for _ in columns {
        lists.push(Reduction::new(alloc))?;
    }
    Ok(lists)
}

/// How many columns there are from the first one on that the row names.
fn rank(columns: &[u32], term: &Term) -> usize
    ensures { result ≡ rank columns.now term.now }
{
    let mut left = columns.len();
    for column in columns {
        if term.coefficient(*column) != 0 {
            return left;
        }
        left -= 1;
    }
    0
}

/// Adds a row at the end of its list, unless an earlier one there is as strong.
pub fn add_row(
    lists: &mut Vec<Reduction>,
    alloc: Global,
    columns: &[u32],
    row: Candidate,
) -> Result<(), OutOfMemory>
    requires { length columns.now < length lists.old.items }
    ensures { OnOk result (AreAdded columns.now (row ∷ []) lists.old.items lists.new.items) }
{
    let place = rank(columns, &row.term);
    lists[place].add(alloc, row)
}

/// How many rows there are, some of which may not stay.
fn listed(lists: &[Reduction]) -> usize
    ensures { result ≡ listed lists.now }
{
    let mut listed: usize = 0;
    for list in lists {
        listed = listed.saturating_add(list.len());
    }
    listed
}

fn keeps_many(lists: &[Reduction]) -> bool
    ensures { result ≡ nat_lt MAX_ROWS (sum_by staying lists.now) }
{
    let mut count: usize = 0;
    for list in lists {
        count = count.saturating_add(list.count());
    }
    count > MAX_ROWS
}

/// Whether more than `MAX_ROWS` rows stay.
pub fn is_beyond(lists: &[Reduction]) -> bool
    ensures { result ≡ nat_lt MAX_ROWS (sum_by staying lists.now) }
{
    listed(lists) > MAX_ROWS && keeps_many(lists)
}

/// Whether more than `MAX_ROWS` rows stay, where it is seen: they are counted only where there are
/// more than `rows`, which is doubled then, so that all counting takes no longer than the adding.
pub fn is_seen_beyond(lists: &[Reduction], rows: &mut usize) -> bool
    ensures seen { result ≡ (nat_lt rows.old (listed lists.now) &&
        nat_lt MAX_ROWS (sum_by staying lists.now)) }
    ensures doubled { rows.new ≡ (if nat_lt rows.old (listed lists.now)
        then min usize.MAX (2 * rows.old) else rows.old) }
{
    if listed(lists) <= *rows {
        return false;
    }
    *rows = rows.saturating_mul(2);
    keeps_many(lists)
}
