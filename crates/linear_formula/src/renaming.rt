//! New numbers for columns.

ghost use Rattle.std.specs.Prelude.{◌≡◌, ◌+◌, ◌≤◌, ◌^◌, ℕ, [], length, unwrap_or, IfOk, OnOk};
ghost use Rattle.std.specs.BTreeMap.{get};
ghost use Rattle.std.specs.Ordering.{nat_cmp};
ghost use Rattle.linear_formula.specs.steps.Order.{AllWithin};
ghost use Rattle.linear_formula.specs.Results.{renamed_column, renamed_parts};

use crate::error::OutOfMemory;
use crate::sums::Sums;
use std::alloc::Global;
use std::collections::BTreeMap;

pub type NewColumns = BTreeMap<u32, u32>;

/// The new number of each listed column.
pub fn new_columns(alloc: Global, map: &[(u32, u32)]) -> Result<NewColumns, OutOfMemory>
    ensures { IfOk result (λ m. (x : ℕ) → unwrap_or (get nat_cmp m x) x ≡ renamed_column map.now
        x) }
{
    let mut columns = BTreeMap::new(alloc);
    let mut left = map.len();
    while left > 0 {
        left -= 1;
        let (old, new) = map[left];
        columns.insert(old, new)?;
    }
    Ok(columns)
}

fn new_column(columns: &NewColumns, column: u32) -> u32
    ensures { result ≡ unwrap_or (get nat_cmp columns.now column) column }
{
    match columns.get(&column) {
        Some(new) => *new,
        None => column,
    }
}

/// Adds the parts under their new columns.
pub fn add_renamed(
    sums: &mut Sums,
    columns: &NewColumns,
    parts: &[(u32, i128)],
) -> Result<(), OutOfMemory>
    requires limits { AllWithin parts.now }
    requires empty { sums.old.parts ≡ [] }
    requires room { sums.old.adds + length parts.now ≤ 2 ^ 73 }
    ensures { OnOk result
        (sums.new.parts ≡ renamed_parts (λ x. unwrap_or (get nat_cmp columns.now x) x) parts.now) }
{
    let mut left = parts.len();
    while left > 0 {
        left -= 1;
        let (column, coefficient) = parts[left];
        sums.add(new_column(columns, column), 1, coefficient)?;
    }
    Ok(())
}
