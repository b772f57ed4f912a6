//! The elimination of a column from a table.

ghost use Rattle.std.specs.Prelude.{◌≡◌, ◌<◌, ◌+◌, true, false, length, Contains, IfOk, IfSome, OnOk, IsTrue, ℕ};
ghost use Rattle.linear_formula.specs.LinearSum.{is_within};
ghost use Rattle.linear_formula.specs.steps.Order.{AllWithin};
ghost use Rattle.shadow_elim.specs.Elimination.{pair_sum};
ghost use Rattle.shadow_elim.specs.RowSizes.{IsSized, AreLimited};
ghost use Rattle.lia_solver.specs.declared.table.Origin.TheVariants as origin;
ghost use Rattle.lia_solver.specs.steps.Entries.{sum_at, bounds_above, bounds_below, ArePaired};
ghost use Rattle.lia_solver.specs.steps.TwoColumns.{AreSides};
ghost use Rattle.lia_solver.specs.steps.Tables.{starts_from, passed, AreRows, IsPut, IsGrown, IsSummed, AreLowerPlaces, HasWide, AreNarrow, IsLeft};

use crate::one_column::always_holds;
use crate::pairing::{Made, combine, measure};
use crate::places::Places;
use crate::slight::{sizes_at, sizes_of_all};
use crate::table::{Origin, Table};
use crate::two_columns::{Sides, is_needless, sides_of};
use linear_formula::error::{LinError, OutOfMemory};
use shadow_elim::limit::MAX_ROWS;
use shadow_elim::sizes::{Sizes, do_fit};
use std::alloc::{AllocError, Global};

/// Lists that each column uses anew.
#[derive(Drop)]
pub struct Work {
    parts: Vec<(u32, i128)>,
    lowers: Places,
}

impl Work {
    pub fn new(alloc: Global) -> Work {
        Work {
            parts: Vec::new(alloc),
            lowers: Places::new(alloc),
        }
    }
}

/// How the elimination of a column ends: with a table of what is left, or at a limit.
pub enum Eliminated {
    Done,
    Wide,
    Rows,
}

/// Whether the column is the first one that the row names, and the row bounds it from above.
pub fn bounds_above(column: u32, parts: &[(u32, i128)]) -> bool
    ensures { result ≡ bounds_above column parts.now }
{
    match parts.first() {
        Some((first, coefficient)) => *first == column && *coefficient > 0,
        None => false,
    }
}

/// Whether the column is the first one that the row names, and the row bounds it from below.
pub fn bounds_below(column: u32, parts: &[(u32, i128)]) -> bool
    ensures { result ≡ bounds_below column parts.now }
{
    match parts.first() {
        Some((first, coefficient)) => *first == column && *coefficient < 0,
        None => false,
    }
}

/// Whether the row at a place has the column as its first one, and bounds it from above. Most rows
/// have another one, for which their coefficients aren't looked at.
pub fn is_upper(column: u32, table: &Table, place: usize) -> bool
    requires { place < length table.now }
    ensures { result ≡ bounds_above column (sum_at table.now place).parts }
{
    table.first(place) == u64::from(column) && bounds_above(column, table.parts(place))
}

/// The same, from below.
pub fn is_lower(column: u32, table: &Table, place: usize) -> bool
    requires { place < length table.now }
    ensures { result ≡ bounds_below column (sum_at table.now place).parts }
{
    table.first(place) == u64::from(column) && bounds_below(column, table.parts(place))
}

/// Whether the row at a place names no column up to this one.
fn starts_beyond(column: u32, table: &Table, place: usize) -> bool
    requires { place < length table.now }
    ensures { result ≡ starts_from (column + 1) (sum_at table.now place).parts }
{
    table.first(place) > u64::from(column)
}

/// Lists the rows that bound the column from below, and says how many rows name it or an earlier
/// one.
fn list_lowers(places: &mut Places, column: u32, table: &Table) -> Result<usize, OutOfMemory>
    ensures places { OnOk result (AreLowerPlaces column table.now places.new) }
    ensures passed { IfOk result (λ n. n ≡ passed (column + 1) table.now) }
{
    places.clear();
    let mut passed = 0;
    for place in 0..table.len() {
        if !starts_beyond(column, table, place) {
            passed += 1;
            if is_lower(column, table, place) {
                places.push(place)?;
            }
        }
    }
    Ok(passed)
}

/// Adds a row unless it always holds.
pub fn put(
    table: &mut Table,
    parts: &[(u32, i128)],
    constant: i128,
    origin: Origin,
) -> Result<(), OutOfMemory>
    requires { AllWithin parts.now }
    ensures { OnOk result (IsPut (record { parts = parts.now; constant = constant }) origin
        table.old table.new) }
{
    if parts.is_empty() && constant <= 0 {
        return Ok(());
    }
    table.add(parts, constant, origin)
}

/// Adds the sum of the rows, unless it says no more than a row that stands. Says whether it is
/// within the limits.
fn add_sum(
    parts: &mut Vec<(u32, i128)>,
    column: u32,
    table: &mut Table,
    sides: Option<Sides>,
    upper: usize,
    lower: usize,
) -> Result<bool, OutOfMemory>
    requires rows { AreRows table.old }
    requires sides { IfSome sides (λ s. AreSides s table.old) }
    requires paired { ArePaired column table.old upper lower }
    ensures grown { OnOk result (IsGrown column table.old table.new) }
    ensures summed { IfOk result (λ b. b ≡ true → IsSummed column table.new upper lower) }
    ensures wide { IfOk result (λ b. b ≡ false → HasWide column table.old) }
{
    if always_holds(column, table, upper, lower) {
        return Ok(true);
    }
    if is_needless(sides, column, table, upper, lower) {
        return Ok(true);
    }
    match combine(parts, column, table, upper, lower) {
        Ok(Made { constant, making }) => {
            put(table, parts, constant, Origin::Made(making))?;
            Ok(true)
        }
        Err(LinError::Wide) => Ok(false),
        Err(LinError::Memory) => Err(AllocError),
    }
}

/// Adds the sums of an upper row with the lower ones, until one is too wide. Says whether none was.
fn add_sums(
    parts: &mut Vec<(u32, i128)>,
    column: u32,
    table: &mut Table,
    upper: usize,
    lowers: &[usize],
) -> Result<bool, OutOfMemory>
    requires rows { AreRows table.old }
    requires upper { (upper < length table.old)
        × IsTrue (bounds_above column (sum_at table.old upper).parts) }
    requires lowers { AreLowerPlaces column table.old lowers.now }
    ensures grown { OnOk result (IsGrown column table.old table.new) }
    ensures sums { IfOk result (λ b. b ≡ true → (lower : ℕ) → Contains lowers.now lower →
        IsSummed column table.new upper lower) }
    ensures wide { IfOk result (λ b. b ≡ false → HasWide column table.old) }
{
    let sides = sides_of(table, upper, lowers.len());
    for lower in lowers {
        if !add_sum(parts, column, table, sides, upper, *lower)? {
            return Ok(false);
        }
    }
    Ok(true)
}

/// The same, of any row: one that is no upper row has no sums.
fn add_sums_of(
    parts: &mut Vec<(u32, i128)>,
    column: u32,
    table: &mut Table,
    place: usize,
    lowers: &[usize],
) -> Result<bool, OutOfMemory>
    requires rows { AreRows table.old }
    requires place { place < length table.old }
    requires lowers { AreLowerPlaces column table.old lowers.now }
    ensures grown { OnOk result (IsGrown column table.old table.new) }
    ensures sums { IfOk result (λ b. b ≡ true → (lower : ℕ) →
        ArePaired column table.old place lower → IsSummed column table.new place lower) }
    ensures wide { IfOk result (λ b. b ≡ false → HasWide column table.old) }
{
    if is_upper(column, table, place) {
        add_sums(parts, column, table, place, lowers)
    } else {
        Ok(true)
    }
}

/// Whether the sums of an upper row with the lower ones, which have these sizes at most, are within
/// the limits. They are measured only where the sizes don't tell it.
fn are_narrow(
    parts: &mut Vec<(u32, i128)>,
    column: u32,
    table: &Table,
    upper: usize,
    lowers: &[usize],
    sizes: Sizes,
) -> Result<bool, OutOfMemory>
    requires rows { AreRows table.now }
    requires upper { (upper < length table.now)
        × IsTrue (bounds_above column (sum_at table.now upper).parts) }
    requires lowers { AreLowerPlaces column table.now lowers.now }
    requires sized { (i : ℕ) → Contains lowers.now i → IsSized (sum_at table.now i) sizes }
    requires limited { AreLimited sizes }
    ensures sums { IfOk result (λ b. b ≡ true → (lower : ℕ) → Contains lowers.now lower →
        IsTrue (is_within (pair_sum column (sum_at table.now upper, sum_at table.now lower)))) }
    ensures wide { IfOk result (λ b. b ≡ false → HasWide column table.now) }
{
    if do_fit(sizes_at(table, upper), sizes) {
        return Ok(true);
    }
    for lower in lowers {
        match measure(parts, column, table, upper, *lower) {
            Ok(_) => {}
            Err(LinError::Wide) => return Ok(false),
            Err(LinError::Memory) => return Err(AllocError),
        }
    }
    Ok(true)
}

/// Whether the sums of all upper rows with the lower ones are within the limits. None is kept.
fn are_all_narrow(
    parts: &mut Vec<(u32, i128)>,
    column: u32,
    table: &Table,
    lowers: &[usize],
) -> Result<bool, OutOfMemory>
    requires rows { AreRows table.now }
    requires lowers { AreLowerPlaces column table.now lowers.now }
    ensures narrow { IfOk result (λ b. b ≡ true → AreNarrow column table.now) }
    ensures wide { IfOk result (λ b. b ≡ false → HasWide column table.now) }
{
    let sizes = sizes_of_all(table, lowers);
    for upper in 0..table.len() {
        if is_upper(column, table, upper)
            && !are_narrow(parts, column, table, upper, lowers, sizes)?
        {
            return Ok(false);
        }
    }
    Ok(true)
}

/// Adds the sums of all upper rows with the lower ones, until one is too wide or too many rows are
/// left, beside those that are done. From then on sums are measured, and none is kept.
fn add_all(
    parts: &mut Vec<(u32, i128)>,
    column: u32,
    table: &mut Table,
    lowers: &[usize],
    behind: usize,
) -> Result<Eliminated, OutOfMemory>
    requires rows { AreRows table.old }
    requires lowers { AreLowerPlaces column table.old lowers.now }
    requires passed { behind ≡ passed (column + 1) table.old }
    ensures { IfOk result (λ p. IsLeft column table.old table.new p) }
{
    for place in 0..table.len() {
        if !add_sums_of(parts, column, table, place, lowers)? {
            return Ok(Eliminated::Wide);
        }
        if table.len() - behind > MAX_ROWS {
            let narrow = are_all_narrow(parts, column, table, lowers)?;
            return Ok(if narrow {
                Eliminated::Rows
            } else {
                Eliminated::Wide
            });
        }
    }
    if table.len() - behind > MAX_ROWS {
        return Ok(Eliminated::Rows);
    }
    Ok(Eliminated::Done)
}

/// Eliminates the column: the rows that follow from the pairs of its rows are added.
pub fn eliminate(work: &mut Work, table: &mut Table, column: u32) -> Result<Eliminated, OutOfMemory>
    requires { AreRows table.old }
    ensures { IfOk result (λ p. IsLeft column table.old table.new p) }
{
    let behind = list_lowers(&mut work.lowers, column, table)?;
    add_all(
        &mut work.parts,
        column,
        table,
        work.lowers.as_slice(),
        behind,
    )
}
