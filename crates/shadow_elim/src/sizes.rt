//! Bounds of the numbers of rows, by which no sum of two of them is too wide.

ghost use Rattle.std.specs.Prelude.{◌≡◌, ◌≤◌, ◌↔◌, ℕ, true, length, All, IsTrue};
ghost use Rattle.linear_formula.specs.LinearSum.{is_term, max_coefficient};
ghost use Rattle.linear_formula.specs.steps.Order.{AllWithin};
ghost use Rattle.shadow_elim.specs.Elimination.{is_upper, is_lower};
ghost use Rattle.shadow_elim.specs.RowSizes.{AreSized, IsSized, AreLimited, IsUpTo, DoFit, AreFitting, NoneIsWide};
ghost use Rattle.shadow_elim.specs.declared.sizes.Sizes.{Sizes};

use crate::row::Row;
use linear_formula::term::{MAX_COEFFICIENT, MAX_CONSTANT, MAX_PARTS};

/// How many coefficients rows have at most, how great these are, and how great the constants.
#[derive(Clone, Copy, Debug)]
pub struct Sizes {
    count: usize,
    coefficient: u128,
    constant: u128,
}

impl Sizes {
    /// The sizes of no rows.
    pub fn none() -> Sizes
        ensures limited { AreLimited result }
        ensures least { (s : Sizes) → IsUpTo result s }
    {
        Sizes {
            count: 0,
            coefficient: 0,
            constant: 0,
        }
    }
}

/// How great the greatest coefficient is.
fn greatest(parts: &[(u32, i128)]) -> u128
    requires { AllWithin parts.now }
    ensures sizes { AreSized parts.now (length parts.now) result }
    ensures limit { result ≤ max_coefficient }
    ensures least { (n : ℕ) → AreSized parts.now (length parts.now) n → result ≤ n }
{
    let mut greatest = 0;
    for part in parts {
        greatest = part.1.unsigned_abs().max(greatest);
    }
    greatest
}

/// The sizes of one row, the least ones.
pub fn sizes_of(parts: &[(u32, i128)], constant: i128) -> Sizes
    requires { IsTrue (is_term (record { parts = parts.now; constant = constant })) }
    ensures sized { IsSized (record { parts = parts.now; constant = constant }) result }
    ensures limited { AreLimited result }
    ensures least { (s : Sizes) → IsSized (record { parts = parts.now; constant = constant }) s →
        IsUpTo result s }
{
    Sizes {
        count: parts.len(),
        coefficient: greatest(parts),
        constant: constant.unsigned_abs(),
    }
}

/// The least sizes that are as great as both.
pub fn larger(left: Sizes, right: Sizes) -> Sizes
    requires left { AreLimited left }
    requires right { AreLimited right }
    ensures left { IsUpTo left result }
    ensures right { IsUpTo right result }
    ensures limited { AreLimited result }
    ensures least { (s : Sizes) → IsUpTo left s → IsUpTo right s → IsUpTo result s }
{
    Sizes {
        count: left.count.max(right.count),
        coefficient: left.coefficient.max(right.coefficient),
        constant: left.constant.max(right.constant),
    }
}

/// The sizes of all rows, the least ones.
fn sizes_of_all(rows: &[Row]) -> Sizes
    ensures sized { All (λ r. IsTrue (is_term r.term) × IsSized r.term result) rows.now }
    ensures limited { AreLimited result }
    ensures least { (s : Sizes) → All (λ r. IsSized r.term s) rows.now → IsUpTo result s }
{
    let mut sizes = Sizes::none();
    for row in rows {
        sizes = larger(sizes, sizes_of(row.term.parts(), row.term.constant()));
    }
    sizes
}

/// Whether the sums of rows of these sizes are within the limits.
pub fn do_fit(upper: Sizes, lower: Sizes) -> bool
    requires upper { AreLimited upper }
    requires lower { AreLimited lower }
    ensures { IsTrue result ↔ DoFit upper lower }
{
    let coefficients = upper.coefficient * lower.coefficient;
    let left = lower.coefficient * upper.constant;
    let right = upper.coefficient * lower.constant;
    upper.count + lower.count <= MAX_PARTS
        && 2 * coefficients <= MAX_COEFFICIENT as u128
        && left + right <= MAX_CONSTANT as u128
}

/// Whether the sizes show that no sum of an upper and a lower row of a column is too wide.
pub fn do_all_fit(uppers: &[Row], lowers: &[Row]) -> bool
    ensures fit { result ≡ true → (x : ℕ) → All (λ u. IsTrue (is_upper x u.term)) uppers.now →
        All (λ l. IsTrue (is_lower x l.term)) lowers.now → NoneIsWide x uppers.now lowers.now }
    ensures exact { IsTrue result ↔ AreFitting uppers.now lowers.now }
{
    do_fit(sizes_of_all(uppers), sizes_of_all(lowers))
}
