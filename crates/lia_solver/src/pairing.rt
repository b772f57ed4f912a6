//! Rows made of an upper and a lower row of a column.

ghost use Rattle.std.specs.Prelude.{◌≡◌, ◌<◌, ◌≤◌, ◌^◌, ◌∷◌, [], pos, unsigned_abs, ◌*ℤ◌, ◌+ℤ◌, ◌↔◌, length, slice_index_or, IfOk, IsErrOf, IsTrue, MatchOption};
ghost use Rattle.linear_formula.specs.LinearSum.{is_term, is_within};
ghost use Rattle.linear_formula.specs.steps.Order.{AllWithin};
ghost use Rattle.linear_formula.specs.Results.{combination};
ghost use Rattle.shadow_elim.specs.Division.{tightened, row_divisor};
ghost use Rattle.shadow_elim.specs.Elimination.{size_of, upper_multiple, lower_multiple, pair_sum};
ghost use Rattle.lia_solver.specs.steps.Entries.{sum_at, least_at, making_of, ArePaired};

use crate::division::{common_divisor, divide_all, divide_up, parts_divisor};
use crate::merge::merge_into;
use crate::table::{Making, Table};
use linear_formula::error::LinError;
use linear_formula::term::{MAX_CONSTANT, MAX_PARTS};

/// A row, whose coefficients are in a list of their own.
#[derive(Clone, Copy)]
pub struct Made {
    pub constant: i128,
    pub making: Making,
}

/// The multiples by which the column falls out, of rows with so great coefficients.
fn multiples(upper: u64, lower: u64) -> (i64, i64)
    requires upper_limit { upper ≤ 2 ^ 40 }
    requires lower_limit { lower ≤ 2 ^ 40 }
    requires positive { 0 < upper }
    ensures upper { result.0 ≡ pos (upper_multiple upper lower) }
    ensures lower { result.1 ≡ pos (lower_multiple upper lower) }
    ensures upper_bound { unsigned_abs result.0 ≤ 2 ^ 40 }
    ensures lower_bound { unsigned_abs result.1 ≤ 2 ^ 40 }
{
    if upper == lower {
        return (1, 1);
    }
    let divisor = common_divisor(upper, lower);
    if divisor == 1 {
        return (lower as i64, upper as i64);
    }
    ((lower / divisor) as i64, (upper / divisor) as i64)
}

/// The sum of multiples of constants, if it is within the limits.
pub fn sum_of(first: i64, left: i128, second: i64, right: i128) -> Option<i128>
    requires first_limit { unsigned_abs first ≤ 2 ^ 40 }
    requires left_limit { unsigned_abs left ≤ 2 ^ 84 }
    requires second_limit { unsigned_abs second ≤ 2 ^ 40 }
    requires right_limit { unsigned_abs right ≤ 2 ^ 84 }
    ensures { MatchOption result
        (2 ^ 84 < unsigned_abs ((first *ℤ left) +ℤ (second *ℤ right)))
        (λ c. (c ≡ (first *ℤ left) +ℤ (second *ℤ right)) × (unsigned_abs c ≤ 2 ^ 84)) }
{
    let sum = i128::from(first) * left + i128::from(second) * right;
    if sum > MAX_CONSTANT || sum < -MAX_CONSTANT {
        return None;
    }
    Some(sum)
}

/// Puts the coefficients of the sum of two multiples into the list, and gives its constant.
#[inline(always)]
fn sum_into(
    out: &mut Vec<(u32, i128)>,
    first: i64,
    left: &[(u32, i128)],
    left_constant: i128,
    second: i64,
    right: &[(u32, i128)],
    right_constant: i128,
) -> Result<i128, LinError>
    requires first_limit { unsigned_abs first ≤ 2 ^ 40 }
    requires second_limit { unsigned_abs second ≤ 2 ^ 40 }
    requires left_term { IsTrue (is_term (record { parts = left.now; constant = left_constant })) }
    requires right_term { IsTrue
        (is_term (record { parts = right.now; constant = right_constant })) }
    ensures value { IfOk result
        (λ c. record { parts = out.new.items; constant = c } ≡ combination
        ((first, record { parts = left.now; constant = left_constant })
        ∷ (second, record { parts = right.now; constant = right_constant })
        ∷ []) (pos 0)) }
    ensures kept { IfOk result
        (λ c. IsTrue (is_term (record { parts = out.new.items; constant = c }))) }
    ensures wide { IsErrOf result LinError.Wide → ¬ IsTrue (is_within (combination
        ((first, record { parts = left.now; constant = left_constant })
        ∷ (second, record { parts = right.now; constant = right_constant })
        ∷ []) (pos 0))) }
{
    merge_into(out, i128::from(first), left, i128::from(second), right)?;
    if out.len() > MAX_PARTS {
        return Err(LinError::Wide);
    }
    match sum_of(first, left_constant, second, right_constant) {
        Some(constant) => Ok(constant),
        None => Err(LinError::Wide),
    }
}

/// Divides the row by the greatest common divisor of its coefficients, and says by what: by 1 where
/// nothing is divided.
fn tighten(out: &mut Vec<(u32, i128)>, constant: i128) -> (i128, i64)
    requires { IsTrue (is_term (record { parts = out.old.items; constant = constant })) }
    ensures row { record { parts = out.new.items; constant = result.0 } ≡ tightened
        (record { parts = out.old.items; constant = constant }) }
    ensures divisor { result.1 ≡ pos
        (row_divisor (record { parts = out.old.items; constant = constant })) }
{
    let divisor = parts_divisor(out);
    if divisor <= 1 {
        return (constant, 1);
    }
    divide_all(out, divisor);
    (divide_up(constant, divisor), divisor as i64)
}

/// How great the first coefficient is.
pub fn first_size(parts: &[(u32, i128)]) -> u64
    requires some { 0 < length parts.now }
    requires limits { AllWithin parts.now }
    ensures { result ≡ unsigned_abs (slice_index_or parts.now 0 (0, pos 0)).1 }
{
    parts[0].1.unsigned_abs() as u64
}

/// The multiples of two rows by which the column falls out, the first one of both.
fn multiples_of(column: u32, table: &Table, upper: usize, lower: usize) -> (i64, i64)
    requires { ArePaired column table.now upper lower }
    ensures upper { result.0 ≡ pos (upper_multiple (size_of column (sum_at table.now upper))
        (size_of column (sum_at table.now lower))) }
    ensures lower { result.1 ≡ pos (lower_multiple (size_of column (sum_at table.now upper))
        (size_of column (sum_at table.now lower))) }
    ensures upper_bound { unsigned_abs result.0 ≤ 2 ^ 40 }
    ensures lower_bound { unsigned_abs result.1 ≤ 2 ^ 40 }
{
    let _ = column;
    let upper = first_size(table.parts(upper));
    let lower = first_size(table.parts(lower));
    multiples(upper, lower)
}

/// Whether the sum with the least constants has a constant within the limits.
pub fn is_least_narrow(column: u32, table: &Table, upper: usize, lower: usize) -> bool
    requires { ArePaired column table.now upper lower }
    ensures { IsTrue result ↔ (unsigned_abs
        (pair_sum column (least_at table.now upper, least_at table.now lower)).constant ≤ 2 ^ 84) }
{
    let (first, second) = multiples_of(column, table, upper, lower);
    sum_of(first, table.least(upper), second, table.least(lower)).is_some()
}

/// Measures the sum of an upper and a lower row of a column: the error says that it is too wide.
pub fn measure(
    out: &mut Vec<(u32, i128)>,
    column: u32,
    table: &Table,
    upper: usize,
    lower: usize,
) -> Result<(), LinError>
    requires { ArePaired column table.now upper lower }
    ensures within { IfOk result (λ _. IsTrue
        (is_within (pair_sum column (sum_at table.now upper, sum_at table.now lower)))) }
    ensures wide { IsErrOf result LinError.Wide → ¬ IsTrue
        (is_within (pair_sum column (sum_at table.now upper, sum_at table.now lower))) }
{
    let (first, second) = multiples_of(column, table, upper, lower);
    let _sum = sum_into(
        out,
        first,
        table.parts(upper),
        table.constant(upper),
        second,
        table.parts(lower),
        table.constant(lower),
    )?;
    Ok(())
}

/// The sum of an upper and a lower row of a column without the column, measured and then tightened.
pub fn combine(
    out: &mut Vec<(u32, i128)>,
    column: u32,
    table: &Table,
    upper: usize,
    lower: usize,
) -> Result<Made, LinError>
    requires { ArePaired column table.now upper lower }
    ensures within { IfOk result (λ _. IsTrue
        (is_within (pair_sum column (sum_at table.now upper, sum_at table.now lower)))) }
    ensures row { IfOk result (λ m. record { parts = out.new.items; constant = m.constant }
        ≡ tightened (pair_sum column (sum_at table.now upper, sum_at table.now lower))) }
    ensures making { IfOk result (λ m. m.making ≡ making_of column table.now upper lower) }
    ensures wide { IsErrOf result LinError.Wide → ¬ IsTrue
        (is_within (pair_sum column (sum_at table.now upper, sum_at table.now lower))) }
{
    let (first, second) = multiples_of(column, table, upper, lower);
    let sum = sum_into(
        out,
        first,
        table.parts(upper),
        table.constant(upper),
        second,
        table.parts(lower),
        table.constant(lower),
    )?;
    let (constant, divide) = tighten(out, sum);
    Ok(Made {
        constant,
        making: Making {
            upper,
            upper_multiple: first,
            lower,
            lower_multiple: second,
            divide,
        },
    })
}
