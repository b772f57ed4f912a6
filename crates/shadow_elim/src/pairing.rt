//! Rows made of an upper and a lower row of a column.

ghost use Rattle.std.specs.Prelude.{◌≡◌, ◌≤◌, ◌^◌, pos, unsigned_abs, IfOk, IsErrOf, IsTrue};
ghost use Rattle.linear_formula.specs.LinearSum.{is_within};
ghost use Rattle.shadow_elim.specs.Elimination.{is_upper, is_lower, size_of, upper_multiple, lower_multiple, pair_sum};
ghost use Rattle.shadow_elim.specs.steps.Making.{made};

use crate::division::{common_divisor, tighten};
use crate::row::Row;
use linear_formula::error::LinError;
use linear_formula::term::Term;
use std::alloc::Global;

/// The two rows that a row was made of, with their multiples, and what the sum was divided by.
#[derive(Clone, Copy)]
pub struct Making {
    pub upper: u32,
    pub upper_multiple: i64,
    pub lower: u32,
    pub lower_multiple: i64,
    pub divide: i64,
}

#[derive(Clone, Copy)]
pub enum Origin {
    /// The row has this number.
    Known(u32),
    Made(Making),
}

/// A row that may stay.
#[derive(Drop)]
pub struct Candidate {
    pub term: Term,
    pub origin: Origin,
}

/// The multiples by which the column falls out.
fn multiples(column: u32, upper: &Term, lower: &Term) -> (i64, i64)
    requires upper { IsTrue (is_upper column upper.now) }
    requires lower { IsTrue (is_lower column lower.now) }
    ensures upper { result.0
        ≡ pos (upper_multiple (size_of column upper.now) (size_of column lower.now)) }
    ensures lower { result.1
        ≡ pos (lower_multiple (size_of column upper.now) (size_of column lower.now)) }
    ensures upper_limit { unsigned_abs result.0 ≤ 2 ^ 40 }
    ensures lower_limit { unsigned_abs result.1 ≤ 2 ^ 40 }
{
    let a = upper.coefficient(column).unsigned_abs() as u64;
    let b = lower.coefficient(column).unsigned_abs() as u64;
    let divisor = common_divisor(a, b);
    ((b / divisor) as i64, (a / divisor) as i64)
}

/// The sum of an upper and a lower row without the column, measured and then tightened.
pub fn combine(alloc: Global, column: u32, upper: &Row, lower: &Row) -> Result<Candidate, LinError>
    requires upper { IsTrue (is_upper column upper.now.term) }
    requires lower { IsTrue (is_lower column lower.now.term) }
    ensures within { IfOk result
        (λ c. IsTrue (is_within (pair_sum column (upper.now.term, lower.now.term)))) }
    ensures made { IfOk result (λ c. c ≡ made column upper.now lower.now) }
    ensures wide { IsErrOf result LinError.Wide →
        ¬ IsTrue (is_within (pair_sum column (upper.now.term, lower.now.term))) }
{
    let (upper_multiple, lower_multiple) = multiples(column, &upper.term, &lower.term);
    let sum = Term::add_multiples(
        alloc,
        upper_multiple,
        &upper.term,
        lower_multiple,
        &lower.term,
    )?;
    let (term, divisor) = tighten(alloc, sum)?;
    let making = Making {
        upper: upper.number,
        upper_multiple,
        lower: lower.number,
        lower_multiple,
        divide: divisor as i64,
    };
    Ok(Candidate {
        term,
        origin: Origin::Made(making),
    })
}
