//! Rows with their numbers, and rows of one column.

ghost use Rattle.std.specs.Prelude.{◌≡◌, ◌≤◌, ◌^◌, ◌∷◌, [], unsigned_abs, IfOk};
ghost use Rattle.infeasible_cert.specs.Right.{upper_range, lower_range};

use linear_formula::error::OutOfMemory;
use linear_formula::term::{Parts, Term};
use std::alloc::Global;

/// A row, at most 0, and its number among those that derived rows may name.
#[derive(Debug, Drop)]
pub struct Row {
    pub term: Term,
    pub number: u32,
}

/// `coefficient * column + constant`, for a coefficient of 1 or -1.
pub fn single_term(
    alloc: Global,
    column: u32,
    coefficient: i128,
    constant: i128,
) -> Result<Term, OutOfMemory>
    requires coefficient_limit { unsigned_abs coefficient ≡ 1 }
    requires constant_limit { unsigned_abs constant ≤ 2 ^ 63 }
    ensures { IfOk result
        (λ t. t ≡ record { parts = (column, coefficient) ∷ []; constant = constant }) }
{
    let parts = vec![in alloc; (column, coefficient)]?;
    Ok(Term::new(Parts::from_vec(parts), constant))
}

/// `column - 9223372036854775807`, the row of the greatest value.
pub fn upper_range(alloc: Global, column: u32) -> Result<Term, OutOfMemory>
    ensures { IfOk result (λ t. t ≡ upper_range column) }
{
    single_term(alloc, column, 1, -9_223_372_036_854_775_807)
}

/// `-9223372036854775808 - column`, the row of the least value.
pub fn lower_range(alloc: Global, column: u32) -> Result<Term, OutOfMemory>
    ensures { IfOk result (λ t. t ≡ lower_range column) }
{
    single_term(alloc, column, -1, -9_223_372_036_854_775_808)
}
