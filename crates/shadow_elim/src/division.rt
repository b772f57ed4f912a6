//! Common divisors, and rows divided by them.

ghost use Rattle.std.specs.Prelude.{◌≡◌, ◌^◌, ◌<◌, ◌≤◌, IfOk, unsigned_abs};
ghost use Rattle.linear_formula.specs.steps.Order.{AllWithin};
ghost use Rattle.shadow_elim.specs.Division.{common_divisor, parts_divisor, divided_parts, tightened, row_divisor, ceiling_quotient};

use linear_formula::error::OutOfMemory;
use linear_formula::term::{Parts, Term};
use std::alloc::Global;

/// Euclid's algorithm.
pub fn common_divisor(a: u64, b: u64) -> u64
    ensures { result ≡ common_divisor a b }
{
    let mut x = a;
    let mut y = b;
    while y != 0 {
        let rest = x % y;
        x = y;
        y = rest;
    }
    x
}

/// The greatest common divisor of the coefficients.
fn parts_divisor(parts: &[(u32, i128)]) -> u64
    requires { AllWithin parts.now }
    ensures { result ≡ parts_divisor parts.now }
{
    let mut divisor = 0;
    let mut left = parts.len();
    while left > 0 && divisor != 1 {
        left -= 1;
        divisor = common_divisor(parts[left].1.unsigned_abs() as u64, divisor);
    }
    divisor
}

fn divide_parts(
    alloc: Global,
    parts: &[(u32, i128)],
    divisor: u64,
) -> Result<Vec<(u32, i128)>, OutOfMemory>
    requires { 1 < divisor }
    ensures { IfOk result (λ items. items.items ≡ divided_parts divisor parts.now) }
{
    let mut items = Vec::with_capacity(alloc, parts.len())?;
    for (column, coefficient) in parts {
        items.push((*column, coefficient.div_euclid(i128::from(divisor))))?;
    }
    Ok(items)
}

/// The least integer that is not below the quotient.
fn divide_up(constant: i128, divisor: u64) -> i128
    requires limit { unsigned_abs constant ≤ 2 ^ 84 }
    requires divisor { 1 < divisor }
    ensures { result ≡ ceiling_quotient constant divisor }
{
    -((-constant).div_euclid(i128::from(divisor)))
}

/// The row divided by the greatest common divisor of its coefficients, and this divisor, 1 where
/// nothing is divided.
pub fn tighten(alloc: Global, term: Term) -> Result<(Term, u64), OutOfMemory>
    ensures row { IfOk result (λ r. r.0 ≡ tightened term) }
    ensures divisor { IfOk result (λ r. r.1 ≡ row_divisor term) }
{
    let divisor = parts_divisor(term.parts());
    if divisor <= 1 {
        return Ok((term, 1));
    }
    let items = divide_parts(alloc, term.parts(), divisor)?;
    let constant = divide_up(term.constant(), divisor);
    Ok((Term::new(Parts::from_vec(items), constant), divisor))
}
