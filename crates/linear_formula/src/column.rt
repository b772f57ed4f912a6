//! One column among parts.

ghost use Rattle.std.specs.Prelude.{◌≡◌, IfOk, IsTrue};
ghost use Rattle.linear_formula.specs.LinearSum.{listed_at, is_ascending};
ghost use Rattle.linear_formula.specs.steps.Order.{AllWithin};
ghost use Rattle.linear_formula.specs.Results.{without_part, negated_parts};

use crate::error::OutOfMemory;
use std::alloc::Global;

/// The coefficient of a column. Halves the places that are left until it finds the column.
pub fn coefficient_of(parts: &[(u32, i128)], column: u32) -> i128
    requires { IsTrue (is_ascending parts.now) }
    ensures { result ≡ listed_at column parts.now }
{
    let mut low = 0;
    let mut high = parts.len();
    while low < high {
        let middle = low + (high - low) / 2;
        let (x, coefficient) = parts[middle];
        if x == column {
            return coefficient;
        }
        if x < column {
            low = middle + 1;
        } else {
            high = middle;
        }
    }
    0
}

/// The parts of the other columns.
pub fn without_column(
    alloc: Global,
    parts: &[(u32, i128)],
    column: u32,
) -> Result<Vec<(u32, i128)>, OutOfMemory>
    ensures { IfOk result (λ rest. rest.items ≡ without_part column parts.now) }
{
    let mut rest = Vec::with_capacity(alloc, parts.len())?;
    for (x, coefficient) in parts {
        if column != *x {
            rest.push((*x, *coefficient))?;
        }
    }
    Ok(rest)
}

/// Changes the sign of each coefficient.
pub fn negate_all(parts: &mut [(u32, i128)])
    requires { AllWithin parts.old }
    ensures { parts.new ≡ negated_parts parts.old }
{
    for part in parts.iter_mut() {
        *part = (part.0, -part.1);
    }
}
