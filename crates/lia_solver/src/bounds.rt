//! The bounds of a column at the values so far.

ghost use Rattle.std.specs.Prelude.{◌≡◌, ◌^◌, ◌<◌, ◌≤◌, length, unsigned_abs, pos, IsTrue, ◌+ℤ◌};
ghost use Rattle.linear_formula.specs.LinearSum.{valuation, value_of_parts, is_term};
ghost use Rattle.linear_formula.specs.steps.Order.{AllWithin};
ghost use Rattle.shadow_elim.specs.Division.{floor_quotient};
ghost use Rattle.lia_solver.specs.steps.Bounded.{with_row};
ghost use Rattle.lia_solver.specs.steps.Solved.{high_in, low_in, floor_in};
ghost use Rattle.lia_solver.specs.steps.Tables.{AreRows};

use crate::division::quotient;
use crate::eliminate::{bounds_above, bounds_below};
use crate::pairing::first_size;
use crate::table::Table;
use linear_formula::assignment::Assignment;

/// The greatest value of a column, and the least one.
const GREATEST: i128 = 9_223_372_036_854_775_807;

const LEAST: i128 = -9_223_372_036_854_775_808;

/// What rows say of a column: the least integer that they allow, the greatest one that is not above
/// their bound from below, and the greatest one that they allow.
#[derive(Clone, Copy)]
pub struct Bounds {
    pub low: i128,
    pub floor: i128,
    pub high: i128,
}

/// The value of a row at an assignment.
fn value(parts: &[(u32, i128)], constant: i128, at: &Assignment) -> i128
    requires constant_limit { unsigned_abs constant ≤ 2 ^ 84 }
    requires limits { AllWithin parts.now }
    requires count { length parts.now ≤ 1024 }
    ensures value { result ≡ value_of_parts (valuation at.now) parts.now +ℤ constant }
    ensures limit { unsigned_abs result ≤ 2 ^ 114 }
{
    let mut sum = constant;
    for (column, coefficient) in parts {
        sum += *coefficient * i128::from(at.value(*column));
    }
    sum
}

/// The greatest integer not above the quotient.
fn floor_quotient(number: i128, divisor: u64) -> i128
    requires number { unsigned_abs number ≤ 2 ^ 114 }
    requires divisor { 0 < divisor }
    ensures value { result ≡ floor_quotient number divisor }
    ensures limit { unsigned_abs result ≤ 2 ^ 115 }
{
    if divisor == 1 {
        number
    } else {
        quotient(number, divisor)
    }
}

impl Bounds {
    /// The bounds with one more row. The column has no value yet, so its part counts for nothing.
    fn with_row(self, column: u32, parts: &[(u32, i128)], constant: i128, at: &Assignment) -> Bounds
        requires zero { valuation at.now column ≡ pos 0 }
        requires term { IsTrue (is_term (record { parts = parts.now; constant = constant })) }
        ensures { result ≡ with_row column at.now
            (record { parts = parts.now; constant = constant })
            self }
    {
        if bounds_above(column, parts) {
            let rest = value(&parts[1..], constant, at);
            let high = floor_quotient(-rest, first_size(parts));
            Bounds {
                high: self.high.min(high),
                ..self
            }
        } else if bounds_below(column, parts) {
            let rest = value(&parts[1..], constant, at);
            let low = -floor_quotient(-rest, first_size(parts));
            let floor = floor_quotient(rest, first_size(parts));
            Bounds {
                low: self.low.max(low),
                floor: self.floor.max(floor),
                ..self
            }
        } else {
            self
        }
    }
}

/// What the rows whose first column it is say of the column, which has no value yet.
pub fn bounds_of(column: u32, table: &Table, at: &Assignment) -> Bounds
    requires zero { valuation at.now column ≡ pos 0 }
    requires rows { AreRows table.now }
    ensures low { result.low ≡ low_in column at.now table.now }
    ensures floor { result.floor ≡ floor_in column at.now table.now }
    ensures high { result.high ≡ high_in column at.now table.now }
{
    let mut bounds = Bounds {
        low: LEAST,
        floor: LEAST,
        high: GREATEST,
    };
    for place in 0..table.len() {
        if table.first(place) == u64::from(column) {
            bounds = bounds.with_row(column, table.parts(place), table.constant(place), at);
        }
    }
    bounds
}
