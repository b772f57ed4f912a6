//! Values for columns.

ghost use Rattle.std.specs.Prelude.{◌≡◌, IfOk, IsTrue};
ghost use Rattle.linear_formula.specs.LinearSum.{is_ascending, listed_at, valuation};

use crate::error::OutOfMemory;
use std::alloc::Global;
use std::marker::Model;

/// Columns and their values.
#[derive(Debug, Drop)]
pub struct Values {
    items: Vec<(u32, i64)>,
}

impl Model for Values {
    ghost use Rattle.std.specs.Prelude.{List, ℕ, ℤ};

    ghost Value = { List (ℕ × ℤ) };

    ghost view = { λ p. p.items.items };
}

impl Values {
    /// Takes no memory of its own.
    pub fn from_vec(items: Vec<(u32, i64)>) -> Values
        ensures { result ≡ items.items }
    {
        Values { items }
    }

    /// The pairs of column and value, in ascending order.
    pub fn into_vec(self) -> Vec<(u32, i64)>
        ensures { result.items ≡ self }
    {
        let Values { items } = self;
        items
    }

    /// The pairs of column and value, in ascending order.
    pub fn as_slice(&self) -> &[(u32, i64)]
        ensures { result.now ≡ self.now }
    {
        self.items.as_slice()
    }

    /// An equal list in memory of its own.
    pub fn copy(&self, alloc: Global) -> Result<Values, OutOfMemory>
        ensures { IfOk result (λ values. values ≡ self.now) }
    {
        Ok(Values::from_vec(Vec::from_slice(alloc, self.as_slice())?))
    }
}

/// Columns in ascending order; the columns that are not listed are 0.
#[derive(Debug, Drop)]
pub struct Assignment {
    pub values: Values,
}

impl Model for Assignment {
    ghost use Rattle.std.specs.Prelude.{IsTrue, List, ℕ, ℤ};
    ghost use Rattle.linear_formula.specs.LinearSum.{is_ascending};

    ghost Value = { List (ℕ × ℤ) };

    ghost view = { λ a. a.values };

    ghost invariant = { λ a. IsTrue (is_ascending a.values) };
}

/// Halves the places that are left until it finds the column.
fn value_at(values: &[(u32, i64)], column: u32) -> i64
    requires { IsTrue (is_ascending values.now) }
    ensures { result ≡ listed_at column values.now }
{
    let mut low = 0;
    let mut high = values.len();
    while low < high {
        let middle = low + (high - low) / 2;
        let (x, value) = values[middle];
        if x == column {
            return value;
        }
        if x < column {
            low = middle + 1;
        } else {
            high = middle;
        }
    }
    0
}

impl Assignment {
    /// The assignment with these values, and 0 for every other column.
    pub fn new(values: Values) -> Assignment
        requires { IsTrue (is_ascending values) }
        ensures value { result ≡ values }
        ensures kept { IsTrue (is_ascending result) }
    {
        Assignment { values }
    }

    /// The values that are listed; a column that is missing has the value 0.
    pub fn values(&self) -> &[(u32, i64)]
        ensures value { result.now ≡ self.now }
        ensures kept { IsTrue (is_ascending self.now) }
    {
        self.values.as_slice()
    }

    /// The value of a column.
    pub fn value(&self, column: u32) -> i64
        ensures { result ≡ valuation self.now column }
    {
        value_at(self.values(), column)
    }

    /// An equal assignment in memory of its own.
    pub fn copy(&self, alloc: Global) -> Result<Assignment, OutOfMemory>
        ensures { IfOk result (λ at. at ≡ self.now) }
    {
        let values = self.values.copy(alloc)?;
        Ok(Assignment { values })
    }
}
