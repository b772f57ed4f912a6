//! What is asked about cubes and terms.

ghost use Rattle.std.specs.Prelude.{◌≡◌, ◌↔◌, IfOk, IsTrue};
ghost use Rattle.linear_formula.specs.Equality.{same_summands, same_columns};

use crate::error::OutOfMemory;
use crate::formula::Cube;
use crate::term::Term;
use std::alloc::Global;
use std::marker::Model;

/// Multiples of terms, in order.
#[derive(Debug, Drop)]
pub struct Summands {
    items: Vec<(i64, Term)>,
}

impl Model for Summands {
    ghost use Rattle.std.specs.Prelude.{List, ℤ};
    ghost use Rattle.linear_formula.specs.LinearSum.{LinearSum};

    ghost Value = { List (ℤ × LinearSum) };

    ghost view = { λ s. s.items.items };
}

impl Summands {
    /// Takes no memory of its own.
    pub fn from_vec(items: Vec<(i64, Term)>) -> Summands
        ensures { result ≡ items.items }
    {
        Summands { items }
    }

    /// The pairs of factor and term, in order.
    pub fn into_vec(self) -> Vec<(i64, Term)>
        ensures { result.items ≡ self }
    {
        let Summands { items } = self;
        items
    }

    /// The pairs of factor and term, in order.
    pub fn as_slice(&self) -> &[(i64, Term)]
        ensures { result.now ≡ self.now }
    {
        self.items.as_slice()
    }

    /// An equal list in memory of its own.
    pub fn copy(&self, alloc: Global) -> Result<Summands, OutOfMemory>
        ensures { IfOk result (λ summands. summands ≡ self.now) }
    {
        let mut items = Vec::with_capacity(alloc, self.items.len())?;
        for (multiplier, term) in &self.items {
            items.push((*multiplier, term.copy(alloc)?))?;
        }
        Ok(Summands { items })
    }
}

/// Columns in order.
#[derive(Debug, Drop)]
pub struct Columns {
    items: Vec<u32>,
}

impl Model for Columns {
    ghost use Rattle.std.specs.Prelude.{List, ℕ};

    ghost Value = { List ℕ };

    ghost view = { λ c. c.items.items };
}

impl Columns {
    /// Takes no memory of its own.
    pub fn from_vec(items: Vec<u32>) -> Columns
        ensures { result ≡ items.items }
    {
        Columns { items }
    }

    /// The columns, in order.
    pub fn into_vec(self) -> Vec<u32>
        ensures { result.items ≡ self }
    {
        let Columns { items } = self;
        items
    }

    /// The columns, in order.
    pub fn as_slice(&self) -> &[u32]
        ensures { result.now ≡ self.now }
    {
        self.items.as_slice()
    }

    /// An equal list in memory of its own.
    pub fn copy(&self, alloc: Global) -> Result<Columns, OutOfMemory>
        ensures { IfOk result (λ columns. columns ≡ self.now) }
    {
        Ok(Columns::from_vec(Vec::from_slice(alloc, self.as_slice())?))
    }
}

impl PartialEq for Summands {
    ghost use Rattle.linear_formula.specs.steps.SameValues.{partial, summands-same};

    ghost eq = { same_summands };

    ghost laws = { partial (same_summands) summands-same };

    fn eq(&self, other: &Summands) -> bool
        ensures test { result ≡ same_summands self.now other.now }
        ensures same { IsTrue result ↔ (self.now ≡ other.now) }
    {
        self.as_slice() == other.as_slice()
    }
}

impl Eq for Summands {
    ghost use Rattle.std.specs.Cmp.{decided};
    ghost use Rattle.linear_formula.specs.steps.SameValues.{summands-same};

    ghost laws = { decided (same_summands) summands-same };
}

impl PartialEq for Columns {
    ghost use Rattle.linear_formula.specs.steps.SameValues.{partial, columns-same};

    ghost eq = { same_columns };

    ghost laws = { partial (same_columns) columns-same };

    fn eq(&self, other: &Columns) -> bool
        ensures test { result ≡ same_columns self.now other.now }
        ensures same { IsTrue result ↔ (self.now ≡ other.now) }
    {
        self.as_slice() == other.as_slice()
    }
}

impl Eq for Columns {
    ghost use Rattle.std.specs.Cmp.{decided};
    ghost use Rattle.linear_formula.specs.steps.SameValues.{columns-same};

    ghost laws = { decided (same_columns) columns-same };
}

#[derive(Debug, Drop, PartialEq, Eq)]
pub enum Question {
    /// Is the cube true at some values?
    Cube(Cube),
    /// The sum of multiples and a constant.
    Combine(Summands, i64),
    /// The cube without these columns.
    Eliminate(Cube, Columns),
}

impl Question {
    /// An equal question in memory of its own.
    pub fn copy(&self, alloc: Global) -> Result<Question, OutOfMemory>
        ensures { IfOk result (λ question. question ≡ self.now) }
    {
        match self {
            Question::Cube(cube) => Ok(Question::Cube(cube.copy(alloc)?)),
            Question::Combine(summands, constant) => Ok(Question::Combine(
                summands.copy(alloc)?,
                *constant,
            )),
            Question::Eliminate(cube, columns) => {
                let kept = cube.copy(alloc)?;
                Ok(Question::Eliminate(kept, columns.copy(alloc)?))
            }
        }
    }
}
