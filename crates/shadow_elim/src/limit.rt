//! Limits that a question met.

ghost use Rattle.std.specs.Prelude.{◌≡◌, IfOk};
ghost use Rattle.shadow_elim.specs.LimitKinds.{kind_of};

use crate::shadow::Pair;
use linear_formula::error::OutOfMemory;
use linear_formula::formula::Cube;
use linear_formula::question::Question;
use std::alloc::Global;
use std::marker::Model;

/// How many columns a cube may name.
pub const MAX_COLUMNS: usize = 256;

/// How many rows may be left after a column.
pub const MAX_ROWS: usize = 4096;

/// How many splits a question may have.
pub const MAX_SPLITS: u32 = 512;

/// Cubes in order.
#[derive(Debug, Drop)]
pub struct Cubes {
    items: Vec<Cube>,
}

impl Model for Cubes {
    ghost use Rattle.std.specs.Prelude.{List};
    ghost use Rattle.linear_formula.specs.declared.formula.Cube.{Cube};

    ghost Value = { List Cube };

    ghost view = { λ c. c.items.items };
}

impl Cubes {
    /// Takes no memory of its own.
    pub fn from_vec(items: Vec<Cube>) -> Cubes
        ensures { result ≡ items.items }
    {
        Cubes { items }
    }

    pub fn into_vec(self) -> Vec<Cube>
        ensures { result.items ≡ self }
    {
        let Cubes { items } = self;
        items
    }

    pub fn copy(&self, alloc: Global) -> Result<Cubes, OutOfMemory>
        ensures { IfOk result (λ cubes. cubes ≡ self.now) }
    {
        let mut items = Vec::with_capacity(alloc, self.items.len())?;
        for cube in &self.items {
            items.push(cube.copy(alloc)?)?;
        }
        Ok(Cubes { items })
    }

    pub fn as_slice(&self) -> &[Cube]
        ensures { result.now ≡ self.now }
    {
        self.items.as_slice()
    }
}

/// Why a question has no answer.
#[derive(Debug, Drop)]
pub enum Limit {
    /// The cube names more than `MAX_COLUMNS` columns.
    Columns,
    /// A sum, or a row of the branch's elimination, is beyond the limits of a term.
    Wide { branch: Question },
    /// The elimination of the branch leaves more than `MAX_ROWS` rows after a column.
    Rows { branch: Cube },
    /// These cubes, `MAX_SPLITS`, were split, and one more split is needed.
    Branches { branches: Cubes },
    /// The first pair of an elimination with neither coefficient 1 or -1.
    Inexact(Pair),
}

impl Limit {
    pub fn copy(&self, alloc: Global) -> Result<Limit, OutOfMemory>
        ensures { IfOk result (λ limit. limit ≡ self.now) }
    {
        match self {
            Limit::Columns => Ok(Limit::Columns),
            Limit::Wide { branch } => Ok(Limit::Wide {
                branch: branch.copy(alloc)?,
            }),
            Limit::Rows { branch } => Ok(Limit::Rows {
                branch: branch.copy(alloc)?,
            }),
            Limit::Branches { branches } => Ok(Limit::Branches {
                branches: branches.copy(alloc)?,
            }),
            Limit::Inexact(pair) => Ok(Limit::Inexact(pair.copy(alloc)?)),
        }
    }

    pub fn kind(&self) -> LimitKind
        ensures { result ≡ kind_of self.now }
    {
        match self {
            Limit::Columns => LimitKind::Columns,
            Limit::Wide { .. } => LimitKind::Wide,
            Limit::Rows { .. } => LimitKind::Rows,
            Limit::Branches { .. } => LimitKind::Branches,
            Limit::Inexact(_) => LimitKind::Inexact,
        }
    }
}

/// Which limit was met, without what it keeps.
#[derive(Clone, Copy, Debug, PartialEq, Eq)]
pub enum LimitKind {
    Columns,
    Wide,
    Rows,
    Branches,
    Inexact,
}

/// A question and the limit that it met.
#[derive(Debug, Drop)]
pub struct Kept {
    pub question: Question,
    pub limit: Limit,
}

impl Kept {
    pub fn copy(&self, alloc: Global) -> Result<Kept, OutOfMemory>
        ensures { IfOk result (λ kept. kept ≡ self.now) }
    {
        let question = self.question.copy(alloc)?;
        Ok(Kept {
            question,
            limit: self.limit.copy(alloc)?,
        })
    }
}
