//! What an elimination leaves.

ghost use Rattle.std.specs.Prelude.{◌≡◌, IfOk};
ghost use Rattle.shadow_elim.specs.declared.shadow.ShadowError.TheVariants.{Memory};
ghost use Rattle.shadow_elim.specs.Errors.{shadow_error_of};

use infeasible_cert::certificate::Derived;
use linear_formula::error::{LinError, OutOfMemory};
use linear_formula::formula::{Atom, Cube};
use std::alloc::{AllocError, AllocFailed, Global};
use std::marker::Model;
use thiserror::Error;

/// An upper and a lower row of a column, as they stood when they were combined.
#[derive(Debug, Drop)]
pub struct Pair {
    pub column: u32,
    pub upper: Atom,
    pub lower: Atom,
}

impl Pair {
    pub fn copy(&self, alloc: Global) -> Result<Pair, OutOfMemory>
        ensures { IfOk result (λ pair. pair ≡ self.now) }
    {
        let upper = self.upper.copy(alloc)?;
        Ok(Pair {
            column: self.column,
            upper,
            lower: self.lower.copy(alloc)?,
        })
    }
}

/// A cube that every point of an elimination meets.
#[derive(Debug, Drop)]
pub struct Pre {
    pub cube: Cube,
    /// The first pair that may let other points in; without one the cube is exact.
    pub inexact: Option<Pair>,
}

/// Derived rows in the order in which they were made.
#[derive(Drop)]
pub struct DerivedRows {
    items: Vec<Derived>,
}

impl Model for DerivedRows {
    ghost use Rattle.std.specs.Prelude.{List};
    ghost use Rattle.infeasible_cert.specs.declared.certificate.Derived.{Derived};

    ghost Value = { List Derived };

    ghost view = { λ d. d.items.items };
}

impl DerivedRows {
    /// Takes no memory of its own.
    pub fn from_vec(items: Vec<Derived>) -> DerivedRows
        ensures { result ≡ items.items }
    {
        DerivedRows { items }
    }

    pub fn into_vec(self) -> Vec<Derived>
        ensures { result.items ≡ self }
    {
        let DerivedRows { items } = self;
        items
    }

    pub fn as_slice(&self) -> &[Derived]
        ensures { result.now ≡ self.now }
    {
        self.items.as_slice()
    }
}

/// A cube without some columns, and how its new rows follow.
#[derive(Drop)]
pub struct Shadow {
    pub pre: Pre,
    /// A row for each new row that stayed after its column. Rows are numbered from 0: those of the
    /// cube, the range rows of the eliminated columns, and these.
    pub rows: DerivedRows,
}

/// Why an elimination has no result.
#[derive(Clone, Copy, Debug, PartialEq, Eq, Error)]
pub enum ShadowError {
    /// A new row is beyond the limits of a term.
    #[error("a row is too wide")]
    Wide,
    /// More than `MAX_ROWS` rows are left after a column.
    #[error("too many rows")]
    Rows,
    #[error("out of memory")]
    Memory,
}

impl From<LinError> for ShadowError {
    ghost from_gives = { λ error e. e ≡ shadow_error_of error };

    fn from(error: LinError) -> ShadowError {
        match error {
            LinError::Wide => ShadowError::Wide,
            LinError::Memory => ShadowError::Memory,
        }
    }
}

impl From<AllocError> for ShadowError {
    ghost from_gives = { λ _ e. e ≡ Memory };

    fn from(_error: AllocError) -> ShadowError {
        ShadowError::Memory
    }
}

impl<T: Drop> From<AllocFailed<T>> for ShadowError {
    ghost from_gives = { λ _ e. e ≡ Memory };

    fn from(_error: AllocFailed<T>) -> ShadowError {
        ShadowError::Memory
    }
}
