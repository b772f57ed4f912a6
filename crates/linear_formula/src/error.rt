//! Why an operation on terms has no result.

ghost use Rattle.std.specs.Prelude.{◌≡◌};
ghost use Rattle.linear_formula.specs.declared.error.LinError.TheVariants.{Memory};

use std::alloc::{AllocError, AllocFailed};
use thiserror::Error;

/// Memory ran out.
pub type OutOfMemory = AllocError;

#[derive(Clone, Copy, Debug, PartialEq, Eq, Error)]
pub enum LinError {
    /// The exact result is beyond the limits of a term.
    #[error("a term is too wide")]
    Wide,
    #[error("out of memory")]
    Memory,
}

impl From<AllocError> for LinError {
    ghost from_gives = { λ _ e. e ≡ Memory };

    fn from(_error: AllocError) -> LinError {
        LinError::Memory
    }
}

impl<T: Drop> From<AllocFailed<T>> for LinError {
    ghost from_gives = { λ _ e. e ≡ Memory };

    fn from(_error: AllocFailed<T>) -> LinError {
        LinError::Memory
    }
}
