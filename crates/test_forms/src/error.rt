//! Why nothing is made of plain rows.

use linear_formula::error::LinError;
use std::alloc::{AllocError, AllocFailed};
use thiserror::Error;

#[derive(Clone, Copy, Debug, PartialEq, Eq, Error)]
pub enum FormError {
    /// A sum is beyond the limits of a term.
    #[error("a row is too wide")]
    Wide,
    /// The edges make no graph.
    #[error("no graph has these edges")]
    NoGraph,
    /// A graph calls what isn't there, or with another number of values.
    #[error("a call fits no graph")]
    NoSuchCall,
    /// A sum names more than the path's symbols.
    #[error("no path has these sums")]
    NoPath,
    #[error("out of memory")]
    Memory,
}

impl From<LinError> for FormError {
    fn from(error: LinError) -> FormError {
        match error {
            LinError::Wide => FormError::Wide,
            LinError::Memory => FormError::Memory,
        }
    }
}

impl From<AllocError> for FormError {
    fn from(_error: AllocError) -> FormError {
        FormError::Memory
    }
}

impl<T: Drop> From<AllocFailed<T>> for FormError {
    fn from(_error: AllocFailed<T>) -> FormError {
        FormError::Memory
    }
}
