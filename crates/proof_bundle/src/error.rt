//! Why a text isn't read.

ghost use Rattle.std.specs.Prelude.{◌≡◌};
ghost use Rattle.proof_bundle.specs.declared.error.BundleError.TheVariants.{Memory};

use std::alloc::{AllocError, AllocFailed};
use thiserror::Error;

/// Why a text isn't read.
#[derive(Clone, Copy, Debug, PartialEq, Eq, Error)]
pub enum BundleError {
    /// The bytes are the text of no bundle.
    #[error("not a bundle")]
    NotBundle,
    #[error("out of memory")]
    Memory,
}

impl From<AllocError> for BundleError {
    ghost from_gives = { λ _ e. e ≡ Memory };

    fn from(_error: AllocError) -> BundleError {
        BundleError::Memory
    }
}

impl<T: Drop> From<AllocFailed<T>> for BundleError {
    ghost from_gives = { λ _ e. e ≡ Memory };

    fn from(_error: AllocFailed<T>) -> BundleError {
        BundleError::Memory
    }
}
