//! What can go wrong.

use std::alloc::AllocError;
use thiserror::Error;

/// No memory was left.
pub type OutOfMemory = AllocError;

/// A call of a source or a sink failed.
#[derive(Debug, Clone, Copy, PartialEq, Eq, Error)]
#[error("a source or a sink failed")]
pub struct Failed;
