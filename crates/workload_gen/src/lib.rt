//! The text of the workload program.
#![tactic(auto)]

mod text;

use std::alloc::AllocError;
pub use text::{MAX_BYTES, MAX_NUMBER, program_of};

/// The only way in which `program_of` fails.
pub type OutOfMemory = AllocError;
