//! From the bytes of a source to its program, and how a program ends that answers to one source.
#![tactic(auto)]

mod accepting;
mod ending;

pub use accepting::{Rejection, accept};
pub use ending::{SOURCE_LIMIT, tell};
