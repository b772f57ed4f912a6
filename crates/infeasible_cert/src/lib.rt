//! Certificates that no assignment of 64-bit values meets a cube, and their check.
#![tactic(auto)]

pub mod certificate;
pub mod check;
mod columns;
mod renumber;
mod rows;
mod step;
mod walk;

pub use check::{refutes, right_is_sound};
