//! The check of proof bundles: which claims are right, and what a right proof says of a program.
#![tactic(auto)]

mod answered;
pub mod asked;
pub mod check;
mod claim;
mod columns;
mod killed;
pub mod laws;
mod moves;
mod paths;
mod place;
mod splits;

pub use asked::asked_over;
pub use check::{Checked, check_bundle};
