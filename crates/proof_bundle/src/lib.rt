//! Proofs of one assertion that a checker can read without an analysis, and their text.
#![tactic(auto)]

pub mod bundle;
mod certificate;
mod claim;
pub mod error;
pub mod laws;
mod moves;
mod number;
mod part;
mod row;
pub mod text;

pub use bundle::{Bundle, Claim, Move};
pub use error::BundleError;
pub use text::{print_bundle, read_bundle};
