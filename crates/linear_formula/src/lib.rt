//! Linear terms over columns, and formulas of them, in exact arithmetic.
#![tactic(auto)]

pub mod assignment;
mod column;
pub mod error;
mod exact_sum;
pub mod extremes;
pub mod formula;
pub mod joined;
pub mod laws;
mod merge;
pub mod question;
pub mod reading;
mod renaming;
pub mod shared;
mod sums;
pub mod term;

pub use reading::{column_term, summands};
