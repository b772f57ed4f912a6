//! Which summaries of a program hold of an edited one.
#![tactic(auto)]

mod assertions;
pub mod keep;
pub mod laws;
pub mod matching;
pub mod numbers;
mod procedures;
mod same;
