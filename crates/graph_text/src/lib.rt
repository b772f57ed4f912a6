//! Graphs as a text, for engines outside that look for proofs.
#![tactic(auto)]

mod edge;
mod row;
pub mod text;

pub use text::print_graphs;
