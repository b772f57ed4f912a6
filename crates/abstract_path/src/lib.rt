//! Shortest paths between regions.
#![tactic(auto)]

pub mod frontier;
pub mod laws;
mod network;
mod search;
