//! Programs of sources, for the crates of tests.
#![tactic(auto)]

pub mod program;
