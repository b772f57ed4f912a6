//! Terms, cubes, queries and graphs of plain rows, for the crates of tests.
#![tactic(auto)]

pub mod bounds;
pub mod edges;
pub mod error;
pub mod graphs;
pub mod kept;
pub mod paths;
pub mod queries;
pub mod rows;
