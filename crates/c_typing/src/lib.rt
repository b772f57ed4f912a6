//! From syntax trees to programs: scopes, types and limits. The first pass, `check`, finds the
//! faults of a tree; the second, `lower`, makes the program of a tree without faults.
#![tactic(auto)]

pub mod check;
pub mod fault;
mod globals;
mod lower;
mod scopes;
mod seed;
mod table;

pub use check::check_types;
