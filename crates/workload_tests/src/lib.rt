//! Tests of the workload program: its text, that the front end accepts it, and on which inputs it
//! fails.
//!
//! They stand in a crate of their own, since a crate with tests is proved twice.
#![tactic(auto)]

#[cfg(test)]
mod programs;
#[cfg(test)]
mod texts;
