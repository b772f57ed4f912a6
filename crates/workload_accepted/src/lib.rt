//! The law that the text of each workload is a source that is accepted.
#![tactic(auto)]

pub mod laws;
