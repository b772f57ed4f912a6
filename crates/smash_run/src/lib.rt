//! The commands of `smash`, over any words, source and sink.
#![tactic(auto)]

mod analysis;
mod bundles;
mod edits;
pub mod laws;
mod rechecks;
mod replies;
mod reply;
pub mod run;
mod statuses;
mod sweeps;
