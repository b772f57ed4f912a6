//! The texts that the program writes: reports, replays, refusals, bundles, sweeps, edits, and the
//! usage.
#![tactic(auto)]

mod bundles;
mod edits;
pub mod fault;
mod refusals;
mod replays;
mod reports;
pub mod sweeps;
mod usages;
mod verdicts;

pub use bundles::{accepted, long_bundle, long_proof, no_assertion, no_bundle, rejected};
pub use edits::{kept, old_refusal, short_source};
pub use refusals::refusal;
pub use replays::replayed;
pub use reports::{report, verdict_line};
use std::alloc::AllocError;
pub use sweeps::{Unfound, is_any_found, is_any_unfound, swept};
pub use usages::usage;
pub use verdicts::{is_found, is_unknown};

/// There is no memory for a text.
pub type OutOfMemory = AllocError;
