//! Bundles that are made of boards: the claims and moves of an assertion that is proved.
#![tactic(auto)]

mod bundling;
mod claiming;
mod kept;
mod killing;
mod leads;
mod listing;
mod making;
mod moving;
mod ranges;

pub use bundling::bundle_of;
