//! Tests of the check of bundles, and nothing else.
#![tactic(auto)]

#[cfg(test)]
mod bundles;
#[cfg(test)]
mod sources;
#[cfg(test)]
mod texts;
