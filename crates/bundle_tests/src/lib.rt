//! Tests of the text of bundles, and nothing else.
#![tactic(auto)]

#[cfg(test)]
mod answers;
#[cfg(test)]
mod lines;
#[cfg(test)]
mod sizes;
