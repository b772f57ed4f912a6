//! Tests of the sweep over the paths of a program, and nothing else.
#![tactic(auto)]

#[cfg(test)]
mod graphs;
#[cfg(test)]
mod sources;
#[cfg(test)]
mod sums;
#[cfg(test)]
mod swept;
