//! Tests of the solver's crates, and nothing else.
#![tactic(auto)]

#[cfg(test)]
mod certificates;
#[cfg(test)]
mod eliminations;
#[cfg(test)]
mod extremes;
#[cfg(test)]
mod linear;
#[cfg(test)]
mod reading;
#[cfg(test)]
mod rows;
#[cfg(test)]
mod shared;
#[cfg(test)]
mod sizes;
#[cfg(test)]
mod solving;
