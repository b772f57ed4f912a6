//! Tests of the lock, over a list of numbers.
#![tactic(auto)]

#[cfg(test)]
mod log;
#[cfg(test)]
mod meeting;
#[cfg(test)]
mod seats;
#[cfg(test)]
mod threads;
