//! The tests of graphs as a text.
#![tactic(auto)]

#[cfg(test)]
mod reading;
#[cfg(test)]
mod text_tests;
