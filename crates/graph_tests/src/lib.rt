//! Laws that see programs and their graphs together, and the tests of graphs, summaries and
//! preimages.
#![tactic(auto)]

#[cfg(test)]
mod build_tests;
#[cfg(test)]
mod call_tests;
#[cfg(test)]
mod copy_tests;
#[cfg(test)]
mod globals;
pub mod laws;
#[cfg(test)]
mod loop_tests;
#[cfg(test)]
mod preimage_tests;
#[cfg(test)]
mod programs;
#[cfg(test)]
mod quotients;
#[cfg(test)]
mod sample_tests;
#[cfg(test)]
mod sources;
#[cfg(test)]
mod walk_tests;
