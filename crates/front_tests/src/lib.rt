//! Tests of the front end: of the lexer, the parser, the typing and the replay of runs.
//!
//! They stand in a crate of their own, since a crate with tests is proved twice.
#![tactic(auto)]

#[cfg(test)]
mod lexer;
#[cfg(test)]
mod parser;
#[cfg(test)]
mod replays;
#[cfg(test)]
mod sources;
#[cfg(test)]
mod typing;
