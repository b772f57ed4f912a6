//! The words of the command line: which are a command, and which command they are.
#![tactic(auto)]

pub mod words;

pub use words::{Command, command_from, one_command};
