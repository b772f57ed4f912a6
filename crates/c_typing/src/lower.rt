//! The second pass: the program of a tree without faults.

mod build;
mod expressions;
mod making;
pub mod program;
mod state;
mod statements;
mod variable;
