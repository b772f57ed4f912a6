//! From programs to control-flow graphs with the same runs.
#![tactic(auto)]

mod branch;
pub mod build;
mod builder;
mod constant;
mod division;
mod expression;
mod landing;
pub mod laws;
mod layout;
mod linear;
pub mod operand;
mod statement;
pub mod target;
