//! The feasible paths of a program in order, counted one by one.
#![tactic(auto)]

mod frames;
pub mod laws;
mod links;
mod step;
mod sweeping;
pub mod swept;
mod terms;
mod walk;

pub use sweeping::sweep;
pub use swept::{SweepEnd, Swept};
