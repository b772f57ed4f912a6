//! The elimination of columns from linear rows over the integers, and the plan of a solver that
//! stands on it.
#![tactic(auto)]

mod column;
mod division;
pub mod eliminate;
pub mod elimination;
pub mod laws;
pub mod limit;
mod lists;
mod pairing;
pub mod projection;
mod reduction;
pub mod row;
pub mod shadow;
pub mod sizes;
mod skipping;
pub mod sum;
