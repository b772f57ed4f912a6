//! A certifying solver for cubes over 64-bit integers, by the elimination of columns and splits.
#![tactic(auto)]

mod bounds;
mod branch;
mod columns;
mod columnwise;
mod derivation;
mod division;
mod eliminate;
pub mod entails;
mod gather;
mod implied;
mod merge;
mod narrow;
mod one_column;
mod pairing;
mod places;
mod search;
mod slight;
pub mod solve;
pub mod solved;
mod table;
mod two_columns;

pub use solve::solve_rows;
