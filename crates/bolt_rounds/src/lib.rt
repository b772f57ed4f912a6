//! Workers that work at a board in turns.
#![tactic(auto)]

pub mod alone;
mod apart;
mod crew;
pub mod moves;
pub mod rounds;
