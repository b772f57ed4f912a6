//! Workers that share a board under a lock, without rounds.
#![tactic(auto)]

mod crew;
mod desk;
pub mod laws;
pub mod work;
mod worker;
