//! The board of BOLT (PLDI 2012): queries, summaries and budgets, as a machine of events.
#![tactic(auto)]

pub mod board;
pub mod closing;
pub mod event;
pub mod giving;
pub mod history;
pub mod job;
pub mod laws;
pub mod publishing;
pub mod slot;
pub mod taking;
pub mod verdict;
pub mod views;
