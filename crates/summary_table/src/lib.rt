//! What is known of procedures' runs, in the order in which it was found, and which of it answers
//! a query.
#![tactic(auto)]

pub mod answer;
mod asking;
pub mod keys;
pub mod table;

pub use answer::{Answer, AnswerProof};
pub use keys::{MAX_ASSERTIONS, MAX_PROCEDURES};
pub use table::Table;
