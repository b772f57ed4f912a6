//! A lock that keeps one history: each seat knows a beginning of it, and which events are its own.
#![tactic(auto)]

mod chronicle;
mod kinds;
mod lock;
mod seat;
mod shares;
mod view;

pub use chronicle::Chronicle;
pub use lock::{BoardLock, OutOfMemory};
pub use seat::Seat;
pub use shares::lock_is_shared;
pub use view::View;
