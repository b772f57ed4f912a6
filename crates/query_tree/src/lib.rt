//! Queries with payloads, in a forest: budgets, statuses and wakings.
#![tactic(auto)]

mod children;
mod edits;
mod forest;
mod live;
mod ready;

pub use forest::Forest;
use std::alloc::AllocError;

/// A query's number: queries are numbered from 0 in the order in which `add_root` and `ask` add
/// them.
pub type QueryId = u32;

/// The only way in which `with_room` fails.
pub type OutOfMemory = AllocError;

/// What a query is doing.
#[derive(Clone, Copy, Debug, PartialEq, Eq)]
pub enum Status {
    /// May be taken.
    Ready,
    /// Was taken, and its payload is lent.
    Running,
    /// Waits until a child closes or becomes Starved.
    Blocked,
    /// Nothing is left of its budget.
    Starved,
    /// Was closed.
    Closed,
    /// A query above it was closed, with this stamp, while it was open.
    Dropped { stamp: u64 },
}

/// How a job is given back.
#[derive(Clone, Copy, Debug, PartialEq, Eq)]
pub enum Rest {
    Ready,
    Blocked,
    Starved,
}

/// A query of the forest. `root` is the first query above it, and `grant` is a root's budget, in
/// steps. `lent` and `waiting` are what the last take said; `stirred` says whether a child closed
/// or became Starved since.
#[derive(Drop)]
pub struct Entry<T> {
    pub parent: Option<u32>,
    pub root: u32,
    pub grant: u32,
    pub status: Status,
    pub left: u32,
    pub spent: u32,
    pub lent: u32,
    pub waiting: bool,
    pub stirred: bool,
    pub payload: Option<T>,
}

/// A query that is at work, with its payload. `left` counts the steps that it may make; `waiting`
/// says whether some child was open and not Starved at the take.
#[derive(Drop)]
pub struct Lent<T> {
    pub id: u32,
    pub left: u32,
    pub waiting: bool,
    pub payload: T,
}

/// A close dropped the query after it was taken. What was lent comes back.
#[derive(Drop)]
pub struct Gone<T> {
    pub stamp: u64,
    pub lent: Lent<T>,
}
