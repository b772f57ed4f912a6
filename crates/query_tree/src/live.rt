//! How many queries are live, in all and among the children of each.
ghost use Rattle.std.specs.Prelude.{◌≡◌, ℕ, ◌<◌, ◌≤◌, length, [], IfOk, Some, slice_get, nat_lt, false};
ghost use Rattle.query_tree.specs.Live.{MayMove, MaySettle, moved, settled, grown};

use crate::OutOfMemory;
use std::alloc::Global;
use std::marker::Model;

/// The number of live queries, and for each query the number of its live children.
#[derive(Drop)]
pub struct LiveCounts {
    all: u32,
    under: Vec<u32>,
    room: usize,
}

impl Model for LiveCounts {
    ghost use Rattle.std.specs.Prelude.{◌≤◌, vec_capacity};
    ghost use Rattle.query_tree.specs.Live.{Counted};

    ghost Value = { Counted };

    ghost view = { λ c. record { all = c.all; under = c.under.items; room = c.room } };

    ghost invariant = { λ c. c.room ≤ vec_capacity c.under };
}

impl LiveCounts {
    /// Counts of at most this many queries, of which there are none yet.
    pub fn with_room(alloc: Global, room: u32) -> Result<LiveCounts, OutOfMemory>
        ensures { IfOk result (λ c. (c.room ≡ room) × (c.all ≡ 0) × (c.under ≡ [])) }
    {
        Ok(LiveCounts {
            all: 0,
            under: Vec::with_capacity(alloc, room as usize)?,
            room: room as usize,
        })
    }

    /// A new query with this parent, live or not.
    pub fn add(&mut self, parent: Option<u32>, now: bool)
        requires room { length self.old.under < self.old.room }
        requires may { MaySettle (grown self.old) parent false now }
        ensures { self.new ≡ settled (grown self.old) parent false now }
    {
        self.under.push_reserved(0);
        self.settle(parent, false, now);
    }

    /// A query with this parent was live or not, and now is or not.
    pub fn settle(&mut self, parent: Option<u32>, was: bool, now: bool)
        requires { MaySettle self.old parent was now }
        ensures { self.new ≡ settled self.old parent was now }
    {
        self.all = moved(self.all, was, now);
        if let Some(p) = parent {
            self.under[p as usize] = moved(self.under[p as usize], was, now);
        }
    }

    /// Whether some query is live.
    pub fn has_any(&self) -> bool
        ensures { result ≡ nat_lt 0 self.now.all }
    {
        self.all > 0
    }

    /// Whether some child of the query is live.
    pub fn has_child(&self, id: u32) -> bool
        requires { id < length self.now.under }
        ensures { (n : ℕ) → slice_get self.now.under id ≡ Some n → result ≡ nat_lt 0 n }
    {
        self.under[id as usize] > 0
    }
}

/// A count, of which one was or not, and now is or not.
fn moved(count: u32, was: bool, now: bool) -> u32
    requires { MayMove was now count }
    ensures { result ≡ moved was now count }
{
    count - u32::from(was) + u32::from(now)
}
