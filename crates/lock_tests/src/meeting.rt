//! Where threads wait for each other, for a bounded number of turns.

use std::sync::atomic::{AtomicU64, Ordering};
use std::thread;

/// How often a thread looks for the others at most.
const TURNS: u32 = 10_000_000;

#[derive(Drop)]
pub struct Meeting {
    pub wanted: u64,
    pub begun: AtomicU64,
    pub met: AtomicU64,
}

impl Meeting {
    pub fn of(wanted: u64) -> Meeting {
        Meeting {
            wanted,
            begun: AtomicU64::new(0),
            met: AtomicU64::new(0),
        }
    }

    /// Says that this thread has begun, and looks until `wanted` have. Counts it as met where it
    /// saw them.
    pub fn wait(&self) {
        self.begun.fetch_add(1, Ordering::SeqCst);
        for _ in 0..TURNS {
            if self.begun.load(Ordering::SeqCst) >= self.wanted {
                self.met.fetch_add(1, Ordering::SeqCst);
                return;
            }
            thread::yield_now();
        }
    }
}
