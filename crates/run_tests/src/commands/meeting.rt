//! Gates: one at which workers meet, and one that counts them.

use outer_io::Gate;
use std::sync::atomic::{AtomicU64, Ordering};
use std::thread;

/// How often a worker looks for the other one at most.
const TURNS: u32 = 10_000_000;

/// Holds each worker after its first call, a take, until the other one is there too. `met` counts
/// those that saw the other.
#[derive(Drop)]
pub struct Meeting {
    begun: AtomicU64,
    met: AtomicU64,
}

impl Meeting {
    pub fn new() -> Meeting {
        Meeting {
            begun: AtomicU64::new(0),
            met: AtomicU64::new(0),
        }
    }

    /// How many workers saw the other one.
    pub fn met(&self) -> u64 {
        self.met.load(Ordering::SeqCst)
    }

    fn wait(&self) {
        self.begun.fetch_add(1, Ordering::SeqCst);
        for _ in 0..TURNS {
            if self.begun.load(Ordering::SeqCst) >= 2 {
                self.met.fetch_add(1, Ordering::SeqCst);
                return;
            }
            thread::yield_now();
        }
    }
}

impl Gate for Meeting {
    fn pass(&self, _worker: u32, call: u64, after: bool) {
        if call == 1 && after {
            self.wait();
        }
    }
}

/// Counts how often it is passed.
#[derive(Drop)]
pub struct Counting {
    passed: AtomicU64,
}

impl Counting {
    pub fn new() -> Counting {
        Counting {
            passed: AtomicU64::new(0),
        }
    }

    pub fn passed(&self) -> u64 {
        self.passed.load(Ordering::SeqCst)
    }
}

impl Gate for Counting {
    fn pass(&self, _worker: u32, _call: u64, _after: bool) {
        self.passed.fetch_add(1, Ordering::SeqCst);
    }
}
