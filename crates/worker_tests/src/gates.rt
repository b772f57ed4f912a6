//! Gates at which tests look on.

use outer_io::Gate;
use std::alloc::{AllocError, Global};
use std::sync::atomic::{AtomicU64, Ordering};
use std::thread;

/// How often a worker looks for the others at most.
pub const TURNS: u32 = 10_000_000;

/// A place where `wanted` workers wait for each other, for a bounded number of turns. `met` counts
/// those that saw the others.
#[derive(Drop)]
pub struct Meeting {
    pub wanted: u64,
    pub begun: AtomicU64,
    pub met: AtomicU64,
}

impl Meeting {
    pub fn of(wanted: u64) -> Meeting {
        Meeting {
            wanted,
            begun: AtomicU64::new(0),
            met: AtomicU64::new(0),
        }
    }

    fn wait(&self) {
        self.begun.fetch_add(1, Ordering::SeqCst);
        for _ in 0..TURNS {
            if self.begun.load(Ordering::SeqCst) >= self.wanted {
                self.met.fetch_add(1, Ordering::SeqCst);
                return;
            }
            thread::yield_now();
        }
    }
}

/// Holds each worker after its first take, before it gives its job back, and after that, until
/// the others are there too. Where a pass was made while its worker holds the board, the others
/// would not come.
#[derive(Drop)]
pub struct Meetings {
    pub taken: Meeting,
    pub sliced: Meeting,
    pub given: Meeting,
}

impl Meetings {
    pub fn of(wanted: u64) -> Meetings {
        Meetings {
            taken: Meeting::of(wanted),
            sliced: Meeting::of(wanted),
            given: Meeting::of(wanted),
        }
    }

    /// How many workers saw the others, at each of the three.
    pub fn met(&self) -> [u64; 3] {
        [
            self.taken.met.load(Ordering::SeqCst),
            self.sliced.met.load(Ordering::SeqCst),
            self.given.met.load(Ordering::SeqCst),
        ]
    }
}

impl Gate for Meetings {
    fn pass(&self, _worker: u32, call: u64, after: bool) {
        match (call, after) {
            (1, true) => self.taken.wait(),
            (2, false) => self.sliced.wait(),
            (2, true) => self.given.wait(),
            _ => {}
        }
    }
}

/// Looks whether each worker's passes come in pairs, one before and one after each call, and are
/// numbered from 1 without a gap.
#[derive(Drop)]
pub struct Pairs {
    /// Of each worker, twice the calls that it has made, and one more within a call.
    pub passes: Vec<AtomicU64>,
    pub faults: AtomicU64,
}

impl Pairs {
    pub fn of(alloc: Global, workers: u32) -> Result<Pairs, AllocError> {
        let mut passes = Vec::new(alloc);
        for _ in 0..workers {
            passes.push(AtomicU64::new(0))?;
        }
        Ok(Pairs {
            passes,
            faults: AtomicU64::new(0),
        })
    }

    /// Whether each worker has made a call, each call has both passes, and no pass was wrong.
    pub fn are_whole(&self) -> bool {
        self.faults.load(Ordering::SeqCst) == 0
            && self.passes.iter().all(|seen| {
                let passes = seen.load(Ordering::SeqCst);
                passes > 0 && passes % 2 == 0
            })
    }
}

impl Gate for Pairs {
    fn pass(&self, worker: u32, call: u64, after: bool) {
        let place = call.wrapping_mul(2).wrapping_sub(if after { 1 } else { 2 });
        let is_next = match self.passes.get(worker as usize) {
            Some(seen) => seen.fetch_add(1, Ordering::SeqCst) == place,
            None => false,
        };
        if !is_next {
            self.faults.fetch_add(1, Ordering::SeqCst);
        }
    }
}
