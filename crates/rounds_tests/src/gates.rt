//! Gates that hold workers, or note what they pass.

use outer_io::Gate;
use std::alloc::Global;
use std::fs::Files;
use std::sync::atomic::{AtomicBool, AtomicU64, Ordering};
use std::test::Fail;
use std::{fs, thread};

/// How often a worker looks for the others at most.
const TURNS: u32 = 10_000_000;

/// Holds each worker in the pass after its first call until `wanted` are there.
#[derive(Drop)]
pub struct Meeting {
    wanted: u64,
    begun: AtomicU64,
    met: AtomicU64,
}

impl Meeting {
    pub fn of(wanted: u64) -> Meeting {
        Meeting {
            wanted,
            begun: AtomicU64::new(0),
            met: AtomicU64::new(0),
        }
    }

    /// How many workers saw the others before their turns ended.
    pub fn met(&self) -> u64 {
        self.met.load(Ordering::SeqCst)
    }
}

impl Gate for Meeting {
    fn pass(&self, _worker: u32, call: u64, after: bool) {
        if call != 1 || !after {
            return;
        }
        self.begun.fetch_add(1, Ordering::SeqCst);
        for _ in 0..TURNS {
            if self.begun.load(Ordering::SeqCst) >= self.wanted {
                self.met.fetch_add(1, Ordering::SeqCst);
                return;
            }
            thread::yield_now();
        }
    }
}

/// A pass, and the thread that made it.
#[derive(Clone, Copy, PartialEq, Eq)]
pub struct Pass {
    pub worker: u64,
    pub call: u64,
    pub after: bool,
    pub thread: u64,
}

/// Where a pass is noted.
#[derive(Drop)]
struct Slot {
    worker: AtomicU64,
    call: AtomicU64,
    after: AtomicBool,
    thread: AtomicU64,
}

/// Notes the passes, as many as there are slots.
#[derive(Drop)]
pub struct Notes<R> {
    rt: R,
    next: AtomicU64,
    slots: Vec<Slot>,
}

/// The system's number of this thread, or 0 where it isn't known.
pub fn this_thread<R: Files + Alloc>(rt: &R) -> u64 {
    match fs::read_to_string(rt, "/proc/thread-self/stat") {
        Ok(text) => text
            .split(' ')
            .next()
            .and_then(|word| word.parse().ok())
            .unwrap_or(0),
        Err(_) => 0,
    }
}

impl<R: Files + Alloc + Drop> Notes<R> {
    pub fn with_slots(rt: R, alloc: Global, count: usize) -> Result<Notes<R>, Fail> {
        let mut slots = Vec::with_capacity(alloc, count)?;
        for _ in 0..count {
            slots.push(Slot {
                worker: AtomicU64::new(0),
                call: AtomicU64::new(0),
                after: AtomicBool::new(false),
                thread: AtomicU64::new(0),
            })?;
        }
        Ok(Notes {
            rt,
            next: AtomicU64::new(0),
            slots,
        })
    }

    /// The passes in the order in which they were made.
    pub fn passes(&self, alloc: Global) -> Result<Vec<Pass>, Fail> {
        let mut all = Vec::new(alloc);
        let count = self.next.load(Ordering::SeqCst);
        for slot in &self.slots {
            if (all.len() as u64) < count {
                all.push(Pass {
                    worker: slot.worker.load(Ordering::SeqCst),
                    call: slot.call.load(Ordering::SeqCst),
                    after: slot.after.load(Ordering::SeqCst),
                    thread: slot.thread.load(Ordering::SeqCst),
                })?;
            }
        }
        Ok(all)
    }
}

impl<R: Files + Alloc + Drop + Sync> Gate for Notes<R> {
    fn pass(&self, worker: u32, call: u64, after: bool) {
        let place = self.next.fetch_add(1, Ordering::SeqCst);
        let Some(slot) = self.slots.get(place as usize) else {
            return;
        };
        slot.worker.store(worker as u64, Ordering::SeqCst);
        slot.call.store(call, Ordering::SeqCst);
        slot.after.store(after, Ordering::SeqCst);
        slot.thread.store(this_thread(&self.rt), Ordering::SeqCst);
    }
}
