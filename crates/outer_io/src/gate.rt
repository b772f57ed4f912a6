//! What a test sees of workers.

/// Is passed before each call that a worker makes, and after it. `call` is the worker's own number
/// of the call, the first is 1.
pub trait Gate: Sync {
    fn pass(&self, worker: u32, call: u64, after: bool);
}

/// Does nothing.
pub struct NoGate;

impl Gate for NoGate {
    fn pass(&self, _worker: u32, _call: u64, _after: bool) {}
}
