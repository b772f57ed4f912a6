//! Frames of an execution by terms, and the edges that were taken from them.

use c_tree::tree::{AssertId, ProcId};
use summary_form::path::Terms;

/// Where a frame stands.
#[derive(Clone, Copy, Debug)]
pub enum Place {
    /// Before edge 0 of its graph.
    Entering,
    /// At a node of its graph.
    At(u32),
    /// After the return of the first frame; the slots are the returned terms.
    Returned,
    /// At an assertion that fails.
    Failed(AssertId),
}

/// A frame: the terms of its slots and of its entry values, and the level whose edge called it.
#[derive(Drop)]
pub struct Frame {
    pub proc: ProcId,
    pub place: Place,
    pub slots: Terms,
    pub entry: Terms,
    pub caller: Option<usize>,
}

/// An edge of the running path: the frame that it left, and how many rows of the guard, inputs and
/// symbols there were before it.
#[derive(Drop)]
pub struct Level {
    pub frame: Frame,
    pub edge: usize,
    pub rows: usize,
    pub read: usize,
    pub symbols: u32,
}
