//! What a worker has of its own.

use board_lock::Seat;
use bolt_core::board::Board;
use crossbeam_utils::sync::{Parker, Unparker};
use flow_graph::graphs::Graphs;
use std::sync::Arc;
use summary_table::table::Table;

/// `calls` counts the worker's calls of the board, and `events` is how many events the board had
/// when the worker held it last. `known` is its own copy of the board's table, as it was then.
#[derive(Drop)]
pub(crate) struct Desk {
    pub worker: u32,
    pub calls: u64,
    pub events: u64,
    pub seat: Seat<Board>,
    pub graphs: Arc<Graphs>,
    pub known: Table,
    pub parker: Parker,
}

/// Wakes all workers.
pub(crate) fn wake(all: &[Unparker]) {
    for unparker in all {
        unparker.unpark();
    }
}
