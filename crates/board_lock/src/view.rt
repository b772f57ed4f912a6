//! What a seat knows, and the rule that holds between any two steps.

use crate::chronicle::Chronicle;
use atomic_table::TableRule;
use std::collections::LinkedList;
use std::snapshot::Snapshot;

/// What a seat knows, for contracts alone: no value of it is made.
pub struct View<P, E> {
    /// The program of the lock, or none once the seat was spent by a `join`.
    pub program: Option<P>,
    /// Whether the seat holds the lock.
    pub turn: bool,
    /// The history that the seat has seen.
    pub seen: LinkedList<E>,
    /// What seats that were joined with it had seen, until it holds again.
    pub heard: LinkedList<LinkedList<E>>,
    /// Which places of the history are the seat's own.
    pub places: LinkedList<u64>,
}

/// The rule of a lock. The key is a snapshot of the board with which it was opened; the first seat
/// has seen its history.
pub(crate) struct Ruled;

impl<B: Chronicle> TableRule<Option<B>, View<B::Program, B::Event>, Snapshot<B>> for Ruled {
    ghost use Rattle.std.specs.Prelude.{[], Some};
    ghost use Rattle.board_lock.specs.Views.{resting};
    ghost use Rattle.board_lock.specs.Rule.{Rule};

    ghost holds = { λ _. Rule B.program B.events };

    ghost first = { λ key. resting (Some (B.program key.value)) (B.events key.value) [] [] };
}
