//! The lock and its seats.

ghost use Rattle.std.specs.Prelude.{◌≡◌, [], ◌++◌, IfOk, Some, true, false};
ghost use Rattle.board_lock.specs.Views.{StartsWith, StartsWithAll, AreOwn, added, holding, joined, newcomer, resting};

use crate::chronicle::Chronicle;
use crate::kinds::{Counted, JoinedWith, Released, SplitOff, Tried};
use crate::seat::Seat;
use crate::view::{Ruled, View};
use atomic_table::Table;
use std::alloc::{AllocError, Global};
use std::marker::Model;
use std::snapshot::Snapshot;
use std::sync::Wait;
use std::thread;

pub type OutOfMemory = AllocError;

/// Word 0 of a lock's table: the count of the history.
const COUNT: usize = 0;

/// Word 1: 0 where the lock is free, and 1 where it is held.
const LOCK: usize = 1;

/// The slot of the board.
const BOARD: usize = 0;

/// A lock round one board.
#[derive(Drop)]
pub struct BoardLock<B: Chronicle> {
    table: Table<Option<B>, View<B::Program, B::Event>, Snapshot<B>, Ruled, Global>,
}

impl<B: Chronicle> Model for BoardLock<B> {
    ghost use Rattle.std.specs.Prelude.{◌≡◌};
    ghost use Rattle.atomic_table.specs.Seated.{TableId, table_id_coded};

    ghost Value = { TableId };

    ghost coded = { table_id_coded };

    ghost view = { λ lock. lock.table.shared.table_id };

    ghost invariant = { λ lock. (lock.table.shared.table_id.words ≡ 2)
        × (lock.table.shared.table_id.slots ≡ 1) };
}

impl<B: Chronicle + Drop> BoardLock<B> {
    /// A free lock, and a seat that has seen the board's history and has no events of its own.
    /// Without memory the board is dropped.
    pub fn new(alloc: Global, board: B) -> Result<(BoardLock<B>, Seat<B>), OutOfMemory>
        ensures lock { IfOk result (λ made. made.1.lock ≡ made.0) }
        ensures rests { IfOk result
            (λ made. made.1.view ≡ resting (Some (B.program board)) (B.events board) [] []) }
    {
        let opened = Snapshot::of(&board);
        let count = board.count();
        let mut slots = Vec::with_capacity(alloc, 1)?;
        slots.push_reserved(Some(board));
        match Table::new(alloc, &[count, 0], slots, &opened) {
            Ok((table, token)) => Ok((BoardLock { table }, Seat { token })),
            Err(_) => Err(AllocError),
        }
    }

    /// A further seat, which has seen what this one has seen and has no events of its own.
    pub fn split(&self, seat: &mut Seat<B>) -> Seat<B>
        requires lock { seat.old.lock ≡ self.now }
        requires rests { seat.old.view.turn ≡ false }
        ensures lock { result.lock ≡ self.now }
        ensures same { seat.new ≡ seat.old }
        ensures newcomer { result.view ≡ newcomer seat.old.view }
    {
        let token = self.table.shared.split_seat::<SplitOff>(&mut seat.token);
        Seat { token }
    }

    /// The seat then has seen what either had seen, and the events of both are its own.
    pub fn join(&self, seat: &mut Seat<B>, other: Seat<B>)
        requires lock { seat.old.lock ≡ self.now }
        requires other_lock { other.lock ≡ self.now }
        requires rests { seat.old.view.turn ≡ false }
        requires other_rests { other.view.turn ≡ false }
        ensures lock { seat.new.lock ≡ seat.old.lock }
        ensures joined { seat.new.view ≡ joined seat.old.view other.view }
    {
        let Seat { token } = other;
        self.table
            .shared
            .join_seat::<JoinedWith>(&mut seat.token, token);
    }

    /// Waits for the turn, and gives the board.
    pub fn hold<R: Wait>(&self, rt: &R, seat: &mut Seat<B>) -> B
        requires lock { seat.old.lock ≡ self.now }
        requires rests { seat.old.view.turn ≡ false }
        ensures lock { seat.new.lock ≡ seat.old.lock }
        ensures holds { seat.new.view ≡ holding (Some (B.program result)) (B.events result)
            seat.old.view.places }
        ensures program { seat.old.view.program ≡ Some (B.program result) }
        ensures begins { StartsWith (B.events result) seat.old.view.seen }
        ensures heard { StartsWithAll (B.events result) seat.old.view.heard }
        ensures own { AreOwn seat.old.view.seen seat.old.view.places }
    {
        for _ in rt.forever() {
            let found = self
                .table
                .shared
                .compare_exchange::<Tried>(&mut seat.token, LOCK, 0, 1);
            if found == 0 {
                let Some(board) = self.table.shared.exchange(&mut seat.token, BOARD, None) else {
                    unreachable!()
                };
                return board;
            }
            thread::yield_now();
        }
        unreachable!()
    }

    /// Gives the board back. The events that were added to the held history are the seat's own from
    /// then on.
    pub fn free(&self, seat: &mut Seat<B>, board: B)
        requires lock { seat.old.lock ≡ self.now }
        requires holds { seat.old.view.turn ≡ true }
        requires program { seat.old.view.program ≡ Some (B.program board) }
        requires begins { StartsWith (B.events board) seat.old.view.seen }
        ensures lock { seat.new.lock ≡ seat.old.lock }
        ensures rests { seat.new.view
            ≡ resting (Some (B.program board)) (B.events board) []
            (seat.old.view.places ++ added seat.old.view.seen (B.events board)) }
    {
        let count = board.count();
        // A store announces no value: what it says is read from the board in the slot.
        let _nothing = self
            .table
            .shared
            .exchange(&mut seat.token, BOARD, Some(board));
        self.table
            .shared
            .store::<Counted>(&mut seat.token, COUNT, count);
        self.table
            .shared
            .store::<Released>(&mut seat.token, LOCK, 0);
    }

    /// Waits for the turn, gives the board as `hold` does, and ends the lock. Other seats are of no
    /// use then.
    pub fn finish<R: Wait>(self, rt: &R, mut seat: Seat<B>) -> B
        requires lock { seat.lock ≡ self }
        requires rests { seat.view.turn ≡ false }
        ensures program { seat.view.program ≡ Some (B.program result) }
        ensures begins { StartsWith (B.events result) seat.view.seen }
        ensures heard { StartsWithAll (B.events result) seat.view.heard }
        ensures own { AreOwn seat.view.seen seat.view.places }
    {
        self.hold(rt, &mut seat)
    }
}
