//! Seats.

use crate::chronicle::Chronicle;
use crate::view::View;
use std::marker::Model;

/// A seat of a lock: a token of no bytes, and a caller's own. One that is dropped while it holds
/// leaves the lock taken.
#[derive(Drop)]
pub struct Seat<B: Chronicle> {
    pub(crate) token: atomic_table::Seat<Option<B>, View<B::Program, B::Event>>,
}

impl<B: Chronicle> Model for Seat<B> {
    ghost use Rattle.board_lock.specs.Seats.{Seated, IsSeated};

    ghost Value = { Seated B.Program B.Event };

    ghost view = { λ seat. record { lock = seat.token.table_id; view = seat.token.me.0 } };

    ghost invariant = { λ seat. IsSeated seat.token.me };
}
