//! The kinds of step on a word, and what a seat learns of each. The board goes out of the slot and
//! back by plain exchanges, which tell nothing.

use crate::chronicle::Chronicle;
use crate::view::View;
use atomic_table::{Join, Play, Split};

/// The lock word was tried: 0 becomes 1, and the slot is taken.
pub(crate) struct Tried;

impl<B: Chronicle> Play<Option<B>, View<B::Program, B::Event>> for Tried {
    ghost use Rattle.board_lock.specs.Kinds.{HasTried};

    ghost then = { HasTried B.program B.events };
}

/// The count of the history in hand was stored.
pub(crate) struct Counted;

impl<B: Chronicle> Play<Option<B>, View<B::Program, B::Event>> for Counted {
    ghost use Rattle.board_lock.specs.Kinds.{HasCounted};

    ghost then = { HasCounted B.events };
}

/// The lock word was released: it becomes 0, and the slot is given back.
pub(crate) struct Released;

impl<B: Chronicle> Play<Option<B>, View<B::Program, B::Event>> for Released {
    ghost use Rattle.board_lock.specs.Kinds.{HasReleased};

    ghost then = { HasReleased };
}

/// A further seat was split off.
pub(crate) struct SplitOff;

impl<P, E> Split<View<P, E>> for SplitOff {
    ghost use Rattle.board_lock.specs.Views.{newcomer};

    ghost left = { λ v. v };

    ghost right = { newcomer };
}

/// Another seat was joined with this one, and is spent.
pub(crate) struct JoinedWith;

impl<P, E> Join<View<P, E>> for JoinedWith {
    ghost use Rattle.board_lock.specs.Views.{joined, spent};

    ghost both = { joined };

    ghost spent = { spent };
}
