//! A list of numbers with a name that never changes.

ghost use Rattle.std.specs.Prelude.{◌≡◌, ◌+◌, ◌<◌, ◌^◌, [], ◌∷◌, ◌++◌, cond, false, map, Some};
ghost use Rattle.board_lock.specs.Views.{places_from};
ghost use Rattle.lock_tests.specs.Calls.{own_events};

use board_lock::{BoardLock, Chronicle, Seat};
use std::sync::Wait;

#[derive(Drop)]
pub struct Log {
    pub name: u64,
    pub numbers: Vec<u64>,
}

impl Chronicle for Log {
    type Program = u64;

    type Event = u64;

    ghost program = { λ log. log.name };

    ghost events = { λ log. log.numbers.items };

    fn count(&self) -> u64 {
        self.numbers.len() as u64
    }
}

impl Log {
    /// Adds a number at the end, and says whether there was memory for it.
    pub fn append(&mut self, number: u64) -> bool
        ensures name { self.new.name ≡ self.old.name }
        ensures numbers { self.new.numbers.items ≡ self.old.numbers.items
            ++ cond result (number ∷ []) [] }
    {
        self.numbers.push(number).is_ok()
    }
}

/// Adds a number in a turn of its own, and says whether there was memory for it.
pub fn append_once<R: Wait>(
    rt: &R,
    lock: &BoardLock<Log>,
    seat: &mut Seat<Log>,
    number: u64,
) -> bool
    requires lock { seat.old.lock ≡ lock.now }
    requires rests { seat.old.view.turn ≡ false }
    ensures lock { seat.new.lock ≡ seat.old.lock }
    ensures rests { seat.new.view.turn ≡ false }
    ensures own { own_events seat.new.view ≡ own_events seat.old.view
        ++ map Some (cond result (number ∷ []) []) }
{
    let mut log = lock.hold(rt, seat);
    let added = log.append(number);
    lock.free(seat, log);
    added
}

/// Adds `first` and the numbers after it, each in a turn of its own, and says how many there was
/// memory for.
pub fn append_many<R: Wait>(
    rt: &R,
    lock: &BoardLock<Log>,
    seat: &mut Seat<Log>,
    first: u64,
    many: u64,
) -> u64
    requires lock { seat.old.lock ≡ lock.now }
    requires rests { seat.old.view.turn ≡ false }
    requires small { first + many < 2 ^ 64 }
    ensures lock { seat.new.lock ≡ seat.old.lock }
    ensures rests { seat.new.view.turn ≡ false }
    ensures own { own_events seat.new.view ≡ own_events seat.old.view
        ++ map Some (places_from first result) }
{
    for i in 0..many {
        if !append_once(rt, lock, seat, first + i) {
            return i;
        }
    }
    many
}
