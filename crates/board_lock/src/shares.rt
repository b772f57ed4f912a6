//! A lock can be shared between threads, and a seat can be sent to one.

use crate::chronicle::Chronicle;
use crate::lock::BoardLock;
use crate::seat::Seat;

fn can_be_shared<T: Sync>(_value: &T) {}

fn can_be_sent<T: Send>(_value: &T) {}

/// `BoardLock<B>` is `Sync` and `Seat<B>` is `Send` where `B` is `Send`: the body is refused
/// otherwise. It does nothing.
pub fn lock_is_shared<B: Chronicle + Drop + Send>(lock: &BoardLock<B>, seat: &Seat<B>) {
    can_be_shared(lock);
    can_be_sent(seat);
}
