//! Two threads under one lock.

ghost use Rattle.std.specs.Prelude.{◌≡◌, ◌≤◌, false};

use crate::log::{Log, append_many, append_once};
use crate::meeting::Meeting;
use board_lock::{BoardLock, Seat};
use std::sync::Wait;
use std::sync::atomic::Ordering;
use std::test::*;
use std::thread;
use std::thread::Threads;

/// How many numbers each thread adds.
const MANY: u64 = 1000;

/// The first number of the second thread; the first one's is 0.
const SECOND: u64 = 1_000_000;

/// Adds one number, meets the other thread, and adds the rest.
fn append_and_meet<R: Wait>(
    rt: &R,
    lock: &BoardLock<Log>,
    seat: &mut Seat<Log>,
    first: u64,
    meeting: &Meeting,
)
    requires lock { seat.old.lock ≡ lock.now }
    requires rests { seat.old.view.turn ≡ false }
    requires small { first ≤ 1_000_000 }
    ensures lock { seat.new.lock ≡ seat.old.lock }
    ensures rests { seat.new.view.turn ≡ false }
{
    append_once(rt, lock, seat, first);
    meeting.wait();
    append_many(rt, lock, seat, first + 1, MANY - 1);
}

/// Two threads append at once, each with a seat, and give the seats back.
fn append_in_two<R: Threads + Wait + Sync>(
    rt: &R,
    lock: &BoardLock<Log>,
    one: Seat<Log>,
    other: Seat<Log>,
    meeting: &Meeting,
) -> (Seat<Log>, Seat<Log>)
    requires lock { (one.lock ≡ lock.now)
        × (other.lock ≡ lock.now) }
    requires rests { (one.view.turn ≡ false) × (other.view.turn ≡ false) }
    ensures lock { (result.0.lock ≡ one.lock) × (result.1.lock ≡ other.lock) }
    ensures rests { (result.0.view.turn ≡ false) × (result.1.view.turn ≡ false) }
{
    thread::join(
        rt,
        move ||
            requires { (one.lock ≡ lock.now) × (one.view.turn ≡ false) }
            ensures { (result.lock ≡ one.lock) × (result.view.turn ≡ false) }
        {
            let mut seat = one;
            append_and_meet(rt, lock, &mut seat, 0, meeting);
            seat
        },
        move ||
            requires { (other.lock ≡ lock.now) × (other.view.turn ≡ false) }
            ensures { (result.lock ≡ other.lock) × (result.view.turn ≡ false) }
        {
            let mut seat = other;
            append_and_meet(rt, lock, &mut seat, SECOND, meeting);
            seat
        },
    )
}

/// Whether the numbers from `first` on stand there once each and in their order, others between
/// them.
fn stand_in_order(numbers: &[u64], first: u64) -> bool {
    let end = first.saturating_add(MANY);
    let mut next = first;
    for number in numbers {
        if *number >= first && *number < end {
            if *number != next {
                return false;
            }
            next = next.saturating_add(1);
        }
    }
    next == end
}

/// Two threads append 1,000 numbers each, both inside at once; then their seats are joined.
#[test]
fn two_threads_append(rt: HostRuntime) -> Result<(), Fail> {
    let log = Log {
        name: 7,
        numbers: Vec::with_capacity(rt.alloc(), 2000)?,
    };
    let meeting = Meeting::of(2);
    let (lock, mut seat) = BoardLock::new(rt.alloc(), log)?;
    let other = lock.split(&mut seat);
    let (mut one, two) = append_in_two(&rt, &lock, seat, other, &meeting);
    lock.join(&mut one, two);
    let log = lock.finish(&rt, one);
    let name = log.name;
    let many = log.numbers.len();
    let first = stand_in_order(&log.numbers, 0);
    let second = stand_in_order(&log.numbers, SECOND);
    drop(log);
    assert_eq!(rt; name, 7);
    assert_eq!(rt; many, 2000);
    assert!(rt; first);
    assert!(rt; second);
    assert_eq!(rt; meeting.met.load(Ordering::SeqCst), 2);
    Ok(())
}
