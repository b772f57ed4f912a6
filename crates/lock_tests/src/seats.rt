//! Seats of one thread.

use crate::log::{Log, append_once};
use board_lock::BoardLock;
use std::test::*;

fn is_same(xs: &[u64], ys: &[u64]) -> bool {
    xs == ys
}

/// Each seat's calls are in the list, in the order of their turns, after those that were there at
/// first.
#[test]
fn seats_take_turns(rt: HostRuntime) -> Result<(), Fail> {
    let mut log = Log {
        name: 3,
        numbers: Vec::with_capacity(rt.alloc(), 8)?,
    };
    log.append(1);
    let (lock, mut one) = BoardLock::new(rt.alloc(), log)?;
    append_once(&rt, &lock, &mut one, 2);
    let mut two = lock.split(&mut one);
    append_once(&rt, &lock, &mut two, 3);
    append_once(&rt, &lock, &mut one, 4);
    append_once(&rt, &lock, &mut two, 5);
    lock.join(&mut one, two);
    append_once(&rt, &lock, &mut one, 6);
    let log = lock.finish(&rt, one);
    let name = log.name;
    let same = is_same(&log.numbers, &[1, 2, 3, 4, 5, 6]);
    drop(log);
    assert_eq!(rt; name, 3);
    assert!(rt; same);
    Ok(())
}
