//! Roots and readers of a forest, with ample memory.

use query_tree::{Forest, Status};
use std::test::*;

/// Two roots, each with its grant; the number of a query is that of its turn.
#[test]
fn adds_roots(rt: HostRuntime) -> Result<(), Fail> {
    let mut forest: Forest<u64> = Forest::with_room(rt.alloc(), 2)?;
    let first = forest.add_root(7, 10);
    let second = forest.add_root(0, 20);
    let seen = (
        first,
        second,
        forest.left(first),
        forest.left(second),
        forest.spent(first),
        forest.count(),
    );
    let ready = forest.status(second) == Status::Ready;
    let is_root = forest.parent(first).is_none();
    let kept = forest.payload(second) == Some(&20);
    drop(forest);
    assert_eq!(rt; seen, (0, 1, 7, 0, 0, 2));
    assert!(rt; ready);
    assert!(rt; is_root);
    assert!(rt; kept);
    Ok(())
}
