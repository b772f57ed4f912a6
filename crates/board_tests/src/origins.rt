//! Of which query each summary of a board's table is.

use crate::programs::{THREE_DEEP, board_of};
use bolt_core::board::Board;
use bolt_rounds::alone::alone;
use std::alloc::Global;
use std::test::Fail;

/// The origin of a place, its parent, and the least level on which its state leans.
#[derive(Clone, Copy, Debug, PartialEq, Eq)]
struct Row {
    id: u32,
    parent: Option<u32>,
    lowest: Option<u32>,
}

fn row_of(board: &Board, id: u32) -> Row {
    let forest = board.forest();
    if id >= forest.count() {
        return Row {
            id,
            parent: None,
            lowest: None,
        };
    }
    Row {
        id,
        parent: forest.parent(id),
        lowest: forest.payload(id).and_then(|state| state.lowest()),
    }
}

/// The origins of a board that one worker brought to its end, in order of place.
fn origins_of(alloc: Global, text: &str, budget: u32) -> Result<Vec<Row>, Fail> {
    let (board, _) = board_of(alloc, text, budget)?;
    let board = alone(alloc, board)?;
    let many = board.table().all().len();
    let mut origins = Vec::new(alloc);
    for place in 0..board.room() {
        if (place as usize) < many {
            origins.push(row_of(&board, board.origin(place)))?;
        }
    }
    Ok(origins)
}

const fn origin(id: u32, parent: Option<u32>, lowest: Option<u32>) -> Row {
    Row { id, parent, lowest }
}

/// Each must was appended by the close of its own query, the innermost first.
#[test]
fn musts_are_of_the_queries_that_closed(rt: HostRuntime) -> Result<(), Fail> {
    let wanted = &[
        origin(3, Some(2), None),
        origin(2, Some(1), None),
        origin(1, Some(0), None),
        origin(0, None, None),
    ];
    let origins = origins_of(rt.alloc(), THREE_DEEP, 2000)?;
    assert!(rt; origins.as_slice() == wanted.as_slice(), "{origins:?}");
    Ok(())
}

/// A procedure that calls itself, and returns 0: of a value it asks for the opposite one.
const ALTERNATES: &str = "int f(int n) { if (n <= 0) return 0; return 0 - f(n - 1); } \
     int main() { assert(f(input()) == 0); return 0; }";

/// Query 4 closed before its parent, query 3, on whose level it leans. It is published by the close
/// of 3, after it, and has its own number.
#[test]
fn a_member_of_a_group_has_its_own_number(rt: HostRuntime) -> Result<(), Fail> {
    let wanted = &[
        origin(1, Some(0), Some(1)),
        origin(2, Some(0), None),
        origin(3, Some(0), Some(1)),
        origin(4, Some(3), Some(1)),
        origin(0, None, None),
    ];
    let origins = origins_of(rt.alloc(), ALTERNATES, 2000)?;
    assert!(rt; origins.as_slice() == wanted.as_slice(), "{origins:?}");
    Ok(())
}
