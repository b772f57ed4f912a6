//! Boards that one worker brought to their end.

ghost use Rattle.std.specs.Prelude.{◌≡◌};

use crate::programs::{THREE_DEEP, board_of};
use bolt_core::board::Board;
use bolt_core::job::Verdict;
use bolt_rounds::alone::alone;
use shadow_elim::limit::LimitKind;
use std::alloc::Global;
use std::test::Fail;
use summary_table::table::Table;

/// What a verdict says.
#[derive(Clone, Copy, PartialEq, Eq)]
pub enum Says {
    Proved,
    /// The first two inputs, and how many there are.
    Found(usize, Option<i64>, Option<i64>),
    Budget(u32),
    Limit(LimitKind),
}

fn said_by(verdict: &Verdict) -> Says {
    match verdict {
        Verdict::Proved => Says::Proved,
        Verdict::Found(list) => {
            Says::Found(list.len(), list.get(0).copied(), list.get(1).copied())
        }
        Verdict::Budget(steps) => Says::Budget(*steps),
        Verdict::Limit(kind) => Says::Limit(*kind),
    }
}

/// The verdict of a root, where the board is over.
pub fn verdict_of(alloc: Global, board: &Board, asserts: u32, root: u32) -> Result<Says, Fail>
    requires { asserts ≡ board.now.asserts }
{
    if board.stopped() || !board.over() || root >= asserts {
        return Err(Fail::new("no verdict"));
    }
    let verdict = board.verdict(alloc, root)?;
    Ok(said_by(&verdict))
}

/// How many summaries a table has that is brought up to the board's.
pub fn brought(alloc: Global, board: &Board) -> Result<u32, Fail> {
    let mut known = Table::with_room(alloc, board.room())?;
    board.bring(&mut known)?;
    Ok(known.all().len() as u32)
}

/// The verdict of the first root, the queries, the summaries, and the most that there may be.
pub type End = (Says, u32, u32, u32);

fn end_of(alloc: Global, text: &str, budget: u32) -> Result<End, Fail> {
    let (board, asserts) = board_of(alloc, text, budget)?;
    let board = alone(alloc, board)?;
    let says = verdict_of(alloc, &board, asserts, 0)?;
    let queries = board.forest().count();
    Ok((says, queries, brought(alloc, &board)?, board.room()))
}

/// A procedure that calls itself, and returns 0.
pub const DESCENDS: &str = "int f(int n) { if (n <= 0) return 0; return f(n - 1); } \
     int main() { assert(f(input()) == 0); return 0; }";

/// A coefficient of 2^41 in a procedure that is called.
pub const WIDE: &str = "int f(int x) { assert(2199023255552 * x != 2199023255552); return 0; } \
     int main() { return f(input()); }";

#[test]
fn calls_three_deep_fail(rt: HostRuntime) -> Result<(), Fail> {
    let found = Says::Found(2, Some(2), Some(40));
    assert!(rt; end_of(rt.alloc(), THREE_DEEP, 2000)? == (found, 4, 4, 2001));
    Ok(())
}

#[test]
fn a_recursion_is_proved(rt: HostRuntime) -> Result<(), Fail> {
    assert!(rt; end_of(rt.alloc(), DESCENDS, 2000)? == (Says::Proved, 5, 5, 2001));
    Ok(())
}

#[test]
fn a_wide_sum_of_a_callee_is_a_limit(rt: HostRuntime) -> Result<(), Fail> {
    let limit = Says::Limit(LimitKind::Wide);
    assert!(rt; end_of(rt.alloc(), WIDE, 2000)? == (limit, 2, 0, 2001));
    Ok(())
}

#[test]
fn a_budget_is_spent(rt: HostRuntime) -> Result<(), Fail> {
    assert!(rt; end_of(rt.alloc(), THREE_DEEP, 5)? == (Says::Budget(5), 1, 0, 6));
    Ok(())
}
