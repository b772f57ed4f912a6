//! Verdicts of boards that were brought to their ends in rounds, beside those of one worker alone.

use crate::programs::{Says, WORKLOAD, board_of, verdicts_of, worked};
use bolt_rounds::alone::alone;
use outer_io::NoGate;
use shadow_elim::limit::LimitKind;
use std::alloc::Global;
use std::test::Fail;
use std::thread::Threads;

/// The verdicts of the first two roots.
type Verdicts = [Option<Says>; 2];

fn alone_at(alloc: Global, text: &str, budget: u32) -> Result<Verdicts, Fail> {
    let (board, asserts) = board_of(alloc, text, budget)?;
    let board = alone(alloc, board)?;
    verdicts_of(alloc, &board, asserts)
}

fn rounds_at<R: Threads + Sync>(
    rt: &R,
    alloc: Global,
    text: &str,
    budget: u32,
    workers: u32,
) -> Result<Verdicts, Fail> {
    let (board, asserts) = worked(rt, alloc, text, budget, workers, &NoGate)?;
    verdicts_of(alloc, &board, asserts)
}

/// The verdicts of one worker alone, and of 1, 2, 4 and 16 in rounds.
fn all_verdicts<R: Threads + Sync>(
    rt: &R,
    alloc: Global,
    text: &str,
    budget: u32,
) -> Result<[Verdicts; 5], Fail> {
    Ok([
        alone_at(alloc, text, budget)?,
        rounds_at(rt, alloc, text, budget, 1)?,
        rounds_at(rt, alloc, text, budget, 2)?,
        rounds_at(rt, alloc, text, budget, 4)?,
        rounds_at(rt, alloc, text, budget, 16)?,
    ])
}

/// Three calls deep it fails, with the inputs 2 and 40.
const THREE_DEEP: &str = "int h(int a, int b) { assert(a != 2 || b != 40); return 0; } \
     int g(int a, int b) { return h(a, b); } int f(int a, int b) { return g(a, b); } \
     int main() { int a = input(); int b = input(); return f(a, b); }";

/// A procedure that calls itself, and returns 0.
const DESCENDS: &str = "int f(int n) { if (n <= 0) return 0; return f(n - 1); } \
     int main() { assert(f(input()) == 0); return 0; }";

/// A coefficient of 2^41 in a procedure that is called.
const WIDE: &str = "int f(int x) { assert(2199023255552 * x != 2199023255552); return 0; } \
     int main() { return f(input()); }";

/// Of two assertions the second fails.
const WRONG: &str = "int main() { int left = 12 - 5; assert(left == 7); left = left - 1; \
     assert(left == 7); return left; }";

#[test]
fn rounds_have_the_verdicts_of_one_worker(rt: HostRuntime) -> Result<(), Fail> {
    let proved = Some(Says::Proved);
    let deep = Some(Says::Found(2, Some(2), Some(40)));
    let none = Some(Says::Found(0, None, None));
    let wide = Some(Says::Limit(LimitKind::Wide));
    let rows = &[
        (WORKLOAD, 2000, [proved, proved]),
        (THREE_DEEP, 2000, [deep, None]),
        (THREE_DEEP, 5, [Some(Says::Budget(5)), None]),
        (DESCENDS, 2000, [proved, None]),
        (WIDE, 2000, [wide, None]),
        (WRONG, 2000, [proved, none]),
    ];
    for &(text, budget, wanted) in rows {
        assert!(rt; all_verdicts(&rt, rt.alloc(), text, budget)? == [wanted; 5]);
    }
    Ok(())
}
