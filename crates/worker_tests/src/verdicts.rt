//! The verdicts of several workers, beside those of one who works alone.

ghost use Rattle.std.specs.Prelude.{◌≡◌, ◌≤◌};

use crate::programs::board_of;
use bolt_core::board::Board;
use bolt_core::job::Verdict;
use bolt_rounds::alone::alone;
use bolt_workers::work::work;
use outer_io::NoGate;
use shadow_elim::limit::LimitKind;
use std::alloc::Global;
use std::sync::Wait;
use std::test::Fail;
use std::thread::Threads;

/// What a verdict says.
#[derive(Clone, Copy, PartialEq, Eq)]
pub enum Says {
    Proved,
    /// The first two inputs, and how many there are.
    Found(usize, Option<i64>, Option<i64>),
    Budget(u32),
    Limit(LimitKind),
}

fn said_by(verdict: &Verdict) -> Says {
    match verdict {
        Verdict::Proved => Says::Proved,
        Verdict::Found(list) => {
            Says::Found(list.len(), list.get(0).copied(), list.get(1).copied())
        }
        Verdict::Budget(steps) => Says::Budget(*steps),
        Verdict::Limit(kind) => Says::Limit(*kind),
    }
}

/// The verdicts of the roots of a board that is over.
pub fn verdicts(alloc: Global, board: &Board, asserts: u32) -> Result<Vec<Says>, Fail>
    requires { asserts ≡ board.now.asserts }
{
    if board.stopped() || !board.over() {
        return Err(Fail::new("no verdict"));
    }
    let mut all = Vec::new(alloc);
    for root in 0..asserts {
        let verdict = board.verdict(alloc, root)?;
        all.push(said_by(&verdict))?;
    }
    Ok(all)
}

fn by_one(alloc: Global, text: &[u8]) -> Result<Vec<Says>, Fail> {
    let (board, asserts) = board_of(alloc, text)?;
    let board = alone(alloc, board)?;
    verdicts(alloc, &board, asserts)
}

fn by_workers<R: Threads + Wait + Sync>(
    rt: &R,
    alloc: Global,
    text: &[u8],
    workers: u32,
) -> Result<Vec<Says>, Fail>
    requires some { 1 ≤ workers }
    requires few { workers ≤ 16 }
{
    let (board, asserts) = board_of(alloc, text)?;
    let board = work(rt, alloc, board, workers, &NoGate)?;
    verdicts(alloc, &board, asserts)
}

/// Whether 1, 2, 4 and 16 workers reach the same verdicts as one alone, which are these.
fn agree<R: Threads + Wait + Sync>(
    rt: &R,
    alloc: Global,
    text: &[u8],
    wanted: &[Says],
) -> Result<bool, Fail> {
    Ok(
        by_one(alloc, text)?.as_slice() == wanted
            && by_workers(rt, alloc, text, 1)?.as_slice() == wanted
            && by_workers(rt, alloc, text, 2)?.as_slice() == wanted
            && by_workers(rt, alloc, text, 4)?.as_slice() == wanted
            && by_workers(rt, alloc, text, 16)?.as_slice() == wanted,
    )
}

// Programs, of each of which there is one right answer

const NO_ASSERTION: &str = "int main(){ return 0; }";

const ONE_INPUT: &str = "int main(){ int x = input(); assert(x != 5); return 0; }";

const THREE_DEEP: &str = "int h(int a, int b) { assert(a != 2 || b != 40); return 0; } \
     int g(int a, int b) { return h(a, b); } int f(int a, int b) { return g(a, b); } \
     int main() { int a = input(); int b = input(); return f(a, b); }";

const DESCENDS: &str = "int f(int n) { if (n <= 0) return 0; return f(n - 1); } \
     int main() { assert(f(input()) == 0); return 0; }";

/// Two procedures that call each other.
const EVEN: &str = "int odd(int n); int even(int n) { if (n <= 0) return 1; return odd(n - 1); } \
     int odd(int n) { if (n <= 0) return 0; return even(n - 1); } \
     int main() { int r = even(input()); assert(r == 0 || r == 1); return 0; }";

/// Counts the input down by calls.
const DEPTH: &str = "int depth(int n) { if (n <= 0) return 0; return 1 + depth(n - 1); } \
     int main() { int x = input(); assume(x >= 0); int y = depth(x); assert(y != 3); return y; }";

/// A coefficient of 2^41 in a procedure that is called.
const WIDE: &str = "int f(int x) { assert(2199023255552 * x != 2199023255552); return 0; } \
     int main() { return f(input()); }";

/// Two assertions in a procedure that is called twice, and one after both calls.
const BEHIND: &str = "int f(int a) { assert(a >= 0); if (a > 9) { return 9; } assert(a != 7);
    return a; } \
     int main() { int x = input(); assume(x >= 0); int y = f(x); int z = f(y); assert(z == y);
         return 0; }";

#[test]
fn straight_programs(rt: HostRuntime) -> Result<(), Fail> {
    let alloc = rt.alloc();
    assert!(rt; agree(&rt, alloc, NO_ASSERTION.as_bytes(), &[])?);
    let found = [Says::Found(1, Some(5), None)];
    assert!(rt; agree(&rt, alloc, ONE_INPUT.as_bytes(), &found)?);
    Ok(())
}

#[test]
fn calls(rt: HostRuntime) -> Result<(), Fail> {
    let alloc = rt.alloc();
    let found = [Says::Found(2, Some(2), Some(40))];
    assert!(rt; agree(&rt, alloc, THREE_DEEP.as_bytes(), &found)?);
    let limit = [Says::Limit(LimitKind::Wide)];
    assert!(rt; agree(&rt, alloc, WIDE.as_bytes(), &limit)?);
    let mixed = [Says::Proved, Says::Found(1, Some(7), None), Says::Proved];
    assert!(rt; agree(&rt, alloc, BEHIND.as_bytes(), &mixed)?);
    Ok(())
}

#[test]
fn recursions(rt: HostRuntime) -> Result<(), Fail> {
    let alloc = rt.alloc();
    assert!(rt; agree(&rt, alloc, DESCENDS.as_bytes(), &[Says::Proved])?);
    assert!(rt; agree(&rt, alloc, EVEN.as_bytes(), &[Says::Proved])?);
    let found = [Says::Found(1, Some(3), None)];
    assert!(rt; agree(&rt, alloc, DEPTH.as_bytes(), &found)?);
    Ok(())
}

/// 15 of the workers never have a job.
#[test]
fn sixteen_workers_at_one_line(rt: HostRuntime) -> Result<(), Fail> {
    let line = "int main(){ int x = 3; x = x + 4; assert(x == 7); return 0; }";
    let says = by_workers(&rt, rt.alloc(), line.as_bytes(), 16)?;
    assert!(rt; says.as_slice() == [Says::Proved].as_slice());
    Ok(())
}
