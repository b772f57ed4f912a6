//! Two workers whose calls come in an order that a gate keeps: one whose job is gone, one that
//! finds nothing, and one whose slice is long.

ghost use Rattle.std.specs.Prelude.{◌≡◌, IfOk};

use crate::gates::TURNS;
use crate::programs::board_of;
use crate::verdicts::{Says, verdicts};
use bolt_core::board::Board;
use bolt_workers::work::work;
use outer_io::Gate;
use std::alloc::Global;
use std::sync::Wait;
use std::sync::atomic::{AtomicU64, Ordering};
use std::test::Fail;
use std::thread::{self, Threads};
use summary_form::summary::Summary;

/// A pass: the worker, its call, and whether it is after the call.
type Pass = (u32, u64, bool);

/// How many passes a worker has made when it has made this one.
fn number_of(call: u64, after: bool) -> u64 {
    call.wrapping_mul(2).wrapping_sub(if after { 0 } else { 1 })
}

/// Holds a pass until another one was made, and counts the passes of both workers.
#[derive(Drop)]
struct Order {
    /// The pass that is held, and the one that it waits for.
    rules: [(Pass, Pass); 3],
    made: [AtomicU64; 2],
    /// The passes that weren't made in time.
    missed: AtomicU64,
    /// At this pass the other worker is watched.
    watched: Pass,
    /// How often it is looked at, until it has made many passes.
    looks: u32,
    /// How many passes the other one had then made.
    seen: AtomicU64,
}

/// How often a worker looks whether the other one goes on.
const LOOKS: u32 = 20_000;

/// As many passes as a worker that waits doesn't make.
const MANY: u64 = 40;

impl Order {
    fn of(rules: [(Pass, Pass); 3], watched: Pass, looks: u32) -> Order {
        Order {
            rules,
            made: [AtomicU64::new(0), AtomicU64::new(0)],
            missed: AtomicU64::new(0),
            watched,
            looks,
            seen: AtomicU64::new(0),
        }
    }

    /// The passes that the worker has made.
    fn made_by(&self, worker: u32) -> u64 {
        match self.made.get(worker as usize) {
            Some(made) => made.load(Ordering::SeqCst),
            None => 0,
        }
    }

    fn wait_for(&self, pass: Pass) {
        for _ in 0..TURNS {
            if self.made_by(pass.0) >= number_of(pass.1, pass.2) {
                return;
            }
            thread::yield_now();
        }
        self.missed.fetch_add(1, Ordering::SeqCst);
    }

    /// Looks at this worker for a while.
    fn watch(&self, other: u32) {
        for _ in 0..self.looks {
            if self.made_by(other) >= MANY {
                break;
            }
            thread::yield_now();
        }
        self.seen.store(self.made_by(other), Ordering::SeqCst);
    }
}

impl Gate for Order {
    fn pass(&self, worker: u32, call: u64, after: bool) {
        for (held, until) in &self.rules {
            if *held == (worker, call, after) {
                self.wait_for(*until);
            }
        }
        if self.watched == (worker, call, after) {
            self.watch(if worker == 0 { 1 } else { 0 });
        }
        if let Some(made) = self.made.get(worker as usize) {
            made.store(number_of(call, after), Ordering::SeqCst);
        }
    }
}

/// No pass: the workers are 0 and 1.
const NONE: Pass = (9, 1, false);

/// The board of a program at whose gate two workers worked, and what they said.
fn worked<R: Threads + Wait + Sync>(
    rt: &R,
    alloc: Global,
    text: &str,
    order: &Order,
) -> Result<(Board, u32), Fail>
    ensures { IfOk result (λ r. r.1 ≡ r.0.asserts) }
{
    let (board, asserts) = board_of(alloc, text.as_bytes())?;
    let board = work(rt, alloc, board, 2, order)?;
    Ok((board, asserts))
}

/// A way to the failure through one call, and one without a call.
const TWO_WAYS: &str = "int g(int a) { return a; } int main() { int c = input(); int y = 0; \
     if (c < 50) { y = g(c); y = y + 1; y = y + 1; y = y - 2; } else { y = 3; } \
     assert(y != 3); return 0; }";

/// The procedure of the last summary of the table, if that is a not-may.
fn last_not_may(board: &Board) -> Option<u32> {
    match &**board.table().all().last()? {
        Summary::NotMay(query) => Some(query.proc),
        Summary::Must(_) => None,
    }
}

/// Worker 0 gives `main` back, which asks for `g`. Worker 1 takes `g`, of which no run is what is
/// asked, and gives it back when worker 0 has closed `main` on the other way. So its job is gone,
/// and what it closed with is published, as its third call.
#[test]
fn what_a_gone_job_closed_with_is_published(rt: HostRuntime) -> Result<(), Fail> {
    let rules = [
        ((1, 1, false), (0, 2, true)),
        ((0, 3, false), (1, 1, true)),
        ((1, 2, false), (0, 4, true)),
    ];
    let order = Order::of(rules, NONE, 0);
    let (board, asserts) = worked(&rt, rt.alloc(), TWO_WAYS, &order)?;
    let says = verdicts(rt.alloc(), &board, asserts)?;
    let found = says.as_slice() == [Says::Found(1, Some(50), None)].as_slice();
    let published = last_not_may(&board) == Some(0);
    drop(board);
    let passes = (order.missed.load(Ordering::SeqCst), order.made_by(1));
    assert!(rt; found && published && passes == (0, 8));
    Ok(())
}

const ONE_INPUT: &str = "int main(){ int x = input(); assert(x != 5); return 0; }";

/// Worker 1 finds nothing while worker 0 has the one query, and then makes no call until it is
/// woken: at most one after the take of worker 0 and one after its own.
#[test]
fn who_finds_nothing_waits(rt: HostRuntime) -> Result<(), Fail> {
    let rules = [
        ((1, 1, false), (0, 1, true)),
        ((0, 2, false), (1, 1, true)),
        (NONE, NONE),
    ];
    let order = Order::of(rules, (0, 2, false), LOOKS);
    let (board, asserts) = worked(&rt, rt.alloc(), ONE_INPUT, &order)?;
    let says = verdicts(rt.alloc(), &board, asserts)?;
    let found = says.as_slice() == [Says::Found(1, Some(5), None)].as_slice();
    drop(board);
    let seen = order.seen.load(Ordering::SeqCst);
    assert!(rt; found && order.missed.load(Ordering::SeqCst) == 0);
    assert!(rt; seen >= 2 && seen <= 6, "{seen} passes");
    Ok(())
}

/// Four assertions that are settled at once, and one that spends its whole budget in one slice,
/// which takes far longer.
const ONE_LONG: &str = "int main() { int x = input(); \
     assert(x != 1); assert(x != 2); assert(x != 3); assert(x != 4); \
     int i = 0; int j = 0; while (i < 9999) { i = i + 1; j = j + 1; } assert(i == j); \
     return 0; }";

/// As many passes as worker 0 makes at least for the short ones but the last.
const SHORT: u64 = 12;

/// Worker 1 takes the long query, and worker 0 the others while worker 1 makes its slice: nobody
/// has the board while it makes a slice. If worker 1 had it, worker 0 could make no call between
/// the first two calls of worker 1.
#[test]
fn slices_are_made_without_the_board(rt: HostRuntime) -> Result<(), Fail> {
    let rules = [((0, 1, false), (1, 1, true)), (NONE, NONE), (NONE, NONE)];
    let order = Order::of(rules, (1, 2, false), 0);
    let (board, asserts) = worked(&rt, rt.alloc(), ONE_LONG, &order)?;
    let says = verdicts(rt.alloc(), &board, asserts)?;
    let is_spent = says.as_slice().last() == Some(&Says::Budget(2000));
    drop(board);
    let seen = order.seen.load(Ordering::SeqCst);
    assert!(rt; is_spent && order.missed.load(Ordering::SeqCst) == 0);
    assert!(rt; seen >= SHORT, "{seen} passes");
    Ok(())
}
