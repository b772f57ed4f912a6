//! Calls on other threads.

ghost use Rattle.std.specs.Prelude.{◌<◌};
ghost use Rattle.std.specs.Fork.{AcceptsEach};
ghost use Rattle.bolt_rounds.specs.steps.Apart.{AreCalled};

use std::thread;
use std::thread::Threads;

/// Calls `f` at each element, as `thread::for_each_mut` does, each call on a thread of its own
/// where one can be made; no call is made on this thread, which waits, if another can be made.
pub(crate) fn each_apart<R: Threads + Sync, T: Send, F: Fn(usize, &mut T) + Sync>(
    rt: &R,
    s: &mut [T],
    f: &F,
)
    requires { AcceptsEach F.Fn f.now s.old }
    ensures { AreCalled F.Fn f.now s.old s.new }
{
    let threads = s.len().max(1);
    let mut calls = ||
        requires { (0 < threads) × AcceptsEach F.Fn f.now s.now }
        ensures { AreCalled F.Fn f.entry.now s.entry.now s.exit.now }
    { thread::for_each_mut(rt, s, threads, f) };
    let mut nothing = || ();
    thread::join_mut(rt, &mut calls, &mut nothing);
}
