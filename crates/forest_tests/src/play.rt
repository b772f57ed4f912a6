//! A forest beside the jobs that are out, so that any list of moves can be made of it.

ghost use Rattle.std.specs.Prelude.{◌≡◌, ◌<◌, ◌≤◌, true, Some, IfSome};
ghost use Rattle.query_tree.specs.Woods.{IsLent, IsChild, MayGive};
ghost use Rattle.forest_tests.specs.Jobs.{AreOut, IsFree};

use query_tree::{Forest, Lent, Rest};
use std::alloc::{AllocError, Global};

/// A call of a forest. The second number of `Park`, `Ask`, `Feed` and `Close` counts the steps.
#[derive(Clone, Copy, Debug, PartialEq, Eq)]
pub enum Move {
    Root(u32),
    Take,
    Park(u32, u32, Rest),
    Ask(u32, u32),
    Feed(u32, u32, u32),
    Close(u32, u32, u64),
}

/// What became of a move. `left` is what the job says is left of its query. `Illegal` says that a
/// condition of the call did not hold, so that it was not made.
#[derive(Clone, Copy, Debug, PartialEq, Eq)]
pub enum Answer {
    Added(u32),
    Took { id: u32, left: u32 },
    Empty,
    Done,
    Gone(u64),
    Illegal,
}

/// The payload with which a query begins.
pub fn first_payload(id: u32) -> u32 {
    id.wrapping_mul(1000)
}

/// What is out of the query of number i stands at place i of `jobs`.
#[derive(Drop)]
pub struct Play {
    pub forest: Forest<u32>,
    pub room: u32,
    pub jobs: Vec<Option<Lent<u32>>>,
    ghost has_room: { forest.room ≡ room },
    ghost well_formed: { AreOut forest.entries jobs.items },
}

/// Whether a job may be given back so.
fn may_park(lent: &Lent<u32>, steps: u32, rest: Rest) -> bool
    ensures steps { result ≡ true → steps ≤ lent.now.left }
    ensures rest { result ≡ true → MayGive rest steps lent.now.left lent.now.waiting }
{
    let may = match rest {
        Rest::Ready => true,
        Rest::Blocked => lent.waiting,
        Rest::Starved => steps == lent.left,
    };
    may && steps <= lent.left
}

impl Play {
    /// An empty forest, and no job.
    pub fn of(alloc: Global, room: u32) -> Result<Play, AllocError> {
        let forest = Forest::with_room(alloc, room)?;
        let mut play = Play {
            forest,
            room,
            jobs: Vec::new(alloc),
        };
        for _ in 0..room {
            play.grow()?;
        }
        Ok(play)
    }

    /// One more place for a job.
    fn grow(&mut self) -> Result<(), AllocError> {
        match self.jobs.push(None) {
            Ok(()) => Ok(()),
            Err(_) => Err(AllocError),
        }
    }

    /// Keeps a job that is out.
    fn keep(&mut self, lent: Lent<u32>)
        requires { IsLent self.old.forest.entries lent.id lent.left lent.waiting }
    {
        let place = lent.id as usize;
        if place < self.jobs.len() {
            self.jobs[place] = Some(lent);
        }
    }

    /// The job of this query, if it is out, which is kept no longer.
    fn fetch(&mut self, id: u32) -> Option<Lent<u32>>
        ensures forest { self.new.forest ≡ self.old.forest }
        ensures free { IsFree self.new.jobs.items id }
        ensures number { IfSome result (λ lent. lent.id ≡ id) }
        ensures out { IfSome result
            (λ lent. IsLent self.old.forest.entries lent.id lent.left lent.waiting) }
    {
        let place = id as usize;
        if place < self.jobs.len() {
            self.jobs[place].take()
        } else {
            None
        }
    }

    fn is_child(&self, child: u32, id: u32) -> bool
        ensures { result ≡ true → IsChild self.now.forest.entries child id }
    {
        if child >= self.forest.count() {
            return false;
        }
        match self.forest.parent(child) {
            None => false,
            Some(parent) => parent == id,
        }
    }

    fn root(&mut self, grant: u32) -> Answer {
        let number = self.forest.count();
        if number >= self.room {
            return Answer::Illegal;
        }
        Answer::Added(self.forest.add_root(grant, first_payload(number)))
    }

    fn take(&mut self) -> Answer {
        match self.forest.take() {
            None => Answer::Empty,
            Some(lent) => {
                let id = lent.id;
                let left = lent.left;
                self.keep(lent);
                Answer::Took { id, left }
            }
        }
    }

    fn park(&mut self, id: u32, steps: u32, rest: Rest) -> Answer {
        let Some(mut lent) = self.fetch(id) else {
            return Answer::Illegal;
        };
        if !may_park(&lent, steps, rest) {
            self.keep(lent);
            return Answer::Illegal;
        }
        lent.payload = lent.payload.wrapping_add(steps);
        match self.forest.give_back(lent, steps, rest) {
            Ok(()) => Answer::Done,
            Err(gone) => Answer::Gone(gone.stamp),
        }
    }

    fn ask(&mut self, id: u32, steps: u32) -> Answer {
        let Some(mut lent) = self.fetch(id) else {
            return Answer::Illegal;
        };
        let number = self.forest.count();
        if steps == 0 || steps > lent.left || number >= self.room {
            self.keep(lent);
            return Answer::Illegal;
        }
        lent.payload = lent.payload.wrapping_add(steps);
        match self.forest.ask(lent, steps, first_payload(number)) {
            Ok(child) => Answer::Added(child),
            Err(gone) => Answer::Gone(gone.stamp),
        }
    }

    fn feed(&mut self, id: u32, steps: u32, child: u32) -> Answer {
        let Some(mut lent) = self.fetch(id) else {
            return Answer::Illegal;
        };
        if steps == 0 || steps > lent.left || !self.is_child(child, lent.id) {
            self.keep(lent);
            return Answer::Illegal;
        }
        lent.payload = lent.payload.wrapping_add(steps);
        match self.forest.feed(lent, steps, child) {
            Ok(()) => Answer::Done,
            Err(gone) => Answer::Gone(gone.stamp),
        }
    }

    fn close(&mut self, id: u32, steps: u32, stamp: u64) -> Answer {
        let Some(mut lent) = self.fetch(id) else {
            return Answer::Illegal;
        };
        if steps > lent.left {
            self.keep(lent);
            return Answer::Illegal;
        }
        lent.payload = lent.payload.wrapping_add(steps);
        match self.forest.close(lent, steps, stamp) {
            Ok(()) => Answer::Done,
            Err(gone) => Answer::Gone(gone.stamp),
        }
    }

    /// Makes a move where its conditions hold. A payload grows by the steps.
    pub fn make(&mut self, step: Move) -> Answer {
        match step {
            Move::Root(grant) => self.root(grant),
            Move::Take => self.take(),
            Move::Park(id, steps, rest) => self.park(id, steps, rest),
            Move::Ask(id, steps) => self.ask(id, steps),
            Move::Feed(id, steps, child) => self.feed(id, steps, child),
            Move::Close(id, steps, stamp) => self.close(id, steps, stamp),
        }
    }
}
