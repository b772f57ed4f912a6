//! Jobs that are reported a second time.

ghost use Rattle.std.specs.Prelude.{◌≡◌, [], IfSome, OnOk};
ghost use Rattle.bolt_rounds.specs.Moves.{MayMove};
ghost use Rattle.board_tests.specs.Plays.{IsFirstTake, IsOfTake, IsPlay, IsSince};

use crate::play::{Back, Play};
use bolt_core::job::{Gone, Job, Parked};
use bolt_rounds::moves::Worked;
use std::alloc::Global;
use std::test::Fail;

/// What the Take with which a board began said: the query, what was left of it, and its stored
/// steps.
#[derive(Clone, Copy)]
pub struct FirstTake {
    pub id: u32,
    pub left: u32,
    pub stored: u32,
}

/// What the take of the job said, if the board began with it.
fn first_of(job: &Job) -> Option<FirstTake>
    ensures { IfSome result (λ t. IsOfTake job.now t.id t.left t.stored) }
{
    let steps = job.state.steps().len();
    let spent = job.spent as usize;
    if job.taken != 0 || spent > steps || steps - spent > u32::MAX as usize {
        return None;
    }
    Some(FirstTake {
        id: job.id,
        left: job.left,
        stored: (steps - spent) as u32,
    })
}

/// How many steps the job's query has made since that take: some, and not all that were left. It
/// asked nothing.
fn spent_since(first: FirstTake, job: &Job) -> Option<u32>
    ensures { IfSome result (IsSince first.id first.left first.stored job.now) }
{
    let steps = job.state.steps().len();
    let stored = first.stored as usize;
    if first.id != job.id || !job.state.asked().is_empty() || steps <= stored {
        return None;
    }
    let spent = steps - stored;
    if spent >= first.left as usize {
        return None;
    }
    Some(spent as u32)
}

impl Play {
    /// What the take of the worker's job said, if the board began with it.
    fn first_take(&self, worker: u32) -> Option<FirstTake>
        requires { IsPlay self.now.board self.now.asserts self.now.known self.now.jobs.items }
        ensures { IfSome result (λ t. IsFirstTake self.now.board t.id t.left t.stored) }
    {
        let place = worker as usize;
        if place >= self.jobs.len() {
            return None;
        }
        match &self.jobs[place] {
            Some(worked) => first_of(&worked.job),
            None => None,
        }
    }

    /// Parks a job as if it were of the first take, and keeps it as what it is.
    fn report(&mut self, worker: u32, first: FirstTake, spent: u32, worked: Worked) -> Back
        requires first { IsFirstTake self.old.board first.id first.left first.stored }
        requires since { IsSince first.id first.left first.stored worked.job spent }
        requires may { MayMove self.old.board worked.job worked.next }
        requires bare { self.old.board.core.kept ≡ [] }
        requires stands { IsPlay self.old.board self.old.asserts self.old.known
            self.old.jobs.items }
        ensures { IsPlay self.new.board self.new.asserts self.new.known self.new.jobs.items }
    {
        self.board.reached();
        let Worked { job, next } = worked;
        let Job {
            id,
            taken,
            left,
            spent: own,
            state,
        } = job;
        let late = Job {
            id,
            taken: 0,
            left: first.left,
            spent,
            state,
        };
        let Err(gone) = self.board.park(worker, late, Parked::Ready) else {
            return Back::Done;
        };
        let Gone { event, job } = gone;
        let Job { state, .. } = job;
        let job = Job {
            id,
            taken,
            left,
            spent: own,
            state,
        };
        self.keep(worker, Worked { job, next });
        Back::Gone(event)
    }

    /// The worker gives the job of the board's first take back, takes again with a slice of one
    /// step, and reports this as of the first take: both answers. He keeps the second job.
    pub fn report_again(&mut self, alloc: Global, worker: u32) -> Result<[Back; 2], Fail>
        requires { IsPlay self.old.board self.old.asserts self.old.known self.old.jobs.items }
        ensures { OnOk result
            (IsPlay self.new.board self.new.asserts self.new.known self.new.jobs.items) }
    {
        let Some(first) = self.first_take(worker) else {
            return Err(Fail::new("no job of the first take"));
        };
        let back = self.hand_in(worker);
        self.take(alloc, worker, 1)?;
        self.board.reached();
        if !self.board.table().all().is_empty() {
            return Err(Fail::new("something is known already"));
        }
        let Some(worked) = self.fetch(worker) else {
            return Err(Fail::new("nothing was taken"));
        };
        let Some(spent) = spent_since(first, &worked.job) else {
            return Err(Fail::new("another query, or one that asked, or has nothing left"));
        };
        Ok([back, self.report(worker, first, spent, worked)])
    }
}
