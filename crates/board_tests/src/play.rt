//! A board beside the jobs that are out, each of a worker, who makes the slice as soon as he takes
//! it and gives it back when asked to.

ghost use Rattle.std.specs.Prelude.{◌≡◌, IfOk, IfSome, OnOk};
ghost use Rattle.board_lock.specs.Views.{StartsWith};
ghost use Rattle.bolt_core.specs.Boards.{Shown};
ghost use Rattle.bolt_rounds.specs.Moves.{IsJustTaken, MayBeShown, MayMove};
ghost use Rattle.board_tests.specs.Plays.{IsOpened, IsPlay, MayTake};

use crate::programs::board_of;
use bolt_core::board::Board;
use bolt_core::job::{Gone, Job, Parked, Taken};
use bolt_rounds::moves::{Move, Worked, hand_in, spare_of, work_on};
use linear_formula::error::OutOfMemory;
use punch_step::memo::Memos;
use query_rules::step::Closing;
use std::alloc::Global;
use std::sync::Arc;
use std::test::Fail;
use summary_form::summary::Summary;
use summary_table::table::Table;

/// How a job is to be given back.
#[derive(Clone, Copy, PartialEq, Eq)]
pub enum How {
    Ask,
    Feed(u32),
    Ready,
    Blocked,
    Starved,
    NotMay,
    Must,
    Stuck,
}

/// What a take gave, and how the slice of the job ended.
#[derive(Clone, Copy, PartialEq, Eq)]
pub enum Took {
    Job {
        id: u32,
        left: u32,
        steps: u32,
        how: How,
    },
    Idle,
    Over,
}

/// What became of a job that was given back.
#[derive(Clone, Copy, PartialEq, Eq)]
pub enum Back {
    Done,
    /// The place of the event that ended it.
    Gone(u64),
    /// The worker had none.
    None,
}

/// What is out of the worker of number i stands at place i of `jobs`.
#[derive(Drop)]
pub struct Play {
    pub board: Board,
    pub asserts: u32,
    pub known: Table,
    pub memos: Memos,
    pub jobs: Vec<Option<Worked>>,
}

fn how_of(next: &Move) -> How {
    match next {
        Move::Ask { .. } => How::Ask,
        Move::Feed { asked } => How::Feed(*asked),
        Move::Park(Parked::Ready) => How::Ready,
        Move::Park(Parked::Blocked) => How::Blocked,
        Move::Park(Parked::Starved) => How::Starved,
        Move::Close { how, .. } => match how {
            Closing::NotMay => How::NotMay,
            Closing::Must(_) => How::Must,
            Closing::Stuck(_) => How::Stuck,
        },
    }
}

/// Makes the slice of a job that was just taken.
fn worked_of(
    alloc: Global,
    memos: &mut Memos,
    board: &Board,
    known: &Table,
    job: Job,
    at_most: u32,
) -> Result<Worked, Fail>
    ghost shown: { Shown }
    requires shown { board.now ≡ shown }
    requires known { known.now.summaries ≡ board.now.core.table }
    requires job { IsJustTaken board.now job }
    ensures { IfOk result (λ w. MayMove board.now w.job w.next) }
{
    if at_most == 0 {
        return Err(Fail::new("no step"));
    }
    board.reached();
    Ok(work_on(alloc, memos, board.graphs(), known, job, at_most)?)
}

/// What may be published of a job whose slice was made, if it is gone.
fn spare_in(board: &Board, worked: &Worked) -> Result<Option<Arc<Summary>>, OutOfMemory>
    ghost shown: { Shown }
    requires shown { board.now ≡ shown }
    requires may { MayMove board.now worked.now.job worked.now.next }
    ensures { IfOk result (λ o. IfSome o (λ s. MayBeShown board.now worked.now.job s.value)) }
{
    board.reached();
    spare_of(worked)
}

/// What the summary at this place says.
fn kind_at(table: &Table, place: usize) -> Option<How> {
    let all = table.all();
    if place >= all.len() {
        return None;
    }
    match &*all[place] {
        Summary::NotMay(_) => Some(How::NotMay),
        Summary::Must(_) => Some(How::Must),
    }
}

impl Play {
    /// A board that just opened, and four workers without a job.
    pub fn at(alloc: Global, board: Board, asserts: u32) -> Result<Play, Fail>
        requires { IsOpened board asserts }
        ensures { IfOk result (λ p. IsPlay p.board p.asserts p.known p.jobs.items) }
    {
        let known = Table::with_room(alloc, board.room())?;
        let memos = Memos::new(alloc)?;
        let jobs = vec![in alloc; None, None, None, None]?;
        Ok(Play {
            board,
            asserts,
            known,
            memos,
            jobs,
        })
    }

    /// The board of a program with this budget, and four workers without a job.
    pub fn begin(alloc: Global, text: &str, budget: u32) -> Result<Play, Fail>
        ensures { IfOk result (λ p. IsPlay p.board p.asserts p.known p.jobs.items) }
    {
        let (board, asserts) = board_of(alloc, text, budget)?;
        Play::at(alloc, board, asserts)
    }

    /// Keeps a job that is out.
    pub fn keep(&mut self, worker: u32, worked: Worked)
        requires job { MayMove self.old.board worked.job worked.next }
        requires stands { IsPlay self.old.board self.old.asserts self.old.known
            self.old.jobs.items }
        ensures board { self.new.board ≡ self.old.board }
        ensures stands { IsPlay self.new.board self.new.asserts self.new.known self.new.jobs.items }
    {
        let place = worker as usize;
        if place < self.jobs.len() {
            self.jobs[place] = Some(worked);
        }
    }

    /// The job of this worker, which is kept no longer.
    pub fn fetch(&mut self, worker: u32) -> Option<Worked>
        requires { IsPlay self.old.board self.old.asserts self.old.known self.old.jobs.items }
        ensures board { self.new.board ≡ self.old.board }
        ensures may { IfSome result (λ w. MayMove self.old.board w.job w.next) }
        ensures stands { IsPlay self.new.board self.new.asserts self.new.known self.new.jobs.items }
    {
        let place = worker as usize;
        if place < self.jobs.len() {
            self.jobs[place].take()
        } else {
            None
        }
    }

    /// A take of a board whose table is known.
    fn take_one(&mut self, worker: u32) -> Result<Taken, OutOfMemory>
        requires { IsPlay self.old.board self.old.asserts self.old.known self.old.jobs.items }
        ensures may { IfOk result (MayTake self.new.board self.new.known.summaries) }
        ensures more { OnOk result
            (StartsWith self.new.board.core.history self.old.board.core.history) }
        ensures stands { OnOk result
            (IsPlay self.new.board self.new.asserts self.new.known self.new.jobs.items) }
    {
        self.board.reached();
        self.board.bring(&mut self.known)?;
        Ok(self.board.take(worker, &self.known))
    }

    /// The worker takes a query, makes a slice of at most `at_most` steps, and keeps the job.
    pub fn take(&mut self, alloc: Global, worker: u32, at_most: u32) -> Result<Took, Fail>
        requires { IsPlay self.old.board self.old.asserts self.old.known self.old.jobs.items }
        ensures more { OnOk result
            (StartsWith self.new.board.core.history self.old.board.core.history) }
        ensures stands { OnOk result
            (IsPlay self.new.board self.new.asserts self.new.known self.new.jobs.items) }
    {
        match self.take_one(worker)? {
            Taken::Over => Ok(Took::Over),
            Taken::Idle => Ok(Took::Idle),
            Taken::Job(job) => {
                let left = job.left;
                let worked = worked_of(
                    alloc,
                    &mut self.memos,
                    &self.board,
                    &self.known,
                    job,
                    at_most,
                )?;
                let took = Took::Job {
                    id: worked.job.id,
                    left,
                    steps: worked.job.spent,
                    how: how_of(&worked.next),
                };
                self.keep(worker, worked);
                Ok(took)
            }
        }
    }

    /// The worker gives his job back.
    pub fn hand_in(&mut self, worker: u32) -> Back
        requires { IsPlay self.old.board self.old.asserts self.old.known self.old.jobs.items }
        ensures more { StartsWith self.new.board.core.history self.old.board.core.history }
        ensures stands { IsPlay self.new.board self.new.asserts self.new.known self.new.jobs.items }
    {
        let Some(worked) = self.fetch(worker) else {
            return Back::None;
        };
        self.board.reached();
        match hand_in(&mut self.board, worker, worked) {
            Ok(()) => Back::Done,
            Err(gone) => Back::Gone(gone.event),
        }
    }

    /// Publishes a summary of a gone job. How many there are then.
    fn say(
        &mut self,
        worker: u32,
        gone: &Gone,
        summary: &Arc<Summary>,
    ) -> Result<usize, OutOfMemory>
        requires say { MayBeShown self.old.board gone.now.job summary.now.value }
        requires stands { IsPlay self.old.board self.old.asserts self.old.known
            self.old.jobs.items }
        ensures say { OnOk result (MayBeShown self.new.board gone.now.job summary.now.value) }
        ensures stands { OnOk result
            (IsPlay self.new.board self.new.asserts self.new.known self.new.jobs.items) }
    {
        let own = summary.clone()?;
        self.board.reached();
        self.board.publish(worker, gone, own);
        Ok(self.board.table().all().len())
    }

    /// The worker gives his job back, and where it is gone publishes what it closed with, twice.
    /// How many summaries there are before, between and after, and what the first of them that is
    /// new says.
    pub fn hand_in_late(&mut self, worker: u32) -> Result<(Back, [usize; 3], Option<How>), Fail>
        requires { IsPlay self.old.board self.old.asserts self.old.known self.old.jobs.items }
        ensures { OnOk result
            (IsPlay self.new.board self.new.asserts self.new.known self.new.jobs.items) }
    {
        let Some(worked) = self.fetch(worker) else {
            return Ok((Back::None, [0; 3], None));
        };
        let Some(summary) = spare_in(&self.board, &worked)? else {
            return Err(Fail::new("nothing to publish"));
        };
        self.board.reached();
        let before = self.board.table().all().len();
        let Err(gone) = hand_in(&mut self.board, worker, worked) else {
            return Err(Fail::new("the job isn't gone"));
        };
        let between = self.say(worker, &gone, &summary)?;
        let behind = self.say(worker, &gone, &summary)?;
        let kind = kind_at(self.board.table(), before);
        Ok((Back::Gone(gone.event), [before, between, behind], kind))
    }

    pub fn stop(&mut self, worker: u32)
        requires { IsPlay self.old.board self.old.asserts self.old.known self.old.jobs.items }
        ensures { IsPlay self.new.board self.new.asserts self.new.known self.new.jobs.items }
    {
        self.board.reached();
        self.board.stop(worker);
    }
}
