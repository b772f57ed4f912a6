//! Jobs that are given back: asked, fed and parked.

ghost use Rattle.std.specs.Prelude.{◌≡◌, ◌<◌, IfOk, MatchOption, MatchResult, length};
ghost use Rattle.bolt_core.specs.Boards.{IsFedBy, IsGone, IsStored, MayAsk, MayBeParked, MayFeed, SameProgram};
ghost use Rattle.bolt_core.specs.Histories.{WasTaken, asked, parked};
ghost use Rattle.bolt_core.specs.Keeps.{IsFirstEnd, IsNow};
ghost use Rattle.bolt_core.specs.Machine.{Event as IsEvent, told_child};
ghost use Rattle.bolt_core.specs.States.{reads};
ghost use Rattle.bolt_core.specs.steps.Ends.{is_dropped_by, is_end};

use crate::board::Board;
use crate::event::Event;
use crate::job::{Gone, Job, Parked};
use crate::slot::Slot;
use query_rules::state::QueryState;
use query_tree::{Lent, QueryId, Status};
use std::sync::Arc;
use summary_form::query::Query;

/// Whether the event at this place gave back, closed or dropped the query, whose status is this.
pub(crate) fn is_end(event: &Event, place: u64, id: QueryId, status: Status) -> bool
    ensures { result ≡ is_end place id status event.now }
{
    match event {
        Event::Ask { id: own, .. }
        | Event::Feed { id: own, .. }
        | Event::Park { id: own, .. }
        | Event::Close { id: own, .. } => id == *own || is_dropped_by(status, place),
        _ => is_dropped_by(status, place),
    }
}

fn is_dropped_by(status: Status, place: u64) -> bool
    ensures { result ≡ is_dropped_by place status }
{
    match status {
        Status::Dropped { stamp } => stamp == place,
        _ => false,
    }
}

impl Board {
    /// The place of the first event after the take that gave back, closed or dropped the query, if
    /// there is one. It looks at the events since the take.
    pub(crate) fn ended(&self, id: QueryId, taken: u64) -> Option<u64>
        requires taken { WasTaken self.now.core.history id taken }
        requires here { id < length self.now.core.entries }
        ensures { MatchOption result (IsNow self.now.core id taken)
            (λ event. IsFirstEnd self.now.core id taken event) }
    {
        let status = self.forest.status(id);
        for place in taken as usize + 1..self.events.len() {
            if is_end(&self.events[place], place as u64, id, status) {
                return Some(place as u64);
            }
        }
        None
    }

    /// Gives a job back: to be taken again, to wait until a child closes or becomes Starved, or
    /// since nothing is left of it.
    pub fn park(&mut self, worker: u32, job: Job, rest: Parked) -> Result<(), Gone>
        requires job { MayBeParked self.old job rest }
        ensures same { SameProgram self.old self.new }
        ensures parked { MatchResult result
            (λ _. IsEvent (reads self.old.graphs) self.old.core
            (parked worker job.id job.spent rest) self.new.core)
            (λ gone. IsGone self.old self.new job gone) }
        ensures stored { IfOk result (λ _. IsStored self.new job.id job.state) }
        ensures current { IfOk result (λ _. IsNow self.old.core job.id job.taken) }
    {
        if let Some(event) = self.ended(job.id, job.taken) {
            return Err(Gone { event, job });
        }
        let Job {
            id,
            left,
            spent,
            state,
            ..
        } = job;
        let lent = Lent {
            id,
            left,
            waiting: self.forest.waiting(id),
            payload: state,
        };
        let Ok(()) = self.forest.give_back(lent, spent, rest) else {
            unreachable!();
        };
        self.events.push_reserved(Event::Park {
            worker,
            id,
            spent,
            rest,
        });
        Ok(())
    }

    /// Feeds the child of the asked query of this number, which is the job's last step.
    pub fn feed(&mut self, worker: u32, job: Job, asked: u32) -> Result<(), Gone>
        requires job { MayFeed self.old job asked }
        ensures same { SameProgram self.old self.new }
        ensures fed { MatchResult result (λ _. IsFedBy self.old worker job asked self.new)
            (λ gone. IsGone self.old self.new job gone) }
        ensures stored { IfOk result (λ _. IsStored self.new job.id job.state) }
        ensures current { IfOk result (λ _. IsNow self.old.core job.id job.taken) }
    {
        if let Some(event) = self.ended(job.id, job.taken) {
            return Err(Gone { event, job });
        }
        let Job {
            id,
            left,
            spent,
            state,
            ..
        } = job;
        let child = state.asked()[asked as usize].child;
        let lent = Lent {
            id,
            left,
            waiting: self.forest.waiting(id),
            payload: state,
        };
        let Ok(()) = self.forest.feed(lent, spent, child) else {
            unreachable!();
        };
        self.events.push_reserved(Event::Feed {
            worker,
            id,
            spent,
            child,
        });
        Ok(())
    }

    /// Asks: the child becomes a query, and the job's last asked entry gets its number.
    pub fn ask(
        &mut self,
        worker: u32,
        job: Job,
        child: QueryState,
        query: Arc<Query>,
    ) -> Result<(), Gone>
        requires job { MayAsk self.old job child query.value }
        ensures same { SameProgram self.old self.new }
        ensures asked { MatchResult result
            (λ _. IsEvent (reads self.old.graphs) self.old.core
            (asked worker job.id job.spent (length self.old.core.entries) query.value)
            self.new.core)
            (λ gone. IsGone self.old self.new job gone) }
        ensures stored { IfOk result (λ _. IsStored self.new job.id
            (told_child (reads self.old.graphs) job.state (length self.old.core.entries))) }
        ensures current { IfOk result (λ _. IsNow self.old.core job.id job.taken) }
    {
        if let Some(event) = self.ended(job.id, job.taken) {
            return Err(Gone { event, job });
        }
        let Job {
            id,
            left,
            spent,
            mut state,
            ..
        } = job;
        let number = self.slots.len() as u32;
        let level = self.slots[id as usize].level + 1;
        let last = state.asked().len() as u32 - 1;
        state.await_child(last, number);
        let lent = Lent {
            id,
            left,
            waiting: self.forest.waiting(id),
            payload: state,
        };
        let Ok(_) = self.forest.ask(lent, spent, child) else {
            unreachable!();
        };
        self.slots.push_reserved(Slot {
            parent: Some(id),
            level,
            query,
            closed: None,
            summary: None,
            published: None,
            said: false,
        });
        self.events.push_reserved(Event::Ask {
            worker,
            id,
            spent,
            child: number,
        });
        Ok(())
    }
}
