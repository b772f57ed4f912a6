//! Jobs that are taken.

ghost use Rattle.std.specs.Prelude.{◌≡◌, ◌<◌, length};
ghost use Rattle.bolt_core.specs.Boards.{CanHear, Gives, SameProgram, closed_news, hears, news_at};

use crate::board::Board;
use crate::event::Event;
use crate::job::{Job, Taken};
use crate::slot::ClosedAs;
use query_rules::state::QueryState;
use query_rules::step::News;
use query_tree::{Lent, QueryId, Status};
use summary_table::table::Table;

/// The news of a query that was closed so.
fn closed_news(closed: ClosedAs) -> News
    ensures { result ≡ closed_news closed }
{
    match closed {
        ClosedAs::NotMay { lowest } => News::NotMay { lowest },
        ClosedAs::Must => News::Must,
        ClosedAs::Stuck(kind) => News::Stuck(kind),
    }
}

impl Board {
    /// The news of a query, if it isn't dropped.
    fn news_of(&self, id: QueryId) -> Option<News>
        requires { id < length self.now.core.entries }
        ensures { result ≡ news_at self.now.core id }
    {
        match self.forest.status(id) {
            Status::Ready | Status::Running | Status::Blocked => Some(News::Waiting),
            Status::Starved => Some(News::Starved),
            Status::Closed => self.slots[id as usize].closed.map(closed_news),
            Status::Dropped { .. } => None,
        }
    }

    /// Tells a state the news of its children.
    fn hear(&self, state: &mut QueryState)
        requires { CanHear self.now state.old }
        ensures { state.new ≡ hears self.now.core state.old }
    {
        for number in 0..state.asked().len() {
            let child = state.asked()[number].child;
            if let Some(news) = self.news_of(child) {
                state.tell(number as u32, child, news);
            }
        }
    }

    /// Takes a Ready query, and gives its state the news of its children. `Over` comes exactly
    /// where each root is over or the board was stopped, and `Idle` where it isn't over and no
    /// query is Ready. `known` holds the same list as the board's table.
    pub fn take(&mut self, worker: u32, known: &Table) -> Taken
        requires known { known.now.summaries ≡ self.old.core.table }
        ensures same { SameProgram self.old self.new }
        ensures taken { Gives self.old worker self.new result }
    {
        if self.stopped || self.over() {
            return Taken::Over;
        }
        let Some(lent) = self.forest.take() else {
            return Taken::Idle;
        };
        let Lent {
            id,
            left,
            waiting,
            payload: mut state,
        } = lent;
        let taken = self.events.len() as u64;
        self.events.push_reserved(Event::Take {
            worker,
            id,
            left,
            steps: state.steps().len() as u32,
            waiting,
        });
        self.hear(&mut state);
        Taken::Job(Job {
            id,
            taken,
            left,
            spent: 0,
            state,
        })
    }
}
