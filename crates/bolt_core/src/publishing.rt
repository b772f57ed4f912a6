//! Summaries of queries that were dropped while they were at work.

ghost use Rattle.std.specs.Prelude.{◌≡◌, ◌<◌, length, Some, false, slice_get, true};
ghost use Rattle.bolt_core.specs.Boards.{MayBeSaid, Publishes, SameProgram};
ghost use Rattle.bolt_core.specs.Groups.{Node as ANode};
ghost use Rattle.summary_table.specs.Tables.{exit_of, proc_of};
ghost use Rattle.bolt_core.specs.Machine.{HoldsBy};
ghost use Rattle.bolt_core.specs.States.{reads};

use crate::board::Board;
use crate::event::Event;
use crate::job::Gone;
use query_tree::{QueryId, Status};
use std::sync::Arc;
use summary_form::summary::Summary;

impl Board {
    /// Whether the query was dropped while it was at work, and nothing was published of it since.
    fn may_say(&self, id: QueryId) -> bool
        requires { id < length self.now.core.entries }
        ensures yes { result ≡ true → MayBeSaid self.now id }
        ensures no { result ≡ false → ¬ MayBeSaid self.now id }
    {
        match self.forest.status(id) {
            Status::Dropped { .. } => {
                self.forest.payload(id).is_none() && !self.slots[id as usize].said
            }
            _ => false,
        }
    }

    /// Appends the summary to the table where the query of the job was dropped while it was at
    /// work, and nothing was published of it since; else it changes nothing and is no event. The
    /// summary holds by itself, and is of the query's procedure and exit kind.
    pub fn publish(&mut self, worker: u32, gone: &Gone, summary: Arc<Summary>)
        requires here { gone.now.job.id < length self.old.core.nodes }
        requires holds { HoldsBy (reads self.old.graphs) summary.value }
        requires fits { (n : ANode) → slice_get self.old.core.nodes gone.now.job.id ≡ Some n →
            (proc_of summary.value ≡ n.query.proc)
            × (exit_of summary.value ≡ n.query.exit) }
        ensures same { SameProgram self.old self.new }
        ensures published { Publishes self.old worker gone.now.job.id summary.value self.new }
    {
        let id = gone.job.id;
        if !self.may_say(id) {
            return;
        }
        self.slots[id as usize].said = true;
        let place = self.table.all().len() as u32;
        self.table.push(summary);
        self.events
            .push_reserved(Event::Publish { worker, id, place });
        self.origins.push_reserved(id);
    }
}
