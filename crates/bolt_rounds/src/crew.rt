//! The workers of a run in rounds, and their jobs in a round.

ghost use Rattle.std.specs.Prelude.{IfOk};
ghost use Rattle.bolt_rounds.specs.steps.Places.{IsNewCrew};

use crate::moves::Made;
use bolt_core::job::Job;
use linear_formula::error::OutOfMemory;
use outer_io::Gate;
use std::alloc::Global;
use summary_table::table::Table;

/// How far a job has come.
#[derive(Drop)]
pub(crate) enum Stage {
    Taken(Job),
    Made(Made),
    /// There was no memory for its slice.
    Failed,
}

/// A worker's job in a round.
#[derive(Drop)]
pub(crate) struct Place {
    pub(crate) worker: u32,
    /// The number of the call that took it.
    pub(crate) call: u64,
    pub(crate) stage: Stage,
}

/// How many calls each worker made.
#[derive(Drop)]
pub(crate) struct Calls {
    counts: [u64; 16],
}

impl Calls {
    pub(crate) fn none() -> Calls {
        Calls { counts: [0; 16] }
    }

    /// Passes the gate before the worker's next call, and answers the number of that call.
    pub(crate) fn begin<G: Gate>(&mut self, gate: &G, worker: u32) -> u64 {
        let call = match self.counts.get_mut(worker as usize) {
            Some(count) => {
                *count = count.wrapping_add(1);
                *count
            }
            None => 0,
        };
        gate.pass(worker, call, false);
        call
    }
}

/// The workers of a run, with what they share.
#[derive(Drop)]
pub(crate) struct Crew {
    pub(crate) workers: u32,
    /// The board's table, as far as it was brought.
    pub(crate) known: Table,
    /// The jobs of this round, in order of the workers.
    pub(crate) places: Vec<Place>,
}

impl Crew {
    /// Workers without jobs, who know no summary of a table with this room.
    pub(crate) fn begin(alloc: Global, workers: u32, room: u32) -> Result<Crew, OutOfMemory>
        ensures { IfOk result (IsNewCrew workers room) }
    {
        let known = Table::with_room(alloc, room)?;
        let places = Vec::with_capacity(alloc, workers as usize)?;
        Ok(Crew {
            workers,
            known,
            places,
        })
    }
}
