//! A board keeps one history, so that a lock can stand round it.

use crate::board::Board;
use crate::event::Event;
use board_lock::Chronicle;
use c_tree::tree::ProcId;
use flow_graph::graph::Graph;
use std::collections::LinkedList;
use std::marker::Model;
use summary_form::query::Query;
use summary_form::summary::Summary;

/// What never changes of a board, for contracts alone: no value of it is made.
pub struct Program {
    pub graphs: LinkedList<Graph>,
    pub main: ProcId,
    pub asserts: u32,
    pub budget: u32,
    pub kept: LinkedList<Summary>,
}

/// An event with the queries and the table that it names, for contracts alone: no value of it is
/// made. To them it is what it records.
pub struct Telling {
    pub event: Event,
    pub queries: LinkedList<Query>,
    pub summaries: LinkedList<Summary>,
}

impl Model for Telling {
    ghost use Rattle.std.specs.Coded.{codes};
    ghost use Rattle.infeasible_cert.specs.contracts.certificate.Certificate as e;
    ghost use Rattle.bolt_core.specs.Boards.{told_by};
    ghost use Rattle.bolt_core.specs.Histories.{Told};

    ghost Value = { Told };

    ghost coded = { Prim.hlevel (codes, e.the_row.coded) };

    ghost view = { λ t. told_by t.queries t.summaries t.event };
}

impl Chronicle for Board {
    type Program = Program;

    type Event = Telling;

    ghost program = { λ b. record {
      graphs = b.graphs;
      main = b.main;
      asserts = b.asserts;
      budget = b.budget;
      kept = b.core.kept;
    } };

    ghost events = { λ b. b.core.history };

    fn count(&self) -> u64 {
        self.events.len() as u64
    }
}

fn can_be_sent<T: Send>(_value: &T) {}

/// A board is `Send`: the body is refused otherwise. It does nothing.
pub fn board_is_sent(board: &Board) {
    can_be_sent(board);
}
