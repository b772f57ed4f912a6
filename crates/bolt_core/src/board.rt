//! The board.

ghost use Rattle.std.specs.Prelude.{◌≡◌, ◌≤◌, ◌<◌, ◌+◌, ◌*◌, ℕ, List, IfOk, OnOk, Some, length, map, slice_get, vec_capacity};
ghost use Rattle.flow_graph.specs.declared.graph.Graph.{Graph as AGraph};
ghost use Rattle.bolt_core.specs.Boards.{IsBegun, IsBegunWith, IsOneOf, IsRootOf, SameProgram, Stops, root_query};
ghost use Rattle.bolt_core.specs.States.{reads};
ghost use Rattle.summary_form.specs.declared.summary.Summary.{Summary as ASummary};
ghost use Rattle.summary_table.specs.Tables.{IsNumbered, StartsWith, exit_of, proc_of};
ghost use Rattle.summary_table.specs.declared.keys.TheConstants.{MAX_PROCEDURES};
ghost use Rattle.bolt_core.specs.Machine.{AllOf, HoldsBy, is_over};
ghost use Rattle.bolt_core.specs.steps.Begun.{AreBegun};

use crate::event::Event;
use crate::slot::Slot;
use c_tree::tree::ProcId;
use flow_graph::graphs::Graphs;
use linear_formula::error::OutOfMemory;
use linear_formula::formula::{Atoms, Cube};
use query_rules::state::{QueryState, begin_state};
use query_tree::{Forest, QueryId};
use std::alloc::Global;
use std::marker::Model;
use std::sync::Arc;
use summary_form::query::{ExitKind, Query};
use summary_form::summary::Summary;
use summary_table::table::Table;

/// Queries with their states and budgets, summaries, and all that happened. No call but `begin`,
/// `begin_with`, `bring` and `verdict` takes memory.
#[derive(Drop)]
pub struct Board {
    pub(crate) graphs: Arc<Graphs>,
    pub(crate) main: ProcId,
    pub(crate) asserts: u32,
    pub(crate) budget: u32,
    pub(crate) forest: Forest<QueryState>,
    pub(crate) slots: Vec<Slot>,
    pub(crate) table: Table,
    pub(crate) kept: Vec<Arc<Summary>>,
    pub(crate) origins: Vec<QueryId>,
    pub(crate) events: Vec<Event>,
    pub(crate) stopped: bool,
}

impl Model for Board {
    ghost use Rattle.std.specs.Prelude.{map, vec_capacity};
    ghost use Rattle.std.specs.Coded.{codes};
    ghost use Rattle.infeasible_cert.specs.contracts.certificate.Certificate as e;
    ghost use Rattle.bolt_core.specs.Boards.{IsBoard, IsRoomy, Shown, core_of};
    ghost use Rattle.bolt_core.specs.Origins.{HasTraced};

    ghost Value = { Shown };

    ghost coded = { Prim.hlevel (codes, e.the_row.coded) };

    ghost view = { λ b. record {
      graphs = b.graphs.value.graphs;
      main = b.main;
      asserts = b.asserts;
      budget = b.budget;
      core = core_of (map (λ a. a.value) b.kept.items) b.forest.entries b.slots.items
          b.table.summaries b.events.items b.stopped;
    } };

    ghost invariant = { λ b.
        IsBoard (record {
          graphs = b.graphs.value.graphs;
          main = b.main;
          asserts = b.asserts;
          budget = b.budget;
          core = core_of (map (λ a. a.value) b.kept.items) b.forest.entries b.slots.items
              b.table.summaries b.events.items b.stopped;
        })
        × IsRoomy (record {
          graphs = b.graphs.value.graphs;
          main = b.main;
          asserts = b.asserts;
          budget = b.budget;
          core = core_of (map (λ a. a.value) b.kept.items) b.forest.entries b.slots.items
              b.table.summaries b.events.items b.stopped;
        })
        b.slots.items b.events.items b.forest.room b.table.room (vec_capacity b.slots)
        (vec_capacity b.events)
        × HasTraced (record {
          graphs = b.graphs.value.graphs;
          main = b.main;
          asserts = b.asserts;
          budget = b.budget;
          core = core_of (map (λ a. a.value) b.kept.items) b.forest.entries b.slots.items
              b.table.summaries b.events.items b.stopped;
        })
        b.origins.items (vec_capacity b.origins) };
}

/// What is asked of an assertion: is there a run of `main` that fails at it?
fn root_query(alloc: Global, main: ProcId, id: u32) -> Query
    ensures { result ≡ root_query main id }
{
    let start = Cube {
        atoms: Atoms::new(alloc),
    };
    let end = Cube {
        atoms: Atoms::new(alloc),
    };
    Query {
        proc: main,
        exit: ExitKind::Fail(id),
        start,
        end,
    }
}

/// The query of the root of an assertion, and its state.
fn root_of(
    alloc: Global,
    graphs: &Graphs,
    main: ProcId,
    id: u32,
) -> Result<(Arc<Query>, QueryState), OutOfMemory>
    requires { (g : AGraph) × (slice_get graphs.now.graphs main ≡ Some g) }
    ensures query { IfOk result (λ r. r.0.value ≡ root_query main id) }
    ensures state { IfOk result (λ r. IsRootOf graphs.now.graphs main id r.1) }
{
    let query = Arc::new(alloc, root_query(alloc, main, id))?;
    let own = query.clone()?;
    let state = begin_state(alloc, graphs, query, 0, Vec::new(alloc))?;
    Ok((own, state))
}

/// The roots of a board, and what is kept of their queries.
#[derive(Drop)]
struct Roots {
    forest: Forest<QueryState>,
    slots: Vec<Slot>,
}

/// A root for each assertion, with room for all queries that may come.
fn roots_of(
    alloc: Global,
    graphs: &Graphs,
    main: ProcId,
    asserts: u32,
    budget: u32,
) -> Result<Roots, OutOfMemory>
    requires main { (g : AGraph) × (slice_get graphs.now.graphs main ≡ Some g) }
    requires asserts { asserts ≤ 64 }
    requires some { 1 ≤ budget }
    requires most { budget ≤ 20000 }
    ensures begun { IfOk result (λ r. (known : List ASummary) →
        AreBegun graphs.now.graphs main budget asserts known r.forest.entries r.slots.items) }
    ensures room { IfOk result (λ r. r.forest.room ≡ asserts * budget + asserts) }
    ensures slots { IfOk result (λ r. asserts * budget + asserts ≤ vec_capacity r.slots) }
{
    let room = asserts * budget + asserts;
    let mut forest = Forest::with_room(alloc, room)?;
    let mut slots = Vec::with_capacity(alloc, room as usize)?;
    for id in 0..asserts {
        let (query, state) = root_of(alloc, graphs, main, id)?;
        forest.add_root(budget, state);
        slots.push_reserved(Slot {
            parent: None,
            level: 0,
            query,
            closed: None,
            summary: None,
            published: None,
            said: false,
        });
    }
    Ok(Roots { forest, slots })
}

/// A table that opens with the summaries, and has so much room besides.
fn opened(alloc: Global, room: u32, kept: &[Arc<Summary>]) -> Result<Table, OutOfMemory>
    requires room { room + length kept.now < 4294967296 }
    requires numbers { (i : ℕ) (s : ASummary) →
        slice_get (map (λ a. a.value) kept.now) i ≡ Some s → IsNumbered (proc_of s) (exit_of s) }
    ensures summaries { IfOk result (λ t. t.summaries ≡ map (λ a. a.value) kept.now) }
    ensures room { IfOk result (λ t. t.room ≡ length kept.now + room) }
{
    let mut table = Table::with_room(alloc, room + kept.len() as u32)?;
    for place in 0..kept.len() {
        table.push(kept[place].clone()?);
    }
    Ok(table)
}

impl Board {
    /// A board with one root for each assertion, on `main` with no condition and this budget, and
    /// with all the room that it ever needs. There are at most 64 graphs and 64 assertions, and the
    /// budget is between 1 and 20,000 steps.
    pub fn begin(
        alloc: Global,
        graphs: Arc<Graphs>,
        main: ProcId,
        asserts: u32,
        budget: u32,
    ) -> Result<Board, OutOfMemory>
        requires small { length graphs.value.graphs ≤ MAX_PROCEDURES }
        requires main { (g : AGraph) × (slice_get graphs.value.graphs main ≡ Some g) }
        requires asserts { asserts ≤ 64 }
        requires some { 1 ≤ budget }
        requires most { budget ≤ 20000 }
        ensures { IfOk result (λ b. IsBegun graphs.value.graphs main asserts budget b) }
    {
        Board::begin_with(alloc, graphs, main, asserts, budget, Vec::new(alloc))
    }

    /// The same with summaries that are known to hold: its table opens with them, in order, and has
    /// room for all that may come besides. They are at most 2,000,000, each of a procedure of these
    /// graphs, and one of a failure is of one of these assertions.
    pub fn begin_with(
        alloc: Global,
        graphs: Arc<Graphs>,
        main: ProcId,
        asserts: u32,
        budget: u32,
        kept: Vec<Arc<Summary>>,
    ) -> Result<Board, OutOfMemory>
        requires small { length graphs.value.graphs ≤ MAX_PROCEDURES }
        requires main { (g : AGraph) × (slice_get graphs.value.graphs main ≡ Some g) }
        requires asserts { asserts ≤ 64 }
        requires some { 1 ≤ budget }
        requires most { budget ≤ 20000 }
        requires few { length kept.items ≤ 2000000 }
        requires named { AllOf (IsOneOf (length graphs.value.graphs) asserts)
            (map (λ a. a.value) kept.items) }
        requires hold { AllOf (HoldsBy (reads graphs.value.graphs))
            (map (λ a. a.value) kept.items) }
        ensures { IfOk result
            (λ b. IsBegunWith graphs.value.graphs main asserts budget
            (map (λ a. a.value) kept.items)
            b) }
    {
        let room = asserts * budget + asserts;
        let origins = Vec::with_capacity(alloc, room as usize)?;
        let events = Vec::with_capacity(alloc, 16 * (room as usize))?;
        let table = opened(alloc, room, &kept)?;
        let roots = roots_of(alloc, &graphs, main, asserts, budget)?;
        Ok(Board {
            graphs,
            main,
            asserts,
            budget,
            forest: roots.forest,
            slots: roots.slots,
            table,
            kept,
            origins,
            events,
            stopped: false,
        })
    }

    /// Whether each root is closed, or all that is open in its tree is Starved.
    pub fn over(&self) -> bool
        ensures { result ≡ is_over (reads self.now.graphs) self.now.core }
    {
        !self.forest.has_live()
    }

    /// Whether the board was stopped.
    pub fn stopped(&self) -> bool
        ensures { result ≡ self.now.core.is_stopped }
    {
        self.stopped
    }

    /// The graphs that the board is about.
    pub fn graphs(&self) -> &Arc<Graphs>
        ensures { result.now.value.graphs ≡ self.now.graphs }
    {
        &self.graphs
    }

    /// Brings a table up to the board's. It is no event. After lack of memory the table is still a
    /// front of the board's.
    pub fn bring(&self, known: &mut Table) -> Result<(), OutOfMemory>
        requires front { StartsWith self.now.core.table known.old.summaries }
        requires room { length self.now.core.table ≤ known.old.room }
        ensures room { known.new.room ≡ known.old.room }
        ensures same { OnOk result (known.new.summaries ≡ self.now.core.table) }
        ensures front { StartsWith self.now.core.table known.new.summaries }
    {
        known.catch_up(&self.table)
    }

    /// After it no query is taken. Where each root is over, or the board was stopped before, it
    /// changes nothing and is no event.
    pub fn stop(&mut self, worker: u32)
        ensures same { SameProgram self.old self.new }
        ensures stopped { Stops self.old worker self.new }
    {
        if self.stopped || self.over() {
            return;
        }
        self.events.push_reserved(Event::Stop { worker });
        self.stopped = true;
    }
}
