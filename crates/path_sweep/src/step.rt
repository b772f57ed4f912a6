//! One edge more.

ghost use Rattle.std.specs.Prelude.{◌≡◌, [], false, length, map, IfOk, IfErr, IsTrue, None, Some};
ghost use Rattle.shadow_elim.specs.Projection.{IfRefused};
ghost use Rattle.shadow_elim.specs.RightLimit.{IsRight};
ghost use Rattle.shadow_elim.specs.Sums.{first_wide, IsFirstWide};
ghost use Rattle.flow_graph.specs.Linked.{AreGraphs};
ghost use Rattle.flow_graph.specs.Readings.{term_at};
ghost use Rattle.flow_graph.specs.Shapes.{source, is_call};
ghost use Rattle.flow_graph.specs.WellFormed.{first_node, has_slots, max_slots};
ghost use Rattle.summary_form.specs.Symbols.{is_symbol_column, all_name_only};
ghost use Rattle.must_region.specs.Rules.{extended, sums_of};
ghost use Rattle.must_region.specs.Traces.{trace_of};
ghost use Rattle.path_sweep.specs.Guards.{Stage, Waiting, opened};
ghost use Rattle.path_sweep.specs.steps.Frames.{bare_trace, HasNext, HasWaiting, IsBack, IsBehind, IsStage, IsStep, IsWaiting, IsWideStep};

use crate::frames::{Frame, Level, Place};
use crate::terms::{padded, terms_at, with_terms};
use c_tree::tree::ProcId;
use flow_graph::graph::{Edge, Graph, Slots};
use flow_graph::graphs::Graphs;
use linear_formula::error::OutOfMemory;
use linear_formula::formula::{Atoms, Cube};
use linear_formula::shared::SharedCube;
use must_region::error::TrailError;
use must_region::trail::Trail;
use std::alloc::Global;
use summary_form::path::Terms;

/// What an edge adds to a path: the frame after it, its rows, the inputs that are read over it,
/// and how many symbols there are after it.
#[derive(Drop)]
pub struct Step {
    pub frame: Frame,
    pub rows: Cube,
    pub read: Terms,
    pub symbols: u32,
}

/// No rows.
fn no_rows(alloc: Global) -> Cube
    ensures { result.atoms ≡ [] }
{
    Cube {
        atoms: Atoms::new(alloc),
    }
}

/// A step without rows and inputs.
fn bare(alloc: Global, frame: Frame, symbols: u32) -> Step
    ensures frame { result.frame ≡ frame }
    ensures rows { result.rows.atoms ≡ [] }
    ensures read { result.read ≡ [] }
    ensures symbols { result.symbols ≡ symbols }
{
    Step {
        frame,
        rows: no_rows(alloc),
        read: Terms::from_vec(Vec::new(alloc)),
        symbols,
    }
}

/// Over edge 0: the frame stands at the node after it.
fn over_entry(alloc: Global, graph: &Graph, frame: &Frame) -> Result<Frame, OutOfMemory>
    ensures { IfOk result
        (λ f. f ≡ record frame.now { place = Place.At (first_node graph.now.edges) }) }
{
    let slots = frame.slots.copy(alloc)?;
    let entry = frame.entry.copy(alloc)?;
    Ok(Frame {
        proc: frame.proc,
        place: Place::At(graph.edges.as_slice()[0].target()),
        slots,
        entry,
        caller: frame.caller,
    })
}

/// Over a call: a frame begins, with the terms of the arguments in its first slots and 0 in the
/// others.
fn over_call(
    alloc: Global,
    graph: &Graph,
    frame: &Frame,
    proc: ProcId,
    args: &Slots,
    level: usize,
) -> Result<Frame, OutOfMemory>
    requires { length args.now ≡ graph.now.params }
    ensures { IfOk result
        (λ f. f ≡ record {
          proc = proc;
          place = Place.Entering;
          slots = opened graph.now (map (term_at frame.now.slots) args.now);
          entry = map (term_at frame.now.slots) args.now;
          caller = Some level;
        }) }
{
    let entry = terms_at(alloc, frame.slots.as_slice(), args.as_slice())?;
    let slots = padded(alloc, &entry, graph.slots)?;
    Ok(Frame {
        proc,
        place: Place::Entering,
        slots,
        entry,
        caller: Some(level),
    })
}

/// After a return: the frame that called goes on, with the returned terms in the slots of the
/// results.
fn returned(
    alloc: Global,
    graphs: &[Graph],
    waiting: &Level,
    terms: &Terms,
) -> Result<Frame, OutOfMemory>
    requires { (w : Waiting) × IsWaiting graphs.now waiting.now w }
    ensures { IfOk result
        (λ f. (w : Waiting) → IsWaiting graphs.now waiting.now w →
        IsBack f waiting.now w terms.now) }
{
    let Level { frame, edge, .. } = waiting;
    match &graphs[frame.proc as usize].edges.as_slice()[*edge] {
        Edge::Call { to, results, .. } => {
            let slots = with_terms(alloc, &frame.slots, results.as_slice(), terms.as_slice())?;
            let entry = frame.entry.copy(alloc)?;
            Ok(Frame {
                proc: frame.proc,
                place: Place::At(*to),
                slots,
                entry,
                caller: frame.caller,
            })
        }
        _ => unreachable!(),
    }
}

/// The trail over an edge that is no call, from the frame alone.
fn trail_over(
    alloc: Global,
    frame: &Frame,
    symbols: u32,
    node: u32,
    edge: &Edge,
) -> Result<Trail, TrailError>
    requires no_call { is_call edge.now ≡ false }
    requires leaves { source edge.now ≡ Some node }
    requires slots { IsTrue (has_slots max_slots edge.now) }
    requires slot_names { IsTrue (all_name_only (is_symbol_column symbols) frame.now.slots) }
    requires entry_names { IsTrue (all_name_only (is_symbol_column symbols) frame.now.entry) }
    ensures trail { IfOk result
        (λ t. trace_of t
        ≡ extended (bare_trace symbols node frame.now.slots frame.now.entry) edge.now) }
    ensures decided { IfOk result
        (λ _. first_wide (sums_of (bare_trace symbols node frame.now.slots frame.now.entry)
        edge.now) ≡ None) }
    ensures limit { IfErr result
        (λ e. IfRefused e
        (IsFirstWide (sums_of (bare_trace symbols node frame.now.slots frame.now.entry)
        edge.now))) }
    ensures right { IfErr result (λ e. IfRefused e IsRight) }
{
    let entry = frame.entry.copy(alloc)?;
    let slots = frame.slots.copy(alloc)?;
    let trail = Trail {
        node,
        symbols,
        guard: SharedCube::new(alloc),
        entry,
        inputs: Terms::from_vec(Vec::new(alloc)),
        slots,
        failed: None,
    };
    trail.extend(alloc, edge)
}

/// The frame after an edge that is no call, where this is the trail over it.
fn behind(
    alloc: Global,
    graphs: &[Graph],
    levels: &[Level],
    frame: &Frame,
    edge: &Edge,
    trail: &Trail,
) -> Result<Frame, OutOfMemory>
    requires { HasWaiting graphs.now levels.now frame.now.caller }
    ensures { IfOk result
        (λ f. IsBehind graphs.now levels.now frame.now edge.now (trace_of trail.now) f) }
{
    let place = match (edge, frame.caller) {
        (Edge::Assert { id, .. }, _) => Place::Failed(*id),
        (Edge::Return { .. }, Some(level)) => {
            return returned(alloc, graphs, &levels[level], &trail.slots);
        }
        (Edge::Return { .. }, None) => Place::Returned,
        _ => Place::At(trail.node),
    };
    let slots = trail.slots.copy(alloc)?;
    let entry = trail.entry.copy(alloc)?;
    Ok(Frame {
        proc: frame.proc,
        place,
        slots,
        entry,
        caller: frame.caller,
    })
}

/// Over an edge that leaves the node of the frame.
fn over_edge(
    alloc: Global,
    graphs: &[Graph],
    levels: &[Level],
    frame: &Frame,
    symbols: u32,
    node: u32,
    number: usize,
) -> Result<Step, TrailError>
    requires linked { AreGraphs graphs.now }
    requires at { frame.now.place ≡ Place.At node }
    requires follows { HasNext graphs.now levels.now frame.now number }
    requires slot_names { IsTrue (all_name_only (is_symbol_column symbols) frame.now.slots) }
    requires entry_names { IsTrue (all_name_only (is_symbol_column symbols) frame.now.entry) }
    ensures step { IfOk result
        (λ s. (stage : Stage) → IsStage graphs.now levels.now frame.now stage →
        IsStep graphs.now levels.now frame.now symbols number s stage) }
    ensures limit { IfErr result
        (λ e. IfRefused e (λ kept. (stage : Stage) → IsStage graphs.now levels.now frame.now stage →
        IsWideStep graphs.now symbols number kept stage)) }
    ensures right { IfErr result (λ e. IfRefused e IsRight) }
{
    let edge = &graphs[frame.proc as usize].edges.as_slice()[number];
    if let Edge::Call { proc, args, .. } = edge {
        let graph = &graphs[*proc as usize];
        let next = over_call(alloc, graph, frame, *proc, args, levels.len())?;
        return Ok(bare(alloc, next, symbols));
    }
    let trail = trail_over(alloc, frame, symbols, node, edge)?;
    let next = behind(alloc, graphs, levels, frame, edge, &trail)?;
    let Trail {
        symbols,
        guard,
        inputs,
        ..
    } = trail;
    let rows = guard.to_cube(alloc)?;
    Ok(Step {
        frame: next,
        rows,
        read: inputs,
        symbols,
    })
}

/// Over the edge of this number, which may follow the frame. The limit is that of the first of its
/// sums that is too wide.
pub fn step_over(
    alloc: Global,
    graphs: &Graphs,
    levels: &[Level],
    frame: &Frame,
    symbols: u32,
    edge: usize,
) -> Result<Step, TrailError>
    requires follows { HasNext graphs.now.graphs levels.now frame.now edge }
    requires slot_names { IsTrue (all_name_only (is_symbol_column symbols) frame.now.slots) }
    requires entry_names { IsTrue (all_name_only (is_symbol_column symbols) frame.now.entry) }
    ensures step { IfOk result
        (λ s. (stage : Stage) → IsStage graphs.now.graphs levels.now frame.now stage →
        IsStep graphs.now.graphs levels.now frame.now symbols edge s stage) }
    ensures limit { IfErr result
        (λ e. IfRefused e (λ kept. (stage : Stage) →
        IsStage graphs.now.graphs levels.now frame.now stage →
        IsWideStep graphs.now.graphs symbols edge kept stage)) }
    ensures right { IfErr result (λ e. IfRefused e IsRight) }
{
    let graphs = graphs.graphs.as_slice();
    match frame.place {
        Place::Entering => {
            let next = over_entry(alloc, &graphs[frame.proc as usize], frame)?;
            Ok(bare(alloc, next, symbols))
        }
        Place::At(node) => over_edge(alloc, graphs, levels, frame, symbols, node, edge),
        Place::Returned | Place::Failed(_) => unreachable!(),
    }
}
