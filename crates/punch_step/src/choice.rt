//! The atoms by which a source is split. Nothing is promised of them: they are confirmed.

ghost use Rattle.std.specs.Prelude.{◌≢◌, []};
ghost use Rattle.must_region.specs.Traces.{trace_of};
ghost use Rattle.punch_step.specs.Sights.{ReadsStart};

use crate::cut::{Cutting, cut_off};
use crate::induction::induced_atoms;
use crate::memo::Memos;
use flow_graph::graph::Graph;
use flow_graph::graphs::Graphs;
use lia_solver::entails::entails;
use lia_solver::solved::Entailed;
use linear_formula::assignment::Assignment;
use linear_formula::error::OutOfMemory;
use linear_formula::formula::{Atom, Atoms, Cube};
use linear_formula::shared::SharedCube;
use must_region::trail::Trail;
use query_rules::state::QueryState;
use std::alloc::Global;
use summary_form::query::Query;

/// What a choice is made by: the state, its graph, the source that is split, and the trail and the
/// point that mark it.
#[derive(Clone, Copy)]
pub struct Choice<'a> {
    pub state: &'a QueryState,
    pub graphs: &'a Graphs,
    pub graph: &'a Graph,
    /// The number of the source.
    pub from: u32,
    pub query: &'a Query,
    pub trail: &'a Trail,
    pub point: &'a Assignment,
    pub source: &'a Cube,
}

/// Whether the rows entail the atom.
pub fn is_entailed(alloc: Global, rows: &Cube, atom: &Atom) -> Result<bool, OutOfMemory> {
    let mut atoms = Atoms::with_capacity(alloc, 1)?;
    atoms.push(atom.copy(alloc)?)?;
    match entails(alloc, rows, &Cube { atoms })? {
        Entailed::Yes(_) => Ok(true),
        Entailed::No(_) | Entailed::Limit(_) => Ok(false),
    }
}

/// Atoms that are chosen by induction, if there are some.
pub fn induced(
    alloc: Global,
    memos: &mut Memos,
    choice: &Choice,
    pre: &Cube,
) -> Result<Option<Cube>, OutOfMemory>
    requires start { ReadsStart choice.now.query.now (trace_of choice.now.trail.now) }
{
    if choice.from == 0 || pre.atoms.as_slice().is_empty() {
        return Ok(None);
    }
    induced_atoms(alloc, memos, choice, pre)
}

/// A few atoms of the preimage that the mark doesn't meet.
fn few(
    alloc: Global,
    memos: &mut Memos,
    choice: &Choice,
    pre: &Cube,
) -> Result<Option<Cube>, OutOfMemory>
    requires start { ReadsStart choice.now.query.now (trace_of choice.now.trail.now) }
    requires several { pre.now.atoms ≢ [] }
{
    let source = SharedCube::of(alloc, choice.source)?;
    let questions = &mut memos.questions;
    match cut_off(
        alloc,
        questions,
        choice.query,
        choice.trail,
        choice.point,
        &source,
        pre,
    )? {
        Cutting::By(cut) => Ok(Some(cut.atoms)),
        Cutting::Met | Cutting::Limit(_) => Ok(None),
    }
}

/// Atoms that are chosen by induction, or else a few of the preimage's.
pub fn chosen(
    alloc: Global,
    memos: &mut Memos,
    choice: &Choice,
    pre: &Cube,
) -> Result<Option<Cube>, OutOfMemory>
    requires start { ReadsStart choice.now.query.now (trace_of choice.now.trail.now) }
{
    if choice.from == 0 || pre.atoms.as_slice().is_empty() {
        return Ok(None);
    }
    match induced_atoms(alloc, memos, choice, pre)? {
        Some(atoms) => Ok(Some(atoms)),
        None => few(alloc, memos, choice, pre),
    }
}
