//! The walk over the feasible paths.

ghost use Rattle.std.specs.Prelude.{◌≡◌, ◌+◌, ◌<◌, ◌^◌, ◌++◌, ◌∷◌, [], List, ℕ, length, take, replicate, false, None, Some, IfOk, OnOk, IsTrue, slice_get};
ghost use Rattle.linear_formula.specs.LinearSum.{valuation};
ghost use Rattle.flow_graph.specs.Columns.{AreAllValues};
ghost use Rattle.flow_graph.specs.Linked.{AreGraphs};
ghost use Rattle.flow_graph.specs.declared.graph.Graph.{Graph};
ghost use Rattle.summary_form.specs.Musts.{values_of};
ghost use Rattle.path_sweep.specs.Guards.{Stage};
ghost use Rattle.path_sweep.specs.declared.frames.Level.{Level as ALevel};
ghost use Rattle.path_sweep.specs.steps.Frames.{CanFollow, HasNext, IsStage};
ghost use Rattle.path_sweep.specs.steps.Linking.{AreAllLinks, IsFirst};
ghost use Rattle.path_sweep.specs.steps.Walks.{IsAdvanced, IsAsked, IsFilled, IsPoint, IsRefused, IsWalk, answered, left_from, left_in, level_of};

use crate::frames::{Frame, Level, Place};
use crate::links::Following;
use crate::step::{Step, step_over};
use crate::swept::{SweepEnd, Swept};
use c_tree::tree::{AssertId, ProcId};
use flow_graph::graphs::Graphs;
use lia_solver::solve::solve;
use lia_solver::solved::Solved;
use linear_formula::assignment::Assignment;
use linear_formula::error::OutOfMemory;
use linear_formula::formula::{Atoms, Cube};
use linear_formula::question::Question;
use linear_formula::term::Term;
use must_region::error::TrailError;
use must_region::trail::Trail;
use shadow_elim::limit::Kept;
use std::alloc::{AllocError, Global};
use std::mem;

/// Where a walk stands: at a path that was counted. Its guard, inputs and symbols are held once;
/// each level says how many there were before its edge.
#[derive(Drop)]
pub struct Walk {
    pub frame: Frame,
    pub guard: Cube,
    pub inputs: Vec<Term>,
    pub symbols: u32,
    pub levels: Vec<Level>,
    /// The next edge that may follow.
    pub next: Option<usize>,
    pub counted: u32,
    pub found: Vec<Option<Vec<i64>>>,
}

/// What became of a question.
#[derive(Drop)]
enum Asked {
    /// No inputs take the path.
    Never,
    /// At this point its guard holds.
    Point {
        step: Step,
        guard: Cube,
        at: Assignment,
    },
    Limit(Kept),
}

/// A sum of the step is too wide, or memory ran out.
fn refused(error: TrailError) -> Result<Asked, OutOfMemory>
    ensures { IfOk result (λ a. IsRefused error a) }
{
    match error {
        TrailError::Limit(kept) => Ok(Asked::Limit(kept)),
        TrailError::Memory => Err(AllocError),
    }
}

/// What the solver's answer makes of the question with this guard.
fn answered(solved: Solved, step: Step, guard: Cube) -> Asked
    ensures { result ≡ answered solved step guard }
{
    match solved {
        Solved::Never(_) => Asked::Never,
        Solved::Point(at) => Asked::Point { step, guard, at },
        Solved::Limit(limit) => Asked::Limit(Kept {
            question: Question::Cube(guard),
            limit,
        }),
    }
}

/// A prefix of this many atoms.
fn front(cube: Cube, count: usize) -> Cube
    ensures { result.atoms ≡ take count cube.atoms }
{
    let Cube { atoms } = cube;
    let mut items = atoms.into_vec();
    items.truncate(count);
    Cube {
        atoms: Atoms::from_vec(items),
    }
}

/// Adds the values of the terms at a point.
fn push_values(values: &mut Vec<i64>, terms: &[Term], at: &Assignment) -> Result<(), OutOfMemory>
    requires { AreAllValues (values_of (valuation at.now) terms.now) }
    ensures { OnOk result
        (values.new.items ≡ values.old.items ++ values_of (valuation at.now) terms.now) }
{
    for term in terms {
        values.push(term.value(at) as i64)?;
    }
    Ok(())
}

/// Nothing found yet at this many assertions.
fn none_found(alloc: Global, asserts: u32) -> Result<Vec<Option<Vec<i64>>>, OutOfMemory>
    ensures { IfOk result (λ f. f.items ≡ replicate asserts None) }
{
    let mut found = Vec::with_capacity(alloc, asserts as usize)?;
    for _ in 0..asserts {
        found.push(None)?;
    }
    Ok(found)
}

/// The first edge that may follow the frame.
fn first_edge(following: &Following, frame: &Frame) -> Option<usize>
    requires { (gs : List Graph) × (levels : List ALevel) × (stage : Stage)
        × AreAllLinks gs following.now × IsStage gs levels frame.now stage }
    ensures { (gs : List Graph) (levels : List ALevel) (stage : Stage) →
        AreAllLinks gs following.now → IsStage gs levels frame.now stage →
        IsFirst (CanFollow stage) 0 result }
{
    match frame.place {
        Place::Entering => Some(0),
        Place::At(node) => following.first(frame.proc, node),
        Place::Returned | Place::Failed(_) => None,
    }
}

/// The next edge after this one that may follow the frame.
fn next_edge(following: &Following, frame: &Frame, edge: usize) -> Option<usize>
    requires { (gs : List Graph) × (levels : List ALevel) × AreAllLinks gs following.now
        × HasNext gs levels frame.now edge }
    ensures first { (gs : List Graph) (levels : List ALevel) (stage : Stage) →
        AreAllLinks gs following.now → IsStage gs levels frame.now stage → CanFollow stage edge →
        IsFirst (CanFollow stage) (edge + 1) result }
    ensures number { edge < 2 ^ 64 }
{
    match frame.place {
        Place::At(_) => following.next(frame.proc, edge),
        _ => None,
    }
}

impl Walk {
    /// At the path of edge 0 of `main`.
    pub fn begin(
        alloc: Global,
        graphs: &Graphs,
        main: ProcId,
        asserts: u32,
        following: &Following,
    ) -> Result<Walk, OutOfMemory>
        requires main { (g : Graph) × (slice_get graphs.now.graphs main ≡ Some g)
            × (g.params ≡ 0) }
        requires links { AreAllLinks graphs.now.graphs following.now }
        ensures walk { IfOk result (λ w. IsWalk graphs.now.graphs main w) }
        ensures counted { IfOk result (λ w. w.counted ≡ 1) }
        ensures found { IfOk result (λ w. length w.found.items ≡ asserts) }
    {
        let graph = &graphs.graphs.as_slice()[main as usize];
        let found = none_found(alloc, asserts)?;
        let Trail {
            node,
            guard,
            entry,
            slots,
            ..
        } = Trail::begin(alloc, graph)?;
        let guard = guard.to_cube(alloc)?;
        let frame = Frame {
            proc: main,
            place: Place::At(node),
            slots,
            entry,
            caller: None,
        };
        let next = first_edge(following, &frame);
        Ok(Walk {
            frame,
            guard,
            inputs: Vec::new(alloc),
            symbols: 0,
            levels: Vec::new(alloc),
            next,
            counted: 1,
            found,
        })
    }

    /// The question of the path with this edge more.
    fn ask(&self, alloc: Global, graphs: &Graphs, edge: usize) -> Result<Asked, OutOfMemory>
        requires walk { (main : ℕ) × IsWalk graphs.now.graphs main self.now }
        requires next { self.now.next ≡ Some edge }
        ensures { IfOk result
            (λ a. (main : ℕ) (h : IsWalk graphs.now.graphs main self.now) →
            IsAsked graphs.now.graphs main self.now h.now edge a) }
    {
        let levels = self.levels.as_slice();
        let step = match step_over(alloc, graphs, levels, &self.frame, self.symbols, edge) {
            Ok(step) => step,
            Err(error) => return refused(error),
        };
        let guard = self.guard.and(alloc, &step.rows)?;
        let solved = solve(alloc, &guard)?;
        Ok(answered(solved, step, guard))
    }

    /// The path fails at the assertion: its inputs at the point are found, if none were before.
    fn fill(
        &mut self,
        alloc: Global,
        id: AssertId,
        step: &Step,
        at: &Assignment,
    ) -> Result<(), OutOfMemory>
        requires before { AreAllValues (values_of (valuation at.now) self.old.inputs.items) }
        requires read { AreAllValues (values_of (valuation at.now) step.now.read) }
        ensures rest { OnOk result (self.new ≡ record self.old { found = self.new.found }) }
        ensures found { OnOk result (IsFilled id
            (values_of (valuation at.now) (self.old.inputs.items ++ step.now.read))
            self.old.found.items self.new.found.items) }
    {
        let place = id as usize;
        if place < self.found.len() && self.found[place].is_none() {
            let mut values = Vec::new(alloc);
            push_values(&mut values, self.inputs.as_slice(), at)?;
            push_values(&mut values, step.read.as_slice(), at)?;
            self.found[place] = Some(values);
        }
        Ok(())
    }

    /// The path goes on: its longer ones come next.
    fn descend(
        &mut self,
        edge: usize,
        step: Step,
        guard: Cube,
        next: Option<usize>,
    ) -> Result<(), OutOfMemory>
        ensures frame { OnOk result (self.new.frame ≡ step.frame) }
        ensures guard { OnOk result (self.new.guard.atoms ≡ guard.atoms) }
        ensures inputs { OnOk result
            (self.new.inputs.items ≡ self.old.inputs.items ++ step.read) }
        ensures symbols { OnOk result (self.new.symbols ≡ step.symbols) }
        ensures levels { OnOk result
            (self.new.levels.items ≡ self.old.levels.items ++ level_of self.old edge ∷ []) }
        ensures next { OnOk result (self.new.next ≡ next) }
        ensures counted { OnOk result (self.new.counted ≡ self.old.counted) }
        ensures found { OnOk result (self.new.found ≡ self.old.found) }
    {
        let Step {
            frame,
            read,
            symbols,
            ..
        } = step;
        let rows = self.guard.atoms.as_slice().len();
        let before = self.inputs.len();
        let mut read = read.into_vec();
        self.inputs.append(&mut read)?;
        self.levels.push(Level {
            frame: mem::replace(&mut self.frame, frame),
            edge,
            rows,
            read: before,
            symbols: self.symbols,
        })?;
        self.guard = guard;
        self.symbols = symbols;
        self.next = next;
        Ok(())
    }

    /// The path is counted.
    fn count(
        &mut self,
        alloc: Global,
        following: &Following,
        edge: usize,
        step: Step,
        guard: Cube,
        at: &Assignment,
    ) -> Result<(), OutOfMemory>
        requires point { (gs : List Graph) × (main : ℕ) × (h : IsWalk gs main self.old)
            × AreGraphs gs × AreAllLinks gs following.now × (self.old.next ≡ Some edge)
            × IsPoint gs main self.old h.now edge step guard at.now }
        requires few { self.old.counted < 10000 }
        ensures walk { OnOk result
            ((gs : List Graph) (main : ℕ) (h : IsWalk gs main self.old) → AreGraphs gs →
            AreAllLinks gs following.now → self.old.next ≡ Some edge →
            IsPoint gs main self.old h.now edge step guard at.now →
            IsWalk gs main self.new) }
        ensures counted { OnOk result (self.new.counted ≡ self.old.counted + 1) }
        ensures found { OnOk result
            (length self.new.found.items ≡ length self.old.found.items) }
    {
        self.counted += 1;
        match step.frame.place {
            Place::Returned => {
                self.next = next_edge(following, &self.frame, edge);
                Ok(())
            }
            Place::Failed(id) => {
                self.next = next_edge(following, &self.frame, edge);
                self.fill(alloc, id, &step, at)
            }
            _ => {
                let next = first_edge(following, &step.frame);
                self.descend(edge, step, guard, next)
            }
        }
    }

    /// All longer paths are done: the prefix with one edge less goes on. It says whether there was
    /// one.
    fn go_back(&mut self, alloc: Global, following: &Following) -> bool
        requires { (gs : List Graph) × (main : ℕ) × IsWalk gs main self.old × AreGraphs gs
            × AreAllLinks gs following.now × (self.old.next ≡ None) }
        ensures walk { IsTrue result → (gs : List Graph) (main : ℕ) → IsWalk gs main self.old →
            AreGraphs gs → AreAllLinks gs following.now → self.old.next ≡ None →
            IsWalk gs main self.new }
        ensures done { result ≡ false → self.old.levels.items ≡ [] }
        ensures counted { self.new.counted ≡ self.old.counted }
        ensures found { self.new.found ≡ self.old.found }
        ensures less { IsTrue result →
            left_from self.new.next + left_in self.new.levels.items
            < left_in self.old.levels.items }
    {
        let Some(level) = self.levels.pop() else {
            return false
        };
        let Level {
            frame,
            edge,
            rows,
            read,
            symbols,
        } = level;
        let empty = Cube {
            atoms: Atoms::new(alloc),
        };
        self.frame = frame;
        self.guard = front(mem::replace(&mut self.guard, empty), rows);
        self.inputs.truncate(read);
        self.symbols = symbols;
        self.next = next_edge(following, &self.frame, edge);
        true
    }

    /// Goes on to the next feasible path and counts it; or says why there is none.
    pub fn advance(
        &mut self,
        alloc: Global,
        graphs: &Graphs,
        following: &Following,
    ) -> Result<Option<SweepEnd>, OutOfMemory>
        requires walk { (main : ℕ) × IsWalk graphs.now.graphs main self.old }
        requires links { AreAllLinks graphs.now.graphs following.now }
        requires few { self.old.counted < 10000 }
        ensures walk { IfOk result
            (λ o. (main : ℕ) → IsWalk graphs.now.graphs main self.old →
            IsAdvanced graphs.now.graphs main self.old self.new o) }
        ensures found { IfOk result
            (λ _. length self.new.found.items ≡ length self.old.found.items) }
    {
        loop {
            let Some(edge) = self.next else {
                if self.go_back(alloc, following) {
                    continue;
                }
                return Ok(Some(SweepEnd::Whole));
            };
            match self.ask(alloc, graphs, edge)? {
                Asked::Never => self.next = next_edge(following, &self.frame, edge),
                Asked::Point { step, guard, at } => {
                    self.count(alloc, following, edge, step, guard, &at)?;
                    return Ok(None);
                }
                Asked::Limit(kept) => return Ok(Some(SweepEnd::Limit(kept))),
            }
        }
    }

    /// What was found, with this end.
    pub fn into_swept(self, end: SweepEnd) -> Swept
        ensures found { result.found ≡ self.found }
        ensures end { result.end ≡ end }
    {
        let Walk { found, .. } = self;
        Swept { found, end }
    }
}
