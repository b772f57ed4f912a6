//! What became of the roots of a board.

ghost use Rattle.std.specs.Prelude.{◌≡◌, ◌<◌, IfOk, Some, false, true};
ghost use Rattle.linear_formula.specs.LinearSum.{valuation};
ghost use Rattle.flow_graph.specs.Columns.{AreAllValues};
ghost use Rattle.summary_form.specs.Musts.{values_of};
ghost use Rattle.bolt_core.specs.Histories.{closed_as};
ghost use Rattle.bolt_core.specs.Machine.{is_over};
ghost use Rattle.bolt_core.specs.States.{reads};
ghost use Rattle.bolt_core.specs.Verdicts.{HasVerdict, IsFoundIn};
ghost use Rattle.bolt_core.specs.declared.slot.ClosedAs.TheVariants as how;
ghost use Rattle.bolt_core.specs.steps.Targets.{AreInputsAt, HasTargetMark};

use crate::board::Board;
use crate::job::Verdict;
use crate::slot::ClosedAs;
use flow_graph::graph::Graph;
use linear_formula::assignment::Assignment;
use linear_formula::error::OutOfMemory;
use linear_formula::term::Term;
use query_rules::state::QueryState;
use std::alloc::Global;

/// The values of terms at a point.
fn values_at(alloc: Global, terms: &[Term], point: &Assignment) -> Result<Vec<i64>, OutOfMemory>
    requires { AreAllValues (values_of (valuation point.now) terms.now) }
    ensures { IfOk result (λ values. values.items ≡ values_of (valuation point.now) terms.now) }
{
    let mut values = Vec::with_capacity(alloc, terms.len())?;
    for term in terms {
        let value = term.value(point) as i64;
        values.push(value)?;
    }
    Ok(values)
}

/// The inputs at the first mark of the target of a query that asks for a failure.
fn inputs_found(alloc: Global, graph: &Graph, state: &QueryState) -> Result<Vec<i64>, OutOfMemory>
    requires { HasTargetMark graph.now state.now }
    ensures { IfOk result (λ list. AreInputsAt graph.now state.now list.items) }
{
    prove!(graph.fail < graph.nodes);
    let target = graph.fail + 1;
    for mark in state.marks() {
        if mark.region == target {
            let trail = &state.trails()[mark.trail as usize];
            return values_at(alloc, trail.inputs.as_slice(), &mark.point);
        }
    }
    unreachable!()
}

impl Board {
    /// The inputs at a mark of the target of a root that closed as a must.
    fn inputs_of(&self, alloc: Global, root: u32) -> Result<Vec<i64>, OutOfMemory>
        requires root { root < self.now.asserts }
        requires must { closed_as self.now.core.history root ≡ Some how.Must }
        ensures { IfOk result (λ list. IsFoundIn self.now root list.items) }
    {
        let graph = &self.graphs.graphs.as_slice()[self.main as usize];
        match self.forest.payload(root) {
            Some(state) => inputs_found(alloc, graph, state),
            None => unreachable!(),
        }
    }

    /// The verdict of the root of this number, once the board is over: whether its query closed,
    /// and how, or was left open with its budget spent.
    pub fn verdict(&self, alloc: Global, root: u32) -> Result<Verdict, OutOfMemory>
        requires over { is_over (reads self.now.graphs) self.now.core ≡ true }
        requires going { self.now.core.is_stopped ≡ false }
        requires root { root < self.now.asserts }
        ensures { IfOk result (HasVerdict self.now root) }
    {
        let Some(closed) = self.slots[root as usize].closed else {
            return Ok(Verdict::Budget(self.budget));
        };
        match closed {
            ClosedAs::NotMay { .. } => Ok(Verdict::Proved),
            ClosedAs::Must => Ok(Verdict::Found(self.inputs_of(alloc, root)?)),
            ClosedAs::Stuck(kind) => Ok(Verdict::Limit(kind)),
        }
    }
}
