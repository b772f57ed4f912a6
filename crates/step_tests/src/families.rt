//! A caller and what it calls, and the query whether the caller's assertion fails.

ghost use Rattle.std.specs.Prelude.{IfOk};
ghost use Rattle.query_rules.specs.States.{AllHold};
ghost use Rattle.step_tests.specs.Chained.{BeginsWith};
ghost use Rattle.step_tests.specs.Ready.{IsFitting, IsReady};

use crate::made::begins_with;
use crate::ready::begun_below;
use flow_graph::graphs::Graphs;
use query_rules::state::QueryState;
use std::alloc::{AllocError, Global};
use std::sync::Arc;
use std::test::Fail;
use summary_form::query::{ExitKind, Query};
use summary_table::table::Table;
use test_forms::edges::{Does, Step};
use test_forms::graphs::Shape;
use test_forms::kept::Counts;
use test_forms::rows::{Row, empty};

/// Without parameters, and with two slots.
const CALLER: Counts = Counts {
    nodes: 5,
    params: 0,
    exits: 1,
    slots: 2,
};

const CALLEE: Counts = Counts {
    nodes: 7,
    params: 1,
    exits: 1,
    slots: 3,
};

/// Slot 0 is 2.
const AT_TWO: [Row; 2] = [(&[(1, 0)], -2), (&[(-1, 0)], 2)];

const READS: Step = (2, 3, Does::Input(0));

const CALLS: Step = (
    3,
    4,
    Does::Call {
        proc: 1,
        args: &[0],
        results: &[1],
    },
);

/// It fails where what the call returns is 40.
const FAILS_AT_40: &[Step] = &[
    READS,
    CALLS,
    (4, 1, Does::Assert(0, &[(&[(1, 1)], -40), (&[(-1, 1)], 40)])),
    (4, 0, Does::Return(&[1])),
];

/// It fails where that is 140.
const FAILS_AT_140: &[Step] = &[
    READS,
    CALLS,
    (
        4,
        1,
        Does::Assert(0, &[(&[(1, 1)], -140), (&[(-1, 1)], 140)]),
    ),
    (4, 0, Does::Return(&[1])),
];

/// It reads an input of at most 99, and returns it if the argument is 2, else 0.
const RETURNS_INPUTS: &[Step] = &[
    (2, 3, Does::Input(1)),
    (3, 4, Does::Guard(&AT_TWO)),
    (4, 5, Does::Guard(&[(&[(1, 1)], -99)])),
    (5, 0, Does::Return(&[1])),
    (3, 6, Does::Guard(&[(&[(1, 0)], -1)])),
    (3, 6, Does::Guard(&[(&[(-1, 0)], 3)])),
    (6, 0, Does::Return(&[2])),
];

const RETURNING: Shape = Shape {
    counts: CALLEE,
    steps: RETURNS_INPUTS,
};

/// The caller reads an input, calls procedure 1 with it, and fails where what that returns is 40.
/// The callee returns inputs of at most 99.
pub const MEETING: [Shape; 2] = [
    Shape {
        counts: CALLER,
        steps: FAILS_AT_40,
    },
    RETURNING,
];

/// The same, where the caller fails at 140, which the callee never returns.
pub const MISSING: [Shape; 2] = [
    Shape {
        counts: CALLER,
        steps: FAILS_AT_140,
    },
    RETURNING,
];

/// Asks whether the caller's assertion fails.
fn failing(alloc: Global, graphs: &Graphs) -> Query
    requires { BeginsWith graphs.now.graphs 0 }
    ensures { IsFitting graphs.now.graphs result }
{
    let start = empty(alloc);
    let end = empty(alloc);
    Query {
        proc: 0,
        exit: ExitKind::Fail(0),
        start,
        end,
    }
}

fn begun_failing(alloc: Global, graphs: &Graphs, table: &Table) -> Result<QueryState, AllocError>
    requires begins { BeginsWith graphs.now.graphs 0 }
    requires holds { AllHold graphs.now.graphs table.now.summaries }
    ensures { IfOk result (λ s. IsReady graphs.now.graphs table.now.summaries s) }
{
    let query = Arc::new(alloc, failing(alloc, graphs))?;
    begun_below(alloc, graphs, table, query, 0, Vec::new(alloc))
}

/// The state of that query without steps, for a table whose summaries hold.
pub fn begun_root(alloc: Global, graphs: &Graphs, table: &Table) -> Result<QueryState, Fail>
    requires { AllHold graphs.now.graphs table.now.summaries }
    ensures { IfOk result (λ s. IsReady graphs.now.graphs table.now.summaries s) }
{
    if !begins_with(graphs, 0) {
        return Err(Fail::new("no procedure without parameters"));
    }
    Ok(begun_failing(alloc, graphs, table)?)
}

/// The same for the table of a state that is ready.
pub fn begun_beside(
    alloc: Global,
    graphs: &Graphs,
    table: &Table,
    beside: &QueryState,
) -> Result<QueryState, Fail>
    requires { IsReady graphs.now.graphs table.now.summaries beside.now }
    ensures { IfOk result (λ s. IsReady graphs.now.graphs table.now.summaries s) }
{
    let _ = beside.level();
    begun_root(alloc, graphs, table)
}
