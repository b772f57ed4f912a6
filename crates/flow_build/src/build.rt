//! The graphs of a program.

ghost use Rattle.std.specs.Prelude.{◌≡◌, ◌+◌, ◌<◌, ◌≤◌, ◌^◌, ◌∷◌, ◌++◌, [], length, slice_get, Some, pos, IfOk, OnOk, IsTrue};
ghost use Rattle.c_tree.specs.Syntax.{PureProcedure, PureProgram};
ghost use Rattle.c_tree.specs.View.{procedure_of};
ghost use Rattle.c_tree.specs.Whole.{program_of};
ghost use Rattle.c_tree.specs.WellFormed.{is_well_formed_procedure, all_linear, statements_divide_by_literals, DividesByLiterals};
ghost use Rattle.flow_graph.specs.Columns.{AreAllValues};
ghost use Rattle.flow_graph.specs.declared.graph.Edge.TheVariants.{Entry, Assign, Return};
ghost use Rattle.flow_build.specs.steps.Building.{statements_literals_fit};
ghost use Rattle.flow_build.specs.steps.Operands.{constant_lin};
ghost use Rattle.flow_build.specs.steps.Blocks.{edges_of, opening_blocks};
ghost use Rattle.flow_build.specs.steps.Layouts.{global_slots};
ghost use Rattle.flow_build.specs.steps.Procedures.{IsGraphWith, IsGraphOf, Makes, Made};
ghost use Rattle.flow_build.specs.Lowered.{AreLowered};
ghost use Rattle.flow_build.specs.Promises.{AreBounded};
ghost use Rattle.flow_graph.specs.ProgramGraphs.{SameRuns};

use crate::branch::FAIL_NODE;
use crate::builder::Builder;
use crate::layout::{Layout, with_globals};
use crate::linear::constant_lin;
use crate::statement::{EXIT_NODE, Exits, Frame, RETURN_NODE, block};
use c_tree::tree::{Procedure, Program};
use flow_graph::graph::{Edge, Edges, Graph};
use flow_graph::graphs::{GraphList, Graphs};
use linear_formula::error::OutOfMemory;
use linear_formula::formula::{Atoms, Cube};
use std::alloc::{AllocError, Global};

/// The fixed node after the end of the body.
const END_NODE: u32 = 2;

/// The fixed node to which the entry leads. No other edge leads there.
const ENTRY_NODE: u32 = 4;

/// The fixed node at which the body begins.
const BODY_NODE: u32 = 5;

/// The first node that isn't fixed.
const FIRST_FREE: u32 = 6;

/// The opening values of the globals, from a node to another one.
fn open(b: &mut Builder, alloc: Global, opening: &[i64]) -> Result<(), AllocError>
    requires room { b.old.next + length opening.now < 2 ^ 32 }
    ensures edges { OnOk result (b.new.edges.items ≡ b.old.edges.items ++ edges_of
        (opening_blocks 4 5 b.old.next 0 opening.now)) }
    ensures next { OnOk result (b.new.next ≡ b.old.next + length opening.now) }
    ensures values { OnOk result (AreAllValues opening.now) }
{
    let mut node = ENTRY_NODE;
    let mut slot = 0;
    for value in opening {
        let to = b.node();
        b.push(Edge::Assign {
            from: node,
            to,
            slot,
            value: constant_lin(alloc, *value),
        })?;
        node = to;
        slot += 1;
    }
    let rows = Cube {
        atoms: Atoms::new(alloc),
    };
    b.push(Edge::Guard {
        from: node,
        to: BODY_NODE,
        rows,
    })
}

/// The edges round the body: a frame begins there, and returns 0 at the body's end.
fn begin(
    b: &mut Builder,
    alloc: Global,
    entries: u32,
    layout: Layout,
    free: u32,
    opening: &[i64],
) -> Result<(), AllocError>
    requires few { length opening.now ≤ 16 }
    requires next { b.old.next ≡ 6 }
    requires edges { b.old.edges.items ≡ [] }
    ensures edges { OnOk result (b.new.edges.items ≡ Entry 4 entries
        ∷ (edges_of (opening_blocks 4 5 6 0 opening.now) ++
        Assign 2 3 free (constant_lin (pos 0)) ∷ Return 3 0 (free ∷ global_slots layout) ∷ [])) }
    ensures next { OnOk result (b.new.next ≡ 6 + length opening.now) }
    ensures values { OnOk result (AreAllValues opening.now) }
{
    b.push(Edge::Entry {
        to: ENTRY_NODE,
        params: entries,
    })?;
    open(b, alloc, opening)?;
    b.push(Edge::Assign {
        from: END_NODE,
        to: RETURN_NODE,
        slot: free,
        value: constant_lin(alloc, 0),
    })?;
    let slots = with_globals(alloc, free, layout)?;
    b.push(Edge::Return {
        from: RETURN_NODE,
        to: EXIT_NODE,
        slots,
    })
}

/// All edges of a procedure. The result is the first slot that it doesn't take.
fn lower(
    b: &mut Builder,
    alloc: Global,
    procedure: &Procedure,
    layout: Layout,
    entries: u32,
    opening: &[i64],
) -> Result<u32, AllocError>
    requires sound { (program : PureProgram)
        × (length program.globals ≡ layout.globals)
        × IsTrue (is_well_formed_procedure program (procedure_of procedure.now)) }
    requires divides { IsTrue (statements_divide_by_literals (procedure_of procedure.now).body) }
    requires params { layout.params ≡ procedure.now.params }
    requires few { layout.globals ≤ 16 }
    requires opens { length opening.now ≤ layout.globals }
    requires next { b.old.next ≡ 6 }
    requires edges { b.old.edges.items ≡ [] }
    ensures makes { IfOk result (λ free. Makes layout.globals opening.now entries
        (procedure_of procedure.now) b.new free) }
    ensures literals { OnOk result
        (IsTrue (statements_literals_fit (procedure_of procedure.now).body)) }
    ensures values { OnOk result (AreAllValues opening.now) }
{
    let free = procedure.slots + u32::from(layout.globals);
    begin(b, alloc, entries, layout, free, opening)?;
    let frame = Frame {
        gives: procedure.gives,
        layout,
        free,
    };
    let exits = Exits {
        to: END_NODE,
        on_break: END_NODE,
        on_continue: END_NODE,
    };
    let reached = block(b, alloc, &procedure.body, frame, BODY_NODE, exits)?;
    Ok(reached.max(free + 1))
}

/// The graph of a procedure, with the given number of entry values.
fn graph(
    alloc: Global,
    procedure: &Procedure,
    globals: u8,
    entries: u32,
    opening: &[i64],
) -> Result<Graph, OutOfMemory>
    requires sound { (program : PureProgram)
        × (length program.globals ≡ globals)
        × IsTrue (is_well_formed_procedure program (procedure_of procedure.now)) }
    requires linear { IsTrue (all_linear (procedure_of procedure.now).body) }
    requires divides { IsTrue (statements_divide_by_literals (procedure_of procedure.now).body) }
    requires few { globals ≤ 16 }
    requires opens { length opening.now ≤ globals }
    requires enters { entries ≤ procedure.now.params + globals }
    ensures graph { IfOk result (λ g. IsGraphWith globals opening.now entries
        (procedure_of procedure.now) g) }
    ensures literals { OnOk result
        (IsTrue (statements_literals_fit (procedure_of procedure.now).body)) }
    ensures values { OnOk result (AreAllValues opening.now) }
{
    let layout = Layout {
        params: procedure.params as u8,
        globals,
    };
    let mut b = Builder {
        edges: Vec::new(alloc),
        next: FIRST_FREE,
    };
    let slots = lower(&mut b, alloc, procedure, layout, entries, opening)?;
    let Builder { edges, next } = b;
    Ok(Graph::new(
        next,
        EXIT_NODE,
        FAIL_NODE,
        entries,
        1 + u32::from(globals),
        slots,
        Edges::from_vec(edges),
    ))
}

/// The graph of the procedure of this number: `main` sets the globals, and has no entry values.
fn numbered_graph(alloc: Global, program: &Program, number: usize) -> Result<Graph, OutOfMemory>
    requires number { number < length program.now.procedures.items }
    requires divides { DividesByLiterals (program_of program.now) }
    ensures graph { IfOk result (λ g. (p : PureProcedure) →
        slice_get (program_of program.now).procedures number ≡ Some p →
        IsGraphOf (program_of program.now) number p g) }
    ensures literals { OnOk result ((p : PureProcedure) →
        slice_get (program_of program.now).procedures number ≡ Some p →
        IsTrue (statements_literals_fit p.body)) }
    ensures opening { OnOk result (number ≡ program.now.main →
        AreAllValues program.now.globals.items) }
{
    let procedure = &program.procedures[number];
    let globals = program.globals.len() as u8;
    if number == program.main as usize {
        graph(alloc, procedure, globals, 0, &program.globals)
    } else {
        let entries = procedure.params + u32::from(globals);
        graph(alloc, procedure, globals, entries, &[])
    }
}

/// The graphs of all procedures.
fn push_graphs(graphs: &mut Vec<Graph>, alloc: Global, program: &Program) -> Result<(), OutOfMemory>
    requires none { graphs.old.items ≡ [] }
    requires divides { DividesByLiterals (program_of program.now) }
    ensures { OnOk result (Made (program_of program.now) (length program.now.procedures.items)
        graphs.new.items) }
{
    for number in 0..program.procedures.len() {
        let graph = numbered_graph(alloc, program, number)?;
        graphs.push(graph)?;
    }
    Ok(())
}

/// The control-flow graphs of a program's procedures, one for each, with the same numbers. Their
/// runs are those of the program, with equal depth, entry list, inputs and end.
pub fn build(alloc: Global, program: &Program) -> Result<Graphs, OutOfMemory>
    requires divisors { DividesByLiterals (program_of program.now) }
    ensures runs { IfOk result (λ g. SameRuns (program_of program.now) g.graphs) }
    ensures bounds { IfOk result (λ g. AreBounded (program_of program.now) g.graphs) }
    ensures built { IfOk result (λ g. AreLowered (program_of program.now) g.graphs) }
{
    let mut graphs = Vec::with_capacity(alloc, program.procedures.len())?;
    push_graphs(&mut graphs, alloc, program)?;
    Ok(Graphs::new(GraphList::from_vec(graphs)))
}
