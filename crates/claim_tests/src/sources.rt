//! The graphs of a program.

ghost use Rattle.std.specs.Prelude.{IfOk};
ghost use Rattle.c_tree.specs.WellFormed.{DividesByLiterals};
ghost use Rattle.c_tree.specs.Whole.{program_of};
ghost use Rattle.flow_graph.specs.ProgramGraphs.{SameRuns};
ghost use Rattle.summary_form.specs.ProgramGraphs.{SameArities};

use c_tree::tree::Program;
use flow_build::build::build;
use flow_graph::graphs::Graphs;
use linear_formula::error::OutOfMemory;
use std::alloc::Global;

/// The graphs of a program, as a check of its bundles wants them.
pub fn graphs(alloc: Global, program: &Program) -> Result<Graphs, OutOfMemory>
    requires { DividesByLiterals (program_of program.now) }
    ensures runs { IfOk result (λ g. SameRuns (program_of program.now) g.graphs) }
    ensures arities { IfOk result (λ g. SameArities (program_of program.now) g.graphs) }
{
    build(alloc, program)
}
