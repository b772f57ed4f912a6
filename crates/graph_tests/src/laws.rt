//! Laws of programs and their graphs. These functions compute nothing: their contracts say what
//! holds.

ghost use Rattle.graph_tests.specs.Laws.{ProgramsReturnValues, AnsweredInPrograms};

/// Runs of a program that has graphs take and return values.
pub fn programs_return_values()
    ensures { ProgramsReturnValues }
{}

/// A query that a not-may answers has no run in a program that has graphs.
pub fn answered_in_programs()
    ensures { AnsweredInPrograms }
{}
