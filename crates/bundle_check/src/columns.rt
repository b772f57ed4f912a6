//! Which columns the rows of a claim may name.

ghost use Rattle.std.specs.Prelude.{◌≡◌};
ghost use Rattle.flow_graph.specs.Columns.{is_entry_column, names_only, rows_name_only};
ghost use Rattle.bundle_check.specs.steps.Names.{is_allowed, is_exit_column};

use flow_graph::columns::{FIRST_ENTRY, FIRST_EXIT};
use linear_formula::formula::Atom;
use linear_formula::term::Term;

/// How many slots, entry values and exit values a row may name.
#[derive(Clone, Copy)]
pub struct Allowed {
    pub slots: u32,
    pub entries: u32,
    pub exits: u32,
}

fn is_entry(entries: u32, column: u32) -> bool
    ensures { result ≡ is_entry_column entries column }
{
    column >= FIRST_ENTRY && u64::from(column) < u64::from(FIRST_ENTRY) + u64::from(entries)
}

fn is_exit(exits: u32, column: u32) -> bool
    ensures { result ≡ is_exit_column exits column }
{
    column >= FIRST_EXIT && u64::from(column) < u64::from(FIRST_EXIT) + u64::from(exits)
}

impl Allowed {
    fn has(&self, column: u32) -> bool
        ensures { result ≡ is_allowed self.now column }
    {
        column < self.slots || is_entry(self.entries, column) || is_exit(self.exits, column)
    }

    fn has_those_of(&self, term: &Term) -> bool
        ensures { result ≡ names_only (is_allowed self.now) term.now }
    {
        term.parts().iter().all(|part| self.has(part.0))
    }

    /// Whether the atoms name these columns alone.
    pub fn are_named_by(&self, atoms: &[Atom]) -> bool
        ensures { result ≡ rows_name_only (is_allowed self.now) atoms.now }
    {
        atoms.iter().all(|atom| self.has_those_of(&atom.term))
    }
}
