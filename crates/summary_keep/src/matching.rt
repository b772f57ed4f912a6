//! Which procedures and assertions of a program are the same in an edited one.

ghost use Rattle.std.specs.Prelude.{IfOk};
ghost use Rattle.c_tree.specs.Whole.{program_of};
ghost use Rattle.summary_keep.specs.Keeping.{IsMatchingOf};

use crate::assertions::match_assertions;
use crate::numbers::Matching;
use crate::procedures::match_procedures;
use c_tree::tree::Program;
use linear_formula::error::OutOfMemory;
use std::alloc::Global;

/// Which procedures and assertions of an old program are the same in a new one, with their numbers
/// there.
pub fn matching(alloc: Global, old: &Program, new: &Program) -> Result<Matching, OutOfMemory>
    ensures { IfOk result (λ m. IsMatchingOf (program_of old.now) (program_of new.now)
        m.procs.items m.asserts.items) }
{
    let procs = match_procedures(alloc, old, new)?;
    let asserts = match_assertions(alloc, &procs, old, new)?;
    Ok(Matching { procs, asserts })
}
