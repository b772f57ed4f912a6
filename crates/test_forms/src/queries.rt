//! Queries.

ghost use Rattle.std.specs.Prelude.{◌≡◌, IfOk};

use crate::rows::{Row, cube_of};
use linear_formula::error::LinError;
use std::alloc::Global;
use summary_form::query::{ExitKind, Query};

/// Asks for runs of the procedure that end so, with these rows at their start and at their end.
pub fn query_of(
    alloc: Global,
    proc: u32,
    exit: ExitKind,
    start: &[Row],
    end: &[Row],
) -> Result<Query, LinError>
    ensures proc { IfOk result (λ q. q.proc ≡ proc) }
    ensures exit { IfOk result (λ q. q.exit ≡ exit) }
{
    let start = cube_of(alloc, start)?;
    Ok(Query {
        proc,
        exit,
        start,
        end: cube_of(alloc, end)?,
    })
}
