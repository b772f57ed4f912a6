//! Tables as lists.

ghost use Rattle.std.specs.Prelude.{◌≡◌, ◌∷◌, [], IfOk};
ghost use Rattle.summary_table.specs.Tables.{IsNumbered, exit_of, proc_of};

use crate::made::{must, not_may, table_of};
use std::alloc::{AllocError, Global};
use std::sync::Arc;
use std::test::Fail;
use summary_form::summary::Summary;
use summary_table::Table;

/// A table of the first summary, which catches up with both.
fn caught_up(alloc: Global, first: Arc<Summary>, second: Arc<Summary>) -> Result<Table, AllocError>
    requires first { IsNumbered (proc_of first.value) (exit_of first.value) }
    requires second { IsNumbered (proc_of second.value) (exit_of second.value) }
    ensures { IfOk result (λ t. t.summaries ≡ first.value ∷ second.value ∷ []) }
{
    let mut table = Table::with_room(alloc, 2)?;
    table.push(first.clone()?);
    let all = table_of(alloc, first, second)?;
    table.catch_up(&all)?;
    Ok(table)
}

/// How many not-mays and then musts.
fn kinds(summaries: &[Arc<Summary>]) -> Option<(u32, u32)> {
    match summaries {
        [first, second] => match (&**first, &**second) {
            (Summary::NotMay(query), Summary::Must(path)) => Some((query.proc, path.proc)),
            _ => None,
        },
        _ => None,
    }
}

#[test]
fn catches_up(rt: HostRuntime) -> Result<(), Fail> {
    let alloc = rt.alloc();
    let table = caught_up(alloc, not_may(alloc)?, must(alloc)?)?;
    assert_eq!(rt; kinds(table.all()), Some((3, 3)));
    assert_eq!(rt; table.room(), 2);
    Ok(())
}

#[test]
fn begins_empty(rt: HostRuntime) -> Result<(), Fail> {
    let table = Table::with_room(rt.alloc(), 0)?;
    assert_eq!(rt; table.all().len(), 0);
    Ok(())
}
