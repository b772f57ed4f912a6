//! Queries, a not-may and a must of one procedure, and tables of both.

ghost use Rattle.std.specs.Prelude.{◌≡◌, ◌∷◌, [], IfOk};
ghost use Rattle.summary_table.specs.Tables.{IsNumbered, exit_of, proc_of};

use std::alloc::{AllocError, Global};
use std::sync::Arc;
use std::test::Fail;
use summary_form::query::ExitKind;
use summary_form::summary::Summary;
use summary_table::Table;
use test_forms::paths::{Says, path_of};
use test_forms::queries::query_of;
use test_forms::rows::Row;

/// No run of procedure 3 with an argument of at most 5 returns at most 2.
pub fn not_may(alloc: Global) -> Result<Arc<Summary>, Fail>
    ensures { IfOk result (λ s. IsNumbered (proc_of s.value) (exit_of s.value)) }
{
    let start: [Row; 1] = [(&[(1, 10_000)], -5)];
    let query = query_of(alloc, 3, ExitKind::Return, &start, &[(&[(1, 20_000)], -2)])?;
    Ok(Arc::new(alloc, Summary::NotMay(query))?)
}

/// For each argument s of at most 9 some run of procedure 3 returns 2 ^ 20 s + 1.
const TIMES: Says = Says {
    proc: 3,
    exit: ExitKind::Return,
    symbols: 1,
    guard: &[(&[(1, 30_000)], -9)],
    entry: &[(&[(1, 30_000)], 0)],
    inputs: &[],
    outcome: &[(&[(1_048_576, 30_000)], 1)],
};

pub fn must(alloc: Global) -> Result<Arc<Summary>, Fail>
    ensures { IfOk result (λ s. IsNumbered (proc_of s.value) (exit_of s.value)) }
{
    let path = path_of(alloc, &TIMES)?;
    Ok(Arc::new(alloc, Summary::Must(path))?)
}

/// Two summaries, and room for no more.
pub fn table_of(
    alloc: Global,
    first: Arc<Summary>,
    second: Arc<Summary>,
) -> Result<Table, AllocError>
    requires first { IsNumbered (proc_of first.value) (exit_of first.value) }
    requires second { IsNumbered (proc_of second.value) (exit_of second.value) }
    ensures room { IfOk result (λ t. t.room ≡ 2) }
    ensures summaries { IfOk result (λ t. t.summaries ≡ first.value ∷ second.value ∷ []) }
{
    let mut table = Table::with_room(alloc, 2)?;
    table.push(first);
    table.push(second);
    Ok(table)
}
