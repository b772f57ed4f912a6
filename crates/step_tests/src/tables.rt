//! Tables, which take what they have room for.

ghost use Rattle.std.specs.Prelude.{◌≡◌, ◌++◌, ◌∷◌, [], IsTrue, OnOk};
ghost use Rattle.summary_table.specs.Tables.{IsNumbered, exit_of, proc_of};

use std::sync::Arc;
use std::test::Fail;
use summary_form::query::ExitKind;
use summary_form::summary::Summary;
use summary_table::{MAX_ASSERTIONS, MAX_PROCEDURES, Table};

/// Whether the numbers of the summary are below the limits.
fn is_numbered(summary: &Summary) -> bool
    ensures { IsTrue result → IsNumbered (proc_of summary.now) (exit_of summary.now) }
{
    let (proc, exit) = match summary {
        Summary::NotMay(query) => (query.proc, query.exit),
        Summary::Must(path) => (path.proc, path.exit),
    };
    match exit {
        ExitKind::Return => proc < MAX_PROCEDURES,
        ExitKind::Fail(id) => proc < MAX_PROCEDURES && id < MAX_ASSERTIONS,
    }
}

/// Adds the summary.
pub fn add(table: &mut Table, summary: Arc<Summary>) -> Result<(), Fail>
    ensures { OnOk result (table.new.summaries ≡ table.old.summaries ++ summary.value ∷ []) }
{
    if !is_numbered(&summary) || table.all().len() >= table.room() as usize {
        return Err(Fail::new("no room for it"));
    }
    table.push(summary);
    Ok(())
}
