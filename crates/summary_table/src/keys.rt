//! The limits on the numbers of procedures and assertions, and a number for each pair of a
//! procedure and an exit kind.

ghost use Rattle.std.specs.Prelude.{◌≡◌, ◌<◌, ◌↔◌, IsTrue};
ghost use Rattle.summary_table.specs.Tables.{IsNumbered, exit_of, proc_of};
ghost use Rattle.summary_table.specs.steps.Chains.{key_of};

use c_tree::tree::ProcId;
use summary_form::query::ExitKind;
use summary_form::summary::Summary;

/// A table has summaries of procedures whose numbers are below this.
pub const MAX_PROCEDURES: u32 = 64;

/// And of failures of assertions whose numbers are below this.
pub const MAX_ASSERTIONS: u32 = 64;

/// For each procedure its return, and its failure at each assertion.
pub(crate) const KEYS: usize = 64 * 65;

/// Whether both numbers are below the limits.
pub(crate) fn is_numbered(proc: ProcId, exit: ExitKind) -> bool
    ensures { IsTrue result ↔ IsNumbered proc exit }
{
    match exit {
        ExitKind::Return => proc < MAX_PROCEDURES,
        ExitKind::Fail(id) => proc < MAX_PROCEDURES && id < MAX_ASSERTIONS,
    }
}

/// The number of a procedure and an exit kind, below `KEYS`.
pub(crate) fn key_of(proc: ProcId, exit: ExitKind) -> usize
    requires { IsNumbered proc exit }
    ensures key { result ≡ key_of proc exit }
    ensures within { result < KEYS }
{
    let number = match exit {
        ExitKind::Return => 0,
        ExitKind::Fail(id) => id as usize + 1,
    };
    (MAX_ASSERTIONS as usize + 1) * proc as usize + number
}

/// The number of a summary's procedure and exit kind.
pub(crate) fn key_of_summary(summary: &Summary) -> usize
    requires { IsNumbered (proc_of summary.now) (exit_of summary.now) }
    ensures key { result ≡ key_of (proc_of summary.now) (exit_of summary.now) }
    ensures within { result < KEYS }
{
    match summary {
        Summary::NotMay(not_may) => key_of(not_may.proc, not_may.exit),
        Summary::Must(path) => key_of(path.proc, path.exit),
    }
}
