//! The status that verdicts end with.

ghost use Rattle.std.specs.Prelude.{◌≡◌};
ghost use Rattle.std.specs.List.{list_any};
ghost use Rattle.report_text.specs.Report.{is_found, is_unknown};
ghost use Rattle.smash_run.specs.Asked.{status_of};

use bolt_core::job::Verdict;
use report_text::{is_found, is_unknown};

fn is_any_found(verdicts: &[Verdict]) -> bool
    ensures { result ≡ list_any is_found verdicts.now }
{
    verdicts.iter().any(|v| is_found(v))
}

fn is_any_unknown(verdicts: &[Verdict]) -> bool
    ensures { result ≡ list_any is_unknown verdicts.now }
{
    verdicts.iter().any(|v| is_unknown(v))
}

/// The status that verdicts end with.
pub fn status(verdicts: &[Verdict]) -> u8
    ensures { result ≡ status_of verdicts.now }
{
    if is_any_found(verdicts) {
        1
    } else if is_any_unknown(verdicts) {
        2
    } else {
        0
    }
}
