//! The texts of verdicts.

ghost use Rattle.std.specs.Prelude.{◌≡◌, ◌++◌, OnOk, codes, string_bytes};
ghost use Rattle.report_text.specs.Report.{is_proved, is_found, is_unknown, kind_text, list_text, verdict_text};

use crate::OutOfMemory;
use bolt_core::job::Verdict;
use shadow_elim::limit::LimitKind;

pub fn is_proved(verdict: &Verdict) -> bool
    ensures { result ≡ is_proved verdict.now }
{
    matches!(verdict, Verdict::Proved)
}

pub fn is_found(verdict: &Verdict) -> bool
    ensures { result ≡ is_found verdict.now }
{
    matches!(verdict, Verdict::Found(_))
}

pub fn is_unknown(verdict: &Verdict) -> bool
    ensures { result ≡ is_unknown verdict.now }
{
    matches!(verdict, Verdict::Budget(_) | Verdict::Limit(_))
}

/// What a limit is called in a report.
fn kind_text(kind: LimitKind) -> &'static str
    ensures { result.now ≡ kind_text kind }
{
    match kind {
        LimitKind::Columns => "columns",
        LimitKind::Wide => "wide",
        LimitKind::Rows => "rows",
        LimitKind::Branches => "branches",
        LimitKind::Inexact => "inexact",
    }
}

/// Appends inputs on which an assertion fails.
pub fn push_found(text: &mut String, list: &[i64]) -> Result<(), OutOfMemory>
    ensures { OnOk result (string_bytes text.new
        ≡ string_bytes text.old ++ (codes "found " ++ list_text list.now)) }
{
    write!(text, "found {list:?}")
}

/// Appends that a solver limit was met, and which.
pub fn push_limit(text: &mut String, kind: LimitKind) -> Result<(), OutOfMemory>
    ensures { OnOk result (string_bytes text.new ≡ string_bytes text.old
        ++ (codes "unknown (solver limit: " ++ (kind_text kind ++ codes ")"))) }
{
    write!(text, "unknown (solver limit: {})", kind_text(kind))
}

/// Appends the text of a verdict.
pub fn push_verdict(text: &mut String, verdict: &Verdict) -> Result<(), OutOfMemory>
    ensures { OnOk result (string_bytes text.new
        ≡ string_bytes text.old ++ verdict_text verdict.now) }
{
    match verdict {
        Verdict::Proved => write!(text, "proved"),
        Verdict::Found(list) => push_found(text, list),
        Verdict::Budget(steps) => write!(text, "unknown (budget {steps} spent)"),
        Verdict::Limit(kind) => push_limit(text, *kind),
    }
}
