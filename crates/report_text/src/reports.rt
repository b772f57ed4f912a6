//! The text of a report.

ghost use Rattle.std.specs.Prelude.{◌≡◌, ◌++◌, length, IfOk, OnOk, string_bytes, count_by};
ghost use Rattle.report_text.specs.Report.{is_proved, is_found, is_unknown, line_of, lines_of, report_of};

use crate::OutOfMemory;
use crate::verdicts::{is_found, is_proved, is_unknown, push_verdict};
use bolt_core::job::Verdict;
use c_tree::tree::{AssertPlace, Program};
use std::alloc::Global;

/// Appends the line of an assertion.
fn push_line(text: &mut String, place: AssertPlace, verdict: &Verdict) -> Result<(), OutOfMemory>
    ensures { OnOk result (string_bytes text.new
        ≡ string_bytes text.old ++ line_of place verdict.now) }
{
    write!(text, "{}:{}: ", place.at.line, place.at.column)?;
    push_verdict(text, verdict)?;
    writeln!(text)
}

/// Appends a line for each assertion.
fn push_lines(
    text: &mut String,
    places: &[AssertPlace],
    verdicts: &[Verdict],
) -> Result<(), OutOfMemory>
    requires { length places.now ≡ length verdicts.now }
    ensures { OnOk result (string_bytes text.new ≡ string_bytes text.old ++ lines_of places.now
        verdicts.now) }
{
    for (place, verdict) in places.iter().zip(verdicts) {
        push_line(text, *place, verdict)?;
    }
    Ok(())
}

/// The line of one assertion.
pub fn verdict_line(
    alloc: Global,
    place: &AssertPlace,
    verdict: &Verdict,
) -> Result<Vec<u8>, OutOfMemory>
    ensures { IfOk result (λ text. text.items ≡ line_of place.now verdict.now) }
{
    let mut text = String::new(alloc);
    push_line(&mut text, *place, verdict)?;
    Ok(text.into_bytes())
}

fn proved_count(verdicts: &[Verdict]) -> usize
    ensures { result ≡ count_by is_proved verdicts.now }
{
    verdicts.iter().filter(|v| is_proved(v)).count()
}

fn found_count(verdicts: &[Verdict]) -> usize
    ensures { result ≡ count_by is_found verdicts.now }
{
    verdicts.iter().filter(|v| is_found(v)).count()
}

fn unknown_count(verdicts: &[Verdict]) -> usize
    ensures { result ≡ count_by is_unknown verdicts.now }
{
    verdicts.iter().filter(|v| is_unknown(v)).count()
}

/// The report of a program: a line for each of its assertions, with its verdict, and how many there
/// are of each kind.
pub fn report(
    alloc: Global,
    program: &Program,
    verdicts: &[Verdict],
) -> Result<Vec<u8>, OutOfMemory>
    requires { length program.now.asserts.items ≡ length verdicts.now }
    ensures { IfOk result (λ text. text.items ≡ report_of program.now.asserts.items verdicts.now) }
{
    let mut text = String::new(alloc);
    push_lines(&mut text, &program.asserts, verdicts)?;
    let proved = proved_count(verdicts);
    let found = found_count(verdicts);
    let unknown = unknown_count(verdicts);
    writeln!(
        text,
        "summary: {proved} proved, {found} found, {unknown} unknown"
    )?;
    Ok(text.into_bytes())
}
