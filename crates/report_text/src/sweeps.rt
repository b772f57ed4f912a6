//! The text of a sweep.

ghost use Rattle.std.specs.Prelude.{◌≡◌, ◌++◌, length, map, IfOk, OnOk, string_bytes, count_by};
ghost use Rattle.std.specs.List.{list_any};
ghost use Rattle.report_text.specs.Sweeps.{entry_line, entry_lines, entry_of, entry_text, is_found_entry, is_proved_entry, is_unfound_entry, is_unknown_entry, sweep_text, unfound_text};

use crate::OutOfMemory;
use crate::verdicts::{push_found, push_limit};
use c_tree::tree::{AssertPlace, Program};
use shadow_elim::limit::LimitKind;
use std::alloc::Global;

/// What is written of the assertions that no counted path reaches.
#[derive(Clone, Copy, PartialEq, Eq, Debug)]
pub enum Unfound {
    /// Every path was counted.
    Proved,
    /// This number of edges is used up.
    Spent(u32),
    /// A limit of this kind was met.
    Limit(LimitKind),
}

/// Appends what is written of an assertion that no counted path reaches.
fn push_unfound(text: &mut String, others: Unfound) -> Result<(), OutOfMemory>
    ensures { OnOk result (string_bytes text.new
        ≡ string_bytes text.old ++ unfound_text others) }
{
    match others {
        Unfound::Proved => write!(text, "proved"),
        Unfound::Spent(edges) => write!(text, "unknown (sweep {edges} spent)"),
        Unfound::Limit(kind) => push_limit(text, kind),
    }
}

/// Appends what is written of an assertion.
fn push_entry(
    text: &mut String,
    entry: &Option<Vec<i64>>,
    others: Unfound,
) -> Result<(), OutOfMemory>
    ensures { OnOk result (string_bytes text.new
        ≡ string_bytes text.old ++ entry_text others (entry_of entry.now)) }
{
    match entry {
        Some(list) => push_found(text, list),
        None => push_unfound(text, others),
    }
}

/// Appends the line of an assertion.
fn push_line(
    text: &mut String,
    place: AssertPlace,
    entry: &Option<Vec<i64>>,
    others: Unfound,
) -> Result<(), OutOfMemory>
    ensures { OnOk result (string_bytes text.new
        ≡ string_bytes text.old ++ entry_line others place (entry_of entry.now)) }
{
    write!(text, "{}:{}: ", place.at.line, place.at.column)?;
    push_entry(text, entry, others)?;
    writeln!(text)
}

/// Appends a line for each assertion.
fn push_lines(
    text: &mut String,
    places: &[AssertPlace],
    found: &[Option<Vec<i64>>],
    others: Unfound,
) -> Result<(), OutOfMemory>
    requires { length places.now ≡ length found.now }
    ensures { OnOk result (string_bytes text.new
        ≡ string_bytes text.old ++ entry_lines others places.now (map entry_of found.now)) }
{
    for (place, entry) in places.iter().zip(found) {
        push_line(text, *place, entry, others)?;
    }
    Ok(())
}

fn is_found(entry: &Option<Vec<i64>>) -> bool
    ensures { result ≡ is_found_entry (entry_of entry.now) }
{
    matches!(entry, Some(_))
}

fn is_unfound(entry: &Option<Vec<i64>>) -> bool
    ensures { result ≡ is_unfound_entry (entry_of entry.now) }
{
    matches!(entry, None)
}

/// Whether `proved` is written of an assertion.
fn is_proved(entry: &Option<Vec<i64>>, others: Unfound) -> bool
    ensures { result ≡ is_proved_entry others (entry_of entry.now) }
{
    match others {
        Unfound::Proved => is_unfound(entry),
        _ => false,
    }
}

/// Whether `unknown` is written of an assertion.
fn is_unknown(entry: &Option<Vec<i64>>, others: Unfound) -> bool
    ensures { result ≡ is_unknown_entry others (entry_of entry.now) }
{
    match others {
        Unfound::Proved => false,
        _ => is_unfound(entry),
    }
}

fn found_count(found: &[Option<Vec<i64>>]) -> usize
    ensures { result ≡ count_by is_found_entry (map entry_of found.now) }
{
    found.iter().filter(|entry| is_found(entry)).count()
}

fn proved_count(found: &[Option<Vec<i64>>], others: Unfound) -> usize
    ensures { result ≡ count_by (is_proved_entry others) (map entry_of found.now) }
{
    found
        .iter()
        .filter(|entry| is_proved(entry, others))
        .count()
}

fn unknown_count(found: &[Option<Vec<i64>>], others: Unfound) -> usize
    ensures { result ≡ count_by (is_unknown_entry others) (map entry_of found.now) }
{
    found
        .iter()
        .filter(|entry| is_unknown(entry, others))
        .count()
}

/// Whether a counted path reaches an assertion.
pub fn is_any_found(found: &[Option<Vec<i64>>]) -> bool
    ensures { result ≡ list_any is_found_entry (map entry_of found.now) }
{
    found.iter().any(|entry| is_found(entry))
}

/// Whether no counted path reaches some assertion.
pub fn is_any_unfound(found: &[Option<Vec<i64>>]) -> bool
    ensures { result ≡ list_any is_unfound_entry (map entry_of found.now) }
{
    found.iter().any(|entry| is_unfound(entry))
}

/// The text of a sweep: a line for each assertion of the program, with the inputs of a counted path
/// that reaches it, or what is written of all others, and how many there are of each kind.
pub fn swept(
    alloc: Global,
    program: &Program,
    found: &[Option<Vec<i64>>],
    others: Unfound,
) -> Result<Vec<u8>, OutOfMemory>
    requires { length program.now.asserts.items ≡ length found.now }
    ensures { IfOk result (λ text. text.items ≡ sweep_text others program.now.asserts.items
        (map entry_of found.now)) }
{
    let mut text = String::new(alloc);
    push_lines(&mut text, &program.asserts, found, others)?;
    let proved = proved_count(found, others);
    let reached = found_count(found);
    let unknown = unknown_count(found, others);
    writeln!(
        text,
        "summary: {proved} proved, {reached} found, {unknown} unknown"
    )?;
    Ok(text.into_bytes())
}
