//! The places of the summaries of one procedure and exit kind.

ghost use Rattle.std.specs.Prelude.{◌≡◌, ◌<◌, length, IfOk};
ghost use Rattle.summary_table.specs.Tables.{IsNumbered, exit_of, proc_of};

use linear_formula::error::LinError;
use std::alloc::Global;
use std::sync::Arc;
use std::test::Fail;
use summary_form::query::ExitKind;
use summary_form::summary::Summary;
use summary_table::{MAX_PROCEDURES, Table};
use test_forms::queries::query_of;

/// The procedure returns in no run.
fn no_return(alloc: Global, proc: u32) -> Result<Arc<Summary>, LinError>
    requires { proc < MAX_PROCEDURES }
    ensures { IfOk result (λ s. IsNumbered (proc_of s.value) (exit_of s.value)) }
{
    let query = query_of(alloc, proc, ExitKind::Return, &[], &[])?;
    Ok(Arc::new(alloc, Summary::NotMay(query))?)
}

/// Summaries of the procedures 1, 2 and 1, and room for no more.
fn one_two_one(alloc: Global) -> Result<Table, LinError>
    ensures { IfOk result (λ t. length t.summaries ≡ 3) }
{
    let mut table = Table::with_room(alloc, 3)?;
    table.push(no_return(alloc, 1)?);
    table.push(no_return(alloc, 2)?);
    table.push(no_return(alloc, 1)?);
    Ok(table)
}

#[test]
fn summaries_of_one_procedure_are_linked(rt: HostRuntime) -> Result<(), Fail> {
    let table = one_two_one(rt.alloc())?;
    let found = [
        table.first_of(1, &ExitKind::Return),
        table.next_of(0),
        table.next_of(2),
        table.first_of(3, &ExitKind::Return),
    ];
    assert!(rt; found == [Some(0), Some(2), None, None]);
    Ok(())
}

/// The procedure and the exit kind of a summary.
fn kind_of(summary: &Summary) -> (u32, ExitKind) {
    match summary {
        Summary::NotMay(query) => (query.proc, query.exit),
        Summary::Must(path) => (path.proc, path.exit),
    }
}

/// The first place from this one on of such a summary, by a look at each.
fn scan(all: &[Arc<Summary>], kind: (u32, ExitKind), from: usize) -> Option<u32> {
    for (place, summary) in all.iter().enumerate() {
        if from <= place && kind_of(summary) == kind {
            return u32::try_from(place).ok();
        }
    }
    None
}

/// Whether each place tells the next one that a look at each finds.
fn is_linked(table: &Table) -> bool {
    let all = table.all();
    for place in 0..table.room() {
        if let Some(summary) = all.get(place as usize) {
            let next = scan(all, kind_of(summary), place as usize + 1);
            if table.next_of(place) != next {
                return false;
            }
        }
    }
    true
}

/// One of five procedures, and a return or one of three failures.
fn kind_by(number: u32) -> (u32, ExitKind)
    ensures { IsNumbered result.0 result.1 }
{
    let exit = match (number / 5) % 4 {
        0 => ExitKind::Return,
        id => ExitKind::Fail(id),
    };
    (number % 5, exit)
}

const PUSHES: u32 = 400;

/// Whether a table answers as a look at each summary does while `PUSHES` are pushed.
fn plays(alloc: Global) -> Result<bool, LinError> {
    let mut table = Table::with_room(alloc, PUSHES)?;
    let mut seed: u32 = 1;
    let mut same = true;
    for _ in 0..PUSHES {
        seed = seed.wrapping_mul(1_103_515_245).wrapping_add(12_345);
        let (proc, exit) = kind_by(seed >> 16);
        let before = table.first_of(proc, &exit);
        same = same && before == scan(table.all(), (proc, exit), 0);
        let query = query_of(alloc, proc, exit, &[], &[])?;
        table.push(Arc::new(alloc, Summary::NotMay(query))?);
    }
    Ok(same && is_linked(&table))
}

#[test]
fn a_table_answers_as_a_whole_search_does(rt: HostRuntime) -> Result<(), Fail> {
    assert!(rt; plays(rt.alloc())?);
    Ok(())
}
