// Copies, each once.

use std::alloc::Global;
use std::test::Fail;
use summary_form::path::{Path, Terms};
use summary_form::query::{ExitKind, Query};
use test_forms::paths::{Says, path_of, terms_of};
use test_forms::queries::query_of;
use test_forms::rows::{Plain, Row, are_rows, are_terms};

/// The first symbols, and 7.
const FIRST: Row = (&[(1, 30_000)], 7);

const SECOND: Row = (&[(1, 30_001)], 7);

const THIRD: Row = (&[(1, 30_002)], 7);

const FOURTH: Row = (&[(1, 30_003)], 7);

const FIRST_TERM: Plain = (&[(30_000, 1)], 7);

const SECOND_TERM: Plain = (&[(30_001, 1)], 7);

const THIRD_TERM: Plain = (&[(30_002, 1)], 7);

const FOURTH_TERM: Plain = (&[(30_003, 1)], 7);

fn copied_terms(alloc: Global) -> Result<Terms, Fail> {
    let terms = terms_of(alloc, &[FIRST, SECOND])?;
    Ok(terms.copy(alloc)?)
}

#[test]
fn copies_terms(rt: HostRuntime) -> Result<(), Fail> {
    let copy = copied_terms(rt.alloc())?;
    assert!(rt; are_terms(copy.as_slice(), &[FIRST_TERM, SECOND_TERM]));
    Ok(())
}

#[test]
fn gives_terms_back(rt: HostRuntime) -> Result<(), Fail> {
    let copy = copied_terms(rt.alloc())?.into_vec();
    assert!(rt; are_terms(&copy, &[FIRST_TERM, SECOND_TERM]));
    Ok(())
}

fn copied_query(alloc: Global) -> Result<Query, Fail> {
    let start: [Row; 1] = [(&[(1, 10_000)], 7)];
    let query = query_of(alloc, 1, ExitKind::Fail(2), &start, &[(&[(1, 10_001)], 7)])?;
    Ok(query.copy(alloc)?)
}

fn is_query(query: &Query) -> bool {
    (query.proc, query.exit) == (1, ExitKind::Fail(2))
        && are_rows(&query.start, &[(&[(10_000, 1)], 7)])
        && are_rows(&query.end, &[(&[(10_001, 1)], 7)])
}

#[test]
fn copies_a_query(rt: HostRuntime) -> Result<(), Fail> {
    let copy = copied_query(rt.alloc())?;
    assert!(rt; is_query(&copy));
    Ok(())
}

const PATH: Says = Says {
    proc: 1,
    exit: ExitKind::Return,
    symbols: 4,
    guard: &[FIRST],
    entry: &[SECOND],
    inputs: &[THIRD],
    outcome: &[FOURTH, FIRST],
};

fn copied_path(alloc: Global) -> Result<Path, Fail> {
    let path = path_of(alloc, &PATH)?;
    Ok(path.copy(alloc)?)
}

fn is_path(path: &Path) -> bool {
    (path.proc, path.exit, path.symbols) == (1, ExitKind::Return, 4)
        && are_rows(&path.guard, &[FIRST_TERM])
        && are_terms(path.entry.as_slice(), &[SECOND_TERM])
        && are_terms(path.inputs.as_slice(), &[THIRD_TERM])
        && are_terms(path.outcome.as_slice(), &[FOURTH_TERM, FIRST_TERM])
}

#[test]
fn copies_a_path(rt: HostRuntime) -> Result<(), Fail> {
    let copy = copied_path(rt.alloc())?;
    assert!(rt; is_path(&copy));
    Ok(())
}
