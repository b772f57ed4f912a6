//! Terms, cubes and questions, each answering call once.

ghost use Rattle.std.specs.Prelude.{IsTrue};
ghost use Rattle.linear_formula.specs.Formula.{is_renaming};

use linear_formula::assignment::{Assignment, Values};
use linear_formula::error::LinError;
use linear_formula::formula::{Atom, Atoms, Cube};
use linear_formula::question::{Columns, Question, Summands};
use linear_formula::reading::column_term;
use linear_formula::term::Term;
use std::alloc::{AllocError, Global};
use std::test::Fail;

/// A multiple of a column, and a constant.
fn term_of(alloc: Global, multiple: i64, column: u32, constant: i64) -> Result<Term, LinError> {
    let parts = vec![in alloc; (multiple, column_term(alloc, column)?)]?;
    Term::combine(alloc, &parts, constant)
}

fn is_term(term: &Term, parts: &[(u32, i128)], constant: i128) -> bool {
    term.parts() == parts && term.constant() == constant
}

fn cube_of(alloc: Global, term: Term) -> Result<Cube, AllocError> {
    let mut atoms = Atoms::new(alloc);
    atoms.push(Atom { term })?;
    Ok(Cube { atoms })
}

fn is_negated(term: Term, parts: &[(u32, i128)], constant: i128) -> bool {
    let mut atom = Atom { term };
    atom.negate().is_ok() && is_term(&atom.term, parts, constant)
}

#[test]
fn negates(rt: HostRuntime) -> Result<(), Fail> {
    let term = term_of(rt.alloc(), 1, 0, -3)?;
    let negated = is_negated(term, &[(0, -1)], 4);
    assert!(rt; negated);
    Ok(())
}

/// The least constant that a term has: `1 - t` would be beyond the greatest one.
fn lowest(alloc: Global) -> Result<Term, LinError> {
    let parts = vec![in alloc; (1 << 44, term_of(alloc, 0, 0, -(1 << 40))?)]?;
    Term::combine(alloc, &parts, 0)
}

fn stays_lowest(alloc: Global) -> Result<bool, LinError> {
    let mut term = lowest(alloc)?;
    let refused = term.negate() == Err(LinError::Wide);
    Ok(refused && is_term(&term, &[], -(1 << 84)))
}

#[test]
fn keeps_what_is_too_wide_to_negate(rt: HostRuntime) -> Result<(), Fail> {
    let stays = stays_lowest(rt.alloc())?;
    assert!(rt; stays);
    Ok(())
}

fn adds(alloc: Global) -> Result<bool, LinError> {
    let left = term_of(alloc, 2, 0, 7)?;
    let right = term_of(alloc, 1, 1, 3)?;
    let both = Term::add_multiples(alloc, 1, &left, -2, &right)?;
    Ok(is_term(&both, &[(0, 2), (1, -2)], 1))
}

#[test]
fn adds_multiples(rt: HostRuntime) -> Result<(), Fail> {
    let added = adds(rt.alloc())?;
    assert!(rt; added);
    Ok(())
}

fn is_wide(alloc: Global, multiple: i64, coefficient: i64) -> Result<bool, LinError> {
    let parts = vec![in alloc; (multiple, term_of(alloc, coefficient, 0, 0)?)]?;
    match Term::combine(alloc, &parts, 0) {
        Ok(_) => Ok(false),
        Err(LinError::Wide) => Ok(true),
        Err(LinError::Memory) => Err(LinError::Memory),
    }
}

#[test]
fn keeps_the_limits(rt: HostRuntime) -> Result<(), Fail> {
    for &(coefficient, wide) in &[(1, false), (2, true), (-1, false), (-2, true)] {
        let found = is_wide(rt.alloc(), 1 << 40, coefficient)?;
        assert_eq!(rt; found, wide, "{coefficient}");
    }
    Ok(())
}

/// Partial sums far beyond 128 bits that cancel each other.
fn cancelled(alloc: Global) -> Result<Term, LinError> {
    let mut parts = Vec::new(alloc);
    for multiple in [i64::MAX, i64::MAX, -i64::MAX, -i64::MAX] {
        parts.push((multiple, term_of(alloc, 1 << 40, 0, 1 << 62)?))?;
    }
    Term::combine(alloc, &parts, 1)
}

#[test]
fn counts_the_result_alone(rt: HostRuntime) -> Result<(), Fail> {
    let term = cancelled(rt.alloc())?;
    assert!(rt; is_term(&term, &[], 1));
    Ok(())
}

fn substitutes(alloc: Global) -> Result<bool, LinError> {
    let by = term_of(alloc, 1, 0, 1)?;
    let term = term_of(alloc, 3, 1, -5)?.substitute(alloc, 1, &by)?;
    Ok(is_term(&term, &[(0, 3)], -2))
}

#[test]
fn substitutes_a_term(rt: HostRuntime) -> Result<(), Fail> {
    let substituted = substitutes(rt.alloc())?;
    assert!(rt; substituted);
    Ok(())
}

/// The columns 0 and 1, each with the coefficient 1.
fn two_columns(alloc: Global) -> Result<Cube, LinError> {
    let left = term_of(alloc, 1, 0, 1)?;
    let right = term_of(alloc, 1, 1, -5)?;
    let sum = Term::add_multiples(alloc, 1, &left, 1, &right)?;
    Ok(cube_of(alloc, sum)?)
}

fn renames(alloc: Global, map: &[(u32, u32)], parts: &[(u32, i128)]) -> Result<bool, LinError>
    requires { IsTrue (is_renaming map.now) }
{
    let cube = two_columns(alloc)?.rename(alloc, map)?;
    match cube.atoms.as_slice() {
        [atom] => Ok(is_term(&atom.term, parts, -4)),
        _ => Ok(false),
    }
}

#[test]
fn renames_columns(rt: HostRuntime) -> Result<(), Fail> {
    let met = renames(rt.alloc(), &[(0, 7), (1, 7)], &[(7, 2)])?;
    assert!(rt; met);
    let exchanged = renames(rt.alloc(), &[(0, 9), (1, 3)], &[(3, 1), (9, 1)])?;
    assert!(rt; exchanged);
    Ok(())
}

fn count_of_both(alloc: Global) -> Result<(usize, usize), LinError> {
    let cube = two_columns(alloc)?;
    let both = cube.and(alloc, &cube)?;
    let more = both.with(
        alloc,
        Atom {
            term: term_of(alloc, 1, 2, 0)?,
        },
    )?;
    Ok((both.atoms.as_slice().len(), more.atoms.as_slice().len()))
}

#[test]
fn adds_atoms(rt: HostRuntime) -> Result<(), Fail> {
    let counts = count_of_both(rt.alloc())?;
    assert_eq!(rt; counts, (2, 3));
    Ok(())
}

fn assign(alloc: Global, value: i64) -> Result<Assignment, AllocError> {
    Ok(Assignment::new(Values::from_vec(vec![in alloc; (0, value)]?)))
}

/// Whether `x <= 3` holds where the column 0 has the value.
fn holds_at(alloc: Global, value: i64) -> Result<bool, LinError> {
    let at = assign(alloc, value)?;
    let cube = cube_of(alloc, term_of(alloc, 1, 0, -3)?)?;
    Ok(cube.holds(&at.copy(alloc)?) && at.value(0) == value && at.value(1) == 0)
}

#[test]
fn holds_at_the_limits(rt: HostRuntime) -> Result<(), Fail> {
    let cases = &[
        (i64::MIN, true),
        (2, true),
        (3, true),
        (4, false),
        (i64::MAX, false),
    ];
    for &(value, holds) in cases {
        let found = holds_at(rt.alloc(), value)?;
        assert_eq!(rt; found, holds, "{value}");
    }
    Ok(())
}

fn is_same(alloc: Global, multiple: i64, column: u32, constant: i64) -> Result<bool, LinError> {
    let cube = cube_of(alloc, term_of(alloc, 2, 1, 5)?)?;
    let other = cube_of(alloc, term_of(alloc, multiple, column, constant)?)?;
    Ok(cube == other)
}

#[test]
fn compares(rt: HostRuntime) -> Result<(), Fail> {
    let cases = &[
        (2, 1, 5, true),
        (3, 1, 5, false),
        (2, 2, 5, false),
        (2, 1, 6, false),
        (0, 1, 5, false),
    ];
    for &(multiple, column, constant, same) in cases {
        let found = is_same(rt.alloc(), multiple, column, constant)?;
        assert_eq!(rt; found, same, "{multiple} {column} {constant}");
    }
    Ok(())
}

fn copies_sum(alloc: Global) -> Result<bool, LinError> {
    let summands = vec![in alloc; (3, term_of(alloc, 1, 0, 1)?)]?;
    let question = Question::Combine(Summands::from_vec(summands), 4);
    Ok(question.copy(alloc)? == question)
}

fn copies_elimination(alloc: Global) -> Result<bool, LinError> {
    let columns = Columns::from_vec(vec![in alloc; 0]?);
    let question = Question::Eliminate(two_columns(alloc)?, columns);
    Ok(question.copy(alloc)? == question)
}

#[test]
fn copies_questions(rt: HostRuntime) -> Result<(), Fail> {
    let sum = copies_sum(rt.alloc())?;
    assert!(rt; sum);
    let elimination = copies_elimination(rt.alloc())?;
    assert!(rt; elimination);
    Ok(())
}
