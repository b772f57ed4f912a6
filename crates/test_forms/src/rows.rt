//! Terms and cubes, and how they are read back.

ghost use Rattle.std.specs.Prelude.{◌≡◌, [], IfOk, IsTrue};
ghost use Rattle.linear_formula.specs.LinearSum.{is_term as is_one};

use linear_formula::error::LinError;
use linear_formula::formula::{Atom, Atoms, Cube};
use linear_formula::reading::column_term;
use linear_formula::term::Term;
use std::alloc::Global;

/// Multiples of columns and a constant. As a row they are at most 0.
pub type Row<'a> = (&'a [(i64, u32)], i64);

/// The parts and the constant of a term.
pub type Plain<'a> = (&'a [(u32, i128)], i128);

/// The sum of the multiples and the constant. A column may be named more than once.
pub fn term_of(alloc: Global, row: &Row) -> Result<Term, LinError>
    ensures { IfOk result (λ t. IsTrue (is_one t)) }
{
    let mut summands = Vec::new(alloc);
    for (multiplier, column) in row.0 {
        summands.push((*multiplier, column_term(alloc, *column)?))?;
    }
    Term::combine(alloc, &summands, row.1)
}

/// The rows, in order.
pub fn cube_of(alloc: Global, rows: &[Row]) -> Result<Cube, LinError> {
    let mut atoms = Atoms::new(alloc);
    for row in rows {
        let term = term_of(alloc, row)?;
        atoms.push(Atom { term })?;
    }
    Ok(Cube { atoms })
}

/// No row.
pub fn empty(alloc: Global) -> Cube
    ensures { result.atoms ≡ [] }
{
    Cube {
        atoms: Atoms::new(alloc),
    }
}

pub fn is_term(term: &Term, wanted: &Plain) -> bool {
    term.constant() == wanted.1 && term.parts() == wanted.0
}

/// Whether these are the terms, in order.
pub fn are_terms(terms: &[Term], wanted: &[Plain]) -> bool {
    for (term, plain) in terms.iter().zip(wanted) {
        if !is_term(term, plain) {
            return false;
        }
    }
    terms.len() == wanted.len()
}

/// Whether these are the rows, in order.
pub fn are_rows(cube: &Cube, wanted: &[Plain]) -> bool {
    let atoms = cube.atoms.as_slice();
    for (atom, plain) in atoms.iter().zip(wanted) {
        if !is_term(&atom.term, plain) {
            return false;
        }
    }
    atoms.len() == wanted.len()
}
