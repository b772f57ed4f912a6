//! Cubes of one column.

ghost use Rattle.std.specs.Prelude.{◌≡◌, ◌∷◌, [], IfOk, IsTrue};
ghost use Rattle.linear_formula.specs.Formula.{are_terms};
ghost use Rattle.test_forms.specs.Rows.{NamesAlone};

use linear_formula::formula::{Atom, Atoms, Cube};
use linear_formula::term::{Parts, Term};
use std::alloc::{AllocError, Global};

fn one_row(alloc: Global, term: Term) -> Result<Cube, AllocError>
    ensures row { IfOk result (λ c. c.atoms ≡ record { term = term } ∷ []) }
    ensures terms { IfOk result (λ c. IsTrue (are_terms c.atoms)) }
{
    let mut atoms = Atoms::new(alloc);
    atoms.push(Atom { term })?;
    let _ = atoms.as_slice();
    Ok(Cube { atoms })
}

/// The column is at least the bound.
pub fn at_least(alloc: Global, column: u32, bound: i32) -> Result<Cube, AllocError>
    ensures names { IfOk result (λ c. NamesAlone column c.atoms) }
    ensures terms { IfOk result (λ c. IsTrue (are_terms c.atoms)) }
{
    let parts = vec![in alloc; (column, -1)]?;
    one_row(alloc, Term::new(Parts::from_vec(parts), i128::from(bound)))
}

/// The column is at most the bound.
pub fn at_most(alloc: Global, column: u32, bound: i32) -> Result<Cube, AllocError>
    ensures names { IfOk result (λ c. NamesAlone column c.atoms) }
    ensures terms { IfOk result (λ c. IsTrue (are_terms c.atoms)) }
{
    let parts = vec![in alloc; (column, 1)]?;
    one_row(alloc, Term::new(Parts::from_vec(parts), -i128::from(bound)))
}

fn two_rows(alloc: Global, first: Term, second: Term) -> Result<Cube, AllocError>
    ensures rows { IfOk result (λ c. c.atoms
        ≡ record { term = first } ∷ record { term = second } ∷ []) }
    ensures terms { IfOk result (λ c. IsTrue (are_terms c.atoms)) }
{
    let mut atoms = Atoms::new(alloc);
    atoms.push(Atom { term: first })?;
    atoms.push(Atom { term: second })?;
    let _ = atoms.as_slice();
    Ok(Cube { atoms })
}

/// The column is the value.
pub fn exactly(alloc: Global, column: u32, value: i32) -> Result<Cube, AllocError>
    ensures names { IfOk result (λ c. NamesAlone column c.atoms) }
    ensures terms { IfOk result (λ c. IsTrue (are_terms c.atoms)) }
{
    let most = vec![in alloc; (column, 1)]?;
    let least = vec![in alloc; (column, -1)]?;
    let value = i128::from(value);
    two_rows(
        alloc,
        Term::new(Parts::from_vec(most), -value),
        Term::new(Parts::from_vec(least), value),
    )
}
