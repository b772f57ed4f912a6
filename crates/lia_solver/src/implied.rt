//! Atoms that one row of a cube entails by itself.

ghost use Rattle.std.specs.Prelude.{◌≡◌, ◌<◌, ◌≤◌, ◌^◌, ◌∷◌, [], ◌+ℤ◌, All, true, length, slice_index_or, unsigned_abs, IfOk, IfSome, IsTrue};
ghost use Rattle.linear_formula.specs.Results.{negated};
ghost use Rattle.linear_formula.specs.declared.formula.Atom.{Atom};
ghost use Rattle.infeasible_cert.specs.Refutation.{refutation_of, close};
ghost use Rattle.infeasible_cert.specs.Right.{columns_of, rows_of};
ghost use Rattle.shadow_elim.specs.Reduction.{is_as_strong};
ghost use Rattle.lia_solver.specs.steps.Implied.{IsShort, IsSimple, sum_of_two, IsImplied};

use infeasible_cert::certificate::{Certificate, Derived, Multiples};
use linear_formula::error::OutOfMemory;
use linear_formula::formula::Atom;
use linear_formula::term::{Parts, Term};
use shadow_elim::limit::{MAX_COLUMNS, MAX_ROWS};
use std::alloc::Global;

fn is_short(term: &Term) -> bool
    ensures { result ≡ true → IsShort term.now }
{
    if term.constant().unsigned_abs() > 1 << 64 {
        return false;
    }
    match term.parts().first() {
        Some((column, _)) => {
            term.parts().len() == 1 && term.coefficient(*column).unsigned_abs() <= 1 << 19
        }
        None => true,
    }
}

fn are_short(atoms: &[Atom]) -> bool
    ensures { result ≡ true → All (λ a. IsShort a.term) atoms.now }
{
    for atom in atoms {
        if !is_short(&atom.term) {
            return false;
        }
    }
    true
}

/// Whether the plan meets no limit on these atoms and one more, if that has no other column and is
/// as simple.
pub fn is_simple(atoms: &[Atom], columns: &[u32]) -> bool
    ensures { result ≡ true → IsSimple atoms.now columns.now }
{
    columns.len() <= MAX_COLUMNS
        && atoms.len() < MAX_ROWS
        && atoms.len() + 2 * columns.len() < MAX_ROWS - 1
        && are_short(atoms)
}

/// The place of a row with the atom's coefficients and a constant as great.
fn place_of(atoms: &[Atom], atom: &Atom) -> Option<usize>
    ensures { IfSome result (λ i. (i < length atoms.now) × ((d : Atom) →
        IsTrue (is_as_strong atom.now.term (slice_index_or atoms.now i d).term))) }
{
    for (place, other) in atoms.iter().enumerate() {
        if other.term.parts == atom.term.parts && other.term.constant() >= atom.term.constant() {
            return Some(place);
        }
    }
    None
}

/// The sum of two rows that exclude each other.
fn sum_of(
    alloc: Global,
    first: &Term,
    second: &Term,
    numbers: (u32, u32),
) -> Result<Certificate, OutOfMemory>
    requires first { unsigned_abs first.now.constant ≤ 2 ^ 64 }
    requires second { unsigned_abs second.now.constant ≤ 2 ^ 64 }
    ensures { IfOk result (λ c. refutation_of c ≡ close (sum_of_two numbers.0 numbers.1
        (first.now.constant +ℤ second.now.constant) ∷ [])) }
{
    let parts = vec![in alloc; (numbers.0, 1), (numbers.1, 1)]?;
    let none = Parts::from_vec(Vec::new(alloc));
    let step = Derived {
        row: Atom {
            term: Term::new(none, first.constant() + second.constant()),
        },
        parts: Multiples::from_vec(parts),
        divide: 1,
    };
    Ok(Certificate::Close(vec![in alloc; step]?))
}

/// A certificate for an atom that one row of a simple cube entails by itself.
pub fn implied(
    alloc: Global,
    atoms: &[Atom],
    columns: &[u32],
    atom: &Atom,
    negation: &Atom,
) -> Result<Option<Certificate>, OutOfMemory>
    requires simple { IsSimple atoms.now columns.now }
    requires columns { columns.now ≡ columns_of (rows_of atoms.now) }
    requires negation { negation.now.term ≡ negated atom.now.term }
    ensures { IfOk result (λ o. IfSome o (λ c. IsImplied atoms.now atom.now c)) }
{
    if !is_short(&negation.term) {
        return Ok(None);
    }
    match place_of(atoms, atom) {
        Some(place) => {
            let numbers = (place as u32, atoms.len() as u32);
            let certificate = sum_of(alloc, &atoms[place].term, &negation.term, numbers)?;
            Ok(Some(certificate))
        }
        None => Ok(None),
    }
}
