//! Rows as sums in order, and the first sum that is too wide.

ghost use Rattle.std.specs.Prelude.{◌≡◌, ◌∷◌, [], ◌++◌, None, pos, negsuc, IfOk, IfErr, OnOk, IsTrue};
ghost use Rattle.linear_formula.specs.Formula.{are_terms};
ghost use Rattle.linear_formula.specs.LinearSum.{is_term};
ghost use Rattle.linear_formula.specs.Results.{constant_sum};
ghost use Rattle.linear_formula.specs.Replaced.{replaced, summands_of};
ghost use Rattle.shadow_elim.specs.Sums.{total, first_wide, rows_of_sums, row_sums, equal_sums, wide_sum, IsFirstWide, IsWideSum};
ghost use Rattle.shadow_elim.specs.Projection.{IfRefused};
ghost use Rattle.shadow_elim.specs.RightLimit.{IsRight};

use crate::limit::{Kept, Limit};
use crate::projection::ProjectionError;
use linear_formula::error::{LinError, OutOfMemory};
use linear_formula::formula::{Atom, Atoms, Cube};
use linear_formula::question::{Question, Summands};
use linear_formula::reading::{Reading, summands};
use linear_formula::term::{Parts, Term};
use std::alloc::Global;

/// The greatest number of parts that are added up one after the other.
const SHORT: usize = 3;

/// Multiples of terms and a constant.
#[derive(Debug, Drop)]
pub struct Sum {
    pub summands: Summands,
    pub constant: i64,
}

/// The limit of a sum that is too wide.
fn wide(alloc: Global, sum: &Sum) -> Result<Kept, OutOfMemory>
    ensures { IfOk result (λ kept. kept ≡ wide_sum sum.now) }
{
    let question = Question::Combine(sum.summands.copy(alloc)?, sum.constant);
    let branch = question.copy(alloc)?;
    Ok(Kept {
        question,
        limit: Limit::Wide { branch },
    })
}

/// The term of a sum, or the limit of a sum that is too wide.
pub fn total_term(alloc: Global, sum: &Sum) -> Result<Term, ProjectionError>
    ensures value { IfOk result (λ t. t ≡ total sum.now) }
    ensures kept { IfOk result (λ t. IsTrue (is_term t)) }
    ensures limit { IfErr result (λ e. IfRefused e (IsWideSum sum.now)) }
    ensures right { IfErr result (λ e. IfRefused e IsRight) }
{
    match Term::combine(alloc, sum.summands.as_slice(), sum.constant) {
        Ok(term) => Ok(term),
        Err(LinError::Wide) => {
            let kept = wide(alloc, sum)?;
            Err(ProjectionError::Limit(kept))
        }
        Err(LinError::Memory) => Err(ProjectionError::Memory),
    }
}

/// The rows of the sums, or the limit of the first sum that is too wide.
pub fn total_rows(alloc: Global, sums: &[Sum]) -> Result<Cube, ProjectionError>
    ensures rows { IfOk result (λ cube. cube.atoms ≡ rows_of_sums sums.now) }
    ensures decided { IfOk result (λ _. first_wide sums.now ≡ None) }
    ensures terms { IfOk result (λ cube. IsTrue (are_terms cube.atoms)) }
    ensures limit { IfErr result (λ e. IfRefused e (IsFirstWide sums.now)) }
    ensures right { IfErr result (λ e. IfRefused e IsRight) }
{
    let mut rows = Atoms::with_capacity(alloc, sums.len())?;
    for sum in sums {
        let term = total_term(alloc, sum)?;
        rows.push(Atom { term })?;
    }
    let _ = rows.as_slice();
    Ok(Cube { atoms: rows })
}

/// The constant of a term.
fn constant_of(alloc: Global, term: &Term) -> Term
    ensures value { result ≡ constant_sum term.now.constant }
    ensures kept { IsTrue (is_term result) }
{
    Term::new(Parts::from_vec(Vec::new(alloc)), term.constant())
}

/// A term with others in the places of its columns, by an addition for each part and without a
/// list. It can be too wide where the term isn't: the part sums count too.
fn read_short<R: Reading>(alloc: Global, reading: &R, term: &Term) -> Result<Term, LinError>
    ensures value { IfOk result (λ t. t ≡ replaced (R.term_at reading.now) term.now) }
    ensures kept { IfOk result (λ t. IsTrue (is_term t)) }
{
    let mut total = constant_of(alloc, term);
    let parts = term.parts();
    let mut left = parts.len();
    while left > 0 {
        left -= 1;
        let (column, coefficient) = &parts[left];
        let by = reading.term(alloc, *column)?;
        total = Term::add_multiples(alloc, *coefficient as i64, &by, 1, &total)?;
    }
    Ok(total)
}

/// A term with others in the places of its columns, or the limit of their sum.
fn read_term<R: Reading>(alloc: Global, reading: &R, term: &Term) -> Result<Term, ProjectionError>
    ensures value { IfOk result (λ t. t ≡ replaced (R.term_at reading.now) term.now) }
    ensures kept { IfOk result (λ t. IsTrue (is_term t)) }
    ensures limit { IfErr result
        (λ e. IfRefused e (IsWideSum (record {
          summands = summands_of (R.term_at reading.now) term.now;
          constant = pos 0;
        }))) }
    ensures right { IfErr result (λ e. IfRefused e IsRight) }
{
    if term.parts().len() <= SHORT {
        match read_short(alloc, reading, term) {
            Ok(read) => return Ok(read),
            Err(LinError::Memory) => return Err(ProjectionError::Memory),
            Err(LinError::Wide) => {}
        }
    }
    let sum = Sum {
        summands: summands(alloc, reading, term)?,
        constant: 0,
    };
    total_term(alloc, &sum)
}

/// Adds the atoms with terms in the places of their columns, one by one: there is no list of the
/// sums. At a limit the rows before it stay.
pub fn read_onto<R: Reading>(
    alloc: Global,
    rows: &mut Atoms,
    reading: &R,
    atoms: &[Atom],
) -> Result<(), ProjectionError>
    ensures rows { OnOk result (rows.new ≡ rows.old
        ++ rows_of_sums (row_sums (R.term_at reading.now) atoms.now)) }
    ensures decided { OnOk result
        (first_wide (row_sums (R.term_at reading.now) atoms.now) ≡ None) }
    ensures limit { IfErr result
        (λ e. IfRefused e (IsFirstWide (row_sums (R.term_at reading.now) atoms.now))) }
    ensures right { IfErr result (λ e. IfRefused e IsRight) }
{
    for atom in atoms {
        let term = read_term(alloc, reading, &atom.term)?;
        rows.push(Atom { term })?;
    }
    Ok(())
}

/// Adds the sums of the atoms with terms in the places of their columns.
pub fn push_read<R: Reading>(
    alloc: Global,
    sums: &mut Vec<Sum>,
    reading: &R,
    atoms: &[Atom],
) -> Result<(), OutOfMemory>
    ensures { OnOk result (sums.new.items ≡ sums.old.items ++ row_sums (R.term_at reading.now)
        atoms.now) }
{
    for atom in atoms {
        sums.push(Sum {
            summands: summands(alloc, reading, &atom.term)?,
            constant: 0,
        })?;
    }
    Ok(())
}

fn difference(alloc: Global, left: &Term, right: &Term) -> Result<Sum, OutOfMemory>
    ensures { IfOk result
        (λ s. s ≡ record {
          summands = (pos 1, left.now) ∷ (negsuc 0, right.now) ∷ [];
          constant = pos 0;
        }) }
{
    let items = vec![in alloc; (1, left.copy(alloc)?), (-1, right.copy(alloc)?)]?;
    Ok(Sum {
        summands: Summands::from_vec(items),
        constant: 0,
    })
}

/// Adds the two rows that make the terms equal.
pub fn push_equal(
    alloc: Global,
    sums: &mut Vec<Sum>,
    left: &Term,
    right: &Term,
) -> Result<(), OutOfMemory>
    ensures { OnOk result (sums.new.items ≡ sums.old.items ++ equal_sums left.now right.now) }
{
    sums.push(difference(alloc, left, right)?)?;
    sums.push(difference(alloc, right, left)?)?;
    Ok(())
}
