//! Terms in the places of columns, all at once.

ghost use Rattle.std.specs.Prelude.{◌≡◌, ℕ, IfOk, IsTrue};
ghost use Rattle.linear_formula.specs.LinearSum.{LinearSum, is_term};
ghost use Rattle.linear_formula.specs.Replaced.{column_sum, summands_of};

use crate::error::OutOfMemory;
use crate::question::Summands;
use crate::term::{Parts, Term};
use std::alloc::Global;

/// What stands in the place of each column.
pub trait Reading {
    ghost term_at: { Self → ℕ → LinearSum };

    fn term(&self, alloc: Global, column: u32) -> Result<Term, OutOfMemory>
        ensures { IfOk result (λ t. t ≡ term_at self.now column) };
}

/// The column alone.
pub fn column_term(alloc: Global, column: u32) -> Result<Term, OutOfMemory>
    ensures value { IfOk result (λ t. t ≡ column_sum column) }
    ensures kept { IfOk result (λ t. IsTrue (is_term t)) }
{
    let parts = vec![in alloc; (column, 1)]?;
    Ok(Term::new(Parts::from_vec(parts), 0))
}

/// What has to be added up to put the terms of a reading in the places of a term's columns: a
/// multiple for each part, in order, and then the constant. `Term::combine` adds it up.
pub fn summands<R: Reading>(
    alloc: Global,
    reading: &R,
    term: &Term,
) -> Result<Summands, OutOfMemory>
    ensures { IfOk result (λ s. s ≡ summands_of (R.term_at reading.now) term.now) }
{
    let mut items = Vec::with_capacity(alloc, term.parts().len() + 1)?;
    for (column, coefficient) in term.parts() {
        let multiplier = *coefficient as i64;
        items.push((multiplier, reading.term(alloc, *column)?))?;
    }
    items.push((
        1,
        Term::new(Parts::from_vec(Vec::new(alloc)), term.constant()),
    ))?;
    Ok(Summands::from_vec(items))
}
