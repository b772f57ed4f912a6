//! Terms by their places.

ghost use Rattle.std.specs.Prelude.{◌≡◌, ◌-◌, ◌≤◌, ◌++◌, pos, length, map, replicate, IfOk};
ghost use Rattle.linear_formula.specs.Results.{constant_sum};
ghost use Rattle.flow_graph.specs.Readings.{term_at as term_in};
ghost use Rattle.must_region.specs.Rules.{set_terms};

use c_tree::tree::Slot;
use linear_formula::error::OutOfMemory;
use linear_formula::term::{Parts, Term};
use std::alloc::Global;
use summary_form::path::Terms;

/// The term 0.
fn zero(alloc: Global) -> Term
    ensures { result ≡ constant_sum (pos 0) }
{
    Term::new(Parts::from_vec(Vec::new(alloc)), 0)
}

/// The term at a place; a place without a term has 0.
fn term_at(alloc: Global, terms: &[Term], place: usize) -> Result<Term, OutOfMemory>
    ensures { IfOk result (λ t. t ≡ term_in terms.now place) }
{
    match terms.get(place) {
        Some(term) => term.copy(alloc),
        None => Ok(zero(alloc)),
    }
}

/// The terms at these places.
pub fn terms_at(alloc: Global, terms: &[Term], places: &[Slot]) -> Result<Terms, OutOfMemory>
    ensures { IfOk result (λ ts. ts ≡ map (term_in terms.now) places.now) }
{
    let mut items = Vec::with_capacity(alloc, places.len())?;
    for place in places {
        items.push(term_at(alloc, terms, *place as usize)?)?;
    }
    Ok(Terms::from_vec(items))
}

/// The terms, and 0 up to a number of terms.
pub fn padded(alloc: Global, terms: &Terms, all: u32) -> Result<Terms, OutOfMemory>
    requires { length terms.now ≤ all }
    ensures { IfOk result
        (λ ts. ts ≡ terms.now ++ replicate (all - length terms.now) (constant_sum (pos 0))) }
{
    let count = terms.as_slice().len() as u32;
    let mut items = terms.copy(alloc)?.into_vec();
    for _ in count..all {
        items.push(zero(alloc))?;
    }
    Ok(Terms::from_vec(items))
}

/// The terms with others at these places; of a place that stands there twice the first counts.
pub fn with_terms(
    alloc: Global,
    all: &Terms,
    places: &[Slot],
    terms: &[Term],
) -> Result<Terms, OutOfMemory>
    ensures { IfOk result (λ ts. ts ≡ set_terms all.now places.now terms.now) }
{
    let mut items = all.copy(alloc)?.into_vec();
    let mut left = places.len();
    while left > 0 {
        left -= 1;
        let place = places[left] as usize;
        let term = term_at(alloc, terms, left)?;
        if place < items.len() {
            items[place] = term;
        }
    }
    Ok(Terms::from_vec(items))
}
