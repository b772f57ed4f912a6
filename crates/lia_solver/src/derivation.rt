//! The derived rows that a contradiction needs.

ghost use Rattle.std.specs.Prelude.{◌≡◌, ◌<◌, ◌+◌, ◌^◌, ◌∷◌, ◌++◌, [], List, length, slice_set, IfOk, OnOk, IsTrue};
ghost use Rattle.linear_formula.specs.LinearSum.{LinearSum};
ghost use Rattle.infeasible_cert.specs.declared.certificate.Derived.{Derived};
ghost use Rattle.infeasible_cert.specs.Right.{row_at, rows_after, AreRightSteps, EndsInContradiction};
ghost use Rattle.infeasible_cert.specs.Terms.{AreDerivedTerms};
ghost use Rattle.shadow_elim.specs.Reduction.{is_contradiction};
ghost use Rattle.lia_solver.specs.declared.table.Origin.TheVariants as origin;
ghost use Rattle.lia_solver.specs.steps.Deriving.{IsNumbered, IsFounded, EndWith, step_by};
ghost use Rattle.lia_solver.specs.steps.Entries.{entry_at, sum_at};
ghost use Rattle.lia_solver.specs.steps.Solved.{HaveOrigins};
ghost use Rattle.lia_solver.specs.steps.Tables.{AreRows};

use crate::table::{Making, Origin, Table};
use infeasible_cert::certificate::{Derived, Multiples};
use linear_formula::error::OutOfMemory;
use linear_formula::formula::Atom;
use linear_formula::term::{Parts, Term};
use std::alloc::{AllocError, Global};

/// Derived rows so far, numbered from `first` on, and the numbers of the rows of a table: one more
/// than the number, 0 where a row has none yet.
#[derive(Drop)]
pub struct Derivation {
    first: u32,
    numbers: Vec<u32>,
    steps: Vec<Derived>,
}

/// The row at a place as an atom.
fn atom_at(alloc: Global, table: &Table, place: usize) -> Result<Atom, OutOfMemory>
    requires rows { AreRows table.now }
    requires place { place < length table.now }
    ensures { IfOk result (λ a. a.term ≡ sum_at table.now place) }
{
    let parts = Vec::from_slice(alloc, table.parts(place))?;
    Ok(Atom {
        term: Term::new(Parts::from_vec(parts), table.constant(place)),
    })
}

/// The step of a row that is made of two rows with these numbers.
fn step(
    alloc: Global,
    row: Atom,
    making: Making,
    upper: u32,
    lower: u32,
) -> Result<Derived, OutOfMemory>
    ensures step { IfOk result (λ d. d ≡ step_by row.term making upper lower) }
    ensures terms { IfOk result (λ d. AreDerivedTerms (d ∷ [])) }
{
    let _ = row.term.parts();
    let parts = vec![in alloc;
        (upper, making.upper_multiple),
        (lower, making.lower_multiple),
    ]?;
    Ok(Derived {
        row,
        parts: Multiples::from_vec(parts),
        divide: making.divide,
    })
}

/// A given contradiction as the one derived row.
fn restated(alloc: Global, row: Atom, number: u32) -> Result<Vec<Derived>, OutOfMemory>
    requires { IsTrue (is_contradiction row.term) }
    ensures right { IfOk result (λ steps. (base : List LinearSum) → number < length base →
        row_at base number ≡ row.term →
        (AreRightSteps base steps.items × EndsInContradiction steps.items)) }
    ensures terms { IfOk result (λ steps. AreDerivedTerms steps.items) }
{
    let _ = row.term.parts();
    let parts = vec![in alloc; (number, 1)]?;
    let step = Derived {
        row,
        parts: Multiples::from_vec(parts),
        divide: 1,
    };
    Ok(vec![in alloc; step]?)
}

/// One more than the number of the next step. Where no number is left, there would be no memory for
/// the rows.
fn after_next(first: u32, steps: usize) -> Result<u32, OutOfMemory>
    requires { steps < 2 ^ 63 }
    ensures { IfOk result (λ number. number ≡ first + steps + 1) }
{
    match u32::try_from(first as usize + steps + 1) {
        Ok(number) => Ok(number),
        Err(_) => Err(AllocError),
    }
}

impl Derivation {
    /// Adds the step of the row at a place, and says its number.
    fn push(&mut self, place: usize, step: Derived) -> Result<u32, OutOfMemory>
        requires { place < length self.old.numbers.items }
        ensures number { IfOk result (λ n. n ≡ self.old.first + length self.old.steps.items) }
        ensures first { self.new.first ≡ self.old.first }
        ensures numbers { OnOk result (self.new.numbers.items ≡ slice_set self.old.numbers.items
            place (self.old.first + length self.old.steps.items + 1)) }
        ensures steps { OnOk result (self.new.steps.items ≡ self.old.steps.items ++ step ∷ []) }
    {
        let next = after_next(self.first, self.steps.len())?;
        self.steps.push(step)?;
        self.numbers[place] = next;
        Ok(next - 1)
    }

    /// The number of the row at a place, which is derived where it is new. The recursion is as deep
    /// as there are columns.
    #[cycle(derive)]
    fn number(&mut self, alloc: Global, table: &Table, place: usize) -> Result<u32, OutOfMemory>
        requires rows { AreRows table.now }
        requires place { place < length table.now }
        requires founded { (base : List LinearSum) × IsFounded base table.now self.old }
        ensures founded { OnOk result ((base : List LinearSum) →
            IsFounded base table.now self.old → IsFounded base table.now self.new) }
        ensures number { IfOk result (λ n. (base : List LinearSum) →
            IsFounded base table.now self.old →
            IsNumbered (rows_after base self.new.steps.items) n (sum_at table.now place)) }
        ensures later { OnOk result ((more : List Derived) × (self.new.steps.items
            ≡ self.old.steps.items ++ more)) }
    {
        match table.origin(place) {
            Origin::Given(number) => Ok(number),
            Origin::Made(making) => {
                let known = self.numbers[place];
                if known > 0 {
                    return Ok(known - 1);
                }
                self.derive(alloc, table, place, making)
            }
        }
    }

    /// Derives the row at a place, and those that it is made of.
    #[cycle(derive)]
    fn derive(
        &mut self,
        alloc: Global,
        table: &Table,
        place: usize,
        making: Making,
    ) -> Result<u32, OutOfMemory>
        requires rows { AreRows table.now }
        requires place { place < length table.now }
        requires made { (entry_at table.now place).origin ≡ origin.Made making }
        requires founded { (base : List LinearSum) × IsFounded base table.now self.old }
        ensures founded { OnOk result ((base : List LinearSum) →
            IsFounded base table.now self.old → IsFounded base table.now self.new) }
        ensures number { IfOk result (λ n. (base : List LinearSum) →
            IsFounded base table.now self.old →
            IsNumbered (rows_after base self.new.steps.items) n (sum_at table.now place)) }
        ensures later { OnOk result ((more : List Derived) × (self.new.steps.items
            ≡ self.old.steps.items ++ more)) }
        ensures ends { OnOk result (EndWith (sum_at table.now place) self.new.steps.items) }
    {
        let upper = self.number(alloc, table, making.upper)?;
        let lower = self.number(alloc, table, making.lower)?;
        let row = atom_at(alloc, table, place)?;
        let step = step(alloc, row, making, upper, lower)?;
        self.push(place, step)
    }
}

/// The derivation of a row that is made of others.
fn derived(
    alloc: Global,
    table: &Table,
    place: usize,
    making: Making,
    first: u32,
) -> Result<Vec<Derived>, OutOfMemory>
    requires rows { AreRows table.now }
    requires place { place < length table.now }
    requires made { (entry_at table.now place).origin ≡ origin.Made making }
    requires founded { (base : List LinearSum) × (length base ≡ first)
        × HaveOrigins base (2 ^ 32) table.now }
    ensures right { IfOk result (λ steps. (base : List LinearSum) → length base ≡ first →
        HaveOrigins base (2 ^ 32) table.now → AreRightSteps base steps.items) }
    ensures ends { IfOk result (λ steps. EndWith (sum_at table.now place) steps.items) }
    ensures terms { IfOk result (λ steps. AreDerivedTerms steps.items) }
{
    let mut derivation = Derivation {
        first,
        numbers: vec![in alloc; 0; table.len()]?,
        steps: Vec::new(alloc),
    };
    derivation.derive(alloc, table, place, making)?;
    let Derivation { steps, .. } = derivation;
    Ok(steps)
}

/// The derivation of a row that never holds: the steps that it needs, the last of them its own.
pub fn derived_contradiction(
    alloc: Global,
    table: &Table,
    place: usize,
    first: u32,
) -> Result<Vec<Derived>, OutOfMemory>
    requires rows { AreRows table.now }
    requires place { place < length table.now }
    requires never { IsTrue (is_contradiction (sum_at table.now place)) }
    requires founded { (base : List LinearSum) × (length base ≡ first)
        × HaveOrigins base (2 ^ 32) table.now }
    ensures right { IfOk result (λ steps. (base : List LinearSum) → length base ≡ first →
        HaveOrigins base (2 ^ 32) table.now →
        (AreRightSteps base steps.items × EndsInContradiction steps.items)) }
    ensures terms { IfOk result (λ steps. AreDerivedTerms steps.items) }
{
    match table.origin(place) {
        Origin::Given(number) => restated(alloc, atom_at(alloc, table, place)?, number),
        Origin::Made(making) => derived(alloc, table, place, making, first),
    }
}
