//! Terms: sums of multiples of columns, and a constant.

ghost use Rattle.std.specs.Prelude.{◌≡◌, ◌↔◌, ◌∷◌, [], ◌≤◌, ◌^◌, ◌-ℤ◌, ◌+ℤ◌, length, ℕ, ℤ, pos, unsigned_abs, unwrap_or, IfOk, OnOk, OnErr, IsErrOf, IsTrue};
ghost use Rattle.std.specs.BTreeMap.{get};
ghost use Rattle.std.specs.Ordering.{nat_cmp};
ghost use Rattle.linear_formula.specs.LinearSum.{LinearSum, coefficient, value_of, value_of_parts, valuation, is_term, is_within, max_coefficient};
ghost use Rattle.linear_formula.specs.Equality.{same_parts, same_sum};
ghost use Rattle.linear_formula.specs.steps.Order.{InOrder, AllWithin};
ghost use Rattle.linear_formula.specs.Results.{combination, combination_value, plus_both, renamed_by, substituted, negated, negated_parts, valuation_with};

use crate::assignment::Assignment;
use crate::column::{coefficient_of, negate_all, without_column};
use crate::error::{LinError, OutOfMemory};
use crate::exact_sum::ExactSum;
use crate::merge::merged;
use crate::renaming::{NewColumns, add_renamed};
use crate::sums::Sums;
use std::alloc::Global;
use std::marker::Model;

/// The greatest absolute value of a coefficient.
pub const MAX_COEFFICIENT: i128 = 1 << 40;

/// The greatest number of parts of a term.
pub const MAX_PARTS: usize = 1024;

/// Up to this many summands are added one after the other; more are, column by column.
const FEW_SUMMANDS: usize = 8;

/// The greatest absolute value of a term's constant.
pub const MAX_CONSTANT: i128 = 1 << 84;

/// Columns and their coefficients.
#[derive(Debug, Drop)]
pub struct Parts {
    items: Vec<(u32, i128)>,
}

impl Model for Parts {
    ghost use Rattle.std.specs.Prelude.{List, ℕ, ℤ};

    ghost Value = { List (ℕ × ℤ) };

    ghost view = { λ p. p.items.items };
}

impl Parts {
    /// Takes no memory of its own.
    pub fn from_vec(items: Vec<(u32, i128)>) -> Parts
        ensures { result ≡ items.items }
    {
        Parts { items }
    }

    /// The pairs of column and coefficient, in ascending order of columns.
    pub fn into_vec(self) -> Vec<(u32, i128)>
        ensures { result.items ≡ self }
    {
        let Parts { items } = self;
        items
    }

    /// The pairs of column and coefficient, in ascending order of columns.
    pub fn as_slice(&self) -> &[(u32, i128)]
        ensures { result.now ≡ self.now }
    {
        self.items.as_slice()
    }

    /// Changes the sign of each coefficient.
    fn negate(&mut self)
        requires { AllWithin self.old }
        ensures { self.new ≡ negated_parts self.old }
    {
        negate_all(&mut self.items);
    }

    /// An equal list in memory of its own.
    pub fn copy(&self, alloc: Global) -> Result<Parts, OutOfMemory>
        ensures { IfOk result (λ parts. parts ≡ self.now) }
    {
        Ok(Parts::from_vec(Vec::from_slice(alloc, self.as_slice())?))
    }
}

/// Columns in ascending order, without the coefficient 0, within the limits.
#[derive(Debug, Drop)]
pub struct Term {
    pub parts: Parts,
    pub constant: i128,
}

impl Model for Term {
    ghost use Rattle.std.specs.Prelude.{IsTrue};
    ghost use Rattle.linear_formula.specs.LinearSum.{LinearSum, is_term};

    ghost Value = { LinearSum };

    ghost view = { λ t. record { parts = t.parts; constant = t.constant } };

    ghost invariant = { λ t. IsTrue (is_term (record { parts = t.parts; constant = t.constant })) };
}

impl PartialEq for Parts {
    ghost use Rattle.linear_formula.specs.steps.SameValues.{partial, parts-same};

    ghost eq = { same_parts };

    ghost laws = { partial same_parts parts-same };

    fn eq(&self, other: &Parts) -> bool
        ensures test { result ≡ same_parts self.now other.now }
        ensures same { IsTrue result ↔ (self.now ≡ other.now) }
    {
        self.as_slice() == other.as_slice()
    }
}

impl Eq for Parts {
    ghost use Rattle.std.specs.Cmp.{decided};
    ghost use Rattle.linear_formula.specs.steps.SameValues.{parts-same};

    ghost laws = { decided same_parts parts-same };
}

impl PartialEq for Term {
    ghost use Rattle.linear_formula.specs.steps.SameValues.{partial, sum-same};

    ghost eq = { same_sum };

    ghost laws = { partial same_sum sum-same };

    fn eq(&self, other: &Term) -> bool
        ensures test { result ≡ same_sum self.now other.now }
        ensures same { IsTrue result ↔ (self.now ≡ other.now) }
    {
        self.parts == other.parts && self.constant == other.constant
    }
}

impl Eq for Term {
    ghost use Rattle.std.specs.Cmp.{decided};
    ghost use Rattle.linear_formula.specs.steps.SameValues.{sum-same};

    ghost laws = { decided same_sum sum-same };
}

impl Term {
    /// The sum of these parts and the constant.
    pub fn new(parts: Parts, constant: i128) -> Term
        requires { IsTrue (is_term (record { parts = parts; constant = constant })) }
        ensures value { result ≡ record { parts = parts; constant = constant } }
        ensures kept { IsTrue (is_term result) }
    {
        Term { parts, constant }
    }

    /// The pairs of column and coefficient other than 0, in ascending order of columns.
    pub fn parts(&self) -> &[(u32, i128)]
        ensures value { result.now ≡ self.now.parts }
        ensures kept { IsTrue (is_term self.now) }
    {
        self.parts.as_slice()
    }

    /// What is added to the parts.
    pub fn constant(&self) -> i128
        ensures value { result ≡ self.now.constant }
        ensures kept { IsTrue (is_term self.now) }
    {
        self.constant
    }

    /// The coefficient of a column, 0 where the term doesn't name it.
    pub fn coefficient(&self, column: u32) -> i128
        ensures value { result ≡ coefficient column self.now }
        ensures limit { unsigned_abs result ≤ max_coefficient }
        ensures kept { IsTrue (is_term self.now) }
    {
        coefficient_of(self.parts(), column)
    }

    /// An equal term in memory of its own.
    pub fn copy(&self, alloc: Global) -> Result<Term, OutOfMemory>
        ensures { IfOk result (λ term. term ≡ self.now) }
    {
        let parts = self.parts.copy(alloc)?;
        Ok(Term {
            parts,
            constant: self.constant,
        })
    }

    /// The sum of the multiples and of the constant. No partial sum is ever too wide: only the
    /// result counts.
    pub fn combine(alloc: Global, parts: &[(i64, Term)], constant: i64) -> Result<Term, LinError>
        ensures value { IfOk result (λ t. t ≡ combination parts.now constant) }
        ensures kept { IfOk result (λ t. IsTrue (is_term t)) }
        ensures law { IfOk result (λ t. (v : ℕ → ℤ) → value_of v t ≡ combination_value v parts.now
            constant) }
        ensures wide { IsErrOf result LinError.Wide →
            ¬ IsTrue (is_within (combination parts.now constant)) }
    {
        if constant == 0 && parts.len() == 2 {
            let (first, left) = &parts[0];
            let (second, right) = &parts[1];
            if is_multiplier(*first) && is_multiplier(*second) {
                return Term::add_multiples(alloc, *first, left, *second, right);
            }
        }
        if parts.len() <= FEW_SUMMANDS {
            match Term::combine_in_turn(alloc, parts, constant) {
                Err(LinError::Wide) => {}
                other => return other,
            }
        }
        Term::combine_by_column(alloc, parts, constant)
    }

    /// The same, one after the other from the last one on. It may be too wide on the way.
    #[cycle(combine_in_turn)]
    fn combine_in_turn(
        alloc: Global,
        parts: &[(i64, Term)],
        constant: i64,
    ) -> Result<Term, LinError>
        ensures value { IfOk result (λ t. t ≡ combination parts.now constant) }
        ensures kept { IfOk result (λ t. IsTrue (is_term t)) }
    {
        let Some((summand, rest)) = parts.split_first() else {
            return Ok(Term::new(Parts::from_vec(Vec::new(alloc)), i128::from(constant)));
        };
        let (multiplier, term) = summand;
        if !is_multiplier(*multiplier) {
            return Err(LinError::Wide);
        }
        let sum = Term::combine_in_turn(alloc, rest, constant)?;
        Term::both(
            alloc,
            i128::from(*multiplier),
            term,
            1,
            sum.parts(),
            sum.constant(),
        )
    }

    /// The same, by the exact sum at each column.
    fn combine_by_column(
        alloc: Global,
        parts: &[(i64, Term)],
        constant: i64,
    ) -> Result<Term, LinError>
        ensures value { IfOk result (λ t. t ≡ combination parts.now constant) }
        ensures kept { IfOk result (λ t. IsTrue (is_term t)) }
        ensures law { IfOk result (λ t. (v : ℕ → ℤ) → value_of v t ≡ combination_value v parts.now
            constant) }
        ensures wide { IsErrOf result LinError.Wide →
            ¬ IsTrue (is_within (combination parts.now constant)) }
    {
        let mut sums = Sums::new(alloc);
        let mut total = ExactSum::new(constant);
        let mut left = parts.len();
        while left > 0 {
            left -= 1;
            let (multiplier, term) = &parts[left];
            sums.add_all(*multiplier, term.parts())?;
            total = total.plus_product(*multiplier, term.constant());
        }
        let items = sums.parts(alloc)?;
        let Some(constant) = total.value() else {
            return Err(LinError::Wide);
        };
        Term::finished(items, constant)
    }

    /// The sum of two multiples, in one pass over both.
    pub fn add_multiples(
        alloc: Global,
        first: i64,
        left: &Term,
        second: i64,
        right: &Term,
    ) -> Result<Term, LinError>
        requires first_limit { unsigned_abs first ≤ max_coefficient }
        requires second_limit { unsigned_abs second ≤ max_coefficient }
        ensures value { IfOk result
            (λ t. t ≡ combination ((first, left.now) ∷ (second, right.now) ∷ []) (pos 0)) }
        ensures kept { IfOk result (λ t. IsTrue (is_term t)) }
        ensures law { IfOk result
            (λ t. (v : ℕ → ℤ) → value_of v t ≡ combination_value v
            ((first, left.now) ∷ (second, right.now) ∷ []) (pos 0)) }
        ensures wide { IsErrOf result LinError.Wide → ¬ IsTrue
            (is_within (combination ((first, left.now) ∷ (second, right.now) ∷ []) (pos 0))) }
    {
        let constant = right.constant();
        Term::both(
            alloc,
            i128::from(first),
            left,
            i128::from(second),
            right.parts(),
            constant,
        )
    }

    /// Puts a term in the place of a column.
    pub fn substitute(&self, alloc: Global, column: u32, by: &Term) -> Result<Term, LinError>
        ensures value { IfOk result (λ t. t ≡ substituted column by.now self.now) }
        ensures kept { IfOk result (λ t. IsTrue (is_term t)) }
        ensures law { IfOk result
            (λ t. (v : ℕ → ℤ) → value_of v t
            ≡ value_of (valuation_with v column (value_of v by.now))
            self.now) }
        ensures wide { IsErrOf result LinError.Wide →
            ¬ IsTrue (is_within (substituted column by.now self.now)) }
    {
        let coefficient = coefficient_of(self.parts(), column);
        if coefficient == 0 {
            return Ok(self.copy(alloc)?);
        }
        let rest = without_column(alloc, self.parts(), column)?;
        let constant = self.constant();
        Term::both(alloc, coefficient, by, 1, rest.as_slice(), constant)
    }

    /// The value at an assignment.
    pub fn value(&self, at: &Assignment) -> i128
        ensures value { result ≡ value_of (valuation at.now) self.now }
        ensures limit { unsigned_abs result ≤ 2 ^ 114 }
    {
        value_of_sum(self.constant(), self.parts(), at)
    }

    /// Gives the columns their new numbers.
    pub fn rename(&self, alloc: Global, columns: &NewColumns) -> Result<Term, LinError>
        ensures value { IfOk result
            (λ t. t ≡ renamed_by (λ x. unwrap_or (get nat_cmp columns.now x) x) self.now) }
        ensures kept { IfOk result (λ t. IsTrue (is_term t)) }
        ensures wide { IsErrOf result LinError.Wide → ¬ IsTrue
            (is_within (renamed_by (λ x. unwrap_or (get nat_cmp columns.now x) x) self.now)) }
    {
        let mut sums = Sums::new(alloc);
        add_renamed(&mut sums, columns, self.parts())?;
        let items = sums.parts(alloc)?;
        Term::finished(items, self.constant())
    }

    /// Makes `1 - t` of `t`, in place.
    pub fn negate(&mut self) -> Result<(), LinError>
        ensures value { OnOk result (self.new ≡ negated self.old) }
        ensures kept { OnOk result (IsTrue (is_term self.new)) }
        ensures law { OnOk result ((v : ℕ → ℤ) → value_of v self.new ≡ pos 1 -ℤ value_of v
            self.old) }
        ensures wide { OnErr result (¬ IsTrue (is_within (negated self.old))) }
        ensures unchanged { OnErr result (self.new ≡ self.old) }
        ensures error { IsErrOf result LinError.Memory → ⊥ }
    {
        let constant = 1 - self.constant;
        if constant > MAX_CONSTANT || constant < -MAX_CONSTANT {
            return Err(LinError::Wide);
        }
        self.parts.negate();
        self.constant = constant;
        Ok(())
    }

    /// `first` times the left term, and `second` times the right parts and constant.
    fn both(
        alloc: Global,
        first: i128,
        left: &Term,
        second: i128,
        right: &[(u32, i128)],
        right_constant: i128,
    ) -> Result<Term, LinError>
        requires first_limit { unsigned_abs first ≤ 2 ^ 40 }
        requires second_limit { unsigned_abs second ≤ 2 ^ 40 }
        requires order { InOrder 0 right.now }
        requires limits { AllWithin right.now }
        requires constant_limit { unsigned_abs right_constant ≤ 2 ^ 84 }
        ensures value { IfOk result
            (λ t. t ≡ plus_both first left.now second
            (record { parts = right.now; constant = right_constant })) }
        ensures kept { IfOk result (λ t. IsTrue (is_term t)) }
        ensures wide { IsErrOf result LinError.Wide → ¬ IsTrue
            (is_within (plus_both first left.now second
            (record { parts = right.now; constant = right_constant }))) }
    {
        let parts = merged(alloc, first, left.parts(), second, right)?;
        Term::finished(parts, first * left.constant() + second * right_constant)
    }

    /// The term of these parts, if it is within the limits.
    fn finished(items: Vec<(u32, i128)>, constant: i128) -> Result<Term, LinError>
        requires order { InOrder 0 items.items }
        requires limits { AllWithin items.items }
        ensures value { IfOk result (λ t. t ≡ record { parts = items.items; constant = constant }) }
        ensures kept { IfOk result (λ t. IsTrue (is_term t)) }
        ensures wide { OnErr result
            (¬ IsTrue (is_within (record { parts = items.items; constant = constant }))) }
    {
        if items.len() > MAX_PARTS || constant > MAX_CONSTANT || constant < -MAX_CONSTANT {
            return Err(LinError::Wide);
        }
        Ok(Term {
            parts: Parts { items },
            constant,
        })
    }
}

/// Whether a row may be multiplied by it in one pass.
fn is_multiplier(multiplier: i64) -> bool
    ensures { IsTrue result → unsigned_abs multiplier ≤ max_coefficient }
{
    let wide = i128::from(multiplier);
    wide <= MAX_COEFFICIENT && -MAX_COEFFICIENT <= wide
}

fn value_of_sum(constant: i128, parts: &[(u32, i128)], at: &Assignment) -> i128
    requires constant_limit { unsigned_abs constant ≤ 2 ^ 84 }
    requires limits { AllWithin parts.now }
    requires count { length parts.now ≤ 1024 }
    ensures value { result ≡ value_of_parts (valuation at.now) parts.now +ℤ constant }
    ensures limit { unsigned_abs result ≤ 2 ^ 114 }
{
    let mut sum = constant;
    for (column, coefficient) in parts {
        sum += *coefficient * i128::from(at.value(*column));
    }
    sum
}
