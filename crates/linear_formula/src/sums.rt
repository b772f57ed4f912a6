//! Exact sums by their columns.

ghost use Rattle.std.specs.Prelude.{◌≡◌, ◌+◌, ◌^◌, ◌<◌, ◌≤◌, [], ◌*ℤ◌, length, unsigned_abs, unwrap_or, IfOk, OnOk, IsErrOf};
ghost use Rattle.std.specs.BTreeMap.{get};
ghost use Rattle.std.specs.Ordering.{nat_cmp};
ghost use Rattle.linear_formula.specs.steps.Exact.{no_sum};
ghost use Rattle.linear_formula.specs.steps.Order.{InOrder, AllWithin};
ghost use Rattle.linear_formula.specs.Results.{with_part, plus_parts};

use crate::error::{LinError, OutOfMemory};
use crate::exact_sum::ExactSum;
use crate::merge::push_part;
use std::alloc::Global;
use std::collections::BTreeMap;
use std::marker::Model;

/// The exact sums of the parts that were added.
#[derive(Drop)]
pub struct Sums {
    sums: BTreeMap<u32, ExactSum>,
    adds: u128,
}

impl Model for Sums {
    ghost use Rattle.linear_formula.specs.steps.Gathered.{Gathered};

    ghost Value = { Gathered };

    ghost use Rattle.linear_formula.specs.steps.Exact.{AreSums, exact_parts};

    ghost view = { λ a. record { parts = exact_parts a.sums.entries; adds = a.adds } };

    ghost invariant = { λ a. AreSums a.adds 0 a.sums.entries };
}

fn sum_at(sums: &BTreeMap<u32, ExactSum>, column: u32) -> ExactSum
    ensures { result ≡ unwrap_or (get nat_cmp sums.now column) no_sum }
{
    match sums.get(&column) {
        Some(sum) => *sum,
        None => ExactSum::new(0),
    }
}

impl Sums {
    /// No column yet.
    pub fn new(alloc: Global) -> Sums
        ensures parts { result.parts ≡ [] }
        ensures adds { result.adds ≡ 0 }
    {
        Sums {
            sums: BTreeMap::new(alloc),
            adds: 0,
        }
    }

    /// Adds a multiple of a part.
    pub fn add(
        &mut self,
        column: u32,
        multiplier: i64,
        coefficient: i128,
    ) -> Result<(), OutOfMemory>
        requires limit { unsigned_abs coefficient ≤ 2 ^ 84 }
        requires room { self.old.adds < 2 ^ 73 }
        ensures parts { OnOk result (self.new.parts ≡ with_part column (multiplier *ℤ coefficient)
            self.old.parts) }
        ensures adds { OnOk result (self.new.adds ≡ self.old.adds + 1) }
    {
        let sum = sum_at(&self.sums, column).plus_product(multiplier, coefficient);
        self.adds += 1;
        self.sums.insert(column, sum)?;
        Ok(())
    }

    /// Adds a multiple of all parts.
    pub fn add_all(&mut self, multiplier: i64, parts: &[(u32, i128)]) -> Result<(), OutOfMemory>
        requires limits { AllWithin parts.now }
        requires room { self.old.adds + length parts.now ≤ 2 ^ 73 }
        ensures parts { OnOk result (self.new.parts ≡ plus_parts multiplier parts.now
            self.old.parts) }
        ensures adds { OnOk result (self.new.adds ≡ self.old.adds + length parts.now) }
    {
        let mut left = parts.len();
        while left > 0 {
            left -= 1;
            let (column, coefficient) = parts[left];
            self.add(column, multiplier, coefficient)?;
        }
        Ok(())
    }

    /// The parts, if each is within the limit.
    pub fn parts(&self, alloc: Global) -> Result<Vec<(u32, i128)>, LinError>
        ensures items { IfOk result (λ out. out.items ≡ self.now.parts) }
        ensures order { IfOk result (λ out. InOrder 0 out.items) }
        ensures limit { IfOk result (λ out. AllWithin out.items) }
        ensures wide { IsErrOf result LinError.Wide → ¬ AllWithin self.now.parts }
    {
        let mut out = Vec::with_capacity(alloc, self.sums.len())?;
        for (column, sum) in &self.sums {
            let Some(coefficient) = sum.value() else {
                return Err(LinError::Wide);
            };
            push_part(&mut out, *column, coefficient)?;
        }
        Ok(out)
    }
}
