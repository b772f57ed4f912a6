//! Certificates of some rows of a cube, made into those of all of its rows.

ghost use Rattle.std.specs.Prelude.{◌≡◌, List, length, IfOk};
ghost use Rattle.linear_formula.specs.declared.formula.Atom.{Atom};
ghost use Rattle.linear_formula.specs.Extremes.{AreExtremes};
ghost use Rattle.infeasible_cert.specs.Refutation.{refutation_of};
ghost use Rattle.infeasible_cert.specs.Right.{Refutes};
ghost use Rattle.infeasible_cert.specs.Terms.{HasTerms};
ghost use Rattle.infeasible_cert.specs.steps.Renumbering.{number_among, renumbered, renumbered_parts, renumbered_row, renumbered_rows};

use crate::certificate::{Certificate, Derived, Multiples, OutOfMemory};
use std::alloc::{AllocError, Global};

/// The number among all rows.
fn number_among(numbers: &[u32], count: u32, number: u32) -> Result<u32, OutOfMemory>
    ensures { IfOk result (λ n. n ≡ number_among numbers.now count number) }
{
    let known = numbers.len() as u64;
    let number = u64::from(number);
    if number < known {
        return Ok(numbers[number as usize]);
    }
    u32::try_from(number - known + u64::from(count)).map_err(|_| AllocError)
}

fn renumber_parts(
    alloc: Global,
    parts: &[(u32, i64)],
    numbers: &[u32],
    count: u32,
) -> Result<Vec<(u32, i64)>, OutOfMemory>
    ensures { IfOk result (λ ps. ps.items ≡ renumbered_parts numbers.now count parts.now) }
{
    let mut moved = Vec::with_capacity(alloc, parts.len())?;
    for (number, multiplier) in parts {
        moved.push((number_among(numbers, count, *number)?, *multiplier))?;
    }
    Ok(moved)
}

fn renumber_row(
    alloc: Global,
    derived: &Derived,
    numbers: &[u32],
    count: u32,
) -> Result<Derived, OutOfMemory>
    ensures { IfOk result (λ d. d ≡ renumbered_row numbers.now count derived.now) }
{
    let row = derived.row.copy(alloc)?;
    let parts = renumber_parts(alloc, derived.parts.as_slice(), numbers, count)?;
    Ok(Derived {
        row,
        parts: Multiples::from_vec(parts),
        divide: derived.divide,
    })
}

fn renumber_rows(
    alloc: Global,
    rows: &[Derived],
    numbers: &[u32],
    count: u32,
) -> Result<Vec<Derived>, OutOfMemory>
    ensures { IfOk result (λ ds. ds.items ≡ renumbered_rows numbers.now count rows.now) }
{
    let mut moved = Vec::with_capacity(alloc, rows.len())?;
    for row in rows {
        moved.push(renumber_row(alloc, row, numbers, count)?)?;
    }
    Ok(moved)
}

fn renumber(
    alloc: Global,
    certificate: &Certificate,
    numbers: &[u32],
    count: u32,
) -> Result<Certificate, OutOfMemory>
    ensures { IfOk result
        (λ c. refutation_of c ≡ renumbered numbers.now count (refutation_of certificate.now)) }
{
    match certificate {
        Certificate::Close(rows) => {
            let rows = renumber_rows(alloc, rows, numbers, count)?;
            Ok(Certificate::Close(rows))
        }
        Certificate::Branch {
            rows,
            column,
            at,
            low,
            high,
        } => {
            let rows = renumber_rows(alloc, rows, numbers, count)?;
            let low = Box::new(alloc, renumber(alloc, low, numbers, count)?)?;
            let high = Box::new(alloc, renumber(alloc, high, numbers, count)?)?;
            Ok(Certificate::Branch {
                rows,
                column: *column,
                at: *at,
                low,
                high,
            })
        }
    }
}

impl Certificate {
    /// The certificate of all rows of a cube, made of one of some of them: each number of a row
    /// becomes the one that the row has in the cube, and those of what stands after the rows
    /// (ranges, derived rows, sides) move up by as much as there are more rows. Where a number
    /// would be beyond 32 bits, memory is said to be out.
    pub fn renumbered(
        &self,
        alloc: Global,
        numbers: &[u32],
        count: u32,
    ) -> Result<Certificate, OutOfMemory>
        ensures refutes { IfOk result (λ c. (rows all : List Atom) →
            AreExtremes numbers.now rows all → count ≡ length all →
            Refutes rows (refutation_of self.now) → Refutes all (refutation_of c)) }
        ensures terms { IfOk result
            (λ c. HasTerms (refutation_of self.now) → HasTerms (refutation_of c)) }
    {
        renumber(alloc, self, numbers, count)
    }
}
