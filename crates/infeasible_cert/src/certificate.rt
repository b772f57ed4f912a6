//! Certificates: derived rows, and branches on the value of a column.

ghost use Rattle.std.specs.Prelude.{◌≡◌, IfOk};
ghost use Rattle.infeasible_cert.specs.Refutation.{refutation_of};

use linear_formula::formula::Atom;
use std::alloc::{AllocError, Global};
use std::marker::Model;

pub type OutOfMemory = AllocError;

/// Numbers of rows, each with its multiplier.
#[derive(Drop, Debug)]
pub struct Multiples {
    items: Vec<(u32, i64)>,
}

impl Model for Multiples {
    ghost use Rattle.std.specs.Prelude.{List, ℕ, ℤ};

    ghost Value = { List (ℕ × ℤ) };

    ghost view = { λ m. m.items.items };
}

impl Multiples {
    pub fn from_vec(items: Vec<(u32, i64)>) -> Multiples
        ensures { result ≡ items.items }
    {
        Multiples { items }
    }

    pub fn as_slice(&self) -> &[(u32, i64)]
        ensures { result.now ≡ self.now }
    {
        &self.items
    }
}

/// A row that follows from earlier ones: their sum with the multipliers, divided.
#[derive(Drop)]
pub struct Derived {
    pub row: Atom,
    pub parts: Multiples,
    pub divide: i64,
}

/// Why nothing meets a cube: derived rows that end in a contradiction, or a case for `column <= at`
/// and one for `column >= at + 1` after derived rows.
///
/// `copy` and the drop call themselves down to the deepest branch. On a stack of 8 MiB they were
/// tried with branches that nest 3000 deep; `refutes` goes down `MAX_NESTING` branches at most,
/// however deep the certificate is.
#[derive(Drop)]
pub enum Certificate {
    Close(Vec<Derived>),
    Branch {
        rows: Vec<Derived>,
        column: u32,
        at: i64,
        low: Box<Certificate>,
        high: Box<Certificate>,
    },
}

impl Multiples {
    fn copy(&self, alloc: Global) -> Result<Multiples, OutOfMemory>
        ensures { IfOk result (λ m. m ≡ self.now) }
    {
        let items = Vec::from_slice(alloc, self.as_slice())?;
        Ok(Multiples { items })
    }
}

impl Derived {
    fn copy(&self, alloc: Global) -> Result<Derived, OutOfMemory>
        ensures { IfOk result (λ d. d ≡ self.now) }
    {
        let row = self.row.copy(alloc)?;
        let parts = self.parts.copy(alloc)?;
        Ok(Derived {
            row,
            parts,
            divide: self.divide,
        })
    }
}

fn copy_rows(alloc: Global, rows: &[Derived]) -> Result<Vec<Derived>, OutOfMemory>
    ensures { IfOk result (λ copies. copies.items ≡ rows.now) }
{
    let mut copies = Vec::with_capacity(alloc, rows.len())?;
    for row in rows {
        copies.push(row.copy(alloc)?)?;
    }
    Ok(copies)
}

impl Certificate {
    /// An equal certificate.
    pub fn copy(&self, alloc: Global) -> Result<Certificate, OutOfMemory>
        ensures { IfOk result (λ c. refutation_of c ≡ refutation_of self.now) }
    {
        match self {
            Certificate::Close(rows) => {
                let rows = copy_rows(alloc, rows)?;
                Ok(Certificate::Close(rows))
            }
            Certificate::Branch {
                rows,
                column,
                at,
                low,
                high,
            } => {
                let rows = copy_rows(alloc, rows)?;
                let low = Box::new(alloc, low.copy(alloc)?)?;
                let high = Box::new(alloc, high.copy(alloc)?)?;
                Ok(Certificate::Branch {
                    rows,
                    column: *column,
                    at: *at,
                    low,
                    high,
                })
            }
        }
    }
}
