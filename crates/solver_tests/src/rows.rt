//! Cubes of rows.

use linear_formula::error::LinError;
use linear_formula::formula::{Atom, Atoms, Cube};
use linear_formula::reading::column_term;
use linear_formula::term::Term;
use std::alloc::Global;

/// Multiples of columns, and a constant: the row is at most 0.
pub type Row<'a> = (&'a [(i64, u32)], i64);

pub fn term_of(alloc: Global, row: &Row) -> Result<Term, LinError> {
    let mut summands = Vec::new(alloc);
    for (multiplier, column) in row.0 {
        summands.push((*multiplier, column_term(alloc, *column)?))?;
    }
    Term::combine(alloc, &summands, row.1)
}

pub fn cube_of(alloc: Global, rows: &[Row]) -> Result<Cube, LinError> {
    let mut atoms = Atoms::new(alloc);
    for row in rows {
        push_row(&mut atoms, alloc, row)?;
    }
    Ok(Cube { atoms })
}

pub fn push_row(atoms: &mut Atoms, alloc: Global, row: &Row) -> Result<(), LinError> {
    let term = term_of(alloc, row)?;
    atoms.push(Atom { term })?;
    Ok(())
}

/// A number from -3 to 3, by a linear congruential generator.
fn draw(seed: &mut u64) -> i64 {
    *seed = seed
        .wrapping_mul(6_364_136_223_846_793_005)
        .wrapping_add(1_442_695_040_888_963_407);
    ((*seed >> 33) % 7) as i64 - 3
}

/// Both columns are from -3 to 3, and three more rows of small numbers hold.
pub fn small_cube(alloc: Global, seed: &mut u64) -> Result<Cube, LinError> {
    let mut atoms = Atoms::new(alloc);
    for column in 0..2 {
        for sign in [1, -1] {
            push_row(&mut atoms, alloc, &(&[(sign, column)], -3))?;
        }
    }
    for _ in 0..3 {
        let (a, b, c) = (draw(seed), draw(seed), draw(seed));
        push_row(&mut atoms, alloc, &(&[(a, 0), (b, 1)], c))?;
    }
    Ok(Cube { atoms })
}
