//! Rows with terms in the places of their columns.

use crate::rows::{Row, cube_of, term_of};
use linear_formula::error::LinError;
use linear_formula::formula::Atoms;
use linear_formula::reading::Reading;
use linear_formula::term::Term;
use shadow_elim::projection::ProjectionError;
use shadow_elim::sum::read_onto;
use std::alloc::{AllocError, Global};
use std::test::Fail;

/// The same term in the place of each column.
#[derive(Drop)]
struct Same {
    by: Term,
}

impl Reading for Same {
    ghost term_at = { λ r _. r.by };

    fn term(&self, alloc: Global, _column: u32) -> Result<Term, AllocError> {
        self.by.copy(alloc)
    }
}

/// The coefficient of column 9 and the constant, where each column is read as the multiple of it
/// and 1; none where that is too wide.
fn read(alloc: Global, multiple: i64, row: &Row) -> Result<Option<(i128, i128)>, LinError> {
    let by = term_of(alloc, &(&[(multiple, 9)], 1))?;
    let cube = cube_of(alloc, &[*row])?;
    let mut rows = Atoms::new(alloc);
    match read_onto(alloc, &mut rows, &Same { by }, cube.atoms.as_slice()) {
        Ok(()) => {}
        Err(ProjectionError::Limit(_)) => return Ok(None),
        Err(ProjectionError::Memory) => return Err(LinError::Memory),
    }
    match rows.as_slice().first() {
        Some(atom) => Ok(Some((atom.term.coefficient(9), atom.term.constant()))),
        None => Ok(None),
    }
}

const WIDE: i64 = 1 << 40;

#[test]
fn reads_rows(rt: HostRuntime) -> Result<(), Fail> {
    let none: Row = (&[], 7);
    let one: Row = (&[(3, 0)], -5);
    let two: Row = (&[(1, 0), (-3, 1)], 1);
    let four: Row = (&[(1, 0), (1, 1), (1, 2), (1, 3)], -1);
    for &(row, coefficient, constant) in &[
        (none, 0, 7),
        (one, 6, -2),
        (two, -4, -1),
        (four, 8, 3),
    ] {
        let found = read(rt.alloc(), 2, &row)?;
        assert_eq!(rt; found, Some((coefficient, constant)), "{coefficient}");
    }
    Ok(())
}

/// The result alone counts, and not the part sums.
#[test]
fn reads_rows_at_the_limit(rt: HostRuntime) -> Result<(), Fail> {
    let doubled: Row = (&[(2, 0)], 0);
    let cancelled: Row = (&[(-1, 0), (1, 1), (1, 2)], 0);
    let wide = read(rt.alloc(), WIDE, &doubled)?;
    assert_eq!(rt; wide, None);
    let narrow = read(rt.alloc(), WIDE, &cancelled)?;
    assert_eq!(rt; narrow, Some((1 << 40, 1)));
    Ok(())
}
