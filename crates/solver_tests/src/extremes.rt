//! Extreme rows of cubes with fewer rows than a block has, as many, and more, and certificates by
//! the numbers of all rows.

use crate::rows::push_row;
use infeasible_cert::check::refutes;
use lia_solver::solve::solve;
use lia_solver::solved::Solved;
use linear_formula::error::{LinError, OutOfMemory};
use linear_formula::extremes::Extremes;
use linear_formula::formula::{Atom, Atoms, Cube};
use linear_formula::shared::SharedCube;
use std::alloc::Global;
use std::test::Fail;

/// `count` rows of three columns. Their constants go up and down from 0 to 16: no greatest one and
/// no least one of a column comes at a regular place.
fn scattered(alloc: Global, count: u8) -> Result<Cube, LinError> {
    let mut atoms = Atoms::new(alloc);
    for place in 0..count {
        let column = u32::from(place % 3);
        let constant = i64::from(place) * 7 % 17;
        push_row(&mut atoms, alloc, &(&[(1, column)], constant))?;
    }
    Ok(Cube { atoms })
}

/// Whether each row is the one that has its number among all.
fn are_numbered(extremes: &Extremes, all: &[Atom]) -> bool {
    let rows = extremes.cube.atoms.as_slice();
    for (place, number) in extremes.numbers.iter().enumerate() {
        if rows.get(place) != all.get(*number as usize) {
            return false;
        }
    }
    rows.len() == extremes.numbers.len() && extremes.count as usize == all.len()
}

/// Whether the row has the coefficients of the other and a constant as great or greater.
fn is_as_strong(row: &Atom, other: &Atom) -> bool {
    row.term.parts() == other.term.parts() && row.term.constant() >= other.term.constant()
}

/// Whether the row lies between two of these.
fn is_between(atom: &Atom, rows: &[Atom]) -> bool {
    rows.iter().any(|row| is_as_strong(row, atom)) && rows.iter().any(|row| is_as_strong(atom, row))
}

/// Whether each row lies between two extreme ones.
fn are_between(extremes: &Extremes, all: &[Atom]) -> bool {
    let rows = extremes.cube.atoms.as_slice();
    all.iter().all(|atom| is_between(atom, rows))
}

/// Whether the extreme rows of a cube with `count` rows are right, and those of all full blocks are
/// at most two of each column.
fn are_right(alloc: Global, count: u8) -> Result<bool, LinError> {
    let cube = scattered(alloc, count)?;
    let shared = SharedCube::of(alloc, &cube)?;
    let extremes = shared.extremes(alloc)?;
    let all = cube.atoms.as_slice();
    Ok(
        are_numbered(&extremes, all)
            && are_between(&extremes, all)
            && extremes.numbers.len() <= 6 + 31,
    )
}

/// How many rows a cube has: a block has 32.
const COUNTS: &[u8] = &[0, 1, 5, 31, 32, 33, 64, 100];

#[test]
fn names_rows_between_which_all_lie(rt: HostRuntime) -> Result<(), Fail> {
    for &count in COUNTS {
        let right = are_right(rt.alloc(), count)?;
        assert!(rt; right, "{count}");
    }
    Ok(())
}

/// Column 0 is at least this.
fn at_least(alloc: Global, value: i64) -> Result<Cube, LinError> {
    let mut atoms = Atoms::new(alloc);
    push_row(&mut atoms, alloc, &(&[(-1, 0)], value))?;
    Ok(Cube { atoms })
}

/// The extreme rows of a cube and those of another after it.
fn behind(alloc: Global, first: &Cube, second: Cube) -> Result<Extremes, OutOfMemory> {
    let extremes = SharedCube::of(alloc, first)?.extremes(alloc)?;
    extremes.followed_by(Extremes::of(alloc, second)?)
}

/// Whether the certificate of the extreme rows, by other numbers, refutes all rows; of rows that
/// hold somewhere there is none.
fn is_refuted(alloc: Global, count: u8, value: i64) -> Result<bool, LinError> {
    let first = scattered(alloc, count)?;
    let both = first.and(alloc, &at_least(alloc, value)?)?;
    let extremes = behind(alloc, &first, at_least(alloc, value)?)?;
    match solve(alloc, &extremes.cube)? {
        Solved::Never(proof) => {
            let other = proof.renumbered(alloc, &extremes.numbers, extremes.count)?;
            Ok(refutes(&both, &other))
        }
        Solved::Point(_) | Solved::Limit(_) => Ok(false),
    }
}

/// Rows before the last one, the least value of column 0 by that one, and whether they are refuted:
/// the 13th row says that it is at most -16, and the first one that it is at most 0.
const BOUNDS: &[(u8, i64, bool)] = &[
    (33, -17, false),
    (33, -16, false),
    (33, -15, true),
    (70, -15, true),
    (1, 1, true),
    (1, 0, false),
];

#[test]
fn certificates_are_of_all_rows(rt: HostRuntime) -> Result<(), Fail> {
    for &(count, value, refuted) in BOUNDS {
        let right = is_refuted(rt.alloc(), count, value)? == refuted;
        assert!(rt; right, "{count} {value}");
    }
    Ok(())
}

/// Whether rows that are pushed one by one are their own extreme ones.
fn are_pushed(alloc: Global, count: u8) -> Result<bool, LinError> {
    let cube = scattered(alloc, count)?;
    let mut extremes = Extremes::with_capacity(alloc, 0)?;
    for atom in cube.copy(alloc)?.atoms.into_vec() {
        extremes.push(atom)?;
    }
    Ok(extremes.cube == cube && are_numbered(&extremes, cube.atoms.as_slice()))
}

#[test]
fn pushes_rows_behind_all(rt: HostRuntime) -> Result<(), Fail> {
    let right = are_pushed(rt.alloc(), 9)?;
    assert!(rt; right);
    Ok(())
}
