//! Shadows that are known, their limits, and small boxes by brute force.

ghost use Rattle.std.specs.Prelude.{IsTrue};
ghost use Rattle.linear_formula.specs.LinearSum.{is_ascending};

use crate::rows::{Row, cube_of, push_row, small_cube, term_of};
use linear_formula::assignment::{Assignment, Values};
use linear_formula::error::LinError;
use linear_formula::formula::{Atom, Atoms, Cube};
use linear_formula::question::Question;
use shadow_elim::eliminate::eliminate;
use shadow_elim::limit::{Cubes, Limit, LimitKind};
use shadow_elim::shadow::{Pair, Shadow, ShadowError};
use std::alloc::Global;
use std::test::Fail;

fn is_row(atom: &Atom, parts: &[(u32, i128)], constant: i128) -> bool {
    atom.term.parts() == parts && atom.term.constant() == constant
}

/// Whether the shadow's atoms are these rows.
fn has_rows(shadow: &Shadow, rows: &[(&[(u32, i128)], i128)]) -> bool {
    let atoms = shadow.pre.cube.atoms.as_slice();
    for (atom, (parts, constant)) in atoms.iter().zip(rows) {
        if !is_row(atom, parts, *constant) {
            return false;
        }
    }
    atoms.len() == rows.len()
}

fn is_one_column(alloc: Global) -> Result<bool, ShadowError> {
    let rows: [Row; 2] = [(&[(1, 0), (-1, 1)], 0), (&[(-1, 0)], 3)];
    let shadow = eliminate(alloc, &cube_of(alloc, &rows)?, &[0])?;
    let exact = shadow.pre.inexact.is_none() && shadow.rows.as_slice().len() == 1;
    Ok(exact && has_rows(&shadow, &[(&[(1, -1)], 3)]))
}

#[test]
fn eliminates_one_column(rt: HostRuntime) -> Result<(), Fail> {
    let known = is_one_column(rt.alloc())?;
    assert!(rt; known);
    Ok(())
}

fn is_told(pair: &Option<Pair>) -> bool {
    match pair {
        Some(pair) => {
            pair.column == 0
                && is_row(&pair.upper, &[(0, 2), (1, -1)], 0)
                && is_row(&pair.lower, &[(0, -2), (2, 1)], 0)
        }
        None => false,
    }
}

fn tells_pair(alloc: Global) -> Result<bool, ShadowError> {
    let rows: [Row; 2] = [(&[(2, 0), (-1, 1)], 0), (&[(1, 2), (-2, 0)], 0)];
    let shadow = eliminate(alloc, &cube_of(alloc, &rows)?, &[0])?;
    let left: [(&[(u32, i128)], i128); 3] = [
        (&[(1, -1), (2, 1)], 0),
        (&[(1, -1)], -18446744073709551616),
        (&[(2, 1)], -18446744073709551614),
    ];
    Ok(has_rows(&shadow, &left) && is_told(&shadow.pre.inexact))
}

#[test]
fn tells_the_inexact_pair(rt: HostRuntime) -> Result<(), Fail> {
    let told = tells_pair(rt.alloc())?;
    assert!(rt; told);
    Ok(())
}

/// The result of an elimination of column 0: how many rows are left, or the error.
fn left(alloc: Global, cube: Result<Cube, LinError>) -> Result<usize, ShadowError> {
    let shadow = eliminate(alloc, &cube?, &[0])?;
    Ok(shadow.pre.cube.atoms.as_slice().len())
}

#[test]
fn measures_before_it_tightens(rt: HostRuntime) -> Result<(), Fail> {
    let alloc = rt.alloc();
    let rows: [Row; 2] = [(&[(1 << 40, 0), (-1, 1)], 0), (&[(2, 2), (-3, 0)], 0)];
    let wide = left(alloc, cube_of(alloc, &rows)) == Err(ShadowError::Wide);
    assert!(rt; wide);
    Ok(())
}

/// Column 0 is at most each of `each` columns, and at least each of `each` others.
fn fan(alloc: Global, each: u8) -> Result<Cube, LinError> {
    let mut atoms = Atoms::new(alloc);
    for i in 0..each {
        push_row(&mut atoms, alloc, &(&[(1, 0), (-1, 1 + u32::from(i))], 0))?;
    }
    for i in 0..each {
        let column = 1 + u32::from(each) + u32::from(i);
        push_row(&mut atoms, alloc, &(&[(-1, 0), (1, column)], 0))?;
    }
    Ok(Cube { atoms })
}

#[test]
fn leaves_at_most_4096_rows(rt: HostRuntime) -> Result<(), Fail> {
    let alloc = rt.alloc();
    let most = left(alloc, fan(alloc, 63)) == Ok(4095);
    let more = left(alloc, fan(alloc, 64)) == Err(ShadowError::Rows);
    assert!(rt; most && more);
    Ok(())
}

/// The same, with a pair at the end whose sum is too wide.
fn wide_fan(alloc: Global, each: u8) -> Result<Cube, LinError> {
    let mut cube = fan(alloc, each)?;
    push_row(&mut cube.atoms, alloc, &(&[(1 << 40, 0), (-1, 1)], 0))?;
    push_row(&mut cube.atoms, alloc, &(&[(2, 2), (-3, 0)], 0))?;
    Ok(cube)
}

#[test]
fn looks_for_a_wide_sum_behind_too_many_rows(rt: HostRuntime) -> Result<(), Fail> {
    let alloc = rt.alloc();
    let rows = left(alloc, fan(alloc, 150)) == Err(ShadowError::Rows);
    let wide = left(alloc, wide_fan(alloc, 70)) == Err(ShadowError::Wide);
    assert!(rt; rows && wide);
    Ok(())
}

#[test]
fn limits_have_kinds(rt: HostRuntime) -> Result<(), Fail> {
    assert!(rt; Limit::Columns.kind() == LimitKind::Columns);
    Ok(())
}

fn atom_of(alloc: Global, row: &Row) -> Result<Atom, LinError> {
    Ok(Atom {
        term: term_of(alloc, row)?,
    })
}

fn limit_of(alloc: Global, kind: LimitKind) -> Result<Limit, LinError> {
    let row: Row = (&[(2, 0), (-1, 1)], 3);
    let other: Row = (&[(-3, 0), (1, 2)], -5);
    match kind {
        LimitKind::Columns => Ok(Limit::Columns),
        LimitKind::Wide => Ok(Limit::Wide {
            branch: Question::Cube(cube_of(alloc, &[row, other])?),
        }),
        LimitKind::Rows => Ok(Limit::Rows {
            branch: cube_of(alloc, &[row, other])?,
        }),
        LimitKind::Branches => {
            let cubes = vec![in alloc; cube_of(alloc, &[row])?, cube_of(alloc, &[other, row])?]?;
            Ok(Limit::Branches {
                branches: Cubes::from_vec(cubes),
            })
        }
        LimitKind::Inexact => Ok(Limit::Inexact(Pair {
            column: 0,
            upper: atom_of(alloc, &row)?,
            lower: atom_of(alloc, &other)?,
        })),
    }
}

fn is_same_pair(left: &Pair, right: &Pair) -> bool {
    left.column == right.column && left.upper == right.upper && left.lower == right.lower
}

/// Whether both are the same limit, and keep the same.
fn is_same_limit(left: &Limit, right: &Limit) -> bool {
    match (left, right) {
        (Limit::Columns, Limit::Columns) => true,
        (Limit::Wide { branch }, Limit::Wide { branch: other }) => branch == other,
        (Limit::Rows { branch }, Limit::Rows { branch: other }) => branch == other,
        (Limit::Branches { branches }, Limit::Branches { branches: others }) => {
            branches.as_slice() == others.as_slice()
        }
        (Limit::Inexact(pair), Limit::Inexact(other)) => is_same_pair(pair, other),
        _ => false,
    }
}

fn copies_limit(alloc: Global, kind: LimitKind) -> Result<bool, LinError> {
    let limit = limit_of(alloc, kind)?;
    let copy = limit.copy(alloc)?;
    Ok(copy.kind() == kind && is_same_limit(&copy, &limit))
}

#[test]
fn copies_limits(rt: HostRuntime) -> Result<(), Fail> {
    let kinds = &[
        LimitKind::Columns,
        LimitKind::Wide,
        LimitKind::Rows,
        LimitKind::Branches,
        LimitKind::Inexact,
    ];
    for &kind in kinds {
        let copied = copies_limit(rt.alloc(), kind)?;
        assert!(rt; copied, "{kind:?}");
    }
    Ok(())
}

fn holds_at(alloc: Global, cube: &Cube, values: &[(u32, i64)]) -> Result<bool, LinError>
    requires { IsTrue (is_ascending values.now) }
{
    let values = Values::from_vec(Vec::from_slice(alloc, values)?);
    let at = Assignment::new(values);
    Ok(cube.holds(&at))
}

/// Whether the cube holds with this value of column 1 and some value of column 0.
fn has_point_at(alloc: Global, cube: &Cube, y: i64) -> Result<bool, LinError> {
    for x in -3..4 {
        if holds_at(alloc, cube, &[(0, x), (1, y)])? {
            return Ok(true);
        }
    }
    Ok(false)
}

/// Whether the shadow holds where the cube does, and, without an inexact pair, nowhere else.
fn is_shadow(alloc: Global, seed: &mut u64) -> Result<bool, ShadowError> {
    let cube = small_cube(alloc, seed)?;
    let pre = eliminate(alloc, &cube, &[0])?.pre;
    for y in -4..5 {
        let expected = has_point_at(alloc, &cube, y)?;
        let holds = holds_at(alloc, &pre.cube, &[(1, y)])?;
        if expected != holds && (expected || pre.inexact.is_none()) {
            return Ok(false);
        }
    }
    Ok(true)
}

#[test]
fn shadows_agree_with_small_boxes(rt: HostRuntime) -> Result<(), Fail> {
    let alloc = rt.alloc();
    let mut seed = 2;
    for _ in 0..40 {
        let agrees = is_shadow(alloc, &mut seed)?;
        assert!(rt; agrees);
    }
    Ok(())
}
