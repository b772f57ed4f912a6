//! Questions with known answers, and small boxes by brute force.

use crate::rows::{Row, cube_of, push_row, small_cube, term_of};
use infeasible_cert::certificate::Certificate;
use infeasible_cert::check::refutes;
use lia_solver::entails::entails;
use lia_solver::solve::{solve, solve_rows};
use lia_solver::solved::{Entailed, Solved};
use linear_formula::assignment::{Assignment, Values};
use linear_formula::error::LinError;
use linear_formula::formula::{Atom, Atoms, Cube};
use linear_formula::joined::JoinedCube;
use linear_formula::shared::SharedCube;
use shadow_elim::limit::{Limit, LimitKind, MAX_SPLITS};
use std::alloc::Global;
use std::test::Fail;

/// Whether the certificate is one derived row, the contradiction `1 <= 0`.
fn is_closed(certificate: &Certificate) -> bool {
    match certificate {
        Certificate::Close(rows) => {
            match rows.last() {
                Some(last) => {
                    let term = &last.row.term;
                    rows.len() == 1 && term.parts().is_empty() && term.constant() == 1
                }
                None => false,
            }
        }
        Certificate::Branch { .. } => false,
    }
}

/// Whether the certificate is a branch on column 0 at 3, with both sides closed.
fn is_split_at_three(certificate: &Certificate) -> bool {
    match certificate {
        Certificate::Close(_) => false,
        Certificate::Branch {
            rows,
            column,
            at,
            low,
            high,
        } => rows.is_empty() && *column == 0 && *at == 3 && is_closed(low) && is_closed(high),
    }
}

/// Whether the certificate has two derived rows and no branch.
fn has_two_rows(certificate: &Certificate) -> bool {
    match certificate {
        Certificate::Close(rows) => rows.len() == 2,
        Certificate::Branch { .. } => false,
    }
}

/// A certificate that the rows have no point, if the solver gives one that the checker takes.
fn refuted(alloc: Global, rows: &[Row]) -> Result<Option<Certificate>, LinError> {
    let cube = cube_of(alloc, rows)?;
    let certificate = match solve(alloc, &cube)? {
        Solved::Never(certificate) => certificate,
        _ => return Ok(None),
    };
    if refutes(&cube, &certificate) {
        Ok(Some(certificate))
    } else {
        Ok(None)
    }
}

fn splits(alloc: Global) -> Result<bool, LinError> {
    let certificate = refuted(alloc, &[(&[(2, 0)], -7), (&[(-2, 0)], 7)])?;
    Ok(certificate.is_some_and(|it| is_split_at_three(&it)))
}

#[test]
fn splits_at_the_floor(rt: HostRuntime) -> Result<(), Fail> {
    let splits = splits(rt.alloc())?;
    assert!(rt; splits);
    Ok(())
}

fn keeps_two(alloc: Global) -> Result<bool, LinError> {
    let rows: [Row; 4] = [
        (&[(1, 0), (-1, 1)], 0),
        (&[(1, 1), (-1, 2)], 0),
        (&[(1, 2), (-1, 0)], 1),
        (&[(1, 0), (1, 1), (1, 2)], 0),
    ];
    let certificate = refuted(alloc, &rows)?;
    Ok(certificate.is_some_and(|it| has_two_rows(&it)))
}

#[test]
fn keeps_only_needed_rows(rt: HostRuntime) -> Result<(), Fail> {
    let keeps = keeps_two(rt.alloc())?;
    assert!(rt; keeps);
    Ok(())
}

fn is_point(alloc: Global, rows: &[Row], values: &[(u32, i64)]) -> Result<bool, LinError> {
    let cube = cube_of(alloc, rows)?;
    match solve(alloc, &cube)? {
        Solved::Point(at) => Ok(at.values() == values),
        _ => Ok(false),
    }
}

#[test]
fn finds_points(rt: HostRuntime) -> Result<(), Fail> {
    let found = is_point(rt.alloc(), &[(&[(1, 0)], -3), (&[(-1, 0)], 3)], &[(0, 3)])?;
    assert!(rt; found);
    Ok(())
}

/// The limit that the cube meets, if it does.
fn limit_of(alloc: Global, cube: Result<Cube, LinError>) -> Result<Option<LimitKind>, LinError> {
    let cube = cube?;
    match solve(alloc, &cube)? {
        Solved::Limit(limit) => Ok(Some(limit.kind())),
        _ => Ok(None),
    }
}

#[test]
fn meets_wide_rows(rt: HostRuntime) -> Result<(), Fail> {
    let alloc = rt.alloc();
    let rows: [Row; 2] = [(&[(1 << 40, 0), (-1, 1)], 0), (&[(2, 2), (-3, 0)], 0)];
    let limit = limit_of(alloc, cube_of(alloc, &rows))?;
    assert!(rt; limit == Some(LimitKind::Wide));
    Ok(())
}

/// A row for each of `count` columns.
fn columns_from_0(alloc: Global, count: u32) -> Result<Cube, LinError> {
    let mut atoms = Atoms::new(alloc);
    for column in 0..count {
        push_row(&mut atoms, alloc, &(&[(1, column)], 0))?;
    }
    Ok(Cube { atoms })
}

#[test]
fn takes_at_most_256_columns(rt: HostRuntime) -> Result<(), Fail> {
    let alloc = rt.alloc();
    for &(count, limit) in &[(256, None), (257, Some(LimitKind::Columns))] {
        let met = limit_of(alloc, columns_from_0(alloc, count))?;
        assert!(rt; met == limit);
    }
    Ok(())
}

/// How many splits there were, where one more is needed.
fn split_count(alloc: Global, rows: &[Row]) -> Result<usize, LinError> {
    let cube = cube_of(alloc, rows)?;
    match solve(alloc, &cube)? {
        Solved::Limit(Limit::Branches { branches }) => Ok(branches.as_slice().len()),
        _ => Ok(0),
    }
}

#[test]
fn splits_at_most_512_times(rt: HostRuntime) -> Result<(), Fail> {
    let rows: [Row; 2] = [(&[(2, 0), (-2, 1)], -1), (&[(-2, 0), (2, 1)], 1)];
    let count = split_count(rt.alloc(), &rows)?;
    assert_eq!(rt; count, MAX_SPLITS as usize);
    Ok(())
}

/// What `column 0 + left <= 0` says of `column 0 + right <= 0`: how many certificates, or the value
/// of a point.
fn entailment(alloc: Global, left: i64, right: i64) -> Result<(usize, i64), LinError> {
    let less = cube_of(alloc, &[(&[(1, 0)], left)])?;
    let more = cube_of(alloc, &[(&[(1, 0)], right)])?;
    match entails(alloc, &less, &more)? {
        Entailed::Yes(certificates) => Ok((certificates.as_slice().len(), 0)),
        Entailed::No(at) => Ok((0, at.value(0))),
        Entailed::Limit(_) => Ok((0, 0)),
    }
}

#[test]
fn entails_what_follows(rt: HostRuntime) -> Result<(), Fail> {
    let alloc = rt.alloc();
    for &(left, right, answer) in &[(0, -1, (1, 0)), (-1, 0, (0, 1))] {
        let found = entailment(alloc, left, right)?;
        assert!(rt; found == answer);
    }
    Ok(())
}

/// The limit that `size * column 0 <= 0` meets where it is asked whether it entails itself.
fn own_limit(alloc: Global, size: i64) -> Result<Option<LimitKind>, LinError> {
    let cube = cube_of(alloc, &[(&[(size, 0)], 0)])?;
    match entails(alloc, &cube, &cube)? {
        Entailed::Limit(kept) => Ok(Some(kept.limit.kind())),
        _ => Ok(None),
    }
}

#[test]
fn meets_a_limit_before_a_contradiction(rt: HostRuntime) -> Result<(), Fail> {
    let alloc = rt.alloc();
    for &(size, limit) in &[(1 << 21, None), (1 << 22, Some(LimitKind::Wide))] {
        let met = own_limit(alloc, size)?;
        assert!(rt; met == limit);
    }
    Ok(())
}

/// Whether the certificate shows that the left cube entails the row.
fn shows(
    alloc: Global,
    left: &Cube,
    row: &Row,
    certificate: &Certificate,
) -> Result<bool, LinError> {
    let mut negation = Atom {
        term: term_of(alloc, row)?,
    };
    negation.negate()?;
    let cube = left.with(alloc, negation)?;
    Ok(refutes(&cube, certificate))
}

/// For how many of the first rows the certificates show that a cube of three bounds entails them.
fn shown_count(alloc: Global, wanted: &[Row]) -> Result<usize, LinError> {
    let left = cube_of(alloc, &[(&[(1, 0)], -3), (&[(2, 4)], -5), (&[(-1, 0)], 0)])?;
    let right = cube_of(alloc, wanted)?;
    let certificates = match entails(alloc, &left, &right)? {
        Entailed::Yes(certificates) => certificates,
        _ => return Ok(0),
    };
    for (place, row) in wanted.iter().enumerate() {
        let shown = match certificates.as_slice().get(place) {
            Some(certificate) => shows(alloc, &left, row, certificate)?,
            None => false,
        };
        if !shown {
            return Ok(place);
        }
    }
    Ok(wanted.len())
}

#[test]
fn entails_one_atom_after_the_other(rt: HostRuntime) -> Result<(), Fail> {
    // Two of the bounds, weaker ones, a sum of two, a row without a column, and a bound that always
    // holds.
    let wanted: [Row; 7] = [
        (&[(1, 0)], -3),
        (&[(-1, 0)], -1),
        (&[(2, 4)], -6),
        (&[(1, 4)], -2),
        (&[(1, 0), (1, 4)], -5),
        (&[], -1),
        (&[(1, 2)], -9223372036854775807),
    ];
    let count = shown_count(rt.alloc(), &wanted)?;
    assert_eq!(rt; count, 7);
    Ok(())
}

/// Columns 0 and 1 in the multiples 1 and 20, 2 and 19, and so on: each sum is at least `least`,
/// and at most 0 together with `above`.
fn fan(alloc: Global, least: i64, above: i64) -> Result<Cube, LinError> {
    let mut atoms = Atoms::new(alloc);
    for place in 1u8..21 {
        let first = i64::from(place);
        let second = 21 - first;
        push_row(&mut atoms, alloc, &(&[(first, 0), (second, 1)], above))?;
        push_row(&mut atoms, alloc, &(&[(-first, 0), (-second, 1)], least))?;
    }
    Ok(Cube { atoms })
}

fn fan_has_point(alloc: Global, fan: &Cube, x: i64, y: i64) -> Result<bool, LinError> {
    match solve(alloc, fan)? {
        Solved::Point(at) => Ok(at.values() == [(0, x), (1, y)].as_slice() && fan.holds(&at)),
        _ => Ok(false),
    }
}

fn is_refuted(alloc: Global, cube: &Cube) -> Result<bool, LinError> {
    match solve(alloc, cube)? {
        Solved::Never(certificate) => Ok(refutes(cube, &certificate)),
        _ => Ok(false),
    }
}

/// Where many rows name the same two columns, few of their sums are made.
#[test]
fn solves_many_rows_of_two_columns(rt: HostRuntime) -> Result<(), Fail> {
    let alloc = rt.alloc();
    for &(least, above, x, y) in &[
        (300, -400, 15, 15),
        (300, -320, 15, 15),
        (295, -335, 15, 14),
        (-320, 300, -15, -15),
    ] {
        let cube = fan(alloc, least, above)?;
        let found = fan_has_point(alloc, &cube, x, y)?;
        assert!(rt; found);
    }
    for &(least, above) in &[(310, -312), (316, -318), (400, -399)] {
        let cube = fan(alloc, least, above)?;
        let refuted = is_refuted(alloc, &cube)?;
        assert!(rt; refuted);
    }
    Ok(())
}

fn has_point(alloc: Global, cube: &Cube) -> Result<bool, LinError> {
    for x in -3..4 {
        for y in -3..4 {
            let values = vec![in alloc; (0, x), (1, y)]?;
            if cube.holds(&Assignment::new(Values::from_vec(values))) {
                return Ok(true);
            }
        }
    }
    Ok(false)
}

/// Whether the solver finds a point where there is one, and else a certificate that the checker
/// takes.
fn agrees(alloc: Global, seed: &mut u64) -> Result<bool, LinError> {
    let cube = small_cube(alloc, seed)?;
    let expected = has_point(alloc, &cube)?;
    match solve(alloc, &cube)? {
        Solved::Point(at) => Ok(expected && cube.holds(&at)),
        Solved::Never(certificate) => Ok(!expected && refutes(&cube, &certificate)),
        Solved::Limit(_) => Ok(false),
    }
}

#[test]
fn agrees_with_small_boxes(rt: HostRuntime) -> Result<(), Fail> {
    let alloc = rt.alloc();
    let mut seed = 1;
    for _ in 0..60 {
        let agrees = agrees(alloc, &mut seed)?;
        assert!(rt; agrees);
    }
    Ok(())
}

/// Whether both are one point, certificates that refute the cube, or limits of one kind.
fn are_alike(cube: &Cube, left: &Solved, right: &Solved) -> bool {
    match (left, right) {
        (Solved::Point(left), Solved::Point(right)) => left.values() == right.values(),
        (Solved::Never(left), Solved::Never(right)) => refutes(cube, left) && refutes(cube, right),
        (Solved::Limit(left), Solved::Limit(right)) => left.kind() == right.kind(),
        _ => false,
    }
}

/// Whether rows after full blocks of columns at most 0 are answered as their cube is, and
/// whether nothing meets them.
fn is_answered(alloc: Global, rows: &[Row], never: bool) -> Result<bool, LinError> {
    let joined = joined_with(alloc, rows)?;
    let cube = joined.to_cube(alloc)?;
    are_answered(alloc, &joined, &cube, never)
}

/// The first columns, and these rows after them.
fn joined_with(alloc: Global, rows: &[Row]) -> Result<JoinedCube, LinError> {
    let own = cube_of(alloc, rows)?;
    let first = columns_from_0(alloc, 130)?;
    Ok(SharedCube::of(alloc, &first)?.joined(alloc, own)?)
}

/// Whether the rows where they lie and their copies have the same answer.
fn are_answered(
    alloc: Global,
    joined: &JoinedCube,
    cube: &Cube,
    never: bool,
) -> Result<bool, LinError> {
    let copied = solve(alloc, cube)?;
    let shared = solve_rows(alloc, &joined.rows())?;
    Ok(matches!(shared, Solved::Never(_)) == never && are_alike(cube, &shared, &copied))
}

/// Rows of columns of the first block, of the second one, and of none; the last ones are split.
const BEHIND_BLOCKS: &[(&[Row], bool)] = &[
    (&[], false),
    (&[(&[(-1, 3)], 0)], false),
    (&[(&[(-1, 3)], 1)], true),
    (&[(&[(-1, 100)], 1)], true),
    (&[(&[(-1, 129)], 1)], true),
    (&[(&[(-1, 3), (-1, 100)], 1)], true),
    (&[(&[(1, 3), (1, 200)], 5), (&[(-1, 200)], 7)], false),
    (&[(&[(2, 3)], 7), (&[(-2, 3)], -7)], true),
];

#[test]
fn solves_rows_where_they_lie(rt: HostRuntime) -> Result<(), Fail> {
    for &(rows, never) in BEHIND_BLOCKS {
        let right = is_answered(rt.alloc(), rows, never)?;
        assert!(rt; right);
    }
    Ok(())
}
