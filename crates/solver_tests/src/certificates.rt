//! Certificates that are right, and others that are nearly so.

ghost use Rattle.std.specs.Prelude.{◌∷◌, [], IsTrue};
ghost use Rattle.linear_formula.specs.LinearSum.{is_term};

use infeasible_cert::certificate::{Certificate, Derived, Multiples};
use infeasible_cert::check::refutes;
use linear_formula::error::LinError;
use linear_formula::formula::{Atom, Atoms, Cube};
use linear_formula::term::{Parts, Term};
use std::alloc::Global;
use std::test::Fail;

/// The parts of a derived row, its divisor, the coefficient of the column 0, and its constant.
type Step<'a> = (&'a [(u32, i64)], i64, i64, i64);

fn term_of(alloc: Global, column: u32, coefficient: i128, constant: i128) -> Result<Term, LinError>
    requires { IsTrue
        (is_term (record { parts = (column, coefficient) ∷ []; constant = constant })) }
{
    let mut items = Vec::with_capacity(alloc, 1)?;
    items.push((column, coefficient))?;
    Ok(Term::new(Parts::from_vec(items), constant))
}

fn constant_of(alloc: Global, constant: i128) -> Atom
    requires { IsTrue (is_term (record { parts = []; constant = constant })) }
{
    Atom {
        term: Term::new(Parts::from_vec(Vec::new(alloc)), constant),
    }
}

/// A row with the column 0, or with none.
fn row_of(alloc: Global, coefficient: i64, constant: i64) -> Result<Atom, LinError> {
    let mut summands = Vec::new(alloc);
    summands.push((coefficient, term_of(alloc, 0, 1, 0)?))?;
    let term = Term::combine(alloc, &summands, constant)?;
    Ok(Atom { term })
}

fn derive(alloc: Global, step: &Step) -> Result<Derived, LinError> {
    let (parts, divide, coefficient, constant) = *step;
    let row = row_of(alloc, coefficient, constant)?;
    let parts = Multiples::from_vec(Vec::from_slice(alloc, parts)?);
    Ok(Derived { row, parts, divide })
}

fn close(alloc: Global, steps: &[Step]) -> Result<Certificate, LinError> {
    let mut rows = Vec::new(alloc);
    for step in steps {
        rows.push(derive(alloc, step)?)?;
    }
    Ok(Certificate::Close(rows))
}

fn branch(
    alloc: Global,
    column: u32,
    at: i64,
    low: Certificate,
    high: Certificate,
) -> Result<Certificate, LinError> {
    let low = Box::new(alloc, low)?;
    let high = Box::new(alloc, high)?;
    Ok(Certificate::Branch {
        rows: Vec::new(alloc),
        column,
        at,
        low,
        high,
    })
}

fn cube_of(alloc: Global, first: Atom, second: Atom) -> Result<Cube, LinError> {
    let mut atoms = Atoms::new(alloc);
    atoms.push(first)?;
    atoms.push(second)?;
    Ok(Cube { atoms })
}

/// Twice the column 0 is 7.
fn twice_is_seven(alloc: Global) -> Result<Cube, LinError> {
    cube_of(alloc, row_of(alloc, 2, -7)?, row_of(alloc, -2, 7)?)
}

/// The low side of a branch at 3, where twice the column 0 is 7.
fn low_side(alloc: Global) -> Result<Certificate, LinError> {
    close(alloc, &[(&[(4, 2), (1, 1)], 1, 0, 1)])
}

fn high_side(alloc: Global) -> Result<Certificate, LinError> {
    close(alloc, &[(&[(0, 1), (4, 2)], 1, 0, 1)])
}

/// Both rows are divided by 2 and rounded up, and then added: `last` names the two quotients.
fn rounding(
    alloc: Global,
    last: &[(u32, i64)],
    lower: i64,
    upper: i64,
) -> Result<Certificate, LinError> {
    close(
        alloc,
        &[
            (&[(1, 1)], 2, -1, lower),
            (&[(0, 1)], 2, 1, upper),
            (last, 1, 0, 1),
        ],
    )
}

/// Whether the step refutes the low side of a branch at 3, where twice the column 0 is 7.
fn refutes_low(alloc: Global, step: Step) -> Result<bool, LinError> {
    let cube = twice_is_seven(alloc)?;
    let low = close(alloc, &[step])?;
    let certificate = branch(alloc, 0, 3, low, high_side(alloc)?)?;
    Ok(refutes(&cube, &certificate))
}

#[test]
fn decides_steps(rt: HostRuntime) -> Result<(), Fail> {
    let cases: &[(&str, Step, bool)] = &[
        ("right", (&[(4, 2), (1, 1)], 1, 0, 1), true),
        ("multiplier 0", (&[(4, 2), (1, 1), (0, 0)], 1, 0, 1), true),
        (
            "range rows",
            (&[(4, 2), (1, 1), (2, 1), (3, 1)], 1, 0, 0),
            false,
        ),
        (
            "negative multiplier",
            (&[(4, 2), (1, 2), (1, -1)], 1, 0, 1),
            false,
        ),
        ("its own row", (&[(4, 2), (1, 1), (5, 0)], 1, 0, 1), false),
        (
            "no such row",
            (&[(4, 2), (1, 1), (u32::MAX, 0)], 1, 0, 1),
            false,
        ),
        ("divisor 0", (&[(4, 2), (1, 1)], 0, 0, 1), false),
        ("divisor below 0", (&[(4, 2), (1, 1)], -1, 0, 1), false),
        ("great divisor", (&[(4, 2), (1, 1)], i64::MAX, 0, 1), true),
        ("coefficient not divided", (&[(1, 1)], 4, 0, 2), false),
        ("coefficient dropped", (&[(1, 1)], 1, 0, 7), false),
        ("rounded up", (&[(4, 6), (1, 3)], 2, 0, 2), true),
        ("rounded down", (&[(4, 6), (1, 3)], 2, 0, 1), false),
        ("rounded too far", (&[(4, 6), (1, 3)], 2, 0, 3), false),
        ("constant 0", (&[], 1, 0, 0), false),
        ("constant from nothing", (&[], 1, 0, 1), false),
        ("a column is left", (&[(1, 1)], 1, -2, 7), false),
    ];
    for &(name, step, right) in cases {
        let found = refutes_low(rt.alloc(), step)?;
        assert_eq!(rt; found, right, "{name}");
    }
    Ok(())
}

/// Whether a branch at the value refutes that twice the column 0 is the number, with its sides as
/// they are or exchanged.
fn refutes_at(alloc: Global, number: i32, at: i64, exchanged: bool) -> Result<bool, LinError> {
    let cube = cube_of(
        alloc,
        row_of(alloc, 2, -i64::from(number))?,
        row_of(alloc, -2, i64::from(number))?,
    )?;
    let (low, high) = (low_side(alloc)?, high_side(alloc)?);
    let certificate = if exchanged {
        branch(alloc, 0, at, high, low)?
    } else {
        branch(alloc, 0, at, low, high)?
    };
    Ok(refutes(&cube, &certificate))
}

#[test]
fn decides_sides(rt: HostRuntime) -> Result<(), Fail> {
    let cases = &[
        (7, 3, false, true),
        (8, 3, false, false),
        (7, 3, true, false),
        (7, 4, false, false),
    ];
    for &(number, at, exchanged, right) in cases {
        let found = refutes_at(rt.alloc(), number, at, exchanged)?;
        assert_eq!(rt; found, right, "{number} {at} {exchanged}");
    }
    Ok(())
}

fn refutes_nothing(alloc: Global) -> Result<bool, LinError> {
    Ok(refutes(&twice_is_seven(alloc)?, &close(alloc, &[])?))
}

fn refutes_rounded(alloc: Global, lower: i64, upper: i64) -> Result<bool, LinError> {
    let certificate = rounding(alloc, &[(4, 1), (5, 1)], lower, upper)?;
    Ok(refutes(&twice_is_seven(alloc)?, &certificate))
}

#[test]
fn decides_closed_nodes(rt: HostRuntime) -> Result<(), Fail> {
    let empty = refutes_nothing(rt.alloc())?;
    assert!(rt; !empty);
    for &(lower, upper, right) in &[(4, -3, true), (3, -3, false), (4, -4, false)] {
        let found = refutes_rounded(rt.alloc(), lower, upper)?;
        assert_eq!(rt; found, right, "{lower} {upper}");
    }
    Ok(())
}

/// The column 5 is not in the cube, and the branch's row is not used.
fn refutes_elsewhere(alloc: Global, at: i64) -> Result<bool, LinError> {
    let low = rounding(alloc, &[(5, 1), (6, 1)], 4, -3)?;
    let high = rounding(alloc, &[(5, 1), (6, 1)], 4, -3)?;
    let certificate = branch(alloc, 5, at, low, high)?;
    Ok(refutes(&twice_is_seven(alloc)?, &certificate))
}

#[test]
fn decides_bounds(rt: HostRuntime) -> Result<(), Fail> {
    for &(at, right) in &[(i64::MIN, true), (i64::MAX - 1, true), (i64::MAX, false)] {
        let found = refutes_elsewhere(rt.alloc(), at)?;
        assert_eq!(rt; found, right, "{at}");
    }
    Ok(())
}

/// Whether the row of the numbers is a contradiction: the column 7 is above its range, and the
/// column 3 below.
fn refutes_ranges(alloc: Global, parts: &[(u32, i64)]) -> Result<bool, LinError> {
    let above = Atom {
        term: term_of(alloc, 7, -1, 9_223_372_036_854_775_808)?,
    };
    let below = Atom {
        term: term_of(alloc, 3, 1, 9_223_372_036_854_775_809)?,
    };
    let cube = cube_of(alloc, above, below)?;
    let certificate = close(alloc, &[(parts, 1, 0, 1)])?;
    Ok(refutes(&cube, &certificate))
}

#[test]
fn numbers_ranges(rt: HostRuntime) -> Result<(), Fail> {
    let cases: &[(&[(u32, i64)], bool)] = &[
        (&[(0, 1), (4, 1)], true),
        (&[(1, 1), (3, 1)], true),
        (&[(0, 1), (5, 1)], false),
        (&[(0, 1), (2, 1)], false),
        (&[(1, 1), (2, 1)], false),
        (&[(0, 1), (4, 1), (6, 0)], false),
    ];
    for &(parts, right) in cases {
        let found = refutes_ranges(rt.alloc(), parts)?;
        assert_eq!(rt; found, right, "{parts:?}");
    }
    Ok(())
}

fn great_constants(alloc: Global) -> Result<Cube, LinError> {
    let first = constant_of(alloc, 1 << 84);
    let second = constant_of(alloc, 1 - (1 << 84));
    cube_of(alloc, first, second)
}

fn refutes_great(alloc: Global, parts: &[(u32, i64)]) -> Result<bool, LinError> {
    let certificate = close(alloc, &[(parts, i64::MAX, 0, 1)])?;
    Ok(refutes(&great_constants(alloc)?, &certificate))
}

#[test]
fn keeps_sums_of_128_bits(rt: HostRuntime) -> Result<(), Fail> {
    let cases: &[(&[(u32, i64)], bool)] = &[
        (&[(0, 1), (1, 1)], true),
        (
            &[(0, 1 << 42), (1, 1 << 42), (0, 1 << 42), (1, 1 << 42)],
            true,
        ),
        (
            &[(0, 1 << 42), (0, 1 << 42), (1, 1 << 42), (1, 1 << 42)],
            false,
        ),
        (&[(0, 1 << 43), (1, 1 << 43)], false),
    ];
    for &(parts, right) in cases {
        let found = refutes_great(rt.alloc(), parts)?;
        assert_eq!(rt; found, right, "{parts:?}");
    }
    Ok(())
}

fn nested(alloc: Global, depth: u32) -> Result<Certificate, LinError> {
    let mut certificate = close(alloc, &[(&[(0, 1), (1, 1)], 1, 0, 1)])?;
    for _ in 0..depth {
        let low = close(alloc, &[(&[(0, 1), (1, 1)], 1, 0, 1)])?;
        certificate = branch(alloc, 0, 0, low, certificate)?;
    }
    Ok(certificate)
}

fn refutes_nested(alloc: Global, depth: u32) -> Result<bool, LinError> {
    Ok(refutes(&great_constants(alloc)?, &nested(alloc, depth)?))
}

#[test]
fn keeps_the_nesting(rt: HostRuntime) -> Result<(), Fail> {
    for &(depth, right) in &[(512, true), (513, false)] {
        let found = refutes_nested(rt.alloc(), depth)?;
        assert_eq!(rt; found, right, "{depth}");
    }
    Ok(())
}

fn copies_refute(alloc: Global) -> Result<bool, LinError> {
    let high = rounding(alloc, &[(5, 1), (6, 1)], 4, -3)?;
    let certificate = branch(alloc, 0, 3, low_side(alloc)?, high)?;
    let copy = certificate.copy(alloc)?;
    let cube = twice_is_seven(alloc)?;
    Ok(refutes(&cube, &certificate) && refutes(&cube, &copy))
}

/// The parts, the divisor and the constant of a copy's second row are those that were made.
fn copies_rows(alloc: Global) -> Result<bool, LinError> {
    match rounding(alloc, &[(4, 1), (5, 1)], 4, -3)?.copy(alloc)? {
        Certificate::Close(rows) => match rows.get(1) {
            Some(second) => Ok(
                second.parts.as_slice() == [(0, 1)].as_slice()
                    && second.divide == 2
                    && second.row.term.constant() == -3,
            ),
            None => Ok(false),
        },
        Certificate::Branch { .. } => Ok(false),
    }
}

#[test]
fn copies(rt: HostRuntime) -> Result<(), Fail> {
    let refuted = copies_refute(rt.alloc())?;
    assert!(rt; refuted);
    let kept = copies_rows(rt.alloc())?;
    assert!(rt; kept);
    Ok(())
}
