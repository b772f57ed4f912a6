//! Sizes of rows at the bounds within which no sum of two of them is too wide.

ghost use Rattle.std.specs.Prelude.{IfOk};
ghost use Rattle.shadow_elim.specs.RowSizes.{AreLimited};

use linear_formula::error::LinError;
use linear_formula::reading::column_term;
use linear_formula::term::Term;
use shadow_elim::sizes::{Sizes, do_fit, larger, sizes_of};
use std::alloc::Global;
use std::test::Fail;

/// How many columns there are, and a coefficient and a constant.
type Numbers = (u32, i64, i64);

/// A row of the first columns, each with this coefficient.
fn row_of(alloc: Global, count: u32, coefficient: i64, constant: i64) -> Result<Term, LinError> {
    let mut summands = Vec::new(alloc);
    for column in 0..count {
        summands.push((coefficient, column_term(alloc, column)?))?;
    }
    Term::combine(alloc, &summands, constant)
}

fn sizes_of_row(
    alloc: Global,
    count: u32,
    coefficient: i64,
    constant: i64,
) -> Result<Sizes, LinError>
    ensures { IfOk result AreLimited }
{
    let row = row_of(alloc, count, coefficient, constant)?;
    Ok(sizes_of(row.parts(), row.constant()))
}

/// Whether rows of these numbers fit: on each side one row has the columns, and another one the
/// coefficient and the constant.
fn fit(alloc: Global, upper: Numbers, lower: Numbers) -> Result<bool, LinError> {
    let long = sizes_of_row(alloc, upper.0, 1, 0)?;
    let uppers = larger(long, sizes_of_row(alloc, 1, upper.1, upper.2)?);
    let long = sizes_of_row(alloc, lower.0, -1, 0)?;
    let lowers = larger(sizes_of_row(alloc, 1, lower.1, lower.2)?, long);
    Ok(do_fit(uppers, lowers))
}

#[test]
fn fits_up_to_the_limits(rt: HostRuntime) -> Result<(), Fail> {
    // The greatest product of coefficients is 2 ^ 39, and the next one is 3 * 183251937963.
    let cases: &[(Numbers, Numbers, bool)] = &[
        ((512, 1, 0), (512, -1, 0), true),
        ((512, 1, 0), (513, -1, 0), false),
        ((513, 1, 0), (512, -1, 0), false),
        ((1, 1 << 20, 0), (1, -(1 << 19), 0), true),
        ((1, 3, 0), (1, -183_251_937_963, 0), false),
        ((1, 1 << 39, 0), (1, -1, 1 << 45), true),
        ((1, 1 << 39, 1), (1, -1, 1 << 45), false),
        ((1, 1, -(1 << 45)), (1, -(1 << 39), 0), true),
        ((1, 1, -(1 << 45)), (1, -(1 << 39), -1), false),
        ((512, 1 << 20, 1 << 62), (512, -(1 << 19), -(1 << 62)), true),
    ];
    for &(upper, lower, expected) in cases {
        let found = fit(rt.alloc(), upper, lower)?;
        assert_eq!(rt; found, expected, "{upper:?} {lower:?}");
    }
    Ok(())
}

/// The sizes of a row at all limits: 1024 columns, 2 ^ 40 and 2 ^ 84.
fn greatest(alloc: Global) -> Result<Sizes, LinError>
    ensures { IfOk result AreLimited }
{
    let part = row_of(alloc, 1024, 1 << 18, 1 << 62)?;
    let row = Term::combine(alloc, &vec![in alloc; (1 << 22, part)]?, 0)?;
    Ok(sizes_of(row.parts(), row.constant()))
}

fn fits_with_none(alloc: Global) -> Result<bool, LinError> {
    let greatest = greatest(alloc)?;
    let none = Sizes::none();
    Ok(do_fit(none, greatest) && do_fit(greatest, none) && do_fit(none, none))
}

fn fits_with_one(alloc: Global) -> Result<bool, LinError> {
    let one = sizes_of_row(alloc, 1, 1, 0)?;
    Ok(do_fit(greatest(alloc)?, one))
}

#[test]
fn fits_with_no_rows(rt: HostRuntime) -> Result<(), Fail> {
    let none = fits_with_none(rt.alloc())?;
    let one = fits_with_one(rt.alloc())?;
    assert!(rt; none && !one);
    Ok(())
}
