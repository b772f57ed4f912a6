//! The rows that a step may name, by their numbers.

ghost use Rattle.std.specs.Prelude.{◌≡◌, ◌+◌, ◌<◌, [], length, MatchResult, if◌then◌else◌};
ghost use Rattle.infeasible_cert.specs.Right.{base_rows, row_at, upper_range, lower_range};
ghost use Rattle.infeasible_cert.specs.steps.Known.{number_at, sum_of, rows_below, rows_in};

use crate::certificate::Derived;
use crate::columns::{Columns, nth_column};
use linear_formula::term::Term;

/// A column of a row, or its constant.
#[derive(Clone, Copy)]
pub enum Place {
    Column(u32),
    Constant,
}

/// A row, at most 0.
#[derive(Clone, Copy)]
pub enum Row<'a> {
    Listed(&'a Term),
    Single {
        column: u32,
        coefficient: i128,
        constant: i128,
    },
}

/// The rows of the nodes down to one, in order.
#[derive(Clone, Copy)]
pub enum Nodes<'a> {
    Top,
    Steps {
        above: &'a Nodes<'a>,
        derived: &'a [Derived],
    },
    Bound {
        above: &'a Nodes<'a>,
        column: u32,
        coefficient: i128,
        constant: i128,
    },
}

/// The rows of a cube and of its ranges, and after them those of nodes.
#[derive(Clone, Copy)]
pub struct Rows<'a> {
    pub columns: &'a Columns<'a>,
    pub nodes: &'a Nodes<'a>,
}

impl Row<'_> {
    pub fn number(&self, place: Place) -> i128
        ensures { result ≡ number_at place (sum_of self.now) }
    {
        match self {
            Row::Listed(term) => match place {
                Place::Column(x) => term.coefficient(x),
                Place::Constant => term.constant(),
            },
            Row::Single {
                column,
                coefficient,
                constant,
            } => match place {
                Place::Column(x) => { if x == *column { *coefficient } else { 0 } }
                Place::Constant => *constant,
            },
        }
    }
}

/// The row that a range gives: the upper one, or the lower one.
fn range_row<'a>(column: u32, is_upper: bool) -> Row<'a>
    ensures { sum_of result ≡ (if is_upper then upper_range column else lower_range column) }
{
    if is_upper {
        Row::Single {
            column,
            coefficient: 1,
            constant: -9_223_372_036_854_775_807,
        }
    } else {
        Row::Single {
            column,
            coefficient: -1,
            constant: -9_223_372_036_854_775_808,
        }
    }
}

/// A row of a cube or of a range, or how far the number is past the last one.
fn find_base<'a>(columns: &'a Columns<'a>, number: u64) -> Result<Row<'a>, u64>
    ensures { MatchResult result
        (λ row. (number < length (base_rows columns.now.atoms.now))
        × (sum_of row ≡ row_at (base_rows columns.now.atoms.now) number))
        (λ behind. number ≡ length (base_rows columns.now.atoms.now) + behind) }
{
    let atoms = columns.atoms;
    let count = atoms.len() as u64;
    if number < count {
        return Ok(Row::Listed(&atoms[number as usize].term));
    }
    let place = number - count;
    match nth_column(columns, place / 2) {
        Ok(column) => Ok(range_row(column, place % 2 == 0)),
        Err(behind) => Err(behind * 2 + place % 2),
    }
}

/// The row of a number among those of nodes, or how far the number is past the last one.
fn find_below<'a>(nodes: &Nodes<'a>, number: u64) -> Result<Row<'a>, u64>
    ensures { MatchResult result (λ row. (number < length (rows_below [] nodes.now))
        × (sum_of row ≡ row_at (rows_below [] nodes.now) number))
        (λ behind. number ≡ length (rows_below [] nodes.now) + behind) }
{
    match nodes {
        Nodes::Top => Err(number),
        Nodes::Steps { above, derived } => match find_below(above, number) {
            Ok(row) => Ok(row),
            Err(behind) => {
                let count = derived.len() as u64;
                if behind < count {
                    Ok(Row::Listed(&derived[behind as usize].row.term))
                } else {
                    Err(behind - count)
                }
            }
        },
        Nodes::Bound {
            above,
            column,
            coefficient,
            constant,
        } => match find_below(above, number) {
            Ok(row) => Ok(row),
            Err(0) => Ok(Row::Single {
                column: *column,
                coefficient: *coefficient,
                constant: *constant,
            }),
            Err(behind) => Err(behind - 1),
        },
    }
}

/// The row of a number, or how far the number is past the last one.
pub fn find<'a>(rows: &Rows<'a>, number: u64) -> Result<Row<'a>, u64>
    ensures { MatchResult result (λ row. (number < length (rows_in rows.now))
        × (sum_of row ≡ row_at (rows_in rows.now) number))
        (λ behind. number ≡ length (rows_in rows.now) + behind) }
{
    match find_base(rows.columns, number) {
        Ok(row) => Ok(row),
        Err(behind) => find_below(rows.nodes, behind),
    }
}
