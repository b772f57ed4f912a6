//! The table of a branch's rows.

ghost use Rattle.std.specs.Prelude.{List, ◌≡◌, ◌+◌, ◌*◌, ◌^◌, ◌<◌, ◌++◌, ◌∷◌, [], flat_map, length, IfOk, OnOk, IsTrue};
ghost use Rattle.linear_formula.specs.Formula.{are_terms};
ghost use Rattle.linear_formula.specs.Rows.{all_rows};
ghost use Rattle.infeasible_cert.specs.Right.{rows_of, range_rows};
ghost use Rattle.lia_solver.specs.steps.Gathered.{ArePut, AreGathered, numbered_rows};
ghost use Rattle.lia_solver.specs.steps.Numbers.{numbered_from};

use crate::eliminate::put;
use crate::table::{Origin, Table};
use linear_formula::error::OutOfMemory;
use linear_formula::formula::Atom;
use linear_formula::joined::Rows;
use linear_formula::shared::Block;

/// The constants of the rows of a column's range: that no value is above the greatest one, and none
/// below the least one.
const UPPER: i128 = -9_223_372_036_854_775_807;

const LOWER: i128 = -9_223_372_036_854_775_808;

/// Puts the atoms' rows into the table, numbered from `first` on.
fn put_atoms(table: &mut Table, atoms: &[Atom], first: u32) -> Result<(), OutOfMemory>
    requires terms { IsTrue (are_terms atoms.now) }
    requires numbers { first + length atoms.now < 2 ^ 32 }
    ensures { OnOk result (ArePut (numbered_from first (rows_of atoms.now)) table.old table.new) }
{
    for (place, atom) in atoms.iter().enumerate() {
        let number = Origin::Given(first + place as u32);
        put(table, atom.term.parts(), atom.term.constant(), number)?;
    }
    Ok(())
}

/// Puts the rows of the blocks into the table, numbered from 0 on, and says how many they are.
fn put_blocks(table: &mut Table, blocks: &[Block]) -> Result<u32, OutOfMemory>
    requires { length (flat_map (λ b. b) blocks.now) < 2 ^ 32 }
    ensures rows { OnOk result (ArePut (numbered_from 0 (rows_of (flat_map (λ b. b) blocks.now)))
        table.old table.new) }
    ensures count { IfOk result (λ n. n ≡ length (flat_map (λ b. b) blocks.now)) }
{
    let mut next = 0;
    for block in blocks {
        let atoms = block.as_slice();
        put_atoms(table, atoms, next)?;
        next += atoms.len() as u32;
    }
    Ok(next)
}

/// Puts the rows of a question into the table, numbered from 0 on, and says how many they are.
fn put_question(table: &mut Table, question: &Rows) -> Result<u32, OutOfMemory>
    requires terms { IsTrue (are_terms (all_rows question.now)) }
    requires numbers { length (all_rows question.now) < 2 ^ 32 }
    ensures rows { OnOk result (ArePut (numbered_from 0 (rows_of (all_rows question.now)))
        table.old table.new) }
    ensures count { IfOk result (λ n. n ≡ length (all_rows question.now)) }
{
    let first = put_blocks(table, question.blocks)?;
    put_atoms(table, question.own, first)?;
    Ok(first + question.own.len() as u32)
}

/// Puts the rows of the columns' ranges into the table, numbered from `first` on.
fn put_ranges(table: &mut Table, columns: &[u32], first: u32) -> Result<(), OutOfMemory>
    requires { first + 2 * length columns.now < 2 ^ 32 }
    ensures { OnOk result (ArePut (numbered_from first (range_rows columns.now)) table.old
        table.new) }
{
    for (place, column) in columns.iter().enumerate() {
        let number = first + 2 * place as u32;
        table.add(&[(*column, 1)], UPPER, Origin::Given(number))?;
        table.add(&[(*column, -1)], LOWER, Origin::Given(number + 1))?;
    }
    Ok(())
}

/// Fills a table with the rows of a branch: their numbers are those that they have in its
/// certificate, where the ranges come before the rows of the splits.
pub fn gather(
    table: &mut Table,
    question: &Rows,
    splits: &[Atom],
    columns: &[u32],
) -> Result<(), OutOfMemory>
    requires question { IsTrue (are_terms (all_rows question.now)) }
    requires splits { IsTrue (are_terms splits.now) }
    requires numbers { length (all_rows question.now) + 2 * length columns.now + length splits.now
        < 2 ^ 32 }
    ensures { OnOk result (AreGathered (numbered_rows (all_rows question.now) splits.now
        columns.now) table.new) }
{
    table.clear();
    let ranges = put_question(table, question)?;
    let further = ranges + 2 * columns.len() as u32;
    put_atoms(table, splits, further)?;
    put_ranges(table, columns, ranges)
}
