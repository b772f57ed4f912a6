//! Rows and lists of numbers.

ghost use Rattle.std.specs.Prelude.{◌≡◌, ◌++◌, OnOk, string_bytes};
ghost use Rattle.graph_text.specs.Text.{column_text, counted, number, part_text, row_text, rows_text};

use c_tree::tree::Slot;
use linear_formula::error::OutOfMemory;
use linear_formula::formula::{Atom, Cube};

/// Slots after their number.
pub fn write_slots(out: &mut String, slots: &[Slot]) -> Result<(), OutOfMemory>
    ensures { OnOk result
        (string_bytes out.new ≡ string_bytes out.old ++ counted number slots.now) }
{
    write!(out, " {}", slots.len())?;
    for slot in slots {
        write!(out, " {slot}")?;
    }
    Ok(())
}

/// Slots with their coefficients, after their number.
pub fn write_parts(out: &mut String, parts: &[(i64, Slot)]) -> Result<(), OutOfMemory>
    ensures { OnOk result
        (string_bytes out.new ≡ string_bytes out.old ++ counted part_text parts.now) }
{
    write!(out, " {}", parts.len())?;
    for (coefficient, slot) in parts {
        write!(out, " {slot} {coefficient}")?;
    }
    Ok(())
}

/// Columns with their coefficients, after their number.
fn write_columns(out: &mut String, parts: &[(u32, i128)]) -> Result<(), OutOfMemory>
    ensures { OnOk result
        (string_bytes out.new ≡ string_bytes out.old ++ counted column_text parts.now) }
{
    write!(out, " {}", parts.len())?;
    for (column, coefficient) in parts {
        write!(out, " {column} {coefficient}")?;
    }
    Ok(())
}

fn write_row(out: &mut String, row: &Atom) -> Result<(), OutOfMemory>
    ensures { OnOk result (string_bytes out.new ≡ string_bytes out.old ++ row_text row.now) }
{
    write!(out, "row")?;
    write_columns(out, row.term.parts())?;
    write!(out, " {}\n", row.term.constant())
}

/// Rows after their number.
pub fn write_rows(out: &mut String, rows: &Cube) -> Result<(), OutOfMemory>
    ensures { OnOk result
        (string_bytes out.new ≡ string_bytes out.old ++ rows_text rows.now.atoms) }
{
    let rows = rows.atoms.as_slice();
    write!(out, " {}\n", rows.len())?;
    for row in rows {
        write_row(out, row)?;
    }
    Ok(())
}
