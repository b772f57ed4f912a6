//! Rows and cubes.

ghost use Rattle.std.specs.Prelude.{◌≡◌, ◌++◌, OnOk, string_bytes};
ghost use Rattle.linear_formula.specs.LinearSum.{has_no_zero, is_ascending};
ghost use Rattle.proof_bundle.specs.Text.{cube_text, row_text};
ghost use Rattle.proof_bundle.specs.steps.Reading.{Gives};
ghost use Rattle.proof_bundle.specs.steps.Bundles.{cube_at, is_row, pair_at, row_at};

use crate::error::BundleError;
use crate::number::{behind, count, signed, thing};
use crate::part::{Part, read_list, read_tagged, write_list};
use linear_formula::error::OutOfMemory;
use linear_formula::formula::{Atom, Atoms};
use linear_formula::term::{MAX_COEFFICIENT, MAX_CONSTANT, MAX_PARTS, Parts, Term};
use std::alloc::Global;

/// A column and its coefficient.
impl Part for (u32, i128) {
    ghost use Rattle.std.specs.Prelude.{ℕ, ℤ};
    ghost use Rattle.proof_bundle.specs.Text.{pair_text};
    ghost use Rattle.proof_bundle.specs.steps.Bundles.{pair_at};

    ghost Pure = { ℕ × ℤ };

    ghost pure = { λ p. p };

    ghost text = { pair_text };

    ghost at = { pair_at };

    #[tactic(auto, unfolding(crate::specs::steps::Bundles::pair_at))]
    fn read(_alloc: Global, bytes: &[u8]) -> Result<((u32, i128), &[u8]), BundleError> {
        let (column, rest) = thing(bytes, b' ')?;
        let most = MAX_COEFFICIENT as u128;
        let (coefficient, rest) = signed(rest, b' ', most, most)?;
        Ok(((column, coefficient), rest))
    }

    fn write(&self, out: &mut String) -> Result<(), OutOfMemory> {
        write!(out, "{} {} ", self.0, self.1)
    }
}

/// Whether the columns ascend.
fn is_ascending(parts: &[(u32, i128)]) -> bool
    ensures { result ≡ is_ascending parts.now }
{
    let mut low = 0;
    for (column, _) in parts {
        let column = u64::from(*column);
        if column < low {
            return false;
        }
        low = column + 1;
    }
    true
}

/// Whether no coefficient is 0.
fn has_no_zero(parts: &[(u32, i128)]) -> bool
    ensures { result ≡ has_no_zero parts.now }
{
    for (_, coefficient) in parts {
        if *coefficient == 0 {
            return false;
        }
    }
    true
}

/// Whether parts in their ranges are those of a term.
fn is_row(parts: &[(u32, i128)]) -> bool
    ensures { result ≡ is_row parts.now }
{
    parts.len() <= MAX_PARTS && is_ascending(parts) && has_no_zero(parts)
}

impl Part for Atom {
    ghost use Rattle.linear_formula.specs.declared.formula.Atom.{Atom};
    ghost use Rattle.proof_bundle.specs.Text.{row_text};
    ghost use Rattle.proof_bundle.specs.steps.Bundles.{row_at};

    ghost Pure = { Atom };

    ghost pure = { λ a. a };

    ghost text = { row_text };

    ghost at = { row_at };

    #[tactic(auto, unfolding(crate::specs::steps::Bundles::row_at))]
    fn read(alloc: Global, bytes: &[u8]) -> Result<(Atom, &[u8]), BundleError> {
        let rest = behind(bytes, b"row ")?;
        let (count, rest) = count(rest, b' ')?;
        let (parts, rest) = read_list::<(u32, i128)>(alloc, rest, count)?;
        let most = MAX_CONSTANT as u128;
        let (constant, rest) = signed(rest, b'\n', most, most)?;
        if !is_row(&parts) {
            return Err(BundleError::NotBundle);
        }
        let term = Term::new(Parts::from_vec(parts), constant);
        Ok((Atom { term }, rest))
    }

    fn write(&self, out: &mut String) -> Result<(), OutOfMemory> {
        let parts = self.term.parts();
        write!(out, "row {} ", parts.len())?;
        write_list::<(u32, i128)>(out, parts)?;
        write!(out, "{}\n", self.term.constant())
    }
}

/// The atoms of a cube, whose text the bytes begin with.
#[tactic(auto, unfolding(crate::specs::steps::Bundles::cube_at))]
pub fn read_cube(alloc: Global, bytes: &[u8]) -> Result<(Atoms, &[u8]), BundleError>
    ensures { Gives (λ r. (r.0, r.1.now)) result (cube_at bytes.now) }
{
    let (atoms, rest) = read_tagged::<Atom>(alloc, bytes, b"cube ")?;
    Ok((Atoms::from_vec(atoms), rest))
}

/// Puts the text of a cube at the end.
pub fn write_cube(out: &mut String, atoms: &Atoms) -> Result<(), OutOfMemory>
    ensures { OnOk result (string_bytes out.new ≡ string_bytes out.old ++ cube_text atoms.now) }
{
    let atoms = atoms.as_slice();
    write!(out, "cube {}\n", atoms.len())?;
    write_list::<Atom>(out, atoms)
}
