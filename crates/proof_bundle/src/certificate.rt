//! Certificates.

ghost use Rattle.infeasible_cert.specs.Refutation.{refutation_of};
ghost use Rattle.proof_bundle.specs.Text.{derived_text, refutation_text};
ghost use Rattle.proof_bundle.specs.steps.Reading.{Gives};
ghost use Rattle.proof_bundle.specs.steps.Bundles.{branch_at, close_at, derived_at, multiple_at, refutation_at};

use crate::error::BundleError;
use crate::number::{begins_with, behind, count, long, thing};
use crate::part::{Part, read_list, read_tagged, write_list};
use infeasible_cert::certificate::{Certificate, Derived, Multiples};
use linear_formula::error::OutOfMemory;
use linear_formula::formula::Atom;
use std::alloc::Global;

/// How deep branches may nest: `max_nesting` of the definitions.
const MAX_NESTING: u32 = 512;

/// The number of a row, and its multiplier.
impl Part for (u32, i64) {
    ghost use Rattle.std.specs.Prelude.{ℕ, ℤ};
    ghost use Rattle.proof_bundle.specs.Text.{pair_text};
    ghost use Rattle.proof_bundle.specs.steps.Bundles.{multiple_at};

    ghost Pure = { ℕ × ℤ };

    ghost pure = { λ p. p };

    ghost text = { pair_text };

    ghost at = { multiple_at };

    #[tactic(auto, unfolding(crate::specs::steps::Bundles::multiple_at))]
    fn read(_alloc: Global, bytes: &[u8]) -> Result<((u32, i64), &[u8]), BundleError> {
        let (number, rest) = thing(bytes, b' ')?;
        let (by, rest) = long(rest, b' ')?;
        Ok(((number, by), rest))
    }

    fn write(&self, out: &mut String) -> Result<(), OutOfMemory> {
        write!(out, "{} {} ", self.0, self.1)
    }
}

impl Part for Derived {
    ghost use Rattle.infeasible_cert.specs.declared.certificate.Derived.{Derived};
    ghost use Rattle.proof_bundle.specs.Text.{derived_text};
    ghost use Rattle.proof_bundle.specs.steps.Bundles.{derived_at};

    ghost Pure = { Derived };

    ghost pure = { λ d. d };

    ghost text = { derived_text };

    ghost at = { derived_at };

    #[tactic(auto, unfolding(crate::specs::steps::Bundles::derived_at))]
    fn read(alloc: Global, bytes: &[u8]) -> Result<(Derived, &[u8]), BundleError> {
        let rest = behind(bytes, b"derive ")?;
        let (count, rest) = count(rest, b' ')?;
        let (parts, rest) = read_list::<(u32, i64)>(alloc, rest, count)?;
        let (divide, rest) = long(rest, b'\n')?;
        let (row, rest) = Atom::read(alloc, rest)?;
        let parts = Multiples::from_vec(parts);
        Ok((Derived { row, parts, divide }, rest))
    }

    fn write(&self, out: &mut String) -> Result<(), OutOfMemory> {
        let parts = self.parts.as_slice();
        write!(out, "derive {} ", parts.len())?;
        write_list::<(u32, i64)>(out, parts)?;
        write!(out, "{}\n", self.divide)?;
        self.row.write(out)
    }
}

#[tactic(auto, unfolding(crate::specs::steps::Bundles::close_at))]
fn read_close(alloc: Global, bytes: &[u8]) -> Result<(Certificate, &[u8]), BundleError>
    ensures { Gives (λ r. (refutation_of r.0, r.1.now)) result (close_at bytes.now) }
{
    let (rows, rest) = read_tagged::<Derived>(alloc, bytes, b"close ")?;
    Ok((Certificate::Close(rows), rest))
}

/// A branch, whose two certificates have branches that nest at most so deep.
#[cycle(refutations)]
#[tactic(auto, unfolding(crate::specs::steps::Bundles::branch_at))]
fn read_branch(alloc: Global, bytes: &[u8], depth: u32) -> Result<(Certificate, &[u8]), BundleError>
    ensures { Gives (λ r. (refutation_of r.0, r.1.now)) result
        (branch_at (refutation_at depth) bytes.now) }
{
    let rest = behind(bytes, b"branch ")?;
    let (count, rest) = count(rest, b' ')?;
    let (column, rest) = thing(rest, b' ')?;
    let (at, rest) = long(rest, b'\n')?;
    let (rows, rest) = read_list::<Derived>(alloc, rest, count)?;
    let (low, rest) = read_refutation(alloc, rest, depth)?;
    let low = Box::new(alloc, low)?;
    let (high, rest) = read_refutation(alloc, rest, depth)?;
    let high = Box::new(alloc, high)?;
    let branch = Certificate::Branch {
        rows,
        column,
        at,
        low,
        high,
    };
    Ok((branch, rest))
}

/// A certificate, whose branches nest at most so deep.
#[cycle(refutations)]
#[tactic(auto, unfolding(crate::specs::steps::Bundles::refutation_at))]
fn read_refutation(
    alloc: Global,
    bytes: &[u8],
    depth: u32,
) -> Result<(Certificate, &[u8]), BundleError>
    ensures { Gives (λ r. (refutation_of r.0, r.1.now)) result (refutation_at depth bytes.now) }
{
    if depth > 0 && begins_with(bytes, b'b') {
        read_branch(alloc, bytes, depth - 1)
    } else {
        read_close(alloc, bytes)
    }
}

impl Part for Certificate {
    ghost use Rattle.infeasible_cert.specs.Refutation.{Refutation, refutation_of};
    ghost use Rattle.proof_bundle.specs.Text.{refutation_text};
    ghost use Rattle.proof_bundle.specs.steps.Bundles.{certificate_at};

    ghost Pure = { Refutation };

    ghost pure = { refutation_of };

    ghost text = { refutation_text };

    ghost at = { certificate_at };

    #[tactic(auto, unfolding(crate::specs::steps::Bundles::certificate_at))]
    fn read(alloc: Global, bytes: &[u8]) -> Result<(Certificate, &[u8]), BundleError> {
        read_refutation(alloc, bytes, MAX_NESTING)
    }

    /// Calls itself down to the deepest branch.
    fn write(&self, out: &mut String) -> Result<(), OutOfMemory> {
        match self {
            Certificate::Close(rows) => {
                write!(out, "close {}\n", rows.len())?;
                write_list::<Derived>(out, rows)
            }
            Certificate::Branch {
                rows,
                column,
                at,
                low,
                high,
            } => {
                write!(out, "branch {} {column} {at}\n", rows.len())?;
                write_list::<Derived>(out, rows)?;
                low.write(out)?;
                high.write(out)
            }
        }
    }
}
