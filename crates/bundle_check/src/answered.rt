//! Claims that answer what calls ask.

ghost use Rattle.std.specs.Prelude.{◌≡◌, ◌↔◌, map, IfOk, IsTrue};
ghost use Rattle.infeasible_cert.specs.Refutation.{refutation_of};
ghost use Rattle.shadow_elim.specs.Questions.{with_negation};
ghost use Rattle.bundle_check.specs.RightClaims.{AreShown, IsRefutedBy, is_among, missing};
ghost use Rattle.bundle_check.specs.steps.Checks.{IsAnswered};

use crate::killed::is_refuted;
use infeasible_cert::certificate::Certificate;
use linear_formula::error::OutOfMemory;
use linear_formula::formula::{Atom, Cube};
use std::alloc::Global;
use summary_form::query::{ExitKind, Query};

/// Whether the atom is one of these.
pub fn is_among(rows: &[Atom], atom: &Atom) -> bool
    ensures { result ≡ is_among rows.now atom.now }
{
    rows.iter().any(|row| *atom == *row)
}

/// Whether the certificate refutes the rows with the atom's negation. It doesn't where the negation
/// is too wide for a term.
fn is_shown(alloc: Global, rows: &Cube, atom: &Atom, by: &Certificate) -> Result<bool, OutOfMemory>
    ensures { IfOk result (λ r. IsTrue r
        ↔ IsRefutedBy (with_negation rows.now.atoms atom.now) (refutation_of by.now)) }
{
    let mut negation = atom.copy(alloc)?;
    match negation.negate() {
        Ok(()) => {
            let cube = rows.with(alloc, negation)?;
            Ok(is_refuted(&cube, by))
        }
        Err(_) => Ok(false),
    }
}

/// Whether there is one certificate, in order, for each of the atoms that the rows don't have.
fn are_shown(
    alloc: Global,
    rows: &Cube,
    atoms: &[Atom],
    proof: &[Certificate],
) -> Result<bool, OutOfMemory>
    ensures { IfOk result (λ r. IsTrue r
        ↔ AreShown rows.now.atoms (missing rows.now.atoms atoms.now)
        (map refutation_of proof.now)) }
{
    let mut used = 0;
    for atom in atoms {
        if !is_among(rows.atoms.as_slice(), atom) {
            let Some(by) = proof.get(used) else {
                return Ok(false);
            };
            if !is_shown(alloc, rows, atom, by)? {
                return Ok(false);
            }
            used += 1;
        }
    }
    Ok(used == proof.len())
}

fn is_same_exit(left: ExitKind, right: ExitKind) -> bool
    ensures { IsTrue result ↔ (left ≡ right) }
{
    left == right
}

/// Whether the claim is of the procedure and the exit kind that are asked for, and the certificates
/// show the atoms of its start and then of its end that aren't asked for themselves.
pub fn is_answered(
    alloc: Global,
    asked: &Query,
    claim: &Query,
    proof: &[Certificate],
) -> Result<bool, OutOfMemory>
    ensures { IfOk result (λ r. IsTrue r
        ↔ IsAnswered asked.now claim.now (map refutation_of proof.now)) }
{
    if claim.proc != asked.proc || !is_same_exit(claim.exit, asked.exit) {
        return Ok(false);
    }
    let rows = asked.start.and(alloc, &asked.end)?;
    let atoms = claim.start.and(alloc, &claim.end)?;
    are_shown(alloc, &rows, atoms.atoms.as_slice(), proof)
}
