//! The numbers of claims are of their types, as what reads them knows. These functions compute
//! nothing.

ghost use Rattle.infeasible_cert.specs.Refutation.{refutation_of};
ghost use Rattle.proof_bundle.specs.Claims.{claim_of, move_of};
ghost use Rattle.proof_bundle.specs.Text.{AreEach, HasRanges, IsDerived, IsEdge, IsExit, IsMultiple, IsRow};
ghost use Rattle.bundle_make.specs.steps.Ranges.{IsSizedClaim, IsSizedMove, IsSizedProof};

use infeasible_cert::certificate::{Certificate, Derived};
use linear_formula::formula::Atom;
use may_partition::region::RegionEdge;
use proof_bundle::bundle::{Claim, Move};
use summary_form::query::ExitKind;

fn row_fits(row: &Atom)
    ensures { IsRow row.now }
{
    let _ = row.term.parts();
}

fn multiple_fits(part: &(u32, i64))
    ensures { IsMultiple part.now }
{
    let (_number, _by) = *part;
}

fn multiples_fit(parts: &[(u32, i64)])
    ensures { AreEach IsMultiple parts.now }
{
    for part in parts {
        multiple_fits(part);
    }
}

fn derived_fits(derived: &Derived)
    ensures { IsDerived derived.now }
{
    let _divide = derived.divide;
    multiples_fit(derived.parts.as_slice());
    row_fits(&derived.row);
}

fn steps_fit(rows: &[Derived])
    ensures { AreEach IsDerived rows.now }
{
    for row in rows {
        derived_fits(row);
    }
}

fn certificate_fits(certificate: &Certificate)
    ensures { HasRanges (refutation_of certificate.now) }
{
    match certificate {
        Certificate::Close(rows) => steps_fit(rows),
        Certificate::Branch {
            rows,
            column,
            at,
            low,
            high,
        } => {
            let _split = (*column, *at);
            steps_fit(rows);
            certificate_fits(&**low);
            certificate_fits(&**high);
        }
    }
}

fn proof_fits(proof: &[Certificate])
    ensures { IsSizedProof proof.now }
{
    for certificate in proof {
        certificate_fits(certificate);
    }
}

fn atoms_fit(atoms: &[Atom])
    ensures { AreEach IsRow atoms.now }
{
    for row in atoms {
        row_fits(row);
    }
}

fn edge_fits(edge: &RegionEdge)
    ensures { IsEdge edge.now }
{
    let (_edge, _from, _to) = (edge.edge, edge.from, edge.to);
}

fn exit_fits(exit: ExitKind)
    ensures { IsExit exit }
{
    match exit {
        ExitKind::Return => {}
        ExitKind::Fail(_id) => {}
    }
}

fn move_fits(step: &Move)
    ensures { IsSizedMove (move_of step.now) }
{
    match step {
        Move::Split { edge, atoms } => {
            edge_fits(edge);
            atoms_fit(atoms.as_slice());
        }
        Move::Kill { edge, by } => {
            edge_fits(edge);
            certificate_fits(by);
        }
        Move::KillCall { edge, claim, proof } => {
            let _claim = *claim;
            edge_fits(edge);
            proof_fits(proof.as_slice());
        }
    }
}

fn moves_fit(moves: &[Move])
    ensures { AreEach (λ m. IsSizedMove (move_of m)) moves.now }
{
    for step in moves {
        move_fits(step);
    }
}

/// All numbers of a claim are of their types.
pub fn claim_fits(claim: &Claim)
    ensures { IsSizedClaim (claim_of claim.now) }
{
    let _proc = claim.query.proc;
    exit_fits(claim.query.exit);
    atoms_fit(claim.query.start.atoms.as_slice());
    atoms_fit(claim.query.end.atoms.as_slice());
    moves_fit(claim.moves.as_slice());
}
