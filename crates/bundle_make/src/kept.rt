//! The certificates of a claim's atoms that aren't asked for themselves.

ghost use Rattle.std.specs.Prelude.{◌≡◌, ◌++◌, map, IfOk, OnOk};
ghost use Rattle.infeasible_cert.specs.Refutation.{refutation_of};
ghost use Rattle.query_rules.specs.Rows.{rows_of_query};
ghost use Rattle.bundle_check.specs.RightClaims.{is_among};
ghost use Rattle.bundle_check.specs.Walked.{kept};

use infeasible_cert::certificate::Certificate;
use linear_formula::error::OutOfMemory;
use linear_formula::formula::Atom;
use query_rules::certificates::Certificates;
use std::alloc::Global;
use summary_form::query::Query;

fn is_among(rows: &[Atom], atom: &Atom) -> bool
    ensures { result ≡ is_among rows.now atom.now }
{
    rows.iter().any(|row| *atom == *row)
}

/// Whether the query asks for the atom itself.
fn asks_for(asked: &Query, atom: &Atom) -> bool
    ensures { result ≡ is_among (rows_of_query asked.now) atom.now }
{
    is_among(asked.start.atoms.as_slice(), atom) || is_among(asked.end.atoms.as_slice(), atom)
}

/// Of certificates, one for each of the atoms, those of the atoms that aren't asked for.
fn keep_onto(
    out: &mut Vec<Certificate>,
    alloc: Global,
    asked: &Query,
    atoms: &[Atom],
    proof: &[Certificate],
) -> Result<(), OutOfMemory>
    ensures { OnOk result (map refutation_of out.new.items ≡ map refutation_of out.old.items
        ++ kept (rows_of_query asked.now) atoms.now proof.now) }
{
    for i in 0..atoms.len().min(proof.len()) {
        if !asks_for(asked, &atoms[i]) {
            out.push(proof[i].copy(alloc)?)?;
        }
    }
    Ok(())
}

/// Those of the atoms of the claim's start and then of its end.
pub fn kept_of(
    alloc: Global,
    asked: &Query,
    claimed: &Query,
    proof: &[Certificate],
) -> Result<Certificates, OutOfMemory>
    ensures { IfOk result (λ k. map refutation_of k
        ≡ kept (rows_of_query asked.now) (rows_of_query claimed.now) proof.now) }
{
    let start = claimed.start.atoms.as_slice();
    let end = claimed.end.atoms.as_slice();
    let used = start.len().min(proof.len());
    let mut out = Vec::new(alloc);
    keep_onto(&mut out, alloc, asked, start, proof)?;
    keep_onto(&mut out, alloc, asked, end, &proof[used..])?;
    Ok(Certificates::from_vec(out))
}
