//! The check of a bundle.

ghost use Rattle.std.specs.Prelude.{◌≡◌, ◌↔◌, ℕ, ℤ, List, map, IfOk, IsTrue};
ghost use Rattle.c_tree.specs.Meaning.{Reaches};
ghost use Rattle.c_tree.specs.Whole.{program_of};
ghost use Rattle.flow_graph.specs.Columns.{AreAllValues};
ghost use Rattle.flow_graph.specs.ProgramGraphs.{SameRuns};
ghost use Rattle.summary_form.specs.ProgramGraphs.{SameArities};
ghost use Rattle.proof_bundle.specs.Claims.{claim_of, pure_of};
ghost use Rattle.bundle_check.specs.RightClaims.{IsFirstWrong, IsOfAssertion, IsRightProof, failure_at};
ghost use Rattle.bundle_check.specs.declared.check.Checked.TheVariants as checked;
ghost use Rattle.bundle_check.specs.steps.Checks.{IfFirstWrong, Says};

use crate::claim::is_right_claim;
use c_tree::tree::{ProcId, Program};
use flow_graph::graphs::Graphs;
use linear_formula::error::OutOfMemory;
use proof_bundle::bundle::{Bundle, Claim};
use std::alloc::{AllocError, Global};
use summary_form::query::{ExitKind, Query};

/// Whether a bundle proves its assertion.
#[derive(Clone, Copy, Debug, PartialEq, Eq)]
pub enum Checked {
    Right,
    /// The first claim that isn't right, or 0 where there is none or claim 0 isn't that of the
    /// assertion.
    Wrong { claim: u32 },
}

/// Whether the query is if a run of `main` fails at the assertion.
fn asks_of(query: &Query, main: ProcId, id: u32) -> bool
    ensures { IsTrue result ↔ (query.now ≡ failure_at main id) }
{
    query.proc == main
        && query.exit == ExitKind::Fail(id)
        && query.start.atoms.as_slice().is_empty()
        && query.end.atoms.as_slice().is_empty()
}

/// Whether the first claim is that of the assertion.
fn is_of_assertion(bundle: &Bundle, main: ProcId) -> bool
    ensures { IsTrue result ↔ IsOfAssertion main (pure_of bundle.now) }
{
    match bundle.claims.first() {
        Some(claim) => asks_of(&claim.query, main, bundle.id),
        None => false,
    }
}

/// The number of the first claim that isn't right. Where its number is beyond those of claims,
/// memory is said to be out.
fn first_wrong(alloc: Global, graphs: &Graphs, claims: &[Claim]) -> Result<Option<u32>, OutOfMemory>
    ensures { IfOk result (IfFirstWrong graphs.now.graphs (map claim_of claims.now)) }
{
    for (number, claim) in claims.iter().enumerate() {
        if !is_right_claim(alloc, graphs, claims, claim)? {
            let Ok(number) = u32::try_from(number) else {
                return Err(AllocError);
            };
            return Ok(Some(number));
        }
    }
    Ok(None)
}

/// The answer for an assertion of `main`.
fn answer(
    alloc: Global,
    bundle: &Bundle,
    main: ProcId,
    graphs: &Graphs,
) -> Result<Checked, OutOfMemory>
    ensures { IfOk result (Says graphs.now.graphs main (pure_of bundle.now)) }
{
    if !is_of_assertion(bundle, main) {
        return Ok(Checked::Wrong { claim: 0 });
    }
    match first_wrong(alloc, graphs, bundle.claims.as_slice())? {
        Some(claim) => Ok(Checked::Wrong { claim }),
        None => Ok(Checked::Right),
    }
}

/// Looks at numbers: each is a value.
fn are_values(numbers: &[i64])
    ensures { AreAllValues numbers.now }
{
    for number in numbers {
        let _value = *number;
    }
}

/// Checks a bundle over the graphs of a program; the bundle's source isn't looked at. Where it is
/// right, no run of the program fails at the assertion, by the bundle and the program alone. The
/// claims may name each other and themselves.
pub fn check_bundle(
    alloc: Global,
    bundle: &Bundle,
    program: &Program,
    graphs: &Graphs,
) -> Result<Checked, OutOfMemory>
    requires runs { SameRuns (program_of program.now) graphs.now.graphs }
    requires arities { SameArities (program_of program.now) graphs.now.graphs }
    ensures right { IfOk result (λ c. c ≡ checked.Right
        ↔ IsRightProof graphs.now.graphs program.now.main (pure_of bundle.now)) }
    ensures wrong { IfOk result (λ c. (n : ℕ) → c ≡ checked.Wrong n
        ↔ IsFirstWrong graphs.now.graphs program.now.main (pure_of bundle.now) n) }
    ensures sound { IfOk result (λ c. c ≡ checked.Right →
        (ins : List ℤ) → ¬ Reaches (program_of program.now) bundle.now.id ins) }
{
    are_values(&program.globals);
    answer(alloc, bundle, program.main, graphs)
}
