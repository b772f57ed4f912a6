//! The command `recheck`: the check of a bundle, by its text alone.

ghost use Rattle.std.specs.Prelude.{◌⊎◌, IfOk};
ghost use Rattle.c_tree.specs.Syntax.{PureProgram};
ghost use Rattle.c_tree.specs.WellFormed.{DividesByLiterals};
ghost use Rattle.c_tree.specs.Whole.{program_of};
ghost use Rattle.proof_bundle.specs.Claims.{pure_of};
ghost use Rattle.proof_bundle.specs.Text.{IsBundle};
ghost use Rattle.smash_run.specs.Answers.{AnswersBundle, AsksFor, Settles};
ghost use Rattle.smash_run.specs.Asked.{AsksRefusal};
ghost use Rattle.source_program.specs.Source.{IsAccepted};
ghost use Rattle.command_words.specs.Words.{recheck};
ghost use Rattle.smash_run.specs.steps.Handing.{TellsChecked, handed_in};

use crate::analysis::graphs_of;
use crate::replies::{Reply, bare_reply, refused, refused_as};
use bundle_check::{Checked, check_bundle};
use c_tree::tree::{AssertPlace, Program};
use proof_bundle::bundle::Bundle;
use proof_bundle::error::BundleError;
use proof_bundle::read_bundle;
use report_text::{accepted, no_assertion, no_bundle, rejected};
use source_program::{Rejection, accept};
use std::alloc::{AllocError, Global};

/// What is written of a bundle that was checked.
fn checked_reply(alloc: Global, place: &AssertPlace, checked: Checked) -> Result<Reply, AllocError>
    ensures { IfOk result (λ a. TellsChecked place.now checked a.status a.text.items
        (handed_in a)) }
{
    match checked {
        Checked::Right => {
            let text = accepted(alloc, place)?;
            Ok(bare_reply(0, text))
        }
        Checked::Wrong { claim } => {
            let text = rejected(alloc, claim)?;
            Ok(bare_reply(2, text))
        }
    }
}

/// The reply to a bundle whose source is of this program.
fn recheck_program(alloc: Global, program: &Program, bundle: &Bundle) -> Result<Reply, AllocError>
    requires divisors { DividesByLiterals (program_of program.now) }
    ensures { IfOk result (λ a. AnswersBundle (pure_of bundle.now) (program_of program.now)
        a.status a.text.items (handed_in a)) }
{
    let Some(place) = program.asserts.get(bundle.id as usize) else {
        return refused_as(alloc, no_assertion());
    };
    let graphs = graphs_of(alloc, program)?;
    let checked = check_bundle(alloc, bundle, program, &graphs)?;
    checked_reply(alloc, place, checked)
}

/// The reply to a bundle.
fn recheck_bundle(alloc: Global, bundle: &Bundle) -> Result<Reply, AllocError>
    requires { IsBundle (pure_of bundle.now) }
    ensures answers { IfOk result (λ a. AsksRefusal bundle.now.source.items a.status a.text.items
        (handed_in a)
        ⊎ ((P : PureProgram) × IsAccepted bundle.now.source.items P
        × AnswersBundle (pure_of bundle.now) P a.status a.text.items (handed_in a))) }
    ensures settled { IfOk result (λ a. (P : PureProgram) →
        IsAccepted bundle.now.source.items P →
        AnswersBundle (pure_of bundle.now) P a.status a.text.items (handed_in a)) }
{
    match accept(alloc, &bundle.source) {
        Ok(program) => recheck_program(alloc, &program, bundle),
        Err(Rejection::Refused(why)) => refused(alloc, &why),
        Err(Rejection::Memory) => Err(AllocError),
    }
}

/// The reply to a text that is a bundle, or none.
pub fn recheck_reply(alloc: Global, bytes: &[u8]) -> Result<Reply, AllocError>
    ensures asked { IfOk result (λ a. AsksFor recheck bytes.now a.status a.text.items
        (handed_in a)) }
    ensures settled { IfOk result (λ a. Settles recheck bytes.now a.status a.text.items
        (handed_in a)) }
{
    match read_bundle(alloc, bytes) {
        Ok(bundle) => recheck_bundle(alloc, &bundle),
        Err(BundleError::NotBundle) => refused_as(alloc, no_bundle()),
        Err(BundleError::Memory) => Err(AllocError),
    }
}
