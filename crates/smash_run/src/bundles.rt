//! The command `bundle`: the proof of one assertion as a text.

ghost use Rattle.std.specs.Prelude.{◌≡◌, ◌⊎◌, ℕ, ◌<◌, ◌≤◌, [], IfOk, false, true, length};
ghost use Rattle.c_tree.specs.WellFormed.{DividesByLiterals};
ghost use Rattle.c_tree.specs.Whole.{program_of};
ghost use Rattle.bolt_core.specs.Machine.{is_over};
ghost use Rattle.bolt_core.specs.States.{reads};
ghost use Rattle.bolt_core.specs.Verdicts.{HasVerdict, IsProvedIn};
ghost use Rattle.smash_run.specs.Analysis.{IsBoardOf};
ghost use Rattle.smash_run.specs.Bundled.{HasFewer, IsBundled, TellsProof, TellsVerdict};
ghost use Rattle.source_program.specs.Source.{source_limit};
ghost use Rattle.smash_run.specs.steps.Handing.{IsTold, handed_in};
ghost use Rattle.bundle_make.specs.Bundling.{IsBare};
ghost use Rattle.command_words.specs.Commands.{FitsCheck};

use crate::analysis::{are_values, board_by_one};
use crate::replies::{Reply, refused_as, reply_with_board};
use bolt_core::board::Board;
use bolt_core::job::Verdict;
use bundle_make::bundle_of;
use c_tree::tree::{AssertPlace, Program};
use linear_formula::error::OutOfMemory;
use proof_bundle::print_bundle;
use report_text::{long_proof, no_assertion, verdict_line};
use std::alloc::{AllocError, Global};

/// The most bytes that the text of a bundle may have, `bundle_limit` of the clauses.
const BUNDLE_LIMIT: usize = 16_777_216;

/// A status, and the text with it.
#[derive(Drop)]
pub struct Told {
    status: u8,
    text: Vec<u8>,
}

/// The text of the bundle of an assertion that is proved, or that it is too long.
fn proof_told(
    alloc: Global,
    board: &Board,
    id: u32,
    place: &AssertPlace,
    source: &[u8],
) -> Result<Told, OutOfMemory>
    requires over { is_over (reads board.now.graphs) board.now.core ≡ true }
    requires going { board.now.core.is_stopped ≡ false }
    requires bare { IsBare board.now }
    requires root { id < board.now.asserts }
    requires proved { IsProvedIn board.now id }
    requires fits { length source.now ≤ source_limit }
    ensures { IfOk result (λ t. TellsProof board.now source.now id place.now t.status
        t.text.items) }
{
    let bundle = bundle_of(alloc, board, id, source)?;
    let text = print_bundle(alloc, &bundle)?;
    if text.len() <= BUNDLE_LIMIT {
        Ok(Told { status: 0, text })
    } else {
        Ok(Told {
            status: 2,
            text: long_proof(alloc, place)?,
        })
    }
}

/// What is written of an assertion with its verdict.
fn verdict_told(
    alloc: Global,
    board: &Board,
    id: u32,
    place: &AssertPlace,
    verdict: &Verdict,
    source: &[u8],
) -> Result<Told, OutOfMemory>
    requires over { is_over (reads board.now.graphs) board.now.core ≡ true }
    requires going { board.now.core.is_stopped ≡ false }
    requires bare { IsBare board.now }
    requires root { id < board.now.asserts }
    requires verdict { HasVerdict board.now id verdict.now }
    requires fits { length source.now ≤ source_limit }
    ensures { IfOk result (λ t. TellsVerdict board.now source.now id place.now verdict.now
        t.status t.text.items) }
{
    let status = match verdict {
        Verdict::Proved => return proof_told(alloc, board, id, place, source),
        Verdict::Found(_) => 1,
        Verdict::Budget(_) | Verdict::Limit(_) => 2,
    };
    let text = verdict_line(alloc, place, verdict)?;
    Ok(Told { status, text })
}

/// What is written of an assertion of a program at its board.
fn assertion_told(
    alloc: Global,
    program: &Program,
    board: &Board,
    id: u32,
    source: &[u8],
) -> Result<Told, OutOfMemory>
    requires board { (budget : ℕ) × IsBoardOf (program_of program.now) budget [] board.now }
    requires bare { IsBare board.now }
    requires there { id < length program.now.asserts.items }
    requires fits { length source.now ≤ source_limit }
    ensures { IfOk result (IsTold (program_of program.now) board.now source.now id) }
{
    let verdict = board.verdict(alloc, id)?;
    let place = &program.asserts[id as usize];
    verdict_told(alloc, board, id, place, &verdict, source)
}

/// The reply of `bundle` to a program, for the assertion of this number, counted from 1.
pub fn bundle_program(
    alloc: Global,
    program: &Program,
    number: u32,
    budget: u32,
    source: &[u8],
) -> Result<Reply, AllocError>
    requires some { 1 ≤ number }
    requires numbers { FitsCheck budget 1 }
    requires divisors { DividesByLiterals (program_of program.now) }
    requires fits { length source.now ≤ source_limit }
    ensures { IfOk result (λ a. HasFewer (program_of program.now) number a.status a.text.items
        (handed_in a)
        ⊎ IsBundled (program_of program.now) source.now number budget a.status a.text.items
        (handed_in a)) }
{
    if number as usize > program.asserts.len() {
        return refused_as(alloc, no_assertion());
    }
    let board = board_by_one(alloc, program, budget)?;
    let Told { status, text } = assertion_told(alloc, program, &board, number - 1, source)?;
    are_values(&program.globals);
    Ok(reply_with_board(status, text, board))
}
