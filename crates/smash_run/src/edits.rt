//! The command `edit`: the analysis of a new source with what is kept of that of an old one.

ghost use Rattle.std.specs.Prelude.{◌≡◌, ◌++◌, ◌+◌, ◌^◌, ◌<◌, ◌≤◌, ℕ, [], List, IfOk, Some, length, map};
ghost use Rattle.c_tree.specs.Syntax.{PureProgram};
ghost use Rattle.c_tree.specs.WellFormed.{DividesByLiterals};
ghost use Rattle.c_tree.specs.Whole.{program_of};
ghost use Rattle.report_text.specs.Edits.{kept_line};
ghost use Rattle.report_text.specs.Refused.{IsOfSource};
ghost use Rattle.report_text.specs.Report.{report_of};
ghost use Rattle.smash_run.specs.Analysis.{IsBoardOf};
ghost use Rattle.smash_run.specs.Answers.{AnswersNew, AsksFor, Settles};
ghost use Rattle.smash_run.specs.Edited.{IsEdited, IsOldRefused, IsTooShort};
ghost use Rattle.source_program.specs.Source.{IsAccepted, source_limit};
ghost use Rattle.command_words.specs.Words.{edit, max_old_length};
ghost use Rattle.source_program.specs.Rejections.{IsRefusedFor};
ghost use Rattle.smash_run.specs.steps.Handing.{IsEditedFrom, handed_in};
ghost use Rattle.smash_run.specs.steps.Judging.{IsKept, MayBegin};
ghost use Rattle.command_words.specs.Commands.{FitsCheck};

use crate::analysis::{Analysis, Effort, analyse_with, are_values, board_with};
use crate::replies::{Reply, bare_reply, refused, reply_with_board};
use crate::statuses::status;
use bolt_core::board::Board;
use bolt_core::job::Verdict;
use c_tree::tree::Program;
use linear_formula::error::OutOfMemory;
use outer_io::Gate;
use report_text::fault::Refusal;
use report_text::{kept, old_refusal, report, short_source};
use source_program::{Rejection, accept};
use std::alloc::{AllocError, Global};
use std::sync::{Arc, Wait};
use std::thread::Threads;
use summary_form::summary::Summary;
use summary_keep::keep::keep;
use summary_keep::matching::matching;

/// What is kept of the table of an old program's board for a new program.
fn kept_of(
    alloc: Global,
    old: &Program,
    new: &Program,
    board: &Board,
) -> Result<Vec<Arc<Summary>>, OutOfMemory>
    requires board { (budget : ℕ) × IsBoardOf (program_of old.now) budget [] board.now }
    ensures kept { IfOk result (λ v. IsKept (program_of old.now) (program_of new.now) board.now
        (map (λ a. a.value) v.items)) }
    ensures begins { IfOk result (λ v. MayBegin (program_of new.now)
        (map (λ a. a.value) v.items)) }
{
    are_values(&old.globals);
    board.reached();
    let matched = matching(alloc, old, new)?;
    keep(alloc, old, new, &matched, board.table().all())
}

/// The report of a new program, and of how many summaries how many were kept.
fn edit_text(
    alloc: Global,
    program: &Program,
    verdicts: &[Verdict],
    count: usize,
    all: usize,
) -> Result<Vec<u8>, OutOfMemory>
    requires each { length program.now.asserts.items ≡ length verdicts.now }
    requires few { count < 2 ^ 32 }
    requires few_all { all < 2 ^ 32 }
    ensures { IfOk result (λ t. t.items ≡ report_of program.now.asserts.items verdicts.now
        ++ kept_line count all) }
{
    let mut text = report(alloc, program, verdicts)?;
    let line = kept(alloc, count as u32, all as u32)?;
    text.extend_from_slice(&line)?;
    Ok(text)
}

/// The reply to a new program, by the board of the old one.
fn edited_from<R: Threads + Wait + Sync, G: Gate>(
    rt: &R,
    alloc: Global,
    old: &Program,
    new: &Program,
    board: &Board,
    effort: Effort,
    gate: &G,
) -> Result<Reply, AllocError>
    requires numbers { FitsCheck effort.budget effort.workers }
    requires divisors { DividesByLiterals (program_of new.now) }
    requires board { IsBoardOf (program_of old.now) effort.budget [] board.now }
    ensures { IfOk result (λ a. IsEditedFrom (program_of old.now) (program_of new.now) board.now
        effort.budget a.status a.text.items (handed_in a)) }
{
    let kept = kept_of(alloc, old, new, board)?;
    let count = kept.len();
    let Analysis {
        board: after,
        verdicts,
    } = analyse_with(rt, alloc, new, kept, effort, gate)?;
    let text = edit_text(alloc, new, &verdicts, count, board.table().all().len())?;
    Ok(reply_with_board(status(&verdicts), text, after))
}

/// The same reply, with the board of the old program.
fn with_old(reply: Reply, old: Board) -> Reply
    ensures status { result.status ≡ reply.status }
    ensures text { result.text ≡ reply.text }
    ensures handed { handed_in result ≡ record (handed_in reply) { old = Some old } }
{
    let Reply {
        status,
        text,
        board,
        ..
    } = reply;
    Reply {
        status,
        text,
        board,
        old: Some(old),
    }
}

/// The reply to an old and a new program.
fn edit_programs<R: Threads + Wait + Sync, G: Gate>(
    rt: &R,
    alloc: Global,
    old: &Program,
    new: &Program,
    effort: Effort,
    gate: &G,
) -> Result<Reply, AllocError>
    requires numbers { FitsCheck effort.budget effort.workers }
    requires old_divisors { DividesByLiterals (program_of old.now) }
    requires divisors { DividesByLiterals (program_of new.now) }
    ensures { IfOk result (λ a. IsEdited (program_of old.now) (program_of new.now) effort.budget
        a.status a.text.items (handed_in a)) }
{
    let board = board_with(rt, alloc, old, Vec::new(alloc), effort, gate)?;
    match edited_from(rt, alloc, old, new, &board, effort, gate) {
        Ok(reply) => Ok(with_old(reply, board)),
        Err(error) => Err(error),
    }
}

/// The reply to a new source, after an old program.
fn new_reply<R: Threads + Wait + Sync, G: Gate>(
    rt: &R,
    alloc: Global,
    old: &Program,
    bytes: &[u8],
    effort: Effort,
    gate: &G,
) -> Result<Reply, AllocError>
    requires fits { length bytes.now ≤ source_limit }
    requires numbers { FitsCheck effort.budget effort.workers }
    requires divisors { DividesByLiterals (program_of old.now) }
    ensures answers { IfOk result (λ a. AnswersNew (program_of old.now) effort.budget bytes.now
        a.status a.text.items (handed_in a)) }
    ensures settled { IfOk result (λ a. (Q : PureProgram) → IsAccepted bytes.now Q →
        IsEdited (program_of old.now) Q effort.budget a.status a.text.items (handed_in a)) }
{
    match accept(alloc, bytes) {
        Ok(new) => edit_programs(rt, alloc, old, &new, effort, gate),
        Err(Rejection::Refused(why)) => refused(alloc, &why),
        Err(Rejection::Memory) => Err(AllocError),
    }
}

/// The refusal of an old source.
fn old_refused(alloc: Global, why: &Refusal) -> Result<Reply, AllocError>
    requires { IsOfSource why.now }
    ensures { (bytes : List ℕ) → IsRefusedFor bytes why.now → IfOk result
        (λ a. IsOldRefused bytes a.status a.text.items (handed_in a)) }
{
    let text = old_refusal(alloc, why)?;
    Ok(bare_reply(3, text))
}

/// The refusal of bytes that are fewer than the old source is to have.
fn too_short(alloc: Global, old_length: u32) -> Result<Reply, AllocError>
    ensures { IfOk result (λ a. (bytes : List ℕ) → length bytes < old_length →
        IsTooShort old_length bytes a.status a.text.items (handed_in a)) }
{
    let text = short_source(alloc, old_length)?;
    Ok(bare_reply(3, text))
}

/// The reply to an old source, which is the first `old_length` bytes, and a new one, which is the
/// rest.
pub fn edit_reply<R: Threads + Wait + Sync, G: Gate>(
    rt: &R,
    alloc: Global,
    bytes: &[u8],
    old_length: u32,
    effort: Effort,
    gate: &G,
) -> Result<Reply, AllocError>
    requires old { old_length ≤ max_old_length }
    requires fits { length bytes.now ≤ old_length + source_limit }
    requires numbers { FitsCheck effort.budget effort.workers }
    ensures asked { IfOk result (λ a. AsksFor (edit old_length effort.budget effort.workers)
        bytes.now a.status a.text.items (handed_in a)) }
    ensures settled { IfOk result (λ a. Settles (edit old_length effort.budget effort.workers)
        bytes.now a.status a.text.items (handed_in a)) }
{
    let len = old_length as usize;
    if bytes.len() < len {
        return too_short(alloc, old_length);
    }
    match accept(alloc, &bytes[..len]) {
        Ok(old) => new_reply(rt, alloc, &old, &bytes[len..], effort, gate),
        Err(Rejection::Refused(why)) => old_refused(alloc, &why),
        Err(Rejection::Memory) => Err(AllocError),
    }
}
