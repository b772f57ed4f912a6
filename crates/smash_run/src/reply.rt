//! What a source asks for under a command.

ghost use Rattle.std.specs.Prelude.{◌≡◌, ◌≤◌, IfOk, length};
ghost use Rattle.c_tree.specs.WellFormed.{DividesByLiterals};
ghost use Rattle.c_tree.specs.Whole.{program_of};
ghost use Rattle.run_replay.specs.Outcome.{replay_outcome};
ghost use Rattle.smash_run.specs.Answers.{Answers, AsksFor, Settles};
ghost use Rattle.smash_run.specs.Asked.{IsReplayed, IsReported, replay_status};
ghost use Rattle.smash_run.specs.Run.{limit_of};
ghost use Rattle.source_program.specs.Source.{source_limit};
ghost use Rattle.smash_run.specs.steps.Handing.{IsOfOneSource, handed_in};
ghost use Rattle.command_words.specs.Commands.{FitsCheck, FitsCommand, command_of};

use crate::analysis::{Analysis, Effort, analyse};
use crate::bundles::bundle_program;
use crate::edits::edit_reply;
use crate::rechecks::recheck_reply;
use crate::replies::{Reply, bare_reply, refused, reply_with_board};
use crate::statuses::status;
use crate::sweeps::sweep_program;
use c_tree::tree::Program;
use command_words::Command;
use outer_io::Gate;
use report_text::{replayed, report};
use run_replay::{Outcome, replay};
use source_program::{Rejection, accept};
use std::alloc::{AllocError, Global};
use std::sync::Wait;
use std::thread::Threads;

/// The report of a program.
fn check_program<R: Threads + Wait + Sync, G: Gate>(
    rt: &R,
    alloc: Global,
    program: &Program,
    effort: Effort,
    gate: &G,
) -> Result<Reply, AllocError>
    requires numbers { FitsCheck effort.budget effort.workers }
    requires divisors { DividesByLiterals (program_of program.now) }
    ensures { IfOk result (λ a. IsReported (program_of program.now) effort.budget a.status
        a.text.items (handed_in a)) }
{
    let Analysis { board, verdicts } = analyse(rt, alloc, program, effort, gate)?;
    let text = report(alloc, program, &verdicts)?;
    Ok(reply_with_board(status(&verdicts), text, board))
}

/// The status of a replay.
fn replay_status(outcome: Outcome) -> u8
    ensures { result ≡ replay_status (replay_outcome outcome) }
{
    match outcome {
        Outcome::Returned(_) => 0,
        Outcome::Stopped => 0,
        Outcome::Failed(_) => 1,
        Outcome::Starved => 2,
        Outcome::Fuel => 2,
    }
}

/// The answer of `replay` to a program.
fn replay_program(
    alloc: Global,
    program: &Program,
    fuel: u64,
    list: &[i64],
) -> Result<Reply, AllocError>
    ensures { IfOk result (λ a. IsReplayed (program_of program.now) fuel list.now a.status
        a.text.items (handed_in a)) }
{
    let answer = replay(alloc, program, list, fuel)?;
    let text = replayed(alloc, program, &answer, fuel)?;
    Ok(bare_reply(replay_status(answer.outcome), text))
}

/// The answer to the program of these bytes, under a command that reads one source.
fn answer<R: Threads + Wait + Sync, G: Gate>(
    rt: &R,
    alloc: Global,
    command: &Command,
    bytes: &[u8],
    program: &Program,
    gate: &G,
) -> Result<Reply, AllocError>
    requires fits { length bytes.now ≤ source_limit }
    requires numbers { FitsCommand (command_of command.now) }
    requires one { IsOfOneSource (command_of command.now) }
    requires divisors { DividesByLiterals (program_of program.now) }
    ensures { IfOk result (λ a. Answers (command_of command.now) bytes.now
        (program_of program.now) a.status a.text.items (handed_in a)) }
{
    match command {
        Command::Check { budget, workers }
        | Command::Workload {
            budget,
            workers,
            ..
        } => {
            let effort = Effort {
                budget: *budget,
                workers: *workers,
            };
            check_program(rt, alloc, program, effort, gate)
        }
        Command::Replay { fuel, list } => replay_program(alloc, program, *fuel, list),
        Command::Bundle { number, budget } => {
            bundle_program(alloc, program, *number, *budget, bytes)
        }
        Command::Sweep { edges } => sweep_program(alloc, program, *edges),
        Command::Recheck | Command::Edit { .. } => unreachable!(),
    }
}

/// The reply to a source, by its bytes, under a command that reads one source.
fn source_reply<R: Threads + Wait + Sync, G: Gate>(
    rt: &R,
    alloc: Global,
    command: &Command,
    bytes: &[u8],
    gate: &G,
) -> Result<Reply, AllocError>
    requires fits { length bytes.now ≤ source_limit }
    requires numbers { FitsCommand (command_of command.now) }
    requires one { IsOfOneSource (command_of command.now) }
    ensures asked { IfOk result (λ a. AsksFor (command_of command.now) bytes.now a.status
        a.text.items (handed_in a)) }
    ensures settled { IfOk result (λ a. Settles (command_of command.now) bytes.now a.status
        a.text.items (handed_in a)) }
{
    match accept(alloc, bytes) {
        Ok(program) => answer(rt, alloc, command, bytes, &program, gate),
        Err(Rejection::Refused(why)) => refused(alloc, &why),
        Err(Rejection::Memory) => Err(AllocError),
    }
}

/// The reply to what a command read, by its bytes.
pub fn reply_to<R: Threads + Wait + Sync, G: Gate>(
    rt: &R,
    alloc: Global,
    command: &Command,
    bytes: &[u8],
    gate: &G,
) -> Result<Reply, AllocError>
    requires fits { length bytes.now ≤ limit_of (command_of command.now) }
    requires numbers { FitsCommand (command_of command.now) }
    ensures asked { IfOk result (λ a. AsksFor (command_of command.now) bytes.now a.status
        a.text.items (handed_in a)) }
    ensures settled { IfOk result (λ a. Settles (command_of command.now) bytes.now a.status
        a.text.items (handed_in a)) }
{
    match command {
        Command::Recheck => recheck_reply(alloc, bytes),
        Command::Edit {
            old_length,
            budget,
            workers,
        } => {
            let effort = Effort {
                budget: *budget,
                workers: *workers,
            };
            edit_reply(rt, alloc, bytes, *old_length, effort, gate)
        }
        _ => source_reply(rt, alloc, command, bytes, gate),
    }
}
