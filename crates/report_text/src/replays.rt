//! The text of a replay.

ghost use Rattle.std.specs.Prelude.{◌≡◌, length, IfOk, Some, string_bytes};
ghost use Rattle.c_tree.specs.Whole.{program_of};
ghost use Rattle.run_replay.specs.Outcome.{replay_outcome};
ghost use Rattle.report_text.specs.Replay.{HasPlace, failed_text, replay_text};

use crate::OutOfMemory;
use c_tree::tree::{AssertPlace, Program};
use run_replay::{Outcome, Replayed};
use std::alloc::Global;

/// The text of a replay that failed at an assertion.
fn failed_text(alloc: Global, place: AssertPlace, used: usize) -> Result<String, OutOfMemory>
    ensures { IfOk result (λ text. string_bytes text ≡ failed_text (Some place) used) }
{
    let at = place.at;
    format!(in alloc; "failed {}:{}, inputs used {}\n", at.line, at.column, used)
}

/// The line of a replay of a program with this fuel.
fn replay_text(
    alloc: Global,
    program: &Program,
    fuel: u64,
    replayed: Replayed,
) -> Result<String, OutOfMemory>
    requires { HasPlace (length program.now.asserts.items) (replay_outcome replayed.outcome) }
    ensures { IfOk result (λ text. string_bytes text ≡ replay_text (program_of program.now) fuel
        (replay_outcome replayed.outcome) replayed.used) }
{
    let used = replayed.used;
    match replayed.outcome {
        Outcome::Returned(value) => format!(in alloc; "returned {value}, inputs used {used}\n"),
        Outcome::Failed(id) => failed_text(alloc, program.asserts[id as usize], used),
        Outcome::Stopped => format!(in alloc; "stopped, inputs used {used}\n"),
        Outcome::Starved => format!(in alloc; "starved, inputs used {used}\n"),
        Outcome::Fuel => format!(in alloc; "fuel {fuel} spent\n"),
    }
}

/// What is written of a replay of a program with this fuel. An assertion that failed is one of the
/// program's.
pub fn replayed(
    alloc: Global,
    program: &Program,
    answer: &Replayed,
    fuel: u64,
) -> Result<Vec<u8>, OutOfMemory>
    requires { HasPlace (length program.now.asserts.items) (replay_outcome answer.now.outcome) }
    ensures { IfOk result (λ text. text.items ≡ replay_text (program_of program.now) fuel
        (replay_outcome answer.now.outcome) answer.now.used) }
{
    let text = replay_text(alloc, program, fuel, *answer)?;
    Ok(text.into_bytes())
}
