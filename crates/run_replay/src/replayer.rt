//! Replays.

ghost use Rattle.std.specs.Prelude.{◌≡◌, ◌≤◌, ℕ, ℤ, List, [], length, take, IfOk};
ghost use Rattle.c_tree.specs.Whole.{program_of};
ghost use Rattle.c_tree.specs.Meaning.{Outcome as PureOutcome, Comes, Replays, Runs};
ghost use Rattle.run_replay.specs.Outcome.{replay_outcome};

use crate::frames::Frames;
use crate::machine::{Machine, Next};
use crate::outcome::{OutOfMemory, Outcome, Replayed};
use crate::step::{enter, step};
use c_tree::tree::Program;
use std::alloc::Global;

/// Runs `main` on these inputs, with at most `fuel` steps: one step is a statement, a test of a
/// loop or a node of an expression. The result is the only one that there is, by
/// `c_tree::laws::one_replay`. A call takes memory for its slots and for what waits for it, and no
/// stack.
pub fn replay(
    alloc: Global,
    program: &Program,
    inputs: &[i64],
    fuel: u64,
) -> Result<Replayed, OutOfMemory>
    ensures replays { IfOk result (λ r. Replays (program_of program.now) inputs.now fuel
        (replay_outcome r.outcome) r.used) }
    ensures within { IfOk result (λ r. r.used ≤ length inputs.now) }
    ensures starved { IfOk result (λ r. r.outcome ≡ Outcome.Starved → r.used ≡ length inputs.now) }
    ensures runs { IfOk result (λ r. (out : PureOutcome) → replay_outcome r.outcome ≡ Comes out
        → (d : ℕ) × (after : List ℤ) × Runs (program_of program.now) d (program_of program.now).main
        []
        (program_of program.now).globals (take r.used inputs.now) out after) }
{
    let mut globals = Frames::new(alloc);
    globals.enter(&program.globals)?;
    let mut machine = Machine {
        waits: Vec::new(alloc),
        arguments: Vec::new(alloc),
        frames: Frames::new(alloc),
        globals,
        inputs,
        used: 0,
        steps_left: fuel,
    };
    let mut next = enter(program, program.main, &mut machine)?;
    'steps: loop {
        if let Next::Ended(outcome) = next {
            return Ok(Replayed {
                outcome,
                used: machine.used,
            });
        }
        next = step(program, next, &mut machine)?;
    }
}
