//! Claims.

ghost use Rattle.std.specs.Prelude.{◌≡◌, ◌++◌, OnOk, string_bytes};
ghost use Rattle.proof_bundle.specs.Text.{exit_text};
ghost use Rattle.proof_bundle.specs.steps.Reading.{Gives};
ghost use Rattle.proof_bundle.specs.steps.Bundles.{exit_at, fail_at, return_at};

use crate::bundle::{Claim, Move, Moves};
use crate::error::BundleError;
use crate::number::{begins_with, behind, thing};
use crate::part::{Part, read_tagged, write_list};
use crate::row::{read_cube, write_cube};
use linear_formula::error::OutOfMemory;
use linear_formula::formula::Cube;
use std::alloc::Global;
use summary_form::query::{ExitKind, Query};

#[tactic(auto, unfolding(crate::specs::steps::Bundles::return_at))]
fn read_return(bytes: &[u8]) -> Result<(ExitKind, &[u8]), BundleError>
    ensures { Gives (λ r. (r.0, r.1.now)) result (return_at bytes.now) }
{
    let rest = behind(bytes, b"return\n")?;
    Ok((ExitKind::Return, rest))
}

#[tactic(auto, unfolding(crate::specs::steps::Bundles::fail_at))]
fn read_fail(bytes: &[u8]) -> Result<(ExitKind, &[u8]), BundleError>
    ensures { Gives (λ r. (r.0, r.1.now)) result (fail_at bytes.now) }
{
    let rest = behind(bytes, b"fail ")?;
    let (id, rest) = thing(rest, b'\n')?;
    Ok((ExitKind::Fail(id), rest))
}

#[tactic(auto, unfolding(crate::specs::steps::Bundles::exit_at))]
fn read_exit(bytes: &[u8]) -> Result<(ExitKind, &[u8]), BundleError>
    ensures { Gives (λ r. (r.0, r.1.now)) result (exit_at bytes.now) }
{
    if begins_with(bytes, b'r') {
        read_return(bytes)
    } else {
        read_fail(bytes)
    }
}

fn write_exit(out: &mut String, exit: ExitKind) -> Result<(), OutOfMemory>
    ensures { OnOk result (string_bytes out.new ≡ string_bytes out.old ++ exit_text exit) }
{
    match exit {
        ExitKind::Return => write!(out, "return\n"),
        ExitKind::Fail(id) => write!(out, "fail {id}\n"),
    }
}

impl Part for Claim {
    ghost use Rattle.proof_bundle.specs.Claims.{PureClaim, claim_of};
    ghost use Rattle.proof_bundle.specs.Text.{claim_text};
    ghost use Rattle.proof_bundle.specs.steps.Bundles.{claim_at};

    ghost Pure = { PureClaim };

    ghost pure = { claim_of };

    ghost text = { claim_text };

    ghost at = { claim_at };

    #[tactic(auto, unfolding(crate::specs::steps::Bundles::claim_at))]
    fn read(alloc: Global, bytes: &[u8]) -> Result<(Claim, &[u8]), BundleError> {
        let rest = behind(bytes, b"claim ")?;
        let (proc, rest) = thing(rest, b' ')?;
        let (exit, rest) = read_exit(rest)?;
        let (start, rest) = read_cube(alloc, rest)?;
        let (end, rest) = read_cube(alloc, rest)?;
        let (moves, rest) = read_tagged::<Move>(alloc, rest, b"moves ")?;
        let query = Query {
            proc,
            exit,
            start: Cube { atoms: start },
            end: Cube { atoms: end },
        };
        let moves = Moves::from_vec(moves);
        Ok((Claim { query, moves }, rest))
    }

    fn write(&self, out: &mut String) -> Result<(), OutOfMemory> {
        let moves = self.moves.as_slice();
        write!(out, "claim {} ", self.query.proc)?;
        write_exit(out, self.query.exit)?;
        write_cube(out, &self.query.start.atoms)?;
        write_cube(out, &self.query.end.atoms)?;
        write!(out, "moves {}\n", moves.len())?;
        write_list::<Move>(out, moves)
    }
}
