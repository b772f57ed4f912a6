//! Moves.

ghost use Rattle.proof_bundle.specs.Claims.{move_of};
ghost use Rattle.proof_bundle.specs.steps.Reading.{Gives};
ghost use Rattle.proof_bundle.specs.steps.Bundles.{call_at, edge_at, kill_at, move_at, split_at};

use crate::bundle::Move;
use crate::error::BundleError;
use crate::number::{begins_with, behind, thing};
use crate::part::{Part, read_lines, write_list};
use crate::row::{read_cube, write_cube};
use infeasible_cert::certificate::Certificate;
use linear_formula::error::OutOfMemory;
use may_partition::region::RegionEdge;
use query_rules::certificates::Certificates;
use std::alloc::Global;

/// An edge, with the byte `end` after it.
#[tactic(auto, unfolding(crate::specs::steps::Bundles::edge_at))]
fn read_edge(bytes: &[u8], end: u8) -> Result<(RegionEdge, &[u8]), BundleError>
    ensures { Gives (λ r. (r.0, r.1.now)) result (edge_at end bytes.now) }
{
    let (edge, rest) = thing(bytes, b' ')?;
    let (from, rest) = thing(rest, b' ')?;
    let (to, rest) = thing(rest, end)?;
    Ok((RegionEdge { edge, from, to }, rest))
}

#[tactic(auto, unfolding(crate::specs::steps::Bundles::split_at))]
fn read_split(alloc: Global, bytes: &[u8]) -> Result<(Move, &[u8]), BundleError>
    ensures { Gives (λ r. (move_of r.0, r.1.now)) result (split_at bytes.now) }
{
    let rest = behind(bytes, b"split ")?;
    let (edge, rest) = read_edge(rest, b'\n')?;
    let (atoms, rest) = read_cube(alloc, rest)?;
    Ok((Move::Split { edge, atoms }, rest))
}

#[tactic(auto, unfolding(crate::specs::steps::Bundles::kill_at))]
fn read_kill(alloc: Global, bytes: &[u8]) -> Result<(Move, &[u8]), BundleError>
    ensures { Gives (λ r. (move_of r.0, r.1.now)) result (kill_at bytes.now) }
{
    let rest = behind(bytes, b"kill ")?;
    let (edge, rest) = read_edge(rest, b'\n')?;
    let (by, rest) = Certificate::read(alloc, rest)?;
    Ok((Move::Kill { edge, by }, rest))
}

#[tactic(auto, unfolding(crate::specs::steps::Bundles::call_at))]
fn read_call(alloc: Global, bytes: &[u8]) -> Result<(Move, &[u8]), BundleError>
    ensures { Gives (λ r. (move_of r.0, r.1.now)) result (call_at bytes.now) }
{
    let rest = behind(bytes, b"call ")?;
    let (edge, rest) = read_edge(rest, b' ')?;
    let (claim, rest) = thing(rest, b' ')?;
    let (proof, rest) = read_lines::<Certificate>(alloc, rest)?;
    let proof = Certificates::from_vec(proof);
    Ok((Move::KillCall { edge, claim, proof }, rest))
}

impl Part for Move {
    ghost use Rattle.proof_bundle.specs.Claims.{PureMove, move_of};
    ghost use Rattle.proof_bundle.specs.Text.{move_text};
    ghost use Rattle.proof_bundle.specs.steps.Bundles.{move_at};

    ghost Pure = { PureMove };

    ghost pure = { move_of };

    ghost text = { move_text };

    ghost at = { move_at };

    #[tactic(auto, unfolding(crate::specs::steps::Bundles::move_at))]
    fn read(alloc: Global, bytes: &[u8]) -> Result<(Move, &[u8]), BundleError> {
        if begins_with(bytes, b's') {
            read_split(alloc, bytes)
        } else if begins_with(bytes, b'k') {
            read_kill(alloc, bytes)
        } else {
            read_call(alloc, bytes)
        }
    }

    fn write(&self, out: &mut String) -> Result<(), OutOfMemory> {
        match self {
            Move::Split { edge, atoms } => {
                write!(out, "split {} {} {}\n", edge.edge, edge.from, edge.to)?;
                write_cube(out, atoms)
            }
            Move::Kill { edge, by } => {
                write!(out, "kill {} {} {}\n", edge.edge, edge.from, edge.to)?;
                by.write(out)
            }
            Move::KillCall { edge, claim, proof } => {
                let proof = proof.as_slice();
                write!(out, "call {} {} {} ", edge.edge, edge.from, edge.to)?;
                write!(out, "{claim} {}\n", proof.len())?;
                write_list::<Certificate>(out, proof)
            }
        }
    }
}
