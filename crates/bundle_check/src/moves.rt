//! The moves of a claim, done in order.

ghost use Rattle.std.specs.Prelude.{map, IfOk};
ghost use Rattle.infeasible_cert.specs.Refutation.{refutation_of};
ghost use Rattle.may_partition.specs.Parted.{kill_edge, split_edge};
ghost use Rattle.proof_bundle.specs.Claims.{claim_of, move_of};
ghost use Rattle.bundle_check.specs.RightClaims.{AllMove, Kills, KillsCall, Moves, Splits, moved, moved_all, queries_of};
ghost use Rattle.bundle_check.specs.steps.Checks.{Becomes, Decides};

use crate::answered::is_answered;
use crate::asked::asked_over;
use crate::killed::is_killed;
use crate::splits::may_split;
use flow_graph::graph::Graph;
use infeasible_cert::certificate::Certificate;
use linear_formula::error::OutOfMemory;
use linear_formula::formula::Atoms;
use may_partition::error::SplitError;
use may_partition::partition::Partition;
use may_partition::region::RegionEdge;
use proof_bundle::bundle::{Claim, Move};
use std::alloc::{AllocError, Global};
use summary_form::query::ExitKind;

/// What the moves of a claim are checked by: the graph of its procedure, how the runs of its query
/// end, and all claims.
#[derive(Clone, Copy)]
pub struct Checker<'a> {
    pub graph: &'a Graph,
    pub exit: ExitKind,
    pub claims: &'a [Claim],
}

impl<'a> Checker<'a> {
    /// Whether the edge is live, and the claim of this number answers the query that its call asks.
    fn is_answered(
        &self,
        alloc: Global,
        partition: &Partition,
        edge: &RegionEdge,
        number: u32,
        proof: &[Certificate],
    ) -> Result<bool, OutOfMemory>
        ensures { IfOk result (Decides partition.now
            (λ p. KillsCall self.now.graph.now self.now.exit
            (queries_of (map claim_of self.now.claims.now)) p edge.now number
            (map refutation_of proof.now))) }
    {
        if !partition.live(edge) {
            return Ok(false);
        }
        let Some(claim) = self.claims.get(number as usize) else {
            return Ok(false);
        };
        match asked_over(alloc, self.graph, self.exit, partition, edge)? {
            Some(asked) => is_answered(alloc, &asked, &claim.query, proof),
            None => Ok(false),
        }
    }

    /// Splits the region that the edge leaves, if it may be split so.
    fn split(
        &self,
        alloc: Global,
        partition: &mut Partition,
        edge: &RegionEdge,
        atoms: &Atoms,
    ) -> Result<bool, OutOfMemory>
        ensures { IfOk result (Becomes partition.old partition.new
            (λ p. Splits self.now.graph.now p edge.now atoms.now)
            (split_edge edge.now atoms.now)) }
    {
        if !may_split(alloc, self.graph, partition, edge, atoms)? {
            return Ok(false);
        }
        match partition.split(alloc, edge, atoms.as_slice()) {
            Ok(()) => Ok(true),
            Err(SplitError::Wide) => Ok(false),
            Err(SplitError::Memory) => Err(AllocError),
        }
    }

    /// Removes the edge, if the certificate shows that no step is over it.
    fn kill(
        &self,
        alloc: Global,
        partition: &mut Partition,
        edge: &RegionEdge,
        by: &Certificate,
    ) -> Result<bool, OutOfMemory>
        ensures { IfOk result (Becomes partition.old partition.new
            (λ p. Kills self.now.graph.now p edge.now (refutation_of by.now))
            (kill_edge edge.now)) }
    {
        if !is_killed(alloc, self.graph, partition, edge, by)? {
            return Ok(false);
        }
        partition.kill(edge)?;
        Ok(true)
    }

    /// Removes the edge of a call, if the claim of this number answers the query that it asks.
    fn kill_call(
        &self,
        alloc: Global,
        partition: &mut Partition,
        edge: &RegionEdge,
        number: u32,
        proof: &[Certificate],
    ) -> Result<bool, OutOfMemory>
        ensures { IfOk result (Becomes partition.old partition.new
            (λ p. KillsCall self.now.graph.now self.now.exit
            (queries_of (map claim_of self.now.claims.now)) p edge.now number
            (map refutation_of proof.now))
            (kill_edge edge.now)) }
    {
        if !self.is_answered(alloc, partition, edge, number, proof)? {
            return Ok(false);
        }
        partition.kill(edge)?;
        Ok(true)
    }

    /// Does the move, if it is right.
    fn make(
        &self,
        alloc: Global,
        partition: &mut Partition,
        step: &Move,
    ) -> Result<bool, OutOfMemory>
        ensures { IfOk result (Becomes partition.old partition.new
            (Moves self.now.graph.now self.now.exit
            (queries_of (map claim_of self.now.claims.now)) (move_of step.now))
            (moved (move_of step.now))) }
    {
        match step {
            Move::Split { edge, atoms } => self.split(alloc, partition, edge, atoms),
            Move::Kill { edge, by } => self.kill(alloc, partition, edge, by),
            Move::KillCall { edge, claim, proof } => {
                self.kill_call(alloc, partition, edge, *claim, proof.as_slice())
            }
        }
    }

    /// Does the moves in order, up to the first that isn't right; whether there is none.
    pub fn make_all(
        &self,
        alloc: Global,
        partition: &mut Partition,
        moves: &[Move],
    ) -> Result<bool, OutOfMemory>
        ensures { IfOk result (Becomes partition.old partition.new
            (AllMove self.now.graph.now self.now.exit
            (queries_of (map claim_of self.now.claims.now)) (map move_of moves.now))
            (moved_all (map move_of moves.now))) }
    {
        for step in moves {
            if !self.make(alloc, partition, step)? {
                return Ok(false);
            }
        }
        Ok(true)
    }
}
