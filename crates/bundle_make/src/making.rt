//! The moves that the stored steps of a query make.

ghost use Rattle.std.specs.Prelude.{◌≡◌, ℕ, ◌+◌, ◌<◌, ◌^◌, ◌++◌, [], IfOk, List, OnOk, Some, length, map, slice_get};
ghost use Rattle.infeasible_cert.specs.Refutation.{refutation_of};
ghost use Rattle.may_partition.specs.Parted.{Parted, begin_parted};
ghost use Rattle.may_partition.specs.Shown.{Shows};
ghost use Rattle.query_rules.specs.Rows.{rows_of_query};
ghost use Rattle.query_rules.specs.declared.step.Asked.{Asked as AnAsked};
ghost use Rattle.query_rules.specs.declared.step.Closing.TheVariants as closing;
ghost use Rattle.query_rules.specs.declared.step.Step.TheVariants as step;
ghost use Rattle.bolt_core.specs.Anchors.{IsAnchored};
ghost use Rattle.bolt_core.specs.Boards.{IsBoard};
ghost use Rattle.bolt_core.specs.Verdicts.{IsClosedIn};
ghost use Rattle.proof_bundle.specs.Claims.{PureMove, claim_of, move_of};
ghost use Rattle.bundle_check.specs.RightClaims.{HasAsked, asked_query};
ghost use Rattle.bundle_check.specs.Walked.{Gives, GivesFor, HasEnds, kept};
ghost use Rattle.bundle_make.specs.Bundling.{Listed, asked_after};
ghost use Rattle.bundle_make.specs.steps.Listing.{IsListing};
ghost use Rattle.bundle_make.specs.steps.Making.{Does, HasEntry, HasProof, IsItsClaim, IsReady, IsShown, IsStored, MakesAskOf, MakesCallOf, MakesKillOf, MakesStepOf, exit, moves_of};

use crate::kept::kept_of;
use crate::leads::lead;
use crate::listing::Listing;
use crate::moving::{kill_move, push_made, push_split, remove, uncut};
use bolt_core::board::Board;
use bundle_check::asked_over;
use flow_graph::graph::Graph;
use infeasible_cert::certificate::Certificate;
use linear_formula::error::OutOfMemory;
use may_partition::partition::Partition;
use may_partition::region::RegionEdge;
use proof_bundle::bundle::{Claim, Move, Moves};
use query_rules::certificates::Certificates;
use query_rules::state::QueryState;
use query_rules::step::{Killer, Step};
use query_tree::QueryId;
use std::alloc::Global;
use summary_form::query::Query;

/// What the moves of a claim are made by: the listed queries, the query with the state with which
/// it closed, its graph, and of its asked queries whether some step kills by it.
#[derive(Clone, Copy)]
pub struct Maker<'a> {
    pub board: &'a Board,
    pub listing: &'a Listing,
    pub id: QueryId,
    pub state: &'a QueryState,
    pub graph: &'a Graph,
    pub killed: &'a [bool],
}

/// The state of a query that closed without a path.
pub fn closed_state(board: &Board, id: QueryId) -> &QueryState
    requires board { IsBoard board.now }
    requires anchored { (l : ℕ) × IsAnchored board.now.core.nodes l id }
    ensures { IsClosedIn board.now id result.now closing.NotMay }
{
    match board.forest().payload(id) {
        Some(state) => state,
        None => unreachable!(),
    }
}

/// How many queries were asked after a step.
pub fn asked_behind(step: &Step, entry: usize) -> usize
    requires { entry + 1 < 2 ^ 64 }
    ensures { result ≡ asked_after step.now entry }
{
    match step {
        Step::Ask { .. } => entry + 1,
        _ => entry,
    }
}

impl<'a> Maker<'a> {
    /// The number of the claim of a query that is listed.
    fn number(&self, target: QueryId) -> u32
        requires listing { IsListing (length self.now.board.now.core.entries)
            self.now.listing.now.ids.items self.now.listing.now.numbers.items }
        requires listed { Listed self.now.listing.now.ids.items target }
        ensures { slice_get self.now.listing.now.ids.items result ≡ Some target }
    {
        match self.listing.number(target) {
            Some(number) => number,
            None => unreachable!(),
        }
    }

    /// Of the certificates of a kill of a call by a claim, those of the atoms that the call doesn't
    /// ask for itself.
    fn proof_over(
        &self,
        alloc: Global,
        partition: &Partition,
        edge: &RegionEdge,
        claimed: &Query,
        proof: &[Certificate],
    ) -> Result<Certificates, OutOfMemory>
        requires { IsShown partition.now
            (λ p. HasAsked self.now.graph.now (exit self.now) p edge.now) }
        ensures { IfOk result (λ k. (p : Parted) → Shows partition.now p →
            (h : HasAsked self.now.graph.now (exit self.now) p edge.now)
            × (map refutation_of k
            ≡ kept (rows_of_query (asked_query h)) (rows_of_query claimed.now) proof.now)) }
    {
        match asked_over(alloc, self.graph, self.state.query().exit, partition, edge)? {
            Some(asked) => kept_of(alloc, &asked, claimed, proof),
            None => unreachable!(),
        }
    }

    /// Removes the edge of a call by the claim of a query, where it is live.
    fn call_move(
        &self,
        alloc: Global,
        partition: &mut Partition,
        edge: RegionEdge,
        target: QueryId,
        proof: &[Certificate],
    ) -> Result<Option<Move>, OutOfMemory>
        requires board { IsBoard self.now.board.now }
        requires listing { IsListing (length self.now.board.now.core.entries)
            self.now.listing.now.ids.items self.now.listing.now.numbers.items }
        requires listed { Listed self.now.listing.now.ids.items target }
        requires anchored { (l : ℕ) × IsAnchored self.now.board.now.core.nodes l target }
        requires gives { IsShown partition.old
            (λ p. HasEnds self.now.graph.now (exit self.now) p edge
            × HasAsked self.now.graph.now (exit self.now) p edge) }
        ensures { IfOk result (λ o. Does partition.old partition.new
            (MakesCallOf self.now target edge proof.now) (moves_of o)) }
    {
        if !partition.live(&edge) {
            return Ok(None);
        }
        let claimed = closed_state(self.board, target).query();
        let proof = self.proof_over(alloc, partition, &edge, claimed, proof)?;
        remove(partition, &edge);
        let claim = self.number(target);
        Ok(Some(Move::KillCall { edge, claim, proof }))
    }

    /// What a kill by the table or an ancestor makes, which has this proof.
    fn led_move(
        &self,
        alloc: Global,
        partition: &mut Partition,
        edge: RegionEdge,
        by: &Killer,
        proof: &[Certificate],
    ) -> Result<Option<Move>, OutOfMemory>
        requires maker { IsReady self.now }
        requires stored { IsStored self.now (step.Kill edge by.now) }
        requires proof { HasProof by.now proof.now }
        requires gives { IsShown partition.old
            (λ p. GivesFor self.now.graph.now (exit self.now) p by.now edge) }
        ensures { IfOk result (λ o. Does partition.old partition.new
            (MakesKillOf self.now by.now edge) (moves_of o)) }
    {
        match lead(self.board, self.id, self.state, by) {
            Some(target) => self.call_move(alloc, partition, edge, target, proof),
            None => unreachable!(),
        }
    }

    /// What a stored kill makes.
    fn killed_move(
        &self,
        alloc: Global,
        partition: &mut Partition,
        edge: RegionEdge,
        by: &Killer,
    ) -> Result<Option<Move>, OutOfMemory>
        requires maker { IsReady self.now }
        requires stored { IsStored self.now (step.Kill edge by.now) }
        requires gives { IsShown partition.old
            (λ p. GivesFor self.now.graph.now (exit self.now) p by.now edge) }
        ensures { IfOk result (λ o. Does partition.old partition.new
            (MakesKillOf self.now by.now edge) (moves_of o)) }
    {
        match by {
            Killer::Certificate(by) => Ok(Some(kill_move(alloc, partition, edge, by)?)),
            Killer::Table { proof, .. } => {
                self.led_move(alloc, partition, edge, by, proof.as_slice())
            }
            Killer::Child { .. } => Ok(None),
            Killer::Ancestor { proof, .. } => {
                self.led_move(alloc, partition, edge, by, proof.as_slice())
            }
        }
    }

    /// What an Ask makes: where some step kills by its child, a kill by the child's claim.
    fn ask_move(
        &self,
        alloc: Global,
        partition: &mut Partition,
        edge: RegionEdge,
        entry: usize,
        follows: &[Certificate],
    ) -> Result<Option<Move>, OutOfMemory>
        requires maker { IsReady self.now }
        requires entry { (x : AnAsked) × (slice_get self.now.state.now.asked entry ≡ Some x) }
        requires gives { IsShown partition.old
            (λ p. HasEnds self.now.graph.now (exit self.now) p edge
            × HasAsked self.now.graph.now (exit self.now) p edge) }
        ensures { IfOk result (λ o. Does partition.old partition.new
            (MakesAskOf self.now entry edge follows.now) (moves_of o)) }
    {
        if !self.killed[entry] {
            return Ok(None);
        }
        let child = self.state.asked()[entry].child;
        self.call_move(alloc, partition, edge, child, follows)
    }

    /// Puts what a stored step makes after the moves before it. Before the step `entry` queries
    /// were asked.
    fn push_step(
        &self,
        alloc: Global,
        partition: &mut Partition,
        moves: &mut Vec<Move>,
        step: &Step,
        entry: usize,
    ) -> Result<(), OutOfMemory>
        requires maker { IsReady self.now }
        requires stored { IsStored self.now step.now }
        requires entry { HasEntry self.now.state.now.asked step.now entry }
        requires gives { IsShown partition.old
            (λ p. Gives self.now.graph.now (exit self.now) p step.now) }
        ensures { OnOk result ((one : List PureMove)
            × (map move_of moves.new.items ≡ map move_of moves.old.items ++ one)
            × Does partition.old partition.new
            (MakesStepOf self.now step.now entry) one) }
    {
        match step {
            Step::Extend { .. } => Ok(()),
            Step::Split {
                edge,
                atoms,
                follows,
                ..
            } => push_split(moves, alloc, partition, *edge, atoms, follows.as_slice()),
            Step::Kill { edge, by } => {
                let made = self.killed_move(alloc, partition, *edge, by)?;
                push_made(moves, made)
            }
            Step::CallExtend { .. } => Ok(()),
            Step::CallSplit { edge, atoms, .. } => {
                push_split(moves, alloc, partition, uncut(edge), atoms, &[])
            }
            Step::CallPart { edge, atoms, .. } => {
                push_split(moves, alloc, partition, uncut(edge), atoms, &[])
            }
            Step::Ask { edge, follows, .. } => {
                let made = self.ask_move(alloc, partition, *edge, entry, follows.as_slice())?;
                push_made(moves, made)
            }
            Step::Feed { .. } => Ok(()),
            Step::Stuck { .. } => Ok(()),
        }
    }

    /// Puts what all stored steps make after no moves.
    fn make_all(
        &self,
        alloc: Global,
        partition: &mut Partition,
        moves: &mut Vec<Move>,
    ) -> Result<(), OutOfMemory>
        requires maker { IsReady self.now }
        requires begins { Shows partition.old
            (begin_parted self.now.graph.now self.now.state.now.query) }
        requires none { moves.old.items ≡ [] }
        ensures { OnOk result (IsItsClaim self.now
            (record { query = self.now.state.now.query; moves = map move_of moves.new.items })) }
    {
        let mut entry = 0;
        for step in self.state.steps() {
            self.push_step(alloc, partition, moves, step, entry)?;
            entry = asked_behind(step, entry);
        }
        Ok(())
    }

    /// The claim of the query: what it asks, and the moves that its stored steps make.
    pub fn claim(&self, alloc: Global) -> Result<Claim, OutOfMemory>
        requires { IsReady self.now }
        ensures { IfOk result (λ c. IsItsClaim self.now (claim_of c)) }
    {
        let query = self.state.query();
        let mut partition = Partition::begin(alloc, self.graph, query)?;
        let mut moves = Vec::new(alloc);
        self.make_all(alloc, &mut partition, &mut moves)?;
        let query = query.copy(alloc)?;
        let moves = Moves::from_vec(moves);
        Ok(Claim { query, moves })
    }
}
