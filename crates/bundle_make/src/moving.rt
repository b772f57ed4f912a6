//! Moves with their partition.

ghost use Rattle.std.specs.Prelude.{◌≡◌, ◌+◌, ◌<◌, ◌≤◌, ◌++◌, IfOk, IsTrue, OnOk, length, map};
ghost use Rattle.std.specs.List.{list_all};
ghost use Rattle.infeasible_cert.specs.Refutation.{refutation_of};
ghost use Rattle.may_partition.specs.Parted.{Parted, can_negate, kill_edge, split_edge, split_regions};
ghost use Rattle.may_partition.specs.Shown.{Shows};
ghost use Rattle.query_rules.specs.Steps.{uncut};
ghost use Rattle.proof_bundle.specs.Claims.{kill, move_of, split};
ghost use Rattle.bundle_check.specs.RightClaims.{moved_all};
ghost use Rattle.bundle_check.specs.Walked.{cuts, split_moves};
ghost use Rattle.bundle_make.specs.steps.Making.{moves_of};

use infeasible_cert::certificate::Certificate;
use linear_formula::error::OutOfMemory;
use linear_formula::formula::Atoms;
use may_partition::error::SplitError;
use may_partition::partition::Partition;
use may_partition::region::RegionEdge;
use proof_bundle::bundle::Move;
use std::alloc::{AllocError, Global};
use summary_form::numbers::{number_behind, number_behind_both};

/// Over it a split cuts no edge: graph edge 0, from the region that the edge leaves to itself.
pub fn uncut(edge: &RegionEdge) -> RegionEdge
    ensures { result ≡ uncut edge.now }
{
    RegionEdge {
        edge: 0,
        from: edge.from,
        to: edge.from,
    }
}

/// Removes an edge.
pub fn remove(partition: &mut Partition, edge: &RegionEdge)
    requires from { edge.now.from < length partition.old.regions }
    requires to { edge.now.to < length partition.old.regions }
    ensures regions { partition.new.regions ≡ partition.old.regions }
    ensures shows { (p : Parted) → Shows partition.old p →
        Shows partition.new (kill_edge edge.now p) }
{
    match partition.kill(edge) {
        Ok(()) => {}
        Err(_) => unreachable!(),
    }
}

/// Splits the region that the edge leaves.
pub fn split_move(
    alloc: Global,
    partition: &mut Partition,
    edge: RegionEdge,
    atoms: &Atoms,
) -> Result<Move, OutOfMemory>
    requires from { edge.from < length partition.old.regions }
    requires to { edge.to < length partition.old.regions }
    requires negatable { IsTrue (list_all can_negate atoms.now) }
    ensures made { IfOk result (λ m. move_of m ≡ split edge atoms.now) }
    ensures regions { IfOk result (λ m.
        partition.new.regions ≡ split_regions partition.old.regions edge.from atoms.now) }
    ensures shows { IfOk result (λ m. (p : Parted) → Shows partition.old p →
        Shows partition.new (split_edge edge atoms.now p)) }
{
    match partition.split(alloc, &edge, atoms.as_slice()) {
        Ok(()) => {}
        Err(SplitError::Memory) => return Err(AllocError),
        Err(SplitError::Wide) => unreachable!(),
    }
    let atoms = atoms.copy(alloc)?;
    Ok(Move::Split { edge, atoms })
}

/// Removes an edge by a certificate.
pub fn kill_move(
    alloc: Global,
    partition: &mut Partition,
    edge: RegionEdge,
    by: &Certificate,
) -> Result<Move, OutOfMemory>
    requires from { edge.from < length partition.old.regions }
    requires to { edge.to < length partition.old.regions }
    ensures made { IfOk result (λ m. move_of m ≡ kill edge (refutation_of by.now)) }
    ensures regions { IfOk result (λ m. partition.new.regions ≡ partition.old.regions) }
    ensures shows { IfOk result (λ m. (p : Parted) → Shows partition.old p →
        Shows partition.new (kill_edge edge p)) }
{
    remove(partition, &edge);
    let by = by.copy(alloc)?;
    Ok(Move::Kill { edge, by })
}

/// Puts a move after the others, if there is one.
pub fn push_made(moves: &mut Vec<Move>, made: Option<Move>) -> Result<(), OutOfMemory>
    ensures { OnOk result (map move_of moves.new.items
        ≡ map move_of moves.old.items ++ moves_of made) }
{
    if let Some(made) = made {
        moves.push(made)?;
    }
    Ok(())
}

/// Removes the edge from each new piece of the region that it leaves, by a certificate for each.
/// The first of them has this number.
fn push_cuts(
    moves: &mut Vec<Move>,
    alloc: Global,
    partition: &mut Partition,
    edge: &RegionEdge,
    first: u32,
    follows: &[Certificate],
) -> Result<(), OutOfMemory>
    requires from { first + length follows.now ≤ length partition.old.regions }
    requires to { edge.now.to < length partition.old.regions }
    ensures made { OnOk result (map move_of moves.new.items
        ≡ map move_of moves.old.items ++ cuts first edge.now follows.now) }
    ensures shows { OnOk result ((p : Parted) → Shows partition.old p →
        Shows partition.new (moved_all (cuts first edge.now follows.now) p)) }
{
    let mut from = first;
    for by in follows {
        let cut = RegionEdge {
            edge: edge.edge,
            from,
            to: edge.to,
        };
        let made = kill_move(alloc, partition, cut, by)?;
        moves.push(made)?;
        from = number_behind_both(from, 1)?;
    }
    Ok(())
}

/// Splits the region that the edge leaves. By atoms of the preimage the split cuts the edge; by
/// atoms that follow it cuts none, and the edge is removed from each new piece.
pub fn push_split(
    moves: &mut Vec<Move>,
    alloc: Global,
    partition: &mut Partition,
    edge: RegionEdge,
    atoms: &Atoms,
    follows: &[Certificate],
) -> Result<(), OutOfMemory>
    requires from { edge.from < length partition.old.regions }
    requires to { edge.to < length partition.old.regions }
    requires negatable { IsTrue (list_all can_negate atoms.now) }
    requires few { length follows.now ≤ length atoms.now }
    ensures made { OnOk result (map move_of moves.new.items ≡ map move_of moves.old.items
        ++ split_moves (length partition.old.regions) edge atoms.now follows.now) }
    ensures shows { OnOk result ((p : Parted) → Shows partition.old p →
        Shows partition.new (moved_all
        (split_moves (length partition.old.regions) edge atoms.now follows.now) p)) }
{
    if follows.is_empty() {
        let made = split_move(alloc, partition, edge, atoms)?;
        moves.push(made)?;
        return Ok(());
    }
    let first = number_behind(partition.regions().len())?;
    let made = split_move(alloc, partition, uncut(&edge), atoms)?;
    moves.push(made)?;
    push_cuts(moves, alloc, partition, &edge, first, follows)
}
