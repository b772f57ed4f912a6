//! Edges that are known to be live, so that they aren't searched for again.

ghost use Rattle.std.specs.Prelude.{◌≡◌, ◌≢◌, ◌<◌, ℕ, length, slice_get, Some, IfOk, IsTrue, OnOk};
ghost use Rattle.may_partition.specs.Shown.{Shown, is_live};
ghost use Rattle.may_partition.specs.declared.region.RegionEdge.{RegionEdge as AnEdge};
ghost use Rattle.punch_step.specs.steps.Following.{AreNoted};

use linear_formula::error::OutOfMemory;
use may_partition::partition::Partition;
use may_partition::region::RegionEdge;
use std::alloc::Global;

/// Whether the edge is the one that is noted for its region.
fn is_noted(noted: &[Option<RegionEdge>], edge: &RegionEdge) -> bool
    ensures { IsTrue result → slice_get noted.now edge.now.from ≡ Some (Some edge.now) }
{
    match noted.get(edge.from as usize) {
        Some(Some(way)) => *way == *edge,
        _ => false,
    }
}

/// Notes the live edge for its region.
fn note(noted: &mut Vec<Option<RegionEdge>>, partition: &Partition, edge: &RegionEdge)
    requires noted { AreNoted partition.now noted.old.items }
    requires from { edge.now.from < length partition.now.regions }
    requires to { edge.now.to < length partition.now.regions }
    requires live { IsTrue (is_live partition.now.edges edge.now) }
    ensures { AreNoted partition.now noted.new.items }
{
    let region = edge.from as usize;
    if region < noted.len() {
        noted[region] = Some(*edge);
    }
}

/// Whether the edge is live. Then it is noted.
pub fn is_live_way(
    partition: &Partition,
    noted: &mut Vec<Option<RegionEdge>>,
    edge: &RegionEdge,
) -> bool
    requires noted { AreNoted partition.now noted.old.items }
    requires from { edge.now.from < length partition.now.regions }
    requires to { edge.now.to < length partition.now.regions }
    ensures live { result ≡ is_live partition.now.edges edge.now }
    ensures noted { AreNoted partition.now noted.new.items }
{
    if is_noted(noted, edge) {
        return true;
    }
    if !partition.live(edge) {
        return false;
    }
    note(noted, partition, edge);
    true
}

/// Nothing is noted any more for the region that the edge leaves.
pub fn forget(noted: &mut Vec<Option<RegionEdge>>, edge: &RegionEdge)
    ensures { (r : ℕ) (e : AnEdge) → slice_get noted.new.items r ≡ Some (Some e) →
        (r ≢ edge.now.from) × (slice_get noted.old.items r ≡ Some (Some e)) }
{
    let region = edge.from as usize;
    if region < noted.len() {
        noted[region] = None;
    }
}

/// Room for `regions` regions. Nothing is noted for the new ones.
pub fn make_room(noted: &mut Vec<Option<RegionEdge>>, regions: usize) -> Result<(), OutOfMemory>
    ensures { OnOk result ((r : ℕ) (e : AnEdge) → slice_get noted.new.items r ≡ Some (Some e) →
        slice_get noted.old.items r ≡ Some (Some e)) }
{
    for _ in noted.len()..regions {
        noted.push(None)?;
    }
    Ok(())
}

/// Nothing is noted, for `regions` regions.
pub fn nothing(alloc: Global, regions: usize) -> Result<Vec<Option<RegionEdge>>, OutOfMemory>
    ensures { IfOk result (λ noted. (p : Shown) → AreNoted p noted.items) }
{
    let mut noted = Vec::new(alloc);
    make_room(&mut noted, regions)?;
    Ok(noted)
}
