//! Edges by their regions.

ghost use Rattle.std.specs.Prelude.{ℕ, ◌≡◌, ◌<◌, ◌≤◌, ◌+◌, ◌++◌, ◌==◌, ◌&&◌, ◌||◌, [], false, map, not, length, take, IfOk, IsTrue, OnErr, OnOk};
ghost use Rattle.std.specs.List.{filter};
ghost use Rattle.may_partition.specs.declared.region.RegionEdge.{RegionEdge as AnEdge};
ghost use Rattle.may_partition.specs.Parted.{has_regions, same_edge};
ghost use Rattle.may_partition.specs.Shown.{IsAscending, have_regions, is_live};
ghost use Rattle.may_partition.specs.steps.Grouped.{kept_within};
ghost use Rattle.may_partition.specs.steps.Listed.{KeepsWithin};

use crate::ends::{Ends, RegionEdges, Side};
use crate::region::RegionEdge;
use linear_formula::error::OutOfMemory;
use std::alloc::Global;
use std::marker::Model;

/// Edges between regions, listed by the region that they leave, and by the region that they lead
/// to. A contract sees how many regions there are, and the edges.
#[derive(Drop)]
pub struct Edges {
    leaving: Vec<Ends>,
    entering: Vec<Ends>,
}

impl Model for Edges {
    ghost use Rattle.std.specs.Prelude.{length};
    ghost use Rattle.may_partition.specs.declared.ends.Side.TheVariants.{Leaving, Entering};
    ghost use Rattle.may_partition.specs.steps.Grouped.{lists_from};
    ghost use Rattle.may_partition.specs.steps.Listed.{AreListed, Sides, joined};

    ghost Value = { Sides };

    ghost view = { λ s. record {
      count = length s.leaving.items;
      edges = joined (lists_from Leaving 0 s.leaving.items);
    } };

    ghost invariant = { λ s. AreListed (lists_from Leaving 0 s.leaving.items)
        (lists_from Entering 0 s.entering.items) };
}

/// Keeps the first lists, and in them the edges whose other regions are among the first ones.
fn keep_first(lists: &mut Vec<Ends>, regions: u32)
    ensures { lists.new.items ≡ map (map (kept_within regions)) (take regions lists.old.items) }
{
    lists.truncate(regions as usize);
    for place in 0..lists.len() {
        lists[place].keep_within(regions);
    }
}

/// Adds the edges after the others.
fn push_all(edges: &mut Vec<RegionEdge>, more: RegionEdges<'_>) -> Result<(), OutOfMemory>
    ensures { OnOk result (edges.new.items ≡ edges.old.items ++ more.entry) }
{
    for edge in more {
        edges.push(edge)?;
    }
    Ok(())
}

impl Edges {
    /// `regions` regions, and no edges.
    pub fn new(alloc: Global, regions: u32) -> Result<Edges, OutOfMemory>
        ensures count { IfOk result (λ edges. edges.count ≡ regions) }
        ensures edges { IfOk result (λ edges. edges.edges ≡ []) }
    {
        let mut edges = Edges {
            leaving: Vec::new(alloc),
            entering: Vec::new(alloc),
        };
        edges.extend(alloc, regions)?;
        Ok(edges)
    }

    /// How many regions there are.
    pub fn count(&self) -> usize
        ensures value { result ≡ self.now.count }
        ensures within { IsTrue (have_regions self.now.count self.now.edges) }
    {
        self.leaving.len()
    }

    /// Adds a region without edges.
    fn push_region(&mut self, alloc: Global) -> Result<(), OutOfMemory>
        ensures count { OnOk result (self.new.count ≡ self.old.count + 1) }
        ensures same_count { OnErr result (self.new.count ≡ self.old.count) }
        ensures edges { self.new.edges ≡ self.old.edges }
    {
        self.entering.push(Ends::new(alloc))?;
        self.leaving.push(Ends::new(alloc))?;
        Ok(())
    }

    /// Adds regions without edges until there are `regions`.
    pub fn extend(&mut self, alloc: Global, regions: u32) -> Result<(), OutOfMemory>
        requires { self.old.count ≤ regions }
        ensures count { OnOk result (self.new.count ≡ regions) }
        ensures low { self.old.count ≤ self.new.count }
        ensures edges { self.new.edges ≡ self.old.edges }
    {
        while self.count() < regions as usize {
            self.push_region(alloc)?;
        }
        Ok(())
    }

    /// The edges that leave the region, by graph edge and then by the region that they lead to.
    pub fn leaving(&self, region: u32) -> RegionEdges<'_>
        requires { region < self.now.count }
        ensures edges { (e : AnEdge) →
            is_live result e ≡ (is_live self.now.edges e && e.from == region) }
        ensures order { IsAscending result }
        ensures within { IsTrue (have_regions self.now.count result) }
    {
        self.leaving[region as usize].edges(Side::Leaving(region))
    }

    /// The edges that lead to the region.
    pub fn entering(&self, region: u32) -> RegionEdges<'_>
        requires { region < self.now.count }
        ensures edges { (e : AnEdge) →
            is_live result e ≡ (is_live self.now.edges e && e.to == region) }
        ensures within { IsTrue (have_regions self.now.count result) }
    {
        self.entering[region as usize].edges(Side::Entering(region))
    }

    /// The edges at the region, in memory of their own.
    pub fn touching(&self, alloc: Global, region: u32) -> Result<Vec<RegionEdge>, OutOfMemory>
        requires { region < self.now.count }
        ensures edges { IfOk result (λ v. (e : AnEdge) → is_live v.items e
            ≡ (is_live self.now.edges e && (e.from == region || e.to == region))) }
        ensures within { IfOk result (λ v. IsTrue (have_regions self.now.count v.items)) }
    {
        let mut edges = Vec::new(alloc);
        push_all(&mut edges, self.leaving(region))?;
        push_all(&mut edges, self.entering(region))?;
        Ok(edges)
    }

    /// Whether the edge is one of them.
    pub fn has(&self, edge: &RegionEdge) -> bool
        ensures { result ≡ is_live self.now.edges edge.now }
    {
        if edge.from as usize >= self.leaving.len() {
            return false;
        }
        self.leaving[edge.from as usize].has(edge.edge, edge.to)
    }

    /// Adds the edge, unless it is there.
    pub fn add(&mut self, edge: RegionEdge) -> Result<(), OutOfMemory>
        requires from { edge.from < self.old.count }
        requires to { edge.to < self.old.count }
        ensures live { OnOk result ((e : AnEdge) →
            is_live self.new.edges e ≡ (is_live self.old.edges e || same_edge edge e)) }
        ensures kept { (n : ℕ) → has_regions n edge ≡ false →
            KeepsWithin n self.old self.new }
        ensures count { self.new.count ≡ self.old.count }
    {
        self.entering[edge.to as usize].add(edge.edge, edge.from)?;
        match self.leaving[edge.from as usize].add(edge.edge, edge.to) {
            Ok(()) => Ok(()),
            Err(error) => {
                self.entering[edge.to as usize].remove(edge.edge, edge.from);
                Err(error)
            }
        }
    }

    /// Removes the edge, if it is there. Takes no memory.
    pub fn remove(&mut self, edge: RegionEdge)
        requires from { edge.from < self.old.count }
        requires to { edge.to < self.old.count }
        ensures live { (e : AnEdge) → is_live self.new.edges e
            ≡ (is_live self.old.edges e && not (same_edge e edge)) }
        ensures count { self.new.count ≡ self.old.count }
    {
        self.leaving[edge.from as usize].remove(edge.edge, edge.to);
        self.entering[edge.to as usize].remove(edge.edge, edge.from);
    }

    /// Keeps the first regions, and the edges between them. Takes no memory.
    pub fn keep_within(&mut self, regions: u32)
        requires { regions ≤ self.old.count }
        ensures count { self.new.count ≡ regions }
        ensures edges { self.new.edges ≡ filter (has_regions regions) self.old.edges }
    {
        keep_first(&mut self.leaving, regions);
        keep_first(&mut self.entering, regions);
    }
}
