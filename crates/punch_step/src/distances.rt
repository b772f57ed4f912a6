//! Distances to the target that are kept from step to step.

ghost use Rattle.std.specs.Prelude.{ℕ, ◌≡◌, ◌≢◌, ◌≤◌, ◌<◌, ◌^◌, ◌==◌, ◌||◌, true, false, suc, length, slice_index, List, Some, None, IfOk, IsTrue, OnOk};
ghost use Rattle.std.specs.List.{list_any};
ghost use Rattle.abstract_path.specs.Routes.{is_at};
ghost use Rattle.may_partition.specs.Parted.{parent};
ghost use Rattle.may_partition.specs.Shown.{is_live};
ghost use Rattle.may_partition.specs.declared.region.RegionEdge.{RegionEdge as ARegionEdge};
ghost use Rattle.query_rules.specs.Seen.{ShowsModel};
ghost use Rattle.query_rules.specs.Steps.{Model};
ghost use Rattle.punch_step.specs.Sides.{IsSide};
ghost use Rattle.punch_step.specs.steps.Far.{IfLastCrossing, IsNearest, IsOpenWay, LeadsNearer, crosses};
ghost use Rattle.punch_step.specs.steps.Following.{AreNoted, AreOf, IsBehind, IsFollowed, IsSplitFrom, KeepsRest};
ghost use Rattle.punch_step.specs.steps.Walks.{IsWalk};
ghost use Rattle.punch_step.specs.steps.Reaching.{AreMarksWithin};

use crate::measure::{Reach, measure};
use crate::noted::{forget, is_live_way, make_room, nothing};
use crate::reaching::{marked_regions, shut_edges};
use linear_formula::error::OutOfMemory;
use may_partition::edge_list::EdgeList;
use may_partition::partition::Partition;
use may_partition::region::RegionEdge;
use query_rules::state::QueryState;
use query_rules::step::Step;
use std::alloc::Global;
use std::mem;
use summary_form::numbers::number_behind;

/// How far regions lie from the target over open edges, at least. A step only takes open edges
/// away, or divides a region, so no distance falls.
#[derive(Drop)]
pub struct Distances {
    pub target: u32,
    /// The edges that were given up or whose query is awaited.
    pub shut: EdgeList,
    pub marked: Vec<bool>,
    pub reach: Reach,
    /// For each region an edge from it that is live, where one is known.
    pub noted: Vec<Option<RegionEdge>>,
    /// Regions whose way may lead nowhere any more.
    pub waiting: Vec<u32>,
}

/// Where the kept ways lead.
#[derive(Drop)]
enum Walk {
    /// To the target, and this is the last edge from a marked region to one that isn't.
    To(RegionEdge),
    /// There is no open path.
    Closed,
    /// Not to the target.
    Lost,
}

/// Whether one of the edges is at the region.
fn touches(edges: &[RegionEdge], region: u32) -> bool
    ensures { result ≡ list_any (λ e. e.from == region || e.to == region) edges.now }
{
    edges
        .iter()
        .any(|edge| edge.from == region || edge.to == region)
}

fn is_set(bits: &[bool], place: u32) -> bool
    ensures { result ≡ is_at bits.now place }
{
    match bits.get(place as usize) {
        Some(bit) => *bit,
        None => false,
    }
}

/// Whether the edge leads from a marked region to one that isn't.
fn crosses(marked: &[bool], edge: &RegionEdge) -> bool
    ensures { result ≡ crosses marked.now edge.now }
{
    is_set(marked, edge.from) && !is_set(marked, edge.to)
}

/// One more than the number, or the greatest one; 0 for 0.
fn one_more(near: u64) -> u64
    ensures none { near ≡ 0 → result ≡ 0 }
    ensures some { near ≢ 0 → result ≢ 0 }
    ensures high { result ≤ suc near }
    ensures greatest { (n : ℕ) → n < 2 ^ 64 → near ≢ 0 → n ≤ suc near → n ≤ result }
{
    if near == 0 { 0 } else { near.saturating_add(1) }
}

impl Distances {
    /// Measures all distances.
    pub fn new(alloc: Global, state: &QueryState, target: u32) -> Result<Distances, OutOfMemory>
        requires target { target < length state.now.partition.regions }
        requires marks { AreMarksWithin (length state.now.partition.regions) state.now.marks }
        ensures followed { IfOk result (IsFollowed state.now) }
        ensures target { IfOk result (λ d. d.target ≡ target) }
    {
        let regions = state.partition().regions().len();
        let marked = marked_regions(alloc, regions, state.marks())?;
        let shut = shut_edges(alloc, state.steps(), state.asked())?;
        let reach = measure(alloc, state.partition(), &shut, target)?;
        Ok(Distances {
            target,
            shut,
            marked,
            reach,
            noted: nothing(alloc, regions)?,
            waiting: Vec::new(alloc),
        })
    }

    /// Whether the edge is open and leads to a distance below this one, or to any if this is 0.
    fn is_nearer(&self, near: u64, edge: &RegionEdge) -> bool
        requires { edge.now.to < length self.now.reach.far.items }
        ensures yes { IsTrue result → (slice_index self.now.reach.far.items edge.now.to ≢ 0)
            × (near ≢ 0 → slice_index self.now.reach.far.items edge.now.to ≤ near)
            × (is_live self.now.shut edge.now ≡ false) }
        ensures no { result ≡ false → slice_index self.now.reach.far.items edge.now.to ≢ 0 →
            is_live self.now.shut edge.now ≡ false →
            (near ≢ 0) × (near ≤ slice_index self.now.reach.far.items edge.now.to) }
    {
        let far = self.reach.far[edge.to as usize];
        if far == 0 {
            return false;
        }
        if near != 0 && near <= far {
            return false;
        }
        !self.shut.has(edge)
    }

    /// The least distance after an open edge from the region, and such an edge: 0 where there is
    /// none.
    fn nearest(&self, partition: &Partition, region: u32) -> (u64, RegionEdge)
        requires far { AreOf partition.now self.now }
        requires region { region < length partition.now.regions }
        ensures { IsNearest partition.now.edges self.now.shut self.now.reach.far.items region
            result.0 }
    {
        let mut near = 0;
        let mut way = self.reach.way[region as usize];
        for edge in partition.edges_from(region) {
            if self.is_nearer(near, &edge) {
                near = self.reach.far[edge.to as usize];
                way = edge;
            }
        }
        (near, way)
    }

    /// The regions whose way leads over this one wait.
    fn tell(&mut self, partition: &Partition, region: u32) -> Result<(), OutOfMemory>
        requires far { AreOf partition.now self.old }
        requires region { region < length partition.now.regions }
        ensures rest { KeepsRest self.old self.new }
        ensures noted { self.new.noted ≡ self.old.noted }
        ensures far { AreOf partition.now self.new }
    {
        for edge in partition.edges_into(region) {
            if self.reach.way[edge.from as usize] == edge {
                self.waiting.push(edge.from)?;
            }
        }
        Ok(())
    }

    /// Raises the region's distance to the least one over an open edge.
    fn raise(&mut self, partition: &Partition, region: u32) -> Result<(), OutOfMemory>
        requires far { AreOf partition.now self.old }
        requires region { region < length partition.now.regions }
        ensures rest { KeepsRest self.old self.new }
        ensures noted { self.new.noted ≡ self.old.noted }
        ensures far { AreOf partition.now self.new }
    {
        let old = self.reach.far[region as usize];
        if region == self.target || old == 0 {
            return Ok(());
        }
        let (near, way) = self.nearest(partition, region);
        let far = one_more(near);
        self.reach.way[region as usize] = way;
        if far == old {
            return Ok(());
        }
        self.reach.far[region as usize] = far;
        self.tell(partition, region)
    }

    /// Raises the distance of a region that waits, if one does.
    fn raise_one(&mut self, partition: &Partition) -> Result<(), OutOfMemory>
        requires far { AreOf partition.now self.old }
        ensures rest { KeepsRest self.old self.new }
        ensures noted { self.new.noted ≡ self.old.noted }
        ensures far { AreOf partition.now self.new }
    {
        match self.waiting.pop() {
            Some(region) if (region as usize) < self.reach.far.len() => {
                self.raise(partition, region)
            }
            _ => Ok(()),
        }
    }

    /// Raises the distances of regions that wait, and of those that wait for them, but no more than
    /// four for each region: a cycle that has lost its way climbs on.
    fn settle(&mut self, partition: &Partition) -> Result<(), OutOfMemory>
        requires far { AreOf partition.now self.old }
        ensures rest { KeepsRest self.old self.new }
        ensures noted { self.new.noted ≡ self.old.noted }
        ensures far { AreOf partition.now self.new }
    {
        let most = self.reach.far.len().saturating_mul(4);
        for _ in 0..most {
            if self.waiting.is_empty() {
                return Ok(());
            }
            self.raise_one(partition)?;
        }
        Ok(())
    }

    /// The edge isn't open any more.
    fn leave(&mut self, partition: &Partition, edge: &RegionEdge) -> Result<(), OutOfMemory>
        requires far { AreOf partition.now self.old }
        ensures rest { KeepsRest self.old self.new }
        ensures noted { self.new.noted ≡ self.old.noted }
        ensures far { AreOf partition.now self.new }
    {
        if self.reach.way.get(edge.from as usize) != Some(edge) {
            return Ok(());
        }
        self.waiting.push(edge.from)?;
        self.settle(partition)
    }

    /// Each new piece lies as far as the region of which it is a piece, at least.
    fn copy_far(&mut self, from: u32, regions: usize) -> Result<(), OutOfMemory>
        requires from { from < length self.old.reach.far.items }
        requires ways { length self.old.reach.way.items ≡ length self.old.reach.far.items }
        requires more { length self.old.reach.far.items ≤ regions }
        ensures rest { OnOk result (KeepsRest self.old self.new) }
        ensures noted { OnOk result (self.new.noted ≡ self.old.noted) }
        ensures fars { OnOk result (length self.new.reach.far.items ≡ regions) }
        ensures ways { OnOk result (length self.new.reach.way.items ≡ regions) }
        ensures far { OnOk result ((r : ℕ) → r < regions → slice_index self.new.reach.far.items r
            ≡ slice_index self.old.reach.far.items
            (parent (length self.old.reach.far.items) from r)) }
    {
        let far = self.reach.far[from as usize];
        let way = self.reach.way[from as usize];
        for piece in self.reach.far.len()..regions {
            self.reach.far.push(far)?;
            self.reach.way.push(way)?;
            self.waiting.push(number_behind(piece)?)?;
        }
        Ok(())
    }

    /// Follows a split of the region. Where one of its edges is shut, all distances are measured
    /// anew, since no piece of it is.
    fn divide(&mut self, alloc: Global, state: &QueryState, from: u32) -> Result<(), OutOfMemory>
        requires split { IsSplitFrom from state.now self.old }
        ensures followed { OnOk result (IsFollowed state.now self.new) }
        ensures target { OnOk result (self.new.target ≡ self.old.target) }
    {
        let unknown = from as usize >= self.reach.far.len();
        if unknown || touches(self.shut.as_slice(), from) {
            *self = Distances::new(alloc, state, self.target)?;
            return Ok(());
        }
        state.partition().live_within();
        let regions = state.partition().regions().len();
        self.copy_far(from, regions)?;
        make_room(&mut self.noted, regions)?;
        self.marked = marked_regions(alloc, regions, state.marks())?;
        self.settle(state.partition())
    }

    /// Follows the state's last step, which is no Ask and no Feed.
    pub fn follow(&mut self, alloc: Global, state: &QueryState) -> Result<(), OutOfMemory>
        requires { IsBehind state.now self.old }
        ensures followed { OnOk result (IsFollowed state.now self.new) }
        ensures target { OnOk result (self.new.target ≡ self.old.target) }
    {
        match state.steps().last() {
            Some(Step::Extend { edge, .. }) => {
                self.marked[edge.to as usize] = true;
                Ok(())
            }
            Some(Step::CallExtend { edge, .. }) => {
                self.marked[edge.to as usize] = true;
                Ok(())
            }
            Some(Step::Split { edge, .. }) => self.divide(alloc, state, edge.from),
            Some(Step::CallSplit { edge, .. }) => self.divide(alloc, state, edge.from),
            Some(Step::CallPart { edge, .. }) => self.divide(alloc, state, edge.from),
            Some(Step::Kill { edge, .. }) => {
                forget(&mut self.noted, edge);
                self.leave(state.partition(), edge)
            }
            Some(Step::Stuck { edge, .. }) => {
                self.shut.add(*edge)?;
                self.leave(state.partition(), edge)
            }
            _ => Ok(()),
        }
    }

    /// Whether the edge is open and leads nearer to the target.
    fn leads_on(
        &self,
        partition: &Partition,
        noted: &mut Vec<Option<RegionEdge>>,
        here: u32,
        edge: &RegionEdge,
    ) -> bool
        requires far { AreOf partition.now self.now }
        requires noted { AreNoted partition.now noted.old.items }
        ensures leads { IsTrue result → LeadsNearer partition.now.edges self.now.shut
            self.now.reach.far.items here edge.now }
        ensures all { LeadsNearer partition.now.edges self.now.shut self.now.reach.far.items here
            edge.now → IsTrue result }
        ensures noted { AreNoted partition.now noted.new.items }
    {
        let (Some(far), Some(next)) = (
            self.reach.far.get(here as usize),
            self.reach.far.get(edge.to as usize),
        ) else {
            return false;
        };
        if edge.from != here || *next == 0 || *next >= *far || self.shut.has(edge) {
            return false;
        }
        is_live_way(partition, noted, edge)
    }

    /// Follows the ways from the outside to the target, and notes them.
    fn walk(&self, partition: &Partition, noted: &mut Vec<Option<RegionEdge>>) -> Walk
        requires far { AreOf partition.now self.now }
        requires noted { AreNoted partition.now noted.old.items }
        requires many { length self.now.marked.items ≡ length partition.now.regions }
        requires outside { is_at self.now.marked.items 0 ≡ true }
        requires target { is_at self.now.marked.items self.now.target ≡ false }
        ensures walk { IsWalk partition.now self.now result }
        ensures noted { AreNoted partition.now noted.new.items }
    {
        if self.reach.far[0] == 0 {
            return Walk::Closed;
        }
        let mut here = 0;
        let mut last = None;
        while here != self.target {
            let edge = self.reach.way[here as usize];
            if !self.leads_on(partition, noted, here, &edge) {
                return Walk::Lost;
            }
            if crosses(&self.marked, &edge) {
                last = Some(edge);
            }
            here = edge.to;
        }
        match last {
            Some(edge) => Walk::To(edge),
            None => unreachable!(),
        }
    }

    /// Whether the kept ways lead from the region to the target.
    fn leads(&self, partition: &Partition, noted: &mut Vec<Option<RegionEdge>>, from: u32) -> bool
        requires far { AreOf partition.now self.now }
        requires noted { AreNoted partition.now noted.old.items }
        ensures way { IsTrue result → (es : List ARegionEdge)
            × IsOpenWay partition.now.edges self.now.shut from es self.now.target }
        ensures noted { AreNoted partition.now noted.new.items }
    {
        let mut here = from;
        while here != self.target {
            let Some(edge) = self.reach.way.get(here as usize) else {
                return false;
            };
            if !self.leads_on(partition, noted, here, edge) {
                return false;
            }
            here = edge.to;
        }
        true
    }

    /// The same, with what the distances note.
    fn leads_from(&mut self, alloc: Global, partition: &Partition, from: u32) -> bool
        requires far { AreOf partition.now self.old }
        requires noted { AreNoted partition.now self.old.noted.items }
        ensures way { IsTrue result → (es : List ARegionEdge)
            × IsOpenWay partition.now.edges self.old.shut from es self.old.target }
        ensures rest { KeepsRest self.old self.new }
        ensures reach { self.new.reach ≡ self.old.reach }
        ensures noted { AreNoted partition.now self.new.noted.items }
    {
        let mut noted = mem::replace(&mut self.noted, Vec::new(alloc));
        let leads = self.leads(partition, &mut noted, from);
        self.noted = noted;
        leads
    }

    /// Whether it is seen that the edge is open and leads from a marked region to one that isn't,
    /// from which open edges lead on to the target.
    pub fn is_side(&mut self, alloc: Global, state: &QueryState, edge: &RegionEdge) -> bool
        requires followed { IsFollowed state.now self.old }
        ensures side { IsTrue result → (m : Model) → ShowsModel state.now m →
            IsSide m self.old.target edge.now }
        ensures followed { IsFollowed state.now self.new }
        ensures target { self.new.target ≡ self.old.target }
    {
        if !crosses(&self.marked, edge) || self.shut.has(edge) || !state.partition().live(edge) {
            return false;
        }
        self.leads_from(alloc, state.partition(), edge.to)
    }

    /// Whether the edge may lead from a marked region to one that isn't, and on to the target: what
    /// a choice begins with.
    pub fn may_be_side(&self, edge: &RegionEdge) -> bool {
        let far = match self.reach.far.get(edge.to as usize) {
            Some(far) => *far,
            None => 0,
        };
        far != 0 && crosses(&self.marked, edge) && !self.shut.has(edge)
    }

    /// The same, with what the distances note.
    fn walk_on(&mut self, alloc: Global, partition: &Partition) -> Walk
        requires far { AreOf partition.now self.old }
        requires noted { AreNoted partition.now self.old.noted.items }
        requires many { length self.old.marked.items ≡ length partition.now.regions }
        requires outside { is_at self.old.marked.items 0 ≡ true }
        requires target { is_at self.old.marked.items self.old.target ≡ false }
        ensures walk { IsWalk partition.now self.old result }
        ensures rest { KeepsRest self.old self.new }
        ensures reach { self.new.reach ≡ self.old.reach }
        ensures noted { AreNoted partition.now self.new.noted.items }
    {
        let mut noted = mem::replace(&mut self.noted, Vec::new(alloc));
        let walk = self.walk(partition, &mut noted);
        self.noted = noted;
        walk
    }

    /// The last edge of a shortest open path that leads from a marked region to one that isn't.
    /// Where the kept ways don't lead to the target, all distances are measured anew.
    pub fn turn(
        &mut self,
        alloc: Global,
        partition: &Partition,
    ) -> Result<Option<RegionEdge>, OutOfMemory>
        requires far { AreOf partition.now self.old }
        requires noted { AreNoted partition.now self.old.noted.items }
        requires in_target { self.old.target < length partition.now.regions }
        requires many { length self.old.marked.items ≡ length partition.now.regions }
        requires outside { is_at self.old.marked.items 0 ≡ true }
        requires target { is_at self.old.marked.items self.old.target ≡ false }
        ensures turn { IfOk result (IfLastCrossing partition.now.edges self.old.shut
            self.old.marked.items self.old.target) }
        ensures rest { KeepsRest self.old self.new }
        ensures far { OnOk result (AreOf partition.now self.new) }
        ensures noted { OnOk result (AreNoted partition.now self.new.noted.items) }
    {
        match self.walk_on(alloc, partition) {
            Walk::To(edge) => return Ok(Some(edge)),
            Walk::Closed => return Ok(None),
            Walk::Lost => {}
        }
        self.reach = measure(alloc, partition, &self.shut, self.target)?;
        self.waiting.clear();
        match self.walk_on(alloc, partition) {
            Walk::To(edge) => Ok(Some(edge)),
            Walk::Closed => Ok(None),
            Walk::Lost => unreachable!(),
        }
    }
}
