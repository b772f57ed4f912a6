//! Distances of regions to a target, layer by layer (breadth-first search over turned edges).

ghost use Rattle.std.specs.Prelude.{ℕ, ◌≡◌, ◌≢◌, ◌+◌, ◌<◌, ◌^◌, [], length, IfOk, OnOk, slice_index, replicate};
ghost use Rattle.abstract_path.specs.Routes.{AreEdgesOf, IsOpen};
ghost use Rattle.abstract_path.specs.steps.Arrivals.{AreArrivals};
ghost use Rattle.abstract_path.specs.steps.Layers.{IsMeasured, IsSettled, Extends};
ghost use Rattle.abstract_path.specs.steps.Searching.{IsInLayer, KeepsLayer};

use crate::network::{Arrival, Network};
use std::alloc::{AllocError, Global};
use std::mem;

/// How far each region lies from the target, and the first edge of a shortest path from there.
#[derive(Drop)]
pub struct Reach {
    /// 0 for a region from which no path leads, else one more than the number of edges.
    pub far: Vec<u64>,
    pub way: Vec<u32>,
}

/// A search while it goes through the regions of one distance.
#[derive(Drop)]
struct Search<'a> {
    network: Network<'a>,
    target: u32,
    depth: u64,
    /// The regions of this distance.
    current: Vec<u32>,
    /// Those of the next one that were met so far.
    met: Vec<u32>,
    far: Vec<u64>,
    way: Vec<u32>,
}

fn no_distances(alloc: Global, regions: u32) -> Result<Vec<u64>, AllocError>
    ensures { IfOk result (λ v. v.items ≡ replicate regions 0) }
{
    vec![in alloc; 0u64; regions as usize]
}

fn no_edges(alloc: Global, regions: u32) -> Result<Vec<u32>, AllocError>
    ensures { IfOk result (λ v. v.items ≡ replicate regions 0) }
{
    vec![in alloc; 0u32; regions as usize]
}

impl<'a> Search<'a> {
    /// Begins at the target.
    fn new(alloc: Global, network: Network<'a>, target: u32) -> Result<Search<'a>, AllocError>
        requires target { target < network.regions }
        requires arrivals { AreArrivals network.edges.now network.shut.now
            network.arrivals.begins.items network.arrivals.entries.items }
        ensures layer { IfOk result (λ s. IsInLayer s) }
        ensures alone { IfOk result (λ s. s.met.items ≡ []) }
        ensures network { IfOk result (λ s. s.network ≡ network.entry) }
        ensures target { IfOk result (λ s. s.target ≡ target) }
    {
        let mut far = no_distances(alloc, network.regions)?;
        let way = no_edges(alloc, network.regions)?;
        let current = vec![in alloc; target]?;
        far[target as usize] = 1;
        Ok(Search {
            network,
            target,
            depth: 1,
            current,
            met: Vec::new(alloc),
            far,
            way,
        })
    }

    /// Goes on to the next layer.
    fn advance(&mut self, alloc: Global)
        requires layer { IsInLayer self.old }
        requires some { 0 < length self.old.current.items }
        requires settled { (k : ℕ) → k < length self.old.current.items →
            IsSettled self.old.network.edges.now self.old.network.shut.now self.old.far.items
            (slice_index self.old.current.items k) }
        ensures layer { IsInLayer self.new }
        ensures alone { self.new.met.items ≡ [] }
        ensures network { self.new.network ≡ self.old.network }
        ensures target { self.new.target ≡ self.old.target }
        ensures deeper { self.new.depth ≡ self.old.depth + 1 }
    {
        self.current = mem::replace(&mut self.met, Vec::new(alloc));
        self.depth += 1;
    }

    /// Notes the region that an open edge leads from, if it is new.
    fn meet(&mut self, place: usize, source: u32, number: u32) -> Result<(), AllocError>
        requires place { place < length self.old.current.items }
        requires layer { IsInLayer self.old }
        requires source { source < self.old.network.regions }
        requires is_open { IsOpen self.old.network.edges.now self.old.network.shut.now number source
            (slice_index self.old.current.items place) }
        ensures layer { OnOk result (IsInLayer self.new) }
        ensures keeps { OnOk result (KeepsLayer self.old self.new) }
        ensures same { OnOk result (Extends self.old.far.items self.new.far.items) }
        ensures met { OnOk result (slice_index self.new.far.items source ≢ 0) }
    {
        if self.far[source as usize] == 0 {
            self.met.push(source)?;
            self.far[source as usize] = self.depth + 1;
            self.way[source as usize] = number;
        }
        Ok(())
    }

    /// Goes through the open edges into one region of the layer.
    fn settle(&mut self, place: usize) -> Result<(), AllocError>
        requires place { place < length self.old.current.items }
        requires layer { IsInLayer self.old }
        ensures layer { OnOk result (IsInLayer self.new) }
        ensures keeps { OnOk result (KeepsLayer self.old self.new) }
        ensures same { OnOk result (Extends self.old.far.items self.new.far.items) }
        ensures settled { OnOk result
            (IsSettled self.new.network.edges.now self.new.network.shut.now
            self.new.far.items (slice_index self.new.current.items place)) }
    {
        let region = self.current[place];
        let begin = self.network.arrivals.begins[region as usize];
        let end = self.network.arrivals.begins[region as usize + 1];
        for at in begin..end {
            let Arrival { source, number } = self.network.arrivals.entries[at as usize];
            self.meet(place, source, number)?;
        }
        Ok(())
    }

    /// Goes through the layer.
    fn settle_all(&mut self) -> Result<(), AllocError>
        requires layer { IsInLayer self.old }
        ensures layer { OnOk result (IsInLayer self.new) }
        ensures keeps { OnOk result (KeepsLayer self.old self.new) }
        ensures settled { OnOk result ((k : ℕ) → k < length self.new.current.items →
            IsSettled self.new.network.edges.now self.new.network.shut.now self.new.far.items
            (slice_index self.new.current.items k)) }
    {
        for place in 0..self.current.len() {
            self.settle(place)?;
        }
        Ok(())
    }
}

/// Measures how far each region lies from the target.
fn measure(alloc: Global, network: Network<'_>, target: u32) -> Result<Reach, AllocError>
    requires target { target < network.regions }
    requires arrivals { AreArrivals network.edges.now network.shut.now network.arrivals.begins.items
        network.arrivals.entries.items }
    ensures { IfOk result (λ r. IsMeasured network.entry.edges.now network.entry.shut.now
        network.entry.regions target r.far.items r.way.items) }
{
    let mut search = Search::new(alloc, network, target)?;
    while !search.current.is_empty() {
        search.settle_all()?;
        search.advance(alloc);
    }
    let Search { far, way, .. } = search;
    Ok(Reach { far, way })
}

/// How far each region lies from the target, and by which edge.
pub fn reach_to(
    alloc: Global,
    regions: u32,
    edges: &[(u32, u32)],
    shut: &[bool],
    target: u32,
) -> Result<Reach, AllocError>
    requires edges { AreEdgesOf regions edges.now }
    requires few { length edges.now < 2 ^ 32 }
    requires shuts { length shut.now ≡ length edges.now }
    requires target { target < regions }
    ensures { IfOk result (λ r. IsMeasured edges.now shut.now regions target r.far.items
        r.way.items) }
{
    let network = Network::new(alloc, regions, edges, shut)?;
    measure(alloc, network, target)
}
