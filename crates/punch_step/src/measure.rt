//! How far regions lie from a target (breadth-first search over turned edges).

ghost use Rattle.std.specs.Prelude.{ℕ, ◌≡◌, ◌≢◌, ◌<◌, ◌+◌, false, suc, length, replicate, IfOk, IsTrue, OnOk};
ghost use Rattle.may_partition.specs.Shown.{is_live};
ghost use Rattle.punch_step.specs.steps.Far.{AreMeasured};
ghost use Rattle.punch_step.specs.steps.Searching.{IsSearching, MeetsMore, far_in, met_at};

use linear_formula::error::OutOfMemory;
use may_partition::edge_list::EdgeList;
use may_partition::partition::Partition;
use may_partition::region::RegionEdge;
use std::alloc::Global;

/// How far each region lies from a target.
#[derive(Drop)]
pub struct Reach {
    /// 0 where no path leads to the target, else one more than the edges of a shortest one.
    pub far: Vec<u64>,
    /// The first edge of a shortest path.
    pub way: Vec<RegionEdge>,
}

/// A search that goes through the regions in the order in which it met them.
#[derive(Drop)]
struct Search<'a> {
    partition: &'a Partition,
    shut: &'a EdgeList,
    met: Vec<u32>,
    reach: Reach,
}

fn no_distances(alloc: Global, regions: usize) -> Result<Vec<u64>, OutOfMemory>
    ensures { IfOk result (λ v. v.items ≡ replicate regions 0) }
{
    vec![in alloc; 0u64; regions]
}

fn no_ways(alloc: Global, regions: usize) -> Result<Vec<RegionEdge>, OutOfMemory>
    ensures { IfOk result (λ v. length v.items ≡ regions) }
{
    let none = RegionEdge {
        edge: 0,
        from: 0,
        to: 0,
    };
    vec![in alloc; none; regions]
}

impl<'a> Search<'a> {
    /// Begins at the target.
    fn new(
        alloc: Global,
        partition: &'a Partition,
        shut: &'a EdgeList,
        target: u32,
    ) -> Result<Search<'a>, OutOfMemory>
        requires { target < length partition.now.regions }
        ensures searching { IfOk result (IsSearching target 0) }
        ensures partition { IfOk result (λ s. s.partition.now ≡ partition.now) }
        ensures shut { IfOk result (λ s. s.shut.now ≡ shut.now) }
    {
        let regions = partition.regions().len();
        let mut far = no_distances(alloc, regions)?;
        let way = no_ways(alloc, regions)?;
        far[target as usize] = 1;
        let met = vec![in alloc; target]?;
        Ok(Search {
            partition,
            shut,
            met,
            reach: Reach { far, way },
        })
    }

    /// Notes the region that the edge leaves, if it is new and the edge is open.
    fn meet(&mut self, place: usize, edge: &RegionEdge) -> Result<(), OutOfMemory>
        requires place { place < length self.old.met.items }
        requires searching { (target : ℕ) × IsSearching target place self.old }
        requires live { IsTrue (is_live self.old.partition.now.edges edge.now) }
        requires from { edge.now.from < length self.old.partition.now.regions }
        requires to { edge.now.to ≡ met_at self.old place }
        ensures searching { OnOk result ((target : ℕ) → IsSearching target place self.old →
            IsSearching target place self.new) }
        ensures more { OnOk result (MeetsMore self.old self.new) }
        ensures met { OnOk result
            (is_live self.old.shut.now edge.now ≡ false → far_in self.new edge.now.from ≢ 0) }
    {
        if self.reach.far[edge.from as usize] == 0 && !self.shut.has(edge) {
            let far = self.reach.far[edge.to as usize];
            self.met.push(edge.from)?;
            self.reach.far[edge.from as usize] = far + 1;
            self.reach.way[edge.from as usize] = *edge;
        }
        Ok(())
    }

    /// Notes each region from which an open edge leads to the one that was met at this place.
    fn meet_all(&mut self, place: usize) -> Result<(), OutOfMemory>
        requires place { place < length self.old.met.items }
        requires searching { (target : ℕ) × IsSearching target place self.old }
        ensures searching { OnOk result ((target : ℕ) → IsSearching target place self.old →
            IsSearching target (suc place) self.new) }
        ensures more { OnOk result (MeetsMore self.old self.new) }
    {
        let partition = self.partition;
        for edge in partition.edges_into(self.met[place]) {
            self.meet(place, &edge)?;
        }
        Ok(())
    }
}

/// How far each region lies from the target over live edges that aren't shut.
pub fn measure(
    alloc: Global,
    partition: &Partition,
    shut: &EdgeList,
    target: u32,
) -> Result<Reach, OutOfMemory>
    requires { target < length partition.now.regions }
    ensures { IfOk result (λ r. AreMeasured (length partition.now.regions) partition.now.edges
        shut.now target r.far.items r.way.items) }
{
    let mut search = Search::new(alloc, partition, shut, target)?;
    let mut place = 0;
    while place < search.met.len() {
        search.meet_all(place)?;
        place += 1;
    }
    let Search { reach, .. } = search;
    Ok(reach)
}
