//! Lists of queries, with the place of each.

ghost use Rattle.std.specs.Prelude.{◌≡◌, ◌<◌, ◌^◌, [], Some, IfOk, OnOk, slice_get, length};
ghost use Rattle.bundle_make.specs.Bundling.{Listed};
ghost use Rattle.bundle_make.specs.steps.Growing.{IsGrown};
ghost use Rattle.bundle_make.specs.steps.Listing.{IsListing};

use linear_formula::error::OutOfMemory;
use query_tree::QueryId;
use std::alloc::Global;

/// Queries in order, each once, and of each query its place, if it has one.
#[derive(Drop)]
pub struct Listing {
    pub ids: Vec<QueryId>,
    pub numbers: Vec<Option<u32>>,
}

impl Listing {
    /// None of `count` queries.
    pub fn begin(alloc: Global, count: u32) -> Result<Listing, OutOfMemory>
        ensures listing { IfOk result (λ l. IsListing count l.ids.items l.numbers.items) }
        ensures empty { IfOk result (λ l. l.ids.items ≡ []) }
    {
        let numbers = vec![in alloc; None; count as usize]?;
        Ok(Listing {
            ids: Vec::new(alloc),
            numbers,
        })
    }

    /// The place of the query, if it is listed.
    pub fn number(&self, id: QueryId) -> Option<u32>
        requires { id < length self.now.numbers.items }
        ensures { slice_get self.now.numbers.items id ≡ Some result }
    {
        self.numbers[id as usize]
    }

    /// The query stands after the others, unless it is listed.
    pub fn add(&mut self, id: QueryId) -> Result<(), OutOfMemory>
        requires listing { IsListing (length self.old.numbers.items) self.old.ids.items
            self.old.numbers.items }
        requires few { length self.old.numbers.items < 2 ^ 32 }
        requires id { id < length self.old.numbers.items }
        ensures listing { OnOk result (IsListing (length self.old.numbers.items)
            self.new.ids.items self.new.numbers.items) }
        ensures grown { OnOk result
            (IsGrown (λ x. x ≡ id) self.old.ids.items self.new.ids.items) }
        ensures listed { OnOk result (Listed self.new.ids.items id) }
    {
        if self.number(id).is_some() {
            return Ok(());
        }
        let number = self.ids.len() as u32;
        self.ids.push(id)?;
        self.numbers[id as usize] = Some(number);
        Ok(())
    }
}
