//! The children of each query, so that a close need not look at the other queries.
ghost use Rattle.std.specs.Prelude.{◌≡◌, ℕ, ◌<◌, ◌^◌, ◌++◌, ◌∷◌, length, [], IfOk, MatchOption, Option, Some, slice_get};

use crate::OutOfMemory;
use std::alloc::Global;
use std::marker::Model;

/// For each query, its youngest child and its next older sibling. `work` has the queries
/// to whose children a walk has still to go.
#[derive(Drop)]
pub struct Children {
    latest: Vec<Option<u32>>,
    older: Vec<Option<u32>>,
    work: Vec<u32>,
    room: usize,
}

impl Model for Children {
    ghost use Rattle.std.specs.Prelude.{vec_capacity};
    ghost use Rattle.query_tree.specs.Kin.{Kin, HasRoom};

    ghost Value = { Kin };

    ghost view = { λ r. record {
      latest = r.latest.items;
      older = r.older.items;
      work = r.work.items;
      room = r.room;
    } };

    ghost invariant = { λ r. HasRoom r.room (vec_capacity r.latest) (vec_capacity r.older)
        (vec_capacity r.work) };
}

impl Children {
    ghost use Rattle.query_tree.specs.Kin.{Kin, Joins, with_work};

    /// Room for at most this many queries, of which there are none yet.
    pub fn with_room(alloc: Global, room: u32) -> Result<Children, OutOfMemory>
        ensures { IfOk result (λ r. (r.room ≡ room) × (r.latest ≡ []) × (r.older ≡ [])) }
    {
        Ok(Children {
            latest: Vec::with_capacity(alloc, room as usize)?,
            older: Vec::with_capacity(alloc, room as usize)?,
            work: Vec::with_capacity(alloc, room as usize)?,
            room: room as usize,
        })
    }

    /// A new query with this parent.
    pub fn add(&mut self, parent: Option<u32>)
        requires room { length self.old.latest < self.old.room }
        requires small { length self.old.latest < 2 ^ 32 }
        requires same { length self.old.older ≡ length self.old.latest }
        requires above { (p : ℕ) → parent ≡ Some p → p < length self.old.latest }
        ensures { Joins self.old self.new parent }
    {
        let id = self.latest.len() as u32;
        self.latest.push_reserved(None);
        if let Some(p) = parent {
            self.older.push_reserved(self.latest[p as usize]);
            self.latest[p as usize] = Some(id);
        } else {
            self.older.push_reserved(None);
        }
    }

    /// The latest child, for a walk that has nothing else to go to.
    pub fn start(&mut self, id: u32) -> Option<u32>
        requires { id < length self.old.latest }
        ensures latest { slice_get self.old.latest id ≡ Some result }
        ensures rest { self.new ≡ with_work self.old [] }
    {
        self.work.clear();
        self.latest[id as usize]
    }

    /// The latest child.
    pub fn latest(&self, id: u32) -> Option<u32>
        requires { id < length self.now.latest }
        ensures { slice_get self.now.latest id ≡ Some result }
    {
        self.latest[id as usize]
    }

    /// The child of the same parent that is next before this one.
    pub fn older(&self, id: u32) -> Option<u32>
        requires { id < length self.now.older }
        ensures { slice_get self.now.older id ≡ Some result }
    {
        self.older[id as usize]
    }

    /// The walk has to go to the children of this query.
    pub fn push(&mut self, id: u32)
        requires { length self.old.work < self.old.room }
        ensures { self.new ≡ with_work self.old (self.old.work ++ id ∷ []) }
    {
        self.work.push_reserved(id);
    }

    /// Where the walk goes next.
    pub fn pop(&mut self) -> Option<u32>
        ensures { MatchOption result ((self.new ≡ self.old) × (self.old.work ≡ []))
            (λ id. self.old ≡ with_work self.new (self.new.work ++ id ∷ [])) }
    {
        self.work.pop()
    }
}
