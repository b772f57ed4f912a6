//! Which queries may be Ready, so that a take need not look at the others.
ghost use Rattle.std.specs.Prelude.{◌≡◌, ℕ, ◌<◌, length, [], IfOk, IfSome, MatchOption, Some};

use crate::OutOfMemory;
use std::alloc::Global;
use std::marker::Model;

/// The numbers of the queries that may be Ready, each at most once, and for each query whether its
/// number is among them.
#[derive(Drop)]
pub struct ReadyList {
    ids: Vec<u32>,
    marks: Vec<bool>,
    room: usize,
}

impl Model for ReadyList {
    ghost use Rattle.std.specs.Prelude.{vec_capacity};
    ghost use Rattle.query_tree.specs.Ready.{Listed, IsListed};

    ghost Value = { Listed };

    ghost view = { λ r. record { ids = r.ids.items; marks = r.marks.items; room = r.room } };

    ghost invariant = { λ r. IsListed
        (record { ids = r.ids.items; marks = r.marks.items; room = r.room })
        (vec_capacity r.ids) (vec_capacity r.marks) };
}

impl ReadyList {
    ghost use Rattle.query_tree.specs.Ready.{Listed, Notes, NotesAbove, NotesJob, Grows, Loses, HasNone};

    /// A list for at most this many queries, of which there are none yet.
    pub fn with_room(alloc: Global, room: u32) -> Result<ReadyList, OutOfMemory>
        ensures { IfOk result (λ r. (r.room ≡ room) × (r.marks ≡ [])) }
    {
        Ok(ReadyList {
            ids: Vec::with_capacity(alloc, room as usize)?,
            marks: Vec::with_capacity(alloc, room as usize)?,
            room: room as usize,
        })
    }

    /// A new query, which may be Ready.
    pub fn add(&mut self, id: u32)
        requires room { length self.old.marks < self.old.room }
        requires next { id ≡ length self.old.marks }
        ensures { Grows self.old self.new id }
    {
        self.ids.push_reserved(id);
        self.marks.push_reserved(true);
    }

    /// The query may have become Ready.
    pub fn note(&mut self, id: u32)
        requires { id < length self.old.marks }
        ensures { Notes self.old self.new id }
    {
        if !self.marks[id as usize] {
            self.ids.push_reserved(id);
            self.marks[id as usize] = true;
        }
    }

    /// The query's parent, if it has one, may have become Ready.
    pub fn note_above(&mut self, parent: Option<u32>)
        requires { (p : ℕ) → parent ≡ Some p → p < length self.old.marks }
        ensures { NotesAbove self.old self.new parent }
    {
        if let Some(id) = parent {
            self.note(id);
        }
    }

    /// The query and its parent, if it has one, may have become Ready.
    pub fn note_job(&mut self, id: u32, parent: Option<u32>)
        requires own { id < length self.old.marks }
        requires above { (p : ℕ) → parent ≡ Some p → p < length self.old.marks }
        ensures { NotesJob self.old self.new id parent }
    {
        self.note(id);
        self.note_above(parent);
    }

    /// Takes the last number off the list.
    pub fn pop(&mut self) -> Option<u32>
        ensures popped { MatchOption result ((self.new ≡ self.old) × HasNone self.old)
            (λ id. Loses self.old self.new id) }
        ensures shorter { IfSome result (λ _. length self.new.ids < length self.old.ids) }
    {
        let id = self.ids.pop()?;
        self.marks[id as usize] = false;
        Some(id)
    }
}
