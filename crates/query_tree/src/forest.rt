//! A forest of queries with payloads.
ghost use Rattle.std.specs.Prelude.{◌≡◌, ◌-◌, ◌<◌, ◌≤◌, length, Some, None, IfOk, MatchResult};

use crate::children::Children;
use crate::live::LiveCounts;
use crate::ready::ReadyList;
use crate::{Entry, Gone, Lent, OutOfMemory, QueryId, Rest, Status, edits};
use std::alloc::Global;
use std::marker::Model;

/// Queries are numbered from 0 in the order in which they are added.
#[derive(Drop)]
pub struct Forest<T> {
    entries: Vec<Entry<T>>,
    room: usize,
    ready: ReadyList,
    live: LiveCounts,
    kin: Children,
}

impl<T> Model for Forest<T> {
    ghost use Rattle.std.specs.Prelude.{◌<◌, ◌≤◌, length, vec_capacity};
    ghost use Rattle.query_tree.specs.Woods.{Woods};
    ghost use Rattle.query_tree.specs.Sound.{IsSound};

    ghost Value = { Woods T };

    ghost view = { λ f. record { room = f.room; entries = f.entries.items } };

    ghost invariant = { λ f. IsSound f.entries.items f.room (vec_capacity f.entries) f.ready f.live
        f.kin };
}

impl<T: Drop> Forest<T> {
    ghost use Rattle.std.specs.Prelude.{◌≡◌, ◌-◌, ◌<◌, ◌≤◌, [], length, IfOk, IfSome, MatchOption, MatchResult};
    ghost use Rattle.std.specs.Option.{option_copied};
    ghost use Rattle.query_tree.specs.Forest.{after_ask, after_back, after_close, after_feed, after_root, has_live};
    ghost use Rattle.query_tree.specs.Kept.{IsGranted, IsShut, IsTree, HasCause, HasEnded, HasWork, HoldsLefts, HoldsPayloads};
    ghost use Rattle.query_tree.specs.Takes.{HasNoReady, Took};
    ghost use Rattle.query_tree.specs.Frame.{OthersStay};
    ghost use Rattle.query_tree.specs.Woods.{Woods, IsLent, Went, WasDropped, MayGive, IsChild, Fed, Reads};

    /// An empty forest.
    pub fn with_room(alloc: Global, room: u32) -> Result<Forest<T>, OutOfMemory>
        ensures { IfOk result (λ f. (f.room ≡ room) × (f.entries ≡ [])) }
    {
        Ok(Forest {
            entries: Vec::with_capacity(alloc, room as usize)?,
            room: room as usize,
            ready: ReadyList::with_room(alloc, room)?,
            live: LiveCounts::with_room(alloc, room)?,
            kin: Children::with_room(alloc, room)?,
        })
    }

    /// Adds a root, which is Ready.
    pub fn add_root(&mut self, grant: u32, payload: T) -> QueryId
        requires { length self.old.entries < self.old.room }
        ensures room { self.new.room ≡ self.old.room }
        ensures id { result ≡ length self.old.entries }
        ensures added { self.new.entries ≡ after_root self.old.entries grant payload }
        ensures others { OthersStay self.old.entries self.new.entries result }
    {
        let id = self.entries.len() as u32;
        self.entries.push_reserved(Entry {
            parent: None,
            root: id,
            grant,
            status: Status::Ready,
            left: grant,
            spent: 0,
            lent: 0,
            waiting: false,
            stirred: false,
            payload: Some(payload),
        });
        self.ready.add(id);
        self.live.add(None, true);
        self.kin.add(None);
        id
    }

    /// Takes a Ready query, which becomes Running. `None` comes exactly where no query is Ready.
    pub fn take(&mut self) -> Option<Lent<T>>
        ensures room { self.new.room ≡ self.old.room }
        ensures taken { MatchOption result ((self.new.entries ≡ self.old.entries)
            × HasNoReady self.old.entries) (λ lent. Took self.old.entries self.new.entries lent) }
        ensures out { IfSome result (λ lent. IsLent self.new.entries lent.id lent.left
            lent.waiting) }
        ensures others { IfSome result
            (λ lent. OthersStay self.old.entries self.new.entries lent.id) }
    {
        let id = edits::next_ready(&self.entries, &mut self.ready)?;
        let waiting = self.live.has_child(id);
        Some(edits::lend(&mut self.entries, id, waiting))
    }

    /// Gives a job back. `Gone` comes exactly where the query was dropped.
    pub fn give_back(&mut self, lent: Lent<T>, steps: u32, rest: Rest) -> Result<(), Gone<T>>
        requires lent { IsLent self.old.entries lent.id lent.left lent.waiting }
        requires steps { steps ≤ lent.left }
        requires rest { MayGive rest steps lent.left lent.waiting }
        ensures room { self.new.room ≡ self.old.room }
        ensures given { MatchResult result
            (λ _. Went (λ own. after_back self.old.entries own lent.id steps rest lent.payload)
            self.old.entries self.new.entries lent.id)
            (λ gone. (self.new.entries ≡ self.old.entries) × (gone.lent ≡ lent)
            × WasDropped self.old.entries lent.id gone.stamp) }
        ensures others { OthersStay self.old.entries self.new.entries lent.id }
    {
        let id = lent.id as usize;
        if let Status::Dropped { stamp } = self.entries[id].status {
            return Err(Gone { stamp, lent });
        }
        let own = &self.entries[id];
        let parent = own.parent;
        let left = own.left - steps;
        let status = edits::back_as(rest, own.stirred, left);
        edits::rest(
            &mut self.entries,
            &mut self.live,
            lent.id,
            status,
            left,
            steps,
            lent.payload,
        );
        self.ready.note_job(lent.id, parent);
        Ok(())
    }

    /// Asks, as the last of the steps: the child is added, and gets half of what is left. `Gone`
    /// comes exactly where the query was dropped.
    pub fn ask(&mut self, lent: Lent<T>, steps: u32, child: T) -> Result<QueryId, Gone<T>>
        requires lent { IsLent self.old.entries lent.id lent.left lent.waiting }
        requires one_step { 1 ≤ steps }
        requires steps { steps ≤ lent.left }
        requires room { length self.old.entries < self.old.room }
        ensures room { self.new.room ≡ self.old.room }
        ensures asked { MatchResult result
            (λ id. (id ≡ length self.old.entries)
            × Went (λ own. after_ask self.old.entries own lent.id steps lent.payload child)
            self.old.entries self.new.entries lent.id)
            (λ gone. (self.new.entries ≡ self.old.entries) × (gone.lent ≡ lent)
            × WasDropped self.old.entries lent.id gone.stamp) }
        ensures others { OthersStay self.old.entries self.new.entries lent.id }
    {
        let id = lent.id as usize;
        if let Status::Dropped { stamp } = self.entries[id].status {
            return Err(Gone { stamp, lent });
        }
        let own = &self.entries[id];
        let parent = own.parent;
        let root = own.root;
        let left = own.left - steps;
        let part = left / 2;
        let keep = left - part;
        edits::rest(
            &mut self.entries,
            &mut self.live,
            lent.id,
            edits::at_rest(keep),
            keep,
            steps,
            lent.payload,
        );
        self.ready.note_job(lent.id, parent);
        let number = self.entries.len() as u32;
        let status = edits::at_rest(part);
        self.entries.push_reserved(Entry {
            parent: Some(lent.id),
            root,
            grant: 0,
            status,
            left: part,
            spent: 0,
            lent: 0,
            waiting: false,
            stirred: false,
            payload: Some(child),
        });
        self.ready.add(number);
        self.live.add(Some(lent.id), edits::is_live(status));
        self.kin.add(Some(lent.id));
        Ok(number)
    }

    /// Closes: the open queries under the query are dropped with this stamp. `Gone` comes exactly
    /// where the query was dropped.
    pub fn close(&mut self, lent: Lent<T>, steps: u32, stamp: u64) -> Result<(), Gone<T>>
        requires lent { IsLent self.old.entries lent.id lent.left lent.waiting }
        requires steps { steps ≤ lent.left }
        ensures room { self.new.room ≡ self.old.room }
        ensures closed { MatchResult result
            (λ _. Went (λ own. after_close self.old.entries own lent.id steps lent.payload stamp)
            self.old.entries self.new.entries lent.id)
            (λ gone. (self.new.entries ≡ self.old.entries) × (gone.lent ≡ lent)
            × WasDropped self.old.entries lent.id gone.stamp) }
        ensures others { OthersStay self.old.entries self.new.entries lent.id }
    {
        if let Status::Dropped { stamp } = self.entries[lent.id as usize].status {
            return Err(Gone { stamp, lent });
        }
        let parent = self.entries[lent.id as usize].parent;
        edits::close(
            &mut self.entries,
            &mut self.live,
            &mut self.kin,
            lent.id,
            steps,
            lent.payload,
            stamp,
        );
        self.ready.note_above(parent);
        Ok(())
    }

    /// Feeds a child, as the last of the steps: it gets half of what is left unless it closed.
    /// `Gone` comes exactly where the query was dropped.
    pub fn feed(&mut self, lent: Lent<T>, steps: u32, child: QueryId) -> Result<(), Gone<T>>
        requires lent { IsLent self.old.entries lent.id lent.left lent.waiting }
        requires one_step { 1 ≤ steps }
        requires steps { steps ≤ lent.left }
        requires child { IsChild self.old.entries child lent.id }
        ensures room { self.new.room ≡ self.old.room }
        ensures fed { MatchResult result
            (λ _. Fed (λ own entry. after_feed self.old.entries own lent.id steps lent.payload child
            entry) self.old.entries self.new.entries lent.id child)
            (λ gone. (self.new.entries ≡ self.old.entries) × (gone.lent ≡ lent)
            × WasDropped self.old.entries lent.id gone.stamp) }
        ensures others { OthersStay self.old.entries self.new.entries lent.id }
    {
        let id = lent.id as usize;
        if let Status::Dropped { stamp } = self.entries[id].status {
            return Err(Gone { stamp, lent });
        }
        let own = &self.entries[id];
        let parent = own.parent;
        let left = own.left - steps;
        let part = edits::share(self.entries[child as usize].status, left);
        let keep = left - part;
        edits::rest(
            &mut self.entries,
            &mut self.live,
            lent.id,
            edits::at_rest(keep),
            keep,
            steps,
            lent.payload,
        );
        edits::feed(&mut self.entries, &mut self.live, child, part);
        self.ready.note_job(lent.id, parent);
        self.ready.note(child);
        Ok(())
    }

    /// How many queries there are. The further clauses hold of every forest: there is room for its
    /// queries, a child stands in the tree of its parent, budgets add up, nothing is left of what
    /// is Starved or ended under a parent, what is Blocked waits for a child, a tree that is not
    /// over has a query that is Ready or Running, payloads are in place, and what is open stands
    /// under what is open, and what was dropped under what closed or was dropped with its stamp.
    pub fn count(&self) -> u32
        ensures count { result ≡ length self.now.entries }
        ensures within { length self.now.entries ≤ self.now.room }
        ensures tree { IsTree self.now.entries }
        ensures budgets { IsGranted self.now.entries }
        ensures lefts { HoldsLefts self.now.entries }
        ensures waits { HasCause self.now.entries }
        ensures works { HasWork self.now.entries }
        ensures payloads { HoldsPayloads self.now.entries }
        ensures above { IsShut self.now.entries }
        ensures ended { HasEnded self.now.entries }
    {
        self.entries.len() as u32
    }

    /// Whether some query is open and not Starved.
    pub fn has_live(&self) -> bool
        ensures { result ≡ has_live self.now.entries }
    {
        self.live.has_any()
    }

    /// What the query is doing.
    pub fn status(&self, id: QueryId) -> Status
        requires { id < length self.now.entries }
        ensures { Reads self.now.entries id (λ e. result ≡ e.status) }
    {
        self.entries[id as usize].status
    }

    /// What is left of the query.
    pub fn left(&self, id: QueryId) -> u32
        requires { id < length self.now.entries }
        ensures { Reads self.now.entries id (λ e. result ≡ e.left) }
    {
        self.entries[id as usize].left
    }

    /// The steps that were kept of the query.
    pub fn spent(&self, id: QueryId) -> u32
        requires { id < length self.now.entries }
        ensures { Reads self.now.entries id (λ e. result ≡ e.spent) }
    {
        self.entries[id as usize].spent
    }

    /// Whether some child was open and not Starved at the last take.
    pub fn waiting(&self, id: QueryId) -> bool
        requires { id < length self.now.entries }
        ensures { Reads self.now.entries id (λ e. result ≡ e.waiting) }
    {
        self.entries[id as usize].waiting
    }

    /// The query that asked it.
    pub fn parent(&self, id: QueryId) -> Option<QueryId>
        requires { id < length self.now.entries }
        ensures { Reads self.now.entries id (λ e. result ≡ e.parent) }
    {
        self.entries[id as usize].parent
    }

    /// Its payload, unless that is lent.
    pub fn payload(&self, id: QueryId) -> Option<&T>
        requires { id < length self.now.entries }
        ensures { Reads self.now.entries id (λ e. option_copied result ≡ e.payload) }
    {
        self.entries[id as usize].payload.as_ref()
    }
}
