//! The table of summaries.

ghost use Rattle.std.specs.Prelude.{◌≡◌, ◌≤◌, ◌<◌, ◌++◌, ◌∷◌, [], suc, Some, length, map, slice_get, IfOk, OnOk};
ghost use Rattle.summary_form.specs.Answering.{Answers};
ghost use Rattle.summary_form.specs.declared.summary.Summary.{Summary as ASummary};
ghost use Rattle.summary_table.specs.Tables.{IsBegun, IsNextFrom, IsNumbered, StartsWith, exit_of, proc_of};
ghost use Rattle.summary_table.specs.Asked.{IsTableAnswer, AnswersAt, NoneAnswers, IfAnswered, IfUnanswered};

use crate::answer::Answer;
use crate::asking::{Asked, ask};
use crate::keys::{KEYS, is_numbered, key_of, key_of_summary};
use c_tree::tree::ProcId;
use linear_formula::error::OutOfMemory;
use std::alloc::Global;
use std::marker::Model;
use std::sync::Arc;
use summary_form::query::{ExitKind, Query};
use summary_form::summary::Summary;

/// Summaries in the order in which they came, with room for a given number. None is taken away.
/// Those of one procedure and exit kind are linked, so that none else is looked at for them.
#[derive(Drop)]
pub struct Table {
    room: u32,
    summaries: Vec<Arc<Summary>>,
    /// By key the first place and the last one.
    first: Vec<Option<u32>>,
    last: Vec<Option<u32>>,
    /// By place the next one with its key.
    next: Vec<Option<u32>>,
}

impl Model for Table {
    ghost use Rattle.std.specs.Prelude.{◌≤◌, ◌<◌, ◌^◌, map, vec_len};
    ghost use Rattle.std.specs.Vec.{vec_capacity};
    ghost use Rattle.summary_table.specs.Tables.{Listed};
    ghost use Rattle.summary_table.specs.steps.Chains.{AreChained};

    ghost Value = { Listed };

    ghost view = { λ t. record {
      room = t.room;
      summaries = map (λ s. s.value) t.summaries.items;
    } };

    ghost invariant = { λ t.
        (vec_len t.summaries ≤ t.room) × (t.room ≤ vec_capacity t.summaries) × (t.room < 2 ^ 32)
        × (t.room ≤ vec_capacity t.next)
        × AreChained (map (λ s. s.value) t.summaries.items) t.first.items t.last.items
        t.next.items };
}

impl Table {
    /// No summary, and room for the given number. The only call that takes memory for the lists.
    pub fn with_room(alloc: Global, room: u32) -> Result<Table, OutOfMemory>
        ensures { IfOk result (λ t. IsBegun room t) }
    {
        Ok(Table {
            room,
            summaries: Vec::with_capacity(alloc, room as usize)?,
            first: vec![in alloc; None; KEYS]?,
            last: vec![in alloc; None; KEYS]?,
            next: Vec::with_capacity(alloc, room as usize)?,
        })
    }

    /// For how many summaries there is room in all.
    pub fn room(&self) -> u32
        ensures room { result ≡ self.now.room }
        ensures within { length self.now.summaries ≤ self.now.room }
    {
        self.room
    }

    /// Adds a summary after the others.
    pub fn push(&mut self, summary: Arc<Summary>)
        requires room { length self.old.summaries < self.old.room }
        requires numbers { IsNumbered (proc_of summary.value) (exit_of summary.value) }
        ensures room { self.new.room ≡ self.old.room }
        ensures summaries { self.new.summaries ≡ self.old.summaries ++ summary.value ∷ [] }
    {
        let key = key_of_summary(&summary);
        let place = self.summaries.len() as u32;
        match self.last[key] {
            None => self.first[key] = Some(place),
            Some(before) => self.next[before as usize] = Some(place),
        }
        self.last[key] = Some(place);
        self.next.push_reserved(None);
        self.summaries.push_reserved(summary);
    }

    /// Adds the summaries that the other table has and this one hasn't. Once memory runs out this
    /// one is still a prefix of the other.
    pub fn catch_up(&mut self, from: &Table) -> Result<(), OutOfMemory>
        requires front { StartsWith from.now.summaries self.old.summaries }
        requires room { length from.now.summaries ≤ self.old.room }
        ensures room { self.new.room ≡ self.old.room }
        ensures same { OnOk result (self.new.summaries ≡ from.now.summaries) }
        ensures front { StartsWith from.now.summaries self.new.summaries }
        ensures kept { StartsWith self.new.summaries self.old.summaries }
    {
        let known = self.summaries.len();
        for summary in &from.summaries[known..] {
            self.push(summary.clone()?);
        }
        Ok(())
    }

    /// The summaries in order.
    pub fn all(&self) -> &[Arc<Summary>]
        ensures { map (λ s. s.value) result.now ≡ self.now.summaries }
    {
        self.summaries.as_slice()
    }

    /// The first place with a summary of this procedure and exit kind.
    pub fn first_of(&self, proc: ProcId, exit: &ExitKind) -> Option<u32>
        requires numbers { IsNumbered proc exit.now }
        ensures { IsNextFrom self.now.summaries proc exit.now 0 result }
    {
        self.first[key_of(proc, *exit)]
    }

    /// The next place after this one with a summary of its procedure and exit kind.
    pub fn next_of(&self, place: u32) -> Option<u32>
        requires { place < length self.now.summaries }
        ensures { (s : ASummary) → slice_get self.now.summaries place ≡ Some s →
            IsNextFrom self.now.summaries (proc_of s) (exit_of s) (suc place) result }
    {
        self.next[place as usize]
    }

    /// The first place from this one on with a summary of this procedure and exit kind. Beyond the
    /// limits there is none.
    pub fn next_from(&self, proc: ProcId, exit: &ExitKind, from: u32) -> Option<u32>
        ensures { IsNextFrom self.now.summaries proc exit.now from result }
    {
        // (This shows that the summaries of a table are numbered.)
        let _ = &self.summaries;
        if !is_numbered(proc, *exit) {
            return None;
        }
        let mut at = self.first_of(proc, exit);
        while let Some(place) = at {
            if from <= place {
                return Some(place);
            }
            at = self.next_of(place);
        }
        None
    }

    /// Asks each summary of the query's procedure and exit in order, until one answers.
    pub fn answer(&self, alloc: Global, query: &Query) -> Result<Answer, OutOfMemory>
        // By the questions to the solver, each with its proof or its limit.
        ensures table { IfOk result (λ a. IsTableAnswer query.now self.now.summaries a) }
        // In the words of summaries.
        ensures answers { IfOk result
            (λ a. IfAnswered a (λ place. AnswersAt query.now self.now.summaries place)) }
        ensures none { IfOk result
            (λ a. IfUnanswered a (NoneAnswers query.now self.now.summaries)) }
    {
        let rows = query.start.and(alloc, &query.end)?;
        let mut limit = None;
        let mut at = self.next_from(query.proc, &query.exit, 0);
        while let Some(place) = at {
            match ask(alloc, query, &rows, &self.summaries[place as usize])? {
                Asked::Answers(proof) => return Ok(Answer::Yes { place, proof }),
                Asked::Not => {}
                Asked::Limit(kept) => limit = limit.or(Some(kept)),
            }
            at = self.next_of(place);
        }
        match limit {
            Some(kept) => Ok(Answer::Limit(kept)),
            None => Ok(Answer::None),
        }
    }
}
