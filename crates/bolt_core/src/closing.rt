//! Queries that are closed, and what is published of them.

ghost use Rattle.std.specs.Prelude.{◌≡◌, ℕ, suc, ◌<◌, ◌≤◌, ◌^◌, ◌++◌, List, [], ◌∷◌, length, map, Some, false, slice_get, vec_capacity, IfOk, MatchResult};
ghost use Rattle.std.specs.Option.{option_map};
ghost use Rattle.query_tree.specs.Forest.{changed, is_place};
ghost use Rattle.bolt_core.specs.Boards.{HandsIn, IsClosedBy, IsGone, IsStored, MayBeClosed, SameProgram, node_of};
ghost use Rattle.bolt_core.specs.Groups.{group, leans_within};
ghost use Rattle.bolt_core.specs.Keeps.{IsNow};
ghost use Rattle.bolt_core.specs.Origins.{closed_ids};
ghost use Rattle.bolt_core.specs.declared.slot.Slot.{Slot as ASlot};
ghost use Rattle.bolt_core.specs.steps.Closes.{IsGroupOf, MayBeAdded, Settles, appended_by, closed_as, done, is_below, joins_now, kept_slot, members_on, only_at, settled_slot, shown_slot, summaries_in, told_of, value_of};

use crate::board::Board;
use crate::event::Event;
use crate::job::{Gone, Job};
use crate::slot::{ClosedAs, Slot};
use query_rules::step::Closing;
use query_tree::{Lent, QueryId};
use std::sync::Arc;
use summary_form::summary::Summary;
use summary_table::table::Table;

/// As what a query of this level is closed: a leaning on its own level is discharged.
fn closed_as(level: u32, lowest: Option<u32>, how: &Closing) -> ClosedAs
    ensures { result ≡ closed_as level lowest how.now }
{
    match how {
        Closing::NotMay => ClosedAs::NotMay {
            lowest: lowest.filter(|lowest| *lowest != level),
        },
        Closing::Must(_) => ClosedAs::Must,
        Closing::Stuck(kind) => ClosedAs::Stuck(*kind),
    }
}

/// The query is closed so; what was handed in is kept until it is published.
fn keep(slots: &mut [Slot], id: QueryId, how: ClosedAs, summary: Option<Arc<Summary>>)
    requires { id < length slots.old }
    ensures { slots.new ≡ changed (only_at id (kept_slot how summary)) slots.old }
{
    let slot = &mut slots[id as usize];
    slot.closed = Some(how);
    slot.summary = summary;
}

/// The summary goes into the table, if there is one.
fn add(table: &mut Table, summary: Option<Arc<Summary>>)
    requires room { length table.old.summaries < table.old.room }
    requires numbers { MayBeAdded (value_of summary) }
    ensures room { table.new.room ≡ table.old.room }
    ensures table { table.new.summaries
        ≡ table.old.summaries ++ summaries_in (value_of summary) }
{
    if let Some(summary) = summary {
        table.push(summary);
    }
}

/// The summary of the query goes into the table, and its number after the origins.
fn show(slots: &mut [Slot], table: &mut Table, origins: &mut Vec<QueryId>, id: QueryId, place: u64)
    requires here { id < length slots.old }
    requires room { length table.old.summaries < table.old.room }
    requires numbers { (s : ASlot) → slice_get slots.old id ≡ Some s →
        MayBeAdded (value_of s.summary) }
    requires space { length origins.old.items < vec_capacity origins.old }
    ensures slots { slots.new ≡ changed (only_at id (shown_slot place)) slots.old }
    ensures room { table.new.room ≡ table.old.room }
    ensures table { (s : ASlot) → slice_get slots.old id ≡ Some s → table.new.summaries
        ≡ table.old.summaries ++ summaries_in (value_of s.summary) }
    ensures space { vec_capacity origins.new ≡ vec_capacity origins.old }
    ensures origins { origins.new.items ≡ origins.old.items ++ id ∷ [] }
{
    let slot = &mut slots[id as usize];
    slot.published = Some(place);
    let summary = slot.summary.take();
    add(table, summary);
    origins.push_reserved(id);
}

/// Whether the query is published at this place.
fn is_shown(slot: &Slot, place: u64) -> bool
    ensures { result ≡ is_place slot.now.published place }
{
    match slot.published {
        Some(own) => place == own,
        None => false,
    }
}

/// Whether it is a not-may that leans on this level, or on a deeper one.
fn leans(closed: Option<ClosedAs>, level: u32) -> bool
    ensures { result ≡ leans_within level closed }
{
    match closed {
        Some(ClosedAs::NotMay { lowest }) => match lowest {
            Some(lowest) => level <= lowest,
            None => false,
        },
        Some(ClosedAs::Must | ClosedAs::Stuck(_)) | None => false,
    }
}

/// Whether the parent is published at this place.
fn is_below(slots: &[Slot], parent: Option<QueryId>, place: u64) -> bool
    requires { (p : ℕ) → parent ≡ Some p → p < length slots.now }
    ensures { result ≡ is_below slots.now place parent }
{
    match parent {
        Some(parent) => is_shown(&slots[parent as usize], place),
        None => false,
    }
}

/// Whether the query, which is to be of level `at`, joins the group whose leader, of this level, is
/// published at this place: it closed as a not-may, isn't published, leans on the leader's level or
/// on a deeper one, and its parent is published at this place.
fn joins(slots: &[Slot], id: QueryId, level: u32, at: u32, place: u64) -> bool
    requires here { id < length slots.now }
    requires above { (s : ASlot) (p : ℕ) → slice_get slots.now id ≡ Some s → s.parent ≡ Some p →
        p < length slots.now }
    ensures { (s : ASlot) → slice_get slots.now id ≡ Some s →
        result ≡ joins_now slots.now level at place s }
{
    let slot = &slots[id as usize];
    slot.level == at
        && (slot.published.is_none()
            && (leans(slot.closed, level) && is_below(slots, slot.parent, place)))
}

/// The members of the group at one level go into the table, in order of number; whether there are
/// any.
fn show_level(
    slots: &mut [Slot],
    table: &mut Table,
    origins: &mut Vec<QueryId>,
    lead: QueryId,
    level: u32,
    at: u32,
    place: u64,
) -> bool
    ghost base: { List ASlot }
    requires group { IsGroupOf base lead level place }
    requires deeper { level < at }
    requires few { length base < 2 ^ 32 }
    requires slots { slots.old ≡ done base lead level at 0 place }
    requires room { length (table.old.summaries
        ++ told_of (map node_of base) (members_on (map node_of base) lead level at))
        ≤ table.old.room }
    requires space { length (origins.old.items ++ members_on (map node_of base) lead level at)
        ≤ vec_capacity origins.old }
    ensures slots { slots.new ≡ done base lead level at (length base) place }
    ensures room { table.new.room ≡ table.old.room }
    ensures table { table.new.summaries ≡ table.old.summaries
        ++ told_of (map node_of base) (members_on (map node_of base) lead level at) }
    ensures space { vec_capacity origins.new ≡ vec_capacity origins.old }
    ensures origins { origins.new.items
        ≡ origins.old.items ++ members_on (map node_of base) lead level at }
    ensures none { result ≡ false → members_on (map node_of base) lead level at ≡ [] }
{
    let mut any = false;
    for id in lead + 1..slots.len() as u32 {
        if joins(slots, id, level, at, place) {
            show(slots, table, origins, id, place);
            any = true;
        }
    }
    any
}

/// The group of the leader goes into the table, in order of level: where one level has no member,
/// no deeper one has.
fn show_group(
    slots: &mut [Slot],
    table: &mut Table,
    origins: &mut Vec<QueryId>,
    lead: QueryId,
    level: u32,
    place: u64,
)
    ghost base: { List ASlot }
    requires group { IsGroupOf base lead level place }
    requires few { length base < 2 ^ 32 }
    requires slots { slots.old ≡ done base lead level (suc level) 0 place }
    requires room { length (table.old.summaries
        ++ told_of (map node_of base) (group (map node_of base) lead level)) ≤ table.old.room }
    requires space { length (origins.old.items ++ group (map node_of base) lead level)
        ≤ vec_capacity origins.old }
    ensures slots { slots.new ≡ done base lead level (length base) 0 place }
    ensures room { table.new.room ≡ table.old.room }
    ensures table { table.new.summaries ≡ table.old.summaries
        ++ told_of (map node_of base) (group (map node_of base) lead level) }
    ensures space { vec_capacity origins.new ≡ vec_capacity origins.old }
    ensures origins { origins.new.items
        ≡ origins.old.items ++ group (map node_of base) lead level }
{
    for at in level + 1..slots.len() as u32 {
        if !show_level(slots, table, origins, lead, level, at, place) {
            return;
        }
    }
}

/// What a close makes of the query's slot, of its group, of the table and of the origins.
fn settle(
    slots: &mut [Slot],
    table: &mut Table,
    origins: &mut Vec<QueryId>,
    id: QueryId,
    level: u32,
    how: ClosedAs,
    summary: Option<Arc<Summary>>,
    place: u64,
)
    ghost base: { List ASlot }
    requires group { IsGroupOf base id level place }
    requires few { length base < 2 ^ 32 }
    requires slots { slots.old ≡ base }
    requires settles { Settles base id level how (value_of summary) table.old.summaries
        table.old.room }
    requires space { length (origins.old.items ++ closed_ids (map node_of base) id level how)
        ≤ vec_capacity origins.old }
    ensures slots { slots.new
        ≡ changed (settled_slot (map node_of base) id level how summary place) base }
    ensures room { table.new.room ≡ table.old.room }
    ensures table { (own : ASlot) → slice_get base id ≡ Some own → table.new.summaries
        ≡ table.old.summaries
        ++ appended_by (map node_of base) id level own.query.value how (value_of summary) }
    ensures space { vec_capacity origins.new ≡ vec_capacity origins.old }
    ensures origins { origins.new.items
        ≡ origins.old.items ++ closed_ids (map node_of base) id level how }
{
    keep(slots, id, how, summary);
    match how {
        ClosedAs::NotMay { lowest } => match lowest {
            None => {
                show(slots, table, origins, id, place);
                show_group(slots, table, origins, id, level, place);
            }
            Some(_) => {}
        },
        ClosedAs::Must => show(slots, table, origins, id, place),
        ClosedAs::Stuck(_) => {}
    }
}

impl Board {
    /// Closes the query. `summary` is the not-may of its query, or the must of the path, and none
    /// of a query that was given up. A must is published, and a not-may that leans on nothing, with
    /// its group.
    pub fn close(
        &mut self,
        worker: u32,
        job: Job,
        how: Closing,
        summary: Option<Arc<Summary>>,
    ) -> Result<(), Gone>
        requires job { MayBeClosed self.old job how }
        requires summary { HandsIn job.state.query how (option_map (λ a. a.value) summary) }
        ensures same { SameProgram self.old self.new }
        ensures closed { MatchResult result (λ _. IsClosedBy self.old worker job how self.new)
            (λ gone. IsGone self.old self.new job gone) }
        ensures stored { IfOk result (λ _. IsStored self.new job.id job.state) }
        ensures current { IfOk result (λ _. IsNow self.old.core job.id job.taken) }
    {
        if let Some(event) = self.ended(job.id, job.taken) {
            return Err(Gone { event, job });
        }
        let Job {
            id,
            left,
            spent,
            state,
            ..
        } = job;
        let level = self.slots[id as usize].level;
        let closed = closed_as(level, state.lowest(), &how);
        let place = self.events.len() as u64;
        let from = self.table.all().len() as u32;
        let lent = Lent {
            id,
            left,
            waiting: self.forest.waiting(id),
            payload: state,
        };
        let Ok(()) = self.forest.close(lent, spent, place) else {
            unreachable!();
        };
        settle(
            &mut self.slots,
            &mut self.table,
            &mut self.origins,
            id,
            level,
            closed,
            summary,
            place,
        );
        let more = self.table.all().len() as u32 - from;
        self.events.push_reserved(Event::Close {
            worker,
            id,
            spent,
            how: closed,
            from,
            more,
        });
        Ok(())
    }
}
