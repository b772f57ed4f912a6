//! Changes of the entries of a forest.
ghost use Rattle.std.specs.Prelude.{◌≡◌, ℕ, ◌+◌, ◌-◌, ◌^◌, ◌<◌, ◌≤◌, length, Some, None, cond, ◌==◌, slice_get, MatchOption, false, true, IsTrue, ◌↔◌};
ghost use Rattle.query_tree.specs.Takes.{HasNoReady, IsReadyAt};
ghost use Rattle.query_tree.specs.Forest.{after_take, fed_at, is_none, back_as, part};
ghost use Rattle.query_tree.specs.Forest.{changed, tally, is_open, is_live, is_starved, is_place, woken, fed, at_rest, stir, given, paid as paid_to, rest_at, after_close, has_live_child, lost_left, dropped, dropped_at};
ghost use Rattle.query_tree.specs.declared.Entry.{Entry};
ghost use Rattle.query_tree.specs.Kept.{IsTree, IsShut, IsKept};
ghost use Rattle.query_tree.specs.Kin.{Links};
ghost use Rattle.query_tree.specs.Live.{Counts};
ghost use Rattle.query_tree.specs.Ready.{Covers, CoversOthers};

use crate::children::Children;
use crate::live::LiveCounts;
use crate::ready::ReadyList;
use crate::{Entry, Lent, Rest, Status};

/// Whether a query is neither closed nor dropped.
pub fn is_open(status: Status) -> bool
    ensures { result ≡ is_open status }
{
    !matches!(status, Status::Closed | Status::Dropped { .. })
}

/// Whether a query is open and not Starved.
pub fn is_live(status: Status) -> bool
    ensures { result ≡ is_live status }
{
    matches!(status, Status::Ready | Status::Running | Status::Blocked)
}

/// Whether a query is Starved.
pub fn is_starved(status: Status) -> bool
    ensures { result ≡ is_starved status }
{
    matches!(status, Status::Starved)
}

/// The status after a child closed or became Starved.
pub fn woken(status: Status) -> Status
    ensures { result ≡ woken status }
{
    match status {
        Status::Blocked => Status::Ready,
        _ => status,
    }
}

/// The status of a query that is not at work, with this left.
pub fn at_rest(left: u32) -> Status
    ensures { result ≡ at_rest left }
{
    if left == 0 {
        Status::Starved
    } else {
        Status::Ready
    }
}

/// The status where something may have come, and this is left.
pub fn fed(left: u32, status: Status) -> Status
    ensures { result ≡ fed left status }
{
    match status {
        Status::Starved => at_rest(left),
        _ => status,
    }
}

/// A child of the query at this place closed or became Starved.
pub fn stir<T>(entries: &mut [Entry<T>], parent: Option<u32>)
    requires { (p : ℕ) → parent ≡ Some p → p < length entries.old }
    ensures { entries.new ≡ changed (λ k e. cond (is_place parent k) (stir e) e) entries.old }
{
    if let Some(p) = parent {
        let entry = &mut entries[p as usize];
        entry.status = woken(entry.status);
        entry.stirred = true;
    }
}

/// Whether the query at this place is neither closed nor dropped.
fn is_open_at<T>(entries: &[Entry<T>], id: u32) -> bool
    requires { id < length entries.now }
    ensures { (e : Entry T) → slice_get entries.now id ≡ Some e → result ≡ is_open e.status }
{
    is_open(entries[id as usize].status)
}

/// Drops a query, and answers what was left of it.
fn drop_one<T>(entries: &mut [Entry<T>], live: &mut LiveCounts, id: u32, stamp: u64) -> u32
    requires here { id < length entries.old }
    requires live { Counts entries.old live.old }
    ensures entries { entries.new ≡ changed (λ k e. cond (k == id) (dropped stamp e) e)
        entries.old }
    ensures left { (e : Entry T) → slice_get entries.old id ≡ Some e → result ≡ e.left }
    ensures live { Counts entries.new live.new }
    ensures room { live.new.room ≡ live.old.room }
{
    let entry = &mut entries[id as usize];
    let left = entry.left;
    live.settle(entry.parent, is_live(entry.status), false);
    entry.left = 0;
    entry.status = Status::Dropped { stamp };
    left
}

/// Drops each open query under the query; answers what was left of them. The walk goes from what
/// closes and from what it drops to the children.
pub fn drop_under<T>(
    entries: &mut [Entry<T>],
    live: &mut LiveCounts,
    kin: &mut Children,
    id: u32,
    stamp: u64,
) -> u32
    requires tree { IsTree entries.old }
    requires shut { IsShut entries.old }
    requires here { id < length entries.old }
    requires fits { tally (lost_left entries.old id) entries.old < 2 ^ 32 }
    requires live { Counts entries.old live.old }
    requires kin { Links entries.old kin.old }
    requires room { length entries.old ≤ kin.old.room }
    ensures entries { entries.new ≡ changed (dropped_at entries.old id stamp) entries.old }
    ensures left { result ≡ tally (lost_left entries.old id) entries.old }
    ensures live { Counts entries.new live.new }
    ensures kin { Links entries.new kin.new }
    ensures live_room { live.new.room ≡ live.old.room }
    ensures kin_room { kin.new.room ≡ kin.old.room }
{
    let mut left: u32 = 0;
    let mut at = kin.start(id);
    'walk: loop {
        if let Some(child) = at {
            at = kin.older(child);
            if is_open_at(entries, child) {
                left += drop_one(entries, live, child, stamp);
                kin.push(child);
            }
        } else if let Some(parent) = kin.pop() {
            at = kin.latest(parent);
        } else {
            return left;
        }
    }
}

/// Puts a payload back: in this status, with this left and this many more steps.
pub fn put<T: Drop>(
    entries: &mut [Entry<T>],
    live: &mut LiveCounts,
    id: u32,
    status: Status,
    left: u32,
    steps: u32,
    payload: T,
)
    requires here { id < length entries.old }
    requires fits { (own : Entry T) → slice_get entries.old id ≡ Some own →
        own.spent + steps < 2 ^ 32 }
    requires live { Counts entries.old live.old }
    ensures entries { entries.new ≡ changed (λ k e. cond (k == id)
        (given status left steps payload e) e) entries.old }
    ensures live { Counts entries.new live.new }
    ensures room { live.new.room ≡ live.old.room }
{
    let entry = &mut entries[id as usize];
    live.settle(entry.parent, is_live(entry.status), is_live(status));
    entry.status = status;
    entry.left = left;
    entry.spent += steps;
    entry.payload = Some(payload);
}

/// Pays to the parent of a query that closed.
pub fn pay<T>(entries: &mut [Entry<T>], live: &mut LiveCounts, id: u32, paid: u32)
    requires here { id < length entries.old }
    requires fits { (own : Entry T) → slice_get entries.old id ≡ Some own →
        own.left + paid < 2 ^ 32 }
    requires live { Counts entries.old live.old }
    ensures entries { entries.new ≡ changed (λ k e. cond (k == id) (paid_to paid e) e)
        entries.old }
    ensures live { Counts entries.new live.new }
    ensures room { live.new.room ≡ live.old.room }
{
    let entry = &mut entries[id as usize];
    let was = is_live(entry.status);
    entry.left += paid;
    entry.status = fed(entry.left, woken(entry.status));
    entry.stirred = true;
    live.settle(entry.parent, was, is_live(entry.status));
}

/// Gives a job back: in this status, with this left and this many more steps. A parent of what
/// becomes Starved is stirred.
pub fn rest<T: Drop>(
    entries: &mut [Entry<T>],
    live: &mut LiveCounts,
    id: u32,
    status: Status,
    left: u32,
    steps: u32,
    payload: T,
)
    requires here { id < length entries.old }
    requires fits { (own : Entry T) → slice_get entries.old id ≡ Some own →
        own.spent + steps < 2 ^ 32 }
    requires live { Counts entries.old live.old }
    ensures entries { (own : Entry T) → slice_get entries.old id ≡ Some own → entries.new
        ≡ changed (rest_at own id status left steps payload) entries.old }
    ensures live { Counts entries.new live.new }
    ensures room { live.new.room ≡ live.old.room }
{
    let entry = &mut entries[id as usize];
    let parent = entry.parent;
    live.settle(parent, is_live(entry.status), is_live(status));
    entry.status = status;
    entry.left = left;
    entry.spent += steps;
    entry.payload = Some(payload);
    if is_starved(status) {
        stir(entries, parent);
    }
}

/// Closes a query. What is left of it and of the open queries under it goes to its parent, or a
/// root keeps it.
pub fn close<T: Drop>(
    entries: &mut [Entry<T>],
    live: &mut LiveCounts,
    kin: &mut Children,
    id: u32,
    steps: u32,
    payload: T,
    stamp: u64,
)
    requires kept { IsKept entries.old }
    requires here { id < length entries.old }
    requires at_work { (own : Entry T) → slice_get entries.old id ≡ Some own →
        (own.status ≡ Status.Running) × (steps ≤ own.lent) }
    requires live { Counts entries.old live.old }
    requires kin { Links entries.old kin.old }
    requires room { length entries.old ≤ kin.old.room }
    ensures entries { (own : Entry T) → slice_get entries.old id ≡ Some own → entries.new
        ≡ after_close entries.old own id steps payload stamp }
    ensures live { Counts entries.new live.new }
    ensures kin { Links entries.new kin.new }
    ensures live_room { live.new.room ≡ live.old.room }
    ensures kin_room { kin.new.room ≡ kin.old.room }
{
    let lost = drop_under(entries, live, kin, id, stamp);
    let own = &entries[id as usize];
    let parent = own.parent;
    let purse = (own.left - steps) + lost;
    match parent {
        None => put(entries, live, id, Status::Closed, purse, steps, payload),
        Some(p) => {
            put(entries, live, id, Status::Closed, 0, steps, payload);
            pay(entries, live, p, purse);
        }
    }
}

/// A Ready query, which the list no longer need hold. Each number that is taken off the list was
/// put there by a call, so calls pay for this loop.
pub fn next_ready<T>(entries: &[Entry<T>], ready: &mut ReadyList) -> Option<u32>
    requires { Covers entries.now ready.old }
    ensures found { MatchOption result (HasNoReady entries.now × Covers entries.now ready.new)
        (λ id. IsReadyAt entries.now id × CoversOthers entries.now ready.new id) }
    ensures room { ready.new.room ≡ ready.old.room }
{
    while let Some(id) = ready.pop() {
        if is_ready(entries[id as usize].status) {
            return Some(id);
        }
    }
    None
}

/// Whether a query is Ready.
pub fn is_ready(status: Status) -> bool
    ensures { IsTrue result ↔ (status ≡ Status.Ready) }
{
    matches!(status, Status::Ready)
}

/// Lends the payload of a Ready query, which becomes Running.
pub fn lend<T: Drop>(entries: &mut [Entry<T>], id: u32, waiting: bool) -> Lent<T>
    requires here { id < length entries.old }
    requires waits { waiting ≡ has_live_child entries.old id }
    requires held { (own : Entry T) → slice_get entries.old id ≡ Some own → is_none own.payload
        ≡ false }
    ensures entries { entries.new ≡ after_take entries.old id }
    ensures lent { (own : Entry T) → slice_get entries.old id ≡ Some own
        → (result.id ≡ id) × (result.left ≡ own.left)
        × (result.waiting ≡ has_live_child entries.old id)
        × (own.payload ≡ Some result.payload) }
{
    let entry = &mut entries[id as usize];
    entry.status = Status::Running;
    entry.lent = entry.left;
    entry.waiting = waiting;
    entry.stirred = false;
    let left = entry.left;
    let Some(payload) = entry.payload.take() else {
        unreachable!()
    };
    Lent {
        id,
        left,
        waiting,
        payload,
    }
}

/// Gives to a child.
pub fn feed<T>(entries: &mut [Entry<T>], live: &mut LiveCounts, id: u32, part: u32)
    requires here { id < length entries.old }
    requires fits { (own : Entry T) → slice_get entries.old id ≡ Some own →
        own.left + part < 2 ^ 32 }
    requires live { Counts entries.old live.old }
    ensures entries { entries.new ≡ changed (fed_at id part) entries.old }
    ensures live { Counts entries.new live.new }
    ensures room { live.new.room ≡ live.old.room }
{
    let entry = &mut entries[id as usize];
    let was = is_live(entry.status);
    entry.left += part;
    entry.status = fed(entry.left, entry.status);
    live.settle(entry.parent, was, is_live(entry.status));
}

/// In which status a job is given back.
pub fn back_as(rest: Rest, stirred: bool, left: u32) -> Status
    ensures { result ≡ back_as rest stirred left }
{
    match rest {
        Rest::Ready => Status::Ready,
        Rest::Blocked => {
            if stirred {
                Status::Ready
            } else {
                Status::Blocked
            }
        }
        Rest::Starved => at_rest(left),
    }
}

/// What a child gets of what is left after the last step.
pub fn share(child: Status, left: u32) -> u32
    ensures { result ≡ cond (is_open child) (part left) 0 }
{
    if is_open(child) { left / 2 } else { 0 }
}
