//! Random lists of moves, each of which is made of a forest and of the model.

ghost use Rattle.std.specs.Prelude.{◌<◌, length};

use crate::model::{Model, is_live, payload_of};
use crate::play::{Answer, Move, Play};
use query_tree::{Rest, Status};
use std::alloc::{AllocError, Global};
use std::test::*;

/// How many queries a forest has room for, how many moves are made of one, and of how many.
const ROOM: u32 = 24;

const MOVES: u32 = 80;

const FORESTS: u64 = 3_000;

/// A linear congruential generator.
#[derive(Drop)]
struct Random {
    state: u64,
}

impl Random {
    fn below(&mut self, limit: u32) -> u32
        requires { 0 < limit }
    {
        self.state = self
            .state
            .wrapping_mul(6_364_136_223_846_793_005)
            .wrapping_add(1_442_695_040_888_963_407);
        ((self.state >> 33) % u64::from(limit)) as u32
    }
}

/// How often each answer came.
#[derive(Clone, Copy)]
struct Seen {
    added: u32,
    took: u32,
    empty: u32,
    done: u32,
    gone: u32,
    illegal: u32,
}

impl Seen {
    fn count(&mut self, answer: Answer) {
        let place = match answer {
            Answer::Added(_) => &mut self.added,
            Answer::Took { .. } => &mut self.took,
            Answer::Empty => &mut self.empty,
            Answer::Done => &mut self.done,
            Answer::Gone(_) => &mut self.gone,
            Answer::Illegal => &mut self.illegal,
        };
        *place = place.saturating_add(1);
    }

    /// Whether each came a thousand times.
    fn is_ample(&self) -> bool {
        let seen = [
            self.added,
            self.took,
            self.empty,
            self.done,
            self.gone,
            self.illegal,
        ];
        seen.iter().all(|times| *times >= 1_000)
    }
}

/// A query whose job is out, if there is one.
fn some_job(random: &mut Random, model: &Model) -> Option<u32> {
    let start = random.below(ROOM);
    for more in 0..ROOM {
        let id = start.wrapping_add(more) % ROOM;
        if let Some(query) = model.at(id)
            && query.is_out
        {
            return Some(id);
        }
    }
    None
}

/// A child of the query, or the query itself if it has none.
fn some_child(random: &mut Random, model: &Model, id: u32) -> u32 {
    let start = random.below(ROOM);
    for more in 0..ROOM {
        let child = start.wrapping_add(more) % ROOM;
        if let Some(query) = model.at(child)
            && query.parent == Some(id)
        {
            return child;
        }
    }
    id
}

/// Some of the steps that are left of a job, or now and then one too many.
fn some_steps(random: &mut Random, lent: u32) -> u32 {
    match random.below(8) {
        0 => lent,
        1 => lent.saturating_add(1),
        2 if lent > 0 => random.below(lent),
        _ => lent.min(1),
    }
}

fn next_move(random: &mut Random, model: &Model, stamp: u64) -> Move {
    let kind = random.below(24);
    let grant = random.below(400);
    let has_ready = model.has_ready();
    let Some(id) = some_job(random, model) else {
        return if has_ready {
            Move::Take
        } else {
            Move::Root(grant)
        };
    };
    let Some(own) = model.at(id) else {
        return Move::Take;
    };
    let steps = some_steps(random, own.lent);
    match kind {
        0 => Move::Root(grant),
        1 => Move::Take,
        2..9 if has_ready => Move::Take,
        9 => Move::Park(id, steps, Rest::Ready),
        10 | 11 => Move::Park(id, steps, Rest::Blocked),
        12 => Move::Park(id, own.lent, Rest::Starved),
        13 | 14 => Move::Feed(id, steps, some_child(random, model, id)),
        15 | 16 => Move::Close(id, steps, stamp),
        _ => Move::Ask(id, steps),
    }
}

fn is_same(play: &Play, model: &Model, id: u32) -> bool
    requires { id < length play.now.forest.entries }
{
    let Some(query) = model.at(id) else {
        return false;
    };
    play.forest.status(id) == query.status
        && play.forest.left(id) == query.left
        && play.forest.spent(id) == query.spent
        && play.forest.parent(id) == query.parent
        && play.forest.waiting(id) == query.waits
        && play.forest.payload(id).copied() == payload_of(id, query)
        && (query.status != Status::Blocked || model.waits(id))
}

/// Whether all that can be read of the queries is what the model has, and each Blocked one has a
/// child that is open and not Starved.
fn are_same(play: &Play, model: &Model) -> bool {
    for id in 0..play.forest.count() {
        if !is_same(play, model, id) {
            return false;
        }
    }
    play.forest.count() == model.count() && play.forest.has_live() == model.has_live()
}

/// What is left in the tree of a root, and what is spent.
fn sum_of(play: &Play, model: &Model, root: u32) -> u64 {
    let mut sum: u64 = 0;
    for id in 0..play.forest.count() {
        if model.root_of(id) == root {
            sum = sum
                .wrapping_add(u64::from(play.forest.left(id)))
                .wrapping_add(u64::from(play.forest.spent(id)));
        }
    }
    sum
}

/// Whether some query of the tree is Ready or Running, or else all that is open in it is Starved.
fn is_over_or_works(model: &Model, root: u32) -> bool {
    let mut has_live = false;
    for id in 0..model.count() {
        if let Some(query) = model.at(id)
            && model.root_of(id) == root
        {
            if matches!(query.status, Status::Ready | Status::Running) {
                return true;
            }
            has_live = has_live || is_live(query.status);
        }
    }
    !has_live
}

/// Whether the sum of each root's tree is its grant, and each tree that is not over has work.
fn add_up(play: &Play, model: &Model) -> bool {
    for id in 0..model.count() {
        if let Some(query) = model.at(id)
            && query.parent.is_none()
        {
            let adds_up = sum_of(play, model, id) == u64::from(query.grant);
            if !adds_up || !is_over_or_works(model, id) {
                return false;
            }
        }
    }
    true
}

/// Makes moves of a forest and of the model, and says at which one they first differ.
fn first_wrong(alloc: Global, seed: u64, seen: &mut Seen) -> Result<Option<u32>, AllocError> {
    let mut play = Play::of(alloc, ROOM)?;
    let mut model = Model {
        queries: Vec::new(alloc),
        room: ROOM,
    };
    let mut random = Random { state: seed };
    for turn in 0..MOVES {
        let step = next_move(&mut random, &model, u64::from(turn));
        let answer = play.make(step);
        seen.count(answer);
        let agrees = model.agrees(step, answer) && are_same(&play, &model);
        if !agrees || !add_up(&play, &model) {
            return Ok(Some(turn));
        }
    }
    Ok(None)
}

#[test]
fn plays_by_the_rules(rt: HostRuntime) -> Result<(), Fail> {
    let mut seen = Seen {
        added: 0,
        took: 0,
        empty: 0,
        done: 0,
        gone: 0,
        illegal: 0,
    };
    for seed in 0..FORESTS {
        let wrong = first_wrong(rt.alloc(), seed, &mut seen)?;
        assert_eq!(rt; wrong, None, "the move of forest {seed}");
    }
    let is_ample = seen.is_ample();
    assert!(rt; is_ample);
    Ok(())
}
