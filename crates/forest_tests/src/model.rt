//! The rules of a forest in the plainest way, with no regard to time.

use crate::play::{Answer, Move, first_payload};
use query_tree::{Rest, Status};

/// `is_out` says whether its job is out, `is_lent` whether its payload is with a job or was lost
/// with one, `lent` and `waits` what the last take gave, and `is_stirred` whether a child closed or
/// became Starved since.
#[derive(Clone, Copy)]
pub struct Query {
    pub parent: Option<u32>,
    pub grant: u32,
    pub status: Status,
    pub left: u32,
    pub spent: u32,
    pub is_out: bool,
    pub is_lent: bool,
    pub lent: u32,
    pub waits: bool,
    pub is_stirred: bool,
}

/// The queries by their numbers. `room` is how many there may be.
#[derive(Drop)]
pub struct Model {
    pub queries: Vec<Query>,
    pub room: u32,
}

/// A query that was just added, with this left of it.
fn added(parent: Option<u32>, grant: u32, status: Status, left: u32) -> Query {
    Query {
        parent,
        grant,
        status,
        left,
        spent: 0,
        is_out: false,
        is_lent: false,
        lent: 0,
        waits: false,
        is_stirred: false,
    }
}

fn starved_or_ready(left: u32) -> Status {
    if left == 0 {
        Status::Starved
    } else {
        Status::Ready
    }
}

fn is_open(status: Status) -> bool {
    !matches!(status, Status::Closed | Status::Dropped { .. })
}

/// Open, and not Starved.
pub fn is_live(status: Status) -> bool {
    is_open(status) && status != Status::Starved
}

impl Model {
    pub fn count(&self) -> u32 {
        u32::try_from(self.queries.len()).unwrap_or(u32::MAX)
    }

    pub fn at(&self, id: u32) -> Option<Query> {
        self.queries.get(id as usize).copied()
    }

    /// Changes a query.
    fn set(&mut self, id: u32, query: Query) {
        if let Some(place) = self.queries.get_mut(id as usize) {
            *place = query;
        }
    }

    /// Adds a query where there is room.
    fn add(&mut self, query: Query) -> Answer {
        let number = self.count();
        match self.queries.push(query) {
            Ok(()) => Answer::Added(number),
            Err(_) => Answer::Illegal,
        }
    }

    fn is_full(&self) -> bool {
        self.count() >= self.room
    }

    /// Whether some query is Ready.
    pub fn has_ready(&self) -> bool {
        self.queries
            .iter()
            .any(|query| query.status == Status::Ready)
    }

    /// Whether some query is open and not Starved.
    pub fn has_live(&self) -> bool {
        self.queries.iter().any(|query| is_live(query.status))
    }

    /// Whether some child is open and not Starved.
    pub fn waits(&self, id: u32) -> bool {
        for query in &self.queries {
            if query.parent == Some(id) && is_live(query.status) {
                return true;
            }
        }
        false
    }

    /// The root above a query.
    pub fn root_of(&self, id: u32) -> u32 {
        let mut at = id;
        for _ in 0..self.queries.len() {
            match self.at(at) {
                Some(query) => match query.parent {
                    Some(parent) => at = parent,
                    None => return at,
                },
                None => return at,
            }
        }
        at
    }

    /// Whether a query stands somewhere under another.
    fn is_under(&self, id: u32, top: u32) -> bool {
        let mut at = id;
        for _ in 0..self.queries.len() {
            let Some(query) = self.at(at) else {
                return false;
            };
            let Some(parent) = query.parent else {
                return false;
            };
            if parent == top {
                return true;
            }
            at = parent;
        }
        false
    }

    /// A child closed or became Starved.
    fn stir(&mut self, parent: Option<u32>) {
        let Some(id) = parent else {
            return;
        };
        let Some(mut query) = self.at(id) else {
            return;
        };
        query.is_stirred = true;
        if query.status == Status::Blocked {
            query.status = Status::Ready;
        }
        self.set(id, query);
    }

    /// The job that is out of this query, with at least `steps` steps left, unless it was dropped.
    fn job(&mut self, id: u32, steps: u32) -> Result<Query, Answer> {
        let Some(mut own) = self.at(id) else {
            return Err(Answer::Illegal);
        };
        if !own.is_out || steps > own.lent {
            return Err(Answer::Illegal);
        }
        if let Status::Dropped { stamp } = own.status {
            own.is_out = false;
            self.set(id, own);
            return Err(Answer::Gone(stamp));
        }
        own.is_out = false;
        own.is_lent = false;
        own.left = own.left.saturating_sub(steps);
        own.spent = own.spent.saturating_add(steps);
        Ok(own)
    }

    /// The job is given back. A parent hears of it where the query becomes Starved.
    fn rest(&mut self, id: u32, own: Query) {
        self.set(id, own);
        if own.status == Status::Starved {
            self.stir(own.parent);
        }
    }

    fn root(&mut self, grant: u32) -> Answer {
        if self.is_full() {
            return Answer::Illegal;
        }
        self.add(added(None, grant, Status::Ready, grant))
    }

    /// The forest took this query and said what is left of it: whether it was Ready, and so much is
    /// left.
    fn took(&mut self, id: u32, left: u32) -> bool {
        let waits = self.waits(id);
        let Some(mut own) = self.at(id) else {
            return false;
        };
        if own.status != Status::Ready || own.left != left {
            return false;
        }
        own.status = Status::Running;
        own.is_out = true;
        own.is_lent = true;
        own.lent = own.left;
        own.waits = waits;
        own.is_stirred = false;
        self.set(id, own);
        true
    }

    fn park(&mut self, id: u32, steps: u32, rest: Rest) -> Answer {
        let is_legal = match self.at(id) {
            None => false,
            Some(own) => match rest {
                Rest::Ready => true,
                Rest::Blocked => own.waits,
                Rest::Starved => steps == own.lent,
            },
        };
        if !is_legal {
            return Answer::Illegal;
        }
        let mut own = match self.job(id, steps) {
            Ok(own) => own,
            Err(answer) => return answer,
        };
        own.status = match rest {
            Rest::Ready => Status::Ready,
            Rest::Blocked if own.is_stirred => Status::Ready,
            Rest::Blocked => Status::Blocked,
            Rest::Starved => starved_or_ready(own.left),
        };
        self.rest(id, own);
        Answer::Done
    }

    fn ask(&mut self, id: u32, steps: u32) -> Answer {
        if steps == 0 || self.is_full() {
            return Answer::Illegal;
        }
        let mut own = match self.job(id, steps) {
            Ok(own) => own,
            Err(answer) => return answer,
        };
        let part = own.left / 2;
        own.left = own.left.saturating_sub(part);
        own.status = starved_or_ready(own.left);
        self.rest(id, own);
        self.add(added(Some(id), 0, starved_or_ready(part), part))
    }

    fn feed(&mut self, id: u32, steps: u32, child: u32) -> Answer {
        let Some(mut fed) = self.at(child) else {
            return Answer::Illegal;
        };
        if steps == 0 || fed.parent != Some(id) {
            return Answer::Illegal;
        }
        let mut own = match self.job(id, steps) {
            Ok(own) => own,
            Err(answer) => return answer,
        };
        let part = if is_open(fed.status) { own.left / 2 } else { 0 };
        own.left = own.left.saturating_sub(part);
        own.status = starved_or_ready(own.left);
        self.rest(id, own);
        fed.left = fed.left.saturating_add(part);
        if fed.status == Status::Starved {
            fed.status = starved_or_ready(fed.left);
        }
        self.set(child, fed);
        Answer::Done
    }

    /// Drops each open query under one, and tells what was left of them.
    fn drop_under(&mut self, id: u32, stamp: u64) -> u32 {
        let mut purse: u32 = 0;
        for number in 0..self.count() {
            let Some(mut query) = self.at(number) else {
                return purse;
            };
            if is_open(query.status) && self.is_under(number, id) {
                purse = purse.saturating_add(query.left);
                query.left = 0;
                query.status = Status::Dropped { stamp };
                self.set(number, query);
            }
        }
        purse
    }

    fn close(&mut self, id: u32, steps: u32, stamp: u64) -> Answer {
        let mut own = match self.job(id, steps) {
            Ok(own) => own,
            Err(answer) => return answer,
        };
        let purse = own.left.saturating_add(self.drop_under(id, stamp));
        own.status = Status::Closed;
        own.left = if own.parent.is_none() { purse } else { 0 };
        self.set(id, own);
        if let Some(parent) = own.parent {
            self.stir(own.parent);
            self.pay(parent, purse);
        }
        Answer::Done
    }

    /// What a close gives to a parent.
    fn pay(&mut self, id: u32, purse: u32) {
        let Some(mut query) = self.at(id) else {
            return;
        };
        query.left = query.left.saturating_add(purse);
        if query.status == Status::Starved {
            query.status = starved_or_ready(query.left);
        }
        self.set(id, query);
    }

    /// Makes a move of which the forest gave this answer, and says whether that is the right one.
    pub fn agrees(&mut self, step: Move, answer: Answer) -> bool {
        let wanted = match step {
            Move::Root(grant) => self.root(grant),
            Move::Take => match answer {
                Answer::Took { id, left } => return self.took(id, left),
                _ => return answer == Answer::Empty && !self.has_ready(),
            },
            Move::Park(id, steps, rest) => self.park(id, steps, rest),
            Move::Ask(id, steps) => self.ask(id, steps),
            Move::Feed(id, steps, child) => self.feed(id, steps, child),
            Move::Close(id, steps, stamp) => self.close(id, steps, stamp),
        };
        answer == wanted
    }
}

/// The payload of a query, unless it is lent or was when the query was dropped.
pub fn payload_of(id: u32, query: Query) -> Option<u32> {
    if query.is_lent {
        None
    } else {
        Some(first_payload(id).wrapping_add(query.spent))
    }
}
