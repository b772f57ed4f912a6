//! Moves whose answers and outcomes were worked out by hand.

use crate::play::{Answer, Move};
use query_tree::{Rest, Status};

/// What a query is to be: its status, what is left of it, and the steps that were kept.
pub type Want = (Status, u32, u32);

/// Moves after the beginning, each with its answer, and what each query is then, by its number.
pub struct Case {
    pub name: &'static str,
    pub moves: &'static [(Move, Answer)],
    pub wanted: &'static [Want],
}

/// Stands for any number.
pub const ANY: u32 = u32::MAX;

/// A take gives a job of whichever query.
const SOME_JOB: Answer = Answer::Took { id: ANY, left: ANY };

/// A root with 11 steps is taken and asks with 3.
pub const ASKED: Case = Case {
    name: "a child is asked",
    moves: &[
        (Move::Root(11), Answer::Added(0)),
        (Move::Take, Answer::Took { id: 0, left: 11 }),
        (Move::Ask(0, 3), Answer::Added(1)),
    ],
    wanted: &[(Status::Ready, 4, 3), (Status::Ready, 4, 0)],
};

/// After it the root and the child are taken, in either order.
pub const BOTH_TAKEN: Case = Case {
    name: "both are taken",
    moves: &[
        (Move::Take, Answer::Took { id: ANY, left: 4 }),
        (Move::Take, Answer::Took { id: ANY, left: 4 }),
    ],
    wanted: &[(Status::Running, 4, 3), (Status::Running, 4, 0)],
};

/// Reports that come late: what a close or a child did before the job is given back.
pub const LATE: &[Case] = &[
    Case {
        name: "a close of the parent before the child is given back",
        moves: &[
            (Move::Close(0, 1, 7), Answer::Done),
            (Move::Park(1, 2, Rest::Ready), Answer::Gone(7)),
        ],
        wanted: &[(Status::Closed, 7, 4), (Status::Dropped { stamp: 7 }, 0, 0)],
    },
    Case {
        name: "a starved child is fed by its parent",
        moves: &[
            (Move::Park(0, 0, Rest::Blocked), Answer::Done),
            (Move::Park(1, 4, Rest::Starved), Answer::Done),
            (Move::Take, Answer::Took { id: 0, left: 4 }),
            (Move::Feed(0, 1, 1), Answer::Done),
        ],
        wanted: &[(Status::Ready, 2, 4), (Status::Ready, 1, 4)],
    },
    Case {
        name: "a close of the child before the parent is blocked",
        moves: &[
            (Move::Close(1, 1, 9), Answer::Done),
            (Move::Park(0, 2, Rest::Blocked), Answer::Done),
        ],
        wanted: &[(Status::Ready, 5, 5), (Status::Closed, 0, 1)],
    },
    Case {
        name: "a close of the child before the parent is starved",
        moves: &[
            (Move::Close(1, 1, 9), Answer::Done),
            (Move::Park(0, 4, Rest::Starved), Answer::Done),
        ],
        wanted: &[(Status::Ready, 3, 7), (Status::Closed, 0, 1)],
    },
    Case {
        name: "a close of the parent above a starved child",
        moves: &[
            (Move::Park(1, 4, Rest::Starved), Answer::Done),
            (Move::Close(0, 0, 5), Answer::Done),
            (Move::Take, Answer::Empty),
        ],
        wanted: &[(Status::Closed, 4, 3), (Status::Dropped { stamp: 5 }, 0, 4)],
    },
];

/// A job is given back.
pub const GIVEN_BACK: &[Case] = &[
    Case {
        name: "as ready",
        moves: &[(Move::Park(0, 1, Rest::Ready), Answer::Done)],
        wanted: &[(Status::Ready, 3, 4), (Status::Running, 4, 0)],
    },
    Case {
        name: "as blocked",
        moves: &[(Move::Park(0, 1, Rest::Blocked), Answer::Done)],
        wanted: &[(Status::Blocked, 3, 4), (Status::Running, 4, 0)],
    },
    Case {
        name: "as starved",
        moves: &[(Move::Park(0, 4, Rest::Starved), Answer::Done)],
        wanted: &[(Status::Starved, 0, 7), (Status::Running, 4, 0)],
    },
    Case {
        name: "as ready with nothing left",
        moves: &[
            (Move::Park(0, 4, Rest::Ready), Answer::Done),
            (Move::Take, Answer::Took { id: 0, left: 0 }),
        ],
        wanted: &[(Status::Running, 0, 7), (Status::Running, 4, 0)],
    },
];

/// A parent that is Blocked is woken.
pub const WAKINGS: &[Case] = &[
    Case {
        name: "by a close",
        moves: &[
            (Move::Park(0, 1, Rest::Blocked), Answer::Done),
            (Move::Close(1, 1, 9), Answer::Done),
        ],
        wanted: &[(Status::Ready, 6, 4), (Status::Closed, 0, 1)],
    },
    Case {
        name: "by a child that is given back as starved",
        moves: &[
            (Move::Park(0, 0, Rest::Blocked), Answer::Done),
            (Move::Park(1, 4, Rest::Starved), Answer::Done),
        ],
        wanted: &[(Status::Ready, 4, 3), (Status::Starved, 0, 4)],
    },
    Case {
        name: "by a child that asks with its last step",
        moves: &[
            (Move::Park(0, 0, Rest::Blocked), Answer::Done),
            (Move::Ask(1, 4), Answer::Added(2)),
        ],
        wanted: &[
            (Status::Ready, 4, 3),
            (Status::Starved, 0, 4),
            (Status::Starved, 0, 0),
        ],
    },
    Case {
        name: "by a child that became starved before",
        moves: &[
            (Move::Park(1, 4, Rest::Starved), Answer::Done),
            (Move::Park(0, 0, Rest::Blocked), Answer::Done),
        ],
        wanted: &[(Status::Ready, 4, 3), (Status::Starved, 0, 4)],
    },
    Case {
        name: "not by a child that is ready",
        moves: &[
            (Move::Park(0, 0, Rest::Blocked), Answer::Done),
            (Move::Park(1, 1, Rest::Ready), Answer::Done),
        ],
        wanted: &[(Status::Blocked, 4, 3), (Status::Ready, 3, 1)],
    },
];

/// A take gives a job, or none.
pub const TAKES: &[Case] = &[
    Case {
        name: "none where both are out",
        moves: &[(Move::Take, Answer::Empty)],
        wanted: &[(Status::Running, 4, 3), (Status::Running, 4, 0)],
    },
    Case {
        name: "the one that is ready",
        moves: &[
            (Move::Park(0, 0, Rest::Blocked), Answer::Done),
            (Move::Park(1, 4, Rest::Starved), Answer::Done),
            (Move::Take, Answer::Took { id: 0, left: 4 }),
            (Move::Take, Answer::Empty),
        ],
        wanted: &[(Status::Running, 4, 3), (Status::Starved, 0, 4)],
    },
    Case {
        name: "roots that are added",
        moves: &[
            (Move::Root(2), Answer::Added(2)),
            (Move::Take, Answer::Took { id: 2, left: 2 }),
            (Move::Root(0), Answer::Added(3)),
            (Move::Take, Answer::Took { id: 3, left: 0 }),
            (Move::Take, Answer::Empty),
        ],
        wanted: &[
            (Status::Running, 4, 3),
            (Status::Running, 4, 0),
            (Status::Running, 2, 0),
            (Status::Running, 0, 0),
        ],
    },
];

/// A child is asked.
pub const ASKS: &[Case] = &[
    Case {
        name: "behind one step",
        moves: &[(Move::Ask(0, 1), Answer::Added(2))],
        wanted: &[
            (Status::Ready, 2, 4),
            (Status::Running, 4, 0),
            (Status::Ready, 1, 0),
        ],
    },
    Case {
        name: "behind two steps",
        moves: &[(Move::Ask(0, 2), Answer::Added(2))],
        wanted: &[
            (Status::Ready, 1, 5),
            (Status::Running, 4, 0),
            (Status::Ready, 1, 0),
        ],
    },
    Case {
        name: "behind the last step but one",
        moves: &[(Move::Ask(0, 3), Answer::Added(2))],
        wanted: &[
            (Status::Ready, 1, 6),
            (Status::Running, 4, 0),
            (Status::Starved, 0, 0),
        ],
    },
    Case {
        name: "behind the last step",
        moves: &[(Move::Ask(0, 4), Answer::Added(2))],
        wanted: &[
            (Status::Starved, 0, 7),
            (Status::Running, 4, 0),
            (Status::Starved, 0, 0),
        ],
    },
    Case {
        name: "with what a close paid",
        moves: &[
            (Move::Close(1, 0, 9), Answer::Done),
            (Move::Ask(0, 1), Answer::Added(2)),
        ],
        wanted: &[
            (Status::Ready, 4, 4),
            (Status::Closed, 0, 0),
            (Status::Ready, 3, 0),
        ],
    },
];

/// A child is fed.
pub const FEEDS: &[Case] = &[
    Case {
        name: "with one step left",
        moves: &[
            (Move::Park(1, 4, Rest::Starved), Answer::Done),
            (Move::Feed(0, 3, 1), Answer::Done),
        ],
        wanted: &[(Status::Ready, 1, 6), (Status::Starved, 0, 4)],
    },
    Case {
        name: "one that closed",
        moves: &[
            (Move::Close(1, 1, 9), Answer::Done),
            (Move::Feed(0, 1, 1), Answer::Done),
        ],
        wanted: &[(Status::Ready, 6, 4), (Status::Closed, 0, 1)],
    },
    Case {
        name: "one that is out",
        moves: &[
            (Move::Feed(0, 1, 1), Answer::Done),
            (Move::Park(1, 4, Rest::Starved), Answer::Done),
        ],
        wanted: &[(Status::Ready, 2, 4), (Status::Ready, 1, 4)],
    },
    Case {
        name: "with nothing left",
        moves: &[(Move::Feed(0, 4, 1), Answer::Done)],
        wanted: &[(Status::Starved, 0, 7), (Status::Running, 4, 0)],
    },
];

/// A child or a root is closed.
pub const CLOSES: &[Case] = &[
    Case {
        name: "under a starved parent",
        moves: &[
            (Move::Park(0, 4, Rest::Starved), Answer::Done),
            (Move::Close(1, 2, 9), Answer::Done),
        ],
        wanted: &[(Status::Ready, 2, 7), (Status::Closed, 0, 2)],
    },
    Case {
        name: "under a starved parent with nothing left",
        moves: &[
            (Move::Park(0, 4, Rest::Starved), Answer::Done),
            (Move::Close(1, 4, 9), Answer::Done),
        ],
        wanted: &[(Status::Starved, 0, 7), (Status::Closed, 0, 4)],
    },
    Case {
        name: "beside another root",
        moves: &[
            (Move::Root(5), Answer::Added(2)),
            (Move::Close(0, 4, 1), Answer::Done),
        ],
        wanted: &[
            (Status::Closed, 4, 7),
            (Status::Dropped { stamp: 1 }, 0, 0),
            (Status::Ready, 5, 0),
        ],
    },
];

/// What stands under a query that closes is dropped.
pub const DROPS: &[Case] = &[
    Case {
        name: "a child and its child",
        moves: &[
            (Move::Ask(1, 1), Answer::Added(2)),
            (Move::Close(0, 0, 3), Answer::Done),
        ],
        wanted: &[
            (Status::Closed, 7, 3),
            (Status::Dropped { stamp: 3 }, 0, 1),
            (Status::Dropped { stamp: 3 }, 0, 0),
        ],
    },
    Case {
        name: "a child that is out",
        moves: &[
            (Move::Ask(1, 1), Answer::Added(2)),
            (Move::Take, SOME_JOB),
            (Move::Take, SOME_JOB),
            (Move::Close(1, 0, 4), Answer::Done),
            (Move::Park(2, 0, Rest::Ready), Answer::Gone(4)),
            (Move::Park(0, 4, Rest::Ready), Answer::Done),
        ],
        wanted: &[
            (Status::Ready, 3, 7),
            (Status::Closed, 0, 1),
            (Status::Dropped { stamp: 4 }, 0, 0),
        ],
    },
    Case {
        name: "none that closed",
        moves: &[
            (Move::Close(1, 1, 2), Answer::Done),
            (Move::Close(0, 0, 8), Answer::Done),
        ],
        wanted: &[(Status::Closed, 7, 3), (Status::Closed, 0, 1)],
    },
    Case {
        name: "none that was dropped",
        moves: &[
            (Move::Ask(1, 1), Answer::Added(2)),
            (Move::Take, SOME_JOB),
            (Move::Take, SOME_JOB),
            (Move::Close(1, 0, 4), Answer::Done),
            (Move::Close(0, 0, 8), Answer::Done),
        ],
        wanted: &[
            (Status::Closed, 7, 3),
            (Status::Closed, 0, 1),
            (Status::Dropped { stamp: 4 }, 0, 0),
        ],
    },
];

/// A query was dropped whose job is given back.
pub const GONE: &[Case] = &[
    Case {
        name: "a feed and an ask",
        moves: &[
            (Move::Ask(1, 1), Answer::Added(2)),
            (Move::Take, SOME_JOB),
            (Move::Take, SOME_JOB),
            (Move::Close(0, 1, 6), Answer::Done),
            (Move::Feed(1, 1, 2), Answer::Gone(6)),
            (Move::Ask(2, 1), Answer::Gone(6)),
        ],
        wanted: &[
            (Status::Closed, 6, 4),
            (Status::Dropped { stamp: 6 }, 0, 1),
            (Status::Dropped { stamp: 6 }, 0, 0),
        ],
    },
    Case {
        name: "a close",
        moves: &[
            (Move::Close(0, 0, 8), Answer::Done),
            (Move::Close(1, 0, 9), Answer::Gone(8)),
        ],
        wanted: &[(Status::Closed, 8, 3), (Status::Dropped { stamp: 8 }, 0, 0)],
    },
    Case {
        name: "a job given back as starved",
        moves: &[
            (Move::Close(0, 0, 8), Answer::Done),
            (Move::Park(1, 4, Rest::Starved), Answer::Gone(8)),
        ],
        wanted: &[(Status::Closed, 8, 3), (Status::Dropped { stamp: 8 }, 0, 0)],
    },
];
