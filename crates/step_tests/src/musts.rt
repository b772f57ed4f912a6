//! What musts say at a call: the trail is carried over it, the source is split, or neither.

ghost use Rattle.std.specs.Prelude.{◌≡◌, [], true, Some, IfOk, IsTrue};
ghost use Rattle.flow_graph.specs.Shapes.{is_call, source};
ghost use Rattle.flow_graph.specs.WellFormed.{has_slots as has_slots_below, max_slots};
ghost use Rattle.punch_step.specs.ByMusts.{CanCall};
ghost use Rattle.step_tests.specs.Chained.{IsScene};

use crate::made::ONCE;
use crate::tables::add;
use flow_graph::columns::MAX_SLOTS;
use flow_graph::graph::{Edge, Graph};
use linear_formula::assignment::{Assignment, Values};
use linear_formula::formula::Cube;
use linear_formula::question::Question;
use must_region::trail::Trail;
use punch_step::by_must::{ByMust, ByTable, Calling, by_must, by_table};
use punch_step::memo::Memos;
use shadow_elim::limit::{Kept, Limit};
use std::alloc::Global;
use std::sync::Arc;
use std::test::Fail;
use summary_form::query::{ExitKind, Query};
use summary_form::summary::Summary;
use summary_table::table::Table;
use test_forms::edges::call_of;
use test_forms::graphs::{Shape, graph_of};
use test_forms::kept::{Counts, has_slots};
use test_forms::paths::{Says, path_of};
use test_forms::queries::query_of;
use test_forms::rows::{Plain, Row, are_rows, cube_of, empty};

// Calls

/// A trail whose argument lies between two bounds, and the regions before and after the call.
#[derive(Clone, Copy)]
struct Case<'a> {
    least: i64,
    most: i64,
    source: &'a [Row<'a>],
    target: &'a [Row<'a>],
    exit: ExitKind,
}

/// A call of procedure 4 with slot 0 into slot 1, and what stands before it and after it.
#[derive(Drop)]
struct Scene {
    query: Query,
    trail: Trail,
    point: Assignment,
    graph: Graph,
    call: Edge,
    source: Cube,
    target: Cube,
    ghost can: { IsScene query trail call point },
}

/// One parameter and two slots, without an edge after the entry.
const ENTRY: Shape = Shape {
    counts: Counts {
        nodes: 3,
        params: 1,
        exits: 1,
        slots: 2,
    },
    steps: &[],
};

/// The trail where rows hold.
fn guarded(alloc: Global, trail: &Trail, rows: Cube) -> Result<Trail, Fail> {
    let guard = Edge::Guard {
        from: trail.node,
        to: trail.node,
        rows,
    };
    if !has_slots(&guard, MAX_SLOTS) {
        return Err(Fail::new("a row names no slot"));
    }
    Ok(trail.extend(alloc, &guard)?)
}

/// The trail whose argument lies between two bounds.
fn trail_between(alloc: Global, graph: &Graph, least: i64, most: i64) -> Result<Trail, Fail> {
    let begun = Trail::begin(alloc, graph)?;
    let rows: [Row; 2] = [(&[(-1, 0)], least), (&[(1, 0)], most.wrapping_neg())];
    guarded(alloc, &begun, cube_of(alloc, &rows)?)
}

/// Each symbol is 0.
fn origin(alloc: Global) -> Assignment
    ensures { result ≡ [] }
{
    Assignment::new(Values::from_vec(Vec::new(alloc)))
}

/// The call at the trail's node.
fn call_at(alloc: Global, trail: &Trail) -> Result<Edge, Fail>
    ensures call { IfOk result (λ e. is_call e ≡ true) }
    ensures leaves { IfOk result (λ e. source e ≡ Some trail.now.node) }
    ensures slots { IfOk result (λ e. IsTrue (has_slots_below max_slots e)) }
{
    let call = call_of(alloc, (2, 3), 4, &[0], &[1])?;
    if call.source() != Some(trail.node) || !has_slots(&call, MAX_SLOTS) {
        return Err(Fail::new("the trail isn't at the call"));
    }
    Ok(call)
}

/// A query of the caller without rows.
fn any_run(alloc: Global, exit: ExitKind) -> Query
    ensures { result.start.atoms ≡ [] }
{
    Query {
        proc: 0,
        exit,
        start: empty(alloc),
        end: empty(alloc),
    }
}

fn scene_of(alloc: Global, case: &Case) -> Result<Scene, Fail> {
    let graph = graph_of(alloc, &ENTRY)?;
    let trail = trail_between(alloc, &graph, case.least, case.most)?;
    let call = call_at(alloc, &trail)?;
    let source = cube_of(alloc, case.source)?;
    let target = cube_of(alloc, case.target)?;
    Ok(Scene {
        query: any_run(alloc, case.exit),
        trail,
        point: origin(alloc),
        graph,
        call,
        source,
        target,
    })
}

/// The call with this exit.
fn calling(scene: &Scene, exit: ExitKind) -> Calling
    ensures { CanCall result }
{
    Calling {
        query: &scene.query,
        trail: &scene.trail,
        point: &scene.point,
        graph: &scene.graph,
        call: &scene.call,
        exit,
        source: &scene.source,
        target: &scene.target,
    }
}

// Answers

#[derive(Clone, Copy, PartialEq, Eq)]
enum Seen {
    /// At these values of the trail's symbol and of the must's.
    Comes(i64, i64),
    ComesAtOrigin,
    Parts,
    Neither,
    Wide { summands: usize },
    Other,
}

fn seen_point(point: &Assignment) -> Seen {
    match point.values.as_slice() {
        [] => Seen::ComesAtOrigin,
        [own, musts] if own.0 == 30_000 && musts.0 == 30_001 => Seen::Comes(own.1, musts.1),
        _ => Seen::Other,
    }
}

/// Whether the source is split by these rows.
fn seen_parts(atoms: &Cube, wanted: &[Plain]) -> Seen {
    if are_rows(atoms, wanted) {
        Seen::Parts
    } else {
        Seen::Other
    }
}

fn seen_limit(kept: &Kept) -> Seen {
    match (&kept.question, &kept.limit) {
        (Question::Combine(summands, 0), Limit::Wide { .. }) => Seen::Wide {
            summands: summands.as_slice().len(),
        },
        _ => Seen::Other,
    }
}

fn seen_by_must(said: &ByMust, rows: &[Plain]) -> Seen {
    match said {
        ByMust::Comes(point) => seen_point(point),
        ByMust::Parts(atoms, _) => seen_parts(atoms, rows),
        ByMust::Neither => Seen::Neither,
        ByMust::Limit(kept) => seen_limit(kept),
    }
}

/// What one must says of a scene.
fn said_of(
    alloc: Global,
    memos: &mut Memos,
    scene: &Scene,
    exit: ExitKind,
    turn: &Turn,
) -> Result<Seen, Fail> {
    let must = path_of(alloc, &turn.says)?;
    let said = by_must(alloc, memos, &calling(scene, exit), 0, &must)?;
    Ok(seen_by_must(&said, turn.rows))
}

/// What one must says, with what is remembered.
fn said_with(alloc: Global, memos: &mut Memos, turn: &Turn) -> Result<Seen, Fail> {
    let scene = scene_of(alloc, &turn.case)?;
    said_of(alloc, memos, &scene, turn.case.exit, turn)
}

/// What one must says where nothing is remembered.
fn said(alloc: Global, turn: &Turn) -> Result<Seen, Fail> {
    let mut memos = Memos::new(alloc)?;
    said_with(alloc, &mut memos, turn)
}

/// No run of procedure 4 with an argument of at least 0 returns at most -1.
fn not_may(alloc: Global) -> Result<Summary, Fail> {
    let start: [Row; 1] = [(&[(-1, 10_000)], 0)];
    let query = query_of(alloc, 4, ExitKind::Return, &start, &[(&[(1, 20_000)], 1)])?;
    Ok(Summary::NotMay(query))
}

/// A table of a not-may and then these musts.
fn table_of(alloc: Global, says: &[Says]) -> Result<Table, Fail> {
    let mut table = Table::with_room(alloc, 9)?;
    add(&mut table, Arc::new(alloc, not_may(alloc)?)?)?;
    for one in says {
        let must = path_of(alloc, one)?;
        add(&mut table, Arc::new(alloc, Summary::Must(must))?)?;
    }
    Ok(table)
}

/// The place of the one that serves, and what is said.
type Told = (Option<u32>, Seen);

fn seen_by_table(told: &ByTable, rows: &[Plain]) -> Told {
    match told {
        ByTable::Comes { place, point } => (Some(*place), seen_point(point)),
        ByTable::Parts { place, atoms, .. } => (Some(*place), seen_parts(atoms, rows)),
        ByTable::Neither => (None, Seen::Neither),
        ByTable::Limit(kept) => (None, seen_limit(kept)),
    }
}

/// What the table says of a scene.
fn told_of(
    alloc: Global,
    scene: &Scene,
    exit: ExitKind,
    table: &Table,
    rows: &[Plain],
) -> Result<Told, Fail> {
    let mut memos = Memos::new(alloc)?;
    let told = by_table(alloc, &mut memos, &calling(scene, exit), table, 0)?;
    Ok(seen_by_table(&told, rows))
}

fn told_in(alloc: Global, scene: &Scene, asking: &Asking) -> Result<Told, Fail> {
    let table = table_of(alloc, asking.says)?;
    told_of(alloc, scene, asking.case.exit, &table, asking.rows)
}

/// What a not-may and then these musts say, and the place of the one that serves.
fn told(alloc: Global, asking: &Asking) -> Result<Told, Fail> {
    let scene = scene_of(alloc, &asking.case)?;
    told_in(alloc, &scene, asking)
}

// Cases

/// What is returned is 7.
const SEVEN: &[Row] = &[(&[(1, 1)], -7), (&[(-1, 1)], 7)];

/// The argument of the trail is from 0 to 9, and 7 is to be returned.
const COMES: Case = Case {
    least: 0,
    most: 9,
    source: &[],
    target: SEVEN,
    exit: ExitKind::Return,
};

/// The same with an argument of at most 2, in a source where it is at most 8.
const PARTS: Case = Case {
    least: 0,
    most: 2,
    source: &[(&[(1, 0)], -8)],
    target: SEVEN,
    exit: ExitKind::Return,
};

/// An argument from 10 to 20, which no must takes.
const NEITHER: Case = Case {
    least: 10,
    most: 20,
    source: &[(&[(-1, 0)], 10)],
    target: &[],
    exit: ExitKind::Return,
};

/// At most 1 is to be returned, which is read in multiples of 2 ^ 40.
const WIDE: Case = Case {
    least: 0,
    most: 9,
    source: &[],
    target: &[(&[(1_099_511_627_776, 1)], -1_099_511_627_776)],
    exit: ExitKind::Return,
};

/// It returns twice its argument and 1.
const TWICE: Says = Says {
    outcome: &[(&[(2, 30_000)], 1)],
    ..ONCE
};

const FOUR_TIMES: Says = Says {
    outcome: &[(&[(4, 30_000)], 1)],
    ..ONCE
};

/// An argument of at most 9, and two more symbols, each one less than the one before, in 37 rows.
const DEEP_ROWS: &[Row] = &[
    (&[(1, 30_000)], -9),
    (&[(1, 30_000), (-1, 30_001)], -1),
    (&[(-1, 30_000), (1, 30_001)], 1),
    (&[(1, 30_001), (-1, 30_002)], -1),
    (&[(-1, 30_001), (1, 30_002)], 1),
    (&[(1, 30_002)], -100),
    (&[(1, 30_002)], -101),
    (&[(1, 30_002)], -102),
    (&[(1, 30_002)], -103),
    (&[(1, 30_002)], -104),
    (&[(1, 30_002)], -105),
    (&[(1, 30_002)], -106),
    (&[(1, 30_002)], -107),
    (&[(1, 30_002)], -108),
    (&[(1, 30_002)], -109),
    (&[(1, 30_002)], -110),
    (&[(1, 30_002)], -111),
    (&[(1, 30_002)], -112),
    (&[(1, 30_002)], -113),
    (&[(1, 30_002)], -114),
    (&[(1, 30_002)], -115),
    (&[(1, 30_002)], -116),
    (&[(1, 30_002)], -117),
    (&[(1, 30_002)], -118),
    (&[(1, 30_002)], -119),
    (&[(1, 30_002)], -120),
    (&[(1, 30_002)], -121),
    (&[(1, 30_002)], -122),
    (&[(1, 30_002)], -123),
    (&[(1, 30_002)], -124),
    (&[(1, 30_002)], -125),
    (&[(1, 30_002)], -126),
    (&[(1, 30_002)], -127),
    (&[(1, 30_002)], -128),
    (&[(1, 30_002)], -129),
    (&[(1, 30_002)], -130),
    (&[(1, 30_002)], -131),
];

/// It returns 7 and has many rows.
const DEEP: Says = Says {
    symbols: 3,
    guard: DEEP_ROWS,
    outcome: &[(&[], 7)],
    ..ONCE
};

/// It returns four times its argument and 1, by its last symbol.
const DEEP_FOUR_TIMES: Says = Says {
    outcome: &[(&[(4, 30_002)], 9)],
    ..DEEP
};

const FAILING: Says = Says {
    exit: ExitKind::Fail(7),
    outcome: &[],
    ..ONCE
};

const OF_ANOTHER: Says = Says { proc: 5, ..TWICE };

/// The callee is to fail, with an argument of 3.
const FAILS: Case = Case {
    least: 0,
    most: 9,
    source: &[],
    target: &[(&[(1, 10_000)], -3), (&[(-1, 10_000)], 3)],
    exit: ExitKind::Fail(7),
};

/// The argument is at most 9 and twice of it 6.
const BEFORE_SEVEN: &[Plain] = &[(&[(0, 1)], -9), (&[(0, 2)], -6), (&[(0, -2)], 6)];

/// The argument is at most 9 and 6.
const BEFORE_SEVEN_ONCE: &[Plain] = &[(&[(0, 1)], -9), (&[(0, 1)], -6), (&[(0, -1)], 6)];

/// One must at a call, what it says, and the rows by which the source is split where it is.
#[derive(Clone, Copy)]
struct Turn<'a> {
    case: Case<'a>,
    says: Says<'a>,
    rows: &'a [Plain<'a>],
    seen: Seen,
}

const TURNS: &[Turn] = &[
    Turn {
        case: COMES,
        says: TWICE,
        rows: &[],
        seen: Seen::Comes(3, 3),
    },
    Turn {
        case: COMES,
        says: ONCE,
        rows: &[],
        seen: Seen::Comes(6, 6),
    },
    // at the trail's own point
    Turn {
        case: WIDE,
        says: ONCE,
        rows: &[],
        seen: Seen::ComesAtOrigin,
    },
    // these two differ in the must alone
    Turn {
        case: PARTS,
        says: TWICE,
        rows: BEFORE_SEVEN,
        seen: Seen::Parts,
    },
    Turn {
        case: PARTS,
        says: ONCE,
        rows: BEFORE_SEVEN_ONCE,
        seen: Seen::Parts,
    },
    // nothing leads through
    Turn {
        case: NEITHER,
        says: TWICE,
        rows: &[],
        seen: Seen::Neither,
    },
    // no integer returns 7
    Turn {
        case: COMES,
        says: FOUR_TIMES,
        rows: &[],
        seen: Seen::Neither,
    },
    Turn {
        case: WIDE,
        says: TWICE,
        rows: &[],
        seen: Seen::Wide { summands: 2 },
    },
    Turn {
        case: FAILS,
        says: FAILING,
        rows: &[],
        seen: Seen::Comes(3, 3),
    },
];

#[test]
fn a_must_serves_or_not(rt: HostRuntime) -> Result<(), Fail> {
    for (place, turn) in TURNS.iter().enumerate() {
        assert!(rt; said(rt.alloc(), turn)? == turn.seen, "{place}");
    }
    Ok(())
}

/// Musts with many rows, of which more is kept than the answers.
const DEEP_TURNS: &[Turn] = &[
    // nothing leads through
    Turn {
        case: NEITHER,
        says: DEEP,
        rows: &[],
        seen: Seen::Neither,
    },
    // no integer returns 7; the target's rows name a symbol
    Turn {
        case: COMES,
        says: DEEP_FOUR_TIMES,
        rows: &[],
        seen: Seen::Neither,
    },
    // it returns 7 at a point of four symbols
    Turn {
        case: PARTS,
        says: DEEP,
        rows: &[],
        seen: Seen::Other,
    },
];

/// How many of the musts say what they are to, where all are asked in turn.
fn right_turns(alloc: Global, memos: &mut Memos, turns: &[Turn]) -> Result<u32, Fail> {
    let mut right: u32 = 0;
    for turn in turns {
        if said_with(alloc, memos, turn)? == turn.seen {
            right = right.wrapping_add(1);
        }
    }
    Ok(right)
}

/// The same twice, with the same memory of what was asked before.
#[test]
fn what_is_remembered_says_the_same(rt: HostRuntime) -> Result<(), Fail> {
    let mut memos = Memos::new(rt.alloc())?;
    let first = right_turns(rt.alloc(), &mut memos, TURNS)?;
    let second = right_turns(rt.alloc(), &mut memos, TURNS)?;
    assert!(rt; (first, second) == (9, 9));
    Ok(())
}

/// Musts with many rows, each under the same number and thus in the place of the one before.
#[test]
fn what_is_kept_of_musts_says_the_same(rt: HostRuntime) -> Result<(), Fail> {
    let mut memos = Memos::new(rt.alloc())?;
    let first = right_turns(rt.alloc(), &mut memos, DEEP_TURNS)?;
    let second = right_turns(rt.alloc(), &mut memos, DEEP_TURNS)?;
    assert!(rt; (first, second) == (3, 3));
    Ok(())
}

/// A table of a not-may and then these musts at a call, and what it says.
#[derive(Clone, Copy)]
struct Asking<'a> {
    case: Case<'a>,
    says: &'a [Says<'a>],
    rows: &'a [Plain<'a>],
    told: Told,
}

const TABLES: &[Asking] = &[
    // the first that serves
    Asking {
        case: COMES,
        says: &[FOUR_TIMES, TWICE, ONCE],
        rows: &[],
        told: (Some(2), Seen::Comes(3, 3)),
    },
    // other procedures and exits are passed by
    Asking {
        case: COMES,
        says: &[OF_ANOTHER, FAILING],
        rows: &[],
        told: (None, Seen::Neither),
    },
    Asking {
        case: COMES,
        says: &[OF_ANOTHER, FAILING, TWICE],
        rows: &[],
        told: (Some(3), Seen::Comes(3, 3)),
    },
    Asking {
        case: PARTS,
        says: &[OF_ANOTHER, TWICE],
        rows: BEFORE_SEVEN,
        told: (Some(2), Seen::Parts),
    },
    // none serves
    Asking {
        case: NEITHER,
        says: &[],
        rows: &[],
        told: (None, Seen::Neither),
    },
    Asking {
        case: NEITHER,
        says: &[TWICE, ONCE],
        rows: &[],
        told: (None, Seen::Neither),
    },
    // a limit is kept, and a later must passes it
    Asking {
        case: WIDE,
        says: &[OF_ANOTHER, TWICE],
        rows: &[],
        told: (None, Seen::Wide { summands: 2 }),
    },
    Asking {
        case: WIDE,
        says: &[TWICE, ONCE],
        rows: &[],
        told: (Some(2), Seen::ComesAtOrigin),
    },
    // by one that fails
    Asking {
        case: FAILS,
        says: &[TWICE, FAILING],
        rows: &[],
        told: (Some(2), Seen::Comes(3, 3)),
    },
];

#[test]
fn a_table_serves_or_not(rt: HostRuntime) -> Result<(), Fail> {
    for (place, asking) in TABLES.iter().enumerate() {
        assert!(rt; told(rt.alloc(), asking)? == asking.told, "{place}");
    }
    Ok(())
}
