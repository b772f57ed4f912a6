//! The calls of the board that take a job and give it back, and the job's slice between them.

ghost use Rattle.std.specs.Prelude.{◌≡◌, ◌≤◌, ◌++◌, ◌∷◌, [], IfOk, IfSome, MatchResult, OnOk, map};
ghost use Rattle.std.specs.Option.{option_map};
ghost use Rattle.summary_table.specs.Tables.{StartsWith};
ghost use Rattle.bolt_core.specs.Boards.{Gives, HandsIn, IsBoard, IsGone, SameProgram, Shown, most_summaries};
ghost use Rattle.bolt_rounds.specs.Moves.{IsJustTaken, IsMade, IsMoved, MayBeShown, MayMove, MovesKeep, WasJustTaken, spare};
ghost use Rattle.bolt_rounds.specs.steps.Moving.{HasAskedLast, IsAskOf, IsMoveOf, MayEnd};

use bolt_core::board::Board;
use bolt_core::job::{Gone, Job, Taken};
use flow_graph::graphs::Graphs;
use linear_formula::error::OutOfMemory;
use punch_step::memo::Memos;
use punch_step::slice::{SliceEnd, Sliced, slice_with};
use query_rules::state::{QueryState, begin_state};
use query_rules::step::Closing;
use query_tree::Rest;
use std::alloc::Global;
use std::sync::Arc;
use summary_form::query::Query;
use summary_form::summary::Summary;
use summary_table::table::Table;

/// How a job is given back.
#[derive(Drop)]
pub enum Move {
    /// Its last step asked this query, whose state this is.
    Ask {
        child: QueryState,
        query: Arc<Query>,
    },
    /// Its last step fed the asked query of this number.
    Feed {
        asked: u32,
    },
    /// It is to be taken again, waits, or has nothing left.
    Park(Rest),
    /// Its state is closed so, with the summary that comes of it.
    Close {
        how: Closing,
        summary: Option<Arc<Summary>>,
    },
}

/// A job whose slice was made, and how it is given back.
#[derive(Drop)]
pub struct Worked {
    pub job: Job,
    pub next: Move,
}

/// A job whose slice was made, and what may be published of it if it is gone.
#[derive(Drop)]
pub struct Made {
    pub worked: Worked,
    pub spare: Option<Arc<Summary>>,
}

/// Brings a table up to the board's, and takes a query. After lack of memory none is taken.
pub(crate) fn fetch(board: &mut Board, worker: u32, known: &mut Table) -> Result<Taken, OutOfMemory>
    requires room { known.old.room ≡ most_summaries board.old }
    requires front { StartsWith board.old.core.table known.old.summaries }
    ensures same { SameProgram board.old board.new }
    ensures board { IsBoard board.old }
    ensures room { known.new.room ≡ known.old.room }
    ensures taken { IfOk result (Gives board.old worker board.new) }
    ensures known { OnOk result (known.new.summaries ≡ board.new.core.table) }
{
    board.reached();
    board.bring(known)?;
    Ok(board.take(worker, known))
}

/// The queries above a child of the state's query.
fn above_child(alloc: Global, state: &QueryState) -> Result<Vec<Arc<Query>>, OutOfMemory>
    ensures { IfOk result
        (λ all. map (λ a. a.value) all.items ≡ state.now.ancestors ++ state.now.query ∷ []) }
{
    let above = state.ancestors();
    let mut all = Vec::with_capacity(alloc, above.len() + 1)?;
    for query in above {
        all.push(query.clone()?)?;
    }
    all.push(state.query().clone()?)?;
    Ok(all)
}

/// The state of the query that the state's last step asked.
fn asked_by(alloc: Global, graphs: &Graphs, state: &QueryState) -> Result<Move, OutOfMemory>
    requires { HasAskedLast graphs.now.graphs state.now }
    ensures { IfOk result (IsAskOf graphs.now.graphs state.now) }
{
    let asked = state.asked();
    let query = Arc::new(alloc, asked[asked.len() - 1].query.copy(alloc)?)?;
    let own = query.clone()?;
    let above = above_child(alloc, state)?;
    let child = begin_state(alloc, graphs, own, state.level() + 1, above)?;
    Ok(Move::Ask { child, query })
}

/// What a close hands in: the not-may of the query, or the must of the path.
fn summary_of(
    alloc: Global,
    query: &Query,
    how: &Closing,
) -> Result<Option<Arc<Summary>>, OutOfMemory>
    ensures { IfOk result (λ s. HandsIn query.now how.now (option_map (λ a. a.value) s)) }
{
    match how {
        Closing::NotMay => Ok(Some(Arc::new(alloc, Summary::NotMay(query.copy(alloc)?))?)),
        Closing::Must(path) => Ok(Some(Arc::new(alloc, Summary::Must(path.copy(alloc)?))?)),
        Closing::Stuck(_) => Ok(None),
    }
}

/// How a job is given back whose slice ended so.
fn move_of(
    alloc: Global,
    graphs: &Graphs,
    state: &QueryState,
    end: SliceEnd,
) -> Result<Move, OutOfMemory>
    requires { MayEnd graphs.now.graphs state.now end }
    ensures { IfOk result (IsMoveOf graphs.now.graphs state.now end) }
{
    match end {
        SliceEnd::Goes => Ok(Move::Park(Rest::Ready)),
        SliceEnd::Asked => asked_by(alloc, graphs, state),
        SliceEnd::Fed(asked) => Ok(Move::Feed { asked }),
        SliceEnd::Closed(how) => {
            let summary = summary_of(alloc, state.query(), &how)?;
            Ok(Move::Close { how, summary })
        }
        SliceEnd::Waits => Ok(Move::Park(Rest::Blocked)),
        SliceEnd::Spent => Ok(Move::Park(Rest::Starved)),
    }
}

/// Makes a slice of a job that was just taken of some board, of at most `at_most` steps.
fn worked_by(
    alloc: Global,
    memos: &mut Memos,
    graphs: &Graphs,
    known: &Table,
    job: Job,
    at_most: u32,
) -> Result<Worked, OutOfMemory>
    requires job { WasJustTaken graphs.now.graphs known.now.summaries job }
    requires at_most { 1 ≤ at_most }
    ensures same { IfOk result (λ w. (w.job.id ≡ job.id) × (w.job.taken ≡ job.taken)) }
    ensures few { IfOk result (λ w. w.job.spent ≤ at_most) }
    ensures may { IfOk result (λ w. (b : Shown) → IsBoard b → graphs.now.graphs ≡ b.graphs →
        known.now.summaries ≡ b.core.table → IsJustTaken b job → MayMove b w.job w.next) }
{
    let Job {
        id,
        taken,
        left,
        mut state,
        ..
    } = job;
    let Sliced { steps, end } = slice_with(alloc, memos, &mut state, graphs, known, left, at_most)?;
    let next = move_of(alloc, graphs, &state, end)?;
    let job = Job {
        id,
        taken,
        left,
        spent: steps,
        state,
    };
    Ok(Worked { job, next })
}

/// Makes a slice of a job that was just taken of the board, of at most `at_most` steps. `known` is
/// the board's table. What the call of the board needs is made here, so that the call takes no
/// memory.
pub fn work_on(
    alloc: Global,
    memos: &mut Memos,
    graphs: &Graphs,
    known: &Table,
    job: Job,
    at_most: u32,
) -> Result<Worked, OutOfMemory>
    ghost board: { Shown }
    requires board { IsBoard board }
    requires graphs { graphs.now.graphs ≡ board.graphs }
    requires known { known.now.summaries ≡ board.core.table }
    requires job { IsJustTaken board job }
    requires at_most { 1 ≤ at_most }
    ensures same { IfOk result (λ w. (w.job.id ≡ job.id) × (w.job.taken ≡ job.taken)) }
    ensures few { IfOk result (λ w. w.job.spent ≤ at_most) }
    ensures may { IfOk result (λ w. MayMove board w.job w.next) }
{
    worked_by(alloc, memos, graphs, known, job, at_most)
}

/// Gives the job back to the board: one event, or none where the job is gone.
pub fn hand_in(board: &mut Board, worker: u32, worked: Worked) -> Result<(), Gone>
    requires { MayMove board.old worked.job worked.next }
    ensures same { SameProgram board.old board.new }
    ensures moved { MatchResult result
        (λ _. IsMoved board.old worker worked.job worked.next board.new)
        (λ gone. IsGone board.old board.new worked.job gone) }
{
    let Worked { job, next } = worked;
    match next {
        Move::Ask { child, query } => board.ask(worker, job, child, query),
        Move::Feed { asked } => board.feed(worker, job, asked),
        Move::Park(rest) => board.park(worker, job, rest),
        Move::Close { how, summary } => board.close(worker, job, how, summary),
    }
}

/// What may be published of the job if it is gone, where it may be given back as it says.
fn spare_by(worked: &Worked) -> Result<Option<Arc<Summary>>, OutOfMemory>
    ensures { IfOk result (λ s. (b : Shown) → MayMove b worked.now.job worked.now.next →
        option_map (λ a. a.value) s ≡ spare worked.now.job worked.now.next) }
{
    let Move::Close {
        how,
        summary: Some(summary),
    } = &worked.next
    else {
        return Ok(None);
    };
    match how {
        Closing::NotMay if worked.job.state.lowest().is_some() => Ok(None),
        Closing::NotMay | Closing::Must(_) => Ok(Some(summary.clone()?)),
        Closing::Stuck(_) => Ok(None),
    }
}

/// What may be published of the job if it is gone. It is made before the job is given back, so that
/// nothing takes memory then.
pub fn spare_of(worked: &Worked) -> Result<Option<Arc<Summary>>, OutOfMemory>
    ghost board: { Shown }
    requires board { IsBoard board }
    requires may { MayMove board worked.now.job worked.now.next }
    ensures which { IfOk result
        (λ s. option_map (λ a. a.value) s ≡ spare worked.now.job worked.now.next) }
    ensures shown { IfOk result (λ s. IfSome s (λ a. MayBeShown board worked.now.job a.value)) }
{
    spare_by(worked)
}

/// Makes a slice of a job that was just taken of some board, as `work_on` and `spare_of` do. It is
/// for callers who have no board at hand.
pub fn make(
    alloc: Global,
    memos: &mut Memos,
    graphs: &Graphs,
    known: &Table,
    job: Job,
) -> Result<Made, OutOfMemory>
    requires { WasJustTaken graphs.now.graphs known.now.summaries job }
    ensures { IfOk result (IsMade graphs.now.graphs known.now.summaries job) }
{
    let worked = worked_by(alloc, memos, graphs, known, job, u32::MAX)?;
    let spare = spare_by(&worked)?;
    Ok(Made { worked, spare })
}

/// What a call asks of a job, and what may be published of it, is kept after any further events.
/// It does nothing.
pub fn moves_keep()
    ensures { MovesKeep }
{}
