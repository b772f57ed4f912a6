//! Slices with calls: what they ask, and what they make of what is reported to them.

ghost use Rattle.std.specs.Prelude.{IfOk, OnOk};
ghost use Rattle.query_rules.specs.States.{AllHold};
ghost use Rattle.step_tests.specs.Ready.{IsReady};

use crate::families::{MEETING, MISSING, begun_beside, begun_root};
use crate::learning::{ask_child, keep_end, learn, learn_given_up, learn_starved};
use crate::ready::{no_table, sliced};
use flow_graph::graphs::Graphs;
use linear_formula::assignment::Assignment;
use linear_formula::term::Term;
use punch_step::slice::{SliceEnd, Sliced};
use query_rules::state::QueryState;
use query_rules::step::{Closing, Killer, Step, Why};
use shadow_elim::limit::LimitKind;
use std::alloc::Global;
use std::test::Fail;
use summary_form::query::ExitKind;
use summary_table::table::Table;
use test_forms::graphs::{Shape, graphs_of};

/// How a slice ends.
#[derive(Clone, Copy, PartialEq, Eq)]
enum End {
    Goes,
    Asked,
    Fed(u32),
    NotMay,
    Must,
    Stuck,
    Waits,
    Spent,
}

fn seen_in(sliced: &Sliced) -> (u32, End) {
    let end = match &sliced.end {
        SliceEnd::Goes => End::Goes,
        SliceEnd::Asked => End::Asked,
        SliceEnd::Fed(asked) => End::Fed(*asked),
        SliceEnd::Closed(Closing::NotMay) => End::NotMay,
        SliceEnd::Closed(Closing::Must(_)) => End::Must,
        SliceEnd::Closed(Closing::Stuck(_)) => End::Stuck,
        SliceEnd::Waits => End::Waits,
        SliceEnd::Spent => End::Spent,
    };
    (sliced.steps, end)
}

/// What the last step of a state did.
#[derive(Clone, Copy, PartialEq, Eq)]
enum Last {
    Asks { proc: u32, exit: ExitKind },
    KillsByChild(u32),
    KillsByTable(u32),
    /// An edge was given up as the child of this asked query was.
    GivesUpByChild(u32),
    Other,
}

fn last_in(state: &QueryState) -> Last {
    match state.steps().last() {
        Some(Step::Ask { query, .. }) => Last::Asks {
            proc: query.proc,
            exit: query.exit,
        },
        Some(
            Step::Kill {
                by: Killer::Child { asked },
                ..
            },
        ) => Last::KillsByChild(*asked),
        Some(
            Step::Kill {
                by: Killer::Table { place, .. },
                ..
            },
        ) => Last::KillsByTable(*place),
        Some(
            Step::Stuck {
                why: Why::Child { asked },
                ..
            },
        ) => Last::GivesUpByChild(*asked),
        _ => Last::Other,
    }
}

/// How a slice of the caller ended, and what its last step did.
type Gone = ((u32, End), Last);

/// A slice of the caller.
fn goes(
    alloc: Global,
    graphs: &Graphs,
    table: &Table,
    parent: &mut QueryState,
    left: u32,
) -> Result<Gone, Fail>
    requires { IsReady graphs.now.graphs table.now.summaries parent.old }
    ensures { IfOk result (λ s. IsReady graphs.now.graphs table.now.summaries parent.new) }
{
    let made = sliced(alloc, graphs, table, parent, left, 99)?;
    Ok((seen_in(&made), last_in(parent)))
}

/// The child is sliced to its end, and the caller learns of it.
fn child_sliced(
    alloc: Global,
    graphs: &Graphs,
    table: &mut Table,
    parent: &mut QueryState,
    asked: u32,
    child: &mut QueryState,
) -> Result<End, Fail>
    requires parent { IsReady graphs.now.graphs table.old.summaries parent.old }
    requires child { IsReady graphs.now.graphs table.old.summaries child.old }
    ensures { IfOk result (λ s. IsReady graphs.now.graphs table.new.summaries parent.new) }
{
    let made = sliced(alloc, graphs, table, child, 99, 99)?;
    learn(alloc, graphs, table, parent, asked, child, &made.end)?;
    Ok(seen_in(&made).1)
}

/// The asked query of this number is sliced to its end, and the caller learns of it.
fn child_ends(
    alloc: Global,
    graphs: &Graphs,
    table: &mut Table,
    parent: &mut QueryState,
    asked: u32,
) -> Result<End, Fail>
    requires { IsReady graphs.now.graphs table.old.summaries parent.old }
    ensures { IfOk result (λ s. IsReady graphs.now.graphs table.new.summaries parent.new) }
{
    let mut child = ask_child(alloc, graphs, table, parent, asked)?;
    child_sliced(alloc, graphs, table, parent, asked, &mut child)
}

/// The next query is asked and learned of, and the caller goes on.
fn round(
    alloc: Global,
    graphs: &Graphs,
    table: &mut Table,
    parent: &mut QueryState,
    asked: u32,
) -> Result<(End, Gone), Fail>
    requires { IsReady graphs.now.graphs table.old.summaries parent.old }
    ensures { IfOk result (λ s. IsReady graphs.now.graphs table.new.summaries parent.new) }
{
    let child = child_ends(alloc, graphs, table, parent, asked)?;
    let gone = goes(alloc, graphs, table, parent, 99)?;
    Ok((child, gone))
}

/// The value of the term at the point, which is one symbol.
fn value_of(term: &Term, point: &Assignment) -> Option<i64> {
    match term.parts() {
        [(column, 1)] if term.constant() == 0 => Some(point.value(*column)),
        _ => None,
    }
}

/// The inputs of the last mark.
fn has_inputs(state: &QueryState, wanted: [i64; 2]) -> bool {
    let Some(mark) = state.marks().last() else {
        return false;
    };
    let Some(trail) = state.trails().get(mark.trail as usize) else {
        return false;
    };
    match trail.inputs.as_slice() {
        [first, second] => {
            value_of(first, &mark.point) == Some(wanted[0])
                && value_of(second, &mark.point) == Some(wanted[1])
        }
        _ => false,
    }
}

/// A query of the callee was asked.
const fn asks(steps: u32, exit: ExitKind) -> Gone {
    ((steps, End::Asked), Last::Asks { proc: 1, exit })
}

const FAILS: ExitKind = ExitKind::Fail(0);

/// How the first slice of the caller and three rounds end.
type Rounds = (Gone, (End, Gone), (End, Gone), (End, Gone));

/// The caller asks three queries, each of which is sliced to its end.
fn rounds(
    alloc: Global,
    graphs: &Graphs,
    table: &mut Table,
    parent: &mut QueryState,
) -> Result<Rounds, Fail>
    requires { IsReady graphs.now.graphs table.old.summaries parent.old }
    ensures { IfOk result (λ s. IsReady graphs.now.graphs table.new.summaries parent.new) }
{
    let first = goes(alloc, graphs, table, parent, 99)?;
    let second = round(alloc, graphs, table, parent, 0)?;
    let third = round(alloc, graphs, table, parent, 1)?;
    let last = round(alloc, graphs, table, parent, 2)?;
    Ok((first, second, third, last))
}

/// How a play ended: the caller's rounds, its last slices, and whether its path has the inputs 2
/// and 40.
#[derive(Clone, Copy, PartialEq, Eq)]
struct Played {
    rounds: Option<Rounds>,
    more: [Option<Gone>; 5],
    inputs: bool,
}

/// How the caller is sliced, which fails where the callee returns 40.
#[derive(Clone, Copy)]
enum Play {
    /// Three rounds.
    Fails,
    /// Three rounds, and then a slice of a second state of the caller's query.
    Kills,
    /// Slices, of whose asked queries nothing is reported; at the last no step is left.
    Alone,
    /// The second query is asked with a not-may in the table, and that child is starved.
    Feeds,
    /// The third query is asked after two rounds, and that child is given up.
    GivesUp,
    /// The same, where the table has a summary of that query by then.
    Serves,
}

fn play_fails(
    alloc: Global,
    graphs: &Graphs,
    table: &mut Table,
    parent: &mut QueryState,
) -> Result<Played, Fail>
    requires { IsReady graphs.now.graphs table.old.summaries parent.old }
{
    let made = rounds(alloc, graphs, table, parent)?;
    Ok(Played {
        rounds: Some(made),
        more: [None; 5],
        inputs: has_inputs(parent, [2, 40]),
    })
}

fn play_kills(
    alloc: Global,
    graphs: &Graphs,
    table: &mut Table,
    parent: &mut QueryState,
) -> Result<Played, Fail>
    requires { IsReady graphs.now.graphs table.old.summaries parent.old }
{
    let made = rounds(alloc, graphs, table, parent)?;
    let mut other = begun_beside(alloc, graphs, table, parent)?;
    let gone = goes(alloc, graphs, table, &mut other, 99)?;
    Ok(Played {
        rounds: Some(made),
        more: [Some(gone), None, None, None, None],
        inputs: false,
    })
}

fn play_alone(
    alloc: Global,
    graphs: &Graphs,
    table: &Table,
    parent: &mut QueryState,
) -> Result<Played, Fail>
    requires { IsReady graphs.now.graphs table.now.summaries parent.old }
{
    let first = goes(alloc, graphs, table, parent, 2)?;
    let second = goes(alloc, graphs, table, parent, 99)?;
    let third = goes(alloc, graphs, table, parent, 99)?;
    let last = goes(alloc, graphs, table, parent, 99)?;
    let spent = goes(alloc, graphs, table, parent, 0)?;
    Ok(Played {
        rounds: None,
        more: [
            Some(first),
            Some(second),
            Some(third),
            Some(last),
            Some(spent),
        ],
        inputs: false,
    })
}

fn play_feeds(
    alloc: Global,
    graphs: &Graphs,
    table: &mut Table,
    parent: &mut QueryState,
) -> Result<Played, Fail>
    requires { IsReady graphs.now.graphs table.old.summaries parent.old }
{
    let first = goes(alloc, graphs, table, parent, 99)?;
    let (_, asked) = round(alloc, graphs, table, parent, 0)?;
    learn_starved(graphs, table, parent, 1)?;
    let fed = goes(alloc, graphs, table, parent, 99)?;
    Ok(Played {
        rounds: None,
        more: [Some(first), Some(asked), Some(fed), None, None],
        inputs: false,
    })
}

/// The table alone learns of the asked query of this number, which is sliced to its end.
fn child_kept(
    alloc: Global,
    graphs: &Graphs,
    table: &mut Table,
    parent: &QueryState,
    asked: u32,
) -> Result<(), Fail>
    requires { IsReady graphs.now.graphs table.old.summaries parent.now }
    ensures { OnOk result (IsReady graphs.now.graphs table.new.summaries parent.now) }
{
    let mut child = ask_child(alloc, graphs, table, parent, asked)?;
    let made = sliced(alloc, graphs, table, &mut child, 99, 99)?;
    keep_end(alloc, graphs, table, parent, &child, &made.end)
}

/// Two rounds.
fn two_rounds(
    alloc: Global,
    graphs: &Graphs,
    table: &mut Table,
    parent: &mut QueryState,
) -> Result<(), Fail>
    requires { IsReady graphs.now.graphs table.old.summaries parent.old }
    ensures { OnOk result (IsReady graphs.now.graphs table.new.summaries parent.new) }
{
    goes(alloc, graphs, table, parent, 99)?;
    round(alloc, graphs, table, parent, 0)?;
    round(alloc, graphs, table, parent, 1)?;
    Ok(())
}

/// The third child is given up, and the caller goes on.
fn play_given_up(
    alloc: Global,
    graphs: &Graphs,
    table: &mut Table,
    parent: &mut QueryState,
    is_kept: bool,
) -> Result<Played, Fail>
    requires { IsReady graphs.now.graphs table.old.summaries parent.old }
{
    two_rounds(alloc, graphs, table, parent)?;
    if is_kept {
        child_kept(alloc, graphs, table, parent, 2)?;
    }
    learn_given_up(graphs, table, parent, 2, LimitKind::Wide)?;
    let gone = goes(alloc, graphs, table, parent, 99)?;
    Ok(Played {
        rounds: None,
        more: [Some(gone), None, None, None, None],
        inputs: false,
    })
}

/// The play from the beginning of the caller.
fn play_with(alloc: Global, graphs: &Graphs, table: &mut Table, play: Play) -> Result<Played, Fail>
    requires { AllHold graphs.now.graphs table.old.summaries }
{
    let mut parent = begun_root(alloc, graphs, table)?;
    match play {
        Play::Fails => play_fails(alloc, graphs, table, &mut parent),
        Play::Kills => play_kills(alloc, graphs, table, &mut parent),
        Play::Alone => play_alone(alloc, graphs, table, &mut parent),
        Play::Feeds => play_feeds(alloc, graphs, table, &mut parent),
        Play::GivesUp => play_given_up(alloc, graphs, table, &mut parent, false),
        Play::Serves => play_given_up(alloc, graphs, table, &mut parent, true),
    }
}

fn play_in(alloc: Global, graphs: &Graphs, play: Play) -> Result<Played, Fail> {
    let mut table = no_table(alloc, 3)?;
    play_with(alloc, graphs, &mut table, play)
}

/// The play over a caller and what it calls.
fn play_family(alloc: Global, shapes: &[Shape], play: Play) -> Result<Played, Fail> {
    let graphs = graphs_of(alloc, shapes)?;
    play_in(alloc, &graphs, play)
}

/// The callee never fails, it returns 0, and it returns 40 where its argument is 2.
#[test]
fn the_caller_fails_by_musts(rt: HostRuntime) -> Result<(), Fail> {
    let wanted = (
        asks(3, FAILS),
        (End::NotMay, asks(2, ExitKind::Return)),
        (End::Must, asks(3, ExitKind::Return)),
        (End::Must, ((2, End::Must), Last::Other)),
    );
    let made = play_family(rt.alloc(), &MEETING, Play::Fails)?;
    assert!(rt; made.rounds == Some(wanted) && made.inputs);
    Ok(())
}

/// The callee returns at most 99, so that the caller's edge is killed by its child, and in the
/// second state by the table.
#[test]
fn a_child_without_runs_kills(rt: HostRuntime) -> Result<(), Fail> {
    let wanted = (End::NotMay, ((1, End::NotMay), Last::KillsByChild(2)));
    let other = ((6, End::NotMay), Last::KillsByTable(2));
    let made = play_family(rt.alloc(), &MISSING, Play::Kills)?;
    let last = made.rounds.map(|all| all.3);
    assert!(rt; last == Some(wanted) && made.more[0] == Some(other));
    Ok(())
}

/// Nothing is reported of the asked queries, and nothing is left.
#[test]
fn waits_for_children(rt: HostRuntime) -> Result<(), Fail> {
    let (_, returns) = asks(1, ExitKind::Return);
    let wanted = [
        Some(((2, End::Spent), Last::Other)),
        Some(asks(1, FAILS)),
        Some(asks(1, ExitKind::Return)),
        Some(((0, End::Waits), returns)),
        Some(((0, End::Spent), returns)),
    ];
    assert!(rt; play_family(rt.alloc(), &MEETING, Play::Alone)?.more == wanted);
    Ok(())
}

/// A starved child is fed at once, where the table has nothing new.
#[test]
fn a_starved_child_is_fed(rt: HostRuntime) -> Result<(), Fail> {
    let made = play_family(rt.alloc(), &MEETING, Play::Feeds)?;
    let fed = made.more[2].map(|gone| gone.0);
    assert!(rt; made.more[1] == Some(asks(2, ExitKind::Return)) && fed == Some((1, End::Fed(1))));
    Ok(())
}

/// An edge is given up as its child was, unless a must or a not-may of the table serves it.
#[test]
fn an_edge_is_given_up_unless_a_summary_serves(rt: HostRuntime) -> Result<(), Fail> {
    let given_up = ((1, End::Stuck), Last::GivesUpByChild(2));
    let cases = &[
        (MEETING, Play::GivesUp, given_up),
        (MEETING, Play::Serves, ((2, End::Must), Last::Other)),
        (MISSING, Play::GivesUp, given_up),
        (
            MISSING,
            Play::Serves,
            ((1, End::NotMay), Last::KillsByTable(2)),
        ),
    ];
    for &(shapes, play, wanted) in cases {
        let made = play_family(rt.alloc(), &shapes, play)?;
        assert!(rt; made.more[0] == Some(wanted));
    }
    Ok(())
}
