//! The query that a call asks.

ghost use Rattle.std.specs.Prelude.{◌≡◌, ◌++◌, ◌+◌, ◌==◌, [], length, true, None, if◌then◌else◌, IfOk, IfErr, OnOk};
ghost use Rattle.linear_formula.specs.Replaced.{column_sum};
ghost use Rattle.linear_formula.specs.Results.{renamed_column};
ghost use Rattle.flow_graph.specs.Calls.{call_site};
ghost use Rattle.flow_graph.specs.Columns.{first_exit};
ghost use Rattle.flow_graph.specs.Shapes.{is_call};
ghost use Rattle.shadow_elim.specs.Projection.{gives, refuses, projected, then_summed, IfRefused};
ghost use Rattle.shadow_elim.specs.RightLimit.{IsRight};
ghost use Rattle.shadow_elim.specs.Shadows.{pair_rows};
ghost use Rattle.shadow_elim.specs.Sums.{equal_sums, row_sums, renaming};
ghost use Rattle.summary_form.specs.NotMays.{Fits};
ghost use Rattle.call_bridge.specs.Asked.{first_argument, argument_columns, result_columns, exit_columns, place_sums, call_sums, as_entry, caller_columns, asked, names_exit, start_of, end_of, query_of, FitsCall, HoldsCalls, HoldsNoOtherCall};
ghost use Rattle.call_bridge.specs.Asking.{IsAsking, rows_of_query};

use crate::columns::{AsEntry, NewNumbers, below, new_column};
use crate::error::BridgeError;
use c_tree::tree::{ProcId, Slot};
use flow_graph::calls::CallSite;
use flow_graph::columns::{FIRST_ASKED, FIRST_EXIT};
use flow_graph::graph::Edge;
use linear_formula::error::OutOfMemory;
use linear_formula::formula::{Atom, Atoms, Cube};
use linear_formula::reading::column_term;
use shadow_elim::projection::{named_columns, project};
use shadow_elim::shadow::{Pair, Pre};
use shadow_elim::sum::{Sum, push_equal, push_read, read_onto, total_rows};
use std::alloc::{AllocError, Global};
use summary_form::query::{ExitKind, Query};

/// The place of the last argument that there is a column for.
const LAST_ARGUMENT: usize = (u32::MAX - FIRST_ASKED) as usize;

/// The place of the last result that there is a column for.
const LAST_EXIT: usize = (u32::MAX - FIRST_EXIT) as usize;

/// The query of a call.
#[derive(Debug, Drop)]
pub struct Asking {
    pub query: Query,
    /// The first pair of rows whose elimination may let other values in; without one the query is
    /// exact.
    pub inexact: Option<Pair>,
}

/// The column of an argument. A list of arguments that needs more columns than there are is beyond
/// memory.
fn argument_column(place: usize) -> Result<u32, OutOfMemory>
    ensures { IfOk result (λ c. c ≡ first_argument + place) }
{
    if place <= LAST_ARGUMENT {
        Ok(FIRST_ASKED + place as u32)
    } else {
        Err(AllocError)
    }
}

/// The column of each argument by its slot.
fn argument_columns(alloc: Global, args: &[Slot]) -> Result<Vec<(u32, u32)>, OutOfMemory>
    ensures { IfOk result (λ c. c.items ≡ argument_columns 0 args.now) }
{
    let mut columns = Vec::with_capacity(alloc, args.len())?;
    for (place, arg) in args.iter().enumerate() {
        columns.push((*arg, argument_column(place)?))?;
    }
    Ok(columns)
}

/// The column of an exit value.
fn exit_column(place: usize) -> Result<u32, OutOfMemory>
    ensures { IfOk result (λ c. c ≡ first_exit + place) }
{
    if place <= LAST_EXIT {
        Ok(FIRST_EXIT + place as u32)
    } else {
        Err(AllocError)
    }
}

/// The exit value of each slot that gets one.
fn result_columns(alloc: Global, results: &[Slot]) -> Result<Vec<(u32, u32)>, OutOfMemory>
    ensures { IfOk result (λ c. c.items ≡ result_columns 0 results.now) }
{
    let mut columns = Vec::with_capacity(alloc, results.len())?;
    for (place, slot) in results.iter().enumerate() {
        columns.push((*slot, exit_column(place)?))?;
    }
    Ok(columns)
}

/// The exit values for the slots that get them.
pub(crate) fn exit_columns(
    alloc: Global,
    exit: ExitKind,
    results: &[Slot],
) -> Result<Vec<(u32, u32)>, OutOfMemory>
    ensures { IfOk result (λ c. c.items ≡ exit_columns exit results.now) }
{
    match exit {
        ExitKind::Return => result_columns(alloc, results),
        ExitKind::Fail(_) => Ok(Vec::new(alloc)),
    }
}

/// An argument's column equals that of the first place of its slot.
fn push_place(
    alloc: Global,
    sums: &mut Vec<Sum>,
    columns: &[(u32, u32)],
    arg: Slot,
    column: u32,
) -> Result<(), OutOfMemory>
    ensures { OnOk result
        (sums.new.items ≡ sums.old.items ++
        (if renamed_column columns.now arg == column then []
        else equal_sums (column_sum column) (column_sum (renamed_column columns.now arg)))) }
{
    let first = new_column(columns, arg);
    if first != column {
        push_equal(
            alloc,
            sums,
            &column_term(alloc, column)?,
            &column_term(alloc, first)?,
        )?;
    }
    Ok(())
}

fn push_places(
    alloc: Global,
    sums: &mut Vec<Sum>,
    columns: &[(u32, u32)],
    args: &[Slot],
) -> Result<(), OutOfMemory>
    ensures { OnOk result
        (sums.new.items ≡ sums.old.items ++ place_sums columns.now 0 args.now) }
{
    for (place, arg) in args.iter().enumerate() {
        push_place(alloc, sums, columns, *arg, argument_column(place)?)?;
    }
    Ok(())
}

/// The sums of the query's rows, in order.
pub(crate) fn call_sums(
    alloc: Global,
    exit: ExitKind,
    site: &CallSite,
    source: &Cube,
    target: &Cube,
) -> Result<Vec<Sum>, OutOfMemory>
    ensures { IfOk result
        (λ s. s.items ≡ call_sums exit site.now source.now.atoms target.now.atoms) }
{
    let mut sums = Vec::new(alloc);
    let plain = NewNumbers {
        first: Vec::new(alloc),
        then: argument_columns(alloc, site.arguments())?,
    };
    push_read(alloc, &mut sums, &plain, source.atoms.as_slice())?;
    let behind = NewNumbers {
        first: exit_columns(alloc, exit, site.results())?,
        then: argument_columns(alloc, site.arguments())?,
    };
    push_read(alloc, &mut sums, &behind, target.atoms.as_slice())?;
    push_places(alloc, &mut sums, &behind.then, site.arguments())?;
    Ok(sums)
}

/// The caller's columns that the rows name.
pub(crate) fn caller_columns(alloc: Global, rows: &Cube) -> Result<Vec<u32>, OutOfMemory>
    ensures { IfOk result (λ v. v.items ≡ caller_columns rows.now.atoms) }
{
    let named = named_columns(alloc, rows.atoms.as_slice())?;
    below(alloc, &named, FIRST_EXIT)
}

/// The rows without the caller's columns.
fn without_caller(alloc: Global, rows: &Cube) -> Result<Pre, BridgeError>
    ensures rows { IfOk result
        (λ p. projected (caller_columns rows.now.atoms) rows.now.atoms
        ≡ gives p.cube.atoms (pair_rows p.inexact)) }
    ensures limit { IfErr result
        (λ e. IfRefused e (λ kept. projected (caller_columns rows.now.atoms) rows.now.atoms
        ≡ refuses kept)) }
    ensures right { IfErr result (λ e. IfRefused e IsRight) }
{
    let columns = caller_columns(alloc, rows)?;
    project(alloc, rows, &columns)
}

/// The arguments' columns by those of entry values.
fn as_entries(alloc: Global, left: Pre) -> Result<Pre, BridgeError>
    ensures rows { IfOk result
        (λ p. then_summed (row_sums (renaming as_entry))
        (gives left.cube.atoms (pair_rows left.inexact))
        ≡ gives p.cube.atoms (pair_rows p.inexact)) }
    ensures limit { IfErr result
        (λ e. IfRefused e (λ kept. then_summed (row_sums (renaming as_entry))
        (gives left.cube.atoms (pair_rows left.inexact))
        ≡ refuses kept)) }
    ensures right { IfErr result (λ e. IfRefused e IsRight) }
{
    let atoms = left.cube.atoms.as_slice();
    let mut rows = Atoms::with_capacity(alloc, atoms.len())?;
    read_onto(alloc, &mut rows, &AsEntry, atoms)?;
    Ok(Pre {
        cube: Cube { atoms: rows },
        inexact: left.inexact,
    })
}

/// The rows of the query, or the first limit.
fn asked_rows(
    alloc: Global,
    exit: ExitKind,
    site: &CallSite,
    source: &Cube,
    target: &Cube,
) -> Result<Pre, BridgeError>
    ensures rows { IfOk result
        (λ p. asked exit site.now source.now.atoms target.now.atoms
        ≡ gives p.cube.atoms (pair_rows p.inexact)) }
    ensures limit { IfErr result
        (λ e. IfRefused e (λ kept. asked exit site.now source.now.atoms target.now.atoms
        ≡ refuses kept)) }
    ensures right { IfErr result (λ e. IfRefused e IsRight) }
{
    let sums = call_sums(alloc, exit, site, source, target)?;
    let rows = total_rows(alloc, &sums)?;
    let left = without_caller(alloc, &rows)?;
    as_entries(alloc, left)
}

fn names_exit(atom: &Atom) -> bool
    ensures { result ≡ names_exit atom.now }
{
    for (column, _) in atom.term.parts() {
        if FIRST_EXIT <= *column {
            return true;
        }
    }
    false
}

/// The atoms without an exit value, and the others.
fn start_and_end(alloc: Global, rows: Cube) -> Result<(Cube, Cube), OutOfMemory>
    ensures start { IfOk result (λ p. p.0.atoms ≡ start_of rows.atoms) }
    ensures end { IfOk result (λ p. p.1.atoms ≡ end_of rows.atoms) }
{
    let mut start = Atoms::new(alloc);
    let mut end = Atoms::new(alloc);
    for atom in rows.atoms.into_vec() {
        if names_exit(&atom) {
            end.push(atom)?;
        } else {
            start.push(atom)?;
        }
    }
    Ok((Cube { atoms: start }, Cube { atoms: end }))
}

/// The query of the rows.
fn query_of(alloc: Global, proc: ProcId, exit: ExitKind, rows: Cube) -> Result<Query, OutOfMemory>
    ensures { IfOk result (λ q. q ≡ query_of proc exit rows.atoms) }
{
    let (start, end) = start_and_end(alloc, rows)?;
    Ok(Query {
        proc,
        exit,
        start,
        end,
    })
}

/// The query of a call's edge, or the first limit.
fn asking_of(
    alloc: Global,
    source: &Cube,
    call: &Edge,
    target: &Cube,
    exit: ExitKind,
) -> Result<Asking, BridgeError>
    requires { is_call call.now ≡ true }
    ensures rows { IfOk result
        (λ a. IsAsking exit call.now source.now.atoms target.now.atoms a) }
    ensures limit { IfErr result
        (λ e. IfRefused e (λ kept. asked exit (call_site call.now)
        source.now.atoms target.now.atoms
        ≡ refuses kept)) }
    ensures right { IfErr result (λ e. IfRefused e IsRight) }
{
    let site = CallSite::of(call);
    let rows = asked_rows(alloc, exit, &site, source, target)?;
    let query = query_of(alloc, site.procedure(), exit, rows.cube)?;
    Ok(Asking {
        query,
        inexact: rows.inexact,
    })
}

/// The asked query of a call, in which the caller's state is projected away (existentially
/// quantified): is there a run of the called procedure that leads from a state of `source` into
/// `target`? The entry values are the arguments; the exit value is that of the call's slot. With
/// `Fail` the target is read at the caller's failure. The rows are those of the source, of the
/// target, and two for each further place of a slot among the arguments; the limit is that of the
/// first sum that is too wide, or of the elimination.
pub fn ask_of(
    alloc: Global,
    source: &Cube,
    call: &Edge,
    target: &Cube,
    exit: ExitKind,
) -> Result<Asking, BridgeError>
    requires { is_call call.now ≡ true }
    ensures rows { IfOk result
        (λ a. IsAsking exit call.now source.now.atoms target.now.atoms a) }
    ensures holds { IfOk result
        (λ a. FitsCall (call_site call.now) source.now.atoms target.now.atoms
        → HoldsCalls exit (call_site call.now) source.now.atoms
        target.now.atoms (rows_of_query a.query)) }
    ensures exact { IfOk result
        (λ a. a.inexact ≡ None →
        FitsCall (call_site call.now) source.now.atoms target.now.atoms →
        HoldsNoOtherCall exit (call_site call.now) source.now.atoms
        target.now.atoms (rows_of_query a.query)) }
    ensures fits { IfOk result
        (λ a. FitsCall (call_site call.now) source.now.atoms target.now.atoms
        → Fits (call_site call.now).procedure (record {
          entries = length (call_site call.now).arguments;
          exits = length (call_site call.now).results;
        }) a.query) }
    ensures limit { IfErr result
        (λ e. IfRefused e (λ kept. asked exit (call_site call.now)
        source.now.atoms target.now.atoms
        ≡ refuses kept)) }
    ensures right { IfErr result (λ e. IfRefused e IsRight) }
{
    asking_of(alloc, source, call, target, exit)
}
