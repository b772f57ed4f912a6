//! The step over an edge that is no call, by the extreme rows of cubes that have many. An answer
//! for the extreme rows is an answer for all rows.

ghost use Rattle.std.specs.Prelude.{◌≡◌, ◌∷◌, ◌++◌, ◌+◌, ◌-◌, [], List, ℕ, length, false, IfOk, IfSome};
ghost use Rattle.std.specs.List.{range_with_len};
ghost use Rattle.linear_formula.specs.Extremes.{IsOutline};
ghost use Rattle.linear_formula.specs.LinearSum.{Is64, valuation};
ghost use Rattle.linear_formula.specs.Formula.{HoldsAll};
ghost use Rattle.linear_formula.specs.declared.formula.Atom.{Atom as AnAtom};
ghost use Rattle.summary_form.specs.declared.query.Query.{Query as AQuery};
ghost use Rattle.shadow_elim.specs.Sums.{row_sums, rows_of_sums};
ghost use Rattle.flow_graph.specs.Readings.{reading};
ghost use Rattle.flow_graph.specs.Shapes.{is_call};
ghost use Rattle.must_region.specs.Traces.{Trace, trace_of};
ghost use Rattle.query_rules.specs.Crossings.{ComesInto, IsRead, pre_columns};
ghost use Rattle.query_rules.specs.Rows.{IsPreimage, IsRefutedBy, seen_at};
ghost use Rattle.punch_step.specs.ByExtremes.{AreSeen, ArrivesAt, HasPoint, IfComes, IsPreOutline, IsTold, IsToldOf, Sees};
ghost use Rattle.punch_step.specs.Cuts.{IsCut};
ghost use Rattle.punch_step.specs.Frontiers.{CanCarry, CanGo, MadeAt, crossing_at, trail_at};

use crate::cut::Cut;
use crate::guess::{is_missed, is_of_range};
use crate::memo::Memo;
use crate::plain::{Frontier, first_unnegatable};
use crate::sight::{Sight, decided};
use flow_graph::graph::Edge;
use infeasible_cert::certificate::Certificate;
use linear_formula::assignment::Assignment;
use linear_formula::error::OutOfMemory;
use linear_formula::extremes::Extremes;
use linear_formula::formula::{Atom, Atoms, Cube};
use linear_formula::joined::JoinedCube;
use must_region::error::TrailError;
use must_region::trail::Trail;
use query_rules::certificates::Certificates;
use query_rules::step::{Killer, Step};
use std::alloc::{AllocError, Global};
use summary_form::query::Query;
use weakest_pre::error::PreError;
use weakest_pre::preimage::pre;

/// What extreme rows tell.
#[derive(Drop)]
enum Told {
    /// They hold here.
    Met(Assignment),
    /// Nothing meets all rows; the certificate is by the numbers that rows have among all.
    Never(Certificate),
    /// A question met a limit.
    Nothing,
}

/// Whether a trail comes into a target, by extreme rows.
#[derive(Drop)]
enum Arrival {
    /// At this point.
    Comes(Assignment),
    Never,
    /// A question met a limit.
    Unknown,
}

/// Extreme rows of what is seen of a source at the end of a trail, and their numbers, after which
/// stands that of one more row.
#[derive(Drop)]
struct Seen<'a> {
    trail: &'a Trail,
    rows: JoinedCube,
    numbers: Vec<u32>,
    /// How many rows there are with one more.
    count: u32,
}

/// The rows, read at the trail's end; none where a sum is too wide.
fn read(alloc: Global, trail: &Trail, rows: &Cube) -> Result<Option<Cube>, OutOfMemory>
    ensures read { IfOk result (λ c. IfSome c (λ _. IsRead (trace_of trail.now) rows.now.atoms)) }
    ensures rows { IfOk result (λ c. IfSome c (λ c. c.atoms
        ≡ rows_of_sums (row_sums (reading trail.now.slots trail.now.entry) rows.now.atoms))) }
{
    match trail.read(alloc, rows) {
        Ok(rows) => Ok(Some(rows)),
        Err(TrailError::Limit(_)) => Ok(None),
        Err(TrailError::Memory) => Err(AllocError),
    }
}

/// The extreme rows, read at the trail's end.
fn read_extremes(
    alloc: Global,
    trail: &Trail,
    rows: &Extremes,
) -> Result<Option<Extremes>, OutOfMemory>
    ensures { IfOk result (λ e. IfSome e (λ e. (all : List AnAtom) → IsOutline rows.now all →
        IsRead (trace_of trail.now) all
        × IsOutline e (rows_of_sums (row_sums (reading trail.now.slots trail.now.entry) all)))) }
{
    match read(alloc, trail, &rows.cube)? {
        Some(cube) => Ok(Some(Extremes {
            cube,
            numbers: rows.numbers.to_vec(alloc)?,
            count: rows.count,
        })),
        None => Ok(None),
    }
}

/// The extreme rows of the guard, the query's start and a cube at the trail's end.
pub(crate) fn rows_seen(
    alloc: Global,
    query: &Query,
    trail: &Trail,
    end: &Extremes,
) -> Result<Option<Extremes>, OutOfMemory>
    ensures { IfOk result (λ e. IfSome e (λ e. (all : List AnAtom) → IsOutline end.now all →
        AreSeen query.now (trace_of trail.now) all e)) }
{
    let Some(start) = read(alloc, trail, &query.start)? else {
        return Ok(None);
    };
    let Some(end) = read_extremes(alloc, trail, end)? else {
        return Ok(None);
    };
    let start = Extremes::of(alloc, start)?;
    let guard = trail.guard.extremes(alloc)?;
    Ok(Some(guard.followed_by(start)?.followed_by(end)?))
}

/// What the rows tell, with the numbers that they have among `count` rows.
fn told_of(
    alloc: Global,
    memo: &mut Memo,
    rows: JoinedCube,
    numbers: &[u32],
    count: u32,
) -> Result<Told, OutOfMemory>
    ensures { IfOk result (IsTold numbers.now count rows.atoms) }
{
    match decided(alloc, memo, rows)? {
        Sight::Met(at) => Ok(Told::Met(at.copy(alloc)?)),
        Sight::Never(proof) => Ok(Told::Never(proof.renumbered(alloc, numbers, count)?)),
        Sight::Limit(_) => Ok(Told::Nothing),
    }
}

/// Whether the rows hold at the point or at another one.
fn arrived(
    alloc: Global,
    memo: &mut Memo,
    rows: Cube,
    point: &Assignment,
) -> Result<Arrival, OutOfMemory>
    requires { Is64 (valuation point.now) }
    ensures { IfOk result
        (IfComes (λ at. Is64 (valuation at) × HoldsAll (valuation at) rows.atoms)) }
{
    if rows.holds(point) {
        return Ok(Arrival::Comes(point.copy(alloc)?));
    }
    match decided(alloc, memo, JoinedCube::of(rows))? {
        Sight::Met(at) => Ok(Arrival::Comes(at.copy(alloc)?)),
        Sight::Never(_) => Ok(Arrival::Never),
        Sight::Limit(_) => Ok(Arrival::Unknown),
    }
}

/// Whether the trail comes into the target at its end. Its own point is tried first.
fn arrives(
    alloc: Global,
    memo: &mut Memo,
    query: &Query,
    trail: &Trail,
    point: &Assignment,
    target: &Extremes,
) -> Result<Arrival, OutOfMemory>
    requires { Is64 (valuation point.now) }
    ensures { IfOk result (λ a. (all : List AnAtom) → IsOutline target.now all →
        IfComes (ArrivesAt query.now (trace_of trail.now) all) a) }
{
    match rows_seen(alloc, query, trail, target)? {
        Some(seen) => arrived(alloc, memo, seen.cube, point),
        None => Ok(Arrival::Unknown),
    }
}

/// Whether the trail, carried over the edge, comes into the target.
fn comes(
    alloc: Global,
    memo: &mut Memo,
    frontier: &Frontier,
    target: &Extremes,
) -> Result<Arrival, OutOfMemory>
    requires can { CanGo frontier.now }
    requires carry { CanCarry frontier.now }
    requires target { IsOutline target.now frontier.now.target.now.atoms }
    ensures { IfOk result
        (IfComes (ComesInto frontier.now.query.now (trail_at frontier.now)
        (crossing_at frontier.now))) }
{
    let Frontier {
        query,
        trail,
        point,
        edge,
        ..
    } = frontier;
    if let Edge::Entry { .. } = edge {
        return arrives(alloc, memo, query, trail, point, target);
    }
    match trail.extend(alloc, edge) {
        Ok(carried) => arrives(alloc, memo, query, &carried, point, target),
        Err(TrailError::Limit(_)) => Ok(Arrival::Unknown),
        Err(TrailError::Memory) => Err(AllocError),
    }
}

/// The preimage of rows over an edge; none where it meets a limit.
fn pre_of(alloc: Global, edge: &Edge, rows: &Cube) -> Result<Option<Cube>, OutOfMemory>
    requires { is_call edge.now ≡ false }
    ensures { IfOk result (λ c. IfSome c (λ c. IsPreimage edge.now rows.now.atoms c.atoms)) }
{
    match pre(alloc, edge, rows) {
        Ok(pre) => Ok(Some(pre.cube)),
        Err(PreError::Limit(_)) => Ok(None),
        Err(PreError::Memory) => Err(AllocError),
    }
}

/// The target's preimage over an edge that eliminates a column: all of its rows, which are few.
fn eliminated(alloc: Global, frontier: &Frontier) -> Result<Option<Extremes>, OutOfMemory>
    requires { CanGo frontier.now }
    ensures { IfOk result (λ e. IfSome e (IsPreOutline frontier.now)) }
{
    let target = frontier.target.to_cube(alloc)?;
    match pre_of(alloc, frontier.edge, &target)? {
        Some(pre) => Ok(Some(Extremes::of(alloc, pre)?)),
        None => Ok(None),
    }
}

/// The numbers of `all` rows: those of a target's extreme rows, then numbers after the target's.
fn numbers_with(
    alloc: Global,
    target: &Extremes,
    all: usize,
) -> Result<(Vec<u32>, u32), OutOfMemory>
    ensures numbers { IfOk result (λ r. r.0.items ≡ target.now.numbers.items
        ++ range_with_len target.now.count (all - length target.now.numbers.items)) }
    ensures count { IfOk result (λ r.
        r.1 ≡ target.now.count + (all - length target.now.numbers.items)) }
{
    let mut numbers = target.numbers.to_vec(alloc)?;
    let mut count = target.count;
    let more = all.saturating_sub(numbers.len());
    for _ in 0..more {
        numbers.push(count)?;
        let Some(next) = count.checked_add(1) else {
            return Err(AllocError);
        };
        count = next;
    }
    Ok((numbers, count))
}

/// The extreme rows of the target's preimage over an edge that eliminates nothing.
fn read_before(
    alloc: Global,
    frontier: &Frontier,
    target: &Extremes,
) -> Result<Option<Extremes>, OutOfMemory>
    requires can { CanGo frontier.now }
    requires target { IsOutline target.now frontier.now.target.now.atoms }
    requires keeps { pre_columns frontier.now.edge.now ≡ [] }
    ensures { IfOk result (λ e. IfSome e (IsPreOutline frontier.now)) }
{
    let Some(cube) = pre_of(alloc, frontier.edge, &target.cube)? else {
        return Ok(None);
    };
    let (numbers, count) = numbers_with(alloc, target, cube.atoms.as_slice().len())?;
    Ok(Some(Extremes {
        cube,
        numbers,
        count,
    }))
}

/// The extreme rows of the target's preimage; none where it meets a limit.
fn preimage_of(
    alloc: Global,
    frontier: &Frontier,
    target: &Extremes,
) -> Result<Option<Extremes>, OutOfMemory>
    requires can { CanGo frontier.now }
    requires target { IsOutline target.now frontier.now.target.now.atoms }
    ensures { IfOk result (λ e. IfSome e (IsPreOutline frontier.now)) }
{
    match frontier.edge {
        Edge::Input { .. } | Edge::Pick { .. } => eliminated(alloc, frontier),
        _ => read_before(alloc, frontier, target),
    }
}

/// What is seen of the source at the trail's end.
fn seen_of<'a>(
    alloc: Global,
    frontier: &Frontier<'a>,
    source: &Extremes,
) -> Result<Option<Seen<'a>>, OutOfMemory>
    requires { IsOutline source.now frontier.now.source.now.atoms }
    ensures { IfOk result (λ s. IfSome s
        (Sees frontier.now.query.now (trail_at frontier.now) frontier.now.source.now.atoms)) }
{
    let trail = frontier.trail;
    let Some(all) = rows_seen(alloc, frontier.query, trail, source)? else {
        return Ok(None);
    };
    let Extremes {
        cube,
        mut numbers,
        count: before,
    } = all;
    let Some(count) = before.checked_add(1) else {
        return Err(AllocError);
    };
    numbers.push(before)?;
    let rows = JoinedCube::of(cube).closed(alloc)?;
    Ok(Some(Seen {
        trail,
        rows,
        numbers,
        count,
    }))
}

/// Why no point of the trail meets the atom in the source, if it is seen that none does.
fn refuted_with(
    alloc: Global,
    memo: &mut Memo,
    seen: &Seen,
    atom: &Cube,
) -> Result<Option<Certificate>, OutOfMemory>
    ensures { IfOk result (λ c. IfSome c (λ c. (q : AQuery) (t : Trace) (source : List AnAtom)
        (a : AnAtom) → atom.now.atoms ≡ a ∷ [] → Sees q t source seen.now →
        IsRefutedBy (seen_at q t (source ++ a ∷ [])) c)) }
{
    let Some(end) = read(alloc, seen.trail, atom)? else {
        return Ok(None);
    };
    let rows = seen.rows.followed_by(alloc, end)?;
    match told_of(alloc, memo, rows, &seen.numbers, seen.count)? {
        Told::Never(proof) => Ok(Some(proof)),
        Told::Met(_) | Told::Nothing => Ok(None),
    }
}

/// The atom as a cut, if no point of the trail meets it in the source.
fn cut_by(
    alloc: Global,
    memo: &mut Memo,
    seen: &Seen,
    atom: &Atom,
) -> Result<Option<Cut>, OutOfMemory>
    ensures { IfOk result (λ c. IfSome c (λ c. (c.atoms.atoms ≡ atom.now ∷ [])
        × ((q : AQuery) (t : Trace) (source : List AnAtom) → Sees q t source seen.now →
        IsRefutedBy (seen_at q t (source ++ atom.now ∷ [])) c.proof))) }
{
    let mut atoms = Atoms::with_capacity(alloc, 1)?;
    atoms.push(atom.copy(alloc)?)?;
    let atoms = Cube { atoms };
    match refuted_with(alloc, memo, seen, &atoms)? {
        Some(proof) => Ok(Some(Cut { atoms, proof })),
        None => Ok(None),
    }
}

/// One of the preimage's atoms as a cut, if there is one.
fn cut_by_one(
    alloc: Global,
    memo: &mut Memo,
    frontier: &Frontier,
    seen: &Seen,
    pre: &Extremes,
    of_range: bool,
) -> Result<Option<Cut>, OutOfMemory>
    requires seen { Sees frontier.now.query.now (trail_at frontier.now)
        frontier.now.source.now.atoms
        seen.now }
    ensures { IfOk result (λ c. IfSome c (λ c. (whole : List AnAtom) → IsOutline pre.now whole →
        IsCut frontier.now.query.now (trail_at frontier.now) frontier.now.source.now.atoms whole
        c)) }
{
    for atom in pre.cube.atoms.as_slice() {
        if is_of_range(atom) == of_range && is_missed(frontier.trail, frontier.point, atom) {
            if let Some(cut) = cut_by(alloc, memo, seen, atom)? {
                return Ok(Some(cut));
            }
        }
    }
    Ok(None)
}

/// The same, of all atoms: those that bound a value to its range are tried last.
fn cut_of(
    alloc: Global,
    memo: &mut Memo,
    frontier: &Frontier,
    source: &Extremes,
    pre: &Extremes,
) -> Result<Option<Cut>, OutOfMemory>
    requires source { IsOutline source.now frontier.now.source.now.atoms }
    ensures { IfOk result (λ c. IfSome c (λ c. (whole : List AnAtom) → IsOutline pre.now whole →
        IsCut frontier.now.query.now (trail_at frontier.now) frontier.now.source.now.atoms whole
        c)) }
{
    let Some(seen) = seen_of(alloc, frontier, source)? else {
        return Ok(None);
    };
    match cut_by_one(alloc, memo, frontier, &seen, pre, false)? {
        Some(cut) => Ok(Some(cut)),
        None => cut_by_one(alloc, memo, frontier, &seen, pre, true),
    }
}

/// The split by one atom of the preimage, which something in the source meets.
fn split(
    alloc: Global,
    memo: &mut Memo,
    frontier: &Frontier,
    source: &Extremes,
    pre: &Extremes,
) -> Result<Option<Step>, OutOfMemory>
    requires source { IsOutline source.now frontier.now.source.now.atoms }
    requires pre { IsPreOutline frontier.now pre.now }
    requires possible { HasPoint (source.now.cube.atoms ++ pre.now.cube.atoms) }
    ensures { IfOk result (λ s. IfSome s (λ s. (number : ℕ) → MadeAt frontier.now number s)) }
{
    if frontier.at.from == 0 {
        return Ok(None);
    }
    let Some(cut) = cut_of(alloc, memo, frontier, source, pre)? else {
        return Ok(None);
    };
    if let Some(_) = first_unnegatable(alloc, cut.atoms.atoms.as_slice())? {
        return Ok(None);
    }
    let proofs = vec![in alloc; cut.proof]?;
    Ok(Some(Step::Split {
        edge: frontier.at,
        atoms: cut.atoms.atoms,
        follows: Certificates::none(alloc),
        proofs: Certificates::from_vec(proofs),
    }))
}

/// What the extreme rows of the source and of the preimage tell together.
fn told_of_both(
    alloc: Global,
    memo: &mut Memo,
    source: &Extremes,
    pre: &Extremes,
) -> Result<Told, OutOfMemory>
    ensures { IfOk result (λ t. (all more : List AnAtom) → IsOutline source.now all →
        IsOutline pre.now more →
        IsToldOf (source.now.cube.atoms ++ pre.now.cube.atoms) (all ++ more) t) }
{
    let both = copied(alloc, source)?.followed_by(copied(alloc, pre)?)?;
    let Extremes {
        cube,
        numbers,
        count,
    } = both;
    told_of(alloc, memo, JoinedCube::of(cube), &numbers, count)
}

/// The same rows.
fn copied(alloc: Global, rows: &Extremes) -> Result<Extremes, OutOfMemory>
    ensures cube { IfOk result (λ e. e.cube ≡ rows.now.cube) }
    ensures numbers { IfOk result (λ e. e.numbers.items ≡ rows.now.numbers.items) }
    ensures count { IfOk result (λ e. e.count ≡ rows.now.count) }
{
    Ok(Extremes {
        cube: rows.cube.copy(alloc)?,
        numbers: rows.numbers.to_vec(alloc)?,
        count: rows.count,
    })
}

/// A kill where nothing in the source meets the preimage, and else a split by one atom.
fn behind(
    alloc: Global,
    memo: &mut Memo,
    frontier: &Frontier,
    target: &Extremes,
) -> Result<Option<Step>, OutOfMemory>
    requires can { CanGo frontier.now }
    requires target { IsOutline target.now frontier.now.target.now.atoms }
    ensures { IfOk result (λ s. IfSome s (λ s. (number : ℕ) → MadeAt frontier.now number s)) }
{
    let Some(pre) = preimage_of(alloc, frontier, target)? else {
        return Ok(None);
    };
    let source = frontier.source.extremes(alloc)?;
    match told_of_both(alloc, memo, &source, &pre)? {
        Told::Never(proof) => Ok(Some(Step::Kill {
            edge: frontier.at,
            by: Killer::Certificate(proof),
        })),
        Told::Met(_) => split(alloc, memo, frontier, &source, &pre),
        Told::Nothing => Ok(None),
    }
}

/// Whether the source, the target or the trail's guard has many rows.
pub(crate) fn is_long(frontier: &Frontier) -> bool {
    frontier.source.is_long() || frontier.target.is_long() || frontier.trail.guard.is_long()
}

/// The step over the edge, if extreme rows tell one: where a question meets a limit they don't, nor
/// where the source isn't split by a single atom.
pub(crate) fn step_by_extremes(
    alloc: Global,
    memo: &mut Memo,
    frontier: &Frontier,
    number: u32,
) -> Result<Option<Step>, OutOfMemory>
    requires can { CanGo frontier.now }
    requires carry { CanCarry frontier.now }
    ensures { IfOk result (λ s. IfSome s (MadeAt frontier.now number)) }
{
    let target = frontier.target.extremes(alloc)?;
    match comes(alloc, memo, frontier, &target)? {
        Arrival::Comes(point) => Ok(Some(Step::Extend {
            edge: frontier.at,
            trail: number,
            point,
        })),
        Arrival::Never => behind(alloc, memo, frontier, &target),
        Arrival::Unknown => Ok(None),
    }
}
