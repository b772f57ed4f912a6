//! Confirms the atoms by which the source of an edge is split.

ghost use Rattle.std.specs.Prelude.{◌≡◌, ◌≤◌, ◌++◌, length, IfOk, IfSome, IsTrue};
ghost use Rattle.flow_graph.specs.Columns.{is_entry_column, names_only, rows_name_only};
ghost use Rattle.must_region.specs.Traces.{trace_of};
ghost use Rattle.shadow_elim.specs.Questions.{with_negation};
ghost use Rattle.query_rules.specs.Rows.{ArePiecesRefuted, Follow, IsRefutedBy, IsSome, is_own_column, seen_at};
ghost use Rattle.punch_step.specs.ByExtremes.{HasPoint};
ghost use Rattle.punch_step.specs.Confirming.{CanSplit, IsConfirmed};
ghost use Rattle.punch_step.specs.Sights.{ReadsStart};
ghost use Rattle.punch_step.specs.steps.Passing.{IsPassed};

use crate::memo::Memo;
use crate::plain::first_unnegatable;
use crate::sight::{Sight, decided, look};
use flow_graph::columns::FIRST_ENTRY;
use flow_graph::graph::Graph;
use infeasible_cert::certificate::Certificate;
use linear_formula::error::OutOfMemory;
use linear_formula::formula::{Atom, Cube};
use linear_formula::joined::JoinedCube;
use linear_formula::term::Term;
use must_region::trail::Trail;
use query_rules::certificates::Certificates;
use std::alloc::Global;
use summary_form::query::Query;

/// A source of the graph, and the trail that marks it.
#[derive(Clone, Copy)]
pub struct Marked<'a> {
    pub graph: &'a Graph,
    pub query: &'a Query,
    pub trail: &'a Trail,
    pub source: &'a Cube,
}

/// Atoms by which a source is split over an edge, why they follow where they aren't some of the
/// preimage's, and why the mark doesn't meet them.
#[derive(Drop)]
pub struct Confirmation {
    pub atoms: Cube,
    pub follows: Certificates,
    pub proofs: Certificates,
}

fn is_entry(entries: u32, column: u32) -> bool
    ensures { result ≡ is_entry_column entries column }
{
    column >= FIRST_ENTRY && u64::from(column) < u64::from(FIRST_ENTRY) + u64::from(entries)
}

fn is_own(graph: &Graph, column: u32) -> bool
    ensures { result ≡ is_own_column graph.now column }
{
    column < graph.slots || is_entry(graph.params, column)
}

fn names_own(graph: &Graph, term: &Term) -> bool
    ensures { result ≡ names_only (is_own_column graph.now) term.now }
{
    term.parts().iter().all(|part| is_own(graph, part.0))
}

/// Whether the atoms name slots and entry values of the graph alone.
fn name_own(graph: &Graph, atoms: &[Atom]) -> bool
    ensures { result ≡ rows_name_only (is_own_column graph.now) atoms.now }
{
    atoms.iter().all(|atom| names_own(graph, &atom.term))
}

/// Whether there are atoms, which name what the graph has and have negations.
fn can_split(alloc: Global, graph: &Graph, atoms: &Cube) -> Result<bool, OutOfMemory>
    ensures { IfOk result (λ b. IsTrue b → CanSplit graph.now atoms.now.atoms) }
{
    let rows = atoms.atoms.as_slice();
    if rows.is_empty() || !name_own(graph, rows) {
        return Ok(false);
    }
    match first_unnegatable(alloc, rows)? {
        Some(_) => Ok(false),
        None => Ok(true),
    }
}

/// How many of the first atoms are some of those up to this one, where `next` are some of those
/// before it.
fn passed(atoms: &[Atom], next: usize, atom: &Atom) -> usize
    requires { next ≤ length atoms.now }
    ensures within { result ≤ length atoms.now }
    ensures passed { IsPassed atoms.now next atom.now result }
{
    match atoms.get(next) {
        Some(first) if *first == *atom => next + 1,
        _ => next,
    }
}

/// Whether the atoms are some of these, in order.
fn are_some(atoms: &[Atom], of: &[Atom]) -> bool
    ensures { IsTrue result → IsSome atoms.now of.now }
{
    let mut next = 0;
    for atom in of {
        next = passed(atoms, next, atom);
    }
    next == atoms.len()
}

/// Whether some point is seen to meet the rows.
fn is_met(alloc: Global, memo: &mut Memo, rows: JoinedCube) -> Result<bool, OutOfMemory>
    ensures { IfOk result (λ b. IsTrue b → HasPoint rows.atoms) }
{
    if let Sight::Met(_) = decided(alloc, memo, rows)? {
        return Ok(true);
    }
    Ok(false)
}

/// Why nothing meets the rows, if it is seen that nothing does.
fn refuted_rows(
    alloc: Global,
    memo: &mut Memo,
    rows: JoinedCube,
) -> Result<Option<Certificate>, OutOfMemory>
    ensures { IfOk result (λ o. IfSome o (IsRefutedBy rows.atoms)) }
{
    if let Sight::Never(proof) = decided(alloc, memo, rows)? {
        return Ok(Some(proof.copy(alloc)?));
    }
    Ok(None)
}

/// The rows of the piece in which the atom is negated, and then of the preimage.
fn piece_rows(
    alloc: Global,
    before: &Cube,
    pre: &Cube,
    atom: &Atom,
) -> Result<Option<Cube>, OutOfMemory>
    ensures { IfOk result (λ o. IfSome o (λ c. c.atoms
        ≡ with_negation before.now.atoms atom.now ++ pre.now.atoms)) }
{
    let mut negated = atom.copy(alloc)?;
    if negated.negate().is_err() {
        return Ok(None);
    }
    let mut piece = before.copy(alloc)?;
    piece.atoms.push(negated)?;
    Ok(Some(piece.and(alloc, pre)?))
}

/// Why the piece in which the atom is negated doesn't meet the preimage, if it is seen that it
/// doesn't.
fn piece_refuted(
    alloc: Global,
    memo: &mut Memo,
    before: &Cube,
    pre: &Cube,
    atom: &Atom,
) -> Result<Option<Certificate>, OutOfMemory>
    ensures { IfOk result (λ o. IfSome o
        (IsRefutedBy (with_negation before.now.atoms atom.now ++ pre.now.atoms))) }
{
    match piece_rows(alloc, before, pre, atom)? {
        Some(rows) => refuted_rows(alloc, memo, JoinedCube::of(rows)),
        None => Ok(None),
    }
}

/// A certificate for each piece, if none of them is seen to meet the preimage.
fn pieces_refuted(
    alloc: Global,
    memo: &mut Memo,
    source: &Cube,
    pre: &Cube,
    atoms: &[Atom],
) -> Result<Option<Certificates>, OutOfMemory>
    ensures { IfOk result (λ o. IfSome o
        (ArePiecesRefuted source.now.atoms pre.now.atoms atoms.now)) }
{
    let mut before = source.copy(alloc)?;
    let mut follows = Vec::new(alloc);
    for atom in atoms {
        match piece_refuted(alloc, memo, &before, pre, atom)? {
            Some(proof) => follows.push(proof)?,
            None => return Ok(None),
        }
        before.atoms.push(atom.copy(alloc)?)?;
    }
    Ok(Some(Certificates::from_vec(follows)))
}

/// Why the atoms follow from source and preimage, if it is seen that they do: no certificate where
/// they are some of the preimage's.
fn follows_of(
    alloc: Global,
    memo: &mut Memo,
    marked: &Marked,
    pre: &Cube,
    atoms: &Cube,
) -> Result<Option<Certificates>, OutOfMemory>
    requires { CanSplit marked.now.graph.now atoms.now.atoms }
    ensures { IfOk result (λ o. IfSome o (Follow marked.now.graph.now marked.now.source.now.atoms
        pre.now.atoms atoms.now.atoms)) }
{
    let rows = atoms.atoms.as_slice();
    if are_some(rows, pre.atoms.as_slice()) {
        return Ok(Some(Certificates::none(alloc)));
    }
    pieces_refuted(alloc, memo, marked.source, pre, rows)
}

/// Whether some point is seen to meet source and preimage.
fn is_possible(
    alloc: Global,
    memo: &mut Memo,
    source: &Cube,
    pre: &Cube,
) -> Result<bool, OutOfMemory>
    ensures { IfOk result (λ b. IsTrue b → HasPoint (source.now.atoms ++ pre.now.atoms)) }
{
    let both = source.and(alloc, pre)?;
    is_met(alloc, memo, JoinedCube::of(both))
}

/// Why no point of the trail meets the atoms in the source, if it is seen that none does.
fn refuted(
    alloc: Global,
    memo: &mut Memo,
    marked: &Marked,
    atoms: &Cube,
) -> Result<Option<Certificate>, OutOfMemory>
    requires { ReadsStart marked.now.query.now (trace_of marked.now.trail.now) }
    ensures { IfOk result (λ o. IfSome o (IsRefutedBy (seen_at marked.now.query.now
        (trace_of marked.now.trail.now) (marked.now.source.now.atoms ++ atoms.now.atoms)))) }
{
    let both = marked.source.and(alloc, atoms)?;
    if let Sight::Never(proof) = look(alloc, memo, marked.query, marked.trail, &both)? {
        return Ok(Some(proof.copy(alloc)?));
    }
    Ok(None)
}

/// The atoms, if a source can be split by them over an edge that has this preimage: they are some
/// of its atoms, or follow from source and preimage, which some point meets, and no point of the
/// trail meets them in the source.
pub fn confirmed(
    alloc: Global,
    memo: &mut Memo,
    marked: &Marked,
    pre: &Cube,
    atoms: &Cube,
) -> Result<Option<Confirmation>, OutOfMemory>
    requires { ReadsStart marked.now.query.now (trace_of marked.now.trail.now) }
    ensures { IfOk result (λ o. IfSome o (IsConfirmed marked.now pre.now.atoms)) }
{
    if !can_split(alloc, marked.graph, atoms)? {
        return Ok(None);
    }
    if !is_possible(alloc, memo, marked.source, pre)? {
        return Ok(None);
    }
    let Some(proof) = refuted(alloc, memo, marked, atoms)? else {
        return Ok(None);
    };
    let proofs = Certificates::from_vec(vec![in alloc; proof]?);
    match follows_of(alloc, memo, marked, pre, atoms)? {
        Some(follows) => Ok(Some(Confirmation {
            atoms: atoms.copy(alloc)?,
            follows,
            proofs,
        })),
        None => Ok(None),
    }
}
