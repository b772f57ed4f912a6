//! Shows from the cache that a must doesn't help at a call.

ghost use Rattle.std.specs.Prelude.{nat_lt, ◌≡◌, ◌∷◌, ◌++◌, [], List, IfOk, IfSome, IsTrue};
ghost use Rattle.linear_formula.specs.Extremes.{IsOutline};
ghost use Rattle.linear_formula.specs.declared.formula.Atom.{Atom as AnAtom};
ghost use Rattle.shadow_elim.specs.Questions.{IsMet};
ghost use Rattle.flow_graph.specs.Calls.{call_site};
ghost use Rattle.flow_graph.specs.Columns.{first_symbol, names_only, rows_name_only};
ghost use Rattle.summary_form.specs.declared.path.Path.{Path as APath};
ghost use Rattle.must_region.specs.Traces.{trace_of};
ghost use Rattle.query_rules.specs.Crossings.{IsRead, IsShownNotToCome, IsShownNotToSplit};
ghost use Rattle.query_rules.specs.Rows.{seen_at};
ghost use Rattle.punch_step.specs.ByMusts.{CanCall, NeitherBy, crossing_by, marking};
ghost use Rattle.punch_step.specs.KnownMusts.{AreGuardRows, AreOwnRows, IsBareOf, IsNeverBehind, IsPreOuter, IsProjectedWith};
ghost use Rattle.punch_step.specs.steps.Musts.{IsWhole};

use crate::by_extremes::rows_seen;
use crate::by_must::Calling;
use crate::memo::{Memo, Memos};
use crate::own_rows::OwnRows;
use crate::sight::{Sight, decided, look};
use call_bridge::error::BridgeError;
use call_bridge::musts::rows_of_must;
use flow_graph::columns::FIRST_SYMBOL;
use linear_formula::error::OutOfMemory;
use linear_formula::extremes::Extremes;
use linear_formula::formula::{Atom, Cube};
use linear_formula::joined::JoinedCube;
use linear_formula::term::Term;
use must_region::error::TrailError;
use must_region::trail::Trail;
use shadow_elim::projection::{ProjectionError, project};
use std::alloc::{AllocError, Global};
use summary_form::path::Path;
use summary_form::query::Query;

/// Whether it is seen that the rows hold at no point of the trail that meets the atoms at its end.
fn is_never_behind(
    alloc: Global,
    memo: &mut Memo,
    query: &Query,
    trail: &Trail,
    rows: &JoinedCube,
    end: &Extremes,
) -> Result<bool, OutOfMemory>
    ensures { IfOk result (λ never. IsTrue never → (all : List AnAtom) → IsOutline end.now all →
        IsNeverBehind query.now (trace_of trail.now) rows.now.atoms all) }
{
    let Some(seen) = rows_seen(alloc, query, trail, end)? else {
        return Ok(false);
    };
    match decided(alloc, memo, rows.followed_by(alloc, seen.cube)?)? {
        Sight::Never(_) => Ok(true),
        Sight::Met(_) | Sight::Limit(_) => Ok(false),
    }
}

/// Whether it is seen that the trail, carried over the call by the must, doesn't come into the
/// target.
fn never_comes(
    alloc: Global,
    memo: &mut Memo,
    calling: &Calling,
    bare: &Path,
    guard: &JoinedCube,
    target: &Extremes,
) -> Result<bool, OutOfMemory>
    requires can { CanCall calling.now }
    requires target { IsOutline target.now calling.now.target.now.atoms }
    ensures { IfOk result (λ never. IsTrue never → (must : APath) → IsBareOf must bare.now →
        AreGuardRows must calling.now.trail.now.symbols guard.now.atoms →
        IsShownNotToCome calling.now.query.now (marking calling.now)
        (crossing_by calling.now must)) }
{
    let Calling {
        query,
        trail,
        graph,
        call,
        ..
    } = calling;
    match trail.extend_must(alloc, graph, call, bare) {
        Ok(led) => is_never_behind(alloc, memo, query, &led, guard, target),
        Err(TrailError::Limit(_)) => Ok(false),
        Err(TrailError::Memory) => Err(AllocError),
    }
}

/// Whether the term names no symbol.
fn names_no_symbol(term: &Term) -> bool
    ensures { result ≡ names_only (λ x. nat_lt x first_symbol) term.now }
{
    term.parts().iter().all(|part| part.0 < FIRST_SYMBOL)
}

/// Whether no row names a symbol.
fn name_no_symbol(rows: &[Atom]) -> bool
    ensures { result ≡ rows_name_only (λ x. nat_lt x first_symbol) rows.now }
{
    rows.iter().all(|row| names_no_symbol(&row.term))
}

/// The must's own rows and these without the last symbol, if it is seen that they may join.
fn projected_with(alloc: Global, own: &OwnRows, others: &Cube) -> Result<Option<Cube>, OutOfMemory>
    ensures { IfOk result
        (λ o. IfSome o (λ pre. IsProjectedWith own.now others.now.atoms pre.atoms)) }
{
    let rows = others.atoms.as_slice();
    if rows.len() > own.room || !name_no_symbol(rows) {
        return Ok(None);
    }
    let all = own.rows.and(alloc, others)?;
    match project(alloc, &all, &[own.last]) {
        Ok(pre) => Ok(Some(pre.cube)),
        Err(ProjectionError::Limit(_)) => Ok(None),
        Err(ProjectionError::Memory) => Err(AllocError),
    }
}

/// Extreme rows of the target's preimage over the must, if its own rows tell them.
fn outer_preimage(
    alloc: Global,
    calling: &Calling,
    bare: &Path,
    own: &OwnRows,
    target: &Extremes,
) -> Result<Option<Cube>, OutOfMemory>
    requires can { CanCall calling.now }
    requires target { IsOutline target.now calling.now.target.now.atoms }
    ensures { IfOk result (λ o. IfSome o (λ pre. (must : APath) → IsBareOf must bare.now →
        AreOwnRows must (call_site calling.now.call.now).arguments own.now →
        IsPreOuter calling.now must pre.atoms)) }
{
    match rows_of_must(alloc, bare, calling.call, &target.cube) {
        Ok(others) => projected_with(alloc, own, &others),
        Err(BridgeError::Limit(_)) => Ok(None),
        Err(BridgeError::Memory) => Err(AllocError),
    }
}

/// Whether it is seen that some point of the trail meets the source and these rows.
fn is_met(
    alloc: Global,
    memo: &mut Memo,
    calling: &Calling,
    source: &Cube,
    pre: &Cube,
) -> Result<bool, OutOfMemory>
    requires { CanCall calling.now }
    ensures { IfOk result (λ met. IsTrue met →
        IsRead (marking calling.now) (source.now.atoms ++ pre.now.atoms)
        × IsMet (seen_at calling.now.query.now (marking calling.now)
        (source.now.atoms ++ pre.now.atoms))) }
{
    let both = source.and(alloc, pre)?;
    match look(alloc, memo, calling.query, calling.trail, &both)? {
        Sight::Met(_) => Ok(true),
        Sight::Never(_) | Sight::Limit(_) => Ok(false),
    }
}

/// Whether it is seen that the source isn't split from the trail by these rows.
fn is_whole_with(
    alloc: Global,
    memo: &mut Memo,
    calling: &Calling,
    source: &Cube,
    pre: &Cube,
) -> Result<bool, OutOfMemory>
    requires { CanCall calling.now }
    ensures { IfOk result (λ whole. IsTrue whole →
        IsWhole calling.now.query.now (marking calling.now) source.now.atoms pre.now.atoms) }
{
    if pre.atoms.as_slice().is_empty() {
        return Ok(true);
    }
    let both = source.and(alloc, pre)?;
    match decided(alloc, memo, JoinedCube::of(both))? {
        Sight::Never(_) => Ok(true),
        Sight::Met(_) => is_met(alloc, memo, calling, source, pre),
        Sight::Limit(_kept) => Ok(false),
    }
}

/// Whether it is seen that the source isn't split by the preimage over the must.
fn is_whole(
    alloc: Global,
    memo: &mut Memo,
    calling: &Calling,
    bare: &Path,
    own: &OwnRows,
    target: &Extremes,
) -> Result<bool, OutOfMemory>
    requires can { CanCall calling.now }
    requires target { IsOutline target.now calling.now.target.now.atoms }
    ensures { IfOk result (λ whole. IsTrue whole → (must : APath) → IsBareOf must bare.now →
        AreOwnRows must (call_site calling.now.call.now).arguments own.now →
        IsShownNotToSplit calling.now.query.now (marking calling.now ∷ [])
        calling.now.source.now.atoms (crossing_by calling.now must)) }
{
    let Some(pre) = outer_preimage(alloc, calling, bare, own, target)? else {
        return Ok(false);
    };
    let source = Extremes::among(alloc, calling.source.atoms.as_slice())?;
    is_whole_with(alloc, memo, calling, &source.cube, &pre)
}

/// Whether it is seen that the must with this number says neither: the trail isn't carried into the
/// target, and the source isn't split.
pub(crate) fn is_neither(
    alloc: Global,
    memos: &mut Memos,
    calling: &Calling,
    number: u32,
    must: &Path,
) -> Result<bool, OutOfMemory>
    requires { CanCall calling.now }
    ensures { IfOk result (λ neither. IsTrue neither → NeitherBy calling.now must.now) }
{
    let Memos {
        questions,
        musts,
        ..
    } = memos;
    let known = musts.known(alloc, number, must, calling.call, calling.trail.symbols)?;
    let Some(own) = &known.own else {
        return Ok(false);
    };
    let target = Extremes::among(alloc, calling.target.atoms.as_slice())?;
    if !never_comes(
        alloc,
        questions,
        calling,
        &known.bare,
        &known.guard,
        &target,
    )? {
        return Ok(false);
    }
    is_whole(alloc, questions, calling, &known.bare, own, &target)
}
