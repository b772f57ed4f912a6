//! What is kept of a must with many rows, so that a call that asks it doesn't read all of them
//! anew.

ghost use Rattle.std.specs.Prelude.{◌≡◌, true, IfOk, IsTrue};
ghost use Rattle.flow_graph.specs.Calls.{call_site};
ghost use Rattle.flow_graph.specs.Shapes.{is_call};
ghost use Rattle.punch_step.specs.KnownMusts.{AreGuardRows, IsBareOf, IsKept};

use crate::known_preimage::{are_alike, copied};
use crate::own_rows::{OwnRows, own_rows_of};
use c_tree::tree::Slot;
use flow_graph::calls::CallSite;
use flow_graph::graph::{Edge, Slots};
use linear_formula::error::OutOfMemory;
use linear_formula::extremes::Extremes;
use linear_formula::formula::{Atoms, Cube};
use linear_formula::joined::JoinedCube;
use must_region::shifting::push_shifted_atoms;
use std::alloc::Global;
use std::marker::Model;
use summary_form::path::{Path, Terms};

/// What a must is asked by over a call.
#[derive(Drop)]
pub struct MustParts {
    /// The must without the rows of its guard.
    pub bare: Path,
    /// Extreme rows of the guard after a number of symbols; copies share them.
    pub guard: JoinedCube,
    pub own: Option<OwnRows>,
}

/// A must with its parts, for calls with these arguments where a number of symbols stand before
/// those of the must. A contract sees the parts.
#[derive(Drop)]
pub struct KnownMust {
    must: Path,
    args: Slots,
    before: u32,
    parts: MustParts,
}

impl Model for KnownMust {
    ghost use Rattle.punch_step.specs.declared.known_must.MustParts.{MustParts};
    ghost use Rattle.punch_step.specs.KnownMusts.{IsKept};

    ghost Value = { MustParts };

    ghost view = { λ k. k.parts };

    ghost invariant = { λ k. IsKept k.must k.args k.before k.parts };
}

fn bare_of(alloc: Global, must: &Path) -> Result<Path, OutOfMemory>
    ensures { IfOk result (IsBareOf must.now) }
{
    let entry = must.entry.copy(alloc)?;
    let outcome = must.outcome.copy(alloc)?;
    Ok(Path {
        proc: must.proc,
        exit: must.exit,
        symbols: must.symbols,
        guard: Cube {
            atoms: Atoms::new(alloc),
        },
        entry,
        inputs: Terms::from_vec(Vec::new(alloc)),
        outcome,
    })
}

/// Extreme rows of the guard, with its symbols after `before` others.
fn guard_rows(alloc: Global, must: &Path, before: u32) -> Result<JoinedCube, OutOfMemory>
    ensures { IfOk result (λ g. AreGuardRows must.now before g.atoms) }
{
    let outer = Extremes::among(alloc, must.guard.atoms.as_slice())?;
    let mut atoms = Atoms::new(alloc);
    push_shifted_atoms(alloc, &mut atoms, outer.cube.atoms.as_slice(), before)?;
    JoinedCube::of(Cube { atoms }).closed(alloc)
}

/// The parts of the must.
fn parts_of(alloc: Global, must: &Path, call: &Edge, before: u32) -> Result<MustParts, OutOfMemory>
    requires { is_call call.now ≡ true }
    ensures { IfOk result (IsKept must.now (call_site call.now).arguments before) }
{
    let bare = bare_of(alloc, must)?;
    let guard = guard_rows(alloc, must, before)?;
    let own = own_rows_of(alloc, must, call)?;
    Ok(MustParts { bare, guard, own })
}

/// The must with its parts.
pub(crate) fn known_of(
    alloc: Global,
    must: &Path,
    call: &Edge,
    before: u32,
) -> Result<KnownMust, OutOfMemory>
    requires { is_call call.now ≡ true }
    ensures { IfOk result (IsKept must.now (call_site call.now).arguments before) }
{
    let args = copied(alloc, CallSite::of(call).arguments())?;
    let parts = parts_of(alloc, must, call, before)?;
    let must = must.copy(alloc)?;
    Ok(KnownMust {
        must,
        args,
        before,
        parts,
    })
}

impl KnownMust {
    /// Whether it is this must, for calls with these arguments after `before` symbols.
    pub(crate) fn is_of(&self, must: &Path, args: &[Slot], before: u32) -> bool
        ensures { IsTrue result → IsKept must.now args.now before self.now }
    {
        self.before == before && self.args.as_slice() == args && are_alike(&self.must, must)
    }

    pub(crate) fn parts(&self) -> &MustParts
        ensures { result.now ≡ self.now }
    {
        &self.parts
    }
}
