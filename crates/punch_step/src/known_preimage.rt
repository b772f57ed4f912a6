//! A preimage over a call by a must that is kept.

ghost use Rattle.std.specs.Prelude.{◌≡◌, IfOk, IsTrue};
ghost use Rattle.punch_step.specs.Memos.{AreAlike, IsComputed};

use c_tree::tree::Slot;
use flow_graph::calls::CallSite;
use flow_graph::graph::Slots;
use linear_formula::error::OutOfMemory;
use linear_formula::formula::Cube;
use shadow_elim::limit::Kept;
use std::alloc::Global;
use std::marker::Model;
use summary_form::path::Path;

/// The result of the computation of a preimage.
#[derive(Drop)]
pub enum Computed {
    Rows(Cube),
    /// There is none at this limit. It has no cubes, since a projection splits nothing.
    Limit(Kept),
}

/// The must, the call's slots and the target that a preimage is of.
#[derive(Drop)]
struct Subject {
    must: Path,
    args: Slots,
    results: Slots,
    target: Cube,
}

/// The result of a preimage, with what it is of. A contract sees the result.
#[derive(Drop)]
pub struct KnownPreimage {
    subject: Subject,
    computed: Computed,
}

impl Model for KnownPreimage {
    ghost use Rattle.punch_step.specs.declared.known_preimage.Computed.{Computed};
    ghost use Rattle.punch_step.specs.Memos.{IsComputed};

    ghost Value = { Computed };

    ghost view = { λ k. k.computed };

    ghost invariant = { λ k. IsComputed k.subject.must (record {
      procedure = k.subject.must.proc;
      arguments = k.subject.args;
      results = k.subject.results;
    }) k.subject.target.atoms k.computed };
}

/// Whether the musts differ in nothing that a preimage reads.
pub(crate) fn are_alike(left: &Path, right: &Path) -> bool
    ensures { IsTrue result → AreAlike left.now right.now }
{
    left.exit == right.exit
        && left.guard == right.guard
        && left.entry.as_slice() == right.entry.as_slice()
        && left.outcome.as_slice() == right.outcome.as_slice()
}

impl KnownPreimage {
    /// Whether it is the preimage of the target over the call with these slots by the must.
    pub(crate) fn is_of(&self, must: &Path, site: &CallSite, target: &Cube) -> bool
        ensures { IsTrue result →
            IsComputed must.now site.now target.now.atoms self.now }
    {
        self.subject.results.as_slice() == site.results()
            && self.subject.args.as_slice() == site.arguments()
            && self.subject.target == *target
            && are_alike(&self.subject.must, must)
    }

    pub(crate) fn computed(&self) -> &Computed
        ensures { result.now ≡ self.now }
    {
        &self.computed
    }
}

pub(crate) fn copied(alloc: Global, slots: &[Slot]) -> Result<Slots, OutOfMemory>
    ensures { IfOk result (λ s. s ≡ slots.now) }
{
    let mut items = Vec::with_capacity(alloc, slots.len())?;
    items.extend_from_slice(slots)?;
    Ok(Slots::from_vec(items))
}

/// Copies of what a preimage is of.
fn subject_of(
    alloc: Global,
    must: &Path,
    site: &CallSite,
    target: &Cube,
) -> Result<Subject, OutOfMemory>
    ensures must { IfOk result (λ s. s.must ≡ must.now) }
    ensures arguments { IfOk result (λ s. s.args ≡ site.now.arguments) }
    ensures results { IfOk result (λ s. s.results ≡ site.now.results) }
    ensures target { IfOk result (λ s. s.target ≡ target.now) }
{
    let args = copied(alloc, site.arguments())?;
    let results = copied(alloc, site.results())?;
    let target = target.copy(alloc)?;
    let must = must.copy(alloc)?;
    Ok(Subject {
        must,
        args,
        results,
        target,
    })
}

/// What was computed, with copies of what it is of.
pub(crate) fn known_of(
    alloc: Global,
    must: &Path,
    site: &CallSite,
    target: &Cube,
    computed: Computed,
) -> Result<KnownPreimage, OutOfMemory>
    requires { IsComputed must.now site.now target.now.atoms computed }
    ensures { IfOk result (λ known. known ≡ computed) }
{
    let subject = subject_of(alloc, must, site, target)?;
    Ok(KnownPreimage { subject, computed })
}
