//! Musts that were asked before, with what is kept of them.

ghost use Rattle.std.specs.Prelude.{◌≡◌, ◌<◌, true, length, IfOk, OnOk};
ghost use Rattle.flow_graph.specs.Calls.{call_site};
ghost use Rattle.flow_graph.specs.Shapes.{is_call};
ghost use Rattle.punch_step.specs.KnownMusts.{HasKept, IsKept};
ghost use Rattle.punch_step.specs.declared.known_musts.TheConstants.{MUSTS};

use crate::known_must::{KnownMust, MustParts, known_of};
use crate::preimages::mixed_slots;
use c_tree::tree::Slot;
use flow_graph::calls::CallSite;
use flow_graph::graph::Edge;
use linear_formula::error::OutOfMemory;
use std::alloc::Global;
use summary_form::path::Path;

/// Learns the must, unless the slot knows it.
fn learn(
    alloc: Global,
    slot: &mut Option<KnownMust>,
    must: &Path,
    call: &Edge,
    before: u32,
) -> Result<(), OutOfMemory>
    requires { is_call call.now ≡ true }
    ensures { OnOk result (HasKept must.now (call_site call.now).arguments before slot.new) }
{
    if let Some(known) = slot {
        if known.is_of(must, CallSite::of(call).arguments(), before) {
            return Ok(());
        }
    }
    *slot = Some(known_of(alloc, must, call, before)?);
    Ok(())
}

/// Musts that were asked before: each in the slot of its number, where a newer one takes the place
/// of an older one.
#[derive(Drop)]
pub struct KnownMusts {
    slots: Vec<Option<KnownMust>>,
    ghost well_formed: { length slots.items ≡ MUSTS },
}

/// How many slots there are for musts: a power of two.
pub const MUSTS: usize = 1 << 12;

/// The place of the slot. The musts of a table have slots of their own, as long as they aren't more
/// than there are; a call with other arguments begins elsewhere.
fn place_of(number: u32, args: &[Slot], before: u32) -> usize
    ensures { result < MUSTS }
{
    let begin = mixed_slots(u64::from(before), args) >> 52;
    (begin as usize + number as usize) % MUSTS
}

impl KnownMusts {
    /// None is known.
    pub fn new(alloc: Global) -> Result<KnownMusts, OutOfMemory> {
        let mut slots = Vec::with_capacity(alloc, MUSTS)?;
        for _ in 0..MUSTS {
            slots.push(None)?;
        }
        Ok(KnownMusts { slots })
    }

    /// What is kept of the must with this number, for calls as this one after `before` symbols.
    pub(crate) fn known(
        &mut self,
        alloc: Global,
        number: u32,
        must: &Path,
        call: &Edge,
        before: u32,
    ) -> Result<&MustParts, OutOfMemory>
        requires { is_call call.now ≡ true }
        ensures { IfOk result
            (λ k. IsKept must.now (call_site call.now).arguments before k.now) }
    {
        let place = place_of(number, CallSite::of(call).arguments(), before);
        let slot = &mut self.slots[place];
        learn(alloc, slot, must, call, before)?;
        match slot {
            Some(known) => Ok(known.parts()),
            None => unreachable!(),
        }
    }
}
