//! Which asked queries of a state some stored step kills by.

ghost use Rattle.std.specs.Prelude.{◌≡◌, ◌<◌, ℕ, IfNone, IfOk, IfSome, Some, length, slice_get};
ghost use Rattle.may_partition.specs.declared.region.RegionEdge.{RegionEdge};
ghost use Rattle.query_rules.specs.declared.step.Killer.TheVariants as killer;
ghost use Rattle.query_rules.specs.declared.step.Step.TheVariants as step;
ghost use Rattle.bundle_make.specs.steps.Killing.{AreKilled};

use linear_formula::error::OutOfMemory;
use query_rules::state::QueryState;
use query_rules::step::{Killer, Step};
use std::alloc::Global;

/// The asked query by which a step kills.
fn child_of(stored: &Step) -> Option<u32>
    ensures some { IfSome result (λ j. (k : RegionEdge)
        × (stored.now ≡ step.Kill k (killer.Child j))) }
    ensures none { IfNone result ((k : RegionEdge) (j : ℕ) →
        stored.now ≡ step.Kill k (killer.Child j) → ⊥) }
{
    match stored {
        Step::Kill {
            by: Killer::Child { asked },
            ..
        } => Some(*asked),
        _ => None,
    }
}

/// Of each asked query whether some stored step kills by it.
pub fn killed_of(alloc: Global, state: &QueryState) -> Result<Vec<bool>, OutOfMemory>
    requires { (n j : ℕ) (k : RegionEdge) →
        slice_get state.now.steps n ≡ Some (step.Kill k (killer.Child j)) →
        j < length state.now.asked }
    ensures { IfOk result (λ v. AreKilled state.now v.items) }
{
    let mut killed = vec![in alloc; false; state.asked().len()]?;
    for step in state.steps() {
        if let Some(child) = child_of(step) {
            killed[child as usize] = true;
        }
    }
    Ok(killed)
}
