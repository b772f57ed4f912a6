//! The bundle of a proved root.

ghost use Rattle.std.specs.Prelude.{◌≡◌, ℕ, ◌<◌, ◌≤◌, [], IfOk, OnOk, Some, false, length, map, slice_get, true};
ghost use Rattle.query_rules.specs.declared.step.Closing.TheVariants as closing;
ghost use Rattle.bolt_core.specs.Anchors.{IsAnchored};
ghost use Rattle.bolt_core.specs.Machine.{is_over};
ghost use Rattle.bolt_core.specs.States.{reads};
ghost use Rattle.bolt_core.specs.Verdicts.{IsClosedIn, IsProvedIn};
ghost use Rattle.proof_bundle.specs.Claims.{claim_of, pure_of};
ghost use Rattle.proof_bundle.specs.Text.{IsBundle};
ghost use Rattle.bundle_check.specs.RightClaims.{IsRightProof};
ghost use Rattle.bundle_make.specs.Bundling.{AreClaimed, IsBare, IsBundleOf, LeadsOn, Listed};
ghost use Rattle.bundle_make.specs.steps.Claims.{AreClaimsFrom, AreClaimsOf};
ghost use Rattle.bundle_make.specs.steps.Growing.{IsGrown};
ghost use Rattle.bundle_make.specs.steps.Leading.{StepLeads};
ghost use Rattle.bundle_make.specs.steps.Listing.{AreAnchored, IsListing};

use crate::claiming::claim_of;
use crate::leads::lead;
use crate::listing::Listing;
use bolt_core::board::Board;
use linear_formula::error::OutOfMemory;
use proof_bundle::bundle::{Bundle, Claim};
use query_rules::state::QueryState;
use query_rules::step::Step;
use query_tree::QueryId;
use std::alloc::Global;

/// Where a step is a kill that leads to a query, the query is listed.
fn follow_step(
    board: &Board,
    listing: &mut Listing,
    id: QueryId,
    state: &QueryState,
    step: &Step,
) -> Result<(), OutOfMemory>
    requires bare { IsBare board.now }
    requires listing { IsListing (length board.now.core.entries) listing.old.ids.items
        listing.old.numbers.items }
    requires anchored { (l : ℕ) × IsAnchored board.now.core.nodes l id }
    requires closed { IsClosedIn board.now id state.now closing.NotMay }
    requires stored { (n : ℕ) × (slice_get state.now.steps n ≡ Some step.now) }
    ensures listing { OnOk result (IsListing (length board.now.core.entries)
        listing.new.ids.items listing.new.numbers.items) }
    ensures grown { OnOk result (IsGrown (LeadsOn board.now id) listing.old.ids.items
        listing.new.ids.items) }
    ensures all { OnOk result ((x : ℕ) → StepLeads board.now id state.now step.now x →
        Listed listing.new.ids.items x) }
{
    board.reached();
    let Step::Kill { by, .. } = step else {
        return Ok(());
    };
    match lead(board, id, state, by) {
        Some(other) => {
            // (It is known here that there are fewer queries than numbers.)
            let _count = board.forest().count();
            listing.add(other)
        }
        None => Ok(()),
    }
}

/// The queries to which the kills of a query lead are listed.
fn follow(board: &Board, listing: &mut Listing, id: QueryId) -> Result<(), OutOfMemory>
    requires bare { IsBare board.now }
    requires listing { IsListing (length board.now.core.entries) listing.old.ids.items
        listing.old.numbers.items }
    requires anchored { (l : ℕ) × IsAnchored board.now.core.nodes l id }
    ensures listing { OnOk result (IsListing (length board.now.core.entries)
        listing.new.ids.items listing.new.numbers.items) }
    ensures grown { OnOk result (IsGrown (LeadsOn board.now id) listing.old.ids.items
        listing.new.ids.items) }
    ensures all { OnOk result ((x : ℕ) → LeadsOn board.now id x →
        Listed listing.new.ids.items x) }
{
    board.reached();
    let Some(state) = board.forest().payload(id) else {
        unreachable!();
    };
    for step in state.steps() {
        follow_step(board, listing, id, state, step)?;
    }
    Ok(())
}

/// The root is listed, and after it the queries to which the kills of listed ones lead, until
/// there is none that isn't.
fn fill(board: &Board, listing: &mut Listing, root: u32) -> Result<(), OutOfMemory>
    requires bare { IsBare board.now }
    requires root { root < board.now.asserts }
    requires proved { IsProvedIn board.now root }
    requires listing { IsListing (length board.now.core.entries) listing.old.ids.items
        listing.old.numbers.items }
    requires empty { listing.old.ids.items ≡ [] }
    ensures listing { OnOk result (IsListing (length board.now.core.entries)
        listing.new.ids.items listing.new.numbers.items) }
    ensures claimed { OnOk result (AreClaimed board.now root listing.new.ids.items) }
    ensures anchored { OnOk result (AreAnchored board.now listing.new.ids.items) }
{
    board.reached();
    // (It is known here that there are fewer queries than numbers.)
    let _count = board.forest().count();
    listing.add(root)?;
    let mut at = 0;
    while at < listing.ids.len() {
        let id = listing.ids[at];
        follow(board, listing, id)?;
        at += 1;
    }
    Ok(())
}

/// The root of an assertion that is proved, and the queries to which its kills lead.
fn listing_of(alloc: Global, board: &Board, root: u32) -> Result<Listing, OutOfMemory>
    requires bare { IsBare board.now }
    requires root { root < board.now.asserts }
    requires proved { IsProvedIn board.now root }
    ensures listing { IfOk result (λ l. IsListing (length board.now.core.entries) l.ids.items
        l.numbers.items) }
    ensures claimed { IfOk result (λ l. AreClaimed board.now root l.ids.items) }
    ensures anchored { IfOk result (λ l. AreAnchored board.now l.ids.items) }
{
    let mut listing = Listing::begin(alloc, board.forest().count())?;
    fill(board, &mut listing, root)?;
    Ok(listing)
}

/// The claims of the listed queries, in order.
fn claims_of(alloc: Global, board: &Board, listing: &Listing) -> Result<Vec<Claim>, OutOfMemory>
    requires bare { IsBare board.now }
    requires listing { IsListing (length board.now.core.entries) listing.now.ids.items
        listing.now.numbers.items }
    requires anchored { AreAnchored board.now listing.now.ids.items }
    requires all { (i x : ℕ) → Listed listing.now.ids.items i → LeadsOn board.now i x →
        Listed listing.now.ids.items x }
    ensures { IfOk result (λ cs. AreClaimsOf board.now listing.now.ids.items
        (length listing.now.ids.items) (map claim_of cs.items)) }
{
    let mut claims = Vec::with_capacity(alloc, listing.ids.len())?;
    for id in &listing.ids {
        let claim = claim_of(alloc, board, listing, *id)?;
        claims.push(claim)?;
    }
    Ok(claims)
}

/// The claims of the root of an assertion that is proved, and of the queries to which kills lead.
fn claims_from(alloc: Global, board: &Board, root: u32) -> Result<Vec<Claim>, OutOfMemory>
    requires bare { IsBare board.now }
    requires root { root < board.now.asserts }
    requires proved { IsProvedIn board.now root }
    ensures { IfOk result (λ cs. AreClaimsFrom board.now root (map claim_of cs.items)) }
{
    let listing = listing_of(alloc, board, root)?;
    claims_of(alloc, board, &listing)
}

/// The bundle of an assertion that is proved, of a board that is over, began without summaries and
/// on which none was published, as by one worker. Its claims are those of the root and of the
/// queries to which kills lead, also in the trees of other roots. The source has at most 65,536
/// bytes.
pub fn bundle_of(
    alloc: Global,
    board: &Board,
    root: u32,
    source: &[u8],
) -> Result<Bundle, OutOfMemory>
    requires over { is_over (reads board.now.graphs) board.now.core ≡ true }
    requires going { board.now.core.is_stopped ≡ false }
    requires bare { IsBare board.now }
    requires root { root < board.now.asserts }
    requires proved { IsProvedIn board.now root }
    requires fits { length source.now ≤ 65536 }
    ensures source { IfOk result (λ b. b.source.items ≡ source.now) }
    ensures id { IfOk result (λ b. b.id ≡ root) }
    ensures bundle { IfOk result (λ b. IsBundleOf board.now root (pure_of b)) }
    ensures right { IfOk result (λ b. IsRightProof board.now.graphs board.now.main (pure_of b)) }
    ensures ranges { IfOk result (λ b. IsBundle (pure_of b)) }
{
    let claims = claims_from(alloc, board, root)?;
    let source = source.to_vec(alloc)?;
    Ok(Bundle {
        source,
        id: root,
        claims,
    })
}
