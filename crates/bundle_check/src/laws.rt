//! What right claims say. These functions compute nothing: their contracts say what holds.

ghost use Rattle.bundle_check.specs.Laws.{ClaimsHold, ProofsHold};
ghost use Rattle.bundle_check.specs.Made.{ClosedStatesAreProved};
ghost use Rattle.bundle_check.specs.Named.{StoredStepsProve};

/// Of right claims none has a run, whichever of them name each other.
pub fn claims_hold()
    ensures { ClaimsHold }
{}

/// Where a proof of an assertion is right for graphs, no run of `main` fails there.
pub fn proofs_hold()
    ensures { ProofsHold }
{}

/// The steps of a query that closed without a path become a right claim.
pub fn closed_states_are_proved()
    ensures { ClosedStatesAreProved }
{}

/// Where the queries to which the stored kills of such a query lead have claims, it has a right
/// one.
pub fn stored_steps_prove()
    ensures { StoredStepsProve }
{}
