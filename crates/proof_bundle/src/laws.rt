//! What texts of bundles say. The function computes nothing: its contract says what holds.

ghost use Rattle.proof_bundle.specs.Text.{OneText};

/// A text is that of one bundle at most.
pub fn one_text()
    ensures { OneText }
{}
