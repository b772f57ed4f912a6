//! Laws of what the commands answer. These functions compute nothing: their contracts say what
//! holds.

ghost use Rattle.smash_run.specs.Laws.{BundlesAreAccepted};

use flow_build::laws::one_lowering;
use proof_bundle::laws::one_text;

/// `recheck` accepts what `bundle` writes.
pub fn bundles_are_accepted()
    ensures { BundlesAreAccepted }
{
    one_text();
    one_lowering();
}
