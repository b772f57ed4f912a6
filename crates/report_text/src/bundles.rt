//! The texts of bundles, of those that are made and of those that are checked.

ghost use Rattle.std.specs.Prelude.{◌≡◌, IfOk};
ghost use Rattle.report_text.specs.Bundles.{accepted_line, long_bundle_text, long_proof_line, no_assertion_text, no_bundle_text, rejected_line};

use crate::OutOfMemory;
use c_tree::tree::AssertPlace;
use std::alloc::Global;

const LONG_BUNDLE: &str = "refused: bundle longer than 16777216 bytes\n";

const NO_BUNDLE: &str = "refused: not a bundle\n";

const NO_ASSERTION: &str = "refused: no such assertion\n";

/// The line of an assertion that is proved by a bundle that is longer than one may be.
pub fn long_proof(alloc: Global, place: &AssertPlace) -> Result<Vec<u8>, OutOfMemory>
    ensures { IfOk result (λ text. text.items ≡ long_proof_line place.now) }
{
    let at = place.at;
    let text = format!(in alloc; "{}:{}: proved, bundle too long\n", at.line, at.column)?;
    Ok(text.into_bytes())
}

/// The line of a bundle that is accepted as a proof of an assertion.
pub fn accepted(alloc: Global, place: &AssertPlace) -> Result<Vec<u8>, OutOfMemory>
    ensures { IfOk result (λ text. text.items ≡ accepted_line place.now) }
{
    let at = place.at;
    let text = format!(in alloc; "accepted {}:{}\n", at.line, at.column)?;
    Ok(text.into_bytes())
}

/// The line of a bundle whose claim of this number is the first that isn't accepted.
pub fn rejected(alloc: Global, claim: u32) -> Result<Vec<u8>, OutOfMemory>
    ensures { IfOk result (λ text. text.items ≡ rejected_line claim) }
{
    let text = format!(in alloc; "rejected claim {claim}\n")?;
    Ok(text.into_bytes())
}

/// What is written of a bundle that is longer than one may be.
pub fn long_bundle() -> &'static [u8]
    ensures { result.now ≡ long_bundle_text }
{
    LONG_BUNDLE.as_bytes()
}

/// What is written of bytes that are no bundle.
pub fn no_bundle() -> &'static [u8]
    ensures { result.now ≡ no_bundle_text }
{
    NO_BUNDLE.as_bytes()
}

/// What is written where the program has no assertion of the number that is asked for.
pub fn no_assertion() -> &'static [u8]
    ensures { result.now ≡ no_assertion_text }
{
    NO_ASSERTION.as_bytes()
}
