//! The text of a bundle, both ways.

ghost use Rattle.std.specs.Prelude.{◌≡◌, IfOk, IsErrOf};
ghost use Rattle.proof_bundle.specs.Claims.{PureBundle, pure_of};
ghost use Rattle.proof_bundle.specs.Text.{IsBundle, bundle_text};
ghost use Rattle.proof_bundle.specs.declared.error.BundleError.TheVariants.{NotBundle};
ghost use Rattle.proof_bundle.specs.steps.Reading.{Gives, bytes_at};
ghost use Rattle.proof_bundle.specs.steps.Bundles.{bundle_at, id_at, source_at};

use crate::bundle::{Bundle, Claim};
use crate::error::BundleError;
use crate::number::{behind, number};
use crate::part::{read_tagged, write_list};
use c_tree::tree::AssertId;
use linear_formula::error::OutOfMemory;
use std::alloc::Global;

/// The greatest number of bytes of a source.
const MAX_SOURCE: u128 = 65_536;

/// The text of a bundle that keeps the ranges of the text. It takes time and memory in proportion
/// to the text.
pub fn print_bundle(alloc: Global, bundle: &Bundle) -> Result<Vec<u8>, OutOfMemory>
    requires { IsBundle (pure_of bundle.now) }
    ensures { IfOk result (λ text. text.items ≡ bundle_text (pure_of bundle.now)) }
{
    let mut head = String::new(alloc);
    write!(head, "smash-bundle 1\nsource {}\n", bundle.source.len())?;
    let mut body = String::new(alloc);
    write!(body, "\nassert {}\n", u64::from(bundle.id) + 1)?;
    write!(body, "claims {}\n", bundle.claims.len())?;
    write_list::<Claim>(&mut body, &bundle.claims)?;
    let mut text = head.into_bytes();
    text.extend_from_slice(&bundle.source)?;
    text.extend_from_slice(body.as_bytes())?;
    Ok(text)
}

/// The first `size` bytes, and the rest.
#[tactic(auto, unfolding(crate::specs::steps::Reading::bytes_at))]
fn part_of(bytes: &[u8], size: u128) -> Result<(&[u8], &[u8]), BundleError>
    ensures { Gives (λ r. (r.0.now, r.1.now)) result (bytes_at size bytes.now) }
{
    if size > bytes.len() as u128 {
        return Err(BundleError::NotBundle);
    }
    Ok(bytes.split_at(size as usize))
}

/// The source, after the bundle's first line and the number of its bytes.
#[tactic(auto, unfolding(crate::specs::steps::Bundles::source_at))]
fn read_source(bytes: &[u8]) -> Result<(&[u8], &[u8]), BundleError>
    ensures { Gives (λ r. (r.0.now, r.1.now)) result (source_at bytes.now) }
{
    let rest = behind(bytes, b"smash-bundle 1\nsource ")?;
    let (size, rest) = number(rest, b'\n', MAX_SOURCE)?;
    part_of(rest, size)
}

/// The assertion, counted from 1 in the text.
#[tactic(auto, unfolding(crate::specs::steps::Bundles::id_at))]
fn read_id(bytes: &[u8]) -> Result<(AssertId, &[u8]), BundleError>
    ensures { Gives (λ r. (r.0, r.1.now)) result (id_at bytes.now) }
{
    let rest = behind(bytes, b"\nassert ")?;
    let (number, rest) = number(rest, b'\n', 1 << 32)?;
    if number == 0 {
        return Err(BundleError::NotBundle);
    }
    Ok(((number - 1) as AssertId, rest))
}

#[tactic(auto, unfolding(crate::specs::steps::Bundles::bundle_at))]
fn whole(alloc: Global, bytes: &[u8]) -> Result<Bundle, BundleError>
    ensures { Gives pure_of result (bundle_at bytes.now) }
{
    let (source, rest) = read_source(bytes)?;
    let (id, rest) = read_id(rest)?;
    let (claims, rest) = read_tagged::<Claim>(alloc, rest, b"claims ")?;
    if !rest.is_empty() {
        return Err(BundleError::NotBundle);
    }
    let source = Vec::from_slice(alloc, source)?;
    Ok(Bundle { source, id, claims })
}

/// The bundle whose text the bytes are, all of them. It takes time and memory in proportion to the
/// bytes, and calls itself at most 512 deep.
pub fn read_bundle(alloc: Global, bytes: &[u8]) -> Result<Bundle, BundleError>
    ensures ok { IfOk result
        (λ b. (bytes.now ≡ bundle_text (pure_of b)) × IsBundle (pure_of b)) }
    ensures not { IsErrOf result NotBundle →
        (b : PureBundle) → IsBundle b → bytes.now ≡ bundle_text b → ⊥ }
    ensures again { IfOk result
        (λ c. (b : PureBundle) → IsBundle b → bytes.now ≡ bundle_text b → pure_of c ≡ b) }
{
    whole(alloc, bytes)
}
