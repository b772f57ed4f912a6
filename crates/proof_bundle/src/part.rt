//! Parts of a text.

ghost use Rattle.std.specs.Prelude.{◌≡◌, ◌++◌, ℕ, List, OnOk, map, flat_map, string_bytes};
ghost use Rattle.proof_bundle.specs.steps.Reading.{Gives, Read, lines_at, list_at, tagged_at};

use crate::error::BundleError;
use crate::number::{behind, count};
use std::alloc::{AllocError, Global};

/// What has a text, whose end shows.
pub trait Part: Drop {
    ghost Pure: { Type 0 };

    ghost pure: { Self → Pure };

    ghost text: { Pure → List ℕ };

    ghost at: { List ℕ → Read Pure };

    /// The part whose text the bytes begin with, and the bytes after it.
    fn read(alloc: Global, bytes: &[u8]) -> Result<(Self, &[u8]), BundleError>
        ensures { Gives (λ r. (pure r.0, r.1.now)) result (at bytes.now) };

    /// Puts the text at the end.
    fn write(&self, out: &mut String) -> Result<(), AllocError>
        ensures { OnOk result
            (string_bytes out.new ≡ string_bytes out.old ++ text (pure self.now)) };
}

/// This many parts, one after the other. Memory is taken for those alone that are read.
pub fn read_list<T: Part>(
    alloc: Global,
    bytes: &[u8],
    count: u64,
) -> Result<(Vec<T>, &[u8]), BundleError>
    ensures { Gives (λ r. (map T.pure r.0.items, r.1.now)) result (list_at T.at count bytes.now) }
{
    let mut items = Vec::new(alloc);
    let mut rest = bytes;
    for _ in 0..count {
        let (item, behind) = T::read(alloc, rest)?;
        items.push(item)?;
        rest = behind;
    }
    Ok((items, rest))
}

/// Parts after the line of their number.
#[tactic(auto, unfolding(crate::specs::steps::Reading::lines_at))]
pub fn read_lines<T: Part>(alloc: Global, bytes: &[u8]) -> Result<(Vec<T>, &[u8]), BundleError>
    ensures { Gives (λ r. (map T.pure r.0.items, r.1.now)) result (lines_at T.at bytes.now) }
{
    let (count, rest) = count(bytes, b'\n')?;
    read_list::<T>(alloc, rest, count)
}

/// A list of this kind of lines, after the words that name it.
#[tactic(auto, unfolding(crate::specs::steps::Reading::tagged_at))]
pub fn read_tagged<'a, T: Part>(
    alloc: Global,
    bytes: &'a [u8],
    tag: &[u8],
) -> Result<(Vec<T>, &'a [u8]), BundleError>
    ensures { Gives (λ r. (map T.pure r.0.items, r.1.now)) result
        (tagged_at tag.now T.at bytes.now) }
{
    let rest = behind(bytes, tag)?;
    read_lines::<T>(alloc, rest)
}

/// Puts the texts at the end, one after the other.
pub fn write_list<T: Part>(out: &mut String, items: &[T]) -> Result<(), AllocError>
    ensures { OnOk result
        (string_bytes out.new ≡ string_bytes out.old ++ flat_map T.text (map T.pure items.now)) }
{
    for item in items {
        item.write(out)?;
    }
    Ok(())
}
