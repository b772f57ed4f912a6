//! What is written of an edit beside the report of its new source.

ghost use Rattle.std.specs.Prelude.{◌≡◌, IfOk};
ghost use Rattle.report_text.specs.Edits.{kept_line, old_refusal_text, short_source_text};
ghost use Rattle.report_text.specs.Refused.{IsOfSource, refusal_text as refusal_of};

use crate::OutOfMemory;
use crate::fault::Refusal;
use crate::refusals::refusal_text;
use std::alloc::Global;

/// The line of how many summaries of the old source are kept, of how many there are.
pub fn kept(alloc: Global, kept: u32, all: u32) -> Result<Vec<u8>, OutOfMemory>
    ensures { IfOk result (λ text. text.items ≡ kept_line kept all) }
{
    let text = format!(in alloc; "kept {kept} of {all}\n")?;
    Ok(text.into_bytes())
}

/// What is written where there are fewer bytes than the old source is to have.
pub fn short_source(alloc: Global, length: u32) -> Result<Vec<u8>, OutOfMemory>
    ensures { IfOk result (λ text. text.items ≡ short_source_text length) }
{
    let text = format!(in alloc; "refused: old source shorter than {length} bytes\n")?;
    Ok(text.into_bytes())
}

/// What is written of an old source that is refused. Lack of memory is no refusal.
pub fn old_refusal(alloc: Global, why: &Refusal) -> Result<Vec<u8>, OutOfMemory>
    requires { IsOfSource why.now }
    ensures { IfOk result (λ text. text.items ≡ old_refusal_text (refusal_of why.now)) }
{
    let line = refusal_text(alloc, *why)?;
    let text = format!(in alloc; "old: {line}")?;
    Ok(text.into_bytes())
}
