//! From a source to its program, or to the text of its refusal.

use std::alloc::{AllocError, Global};
use test_programs::program::program_of;

/// How a source is answered: `accepted`, or the text of its refusal.
pub fn answer(alloc: Global, source: &str) -> Result<String, AllocError> {
    match program_of(alloc, source.as_bytes()) {
        Ok(_) => String::from_str(alloc, "accepted"),
        Err(refusal) => format!(in alloc; "{refusal}"),
    }
}

/// A text, a part `count` times, and a text.
pub fn repeated(
    alloc: Global,
    head: &str,
    part: &str,
    count: u32,
    tail: &str,
) -> Result<String, AllocError> {
    let mut text = String::from_str(alloc, head)?;
    for _ in 0..count {
        text.push_str(part)?;
    }
    text.push_str(tail)?;
    Ok(text)
}
