//! Numbers of what is added one after another: regions, trails, marks, asked queries, symbols.

ghost use Rattle.std.specs.Prelude.{◌≡◌, ◌+◌, IfOk};

use linear_formula::error::OutOfMemory;
use std::alloc::AllocError;

/// The greatest number. Where one would be greater, a call answers that memory is out, as it is
/// long before.
pub const MAX_NUMBER: u32 = 4_000_000_000;

/// The number of what stands after `others` others.
pub fn number_behind(others: usize) -> Result<u32, OutOfMemory>
    ensures { IfOk result (λ n. n ≡ others) }
{
    match u32::try_from(others) {
        Ok(number) if number <= MAX_NUMBER => Ok(number),
        _ => Err(AllocError),
    }
}

/// The number of what stands after `others` others and `more` more.
pub fn number_behind_both(others: u32, more: u32) -> Result<u32, OutOfMemory>
    ensures { IfOk result (λ n. n ≡ others + more) }
{
    match others.checked_add(more) {
        Some(number) if number <= MAX_NUMBER => Ok(number),
        _ => Err(AllocError),
    }
}
