//! What becomes of a text that is read and printed again.

use proof_bundle::{BundleError, print_bundle, read_bundle};
use std::alloc::Global;

#[derive(Clone, Copy, Debug, PartialEq, Eq)]
pub enum Answer {
    /// It is read, and printed as it was.
    Same,
    /// It is read, and printed otherwise.
    Other,
    NotBundle,
    Memory,
}

pub fn read_and_print(alloc: Global, text: &[u8]) -> Answer {
    let bundle = match read_bundle(alloc, text) {
        Ok(bundle) => bundle,
        Err(BundleError::NotBundle) => return Answer::NotBundle,
        Err(BundleError::Memory) => return Answer::Memory,
    };
    match print_bundle(alloc, &bundle) {
        Ok(printed) if printed.as_slice() == text => Answer::Same,
        Ok(_) => Answer::Other,
        Err(_) => Answer::Memory,
    }
}
