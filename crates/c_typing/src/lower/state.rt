//! What the lowering of a procedure keeps.

use crate::scopes::Scopes;
use std::alloc::Global;

/// The open scopes, the next slot of the procedure, and the number of the next assertion.
#[derive(Drop)]
pub struct State<'a> {
    pub alloc: Global,
    pub scopes: Scopes<'a>,
    pub next: u32,
    pub id: u32,
}
