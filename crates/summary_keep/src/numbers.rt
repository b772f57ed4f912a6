//! Which number a procedure or an assertion has in an edited program.

use c_tree::tree::{AssertId, ProcId};

/// For each procedure and each assertion of an old program its number in the new one, if it is the
/// same there.
#[derive(Drop)]
pub struct Matching {
    pub procs: Vec<Option<ProcId>>,
    pub asserts: Vec<Option<AssertId>>,
}
