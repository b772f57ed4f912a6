//! What a sweep answers.

use shadow_elim::limit::Kept;

/// How a sweep ends.
#[derive(Drop)]
pub enum SweepEnd {
    /// Each feasible path was counted.
    Whole,
    /// One path more than may be was counted.
    More,
    /// The first question that met a limit.
    Limit(Kept),
}

/// For each assertion the inputs that take the first counted path that fails there, if there is
/// one; and how the sweep ended.
#[derive(Drop)]
pub struct Swept {
    pub found: Vec<Option<Vec<i64>>>,
    pub end: SweepEnd,
}
