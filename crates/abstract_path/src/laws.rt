//! Laws of routes. The functions do nothing: their contracts are the laws.

ghost use Rattle.std.specs.Prelude.{ℕ, List, Bool, ◌≡◌, true, false, Some};
ghost use Rattle.abstract_path.specs.Routes.{IsRoute, is_at, last_crossing};

/// Each path from a marked region to one that isn't marked has a last edge from a marked region to
/// one that isn't.
pub fn crosses()
    ensures { (edges : List (ℕ × ℕ)) (shut marked : List Bool) (start target : ℕ) (path : List ℕ) →
        is_at marked start ≡ true → is_at marked target ≡ false → IsRoute edges shut start path
        target →
        (at : ℕ) × (last_crossing edges marked path ≡ Some at) }
{}
