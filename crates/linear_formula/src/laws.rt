//! Laws of the definitions that contracts cite, for the crates above. These functions compute
//! nothing.

ghost use Rattle.std.specs.Prelude.{◌≡◌, pos};
ghost use Rattle.linear_formula.specs.LinearSum.{max_parts, max_coefficient, max_constant};
ghost use Rattle.linear_formula.specs.Laws.{RenamesValues, RenamesHolding, ComparesSums, ComparesAtoms};
ghost use Rattle.linear_formula.specs.declared.term.TheConstants.{MAX_PARTS, MAX_COEFFICIENT, MAX_CONSTANT};

/// The limits of a term are the constants of `term`.
pub fn limits()
    ensures parts { MAX_PARTS ≡ max_parts }
    ensures coefficient { MAX_COEFFICIENT ≡ pos max_coefficient }
    ensures constant { MAX_CONSTANT ≡ pos max_constant }
{}

/// The values of renamed sums, and where renamed atoms hold, for every function of the columns.
pub fn renamed()
    ensures values { RenamesValues }
    ensures holding { RenamesHolding }
{}

/// `==` is equality. (`a != b` answers `not (a == b)`.)
pub fn compared()
    ensures sums { ComparesSums }
    ensures atoms { ComparesAtoms }
{}
