//! The check of certificates.

ghost use Rattle.std.specs.Prelude.{◌↔◌, IsTrue, List};
ghost use Rattle.linear_formula.specs.LinearSum.{Valuation, Is64};
ghost use Rattle.linear_formula.specs.Formula.{HoldsAll, are_terms};
ghost use Rattle.linear_formula.specs.declared.formula.Atom.{Atom};
ghost use Rattle.infeasible_cert.specs.Refutation.{Refutation, refutation_of};
ghost use Rattle.infeasible_cert.specs.Right.{Refutes};
ghost use Rattle.infeasible_cert.specs.Terms.{HasTerms};

use crate::certificate::Certificate;
use crate::columns::{Columns, list_columns};
use crate::rows::{Nodes, Rows};
use crate::walk::is_right;
use linear_formula::formula::Cube;

/// The law that no assignment of 64-bit values meets a cube that has a right certificate. It
/// computes nothing.
pub fn right_is_sound()
    ensures { (atoms : List Atom) (c : Refutation) (v : Valuation) → IsTrue (are_terms atoms) →
        HasTerms c → Refutes atoms c →
        Is64 v → HoldsAll v atoms → ⊥ }
{}

/// How deep branches may nest: `max_nesting` of the definitions.
const MAX_NESTING: u32 = 512;

/// How many columns of a cube are listed; those after them are looked up in the cube.
const LISTED_COLUMNS: usize = 1024;

/// Whether the certificate is right for the cube. Then no assignment of 64-bit values meets the
/// cube, and `right_is_sound` speaks of the certificate. It takes no memory.
pub fn refutes(cube: &Cube, certificate: &Certificate) -> bool
    ensures right { IsTrue result ↔ Refutes cube.now.atoms (refutation_of certificate.now) }
    ensures terms { IsTrue result → HasTerms (refutation_of certificate.now) }
    ensures sound { IsTrue result → (v : Valuation) → Is64 v → HoldsAll v cube.now.atoms → ⊥ }
{
    let atoms = cube.atoms.as_slice();
    let mut first = [0; LISTED_COLUMNS];
    let count = list_columns(atoms, &mut first);
    let columns = Columns {
        atoms,
        count,
        first: &first,
    };
    let rows = Rows {
        columns: &columns,
        nodes: &Nodes::Top,
    };
    is_right(certificate, &rows, MAX_NESTING)
}
