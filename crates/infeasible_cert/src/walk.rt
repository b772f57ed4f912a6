//! The check of certificates, node by node.

ghost use Rattle.std.specs.Prelude.{◌≡◌, ◌≤◌, ◌↔◌, [], pos, ◌≤ℤ◌, IsTrue};
ghost use Rattle.infeasible_cert.specs.Refutation.{refutation_of};
ghost use Rattle.infeasible_cert.specs.Right.{AreRightSteps, EndsInContradiction, IsRight, nesting};
ghost use Rattle.infeasible_cert.specs.Terms.{AreDerivedTerms, HasTerms};
ghost use Rattle.infeasible_cert.specs.steps.Known.{rows_in, RowsInOrder};

use crate::certificate::{Certificate, Derived};
use crate::rows::{Nodes, Rows};
use crate::step::is_right_step;
use linear_formula::term::Term;

fn derives<'x>(rows: &'x Rows<'x>, derived: &'x [Derived]) -> bool
    requires { RowsInOrder (rows_in rows.now) }
    ensures right { IsTrue result ↔ AreRightSteps (rows_in rows.now) derived.now }
    ensures terms { IsTrue result → AreDerivedTerms derived.now }
{
    for i in 0..derived.len() {
        let nodes = Nodes::Steps {
            above: rows.nodes,
            derived: &derived[..i],
        };
        let known = Rows {
            columns: rows.columns,
            nodes: &nodes,
        };
        if !is_right_step(&known, &derived[i]) {
            return false;
        }
    }
    true
}

/// Whether the row is never met.
fn is_contradiction(term: &Term) -> bool
    ensures { IsTrue result ↔ ((term.now.parts ≡ []) × (pos 1 ≤ℤ term.now.constant)) }
{
    term.parts().is_empty() && term.constant() >= 1
}

fn ends_in_contradiction(derived: &[Derived]) -> bool
    ensures { IsTrue result ↔ EndsInContradiction derived.now }
{
    if derived.is_empty() {
        return false;
    }
    is_contradiction(&derived[derived.len() - 1].row.term)
}

fn is_closed<'x>(rows: &'x Rows<'x>, derived: &'x [Derived]) -> bool
    requires { RowsInOrder (rows_in rows.now) }
    ensures right { IsTrue result ↔
        (AreRightSteps (rows_in rows.now) derived.now × EndsInContradiction derived.now) }
    ensures terms { IsTrue result → AreDerivedTerms derived.now }
{
    derives(rows, derived) && ends_in_contradiction(derived)
}

/// Whether the certificate is right from these rows on, and its branches nest no deeper than
/// `depth`.
pub fn is_right<'x>(certificate: &'x Certificate, rows: &'x Rows<'x>, depth: u32) -> bool
    requires { RowsInOrder (rows_in rows.now) }
    ensures right { IsTrue result ↔
        ((nesting (refutation_of certificate.now) ≤ depth) × IsRight (rows_in rows.now)
        (refutation_of certificate.now)) }
    ensures terms { IsTrue result → HasTerms (refutation_of certificate.now) }
{
    match certificate {
        Certificate::Close(derived) => is_closed(rows, derived),
        Certificate::Branch {
            rows: derived,
            column,
            at,
            low,
            high,
        } => {
            if depth == 0 || *at == i64::MAX || !derives(rows, derived) {
                return false;
            }
            let known = Nodes::Steps {
                above: rows.nodes,
                derived,
            };
            let below = Nodes::Bound {
                above: &known,
                column: *column,
                coefficient: 1,
                constant: -i128::from(*at),
            };
            let beyond = Nodes::Bound {
                above: &known,
                column: *column,
                coefficient: -1,
                constant: i128::from(*at) + 1,
            };
            let lower = Rows {
                columns: rows.columns,
                nodes: &below,
            };
            let upper = Rows {
                columns: rows.columns,
                nodes: &beyond,
            };
            is_right(&**low, &lower, depth - 1) && is_right(&**high, &upper, depth - 1)
        }
    }
}
