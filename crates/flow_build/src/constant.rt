//! What is known of expressions before the run.

ghost use Rattle.std.specs.Prelude.{◌≡◌, ◌≤◌, ◌^◌, ◌+ℤ◌, ◌-ℤ◌, Some, unsigned_abs, OnSome, IsTrue};
ghost use Rattle.c_tree.specs.WellFormed.{is_divisor, nodes};
ghost use Rattle.c_tree.specs.View.{expression_of, expressions_of};
ghost use Rattle.c_tree.specs.Constants.{constant_value};
ghost use Rattle.flow_build.specs.steps.Translation.{has_call, have_call, value_of, overflows};
ghost use Rattle.flow_build.specs.steps.Operands.{overflows_in_place};
ghost use Rattle.flow_build.specs.steps.Building.{literals_fit};

use crate::layout::Layout;
use crate::operand::Operand;
use c_tree::tree::Expr;

/// The value of a constant expression, unless an operation in it stops the run.
pub fn constant_value(e: &Expr) -> Option<i64>
    ensures value { result ≡ constant_value (expression_of e.now) }
    ensures literals { OnSome result (IsTrue (literals_fit (expression_of e.now))) }
{
    match e {
        Expr::Literal(n) => Some(*n),
        Expr::Negate(inner) => constant_value(inner)?.checked_neg(),
        Expr::Binary(op, left, right) => {
            let left = constant_value(left)?;
            let right = constant_value(right)?;
            op.operation(left, right)
        }
        _ => None,
    }
}

/// The literal by which an expression divides.
pub fn divisor(e: &Expr) -> i64
    requires { IsTrue (is_divisor (expression_of e.now)) }
    ensures value { constant_value (expression_of e.now) ≡ Some result }
    ensures small { unsigned_abs result ≤ 2 ^ 40 }
    ensures literals { IsTrue (literals_fit (expression_of e.now)) }
    ensures nodes { nodes (expression_of e.now) ≡ 1 }
{
    match e {
        Expr::Literal(n) => *n,
        _ => unreachable!(),
    }
}

/// Whether a call stands in the expression.
pub fn has_call(e: &Expr) -> bool
    ensures { result ≡ has_call (expression_of e.now) }
{
    match e {
        Expr::Literal(_) | Expr::Read(_) | Expr::ReadGlobal(_) | Expr::Input => false,
        Expr::Call(_, _) => true,
        Expr::Negate(inner) => has_call(inner),
        Expr::Not(inner) => has_call(inner),
        Expr::Binary(_, left, right) => has_call(left) || has_call(right),
    }
}

/// Whether a call stands in one of the expressions.
pub fn have_call(es: &[Expr]) -> bool
    ensures { result ≡ have_call (expressions_of es.now) }
{
    match es {
        [] => false,
        [first, rest @ ..] => has_call(first) || have_call(rest),
    }
}

/// Whether the exact multiple of a literal in place is no value.
pub fn overflows_by(coefficient: i64, a: Operand) -> bool
    ensures { result ≡ overflows_in_place coefficient a }
{
    match a {
        Operand::Variable(_) => false,
        Operand::Constant(n) => coefficient.checked_mul(n).is_none(),
    }
}

/// Whether both sides are literals whose exact sum is no value.
pub fn sum_overflows(layout: Layout, left: &Expr, right: &Expr) -> bool
    ensures { result ≡ overflows (λ x y. x +ℤ y) (value_of layout (expression_of left.now))
        (value_of layout (expression_of right.now)) }
{
    match (left, right) {
        (Expr::Literal(x), Expr::Literal(y)) => x.checked_add(*y).is_none(),
        _ => false,
    }
}

/// Whether both sides are literals whose exact difference is no value.
pub fn difference_overflows(layout: Layout, left: &Expr, right: &Expr) -> bool
    ensures { result ≡ overflows (λ x y. x -ℤ y) (value_of layout (expression_of left.now))
        (value_of layout (expression_of right.now)) }
{
    match (left, right) {
        (Expr::Literal(x), Expr::Literal(y)) => x.checked_sub(*y).is_none(),
        _ => false,
    }
}
