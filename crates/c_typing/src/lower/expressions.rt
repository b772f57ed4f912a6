//! The program of a tree without faults.

ghost use Rattle.std.specs.Prelude.{◌≡◌, ◌^◌, ◌<◌, IfOk};
ghost use Rattle.c_tree.specs.SourceView.{tree_of, trees_of, optional_tree};
ghost use Rattle.c_tree.specs.Syntax.{binary};
ghost use Rattle.c_tree.specs.View.{expression_of, expressions_of, optional_expression};
ghost use Rattle.c_tree.specs.Constants.{constant_value};
ghost use Rattle.c_typing.specs.Lowering.{right_side, lowered_call, lowered, lowered_all, lowered_value, lowered_test, lowered_result};
ghost use Rattle.c_typing.specs.steps.Tables.{scopes_of, callee_from, number_in};
ghost use Rattle.c_typing.specs.steps.LoweringSteps.{IsWithinLimits};
ghost use Rattle.c_typing.specs.steps.FileScopes.{file_scope};

use crate::lower::variable::variable_named;
use crate::scopes::Scopes;
use crate::table::{Called, FileScope};
use c_tree::syntax_tree::ExprTree;
use c_tree::tree::{Expr, Op};
use std::alloc::{AllocError, Global};

/// A call of what is called.
pub fn call(called: Called, values: Vec<Expr>) -> Expr
    requires { number_in (callee_from called) < 2 ^ 32 }
    ensures { expression_of result ≡ lowered_call (callee_from called)
        (expressions_of values.items) }
{
    match called {
        Called::Input => Expr::Input,
        Called::Defined(number, _, _) => Expr::Call(number as u32, values),
        _ => Expr::Literal(0),
    }
}

/// An expression in a box.
pub fn boxed(alloc: Global, made: Expr) -> Result<Box<Expr>, AllocError>
    ensures { IfOk result (λ b. expression_of b.value ≡ expression_of made) }
{
    Ok(Box::new(alloc, made)?)
}

/// The value of a constant expression, unless an operation in it stops the run.
fn constant_value(made: &Expr) -> Option<i64>
    ensures { result ≡ constant_value (expression_of made.now) }
{
    match made {
        Expr::Literal(value) => Some(*value),
        Expr::Negate(inner) => constant_value(inner)?.checked_neg(),
        Expr::Binary(op, left, right) => {
            let left = constant_value(left)?;
            let right = constant_value(right)?;
            op.operation(left, right)
        }
        _ => None,
    }
}

/// The right side of an operator: a divisor is its value.
pub fn right_side(op: Op, made: Expr) -> Expr
    ensures { expression_of result ≡ right_side op (expression_of made) }
{
    if op.is_division() {
        Expr::Literal(constant_value(&made).unwrap_or(0))
    } else {
        made
    }
}

/// A binary operation.
pub fn binary(alloc: Global, op: Op, left: Box<Expr>, right: Expr) -> Result<Expr, AllocError>
    ensures { IfOk result (λ made. expression_of made ≡ binary op (expression_of left.value)
        (expression_of right)) }
{
    Ok(Expr::Binary(op, left, boxed(alloc, right)?))
}

/// An expression.
#[cycle(expressions)]
pub fn expression(
    alloc: Global,
    file: &FileScope<'_, '_>,
    scopes: &Scopes<'_>,
    tree: &ExprTree,
) -> Result<Expr, AllocError>
    requires { IsWithinLimits (file_scope file.now) }
    ensures { IfOk result (λ made. expression_of made ≡ lowered (file_scope file.now)
        (scopes_of scopes.now) (tree_of tree.now)) }
{
    match tree {
        ExprTree::Literal(value) => Ok(Expr::Literal(*value)),
        ExprTree::Name(named) => Ok(variable_named(file, scopes, named).read()),
        ExprTree::Call(named, values) => {
            let values = arguments(alloc, file, scopes, values)?;
            let called = file.callee_of(named.name.as_str());
            Ok(call(called, values))
        }
        ExprTree::Not(inner) => {
            let inner = expression(alloc, file, scopes, inner)?;
            Ok(Expr::Not(boxed(alloc, inner)?))
        }
        ExprTree::Negate(inner) => {
            let inner = expression(alloc, file, scopes, inner)?;
            Ok(Expr::Negate(boxed(alloc, inner)?))
        }
        ExprTree::Plus(inner) => expression(alloc, file, scopes, inner),
        ExprTree::Binary(op, _, left, right) => {
            let left = expression(alloc, file, scopes, left)?;
            let left = boxed(alloc, left)?;
            let right = expression(alloc, file, scopes, right)?;
            binary(alloc, *op, left, right_side(*op, right))
        }
    }
}

/// The arguments of a call.
#[cycle(expressions)]
pub fn arguments(
    alloc: Global,
    file: &FileScope<'_, '_>,
    scopes: &Scopes<'_>,
    trees: &[ExprTree],
) -> Result<Vec<Expr>, AllocError>
    requires { IsWithinLimits (file_scope file.now) }
    ensures { IfOk result (λ made. expressions_of made.items
        ≡ lowered_all (file_scope file.now) (scopes_of scopes.now)
        (trees_of trees.now)) }
{
    let mut made = Vec::new(alloc);
    for tree in trees {
        let value = expression(alloc, file, scopes, tree)?;
        made.push(value)?;
    }
    Ok(made)
}

/// The value of a declaration, 0 without an initialiser.
pub fn value(
    alloc: Global,
    file: &FileScope<'_, '_>,
    scopes: &Scopes<'_>,
    tree: &Option<ExprTree>,
) -> Result<Expr, AllocError>
    requires { IsWithinLimits (file_scope file.now) }
    ensures { IfOk result
        (λ made. expression_of made ≡ lowered_value (file_scope file.now)
        (scopes_of scopes.now)
        (optional_tree tree.now)) }
{
    match tree {
        Some(tree) => expression(alloc, file, scopes, tree),
        None => Ok(Expr::Literal(0)),
    }
}

/// The condition of a `for`, 1 without one.
pub fn test(
    alloc: Global,
    file: &FileScope<'_, '_>,
    scopes: &Scopes<'_>,
    tree: &Option<ExprTree>,
) -> Result<Expr, AllocError>
    requires { IsWithinLimits (file_scope file.now) }
    ensures { IfOk result
        (λ made. expression_of made ≡ lowered_test (file_scope file.now)
        (scopes_of scopes.now)
        (optional_tree tree.now)) }
{
    match tree {
        Some(tree) => expression(alloc, file, scopes, tree),
        None => Ok(Expr::Literal(1)),
    }
}

/// What a `return` returns.
pub fn returned(
    alloc: Global,
    file: &FileScope<'_, '_>,
    scopes: &Scopes<'_>,
    tree: &Option<ExprTree>,
) -> Result<Option<Expr>, AllocError>
    requires { IsWithinLimits (file_scope file.now) }
    ensures { IfOk result (λ made. optional_expression made ≡ lowered_result
        (file_scope file.now) (scopes_of scopes.now)
        (optional_tree tree.now)) }
{
    match tree {
        Some(tree) => Ok(Some(expression(alloc, file, scopes, tree)?)),
        None => Ok(None),
    }
}
