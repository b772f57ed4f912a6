//! The statements of a program.

ghost use Rattle.std.specs.Prelude.{◌≡◌, ◌+◌, ◌*◌, ◌^◌, ◌<◌, ◌≤◌, [], ◌∷◌, ◌++◌, length, map, OnOk, IfOk, MatchOption};
ghost use Rattle.c_tree.specs.SourceView.{tree_of, simple_of};
ghost use Rattle.c_tree.specs.Syntax.{block, if_else, loop, do_while};
ghost use Rattle.c_tree.specs.View.{expression_of, expressions_of, statement_of, statements_of};
ghost use Rattle.c_typing.specs.Scope.{asserts_by_simple};
ghost use Rattle.c_typing.specs.Lowering.{changed, nothing, lowered, first_of, called_statement, lowered_simple};
ghost use Rattle.c_typing.specs.steps.LoweringSteps.{IsWithinLimits, IsQuietSimple};
ghost use Rattle.c_typing.specs.steps.Tables.{scopes_of, callee_from, number_in};
ghost use Rattle.c_typing.specs.steps.FileScopes.{file_scope};
ghost use Rattle.c_typing.specs.steps.Places.{place_of};

use crate::lower::expressions::{self, arguments, call, expression, right_side};
use crate::lower::state::State;
use crate::lower::variable::{Variable, variable_named};
use crate::scopes::Scopes;
use crate::table::{Called, FileScope};
use c_tree::syntax_tree::{ExprTree, SimpleTree};
use c_tree::tree::{Expr, Op, Stmt};
use std::alloc::{AllocError, Global};

/// An empty block.
pub fn nothing(alloc: Global) -> Stmt
    ensures { statement_of result ≡ nothing }
{
    block(Vec::new(alloc))
}

/// A block.
pub fn block(made: Vec<Stmt>) -> Stmt
    ensures { statement_of result ≡ block (statements_of made.items) }
{
    Stmt::Block(made)
}

/// A statement in a box.
pub fn boxed(alloc: Global, made: Stmt) -> Result<Box<Stmt>, AllocError>
    ensures { IfOk result (λ b. statement_of b.value ≡ statement_of made) }
{
    Ok(Box::new(alloc, made)?)
}

/// A conditional statement.
pub fn if_else(
    file: &FileScope<'_, '_>,
    state: &State<'_>,
    test: &ExprTree,
    then: Box<Stmt>,
    other: Box<Stmt>,
) -> Result<Box<Stmt>, AllocError>
    requires { IsWithinLimits (file_scope file.now) }
    ensures { IfOk result (λ made. statement_of made.value
        ≡ if_else (lowered (file_scope file.now)
        (scopes_of state.now.scopes) (tree_of test.now)) (statement_of then.value) (statement_of
        other.value)) }
{
    let test = expression(state.alloc, file, &state.scopes, test)?;
    boxed(state.alloc, Stmt::If(test, then, other))
}

/// A conditional statement without an `else`.
pub fn if_then(
    file: &FileScope<'_, '_>,
    state: &State<'_>,
    test: &ExprTree,
    then: Box<Stmt>,
) -> Result<Box<Stmt>, AllocError>
    requires { IsWithinLimits (file_scope file.now) }
    ensures { IfOk result (λ made. statement_of made.value
        ≡ if_else (lowered (file_scope file.now)
        (scopes_of state.now.scopes) (tree_of test.now)) (statement_of then.value) nothing) }
{
    let other = boxed(state.alloc, nothing(state.alloc))?;
    if_else(file, state, test, then, other)
}

/// A loop that tests before its body.
pub fn while_loop(
    file: &FileScope<'_, '_>,
    state: &State<'_>,
    test: &ExprTree,
    body: Box<Stmt>,
) -> Result<Box<Stmt>, AllocError>
    requires { IsWithinLimits (file_scope file.now) }
    ensures { IfOk result (λ made. statement_of made.value
        ≡ loop (lowered (file_scope file.now)
        (scopes_of state.now.scopes) (tree_of test.now)) nothing (statement_of body.value)) }
{
    let step = boxed(state.alloc, nothing(state.alloc))?;
    let test = expression(state.alloc, file, &state.scopes, test)?;
    boxed(state.alloc, Stmt::Loop { test, step, body })
}

/// A loop that tests after its body.
pub fn do_while(
    file: &FileScope<'_, '_>,
    state: &State<'_>,
    body: Box<Stmt>,
    test: &ExprTree,
) -> Result<Box<Stmt>, AllocError>
    requires { IsWithinLimits (file_scope file.now) }
    ensures { IfOk result (λ made. statement_of made.value ≡ do_while (statement_of body.value)
        (lowered (file_scope file.now)
        (scopes_of state.now.scopes) (tree_of test.now))) }
{
    let test = expression(state.alloc, file, &state.scopes, test)?;
    boxed(state.alloc, Stmt::DoWhile(body, test))
}

/// How many assertions a simple statement is.
pub fn asserted(tree: &SimpleTree) -> u32
    requires { IsQuietSimple (simple_of tree.now) }
    ensures value { result ≡ length (asserts_by_simple (simple_of tree.now)) }
    ensures few { result ≤ 1 }
{
    match tree {
        SimpleTree::Call(named, _) => {
            if named.name.as_str() == "assert" {
                1
            } else {
                0
            }
        }
        _ => 0,
    }
}

/// The first of the values of a call, 0 without one.
fn first_of(values: Vec<Expr>) -> Expr
    ensures { expression_of result ≡ first_of (expressions_of values.items) }
{
    match values.into_iter().next() {
        Some(value) => value,
        None => Expr::Literal(0),
    }
}

/// A call that is a statement; `id` assertions stand before it.
fn called_statement(called: Called, id: u32, values: Vec<Expr>) -> Stmt
    requires { number_in (callee_from called) < 2 ^ 32 }
    ensures { statement_of result ≡ called_statement (callee_from called) id
        (expressions_of values.items) }
{
    match called {
        Called::Assume => Stmt::Assume(first_of(values)),
        Called::Assert => Stmt::Assert(id, first_of(values)),
        Called::Unknown => nothing(*values.allocator()),
        _ => Stmt::Ignore(call(called, values)),
    }
}

/// A change of a variable by an operation.
fn change(alloc: Global, variable: Variable, op: Op, value: Expr) -> Result<Stmt, AllocError>
    ensures { IfOk result (λ made. statement_of made ≡ changed (place_of variable) op
        (expression_of value)) }
{
    let right = expressions::boxed(alloc, value)?;
    let left = expressions::boxed(alloc, variable.read())?;
    Ok(variable.set(Expr::Binary(op, left, right)))
}

/// A simple statement; `id` assertions stand before it.
pub fn simple(
    alloc: Global,
    file: &FileScope<'_, '_>,
    scopes: &Scopes<'_>,
    id: u32,
    tree: &SimpleTree,
) -> Result<Stmt, AllocError>
    requires { IsWithinLimits (file_scope file.now) }
    ensures { IfOk result
        (λ made. statement_of made ≡ lowered_simple (file_scope file.now)
        (scopes_of scopes.now) id
        (simple_of tree.now)) }
{
    match tree {
        SimpleTree::Set(named, value) => {
            let value = expression(alloc, file, scopes, value)?;
            Ok(variable_named(file, scopes, named).set(value))
        }
        SimpleTree::Change(op, _, named, value) => {
            let value = expression(alloc, file, scopes, value)?;
            let variable = variable_named(file, scopes, named);
            change(alloc, variable, *op, right_side(*op, value))
        }
        SimpleTree::AddOne(named) => {
            let variable = variable_named(file, scopes, named);
            change(alloc, variable, Op::Add, Expr::Literal(1))
        }
        SimpleTree::SubtractOne(named) => {
            let variable = variable_named(file, scopes, named);
            change(alloc, variable, Op::Subtract, Expr::Literal(1))
        }
        SimpleTree::Call(named, values) => {
            let values = arguments(alloc, file, scopes, values)?;
            let called = file.callee_of(named.name.as_str());
            Ok(called_statement(called, id, values))
        }
    }
}
