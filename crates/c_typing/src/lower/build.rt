//! The statements of a tree without faults as statements of a program.

ghost use Rattle.std.specs.Prelude.{◌≡◌, ◌+◌, ◌<◌, ◌≤◌, [], ◌∷◌, length, map, OnOk, IfOk};
ghost use Rattle.c_tree.specs.SourceView.{declarator_of, simple_of, optional_simple, optional_tree, init_of};
ghost use Rattle.c_tree.specs.Syntax.{set, loop, statement, no_statements};
ghost use Rattle.c_tree.specs.View.{expression_of, statement_of, statements_of};
ghost use Rattle.c_typing.specs.Scope.{with_variable, with_names, names_of, declared_by_init, asserts_by_simple, asserts_by_step, asserts_by_init};
ghost use Rattle.c_typing.specs.Lowering.{joined, lowered_value, lowered_test, lowered_declarators, lowered_simple, lowered_step, init_scopes};
ghost use Rattle.c_typing.specs.steps.LoweringSteps.{IsWithinLimits, IsQuietSimple, IsQuietStep, IsQuietInit, init_statements, wrapped};
ghost use Rattle.c_typing.specs.steps.Tables.{scopes_of, IsLonger};
ghost use Rattle.c_typing.specs.steps.FileScopes.{file_scope};

use crate::fault::{MAX_ASSERTIONS, MAX_VARIABLES};
use crate::lower::expressions::{test, value};
use crate::lower::making::{asserted, block, boxed, nothing, simple};
use crate::lower::state::State;
use crate::table::FileScope;
use c_tree::syntax_tree::{Declared, ExprTree, ForFirst, SimpleTree};
use c_tree::tree::{Expr, Stmt};
use std::alloc::{AllocError, Global};

/// A declared name becomes a set.
fn declarator<'a>(
    file: &FileScope<'_, '_>,
    state: &mut State<'a>,
    out: &mut Vec<Stmt>,
    tree: &'a Declared,
) -> Result<(), AllocError>
    requires few { IsWithinLimits (file_scope file.now) }
    requires room { state.old.next < MAX_VARIABLES }
    ensures out { OnOk result (statements_of out.new.items ≡ joined (statements_of out.old.items)
        (statement (set state.old.next (lowered_value (file_scope file.now)
        (scopes_of state.old.scopes)
        (declarator_of tree.now).value)) no_statements)) }
    ensures next { OnOk result (state.new.next ≡ state.old.next + 1) }
    ensures id { OnOk result (state.new.id ≡ state.old.id) }
    ensures scopes { OnOk result
        (scopes_of state.new.scopes ≡ with_variable (scopes_of state.old.scopes)
        (declarator_of tree.now).named.name state.old.next) }
    ensures longer { OnOk result (IsLonger state.old.scopes state.new.scopes) }
{
    let value = value(state.alloc, file, &state.scopes, &tree.value)?;
    out.push(Stmt::Set(state.next, value))?;
    state.scopes.declare(tree.named.name.as_str(), state.next)?;
    state.next += 1;
    Ok(())
}

/// A declaration becomes sets.
pub fn declarators<'a>(
    file: &FileScope<'_, '_>,
    state: &mut State<'a>,
    out: &mut Vec<Stmt>,
    trees: &'a [Declared],
) -> Result<(), AllocError>
    requires few { IsWithinLimits (file_scope file.now) }
    requires room { state.old.next + length (names_of (map declarator_of trees.now)) ≤
        MAX_VARIABLES }
    ensures out { OnOk result (statements_of out.new.items ≡ joined (statements_of out.old.items)
        (lowered_declarators (file_scope file.now) (scopes_of state.old.scopes)
        state.old.next (map declarator_of trees.now))) }
    ensures next { OnOk result (state.new.next ≡ state.old.next
        + length (names_of (map declarator_of trees.now))) }
    ensures id { OnOk result (state.new.id ≡ state.old.id) }
    ensures scopes { OnOk result
        (scopes_of state.new.scopes ≡ with_names (scopes_of state.old.scopes)
        state.old.next (names_of (map declarator_of trees.now))) }
    ensures longer { OnOk result (IsLonger state.old.scopes state.new.scopes) }
{
    for tree in trees {
        declarator(file, state, out, tree)?;
    }
    Ok(())
}

/// A simple statement, which counts its assertion.
pub fn counted(
    file: &FileScope<'_, '_>,
    state: &mut State<'_>,
    tree: &SimpleTree,
) -> Result<Stmt, AllocError>
    requires few { IsWithinLimits (file_scope file.now) }
    requires room { state.old.id + length (asserts_by_simple (simple_of tree.now)) ≤
        MAX_ASSERTIONS }
    requires quiet { IsQuietSimple (simple_of tree.now) }
    ensures made { IfOk result
        (λ made. statement_of made ≡ lowered_simple (file_scope file.now)
        (scopes_of state.old.scopes) state.old.id (simple_of tree.now)) }
    ensures next { OnOk result (state.new.next ≡ state.old.next) }
    ensures id { OnOk result
        (state.new.id ≡ state.old.id + length (asserts_by_simple (simple_of tree.now))) }
    ensures scopes { OnOk result (state.new.scopes ≡ state.old.scopes) }
{
    let made = simple(state.alloc, file, &state.scopes, state.id, tree)?;
    state.id += asserted(tree);
    Ok(made)
}

/// The step of a `for`, which counts its assertion.
fn counted_step(
    file: &FileScope<'_, '_>,
    state: &mut State<'_>,
    tree: &Option<SimpleTree>,
) -> Result<Box<Stmt>, AllocError>
    requires few { IsWithinLimits (file_scope file.now) }
    requires room { state.old.id + length (asserts_by_step (optional_simple tree.now)) ≤
        MAX_ASSERTIONS }
    requires quiet { IsQuietStep (optional_simple tree.now) }
    ensures made { IfOk result (λ made. statement_of made.value
        ≡ lowered_step (file_scope file.now)
        (scopes_of state.old.scopes) state.old.id (optional_simple tree.now)) }
    ensures next { OnOk result (state.new.next ≡ state.old.next) }
    ensures id { OnOk result
        (state.new.id ≡ state.old.id + length (asserts_by_step (optional_simple tree.now))) }
    ensures scopes { OnOk result (state.new.scopes ≡ state.old.scopes) }
{
    match tree {
        Some(tree) => {
            let made = counted(file, state, tree)?;
            boxed(state.alloc, made)
        }
        None => boxed(state.alloc, nothing(state.alloc)),
    }
}

/// The statements that the first part of a `for` becomes.
fn start<'a>(
    file: &FileScope<'_, '_>,
    state: &mut State<'a>,
    tree: &'a ForFirst,
) -> Result<Vec<Stmt>, AllocError>
    requires few { IsWithinLimits (file_scope file.now) }
    requires names { state.old.next + length (declared_by_init (init_of tree.now)) ≤ MAX_VARIABLES }
    requires room { state.old.id + length (asserts_by_init (init_of tree.now)) ≤ MAX_ASSERTIONS }
    requires quiet { IsQuietInit (init_of tree.now) }
    ensures made { IfOk result (λ made. statements_of made.items ≡ init_statements
        (file_scope file.now)
        (scopes_of state.old.scopes) state.old.next state.old.id (init_of tree.now)) }
    ensures next { OnOk result (state.new.next ≡ state.old.next
        + length (declared_by_init (init_of tree.now))) }
    ensures id { OnOk result
        (state.new.id ≡ state.old.id + length (asserts_by_init (init_of tree.now))) }
    ensures scopes { OnOk result
        (scopes_of state.new.scopes ≡ with_names (scopes_of state.old.scopes)
        state.old.next (declared_by_init (init_of tree.now))) }
{
    let mut made = Vec::new(state.alloc);
    match tree {
        ForFirst::Nothing => {}
        ForFirst::Declare(trees) => declarators(file, state, &mut made, trees)?,
        ForFirst::Simple(tree) => {
            let first = counted(file, state, tree)?;
            made.push(first)?;
        }
    }
    Ok(made)
}

/// The parts of a `for` before its body.
#[derive(Drop)]
pub struct Beginning {
    pub before: Vec<Stmt>,
    pub test: Expr,
    pub step: Box<Stmt>,
}

/// The parts of a `for` before its body, in a scope that stays open.
pub fn head<'a>(
    file: &FileScope<'_, '_>,
    state: &mut State<'a>,
    tree: &'a ForFirst,
    condition: &Option<ExprTree>,
    next: &Option<SimpleTree>,
) -> Result<Box<Beginning>, AllocError>
    requires few { IsWithinLimits (file_scope file.now) }
    requires names { state.old.next + length (declared_by_init (init_of tree.now)) ≤ MAX_VARIABLES }
    requires room { state.old.id + length (asserts_by_init (init_of tree.now))
        + length (asserts_by_step (optional_simple next.now)) ≤ MAX_ASSERTIONS }
    requires quiet { IsQuietInit (init_of tree.now) }
    requires quiet_step { IsQuietStep (optional_simple next.now) }
    ensures before { IfOk result (λ made. statements_of made.value.before.items ≡ init_statements
        (file_scope file.now)
        ([] ∷ scopes_of state.old.scopes) state.old.next state.old.id (init_of tree.now)) }
    ensures test { IfOk result (λ made. expression_of made.value.test
        ≡ lowered_test (file_scope file.now)
        (init_scopes (file_scope file.now) (scopes_of state.old.scopes) state.old.next
        (init_of tree.now))
        (optional_tree condition.now)) }
    ensures step { IfOk result (λ made. statement_of made.value.step.value
        ≡ lowered_step (file_scope file.now)
        (init_scopes (file_scope file.now) (scopes_of state.old.scopes) state.old.next
        (init_of tree.now))
        (state.old.id + length (asserts_by_init (init_of tree.now))) (optional_simple next.now)) }
    ensures next { OnOk result (state.new.next ≡ state.old.next
        + length (declared_by_init (init_of tree.now))) }
    ensures id { OnOk result
        (state.new.id ≡ state.old.id + length (asserts_by_init (init_of tree.now))
        + length
        (asserts_by_step (optional_simple next.now))) }
    ensures scopes { OnOk result
        (scopes_of state.new.scopes ≡ init_scopes (file_scope file.now)
        (scopes_of state.old.scopes) state.old.next (init_of tree.now)) }
{
    state.scopes.open()?;
    let before = start(file, state, tree)?;
    let step = counted_step(file, state, next)?;
    let test = test(state.alloc, file, &state.scopes, condition)?;
    Ok(Box::new(state.alloc, Beginning { before, test, step })?)
}

/// Statements and then a loop; without a first part the loop alone.
fn wrapped(
    alloc: Global,
    tree: &ForFirst,
    mut before: Vec<Stmt>,
    whole: Box<Stmt>,
) -> Result<Box<Stmt>, AllocError>
    ensures { IfOk result (λ made. statement_of made.value ≡ wrapped (init_of tree.now)
        (statements_of before.items) (statement_of whole.value)) }
{
    match tree {
        ForFirst::Nothing => Ok(whole),
        _ => {
            before.push(Box::into_inner(whole))?;
            boxed(alloc, block(before))
        }
    }
}

/// A `for` of its parts and its body.
pub fn for_loop(
    alloc: Global,
    tree: &ForFirst,
    parts: Box<Beginning>,
    body: Box<Stmt>,
) -> Result<Box<Stmt>, AllocError>
    ensures { IfOk result (λ made. statement_of made.value ≡ wrapped (init_of tree.now)
        (statements_of parts.value.before.items)
        (loop (expression_of parts.value.test) (statement_of parts.value.step.value)
        (statement_of body.value))) }
{
    let Beginning { before, test, step } = Box::into_inner(parts);
    let whole = boxed(alloc, Stmt::Loop { test, step, body })?;
    wrapped(alloc, tree, before, whole)
}
