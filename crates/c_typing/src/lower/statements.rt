//! Statements of a tree without faults as statements of a program.

ghost use Rattle.std.specs.Prelude.{◌≡◌, map, OnOk, IfOk};
ghost use Rattle.c_tree.specs.SourceTree.{declare, block, simple};
ghost use Rattle.c_tree.specs.Syntax.{return};
ghost use Rattle.c_tree.specs.SourceView.{declarator_of, simple_of, optional_tree, statement_tree_of, statement_trees_of};
ghost use Rattle.c_tree.specs.View.{statement_of, statements_of};
ghost use Rattle.c_typing.specs.Lowering.{lowered_result};
ghost use Rattle.c_typing.specs.steps.LoweringSteps.{IsWithinLimits, HasRoomFor, IsLowered, IsPlaced, AreLowered};
ghost use Rattle.c_typing.specs.steps.Tables.{scopes_of};
ghost use Rattle.c_typing.specs.steps.FileScopes.{file_scope};

use crate::lower::build::{counted, declarators, for_loop, head};
use crate::lower::expressions::returned;
use crate::lower::making::{block, boxed, do_while, if_else, if_then, nothing, while_loop};
use crate::lower::state::State;
use crate::table::FileScope;
use c_tree::syntax_tree::{Declared, ExprTree, SimpleTree, StmtTree};
use c_tree::tree::Stmt;
use std::alloc::AllocError;

/// A declaration that stands alone.
fn alone<'a>(
    file: &FileScope<'_, '_>,
    state: &mut State<'a>,
    trees: &'a [Declared],
) -> Result<Box<Stmt>, AllocError>
    requires few { IsWithinLimits (file_scope file.now) }
    requires fits { HasRoomFor state.old.next state.old.id (declare (map declarator_of trees.now)) }
    ensures { IfOk result (λ made. IsLowered (file_scope file.now)
        (scopes_of state.old.scopes) (scopes_of state.new.scopes)
        state.old.next state.old.id state.new.next state.new.id
        (declare (map declarator_of trees.now))
        (statement_of made.value)) }
{
    let mark = state.scopes.mark();
    let mut made = Vec::new(state.alloc);
    declarators(file, state, &mut made, trees)?;
    state.scopes.back_to(mark);
    boxed(state.alloc, block(made))
}

/// A statement.
#[cycle(statements)]
#[tactic(auto, using(crate::proofs::Fitting::block_shown, crate::proofs::Fitting::fits_item))]
fn statement<'a>(
    file: &FileScope<'_, '_>,
    state: &mut State<'a>,
    tree: &'a StmtTree,
) -> Result<Box<Stmt>, AllocError>
    requires few { IsWithinLimits (file_scope file.now) }
    requires fits { HasRoomFor state.old.next state.old.id (statement_tree_of tree.now) }
    ensures { IfOk result (λ made. IsLowered (file_scope file.now)
        (scopes_of state.old.scopes) (scopes_of state.new.scopes)
        state.old.next state.old.id state.new.next state.new.id (statement_tree_of tree.now)
        (statement_of made.value)) }
{
    match tree {
        StmtTree::Block(trees) => nested(file, state, trees),
        StmtTree::Empty => boxed(state.alloc, nothing(state.alloc)),
        StmtTree::Declare(trees) => alone(file, state, trees),
        StmtTree::Simple(tree) => single(file, state, tree),
        StmtTree::If(test, then, other) => {
            let then = statement(file, state, then)?;
            if let Some(other) = other {
                let other = statement(file, state, other)?;
                return if_else(file, state, test, then, other);
            }
            if_then(file, state, test, then)
        }
        StmtTree::While(test, body) => {
            let body = statement(file, state, body)?;
            while_loop(file, state, test, body)
        }
        StmtTree::DoWhile(body, test) => {
            let body = statement(file, state, body)?;
            do_while(file, state, body, test)
        }
        StmtTree::For {
            first,
            test,
            step,
            body,
        } => {
            let parts = head(file, state, first, test, step)?;
            let body = statement(file, state, body)?;
            state.scopes.close();
            for_loop(state.alloc, first, parts, body)
        }
        StmtTree::Break(_) => boxed(state.alloc, Stmt::Break),
        StmtTree::Continue(_) => boxed(state.alloc, Stmt::Continue),
        StmtTree::Return(_, value) => leaving(file, state, value),
    }
}

/// A simple statement.
fn single(
    file: &FileScope<'_, '_>,
    state: &mut State<'_>,
    tree: &SimpleTree,
) -> Result<Box<Stmt>, AllocError>
    requires few { IsWithinLimits (file_scope file.now) }
    requires fits { HasRoomFor state.old.next state.old.id (simple (simple_of tree.now)) }
    ensures { IfOk result (λ made. IsLowered (file_scope file.now)
        (scopes_of state.old.scopes) (scopes_of state.new.scopes)
        state.old.next state.old.id state.new.next state.new.id (simple (simple_of tree.now))
        (statement_of made.value)) }
{
    let made = counted(file, state, tree)?;
    boxed(state.alloc, made)
}

/// A `return`.
fn leaving(
    file: &FileScope<'_, '_>,
    state: &State<'_>,
    value: &Option<ExprTree>,
) -> Result<Box<Stmt>, AllocError>
    requires { IsWithinLimits (file_scope file.now) }
    ensures { IfOk result (λ made. statement_of made.value
        ≡ return (lowered_result (file_scope file.now)
        (scopes_of state.now.scopes) (optional_tree value.now))) }
{
    let value = returned(state.alloc, file, &state.scopes, value)?;
    boxed(state.alloc, Stmt::Return(value))
}

/// A block. (Its contract speaks of the statement, and so it takes the whole `Vec`.)
#[cycle(statements)]
#[tactic(auto, using(crate::proofs::Fitting::block_shown, crate::proofs::Fitting::fits_item))]
fn nested<'a>(
    file: &FileScope<'_, '_>,
    state: &mut State<'a>,
    trees: &'a Vec<StmtTree>,
) -> Result<Box<Stmt>, AllocError>
    requires few { IsWithinLimits (file_scope file.now) }
    requires fits { HasRoomFor state.old.next state.old.id
        (statement_tree_of (StmtTree.Block trees.now)) }
    ensures { IfOk result (λ made. IsLowered (file_scope file.now)
        (scopes_of state.old.scopes) (scopes_of state.new.scopes)
        state.old.next state.old.id state.new.next state.new.id
        (statement_tree_of (StmtTree.Block trees.now)) (statement_of made.value)) }
{
    state.scopes.open()?;
    let made = statements(file, state, trees)?;
    state.scopes.close();
    boxed(state.alloc, block(made))
}

/// The statements of a block, whose scope is open.
#[cycle(statements)]
#[tactic(auto, using(crate::proofs::Fitting::block_shown, crate::proofs::Fitting::fits_item))]
pub fn statements<'a>(
    file: &FileScope<'_, '_>,
    state: &mut State<'a>,
    trees: &'a [StmtTree],
) -> Result<Vec<Stmt>, AllocError>
    requires few { IsWithinLimits (file_scope file.now) }
    requires fits { HasRoomFor state.old.next state.old.id (block (statement_trees_of trees.now)) }
    ensures { IfOk result (λ made. AreLowered (file_scope file.now)
        (scopes_of state.old.scopes) (scopes_of state.new.scopes)
        state.old.next state.old.id state.new.next state.new.id (statement_trees_of trees.now)
        (statements_of made.items)) }
{
    let mut made = Vec::new(state.alloc);
    for tree in trees {
        in_block(file, state, tree, &mut made)?;
    }
    Ok(made)
}

/// A statement of a block; what it declares stays in scope.
#[cycle(statements)]
#[tactic(auto, using(crate::proofs::Fitting::block_shown, crate::proofs::Fitting::fits_item))]
fn in_block<'a>(
    file: &FileScope<'_, '_>,
    state: &mut State<'a>,
    tree: &'a StmtTree,
    out: &mut Vec<Stmt>,
) -> Result<(), AllocError>
    requires few { IsWithinLimits (file_scope file.now) }
    requires fits { HasRoomFor state.old.next state.old.id (statement_tree_of tree.now) }
    ensures { OnOk result (IsPlaced (file_scope file.now) (scopes_of state.old.scopes)
        (scopes_of state.new.scopes)
        state.old.next state.old.id state.new.next state.new.id (statement_tree_of tree.now)
        (statements_of out.old.items)
        (statements_of out.new.items)) }
{
    match tree {
        StmtTree::Declare(trees) => declarators(file, state, out, trees)?,
        _ => {
            let made = statement(file, state, tree)?;
            out.push(Box::into_inner(made))?;
        }
    }
    Ok(())
}
