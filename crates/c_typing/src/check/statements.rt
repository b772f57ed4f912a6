//! All faults of statements.

ghost use Rattle.std.specs.Prelude.{◌≡◌, [], ◌∷◌, ◌++◌, map, OnOk};
ghost use Rattle.c_typing.specs.declared.fault.TypeFault.TheVariants.{OutsideLoop};
ghost use Rattle.c_tree.specs.SourceView.{optional_tree, optional_simple, init_of, declarator_of, statement_tree_of, statement_trees_of};
ghost use Rattle.c_typing.specs.Scope.{names_of, declared_by_init, declared_by, declared_in, asserts_of_optional, asserts_by_declarators, asserts_by_init, asserts_by_step, asserts_by, asserts_in};
ghost use Rattle.c_typing.specs.Faults.{optional_faults, declarators_faults, init_faults, step_faults, return_faults, statement_faults, statements_faults};
ghost use Rattle.c_typing.specs.steps.Tables.{scopes_of, notes_of, noted, with_zeros, zeros_after, outer_of};
ghost use Rattle.c_typing.specs.steps.FileScopes.{file_scope};

use crate::check::expressions::{declarators, expression, first, optional, simple, step};
use crate::check::notes::Notes;
use crate::fault::TypeFault;
use crate::scopes::Scopes;
use crate::table::FileScope;
use c_tree::syntax_tree::{Declared, ExprTree, ForFirst, SimpleTree, StmtTree};
use c_tree::tree::Pos;
use std::alloc::AllocError;

/// Where a statement stands: in a `void` procedure or another, in a loop or not.
#[derive(Clone, Copy)]
pub struct VariablePlace {
    pub void: bool,
    pub in_loop: bool,
}

/// A declaration that stands alone is in scope nowhere after it.
fn alone<'a>(
    file: &FileScope<'_, '_>,
    scopes: &mut Scopes<'a>,
    notes: &mut Notes,
    trees: &'a [Declared],
) -> Result<(), AllocError>
    ensures notes { OnOk result (notes_of notes.new ≡ noted (notes_of notes.old)
        (declarators_faults (file_scope file.now) (scopes_of scopes.old)
        (map declarator_of trees.now))
        (names_of (map declarator_of trees.now))
        (asserts_by_declarators (map declarator_of trees.now))) }
    ensures scopes { OnOk result (scopes_of scopes.new ≡ scopes_of scopes.old) }
{
    let mark = scopes.mark();
    declarators(file, scopes, notes, trees)?;
    scopes.back_to(mark);
    Ok(())
}

/// The parts of a `for` before its body, in a scope that stays open.
fn head<'a>(
    file: &FileScope<'_, '_>,
    scopes: &mut Scopes<'a>,
    notes: &mut Notes,
    start: &'a ForFirst,
    test: &Option<ExprTree>,
    next: &Option<SimpleTree>,
) -> Result<(), AllocError>
    ensures notes { OnOk result (notes_of notes.new ≡ noted (notes_of notes.old)
        (init_faults (file_scope file.now) ([] ∷ scopes_of scopes.old)
        (init_of start.now)
        ++ (optional_faults (file_scope file.now)
        (with_zeros ([] ∷ scopes_of scopes.old) (declared_by_init (init_of start.now)))
        (optional_tree test.now)
        ++ step_faults (file_scope file.now)
        (with_zeros ([] ∷ scopes_of scopes.old) (declared_by_init (init_of start.now)))
        (optional_simple next.now)))
        (declared_by_init (init_of start.now))
        (asserts_by_init (init_of start.now) ++ (asserts_of_optional (optional_tree test.now)
        ++ asserts_by_step (optional_simple next.now)))) }
    ensures scopes { OnOk result (scopes_of scopes.new ≡ with_zeros ([] ∷ scopes_of scopes.old)
        (declared_by_init (init_of start.now))) }
{
    scopes.open()?;
    first(file, scopes, notes, start)?;
    optional(file, scopes, notes, test)?;
    step(file, scopes, notes, next)?;
    Ok(())
}

/// What a `return` at a place returns.
fn returned(
    file: &FileScope<'_, '_>,
    void: bool,
    scopes: &Scopes<'_>,
    notes: &mut Notes,
    at: Pos,
    value: &Option<ExprTree>,
) -> Result<(), AllocError>
    ensures { OnOk result (notes_of notes.new ≡ noted (notes_of notes.old)
        (return_faults (file_scope file.now) void at (optional_tree value.now)
        ++ optional_faults
        (file_scope file.now) (scopes_of scopes.now) (optional_tree value.now)) []
        (asserts_of_optional (optional_tree value.now))) }
{
    if let Some(value) = value {
        notes.found_if(void, TypeFault::VoidValue, at);
        expression(file, scopes, notes, value)?;
    }
    Ok(())
}

/// A statement; after it the scopes are as before.
#[cycle(statements)]
fn statement<'a>(
    file: &FileScope<'_, '_>,
    place: VariablePlace,
    scopes: &mut Scopes<'a>,
    notes: &mut Notes,
    tree: &'a StmtTree,
) -> Result<(), AllocError>
    ensures notes { OnOk result (notes_of notes.new ≡ noted (notes_of notes.old)
        (statement_faults (file_scope file.now) place.void place.in_loop
        (scopes_of scopes.old) (statement_tree_of tree.now))
        (declared_by (statement_tree_of tree.now)) (asserts_by (statement_tree_of tree.now))) }
    ensures scopes { OnOk result (scopes_of scopes.new ≡ scopes_of scopes.old) }
{
    let inside = VariablePlace {
        void: place.void,
        in_loop: true,
    };
    match tree {
        StmtTree::Block(trees) => {
            scopes.open()?;
            statements(file, place, scopes, notes, trees)?;
            scopes.close();
        }
        StmtTree::Empty => {}
        StmtTree::Declare(trees) => alone(file, scopes, notes, trees)?,
        StmtTree::Simple(tree) => simple(file, scopes, notes, tree)?,
        StmtTree::If(test, then, other) => {
            expression(file, scopes, notes, test)?;
            statement(file, place, scopes, notes, then)?;
            if let Some(other) = other {
                statement(file, place, scopes, notes, other)?;
            }
        }
        StmtTree::While(test, body) => {
            expression(file, scopes, notes, test)?;
            statement(file, inside, scopes, notes, body)?;
        }
        StmtTree::DoWhile(body, test) => {
            statement(file, inside, scopes, notes, body)?;
            expression(file, scopes, notes, test)?;
        }
        StmtTree::For {
            first: start,
            test,
            step: next,
            body,
        } => {
            head(file, scopes, notes, start, test, next)?;
            statement(file, inside, scopes, notes, body)?;
            scopes.close();
        }
        StmtTree::Break(at) => notes.found_if(!place.in_loop, TypeFault::OutsideLoop, *at),
        StmtTree::Continue(at) => notes.found_if(!place.in_loop, TypeFault::OutsideLoop, *at),
        StmtTree::Return(at, value) => returned(file, place.void, scopes, notes, *at, value)?,
    }
    Ok(())
}

/// The statements of a block, whose scope is open.
#[cycle(statements)]
pub fn statements<'a>(
    file: &FileScope<'_, '_>,
    place: VariablePlace,
    scopes: &mut Scopes<'a>,
    notes: &mut Notes,
    trees: &'a [StmtTree],
) -> Result<(), AllocError>
    ensures notes { OnOk result (notes_of notes.new ≡ noted (notes_of notes.old)
        (statements_faults (file_scope file.now) place.void place.in_loop
        (scopes_of scopes.old)
        (statement_trees_of trees.now)) (declared_in (statement_trees_of trees.now)) (asserts_in
        (statement_trees_of trees.now))) }
    ensures outer { OnOk result (outer_of (scopes_of scopes.new)
        ≡ outer_of (scopes_of scopes.old)) }
{
    for tree in trees {
        in_block(file, place, scopes, notes, tree)?;
    }
    Ok(())
}

/// A statement of a block; what it declares stays in scope.
#[cycle(statements)]
fn in_block<'a>(
    file: &FileScope<'_, '_>,
    place: VariablePlace,
    scopes: &mut Scopes<'a>,
    notes: &mut Notes,
    tree: &'a StmtTree,
) -> Result<(), AllocError>
    ensures notes { OnOk result (notes_of notes.new ≡ noted (notes_of notes.old)
        (statement_faults (file_scope file.now) place.void place.in_loop
        (scopes_of scopes.old) (statement_tree_of tree.now))
        (declared_by (statement_tree_of tree.now)) (asserts_by (statement_tree_of tree.now))) }
    ensures scopes { OnOk result (scopes_of scopes.new ≡ zeros_after (scopes_of scopes.old)
        (statement_tree_of tree.now)) }
{
    match tree {
        StmtTree::Declare(trees) => declarators(file, scopes, notes, trees),
        _ => statement(file, place, scopes, notes, tree),
    }
}
