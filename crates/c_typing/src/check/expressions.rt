//! The faults of expressions, simple statements and declarations.

ghost use Rattle.std.specs.Prelude.{◌≡◌, [], ◌∷◌, ◌++◌, ◌&&◌, ◌||◌, not, map, OnOk, IfOk};
ghost use Rattle.c_typing.specs.declared.fault.TypeFault.TheVariants.{NotLinear, Duplicate, BadDivisor};
ghost use Rattle.c_tree.specs.Operators.{is_division, is_product};
ghost use Rattle.c_tree.specs.SourceView.{identifier_of, tree_of, trees_of, optional_tree, simple_of, optional_simple, declarator_of, init_of};
ghost use Rattle.c_typing.specs.Scope.{callee_of, if_assert, asserts_of, asserts_of_all, asserts_of_optional, asserts_by_simple, asserts_by_step, asserts_by_declarators, asserts_by_init, is_declared_here, is_built_in, with_variable, names_of, declared_by_init};
ghost use Rattle.c_typing.specs.Faults.{fault_if, callee_faults, name_faults, expression_faults, arguments_faults, optional_faults, simple_faults, step_faults, declared_faults, declarators_faults, init_faults};
ghost use Rattle.c_typing.specs.steps.Tables.{scopes_of, IsLonger, callee_from, notes_of, noted, with_zeros};
ghost use Rattle.c_typing.specs.steps.FileScopes.{file_scope};
ghost use Rattle.c_typing.specs.steps.Sides.{side_of, is_constant_side, is_divisor_side};

use crate::check::notes::Notes;
use crate::check::side::Side;
use crate::fault::TypeFault;
use crate::scopes::Scopes;
use crate::table::{Called, FileScope, is_built_in, is_main};
use c_tree::syntax_tree::{Declared, ExprTree, ForFirst, Named, SimpleTree};
use c_tree::tree::{Op, Pos};
use std::alloc::AllocError;

/// An operator at a place, with what is known of its sides.
fn operator(notes: &mut Notes, op: Op, at: Pos, left: Side, right: Side)
    ensures { notes_of notes.new ≡ noted (notes_of notes.old)
        (fault_if (is_product op && not (is_constant_side left || is_constant_side right)) NotLinear
        at ++ fault_if (is_division op && not (is_divisor_side right)) BadDivisor at) [] [] }
{
    let constant = left.is_constant() || right.is_constant();
    notes.found_if(op.is_product() && !constant, TypeFault::NotLinear, at);
    let allowed = right.is_divisor();
    notes.found_if(op.is_division() && !allowed, TypeFault::BadDivisor, at);
}

/// A variable that isn't in scope.
fn name(file: &FileScope<'_, '_>, scopes: &Scopes<'_>, notes: &mut Notes, name: &Named)
    ensures { notes_of notes.new ≡ noted (notes_of notes.old)
        (name_faults (file_scope file.now) (scopes_of scopes.now) (identifier_of name.now)) [] [] }
{
    let local = scopes.slot_of(name.name.as_str());
    let global = file.global_of(name.name.as_str());
    let unknown = local.is_none() && global.is_none();
    notes.found_if(unknown, TypeFault::UnknownName, name.at);
}

/// A call of what is called, with `count` arguments. `used` says that its value is used.
fn called(notes: &mut Notes, called: Called, name: &Named, count: usize, used: bool)
    ensures { notes_of notes.new ≡ noted (notes_of notes.old)
        (callee_faults (callee_from called) (identifier_of name.now) count used) [] [] }
{
    match called {
        Called::Input => notes.found_if(count != 0, TypeFault::WrongCount, name.at),
        Called::Assume | Called::Assert => {
            notes.found_if(count != 1, TypeFault::WrongCount, name.at);
            notes.found_if(used, TypeFault::VoidValue, name.at);
        }
        Called::Defined(_, params, void) => {
            notes.found_if(count != params, TypeFault::WrongCount, name.at);
            notes.found_if(used && void, TypeFault::VoidValue, name.at);
            notes.found_if(is_main(name.name.as_str()), TypeFault::MainShape, name.at);
        }
        Called::Unknown => notes.found_if(true, TypeFault::UnknownName, name.at),
    }
}

/// The name of a call with `count` arguments.
fn callee(
    file: &FileScope<'_, '_>,
    notes: &mut Notes,
    name: &Named,
    count: usize,
    used: bool,
) -> Result<(), AllocError>
    ensures { OnOk result (notes_of notes.new ≡ noted (notes_of notes.old)
        (callee_faults (callee_of (file_scope file.now).procedures (identifier_of name.now).name)
        (identifier_of name.now) count used) [] (if_assert (identifier_of name.now))) }
{
    called(notes, file.callee_of(name.name.as_str()), name, count, used);
    if name.name.as_str() == "assert" {
        notes.assertion(name.at)?;
    }
    Ok(())
}

/// An expression. The result is what is known of it before a run.
#[cycle(expressions)]
pub fn expression(
    file: &FileScope<'_, '_>,
    scopes: &Scopes<'_>,
    notes: &mut Notes,
    tree: &ExprTree,
) -> Result<Side, AllocError>
    ensures notes { OnOk result (notes_of notes.new ≡ noted (notes_of notes.old)
        (expression_faults (file_scope file.now) (scopes_of scopes.now)
        (tree_of tree.now))
        []
        (asserts_of (tree_of tree.now))) }
    ensures side { IfOk result (λ side. side ≡ side_of (file_scope file.now) (scopes_of scopes.now)
        (tree_of tree.now)) }
{
    match tree {
        ExprTree::Literal(value) => Ok(Side::Is(*value)),
        ExprTree::Name(named) => {
            name(file, scopes, notes, named);
            Ok(Side::Varies)
        }
        ExprTree::Call(named, values) => {
            callee(file, notes, named, values.len(), true)?;
            arguments(file, scopes, notes, values)?;
            Ok(Side::Varies)
        }
        ExprTree::Not(inner) => {
            expression(file, scopes, notes, inner)?;
            Ok(Side::Varies)
        }
        ExprTree::Negate(inner) => {
            let inner = expression(file, scopes, notes, inner)?;
            Ok(inner.negated())
        }
        ExprTree::Plus(inner) => expression(file, scopes, notes, inner),
        ExprTree::Binary(op, at, left, right) => {
            let left = expression(file, scopes, notes, left)?;
            let right = expression(file, scopes, notes, right)?;
            operator(notes, *op, *at, left, right);
            Ok(Side::combined(*op, left, right))
        }
    }
}

/// The arguments of a call.
#[cycle(expressions)]
fn arguments(
    file: &FileScope<'_, '_>,
    scopes: &Scopes<'_>,
    notes: &mut Notes,
    trees: &[ExprTree],
) -> Result<(), AllocError>
    ensures { OnOk result (notes_of notes.new ≡ noted (notes_of notes.old)
        (arguments_faults (file_scope file.now) (scopes_of scopes.now)
        (trees_of trees.now))
        []
        (asserts_of_all (trees_of trees.now))) }
{
    for tree in trees {
        expression(file, scopes, notes, tree)?;
    }
    Ok(())
}

/// An expression that may be absent.
pub fn optional(
    file: &FileScope<'_, '_>,
    scopes: &Scopes<'_>,
    notes: &mut Notes,
    tree: &Option<ExprTree>,
) -> Result<(), AllocError>
    ensures { OnOk result (notes_of notes.new ≡ noted (notes_of notes.old)
        (optional_faults (file_scope file.now) (scopes_of scopes.now)
        (optional_tree tree.now)) []
        (asserts_of_optional (optional_tree tree.now))) }
{
    if let Some(tree) = tree {
        expression(file, scopes, notes, tree)?;
    }
    Ok(())
}

/// A simple statement.
pub fn simple(
    file: &FileScope<'_, '_>,
    scopes: &Scopes<'_>,
    notes: &mut Notes,
    tree: &SimpleTree,
) -> Result<(), AllocError>
    ensures { OnOk result (notes_of notes.new ≡ noted (notes_of notes.old)
        (simple_faults (file_scope file.now) (scopes_of scopes.now)
        (simple_of tree.now))
        []
        (asserts_by_simple (simple_of tree.now))) }
{
    match tree {
        SimpleTree::Set(named, value) => {
            name(file, scopes, notes, named);
            expression(file, scopes, notes, value)?;
        }
        SimpleTree::Change(op, at, named, value) => {
            name(file, scopes, notes, named);
            let right = expression(file, scopes, notes, value)?;
            operator(notes, *op, *at, Side::Varies, right);
        }
        SimpleTree::AddOne(named) | SimpleTree::SubtractOne(named) => name(
            file, scopes, notes, named,
        ),
        SimpleTree::Call(named, values) => {
            callee(file, notes, named, values.len(), false)?;
            arguments(file, scopes, notes, values)?;
        }
    }
    Ok(())
}

/// The step of a `for`, which may be absent.
pub fn step(
    file: &FileScope<'_, '_>,
    scopes: &Scopes<'_>,
    notes: &mut Notes,
    tree: &Option<SimpleTree>,
) -> Result<(), AllocError>
    ensures { OnOk result (notes_of notes.new ≡ noted (notes_of notes.old)
        (step_faults (file_scope file.now) (scopes_of scopes.now)
        (optional_simple tree.now))
        []
        (asserts_by_step (optional_simple tree.now))) }
{
    if let Some(tree) = tree {
        simple(file, scopes, notes, tree)?;
    }
    Ok(())
}

/// A name that is declared.
pub fn declared<'a>(
    scopes: &mut Scopes<'a>,
    notes: &mut Notes,
    named: &'a Named,
) -> Result<(), AllocError>
    ensures notes { OnOk result (notes_of notes.new ≡ noted (notes_of notes.old)
        (fault_if (is_declared_here (scopes_of scopes.old) (identifier_of named.now).name ||
        is_built_in
        (identifier_of named.now).name) Duplicate (identifier_of named.now).at) (identifier_of
        named.now ∷ []) []) }
    ensures scopes { OnOk result (scopes_of scopes.new ≡ with_variable (scopes_of scopes.old)
        (identifier_of named.now).name 0) }
    ensures longer { OnOk result (IsLonger scopes.old scopes.new) }
{
    let text = named.name.as_str();
    let known = scopes.is_declared_here(text);
    let built_in = is_built_in(text);
    notes.found_if(known || built_in, TypeFault::Duplicate, named.at);
    notes.declaration(named)?;
    scopes.declare(text, 0)
}

/// A name of a declaration with its initialiser, which doesn't see the name.
fn declarator<'a>(
    file: &FileScope<'_, '_>,
    scopes: &mut Scopes<'a>,
    notes: &mut Notes,
    tree: &'a Declared,
) -> Result<(), AllocError>
    ensures notes { OnOk result (notes_of notes.new ≡ noted (notes_of notes.old)
        (optional_faults (file_scope file.now) (scopes_of scopes.old)
        (declarator_of tree.now).value ++ declared_faults
        (file_scope file.now) (scopes_of scopes.old) (declarator_of tree.now).named)
        ((declarator_of tree.now).named ∷ [])
        (asserts_of_optional (declarator_of tree.now).value)) }
    ensures scopes { OnOk result (scopes_of scopes.new ≡ with_variable (scopes_of scopes.old)
        (declarator_of tree.now).named.name 0) }
    ensures longer { OnOk result (IsLonger scopes.old scopes.new) }
{
    optional(file, scopes, notes, &tree.value)?;
    declared(scopes, notes, &tree.named)?;
    Ok(())
}

/// A declaration.
pub fn declarators<'a>(
    file: &FileScope<'_, '_>,
    scopes: &mut Scopes<'a>,
    notes: &mut Notes,
    trees: &'a [Declared],
) -> Result<(), AllocError>
    ensures notes { OnOk result (notes_of notes.new ≡ noted (notes_of notes.old)
        (declarators_faults (file_scope file.now) (scopes_of scopes.old)
        (map declarator_of trees.now))
        (names_of (map declarator_of trees.now))
        (asserts_by_declarators (map declarator_of trees.now))) }
    ensures scopes { OnOk result (scopes_of scopes.new ≡ with_zeros (scopes_of scopes.old)
        (names_of (map declarator_of trees.now))) }
    ensures longer { OnOk result (IsLonger scopes.old scopes.new) }
{
    for tree in trees {
        declarator(file, scopes, notes, tree)?;
    }
    Ok(())
}

/// The first part of a `for`.
pub fn first<'a>(
    file: &FileScope<'_, '_>,
    scopes: &mut Scopes<'a>,
    notes: &mut Notes,
    tree: &'a ForFirst,
) -> Result<(), AllocError>
    ensures notes { OnOk result (notes_of notes.new ≡ noted (notes_of notes.old)
        (init_faults (file_scope file.now) (scopes_of scopes.old) (init_of tree.now))
        (declared_by_init (init_of tree.now))
        (asserts_by_init (init_of tree.now))) }
    ensures scopes { OnOk result (scopes_of scopes.new ≡ with_zeros (scopes_of scopes.old)
        (declared_by_init (init_of tree.now))) }
{
    match tree {
        ForFirst::Nothing => Ok(()),
        ForFirst::Declare(trees) => declarators(file, scopes, notes, trees),
        ForFirst::Simple(tree) => simple(file, scopes, notes, tree),
    }
}
