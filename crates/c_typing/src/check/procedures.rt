//! All faults of a file.

ghost use Rattle.std.specs.Prelude.{◌≡◌, ◌+◌, ◌^◌, ◌<◌, ◌≤◌, None, [], ◌∷◌, ◌++◌, ◌||◌, map, length, take, slice_get, OnOk, IfOk};
ghost use Rattle.c_typing.specs.declared.fault.Which.TheVariants.{Procedures};
ghost use Rattle.c_tree.specs.SourceView.{identifier_of};
ghost use Rattle.c_tree.specs.FileView.{item_of, procedure_tree_of, global_of as tree_of_global};
ghost use Rattle.c_typing.specs.Scope.{defined_from, is_built_in, variables_of, asserts_in, asserts_in_file};
ghost use Rattle.c_typing.specs.Faults.{place_of, procedure_place, global_place, parameters_faults, global_faults, globals_faults, prototypes_faults, all_faults};
ghost use Rattle.c_typing.specs.steps.Least.{least_from};
ghost use Rattle.c_typing.specs.steps.Tables.{scopes_of, procedures_in, scoped_in, best_of, notes_of, noted, with_zeros, is_again, is_defined, heading_found, body_found, procedure_found, procedures_found};
ghost use Rattle.c_typing.specs.steps.Listed.{globals_in, names_in};
ghost use Rattle.c_typing.specs.steps.FileScopes.{file_scope};

use crate::check::expressions::declared;
use crate::check::notes::Notes;
use crate::check::statements::{VariablePlace, statements};
use crate::fault::{
    MAX_ASSERTIONS, MAX_GLOBALS, MAX_PARAMETERS, MAX_PROCEDURES, MAX_VARIABLES, TypeFault, Which,
};
use crate::scopes::Scopes;
use crate::table::{FileScope, Table, is_built_in, is_main};
use c_tree::syntax_tree::{GlobalTree, Item, Named, ProcTree};
use c_tree::tree::Pos;
use std::alloc::{AllocError, Global};

/// The place of a name by its index.
fn place_at(names: &[Named], index: usize) -> Option<Pos>
    ensures { result ≡ place_of (slice_get (map identifier_of names.now) index) }
{
    match names.get(index) {
        Some(named) => Some(named.at),
        None => None,
    }
}

/// A place by its index.
fn place(places: &[Pos], index: usize) -> Option<Pos>
    ensures { result ≡ slice_get places.now index }
{
    places.get(index).copied()
}

/// The parameters of a procedure.
fn parameters<'a>(
    scopes: &mut Scopes<'a>,
    notes: &mut Notes,
    names: &'a [Named],
) -> Result<(), AllocError>
    ensures notes { OnOk result (notes_of notes.new ≡ noted (notes_of notes.old)
        (parameters_faults (scopes_of scopes.old) (map identifier_of names.now))
        (map identifier_of names.now) []) }
    ensures scopes { OnOk result (scopes_of scopes.new ≡ with_zeros (scopes_of scopes.old)
        (map identifier_of names.now)) }
{
    for named in names {
        declared(scopes, notes, named)?;
    }
    Ok(())
}

/// The heading of the procedure of a number.
fn heading(file: &FileScope<'_, '_>, notes: &mut Notes, number: usize, tree: &ProcTree)
    ensures { notes_of notes.new ≡ noted (notes_of notes.old) (heading_found
        (is_again (file_scope file.now).procedures number (procedure_tree_of tree.now))
        (procedure_tree_of tree.now)) [] [] }
{
    let name = tree.named.name.as_str();
    let built_in = is_built_in(name);
    let again = file.table.number_of(name) < number;
    notes.found_if(built_in || again, TypeFault::Duplicate, tree.named.at);
    let shaped = !tree.void && tree.params.len() == 0;
    let main = is_main(name);
    notes.found_if(main && !shaped, TypeFault::MainShape, tree.named.at);
}

/// The parameters and the body of a procedure.
fn body(
    alloc: Global,
    file: &FileScope<'_, '_>,
    notes: &mut Notes,
    tree: &ProcTree,
) -> Result<(), AllocError>
    ensures { OnOk result (notes_of notes.new ≡ noted (notes_of notes.old)
        (body_found (file_scope file.now) (procedure_tree_of tree.now))
        (variables_of (procedure_tree_of tree.now))
        (asserts_in (procedure_tree_of tree.now).body)) }
{
    let mut scopes = Scopes::new(alloc, file.table.seed);
    scopes.open()?;
    parameters(&mut scopes, notes, &tree.params)?;
    notes.limit(Which::Parameters, place_at(&tree.params, MAX_PARAMETERS));
    let outside = VariablePlace {
        void: tree.void,
        in_loop: false,
    };
    statements(file, outside, &mut scopes, notes, &tree.body)?;
    Ok(())
}

/// The procedure of a number.
fn procedure(
    alloc: Global,
    file: &FileScope<'_, '_>,
    notes: &mut Notes,
    number: usize,
    tree: &ProcTree,
) -> Result<(), AllocError>
    ensures best { OnOk result (best_of notes.new.best ≡ least_from (best_of notes.old.best)
        (procedure_found (file_scope file.now)
        (is_again (file_scope file.now).procedures number (procedure_tree_of tree.now))
        (procedure_tree_of tree.now))) }
    ensures asserts { OnOk result (notes.new.asserts.items ≡ notes.old.asserts.items
        ++ asserts_in (procedure_tree_of tree.now).body) }
{
    notes.forget_names();
    heading(file, notes, number, tree);
    body(alloc, file, notes, tree)?;
    let past = place(&notes.declared, MAX_VARIABLES);
    notes.limit(Which::Variables, past);
    notes.limit(Which::Tokens, tree.past);
    Ok(())
}

/// How many procedures and globals stand before an item of a file.
#[derive(Clone, Copy)]
struct Before {
    procedures: usize,
    globals: usize,
}

/// An item of a file. The result says what stands before what is after it.
fn item(
    alloc: Global,
    table: &Table<'_>,
    notes: &mut Notes,
    before: Before,
    tree: &Item,
) -> Result<Before, AllocError>
    requires procedures { before.procedures < 2 ^ 63 }
    requires globals { before.globals + length (globals_in (tree.now ∷ [])) ≤ length
        (globals_in table.now.items.now) }
    ensures procedures { IfOk result
        (λ after. after.procedures ≡ before.procedures + length (procedures_in (tree.now ∷ []))) }
    ensures globals { IfOk result
        (λ after. after.globals ≡ before.globals + length (globals_in (tree.now ∷ []))) }
    ensures best { OnOk result (best_of notes.new.best ≡ least_from (best_of notes.old.best)
        (procedures_found (procedures_in table.now.items.now) before.procedures
        (scoped_in (take before.globals (names_in table.now.items.now)) (tree.now ∷ [])))) }
    ensures asserts { OnOk result (notes.new.asserts.items ≡ notes.old.asserts.items
        ++ asserts_in_file (procedures_in (tree.now ∷ []))) }
{
    let Before {
        procedures,
        globals,
    } = before;
    match tree {
        Item::Proto(_) => Ok(before),
        Item::Proc(tree) => {
            let file = FileScope { table, globals };
            procedure(alloc, &file, notes, procedures, tree)?;
            Ok(Before {
                procedures: procedures + 1,
                globals,
            })
        }
        Item::Globals(trees) => Ok(Before {
            procedures,
            globals: globals + trees.len(),
        }),
    }
}

/// The procedures of a file.
fn procedures(alloc: Global, table: &Table<'_>, notes: &mut Notes) -> Result<(), AllocError>
    ensures best { OnOk result (best_of notes.new.best ≡ least_from (best_of notes.old.best)
        (procedures_found (procedures_in table.now.items.now) 0
        (scoped_in [] table.now.items.now))) }
    ensures asserts { OnOk result (notes.new.asserts.items ≡ notes.old.asserts.items
        ++ asserts_in_file (procedures_in table.now.items.now)) }
{
    let mut before = Before {
        procedures: 0,
        globals: 0,
    };
    for tree in table.items {
        before = item(alloc, table, notes, before, tree)?;
    }
    Ok(())
}

/// The global of a number.
fn global(table: &Table<'_>, notes: &mut Notes, number: usize, tree: &GlobalTree)
    ensures { notes_of notes.new ≡ noted (notes_of notes.old)
        (global_faults (take number (names_in table.now.items.now)) (tree_of_global tree.now))
        [] [] }
{
    let name = tree.named.name.as_str();
    let built_in = is_built_in(name);
    let again = table.global_of(name, number).is_some();
    notes.found_if(built_in || again, TypeFault::Duplicate, tree.named.at);
}

/// The globals of a file.
fn globals(table: &Table<'_>, notes: &mut Notes)
    ensures { notes_of notes.new ≡ noted (notes_of notes.old)
        (globals_faults [] (globals_in table.now.items.now)) [] [] }
{
    for (number, tree) in table.globals.list.iter().enumerate() {
        global(table, notes, number, tree);
    }
}

/// The place of the first global past the limit.
fn global_past(table: &Table<'_>) -> Option<Pos>
    ensures { result ≡ global_place (slice_get (globals_in table.now.items.now) MAX_GLOBALS) }
{
    match table.globals.list.get(MAX_GLOBALS) {
        Some(tree) => Some(tree.named.at),
        None => None,
    }
}

/// Whether a name is built in or that of a procedure.
fn is_known(table: &Table<'_>, name: &str) -> bool
    ensures { result
        ≡ (is_built_in name.now || is_defined (defined_from 0 (procedures_in table.now.items.now)
        name.now)) }
{
    is_built_in(name) || table.is_defined(name)
}

/// A prototype has to be that of a built-in name or of a procedure.
fn prototype(table: &Table<'_>, notes: &mut Notes, tree: &Item)
    ensures { notes_of notes.new ≡ noted (notes_of notes.old)
        (prototypes_faults (procedures_in table.now.items.now) (item_of tree.now ∷ [])) [] [] }
{
    if let Item::Proto(named) = tree {
        let known = is_known(table, named.name.as_str());
        notes.found_if(!known, TypeFault::UnknownName, named.at);
    }
}

/// The prototypes of a file.
fn prototypes(table: &Table<'_>, notes: &mut Notes, items: &[Item])
    ensures { notes_of notes.new ≡ noted (notes_of notes.old)
        (prototypes_faults (procedures_in table.now.items.now) (map item_of items.now)) [] [] }
{
    for tree in items {
        prototype(table, notes, tree);
    }
}

/// The place of the first procedure past the limit.
fn place_past(items: &[Item]) -> Option<Pos>
    ensures { result ≡ procedure_place (slice_get (procedures_in items.now) MAX_PROCEDURES) }
{
    let mut left = MAX_PROCEDURES;
    for tree in items {
        if let Item::Proc(tree) = tree {
            if left == 0 {
                return Some(tree.named.at);
            }
            left -= 1;
        }
    }
    None
}

/// What is to be said of a file.
pub fn all(alloc: Global, table: &Table<'_>) -> Result<Notes, AllocError>
    ensures best { IfOk result (λ notes. best_of notes.best ≡ least_from None
        (all_faults (map item_of table.now.items.now))) }
    ensures asserts { IfOk result (λ notes. notes.asserts.items ≡ asserts_in_file
        (procedures_in table.now.items.now)) }
{
    let mut notes = Notes::new(alloc);
    prototypes(table, &mut notes, table.items);
    globals(table, &mut notes);
    procedures(alloc, table, &mut notes)?;
    notes.limit(Which::Procedures, place_past(table.items));
    notes.limit(Which::Variables, global_past(table));
    let past = place(&notes.asserts, MAX_ASSERTIONS);
    notes.limit(Which::Assertions, past);
    Ok(notes)
}
