//! The program of a file without faults.

ghost use Rattle.std.specs.Prelude.{◌≡◌, ◌+◌, ◌≤◌, not, [], ◌∷◌, ◌++◌, length, map, take, drop, OnOk, IfOk};
ghost use Rattle.c_tree.specs.SourceView.{identifier_of};
ghost use Rattle.c_tree.specs.FileView.{procedure_tree_of};
ghost use Rattle.c_tree.specs.View.{procedure_of, statements_of};
ghost use Rattle.c_typing.specs.Scope.{with_names, variables_of, asserts_in, asserts_in_file};
ghost use Rattle.c_typing.specs.Lowering.{lowered_procedure, lowered_procedures, assert_places, opening_values};
ghost use Rattle.c_typing.specs.steps.LoweringSteps.{IsWithinLimits, ProcedureFits, ProceduresFit, placed};
ghost use Rattle.c_typing.specs.steps.Tables.{scopes_of, procedures_in, scoped_in};
ghost use Rattle.c_typing.specs.steps.Listed.{globals_in, names_in};
ghost use Rattle.c_typing.specs.steps.FileScopes.{file_scope};

use crate::fault::{MAX_GLOBALS, MAX_PROCEDURES, MAX_VARIABLES};
use crate::lower::state::State;
use crate::lower::statements::statements;
use crate::scopes::Scopes;
use crate::table::{FileScope, Table};
use c_tree::syntax_tree::{Item, Named, ProcTree};
use c_tree::tree::{AssertPlace, Pos, Procedure, Stmt};
use std::alloc::{AllocError, Global};

/// The scope of the parameters, and how many there are.
fn parameters<'a>(scopes: &mut Scopes<'a>, names: &'a [Named]) -> Result<u32, AllocError>
    requires { length names.now ≤ MAX_VARIABLES }
    ensures count { IfOk result (λ count. count ≡ length names.now) }
    ensures scopes { OnOk result (scopes_of scopes.new ≡ with_names (scopes_of scopes.old) 0
        (map identifier_of names.now)) }
{
    let mut slot = 0u32;
    for named in names {
        scopes.declare(named.name.as_str(), slot)?;
        slot += 1;
    }
    Ok(slot)
}

/// The body of a procedure, whose parameters are its first variables.
fn body<'a>(
    file: &FileScope<'_, '_>,
    state: &mut State<'a>,
    tree: &'a ProcTree,
) -> Result<Vec<Stmt>, AllocError>
    requires few { IsWithinLimits (file_scope file.now) }
    requires fits { ProcedureFits state.old.id (procedure_tree_of tree.now) }
    requires outside { scopes_of state.old.scopes ≡ [] }
    ensures made { IfOk result (λ made. statements_of made.items
        ≡ (lowered_procedure (file_scope file.now) state.old.id
        (procedure_tree_of tree.now)).body) }
    ensures next { OnOk result
        (state.new.next ≡ length (variables_of (procedure_tree_of tree.now))) }
    ensures id { OnOk result
        (state.new.id ≡ state.old.id + length (asserts_in (procedure_tree_of tree.now).body)) }
{
    state.scopes.open()?;
    state.next = parameters(&mut state.scopes, &tree.params)?;
    statements(file, state, &tree.body)
}

/// A procedure of `slots` variables, with its body.
fn finished(tree: &ProcTree, slots: u32, body: Vec<Stmt>) -> Result<Procedure, AllocError>
    requires { length (procedure_tree_of tree.now).params ≤ MAX_VARIABLES }
    ensures { IfOk result (λ made. procedure_of made ≡ record {
      name = (procedure_tree_of tree.now).named.name;
      params = length (procedure_tree_of tree.now).params;
      slots = slots;
      gives = not (procedure_tree_of tree.now).void;
      body = statements_of body.items;
    }) }
{
    let name = tree.named.name.clone()?;
    Ok(Procedure {
        name,
        params: tree.params.len() as u32,
        slots,
        gives: !tree.void,
        body,
    })
}

/// A procedure. `id` counts the assertions before it, and at the end its own too.
fn procedure(
    alloc: Global,
    file: &FileScope<'_, '_>,
    id: &mut u32,
    tree: &ProcTree,
) -> Result<Procedure, AllocError>
    requires few { IsWithinLimits (file_scope file.now) }
    requires fits { ProcedureFits id.old (procedure_tree_of tree.now) }
    ensures made { IfOk result (λ made. procedure_of made ≡ lowered_procedure
        (file_scope file.now) id.old
        (procedure_tree_of tree.now)) }
    ensures id { OnOk result
        (id.new ≡ id.old + length (asserts_in (procedure_tree_of tree.now).body)) }
{
    let mut state = State {
        alloc,
        scopes: Scopes::new(alloc, file.table.seed),
        next: 0,
        id: *id,
    };
    let made = body(file, &mut state, tree)?;
    *id = state.id;
    finished(tree, state.next, made)
}

/// The assertions of a procedure, whose places these are.
fn place(places: &mut Vec<AssertPlace>, asserts: &[Pos], proc: u32) -> Result<(), AllocError>
    ensures { OnOk result (places.new.items ≡ places.old.items ++ placed proc asserts.now) }
{
    for at in asserts {
        places.push(AssertPlace { at: *at, proc })?;
    }
    Ok(())
}

/// How many assertions and globals stand before an item of a file.
#[derive(Drop)]
struct Before {
    asserts: u32,
    globals: usize,
}

/// An item of a file. `asserts` are the places of the assertions of the whole file.
fn item(
    alloc: Global,
    table: &Table<'_>,
    before: &mut Before,
    procedures: &mut Vec<Procedure>,
    places: &mut Vec<AssertPlace>,
    asserts: &[Pos],
    tree: &Item,
) -> Result<(), AllocError>
    requires few { length (procedures_in table.now.items.now) ≤ MAX_PROCEDURES }
    requires few_globals { length (globals_in table.now.items.now) ≤ MAX_GLOBALS }
    requires fits { ProceduresFit before.old.asserts (procedures_in (tree.now ∷ [])) }
    requires globals { before.old.globals + length (globals_in (tree.now ∷ [])) ≤ MAX_GLOBALS }
    requires room { length procedures.old.items ≤ MAX_PROCEDURES }
    requires within { before.old.asserts + length (asserts_in_file (procedures_in (tree.now ∷ [])))
        ≤ length asserts.now }
    requires own { take (length (asserts_in_file (procedures_in (tree.now ∷ []))))
        (drop before.old.asserts asserts.now) ≡ asserts_in_file
        (procedures_in (tree.now ∷ [])) }
    ensures procedures { OnOk result (map procedure_of procedures.new.items ≡ map procedure_of
        procedures.old.items ++ lowered_procedures
        (procedures_in table.now.items.now) before.old.asserts
        (scoped_in (take before.old.globals (names_in table.now.items.now)) (tree.now ∷ []))) }
    ensures places { OnOk result (places.new.items ≡ places.old.items ++ assert_places
        (length procedures.old.items)
        (procedures_in (tree.now ∷ []))) }
    ensures asserts { OnOk result (before.new.asserts ≡ before.old.asserts
        + length (asserts_in_file (procedures_in (tree.now ∷ [])))) }
    ensures globals { OnOk result (before.new.globals ≡ before.old.globals
        + length (globals_in (tree.now ∷ []))) }
    ensures count { OnOk result (length procedures.new.items ≡ length procedures.old.items
        + length (procedures_in (tree.now ∷ []))) }
{
    match tree {
        Item::Proto(_) => {}
        Item::Proc(tree) => {
            let file = FileScope {
                table,
                globals: before.globals,
            };
            let from = before.asserts;
            let made = procedure(alloc, &file, &mut before.asserts, tree)?;
            place(
                places,
                &asserts[from as usize..before.asserts as usize],
                procedures.len() as u32,
            )?;
            procedures.push(made)?;
        }
        Item::Globals(trees) => before.globals += trees.len(),
    }
    Ok(())
}

/// The procedures of a file and the places of its assertions.
#[derive(Drop)]
pub struct Made {
    pub procedures: Vec<Procedure>,
    pub places: Vec<AssertPlace>,
}

/// The program of a file without faults. `asserts` are the places of its assertions.
pub fn parts(alloc: Global, table: &Table<'_>, asserts: &[Pos]) -> Result<Made, AllocError>
    requires few { length (procedures_in table.now.items.now) ≤ MAX_PROCEDURES }
    requires few_globals { length (globals_in table.now.items.now) ≤ MAX_GLOBALS }
    requires fits { ProceduresFit 0 (procedures_in table.now.items.now) }
    requires asserts { asserts.now ≡ asserts_in_file (procedures_in table.now.items.now) }
    ensures procedures { IfOk result (λ made. map procedure_of made.procedures.items
        ≡ lowered_procedures
        (procedures_in table.now.items.now) 0 (scoped_in [] table.now.items.now)) }
    ensures places { IfOk result
        (λ made. made.places.items ≡ assert_places 0 (procedures_in table.now.items.now)) }
{
    let mut before = Before {
        asserts: 0,
        globals: 0,
    };
    let mut procedures = Vec::new(alloc);
    let mut places = Vec::new(alloc);
    for tree in table.items {
        item(
            alloc,
            table,
            &mut before,
            &mut procedures,
            &mut places,
            asserts,
            tree,
        )?;
    }
    Ok(Made { procedures, places })
}

/// The opening values of the globals of a file.
pub fn opening_values(alloc: Global, table: &Table<'_>) -> Result<Vec<i64>, AllocError>
    ensures { IfOk result (λ made. made.items
        ≡ opening_values (globals_in table.now.items.now)) }
{
    let mut made = Vec::new(alloc);
    for tree in &table.globals.list {
        made.push(tree.value.unwrap_or(0))?;
    }
    Ok(made)
}
