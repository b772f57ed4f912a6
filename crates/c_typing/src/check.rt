//! The check of a tree, and its program. The first pass finds the faults.

ghost use Rattle.std.specs.Prelude.{◌≡◌, [], IfOk, Err, map};
ghost use Rattle.c_tree.specs.declared.tree.Pos.{Pos};
ghost use Rattle.c_tree.specs.Syntax.{PureProgram};
ghost use Rattle.c_tree.specs.Whole.{program_of};
ghost use Rattle.c_tree.specs.WellFormed.{DividesByLiterals};
ghost use Rattle.c_tree.specs.FileView.{file_of, item_of};
ghost use Rattle.c_typing.specs.declared.fault.TypeFault.{TypeFault};
ghost use Rattle.c_typing.specs.Answer.{DefinesMain, IsProgram, IsFirstFault, Gives, Refuses};
ghost use Rattle.c_typing.specs.Faults.{all_faults};
ghost use Rattle.c_typing.specs.Scope.{asserts_in_file};
ghost use Rattle.c_typing.specs.steps.Tables.{procedures_in};

mod expressions;
mod notes;
mod procedures;
mod side;
mod statements;

use crate::check::procedures::all;
use crate::fault::{TypeError, TypeFault};
use crate::lower::program::{opening_values, parts};
use crate::table::Table;
use c_tree::syntax_tree::Tree;
use c_tree::tree::{Pos, Program};
use std::alloc::{AllocError, Global};

/// The program of a file that has no fault and a `main`. `asserts` are the places of its
/// assertions.
fn lowered(alloc: Global, table: &Table<'_>, asserts: &[Pos]) -> Result<Program, AllocError>
    requires faultless { all_faults (map item_of table.now.items.now) ≡ [] }
    requires main { DefinesMain (map item_of table.now.items.now) }
    requires asserts { asserts.now ≡ asserts_in_file (procedures_in table.now.items.now) }
    ensures { IfOk result (λ p. IsProgram (map item_of table.now.items.now) (program_of p)) }
{
    let globals = opening_values(alloc, table)?;
    let made = parts(alloc, table, asserts)?;
    let main = table.number_of("main") as u32;
    Ok(Program::new(made.procedures, main, made.places, globals))
}

/// The program of a file, or its first fault.
fn checked(alloc: Global, table: &Table<'_>) -> Result<Program, TypeError>
    ensures ok { IfOk result (λ p. IsProgram (map item_of table.now.items.now) (program_of p)) }
    ensures only { (P : PureProgram) → IsProgram (map item_of table.now.items.now) P →
        Gives result P }
    ensures refused { (f : TypeFault) (p : Pos) → result ≡ Err (TypeError.Refused f p) →
        IsFirstFault (map item_of table.now.items.now) f p }
    ensures if_fault { (f : TypeFault) (p : Pos) →
        IsFirstFault (map item_of table.now.items.now) f p → Refuses result f p }
    ensures divisors { IfOk result (λ p. DividesByLiterals (program_of p)) }
{
    let notes = all(alloc, table)?;
    if let Some(found) = notes.best {
        return Err(TypeError::Refused(found.fault, found.at));
    }
    if !table.is_defined("main") {
        return Err(TypeError::Refused(TypeFault::NoMain, Pos { line: 1, column: 1 }));
    }
    Ok(lowered(alloc, table, &notes.asserts)?)
}

/// The program of a tree, or its first fault.
pub fn check_types(alloc: Global, tree: &Tree) -> Result<Program, TypeError>
    ensures ok { IfOk result (λ p. IsProgram (file_of tree.now) (program_of p)) }
    ensures only { (P : PureProgram) → IsProgram (file_of tree.now) P → Gives result P }
    ensures refused { (f : TypeFault) (p : Pos) → result ≡ Err (TypeError.Refused f p) →
        IsFirstFault (file_of tree.now) f p }
    ensures if_fault { (f : TypeFault) (p : Pos) → IsFirstFault (file_of tree.now) f p →
        Refuses result f p }
    ensures divisors { IfOk result (λ p. DividesByLiterals (program_of p)) }
{
    let table = Table::new(alloc, &tree.items)?;
    checked(alloc, &table)
}
