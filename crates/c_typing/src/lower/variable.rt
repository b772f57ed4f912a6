//! What the name of a variable means.

ghost use Rattle.std.specs.Prelude.{◌≡◌};
ghost use Rattle.c_tree.specs.SourceView.{identifier_of};
ghost use Rattle.c_tree.specs.View.{expression_of, statement_of};
ghost use Rattle.c_typing.specs.Lowering.{place, read_of, set_of};
ghost use Rattle.c_typing.specs.steps.LoweringSteps.{IsWithinLimits};
ghost use Rattle.c_typing.specs.steps.Tables.{scopes_of};
ghost use Rattle.c_typing.specs.steps.FileScopes.{file_scope};
ghost use Rattle.c_typing.specs.steps.Places.{place_of};

use crate::scopes::Scopes;
use crate::table::FileScope;
use c_tree::syntax_tree::Named;
use c_tree::tree::{Expr, Stmt};

/// A slot of the procedure, or a global by its number.
#[derive(Clone, Copy)]
pub enum Variable {
    Slot(u32),
    Global(u32),
}

/// What a name means where these scopes are open.
pub fn variable_named(file: &FileScope<'_, '_>, scopes: &Scopes<'_>, named: &Named) -> Variable
    requires { IsWithinLimits (file_scope file.now) }
    ensures { place_of result ≡ place (file_scope file.now) (scopes_of scopes.now)
        (identifier_of named.now).name }
{
    let name = named.name.as_str();
    match scopes.slot_of(name) {
        Some(slot) => Variable::Slot(slot),
        None => match file.global_of(name) {
            Some(number) => Variable::Global(number as u32),
            None => Variable::Slot(0),
        },
    }
}

impl Variable {
    /// Its value.
    pub fn read(self) -> Expr
        ensures { expression_of result ≡ read_of (place_of self) }
    {
        match self {
            Variable::Slot(slot) => Expr::Read(slot),
            Variable::Global(number) => Expr::ReadGlobal(number),
        }
    }

    /// The statement that gives it a value.
    pub fn set(self, value: Expr) -> Stmt
        ensures { statement_of result ≡ set_of (place_of self) (expression_of value) }
    {
        match self {
            Variable::Slot(slot) => Stmt::Set(slot, value),
            Variable::Global(number) => Stmt::SetGlobal(number, value),
        }
    }
}
