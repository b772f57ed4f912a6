//! The procedures and the globals of a file by their names.

ghost use Rattle.std.specs.Prelude.{◌≡◌, ℕ, List, take, OnOk, IfOk};
ghost use Rattle.c_tree.specs.FileView.{procedure_tree_of};
ghost use Rattle.c_typing.specs.Scope.{is_main, is_built_in, callee_of, defined_from, global_of};
ghost use Rattle.c_typing.specs.steps.Listed.{names_in, AreListed, AreListed-prop};
ghost use Rattle.c_typing.specs.steps.Meanings.{found_in};
ghost use Rattle.c_typing.specs.steps.Tables.{procedures_in, callee_from, number_in, is_defined, kept_or, AreDefined, AreDefined-prop};

use crate::globals::Globals;
use crate::seed::{NameHasher, seed_of};
use c_tree::syntax_tree::{Item, ProcTree};
use indexmap::IndexMap;
use std::alloc::{AllocError, Global};

/// What is called by a name: a procedure by its number, how many parameters it has and whether it
/// is `void`.
#[derive(Clone, Copy)]
pub enum Called {
    Input,
    Assume,
    Assert,
    Defined(usize, usize, bool),
    Unknown,
}

/// The first procedure of a name.
#[derive(Clone, Copy)]
pub struct Definition {
    pub number: usize,
    pub params: usize,
    pub void: bool,
}

/// The procedures and the globals of a file.
#[derive(Drop)]
pub struct Table<'a> {
    pub items: &'a [Item],
    pub globals: Globals<'a>,
    pub seed: NameHasher,
    definitions: IndexMap<&'a str, Definition, NameHasher>,
    ghost listed: { AreListed globals.list.items items.now } by { AreListed-prop globals.list.items items.now },
    ghost linked: { AreDefined definitions items.now } by { AreDefined-prop definitions items.now },
}

/// Whether a name is `main`.
pub fn is_main(name: &str) -> bool
    ensures { result ≡ is_main name.now }
{
    name == "main"
}

/// Whether no procedure and no variable may have a name.
pub fn is_built_in(name: &str) -> bool
    ensures { result ≡ is_built_in name.now }
{
    name == "input" || name == "assume" || name == "assert"
}

/// Keeps a procedure of a number, where none has its name yet.
fn add<'a>(
    definitions: &mut IndexMap<&'a str, Definition, NameHasher>,
    number: usize,
    procedure: &'a ProcTree,
) -> Result<(), AllocError>
    ensures { OnOk result ((x : List ℕ) → found_in definitions.new x
        ≡ kept_or (found_in definitions.old x)
        (procedure_tree_of procedure.now) number x) }
{
    let name = procedure.named.name.as_str();
    if !definitions.contains_key(name) {
        let definition = Definition {
            number,
            params: procedure.params.len(),
            void: procedure.void,
        };
        definitions.insert(name, definition)?;
    }
    Ok(())
}

/// The first procedure of each name.
fn definitions_of<'a>(
    alloc: Global,
    seed: NameHasher,
    items: &'a [Item],
) -> Result<IndexMap<&'a str, Definition, NameHasher>, AllocError>
    ensures { IfOk result (λ definitions. AreDefined definitions items.now) }
{
    let mut definitions = IndexMap::with_hasher(alloc, seed);
    let mut number = 0;
    for item in items {
        if let Item::Proc(procedure) = item {
            add(&mut definitions, number, procedure)?;
            number += 1;
        }
    }
    Ok(definitions)
}

impl<'a> Table<'a> {
    /// The table of the items of a file.
    pub fn new(alloc: Global, items: &'a [Item]) -> Result<Table<'a>, AllocError>
        ensures { IfOk result (λ table. table.items.now ≡ items.now) }
    {
        let seed = seed_of(items);
        let globals = Globals::new(alloc, seed, items)?;
        let definitions = definitions_of(alloc, seed, items)?;
        Ok(Table {
            items,
            globals,
            seed,
            definitions,
        })
    }

    /// What is called by a name.
    pub fn callee_of(&self, name: &str) -> Called
        ensures { callee_from result ≡ callee_of (procedures_in self.now.items.now) name.now }
    {
        if name == "input" {
            return Called::Input;
        }
        if name == "assume" {
            return Called::Assume;
        }
        if name == "assert" {
            return Called::Assert;
        }
        self.defined(name)
    }

    /// The number of the first procedure of a name.
    pub fn number_of(&self, name: &str) -> usize
        ensures { result ≡ number_in (defined_from 0 (procedures_in self.now.items.now) name.now) }
    {
        match self.defined(name) {
            Called::Defined(number, _, _) => number,
            _ => 0,
        }
    }

    /// Whether a procedure has a name.
    pub fn is_defined(&self, name: &str) -> bool
        ensures { result ≡ is_defined (defined_from 0 (procedures_in self.now.items.now) name.now) }
    {
        match self.defined(name) {
            Called::Defined(_, _, _) => true,
            _ => false,
        }
    }

    /// The number of the global of a name among the first `known` globals.
    pub fn global_of(&self, name: &str, known: usize) -> Option<usize>
        ensures { result ≡ global_of (take known (names_in self.now.items.now)) name.now }
    {
        self.globals.number_of(name, known)
    }

    /// The first procedure of a name.
    fn defined(&self, name: &str) -> Called
        ensures { callee_from result ≡ defined_from 0 (procedures_in self.now.items.now) name.now }
    {
        match self.definitions.get(name) {
            Some(first) => Called::Defined(first.number, first.params, first.void),
            None => Called::Unknown,
        }
    }
}

/// What a procedure sees of its file: all procedures, and the first `globals` globals, which stand
/// before it.
#[derive(Clone, Copy)]
pub struct FileScope<'t, 'a> {
    pub table: &'t Table<'a>,
    pub globals: usize,
}

impl<'t, 'a> FileScope<'t, 'a> {
    ghost use Rattle.c_typing.specs.steps.FileScopes.{file_scope};

    /// What is called by a name.
    pub fn callee_of(&self, name: &str) -> Called
        ensures { callee_from result ≡ callee_of (file_scope self.now).procedures name.now }
    {
        self.table.callee_of(name)
    }

    /// The number of the global of a name.
    pub fn global_of(&self, name: &str) -> Option<usize>
        ensures { result ≡ global_of (file_scope self.now).globals name.now }
    {
        self.table.global_of(name, self.globals)
    }
}
