//! The globals of a file by their names.

ghost use Rattle.std.specs.Prelude.{◌≡◌, [], ◌∷◌, ◌++◌, map, take, OnOk, IfOk};
ghost use Rattle.c_tree.specs.FileView.{global_of as tree_of_global};
ghost use Rattle.c_typing.specs.Scope.{global_names, global_of};
ghost use Rattle.c_typing.specs.steps.Listed.{globals_in, listed, AreNumbered, AreNumbered-prop};

use crate::seed::NameHasher;
use c_tree::syntax_tree::{GlobalTree, Item};
use indexmap::IndexMap;
use std::alloc::{AllocError, Global};

/// The globals of a file in source order, and the number of the first one of each name.
#[derive(Drop)]
pub struct Globals<'a> {
    pub list: Vec<&'a GlobalTree>,
    numbers: IndexMap<&'a str, usize, NameHasher>,
    ghost numbered: { AreNumbered numbers list.items } by { AreNumbered-prop numbers list.items },
}

/// Keeps a global, and its number where none has its name yet.
fn keep<'a>(
    list: &mut Vec<&'a GlobalTree>,
    numbers: &mut IndexMap<&'a str, usize, NameHasher>,
    tree: &'a GlobalTree,
) -> Result<(), AllocError>
    requires { AreNumbered numbers.old list.old.items }
    ensures list { OnOk result (listed list.new.items
        ≡ listed list.old.items ++ tree_of_global tree.now ∷ []) }
    ensures numbers { OnOk result (AreNumbered numbers.new list.new.items) }
{
    let name = tree.named.name.as_str();
    if !numbers.contains_key(name) {
        numbers.insert(name, list.len())?;
    }
    list.push(tree)?;
    Ok(())
}

/// Keeps the globals of a declaration.
fn keep_all<'a>(
    list: &mut Vec<&'a GlobalTree>,
    numbers: &mut IndexMap<&'a str, usize, NameHasher>,
    trees: &'a [GlobalTree],
) -> Result<(), AllocError>
    requires { AreNumbered numbers.old list.old.items }
    ensures list { OnOk result (listed list.new.items
        ≡ listed list.old.items ++ map tree_of_global trees.now) }
    ensures numbers { OnOk result (AreNumbered numbers.new list.new.items) }
{
    for tree in trees {
        keep(list, numbers, tree)?;
    }
    Ok(())
}

impl<'a> Globals<'a> {
    /// The globals of the items of a file.
    pub fn new(
        alloc: Global,
        seed: NameHasher,
        items: &'a [Item],
    ) -> Result<Globals<'a>, AllocError>
        ensures { IfOk result (λ globals. listed globals.list.items ≡ globals_in items.now) }
    {
        let mut list = Vec::new(alloc);
        let mut numbers = IndexMap::with_hasher(alloc, seed);
        for item in items {
            if let Item::Globals(trees) = item {
                keep_all(&mut list, &mut numbers, trees)?;
            }
        }
        Ok(Globals { list, numbers })
    }

    /// The number of the first global of a name.
    fn first(&self, name: &str) -> Option<usize>
        ensures { result ≡ global_of (global_names (listed self.now.list.items)) name.now }
    {
        self.numbers.get(name).copied()
    }

    /// The number of the first global of a name, if it is one of the first `known`.
    pub fn number_of(&self, name: &str, known: usize) -> Option<usize>
        ensures { result ≡ global_of (take known (global_names (listed self.now.list.items)))
            name.now }
    {
        match self.first(name) {
            Some(number) => { if number < known { Some(number) } else { None } }
            None => None,
        }
    }
}
