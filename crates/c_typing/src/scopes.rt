//! The scopes of variables.

ghost use Rattle.std.specs.Prelude.{◌≡◌, ℕ, List, bytes_eq, if◌then◌else◌, IsSome};
ghost use Rattle.c_typing.specs.steps.Meanings.{depth_onto, found_in, IsLinked, IsLinked-prop};

use crate::seed::NameHasher;
use indexmap::IndexMap;
use std::alloc::{AllocError, Global};

/// What a name means: a slot, and how many scopes were open where it was declared.
#[derive(Clone, Copy)]
pub struct Meaning {
    pub slot: u32,
    pub depth: usize,
}

/// A scope opens, or a variable is declared. A declaration keeps what its name meant before.
#[derive(Clone, Copy)]
pub enum Entry<'a> {
    Opens,
    Declares(&'a str, u32, Option<Meaning>),
}

/// The open scopes and their variables, in the order in which they came, and what each name means.
#[derive(Drop)]
pub struct Scopes<'a> {
    pub entries: Vec<Entry<'a>>,
    depth: usize,
    meanings: IndexMap<&'a str, Meaning, NameHasher>,
    ghost depth_is: { depth ≡ depth_onto 0 entries.items },
    ghost linked: { IsLinked entries.items meanings } by { IsLinked-prop entries.items meanings },
}

/// A name means again what it meant before.
fn restore<'a>(
    meanings: &mut IndexMap<&'a str, Meaning, NameHasher>,
    name: &'a str,
    before: Option<Meaning>,
)
    requires { IsSome (found_in meanings.old name.now) }
    ensures { (x : List ℕ) → found_in meanings.new x
        ≡ (if bytes_eq name.now x then before else found_in meanings.old x) }
{
    match before {
        Some(meaning) => {
            let _ = meanings.insert(name, meaning);
        }
        None => {
            meanings.swap_remove(name);
        }
    }
}

impl<'a> Scopes<'a> {
    ghost use Rattle.std.specs.Prelude.{◌++◌, [], ◌∷◌, OnOk, MatchOption, length, take};
    ghost use Rattle.c_typing.specs.steps.Meanings.{meaning_in};
    ghost use Rattle.c_typing.specs.Scope.{slot_of, is_declared_here, with_variable};
    ghost use Rattle.c_typing.specs.steps.Tables.{scopes_of, outer_of, IsLonger};

    /// No scope. Names are found by this hash.
    pub fn new(alloc: Global, seed: NameHasher) -> Scopes<'a>
        ensures { scopes_of result ≡ [] }
    {
        Scopes {
            entries: Vec::new(alloc),
            depth: 0,
            meanings: IndexMap::with_hasher(alloc, seed),
        }
    }

    /// Opens a scope.
    pub fn open(&mut self) -> Result<(), AllocError>
        ensures { OnOk result (scopes_of self.new ≡ [] ∷ scopes_of self.old) }
    {
        self.entries.push(Entry::Opens)?;
        self.depth += 1;
        Ok(())
    }

    /// Takes the last entry back, as if it had never come.
    fn take_back(&mut self) -> Option<Entry<'a>>
        ensures { MatchOption result ((self.old.entries.items ≡ []) × (self.new.entries.items ≡ []))
            (λ entry. self.old.entries.items ≡ self.new.entries.items ++ entry ∷ []) }
    {
        let entry = self.entries.pop()?;
        match entry {
            Entry::Opens => self.depth -= 1,
            Entry::Declares(name, _, before) => restore(&mut self.meanings, name, before),
        }
        Some(entry)
    }

    /// Leaves the innermost scope.
    pub fn close(&mut self)
        ensures { scopes_of self.new ≡ outer_of (scopes_of self.old) }
    {
        while let Some(entry) = self.take_back() {
            if let Entry::Opens = entry {
                return;
            }
        }
    }

    /// How many entries there are.
    pub fn mark(&self) -> usize
        ensures { result ≡ length self.now.entries.items }
    {
        self.entries.len()
    }

    /// Takes back all that came after a mark.
    pub fn back_to(&mut self, mark: usize)
        ensures { self.new.entries.items ≡ take mark self.old.entries.items }
    {
        while self.entries.len() > mark {
            self.take_back();
        }
    }

    /// Declares a variable in the innermost scope.
    pub fn declare(&mut self, name: &'a str, slot: u32) -> Result<(), AllocError>
        ensures scopes { OnOk result (scopes_of self.new ≡ with_variable (scopes_of self.old)
            name.now slot) }
        ensures longer { OnOk result (IsLonger self.old self.new) }
    {
        let before = self.meaning_of(name);
        let meaning = Meaning {
            slot,
            depth: self.depth,
        };
        self.entries.reserve(1)?;
        self.meanings.insert(name, meaning)?;
        self.entries.push(Entry::Declares(name, slot, before))?;
        Ok(())
    }

    /// What a name means.
    fn meaning_of(&self, name: &str) -> Option<Meaning>
        ensures { result ≡ meaning_in self.now.entries.items name.now }
    {
        self.meanings.get(name).copied()
    }

    /// The slot that a name means.
    pub fn slot_of(&self, name: &str) -> Option<u32>
        ensures { result ≡ slot_of (scopes_of self.now) name.now }
    {
        match self.meaning_of(name) {
            Some(meaning) => Some(meaning.slot),
            None => None,
        }
    }

    /// Whether the innermost scope declares a name.
    pub fn is_declared_here(&self, name: &str) -> bool
        ensures { result ≡ is_declared_here (scopes_of self.now) name.now }
    {
        match self.meaning_of(name) {
            Some(meaning) => meaning.depth == self.depth,
            None => false,
        }
    }
}
