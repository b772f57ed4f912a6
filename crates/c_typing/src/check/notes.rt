//! What the check of a tree finds.

use crate::fault::{TypeFault, Which};
use c_tree::syntax_tree::Named;
use c_tree::tree::Pos;
use std::alloc::{AllocError, Global};

/// A fault and its place.
#[derive(Clone, Copy)]
pub struct Found {
    pub fault: TypeFault,
    pub at: Pos,
}

/// The first fault so far, the places of the names that the procedure declares, and those of all
/// assertions.
#[derive(Drop)]
pub struct Notes {
    pub best: Option<Found>,
    pub declared: Vec<Pos>,
    pub asserts: Vec<Pos>,
}

ghost use Rattle.std.specs.Prelude.{◌≡◌, [], ◌∷◌, OnOk, None};
ghost use Rattle.c_tree.specs.SourceView.{identifier_of};
ghost use Rattle.c_typing.specs.Faults.{fault_if, limit_fault};
ghost use Rattle.c_typing.specs.Answer.{rank, which_rank};
ghost use Rattle.c_typing.specs.steps.Least.{is_before, first_of_two};
ghost use Rattle.c_typing.specs.steps.Tables.{fault_of, best_of, notes_of, noted};

fn which_rank(which: Which) -> u32
    ensures { result ≡ which_rank which }
{
    match which {
        Which::Procedures => 0,
        Which::Parameters => 1,
        Which::Variables => 2,
        Which::Tokens => 3,
        Which::Assertions => 4,
    }
}

/// The number of a fault in the order of faults at one place.
fn rank(fault: TypeFault) -> u32
    ensures { result ≡ rank fault }
{
    match fault {
        TypeFault::UnknownName => 1,
        TypeFault::Duplicate => 2,
        TypeFault::WrongCount => 3,
        TypeFault::VoidValue => 4,
        TypeFault::NotLinear => 5,
        TypeFault::NoMain => 6,
        TypeFault::MainShape => 7,
        TypeFault::OutsideLoop => 8,
        TypeFault::OverLimit(which) => 9 + which_rank(which),
        TypeFault::BadDivisor => 14,
    }
}

fn is_before(one: Found, other: Found) -> bool
    ensures { result ≡ is_before (fault_of one) (fault_of other) }
{
    one.at.line < other.at.line
        || (one.at.line == other.at.line
            && (one.at.column < other.at.column
                || (one.at.column == other.at.column && rank(one.fault) < rank(other.fault))))
}

/// The first of a fault before and another one.
fn first_of_two(best: Option<Found>, found: Found) -> Found
    ensures { fault_of result ≡ first_of_two (best_of best) (fault_of found) }
{
    match best {
        None => found,
        Some(before) => {
            if is_before(found, before) {
                found
            } else {
                before
            }
        }
    }
}

impl Notes {
    /// Nothing is found yet.
    pub fn new(alloc: Global) -> Notes
        ensures { notes_of result ≡ record { best = None; declared = []; asserts = [] } }
    {
        Notes {
            best: None,
            declared: Vec::new(alloc),
            asserts: Vec::new(alloc),
        }
    }

    /// Keeps a fault if something is wrong.
    pub fn found_if(&mut self, wrong: bool, fault: TypeFault, at: Pos)
        ensures { notes_of self.new ≡ noted (notes_of self.old) (fault_if wrong fault at) [] [] }
    {
        if wrong {
            self.best = Some(first_of_two(self.best, Found { fault, at }));
        }
    }

    /// Keeps that a limit is passed, if a place is past it.
    pub fn limit(&mut self, which: Which, at: Option<Pos>)
        ensures { notes_of self.new ≡ noted (notes_of self.old) (limit_fault which at) [] [] }
    {
        if let Some(at) = at {
            self.found_if(true, TypeFault::OverLimit(which), at);
        }
    }

    /// Forgets the declared names.
    pub fn forget_names(&mut self)
        ensures best { best_of self.new.best ≡ best_of self.old.best }
        ensures asserts { self.new.asserts.items ≡ self.old.asserts.items }
        ensures declared { self.new.declared.items ≡ [] }
    {
        self.declared.clear();
    }

    /// Notes an assertion.
    pub fn assertion(&mut self, at: Pos) -> Result<(), AllocError>
        ensures { OnOk result (notes_of self.new ≡ noted (notes_of self.old) [] [] (at ∷ [])) }
    {
        self.asserts.push(at)?;
        Ok(())
    }

    /// Notes a declared name.
    pub fn declaration(&mut self, name: &Named) -> Result<(), AllocError>
        ensures { OnOk result (notes_of self.new ≡ noted (notes_of self.old) []
            (identifier_of name.now ∷ []) []) }
    {
        self.declared.push(name.at)?;
        Ok(())
    }
}
