//! Which procedures of an edited program are the same.

ghost use Rattle.std.specs.Prelude.{◌≡◌, ◌↔◌, ◌<◌, ℕ, IsTrue, None, Some, IfSome, IfOk, length, true, false};
ghost use Rattle.c_tree.specs.Whole.{program_of};
ghost use Rattle.summary_keep.specs.Keeping.{number_in, related_by};
ghost use Rattle.summary_keep.specs.Matching.{AreRelated, GlobalsAgree, IsMatching, IsGreatest};
ghost use Rattle.summary_keep.specs.steps.Refinement.{AreCounterparts, AreAllCounterparts, AreNamesakes, AreCandidates, IncludesEach, IsChanged};

use crate::same::same_procedure;
use c_tree::tree::{ProcId, Program};
use std::alloc::{AllocError, Global};

/// Whether the pair of this procedure, if it has one, isn't the same.
fn is_changed(numbers: &[Option<ProcId>], old: &Program, new: &Program, place: usize) -> bool
    requires numbers { AreCandidates (program_of old.now) (program_of new.now) numbers.now }
    requires place { place < length numbers.now }
    ensures other { result ≡ true → IsChanged (program_of old.now) (program_of new.now) numbers.now
        place }
    ensures same { result ≡ false → (j : ℕ) → number_in numbers.now place ≡ Some j →
        AreRelated (program_of old.now) (program_of new.now) (related_by numbers.now) place j }
{
    match numbers[place] {
        Some(number) => {
            let old = &old.procedures[place];
            let new = &new.procedures[number as usize];
            !same_procedure(numbers, old, new)
        }
        None => false,
    }
}

/// The first procedure whose pair isn't the same.
fn first_changed(numbers: &[Option<ProcId>], old: &Program, new: &Program) -> Option<usize>
    requires { AreCandidates (program_of old.now) (program_of new.now) numbers.now }
    ensures other { IfSome result (λ i. (i < length numbers.now)
        × IsChanged (program_of old.now) (program_of new.now) numbers.now i) }
    ensures none { result ≡ None →
        IsMatching (program_of old.now) (program_of new.now) (related_by numbers.now) }
{
    for place in 0..numbers.len() {
        if is_changed(numbers, old, new, place) {
            return Some(place);
        }
    }
    None
}

/// The greatest matching among these pairs: those that aren't the same are let go, until each is.
fn refined(mut numbers: Vec<Option<ProcId>>, old: &Program, new: &Program) -> Vec<Option<ProcId>>
    requires numbers { AreCandidates (program_of old.now) (program_of new.now) numbers.items }
    requires holds { IncludesEach (program_of old.now) (program_of new.now)
        (related_by numbers.items) }
    ensures numbers { AreCandidates (program_of old.now) (program_of new.now) result.items }
    ensures greatest { IsGreatest (program_of old.now) (program_of new.now)
        (related_by result.items) }
{
    loop {
        match first_changed(&numbers, old, new) {
            Some(place) => numbers[place] = None,
            None => return numbers,
        }
    }
}

/// The procedure of the new program that has the same name, unless one of the two alone is `main`.
fn namesake(old: &Program, new: &Program, place: usize) -> Option<ProcId>
    requires { place < length (program_of old.now).procedures }
    ensures { (j : ℕ) → (result ≡ Some j) ↔
        AreNamesakes (program_of old.now) (program_of new.now) place j }
{
    let name = &old.procedures[place].name;
    for number in 0..new.procedures.len() {
        if new.procedures[number].name == *name {
            let is_main = number == new.main as usize;
            return if is_main == (place == old.main as usize) {
                Some(number as u32)
            } else {
                None
            };
        }
    }
    None
}

/// Whether the globals of the programs allow that this procedure is the same in both.
fn globals_agree(old: &Program, new: &Program, place: usize) -> bool
    ensures { IsTrue result ↔ GlobalsAgree (program_of old.now) (program_of new.now) place }
{
    if place == old.main as usize {
        old.globals == new.globals
    } else {
        old.globals.len() == new.globals.len()
    }
}

/// The procedure of the new program that may be the same: its namesake, where the globals agree.
fn counterpart(old: &Program, new: &Program, place: usize) -> Option<ProcId>
    requires { place < length (program_of old.now).procedures }
    ensures { (j : ℕ) → (result ≡ Some j) ↔
        AreCounterparts (program_of old.now) (program_of new.now) place j }
{
    if globals_agree(old, new, place) {
        namesake(old, new, place)
    } else {
        None
    }
}

/// The counterparts of all procedures.
fn counterparts(
    alloc: Global,
    old: &Program,
    new: &Program,
) -> Result<Vec<Option<ProcId>>, AllocError>
    ensures { IfOk result (λ v. AreAllCounterparts (program_of old.now) (program_of new.now)
        v.items) }
{
    let mut numbers = Vec::with_capacity(alloc, old.procedures.len())?;
    for place in 0..old.procedures.len() {
        numbers.push(counterpart(old, new, place))?;
    }
    Ok(numbers)
}

/// The greatest matching of the procedures.
pub fn match_procedures(
    alloc: Global,
    old: &Program,
    new: &Program,
) -> Result<Vec<Option<ProcId>>, AllocError>
    ensures each { IfOk result
        (λ v. length v.items ≡ length (program_of old.now).procedures) }
    ensures greatest { IfOk result (λ v. IsGreatest (program_of old.now) (program_of new.now)
        (related_by v.items)) }
{
    let numbers = counterparts(alloc, old, new)?;
    Ok(refined(numbers, old, new))
}
