//! The assertions of bodies, and which of an edited program are the same.

ghost use Rattle.std.specs.Prelude.{◌≡◌, ◌++◌, ◌<◌, ◌+◌, ℕ, None, Some, IfOk, OnOk, length, replicate, slice_get};
ghost use Rattle.c_tree.specs.View.{statement_of, statements_of};
ghost use Rattle.c_tree.specs.WellFormed.{asserted_by, asserted_in};
ghost use Rattle.c_tree.specs.Whole.{program_of};
ghost use Rattle.summary_keep.specs.Keeping.{related_by};
ghost use Rattle.summary_keep.specs.Matching.{IsMatching};
ghost use Rattle.summary_keep.specs.steps.Pairing.{ArePairedBelow, paired};

use c_tree::tree::{AssertId, ProcId, Program, Stmt};
use std::alloc::{AllocError, Global};

/// Those of a statement, in source order.
#[cycle(statements)]
fn push_by(out: &mut Vec<AssertId>, statement: &Stmt) -> Result<(), AllocError>
    ensures { OnOk result
        (out.new.items ≡ out.old.items ++ asserted_by (statement_of statement.now)) }
{
    match statement {
        Stmt::Block(items) => push_in(out, items),
        Stmt::Assert(id, _) => Ok(out.push(*id)?),
        Stmt::If(_, yes, no) => {
            push_by(out, yes)?;
            push_by(out, no)
        }
        Stmt::Loop { step, body, .. } => {
            push_by(out, step)?;
            push_by(out, body)
        }
        Stmt::DoWhile(body, _) => push_by(out, body),
        Stmt::Set(_, _)
        | Stmt::SetGlobal(_, _)
        | Stmt::Ignore(_)
        | Stmt::Assume(_)
        | Stmt::Break
        | Stmt::Continue
        | Stmt::Return(_) => Ok(()),
    }
}

/// Those of statements.
#[cycle(statements)]
fn push_in(out: &mut Vec<AssertId>, statements: &[Stmt]) -> Result<(), AllocError>
    ensures { OnOk result
        (out.new.items ≡ out.old.items ++ asserted_in (statements_of statements.now)) }
{
    match statements {
        [] => Ok(()),
        [first, rest @ ..] => {
            push_by(out, first)?;
            push_in(out, rest)
        }
    }
}

/// The assertions of a body, in source order.
fn asserted(alloc: Global, body: &[Stmt]) -> Result<Vec<AssertId>, AllocError>
    ensures { IfOk result (λ v. v.items ≡ asserted_in (statements_of body.now)) }
{
    let mut out = Vec::new(alloc);
    push_in(&mut out, body)?;
    Ok(out)
}

/// Each assertion of the one list gets the number at its place of the other.
fn pair_up(numbers: &mut Vec<Option<AssertId>>, olds: &[AssertId], news: &[AssertId])
    requires { (k a : ℕ) → slice_get olds.now k ≡ Some a → a < length numbers.old.items }
    ensures { numbers.new.items ≡ paired olds.now news.now numbers.old.items }
{
    match olds {
        [] => {}
        [old, olds @ ..] => match news {
            [] => {}
            [new, news @ ..] => {
                numbers[*old as usize] = Some(*new);
                pair_up(numbers, olds, news);
            }
        },
    }
}

/// The assertions of two procedures that are the same.
fn pair_bodies(
    alloc: Global,
    numbers: &mut Vec<Option<AssertId>>,
    old: &[Stmt],
    new: &[Stmt],
) -> Result<(), AllocError>
    requires { (k a : ℕ) → slice_get (asserted_in (statements_of old.now)) k ≡ Some a →
        a < length numbers.old.items }
    ensures { OnOk result (numbers.new.items ≡ paired (asserted_in (statements_of old.now))
        (asserted_in (statements_of new.now)) numbers.old.items) }
{
    let olds = asserted(alloc, old)?;
    let news = asserted(alloc, new)?;
    pair_up(numbers, &olds, &news);
    Ok(())
}

/// One procedure more: the assertions of its body, if it has a new number.
fn pair_procedure(
    alloc: Global,
    procs: &[Option<ProcId>],
    numbers: &mut Vec<Option<AssertId>>,
    old: &Program,
    new: &Program,
    place: usize,
) -> Result<(), AllocError>
    requires matches { IsMatching (program_of old.now) (program_of new.now)
        (related_by procs.now) }
    requires place { place < length procs.now }
    requires numbers { ArePairedBelow (program_of old.now) (program_of new.now)
        (related_by procs.now) place numbers.old.items }
    ensures { OnOk result (ArePairedBelow (program_of old.now) (program_of new.now)
        (related_by procs.now) (place + 1) numbers.new.items) }
{
    match procs[place] {
        Some(number) => {
            let old = &old.procedures[place].body;
            let new = &new.procedures[number as usize].body;
            pair_bodies(alloc, numbers, old, new)
        }
        None => Ok(()),
    }
}

/// A list of this length without numbers.
fn no_numbers(alloc: Global, count: usize) -> Result<Vec<Option<AssertId>>, AllocError>
    ensures { IfOk result (λ v. v.items ≡ replicate count None) }
{
    let mut numbers = Vec::with_capacity(alloc, count)?;
    for i in 0..count {
        let _place = i;
        numbers.push(None)?;
    }
    Ok(numbers)
}

/// The new numbers of the assertions, where the procedures have these.
pub fn match_assertions(
    alloc: Global,
    procs: &[Option<ProcId>],
    old: &Program,
    new: &Program,
) -> Result<Vec<Option<AssertId>>, AllocError>
    requires each { length procs.now ≡ length (program_of old.now).procedures }
    requires matches { IsMatching (program_of old.now) (program_of new.now)
        (related_by procs.now) }
    ensures { IfOk result (λ v. ArePairedBelow (program_of old.now) (program_of new.now)
        (related_by procs.now) (length procs.now) v.items) }
{
    let mut numbers = no_numbers(alloc, old.asserts.len())?;
    for place in 0..procs.len() {
        pair_procedure(alloc, procs, &mut numbers, old, new, place)?;
    }
    Ok(numbers)
}
