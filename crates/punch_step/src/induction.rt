//! Atoms that are chosen by relative induction: no path leads into the piece that they cut off.

ghost use Rattle.must_region.specs.Traces.{trace_of};
ghost use Rattle.punch_step.specs.Sights.{ReadsStart};

use crate::choice::Choice;
use crate::chooser::{Chooser, key_of, start_key};
use crate::closing::closes;
use crate::cycles::is_turning;
use crate::guess::{is_missed, is_of_range};
use crate::memo::{Memos, mixed, mixed_rows};
use crate::sight::{Sight, look};
use crate::sums::candidates;
use linear_formula::error::OutOfMemory;
use linear_formula::formula::{Atom, Atoms, Cube};
use std::alloc::Global;

/// How many candidates are tried for a split.
const TRIES: u32 = 24;

/// How many questions a choice asks.
const EACH: u32 = 1000;

/// How many questions the choices of a query ask.
const ALL: u32 = 30_000;

/// A choice that came to nothing is made again when there are so many more regions.
const MORE: u64 = 8;

/// The query's key, and the numbers of ledgers.
#[derive(Clone, Copy)]
struct Account {
    key: u64,
    /// Of the query itself: what its choices spent.
    ledger: usize,
    /// Of all queries whose runs begin as its own do: into what no path leads.
    closed: usize,
}

fn single(alloc: Global, atom: &Atom) -> Result<Cube, OutOfMemory> {
    let mut atoms = Atoms::with_capacity(alloc, 1)?;
    atoms.push(atom.copy(alloc)?)?;
    Ok(Cube { atoms })
}

/// Whether one of the atoms is seen to fail at the mark's point.
fn may_part(choice: &Choice, atoms: &[Atom]) -> bool {
    for atom in atoms {
        if is_missed(choice.trail, choice.point, atom) {
            return true;
        }
    }
    false
}

/// Whether the mark is seen not to meet the atoms.
fn parts(
    alloc: Global,
    memos: &mut Memos,
    choice: &Choice,
    atoms: &Cube,
) -> Result<bool, OutOfMemory>
    requires start { ReadsStart choice.now.query.now (trace_of choice.now.trail.now) }
{
    if !may_part(choice, atoms.atoms.as_slice()) {
        return Ok(false);
    }
    memos.chooser.left = memos.chooser.left.saturating_sub(1);
    let both = choice.source.and(alloc, atoms)?;
    match look(
        alloc,
        &mut memos.questions,
        choice.query,
        choice.trail,
        &both,
    )? {
        Sight::Never(_) => Ok(true),
        Sight::Met(_) | Sight::Limit(_) => Ok(false),
    }
}

/// Whether the atoms part the mark and close.
fn is_closing(
    alloc: Global,
    memos: &mut Memos,
    choice: &Choice,
    account: Account,
    atoms: &Cube,
) -> Result<bool, OutOfMemory>
    requires start { ReadsStart choice.now.query.now (trace_of choice.now.trail.now) }
{
    if !parts(alloc, memos, choice, atoms)? {
        return Ok(false);
    }
    let Account { key, closed, .. } = account;
    closes(alloc, &mut memos.chooser, choice, key, closed, atoms)
}

/// The atoms of the preimage that the source doesn't entail.
fn useful(
    alloc: Global,
    chooser: &mut Chooser,
    source: &Cube,
    pre: &Cube,
) -> Result<Cube, OutOfMemory> {
    let mut atoms = Atoms::new(alloc);
    for atom in pre.atoms.as_slice() {
        let trivial = atom.term.parts().is_empty();
        if !trivial && !chooser.entails_one(alloc, source, atom)? {
            atoms.push(atom.copy(alloc)?)?;
        }
    }
    Ok(Cube { atoms })
}

/// The first of the candidates that parts the mark and closes. So many are tried as there are
/// tries.
fn first_closing(
    alloc: Global,
    memos: &mut Memos,
    choice: &Choice,
    account: Account,
    all: &[Atom],
) -> Result<Option<Cube>, OutOfMemory>
    requires start { ReadsStart choice.now.query.now (trace_of choice.now.trail.now) }
{
    let mut tries: u32 = 0;
    for atom in all {
        if tries >= TRIES || memos.chooser.left == 0 {
            return Ok(None);
        }
        let atom = single(alloc, atom)?;
        if is_closing(alloc, memos, choice, account, &atom)? {
            return Ok(Some(atom));
        }
        if may_part(choice, atom.atoms.as_slice()) {
            tries = tries.saturating_add(1);
        }
    }
    Ok(None)
}

/// The atoms but the one of this place.
fn without(alloc: Global, atoms: &Cube, place: usize) -> Result<Cube, OutOfMemory> {
    let mut rest = Atoms::new(alloc);
    for (other, atom) in atoms.atoms.as_slice().iter().enumerate() {
        if other != place {
            rest.push(atom.copy(alloc)?)?;
        }
    }
    Ok(Cube { atoms: rest })
}

/// Whether the atom of this place is one of a range, or not, as is said, and not the only one.
fn is_such(atoms: &Cube, place: usize, of_range: bool) -> bool {
    let atoms = atoms.atoms.as_slice();
    match atoms.get(place) {
        Some(atom) => atoms.len() > 1 && is_of_range(atom) == of_range,
        None => false,
    }
}

/// The atoms without those, of ranges or others, that they don't need.
fn fewer(
    alloc: Global,
    memos: &mut Memos,
    choice: &Choice,
    account: Account,
    atoms: &Cube,
    of_range: bool,
) -> Result<Cube, OutOfMemory>
    requires start { ReadsStart choice.now.query.now (trace_of choice.now.trail.now) }
{
    let mut kept = atoms.copy(alloc)?;
    for (place, _) in atoms.atoms.as_slice().iter().enumerate().rev() {
        if is_such(&kept, place, of_range) {
            let rest = without(alloc, &kept, place)?;
            if is_closing(alloc, memos, choice, account, &rest)? {
                kept = rest;
            }
        }
    }
    Ok(kept)
}

/// Few of the useful atoms, if all together close.
fn few_closing(
    alloc: Global,
    memos: &mut Memos,
    choice: &Choice,
    account: Account,
    useful: &Cube,
) -> Result<Option<Cube>, OutOfMemory>
    requires start { ReadsStart choice.now.query.now (trace_of choice.now.trail.now) }
{
    if useful.atoms.as_slice().len() < 2 || !is_closing(alloc, memos, choice, account, useful)? {
        return Ok(None);
    }
    let few = fewer(alloc, memos, choice, account, useful, true)?;
    Ok(Some(fewer(alloc, memos, choice, account, &few, false)?))
}

/// The first candidate that closes, or else few of the useful atoms that do.
fn searched(
    alloc: Global,
    memos: &mut Memos,
    choice: &Choice,
    account: Account,
    pre: &Cube,
) -> Result<Option<Cube>, OutOfMemory>
    requires start { ReadsStart choice.now.query.now (trace_of choice.now.trail.now) }
{
    let useful = useful(alloc, &mut memos.chooser, choice.source, pre)?;
    let all = candidates(
        alloc,
        useful.atoms.as_slice(),
        pre.atoms.as_slice(),
        choice.source.atoms.as_slice(),
    )?;
    match first_closing(alloc, memos, choice, account, all.as_slice())? {
        Some(atom) => Ok(Some(atom)),
        None => few_closing(alloc, memos, choice, account, &useful),
    }
}

/// The key of a choice for the source and this preimage.
fn tried_key(choice: &Choice, key: u64, pre: &Cube) -> u64 {
    let rows = choice.source.atoms.as_slice().len() as u64;
    let key = mixed(mixed_rows(key, pre), u64::from(choice.from));
    mixed(mixed(key, rows), u64::from(EACH))
}

/// What is found with as many questions as a choice asks, which are written down.
fn bounded(
    alloc: Global,
    memos: &mut Memos,
    choice: &Choice,
    account: Account,
    pre: &Cube,
) -> Result<Option<Cube>, OutOfMemory>
    requires start { ReadsStart choice.now.query.now (trace_of choice.now.trail.now) }
{
    memos.chooser.left = EACH;
    let found = searched(alloc, memos, choice, account, pre)?;
    let spent = EACH.saturating_sub(memos.chooser.left);
    memos.chooser.spend(account.ledger, spent);
    Ok(found)
}

/// Atoms that part the mark and into whose piece no path is found, if some are found and the source
/// lies where paths turn.
pub fn induced_atoms(
    alloc: Global,
    memos: &mut Memos,
    choice: &Choice,
    pre: &Cube,
) -> Result<Option<Cube>, OutOfMemory>
    requires start { ReadsStart choice.now.query.now (trace_of choice.now.trail.now) }
{
    if !is_turning(alloc, &mut memos.chooser, choice)? {
        return Ok(None);
    }
    let key = key_of(choice.state.query());
    let ledger = memos.chooser.ledger(alloc, key)?;
    let closed = memos
        .chooser
        .ledger(alloc, start_key(choice.state.query()))?;
    let tried = tried_key(choice, key, pre);
    let regions = choice.state.partition().regions().len() as u64 / MORE;
    if memos.chooser.spent(ledger) >= ALL || memos.chooser.recall(tried) == Some(regions) {
        return Ok(None);
    }
    let account = Account {
        key,
        ledger,
        closed,
    };
    let found = bounded(alloc, memos, choice, account, pre)?;
    if found.is_none() {
        memos.chooser.note(tried, regions);
    }
    Ok(found)
}
