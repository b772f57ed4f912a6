//! Rows of a cube between which all of its rows lie.

ghost use Rattle.std.specs.Prelude.{◌≡◌, ◌++◌, ◌∷◌, ◌+◌, ◌<◌, [], List, map, flat_map, IfOk, OnOk, IfSome, length};
ghost use Rattle.std.specs.List.{HoldsAt, range_with_len};
ghost use Rattle.linear_formula.specs.Extremes.{IsOutline};
ghost use Rattle.linear_formula.specs.declared.extremes.ExtremePair.{ExtremePair as APair};
ghost use Rattle.linear_formula.specs.declared.formula.Atom.{Atom as AnAtom};
ghost use Rattle.linear_formula.specs.steps.Outlines.{older_of, newest_of, pairs_of, pair_numbers, pair_rows, numbers_of, rows_of, IsWidened, ArePairs, Outlines};

use crate::error::OutOfMemory;
use crate::formula::{Atom, Atoms, Cube};
use crate::shared::SharedAtom;
use std::alloc::{AllocError, Global};
use std::marker::Model;
use std::sync::Arc;

/// Rows of a cube, each with its number in it: of those with the same coefficients the one with the
/// greatest constant and the one with the least. All other rows follow from the greatest ones, and
/// an answer for these rows alone is an answer for the cube.
#[derive(Debug, Drop)]
pub struct Extremes {
    pub cube: Cube,
    pub numbers: Vec<u32>,
    /// How many rows the cube has.
    pub count: u32,
}

/// A row with its number.
#[derive(Debug, Drop)]
pub(crate) struct NumberedAtom {
    number: u32,
    atom: SharedAtom,
}

/// Two rows with the same coefficients, of which no other one's constant is beyond theirs.
#[derive(Debug, Drop)]
pub(crate) struct ExtremePair {
    /// Of the coefficients: pairs with others mostly have another one.
    key: u64,
    greatest: NumberedAtom,
    least: NumberedAtom,
}

/// Pairs in order, which copies share as one.
#[derive(Debug, Drop)]
pub(crate) struct PairList {
    shared: Arc<Vec<ExtremePair>>,
}

impl Model for PairList {
    ghost use Rattle.std.specs.Prelude.{List};
    ghost use Rattle.linear_formula.specs.declared.extremes.ExtremePair.{ExtremePair};

    ghost Value = { List ExtremePair };

    ghost view = { λ l. l.shared.value.items };
}

/// Extreme rows of `count` rows, which copies share.
#[derive(Debug, Drop)]
pub(crate) struct Outline {
    /// Pairs with which no row is compared any more.
    older: Option<Arc<Vec<PairList>>>,
    newest: Option<PairList>,
    count: u32,
}

/// With how many pairs, the last ones, a row is compared. Where there are this many, they are kept
/// apart and no later row is compared with them, so that what one more block takes doesn't grow. A
/// row whose pair isn't found gets another one.
const MANY: usize = 256;

impl NumberedAtom {
    /// A copy of the atom.
    fn of(alloc: Global, number: u32, atom: &Atom) -> Result<NumberedAtom, OutOfMemory>
        ensures number { IfOk result (λ n. n.number ≡ number) }
        ensures atom { IfOk result (λ n. n.atom ≡ atom.now) }
    {
        let atom = SharedAtom::new(alloc, atom.copy(alloc)?)?;
        Ok(NumberedAtom { number, atom })
    }

    /// The same, shared.
    fn copy(&self) -> Result<NumberedAtom, OutOfMemory>
        ensures { IfOk result (λ n. n ≡ self.now) }
    {
        let atom = self.atom.copy()?;
        Ok(NumberedAtom {
            number: self.number,
            atom,
        })
    }

    fn parts(&self) -> &[(u32, i128)]
        ensures { result.now ≡ self.now.atom.term.parts }
    {
        self.atom.atom().term.parts()
    }

    fn constant(&self) -> i128
        ensures { result ≡ self.now.atom.term.constant }
    {
        self.atom.atom().term.constant()
    }
}

impl ExtremePair {
    /// The row alone.
    fn of(alloc: Global, key: u64, number: u32, atom: &Atom) -> Result<ExtremePair, OutOfMemory>
        ensures number { IfOk result (λ p. p.greatest.number ≡ number) }
        ensures atom { IfOk result (λ p. p.greatest.atom ≡ atom.now) }
        ensures least { IfOk result (λ p. p.least ≡ p.greatest) }
    {
        let greatest = NumberedAtom::of(alloc, number, atom)?;
        let least = greatest.copy()?;
        Ok(ExtremePair {
            key,
            greatest,
            least,
        })
    }

    /// The same, shared.
    fn copy(&self) -> Result<ExtremePair, OutOfMemory>
        ensures { IfOk result (λ p. p ≡ self.now) }
    {
        Ok(ExtremePair {
            key: self.key,
            greatest: self.greatest.copy()?,
            least: self.least.copy()?,
        })
    }

    /// Takes in a row with the same coefficients, of which a copy is made where it is beyond both.
    fn widen(&mut self, alloc: Global, number: u32, atom: &Atom) -> Result<(), OutOfMemory>
        ensures { OnOk result (IsWidened self.old number atom.now self.new) }
    {
        let constant = atom.term.constant();
        if self.greatest.constant() < constant {
            self.greatest = NumberedAtom::of(alloc, number, atom)?;
        } else if constant < self.least.constant() {
            self.least = NumberedAtom::of(alloc, number, atom)?;
        }
        Ok(())
    }
}

/// A number of these coefficients.
fn key_of(parts: &[(u32, i128)]) -> u64 {
    let mut key: u64 = 0;
    for (column, coefficient) in parts {
        key = key.rotate_left(7) ^ u64::from(*column);
        key = key.rotate_left(7) ^ (coefficient.cast_unsigned() % (1 << 64)) as u64;
    }
    key
}

/// The place of one of the last pairs with these coefficients, whose key this is.
fn place_of(pairs: &[ExtremePair], key: u64, parts: &[(u32, i128)]) -> Option<usize>
    ensures within { IfSome result (λ i. i < length pairs.now) }
    ensures parts { IfSome result
        (HoldsAt (λ p. p.greatest.atom.term.parts ≡ parts.now) pairs.now) }
{
    let mut place = pairs.len();
    let end = place.saturating_sub(MANY);
    while place > end {
        place -= 1;
        let pair = &pairs[place];
        if pair.key == key && pair.greatest.parts() == parts {
            return Some(place);
        }
    }
    None
}

/// Takes in a row, after pairs that it isn't compared with.
fn take_in(
    alloc: Global,
    pairs: &mut Vec<ExtremePair>,
    number: u32,
    atom: &Atom,
) -> Result<(), OutOfMemory>
    ensures { OnOk result
        ((older : List APair) (all : List AnAtom) → number ≡ length all →
        ArePairs (older ++ pairs.old.items) all →
        ArePairs (older ++ pairs.new.items) (all ++ atom.now ∷ [])) }
{
    let parts = atom.term.parts();
    let key = key_of(parts);
    match place_of(pairs, key, parts) {
        Some(place) => pairs[place].widen(alloc, number, atom)?,
        None => pairs.push(ExtremePair::of(alloc, key, number, atom)?)?,
    }
    Ok(())
}

/// Copies of the pairs.
fn copies(alloc: Global, pairs: &[ExtremePair]) -> Result<Vec<ExtremePair>, OutOfMemory>
    ensures { IfOk result (λ all. all.items ≡ pairs.now) }
{
    let mut all = Vec::with_capacity(alloc, pairs.len())?;
    for pair in pairs {
        all.push(pair.copy()?)?;
    }
    Ok(all)
}

impl PairList {
    /// Takes the pairs over.
    fn new(alloc: Global, pairs: Vec<ExtremePair>) -> Result<PairList, OutOfMemory>
        ensures { IfOk result (λ l. l ≡ pairs.items) }
    {
        let shared = Arc::new(alloc, pairs)?;
        Ok(PairList { shared })
    }

    /// The same pairs, shared.
    fn copy(&self) -> Result<PairList, OutOfMemory>
        ensures { IfOk result (λ l. l ≡ self.now) }
    {
        let shared = Arc::try_clone(&self.shared)?;
        Ok(PairList { shared })
    }

    fn as_slice(&self) -> &[ExtremePair]
        ensures { result.now ≡ self.now }
    {
        self.shared.as_slice()
    }
}

impl Outline {
    /// Of no rows.
    pub(crate) fn new() -> Outline
        ensures { Outlines result [] }
    {
        Outline {
            older: None,
            newest: None,
            count: 0,
        }
    }

    fn older(&self) -> &[PairList]
        ensures { result.now ≡ older_of self.now }
    {
        match &self.older {
            Some(older) => older.as_slice(),
            None => &[],
        }
    }

    fn newest(&self) -> &[ExtremePair]
        ensures { result.now ≡ newest_of self.now }
    {
        match &self.newest {
            Some(newest) => newest.as_slice(),
            None => &[],
        }
    }

    /// The same, shared.
    pub(crate) fn copy(&self) -> Result<Outline, OutOfMemory>
        ensures { IfOk result
            (λ o. (all : List AnAtom) → Outlines self.now all → Outlines o all) }
    {
        let older = match &self.older {
            Some(older) => Some(Arc::try_clone(older)?),
            None => None,
        };
        let newest = match &self.newest {
            Some(newest) => Some(newest.copy()?),
            None => None,
        };
        Ok(Outline {
            older,
            newest,
            count: self.count,
        })
    }

    /// The older pairs with more of them.
    fn older_with(&self, alloc: Global, more: PairList) -> Result<Vec<PairList>, OutOfMemory>
        ensures { IfOk result (λ all. all.items ≡ older_of self.now ++ more ∷ []) }
    {
        let older = self.older();
        let mut all = Vec::with_capacity(alloc, older.len() + 1)?;
        for list in older {
            all.push(list.copy()?)?;
        }
        all.push(more)?;
        Ok(all)
    }

    /// With these pairs in the place of the newest ones.
    fn renewed(
        &self,
        alloc: Global,
        pairs: Vec<ExtremePair>,
        count: u32,
    ) -> Result<Outline, OutOfMemory>
        ensures { IfOk result
            (λ o. (pairs_of o ≡ flat_map (λ l. l) (older_of self.now) ++ pairs.items)
            × (o.count ≡ count)) }
    {
        let many = pairs.len() >= MANY;
        let pairs = PairList::new(alloc, pairs)?;
        if many {
            let older = Some(Arc::new(alloc, self.older_with(alloc, pairs)?)?);
            return Ok(Outline {
                older,
                newest: None,
                count,
            });
        }
        let older = match &self.older {
            Some(older) => Some(Arc::try_clone(older)?),
            None => None,
        };
        Ok(Outline {
            older,
            newest: Some(pairs),
            count,
        })
    }

    /// The same with more rows at the end. Where there are more than 32 bits count, memory is said
    /// to be out.
    pub(crate) fn with(&self, alloc: Global, more: &[Atom]) -> Result<Outline, OutOfMemory>
        ensures { IfOk result
            (λ o. (all : List AnAtom) → Outlines self.now all → Outlines o (all ++ more.now)) }
    {
        let mut pairs = copies(alloc, self.newest())?;
        let mut count = self.count;
        for atom in more {
            take_in(alloc, &mut pairs, count, atom)?;
            let Some(next) = count.checked_add(1) else {
                return Err(AllocError);
            };
            count = next;
        }
        self.renewed(alloc, pairs, count)
    }

    /// How many rows there are.
    pub(crate) fn count(&self) -> usize
        ensures { result ≡ self.now.count }
    {
        self.count as usize
    }

    /// The extreme rows, and the rows after them.
    pub(crate) fn extremes(
        &self,
        alloc: Global,
        last: &[SharedAtom],
    ) -> Result<Extremes, OutOfMemory>
        ensures { IfOk result
            (λ e. (all : List AnAtom) → Outlines self.now all → IsOutline e (all ++ last.now)) }
    {
        let mut all = self.rows(alloc, last.len())?;
        all.push_copies(alloc, last)?;
        Ok(all)
    }

    /// The extreme rows, with room for `more` others beside the newest.
    fn rows(&self, alloc: Global, more: usize) -> Result<Extremes, OutOfMemory>
        ensures { IfOk result
            (λ e. (all : List AnAtom) → Outlines self.now all → IsOutline e all) }
    {
        let newest = self.newest();
        let room = newest.len().saturating_add(more);
        let mut all = Extremes::with_capacity(alloc, room)?;
        for list in self.older() {
            all.push_pairs(alloc, list.as_slice())?;
        }
        all.push_pairs(alloc, newest)?;
        all.count = self.count;
        Ok(all)
    }
}

impl Extremes {
    /// Of no rows, with room for `room` rows.
    pub fn with_capacity(alloc: Global, room: usize) -> Result<Extremes, OutOfMemory>
        ensures { IfOk result (λ e. IsOutline e []) }
    {
        Ok(Extremes {
            cube: Cube {
                atoms: Atoms::with_capacity(alloc, room)?,
            },
            numbers: Vec::with_capacity(alloc, room)?,
            count: 0,
        })
    }

    /// One more extreme row.
    fn push_numbered(&mut self, alloc: Global, row: &NumberedAtom) -> Result<(), OutOfMemory>
        ensures numbers { OnOk result
            (self.new.numbers.items ≡ self.old.numbers.items ++ row.now.number ∷ []) }
        ensures rows { OnOk result
            (self.new.cube.atoms ≡ self.old.cube.atoms ++ row.now.atom ∷ []) }
    {
        self.cube.atoms.push(row.atom.atom().copy(alloc)?)?;
        self.numbers.push(row.number)?;
        Ok(())
    }

    /// The extreme rows of a pair.
    fn push_pair(&mut self, alloc: Global, pair: &ExtremePair) -> Result<(), OutOfMemory>
        ensures numbers { OnOk result
            (self.new.numbers.items ≡ self.old.numbers.items ++ pair_numbers pair.now) }
        ensures rows { OnOk result
            (self.new.cube.atoms ≡ self.old.cube.atoms ++ pair_rows pair.now) }
    {
        self.push_numbered(alloc, &pair.greatest)?;
        if pair.least.number == pair.greatest.number {
            return Ok(());
        }
        self.push_numbered(alloc, &pair.least)
    }

    /// The extreme rows of the pairs.
    fn push_pairs(&mut self, alloc: Global, pairs: &[ExtremePair]) -> Result<(), OutOfMemory>
        ensures numbers { OnOk result
            (self.new.numbers.items ≡ self.old.numbers.items ++ numbers_of pairs.now) }
        ensures rows { OnOk result
            (self.new.cube.atoms ≡ self.old.cube.atoms ++ rows_of pairs.now) }
    {
        for pair in pairs {
            self.push_pair(alloc, pair)?;
        }
        Ok(())
    }

    /// Copies of these rows at the end.
    fn push_copies(&mut self, alloc: Global, atoms: &[SharedAtom]) -> Result<(), OutOfMemory>
        ensures { OnOk result
            ((all : List AnAtom) → IsOutline self.old all → IsOutline self.new (all ++ atoms.now)) }
    {
        for atom in atoms {
            self.push(atom.atom().copy(alloc)?)?;
        }
        Ok(())
    }

    /// One more row at the end.
    pub fn push(&mut self, atom: Atom) -> Result<(), OutOfMemory>
        ensures { OnOk result
            ((all : List AnAtom) → IsOutline self.old all → IsOutline self.new (all ++ atom ∷ [])) }
    {
        let Some(count) = self.count.checked_add(1) else {
            return Err(AllocError);
        };
        self.cube.atoms.push(atom)?;
        self.numbers.push(self.count)?;
        self.count = count;
        Ok(())
    }

    /// Of the rows of both, in order. Where there are more than 32 bits count, memory is said to be
    /// out.
    pub fn followed_by(self, other: Extremes) -> Result<Extremes, OutOfMemory>
        ensures { IfOk result
            (λ e. (all more : List AnAtom) → IsOutline self all → IsOutline other more →
            IsOutline e (all ++ more)) }
    {
        let Extremes {
            mut cube,
            mut numbers,
            count: before,
        } = self;
        cube.atoms.append(other.cube.atoms)?;
        push_later(&mut numbers, before, &other.numbers)?;
        let Some(count) = before.checked_add(other.count) else {
            return Err(AllocError);
        };
        Ok(Extremes {
            cube,
            numbers,
            count,
        })
    }

    /// Extreme rows among these.
    pub fn among(alloc: Global, rows: &[Atom]) -> Result<Extremes, OutOfMemory>
        ensures { IfOk result (λ e. IsOutline e rows.now) }
    {
        let outline = Outline::new().with(alloc, rows)?;
        outline.extremes(alloc, &[])
    }

    /// All rows of a cube.
    pub fn of(alloc: Global, cube: Cube) -> Result<Extremes, OutOfMemory>
        ensures { IfOk result (λ e. IsOutline e cube.atoms × (e.cube ≡ cube)) }
    {
        let Ok(count) = u32::try_from(cube.atoms.as_slice().len()) else {
            return Err(AllocError);
        };
        let numbers = first_numbers(alloc, count)?;
        Ok(Extremes {
            cube,
            numbers,
            count,
        })
    }
}

/// The numbers in `more`, each raised by `before`.
fn push_later(numbers: &mut Vec<u32>, before: u32, more: &[u32]) -> Result<(), OutOfMemory>
    ensures { OnOk result
        (numbers.new.items ≡ numbers.old.items ++ map (λ n. before + n) more.now) }
{
    for number in more {
        let Some(number) = before.checked_add(*number) else {
            return Err(AllocError);
        };
        numbers.push(number)?;
    }
    Ok(())
}

/// The first `count` numbers.
fn first_numbers(alloc: Global, count: u32) -> Result<Vec<u32>, OutOfMemory>
    ensures { IfOk result (λ ns. ns.items ≡ range_with_len 0 count) }
{
    let mut numbers = Vec::with_capacity(alloc, count as usize)?;
    for number in 0..count {
        numbers.push(number)?;
    }
    Ok(numbers)
}
