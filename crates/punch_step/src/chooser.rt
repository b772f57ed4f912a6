//! What choosers remember. Nothing rests on it.

use crate::effects::Paths;
use crate::entry_points::Entries;
use crate::memo::{mixed, mixed_rows};
use lia_solver::solve::solve;
use lia_solver::solved::Solved;
use linear_formula::assignment::Assignment;
use linear_formula::error::OutOfMemory;
use linear_formula::formula::{Atom, Cube};
use std::alloc::Global;
use summary_form::query::{ExitKind, Query};

/// How many slots there are for what was tried before.
const TRIED: u64 = 1 << 13;

/// How many ledgers there are.
const LEDGERS: usize = 64;

/// How many cubes of a query are remembered to have no path into them.
const CLOSED: usize = 512;

/// How many points are remembered.
const POINTS: usize = 16;

/// What is remembered for one query.
#[derive(Drop)]
pub struct Ledger {
    key: u64,
    /// How many questions choices asked.
    pub spent: u32,
    /// Cubes at nodes into which no path from outside them was found.
    pub closed: Vec<(u32, Cube)>,
}

/// What choosers remember.
#[derive(Drop)]
pub struct Chooser {
    /// How many questions the present choice may still ask.
    pub left: u32,
    pub ledgers: Vec<Ledger>,
    /// What was tried, and what it came to.
    tried: Vec<(u64, u64)>,
    pub paths: Vec<Paths>,
    pub entries: Entries,
    /// Points that were found last, and the place that the next one takes.
    points: Vec<Assignment>,
    next: usize,
}

/// What a question of a chooser comes to.
#[derive(Clone, Copy, PartialEq, Eq)]
pub enum Told {
    Met,
    Never,
    Nothing,
}

/// A hash of where the query's runs begin.
pub fn start_key(query: &Query) -> u64 {
    mixed(mixed_rows(1, &query.start), u64::from(query.proc))
}

/// A hash of the query.
pub fn key_of(query: &Query) -> u64 {
    let exit = match query.exit {
        ExitKind::Return => 0,
        ExitKind::Fail(number) => u64::from(number).saturating_add(1),
    };
    mixed(mixed_rows(start_key(query), &query.end), exit)
}

impl Chooser {
    pub fn new(alloc: Global) -> Result<Chooser, OutOfMemory> {
        let mut tried = Vec::with_capacity(alloc, TRIED as usize)?;
        for _ in 0..TRIED {
            tried.push((0, 0))?;
        }
        Ok(Chooser {
            left: 0,
            ledgers: Vec::new(alloc),
            tried,
            paths: Vec::new(alloc),
            entries: Entries::new(alloc),
            points: Vec::new(alloc),
            next: 0,
        })
    }

    /// What a try of this key came to, if it is known.
    pub fn recall(&self, key: u64) -> Option<u64> {
        match self.tried.get((key % TRIED) as usize) {
            Some((known, value)) if *known == key => Some(*value),
            _ => None,
        }
    }

    /// Remembers what a try came to.
    pub fn note(&mut self, key: u64, value: u64) {
        if let Some(slot) = self.tried.get_mut((key % TRIED) as usize) {
            *slot = (key, value);
        }
    }

    /// The place of the query's ledger. Where there are too many, all are forgotten first.
    pub fn ledger(&mut self, alloc: Global, key: u64) -> Result<usize, OutOfMemory> {
        if let Some(place) = self.ledgers.iter().position(|ledger| ledger.key == key) {
            return Ok(place);
        }
        if self.ledgers.len() >= LEDGERS {
            self.ledgers.clear();
        }
        let place = self.ledgers.len();
        self.ledgers.push(Ledger {
            key,
            spent: 0,
            closed: Vec::new(alloc),
        })?;
        Ok(place)
    }

    /// How many questions the choices of the ledger's query asked.
    pub fn spent(&self, place: usize) -> u32 {
        match self.ledgers.get(place) {
            Some(ledger) => ledger.spent,
            None => 0,
        }
    }

    /// Writes questions down in the ledger.
    pub fn spend(&mut self, place: usize, questions: u32) {
        if let Some(ledger) = self.ledgers.get_mut(place) {
            ledger.spent = ledger.spent.saturating_add(questions);
        }
    }

    /// Remembers that no path leads into the cube.
    pub fn close(&mut self, place: usize, node: u32, rows: Cube) -> Result<(), OutOfMemory> {
        if let Some(ledger) = self.ledgers.get_mut(place) {
            if ledger.closed.len() < CLOSED {
                ledger.closed.push((node, rows))?;
            }
        }
        Ok(())
    }

    /// Whether a point that is remembered meets the rows.
    fn is_met(&self, rows: &Cube) -> bool {
        self.points.iter().any(|point| rows.holds(point))
    }

    /// Remembers the point in the place of the one that was found longest ago.
    fn keep(&mut self, point: Assignment) -> Result<(), OutOfMemory> {
        match self.points.get_mut(self.next) {
            Some(place) => *place = point,
            None => self.points.push(point)?,
        }
        let next = self.next.saturating_add(1);
        self.next = if next < POINTS { next } else { 0 };
        Ok(())
    }

    /// Whether some point meets the rows. It counts as a question.
    pub fn ask(&mut self, alloc: Global, rows: &Cube) -> Result<Told, OutOfMemory> {
        self.left = self.left.saturating_sub(1);
        if self.is_met(rows) {
            return Ok(Told::Met);
        }
        match solve(alloc, rows)? {
            Solved::Point(point) => {
                self.keep(point)?;
                Ok(Told::Met)
            }
            Solved::Never(_) => Ok(Told::Never),
            Solved::Limit(_) => Ok(Told::Nothing),
        }
    }

    /// Whether the rows are seen to entail the atom.
    pub fn entails_one(
        &mut self,
        alloc: Global,
        rows: &Cube,
        atom: &Atom,
    ) -> Result<bool, OutOfMemory> {
        if is_implied(rows.atoms.as_slice(), atom) {
            return Ok(true);
        }
        let mut negated = atom.copy(alloc)?;
        if negated.negate().is_err() {
            return Ok(false);
        }
        let all = rows.with(alloc, negated)?;
        Ok(self.ask(alloc, &all)? == Told::Never)
    }

    /// Whether the rows are seen to entail the others.
    pub fn entails(
        &mut self,
        alloc: Global,
        rows: &Cube,
        others: &Cube,
    ) -> Result<bool, OutOfMemory> {
        for atom in others.atoms.as_slice() {
            if !self.entails_one(alloc, rows, atom)? {
                return Ok(false);
            }
        }
        Ok(true)
    }
}

/// Whether one of the rows bounds the same sum as closely.
pub fn is_implied(rows: &[Atom], atom: &Atom) -> bool {
    rows.iter().any(|row| {
        row.term.constant() >= atom.term.constant() && row.term.parts() == atom.term.parts()
    })
}
