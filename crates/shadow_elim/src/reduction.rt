//! Of rows with the same coefficients the first one with the greatest constant stays.

ghost use Rattle.std.specs.Prelude.{◌≡◌, ◌++◌, ◌∷◌, [], length, All, Contains, IfOk, OnOk};
ghost use Rattle.std.specs.Cmp.Lexicographic.{pointwise};
ghost use Rattle.std.specs.List.{list_any};
ghost use Rattle.std.specs.Map.{lookup};
ghost use Rattle.shadow_elim.specs.Reduction.{reduced, SameReduced, is_as_strong, is_same_part, is_trivial};
ghost use Rattle.shadow_elim.specs.steps.Lists.{staying};
ghost use Rattle.shadow_elim.specs.steps.Making.{candidate_terms};
ghost use Rattle.shadow_elim.specs.steps.Places.{is_kept, is_found};

use crate::pairing::Candidate;
use linear_formula::error::OutOfMemory;
use linear_formula::term::Term;
use std::alloc::{AllocError, Global};
use std::collections::HashMap;
use std::marker::Model;

/// Rows in order. A row that came after one with the same coefficients has a greater constant.
#[derive(Drop)]
pub struct Reduction {
    rows: Vec<Candidate>,
    /// The last row with these coefficients.
    places: HashMap<Vec<(u32, i128)>, usize>,
}

impl Model for Reduction {
    ghost use Rattle.std.specs.Prelude.{List};
    ghost use Rattle.shadow_elim.specs.declared.pairing.Candidate.{Candidate};

    ghost Value = { List Candidate };

    ghost view = { λ r. r.rows.items };

    ghost use Rattle.shadow_elim.specs.steps.Places.{AreLastPlaces};

    ghost invariant = { λ r. AreLastPlaces r.places.entries r.rows.items };
}

impl Reduction {
    pub fn new(alloc: Global) -> Reduction
        ensures { result ≡ [] }
    {
        Reduction {
            rows: Vec::new(alloc),
            places: HashMap::new(alloc),
        }
    }

    /// Whether an earlier row is as strong.
    fn is_needless(&self, term: &Term) -> bool
        ensures { result ≡ list_any (is_as_strong term.now) (candidate_terms self.now) }
    {
        match self.places.get(term.parts()) {
            Some(place) => self.rows[*place].term.constant() >= term.constant(),
            None => false,
        }
    }

    /// Adds a row at the end, unless an earlier one is as strong.
    pub fn add(&mut self, alloc: Global, row: Candidate) -> Result<(), OutOfMemory>
        ensures same { OnOk result (SameReduced (candidate_terms (self.old ++ row ∷ []))
            (candidate_terms self.new)) }
        ensures among { OnOk result (All (λ c. Contains (self.old ++ row ∷ []) c) self.new) }
    {
        if self.is_needless(&row.term) {
            return Ok(());
        }
        let key = Vec::from_slice(alloc, row.term.parts())?;
        let place = self.rows.len();
        self.rows.push(row)?;
        match self.places.insert(key, place) {
            Ok(_) => Ok(()),
            Err(_) => {
                let _ = self.rows.pop();
                Err(AllocError)
            }
        }
    }

    pub fn len(&self) -> usize
        ensures { result ≡ length self.now }
    {
        self.rows.len()
    }

    /// How many rows stay.
    pub fn count(&self) -> usize
        ensures { result ≡ staying self.now }
    {
        let mut count = 0;
        for (place, row) in self.rows.iter().enumerate() {
            if stays(&self.places, place, &row.term) {
                count += 1;
            }
        }
        count
    }

    /// The rows that stay, each in its own place.
    pub fn finish(self, alloc: Global) -> Result<Vec<Candidate>, OutOfMemory>
        ensures rows { IfOk result (λ rows. candidate_terms rows.items
            ≡ reduced (candidate_terms self)) }
        ensures among { IfOk result (λ rows. All (λ c. Contains self c) rows.items) }
    {
        let Reduction { rows, places } = self;
        let mut kept = Vec::new(alloc);
        for (place, row) in rows.into_iter().enumerate() {
            if stays(&places, place, &row.term) {
                kept.push(row)?;
            }
        }
        Ok(kept)
    }
}

/// Whether the row at the place is the last one with its coefficients, and doesn't always hold.
fn stays(places: &HashMap<Vec<(u32, i128)>, usize>, place: usize, term: &Term) -> bool
    ensures { result ≡ is_kept places.now.entries place term.now }
{
    !is_trivial(term) && is_last(places, place, term.parts())
}

/// Whether the row has no column, and always holds.
fn is_trivial(term: &Term) -> bool
    ensures { result ≡ is_trivial term.now }
{
    term.parts().is_empty() && term.constant() <= 0
}

/// Whether the place is the last one of these coefficients.
fn is_last(places: &HashMap<Vec<(u32, i128)>, usize>, place: usize, parts: &[(u32, i128)]) -> bool
    ensures { result ≡ is_found place (lookup (λ k. pointwise is_same_part parts.now k.items)
        places.now.entries) }
{
    match places.get(parts) {
        Some(last) => *last == place,
        None => false,
    }
}
