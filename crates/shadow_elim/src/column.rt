//! The elimination of one column.

ghost use Rattle.std.specs.Prelude.{◌≡◌, ◌+◌, ◌<◌, ◌++◌, [], map, length, false, All, IfOk, OnOk, IsErrOf, IsTrue};
ghost use Rattle.std.specs.List.{list_all};
ghost use Rattle.linear_formula.specs.LinearSum.{is_within};
ghost use Rattle.shadow_elim.specs.Elimination.{is_upper, is_lower, pair_sum, pair_sums};
ghost use Rattle.shadow_elim.specs.steps.Making.{uppers, lowers, frees, known, made, made_of_all, candidates, step_of, steps_of, number_of, numbered, with_step, AreTerms};
ghost use Rattle.shadow_elim.specs.steps.Lists.{AreAdded, AreTaken, AreTooMany};
ghost use Rattle.shadow_elim.specs.steps.Marks.{IsSmall, AreMarked};
ghost use Rattle.shadow_elim.specs.RowSizes.{NoneIsWide};
ghost use Rattle.shadow_elim.specs.Stages.{terms_of, IsStage};

use crate::elimination::Stage;
use crate::limit::MAX_ROWS;
use crate::lists::{add_row, is_seen_beyond};
use crate::pairing::{Candidate, Making, Origin, combine};
use crate::reduction::Reduction;
use crate::row::Row;
use crate::shadow::ShadowError;
use crate::sizes::do_all_fit;
use crate::skipping::{are_both_small, is_skipped, marks_of};
use infeasible_cert::certificate::{Derived, Multiples};
use linear_formula::error::{LinError, OutOfMemory};
use linear_formula::formula::Atom;
use linear_formula::term::Term;
use std::alloc::{AllocError, Global};

/// The rows that bound a column, and the others.
struct Sides {
    uppers: Vec<Row>,
    lowers: Vec<Row>,
    free: Vec<Row>,
}

fn split_rows(alloc: Global, column: u32, rows: Vec<Row>) -> Result<Sides, OutOfMemory>
    ensures uppers { IfOk result (λ s. s.uppers.items ≡ uppers column rows.items) }
    ensures lowers { IfOk result (λ s. s.lowers.items ≡ lowers column rows.items) }
    ensures free { IfOk result (λ s. s.free.items ≡ frees column rows.items) }
    ensures terms { IfOk result (λ s. AreTerms rows.items) }
{
    let mut uppers = Vec::new(alloc);
    let mut lowers = Vec::new(alloc);
    let mut free = Vec::new(alloc);
    for row in rows {
        let coefficient = row.term.coefficient(column);
        if coefficient > 0 {
            uppers.push(row)?;
        } else if coefficient < 0 {
            lowers.push(row)?;
        } else {
            free.push(row)?;
        }
    }
    Ok(Sides {
        uppers,
        lowers,
        free,
    })
}

/// Adds the rows that don't name the column to the lists of the others.
fn add_free(
    lists: &mut Vec<Reduction>,
    alloc: Global,
    others: &[u32],
    rows: Vec<Row>,
) -> Result<(), OutOfMemory>
    requires { length others.now < length lists.old.items }
    ensures { OnOk result (AreAdded others.now (map known rows.items) lists.old.items
        lists.new.items) }
{
    for row in rows {
        let Row { term, number } = row;
        add_row(
            lists,
            alloc,
            others,
            Candidate {
                term,
                origin: Origin::Known(number),
            },
        )?;
    }
    Ok(())
}

fn add_pairs_of(
    lists: &mut Vec<Reduction>,
    alloc: Global,
    others: &[u32],
    column: u32,
    upper: &Row,
    lowers: &[Row],
    marks: &[bool],
) -> Result<(), LinError>
    requires lists { length others.now < length lists.old.items }
    requires upper { IsTrue (is_upper column upper.now.term) }
    requires lowers { All (λ l. IsTrue (is_lower column l.term)) lowers.now }
    requires marks { AreMarked (IsSmall column upper.now.term
        × All (λ l. IsSmall column l.term) lowers.now) lowers.now marks.now }
    ensures within { OnOk result
        (All (λ l. IsTrue (is_within (pair_sum column (upper.now.term, l.term)))) lowers.now) }
    ensures added { OnOk result (AreAdded others.now (map (made column upper.now) lowers.now)
        lists.old.items lists.new.items) }
    ensures wide { IsErrOf result LinError.Wide → ¬ All
        (λ l. IsTrue (is_within (pair_sum column (upper.now.term, l.term)))) lowers.now }
{
    for (place, lower) in lowers.iter().enumerate() {
        if !marks[place] {
            let row = combine(alloc, column, upper, lower)?;
            add_row(lists, alloc, others, row)?;
        }
    }
    Ok(())
}

/// Adds the rows of all pairs, until it is seen that too many stay. Where a sum may be too wide,
/// all are added.
fn add_pairs(
    lists: &mut Vec<Reduction>,
    alloc: Global,
    others: &[u32],
    column: u32,
    uppers: &[Row],
    lowers: &[Row],
) -> Result<(), ShadowError>
    requires lists { length others.now < length lists.old.items }
    requires uppers { All (λ u. IsTrue (is_upper column u.term)) uppers.now }
    requires lowers { All (λ l. IsTrue (is_lower column l.term)) lowers.now }
    ensures within { OnOk result (NoneIsWide column uppers.now lowers.now) }
    ensures added { OnOk result (AreAdded others.now (made_of_all column uppers.now lowers.now)
        lists.old.items lists.new.items) }
    ensures wide { IsErrOf result ShadowError.Wide → ¬ NoneIsWide column uppers.now lowers.now }
    ensures narrow { IsErrOf result ShadowError.Rows → NoneIsWide column uppers.now lowers.now }
    ensures rows { IsErrOf result ShadowError.Rows → AreTooMany others.now
        (made_of_all column uppers.now lowers.now) lists.old.items lists.new.items }
{
    let are_small = are_both_small(column, uppers, lowers);
    let do_fit = do_all_fit(uppers, lowers);
    let marks = marks_of(alloc, lowers, are_small)?;
    let mut counted = MAX_ROWS;
    for (place, upper) in uppers.iter().enumerate() {
        if !is_skipped(uppers, place, are_small) {
            add_pairs_of(lists, alloc, others, column, upper, lowers, &marks)?;
        }
        if do_fit && is_seen_beyond(lists, &mut counted) {
            return Err(ShadowError::Rows);
        }
    }
    Ok(())
}

fn derived(alloc: Global, term: &Term, making: Making) -> Result<Derived, OutOfMemory>
    ensures { IfOk result (λ d. d ≡ step_of term.now making) }
{
    let parts = vec![in alloc;
        (making.upper, making.upper_multiple),
        (making.lower, making.lower_multiple),
    ]?;
    Ok(Derived {
        row: Atom {
            term: term.copy(alloc)?,
        },
        parts: Multiples::from_vec(parts),
        divide: making.divide,
    })
}

/// A row with its number. A made one gets the next number, and its derivation is added.
fn numbered_row(
    alloc: Global,
    candidate: Candidate,
    first: u32,
    steps: &mut Vec<Derived>,
) -> Result<Row, OutOfMemory>
    ensures row { IfOk result (λ row. row ≡ record {
      term = candidate.term;
      number = number_of (first + length steps.old.items) candidate.origin;
    }) }
    ensures steps { OnOk result (steps.new.items
        ≡ steps.old.items ++ with_step candidate.origin candidate.term []) }
{
    let Candidate { term, origin } = candidate;
    match origin {
        Origin::Known(number) => Ok(Row { term, number }),
        Origin::Made(making) => {
            let number = next_number(first, steps)?;
            let step = derived(alloc, &term, making)?;
            steps.push(step)?;
            Ok(Row { term, number })
        }
    }
}

/// Gives the made rows their numbers from `first` and the length of `steps` on, and says how each
/// follows.
fn number(
    alloc: Global,
    candidates: Vec<Candidate>,
    first: u32,
    steps: &mut Vec<Derived>,
) -> Result<Vec<Row>, OutOfMemory>
    ensures rows { IfOk result (λ rows. rows.items ≡ numbered (first + length steps.old.items)
        candidates.items) }
    ensures steps { OnOk result (steps.new.items ≡ steps.old.items ++ steps_of candidates.items) }
{
    let mut rows = Vec::with_capacity(alloc, candidates.len())?;
    for candidate in candidates {
        let row = numbered_row(alloc, candidate, first, steps)?;
        rows.push(row)?;
    }
    Ok(rows)
}

/// The number of the next derived row. Where no number is left, there would be no memory for the
/// rows.
fn next_number(first: u32, steps: &Vec<Derived>) -> Result<u32, OutOfMemory>
    ensures { IfOk result (λ n. n ≡ first + length steps.now.items) }
{
    match u32::try_from(steps.len() as u64 + u64::from(first)) {
        Ok(number) => Ok(number),
        Err(_) => Err(AllocError),
    }
}

/// The rows of the last list that stay. The made ones are numbered from `first` and the length of
/// `steps` on.
pub fn take_rows(
    alloc: Global,
    lists: &mut Vec<Reduction>,
    first: u32,
    steps: &mut Vec<Derived>,
) -> Result<Vec<Row>, OutOfMemory>
    requires { 0 < length lists.old.items }
    ensures taken { IfOk result (λ rows. AreTaken first lists.old.items lists.new.items
        steps.old.items steps.new.items rows.items) }
{
    let Some(list) = lists.pop() else {
        return Err(AllocError);
    };
    let kept = list.finish(alloc)?;
    number(alloc, kept, first, steps)
}

/// Eliminates a column: what is left of the rows goes to the lists of the others.
pub fn eliminate_column(
    alloc: Global,
    column: u32,
    others: &[u32],
    rows: Vec<Row>,
    lists: &mut Vec<Reduction>,
) -> Result<Stage, ShadowError>
    requires { length others.now < length lists.old.items }
    ensures stage { IfOk result (λ s. IsStage column (terms_of rows.items) s) }
    ensures added { IfOk result (λ _. AreAdded others.now (candidates column rows.items)
        lists.old.items lists.new.items) }
    ensures within { IfOk result (λ _. IsTrue (list_all is_within
        (pair_sums column (terms_of rows.items)))) }
    ensures terms { IfOk result (λ _. AreTerms rows.items) }
    ensures wide { IsErrOf result ShadowError.Wide → list_all is_within
        (pair_sums column (terms_of rows.items)) ≡ false }
    ensures narrow { IsErrOf result ShadowError.Rows → IsTrue (list_all is_within
        (pair_sums column (terms_of rows.items))) }
    ensures rows { IsErrOf result ShadowError.Rows → AreTooMany others.now
        (candidates column rows.items) lists.old.items lists.new.items }
{
    let Sides {
        uppers,
        lowers,
        free,
    } = split_rows(alloc, column, rows)?;
    add_free(lists, alloc, others, free)?;
    add_pairs(lists, alloc, others, column, &uppers, &lowers)?;
    Ok(Stage {
        column,
        uppers,
        lowers,
    })
}
