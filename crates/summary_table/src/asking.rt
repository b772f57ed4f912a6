//! The question of one summary.

ghost use Rattle.std.specs.Prelude.{◌≡◌, ◌↔◌, None, pos, IfOk, IfErr, IsTrue};
ghost use Rattle.linear_formula.specs.Results.{constant_sum};
ghost use Rattle.shadow_elim.specs.Projection.{IfRefused};
ghost use Rattle.shadow_elim.specs.RightLimit.{IsRight};
ghost use Rattle.shadow_elim.specs.Sums.{first_wide, row_sums, rows_of_sums, term_at, IsFirstWide};
ghost use Rattle.summary_form.specs.declared.summary.Summary.TheVariants.{NotMay, Must};
ghost use Rattle.summary_table.specs.Asked.{rows_of_query, path_reading};
ghost use Rattle.summary_table.specs.steps.Outcomes.{IsOutcome, IsMeant};

use crate::answer::AnswerProof;
use c_tree::tree::ProcId;
use flow_graph::columns::{FIRST_ENTRY, FIRST_EXIT, FIRST_SYMBOL};
use lia_solver::entails::entails;
use lia_solver::solve::solve;
use lia_solver::solved::{Entailed, Solved};
use linear_formula::error::OutOfMemory;
use linear_formula::formula::{Atoms, Cube};
use linear_formula::question::Question;
use linear_formula::reading::Reading;
use linear_formula::term::{Parts, Term};
use shadow_elim::limit::Kept;
use shadow_elim::projection::ProjectionError;
use shadow_elim::sum::read_onto;
use std::alloc::{AllocError, Global};
use summary_form::path::Path;
use summary_form::query::{ExitKind, Query};
use summary_form::summary::Summary;

/// The answer to the question of one summary.
#[derive(Drop)]
pub enum Asked {
    Answers(AnswerProof),
    Not,
    Limit(Kept),
}

/// A path's terms of entry and exit values in their columns, and 0 in the others.
#[derive(Drop)]
struct PathTerms<'a> {
    path: &'a Path,
}

fn zero(alloc: Global) -> Term
    ensures { result ≡ constant_sum (pos 0) }
{
    Term::new(Parts::from_vec(Vec::new(alloc)), 0)
}

/// The term at a place, 0 after the last one.
fn term_at(alloc: Global, terms: &[Term], place: u32) -> Result<Term, OutOfMemory>
    ensures { IfOk result (λ t. t ≡ term_at terms.now place) }
{
    match terms.get(place as usize) {
        Some(term) => term.copy(alloc),
        None => Ok(zero(alloc)),
    }
}

impl<'a> Reading for PathTerms<'a> {
    ghost term_at = { λ r. path_reading r.path.now };

    fn term(&self, alloc: Global, column: u32) -> Result<Term, OutOfMemory> {
        if column < FIRST_ENTRY {
            Ok(zero(alloc))
        } else if column < FIRST_EXIT {
            term_at(alloc, self.path.entry.as_slice(), column - FIRST_ENTRY)
        } else if column < FIRST_SYMBOL {
            term_at(alloc, self.path.outcome.as_slice(), column - FIRST_EXIT)
        } else {
            Ok(zero(alloc))
        }
    }
}

/// The rows with the path's terms in the places of their columns.
fn read_rows(alloc: Global, rows: &Cube, path: &Path) -> Result<Cube, ProjectionError>
    ensures rows { IfOk result
        (λ c. c.atoms ≡ rows_of_sums (row_sums (path_reading path.now) rows.now.atoms)) }
    ensures decided { IfOk result
        (λ _. first_wide (row_sums (path_reading path.now) rows.now.atoms) ≡ None) }
    ensures limit { IfErr result
        (λ e. IfRefused e (IsFirstWide (row_sums (path_reading path.now) rows.now.atoms))) }
    ensures right { IfErr result (λ e. IfRefused e IsRight) }
{
    let atoms = rows.atoms.as_slice();
    let mut read = Atoms::with_capacity(alloc, atoms.len())?;
    read_onto(alloc, &mut read, &PathTerms { path }, atoms)?;
    Ok(Cube { atoms: read })
}

/// Whether the query's rows entail those of a not-may of its procedure and exit.
fn ask_not_may(
    alloc: Global,
    query: &Query,
    rows: &Cube,
    not_may: &Query,
) -> Result<Asked, OutOfMemory>
    requires rows { rows.now.atoms ≡ rows_of_query query.now }
    requires procedure { not_may.now.proc ≡ query.now.proc }
    requires exit { not_may.now.exit ≡ query.now.exit }
    ensures outcome { IfOk result (λ a. IsOutcome query.now (NotMay not_may.now) a) }
    ensures meant { IfOk result (λ a. IsMeant query.now (NotMay not_may.now) a) }
{
    let right = not_may.start.and(alloc, &not_may.end)?;
    match entails(alloc, rows, &right)? {
        Entailed::Yes(certificates) => Ok(Asked::Answers(AnswerProof::Entailed(certificates))),
        Entailed::No(_at) => Ok(Asked::Not),
        Entailed::Limit(kept) => Ok(Asked::Limit(kept)),
    }
}

/// Whether some values of its symbols meet a must's guard and the query's rows.
fn ask_path(alloc: Global, query: &Query, rows: &Cube, path: &Path) -> Result<Asked, OutOfMemory>
    requires rows { rows.now.atoms ≡ rows_of_query query.now }
    requires procedure { path.now.proc ≡ query.now.proc }
    requires exit { path.now.exit ≡ query.now.exit }
    ensures outcome { IfOk result (λ a. IsOutcome query.now (Must path.now) a) }
    ensures meant { IfOk result (λ a. IsMeant query.now (Must path.now) a) }
{
    let read = match read_rows(alloc, rows, path) {
        Ok(read) => read,
        Err(ProjectionError::Limit(kept)) => return Ok(Asked::Limit(kept)),
        Err(ProjectionError::Memory) => return Err(AllocError),
    };
    let cube = path.guard.and(alloc, &read)?;
    match solve(alloc, &cube)? {
        Solved::Point(at) => Ok(Asked::Answers(AnswerProof::Met(at))),
        Solved::Never(_certificate) => Ok(Asked::Not),
        Solved::Limit(limit) => Ok(Asked::Limit(Kept {
            question: Question::Cube(cube),
            limit,
        })),
    }
}

/// Is the summary of this procedure and exit one of the query's?
fn is_asked(query: &Query, proc: ProcId, exit: ExitKind) -> bool
    ensures { IsTrue result ↔ ((proc ≡ query.now.proc) × (exit ≡ query.now.exit)) }
{
    proc == query.proc && exit == query.exit
}

/// Asks whether the summary answers the query, whose rows are these.
pub fn ask(
    alloc: Global,
    query: &Query,
    rows: &Cube,
    summary: &Summary,
) -> Result<Asked, OutOfMemory>
    requires { rows.now.atoms ≡ rows_of_query query.now }
    ensures outcome { IfOk result (λ a. IsOutcome query.now summary.now a) }
    ensures meant { IfOk result (λ a. IsMeant query.now summary.now a) }
{
    match summary {
        Summary::NotMay(not_may) => {
            if is_asked(query, not_may.proc, not_may.exit) {
                ask_not_may(alloc, query, rows, not_may)
            } else {
                Ok(Asked::Not)
            }
        }
        Summary::Must(path) => {
            if is_asked(query, path.proc, path.exit) {
                ask_path(alloc, query, rows, path)
            } else {
                Ok(Asked::Not)
            }
        }
    }
}
