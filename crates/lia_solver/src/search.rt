//! The search of branches.

ghost use Rattle.std.specs.Prelude.{◌≡◌, [], ◌<ℤ◌, pos, take, drop, length, Contains, IfOk, IsTrue};
ghost use Rattle.linear_formula.specs.Formula.{are_terms};
ghost use Rattle.linear_formula.specs.Rows.{all_rows};
ghost use Rattle.shadow_elim.specs.Points.{split};
ghost use Rattle.shadow_elim.specs.Plan.{search, with_row, outcome_of};
ghost use Rattle.lia_solver.specs.steps.Branches.{planned, IsRightOutcome, IsSearched};
ghost use Rattle.lia_solver.specs.declared.search.Searched.TheVariants as searched;
ghost use Rattle.lia_solver.specs.declared.solved.Solved.TheVariants as solved;
ghost use Rattle.lia_solver.specs.steps.Further.{AreOutcomeTerms, AreSearchedTerms, IsAnswered};
ghost use Rattle.lia_solver.specs.steps.Searches.{IsSearchable};

use crate::branch::{BranchOutcome, solve_branch};
use crate::eliminate::Work;
use crate::solved::Solved;
use crate::table::Table;
use infeasible_cert::certificate::Certificate;
use linear_formula::error::OutOfMemory;
use linear_formula::formula::{Atom, Cube};
use linear_formula::joined::Rows;
use linear_formula::question::Question;
use linear_formula::term::Term;
use shadow_elim::limit::{Cubes, Limit, MAX_SPLITS};
use shadow_elim::row::single_term;
use std::alloc::Global;
use std::mem;

/// A branch is over with an answer to the question, or nothing is in it.
#[derive(Drop)]
pub enum Searched {
    Answer(Solved),
    Nothing(Certificate),
}

/// The search of one question: how many atoms it has, its columns, the cubes that were split so
/// far, and what each branch uses anew.
#[derive(Drop)]
pub struct Search {
    alloc: Global,
    atoms: usize,
    columns: Vec<u32>,
    splits: Vec<Cube>,
    work: Work,
    table: Table,
}

/// The cube with one more row.
fn with_row(alloc: Global, cube: &Cube, term: Term) -> Result<Cube, OutOfMemory>
    ensures { IfOk result (λ branch. branch.atoms ≡ with_row cube.now.atoms term) }
{
    cube.with(alloc, Atom { term })
}

impl Search {
    pub fn new(alloc: Global, atoms: usize, columns: Vec<u32>, table: Table) -> Search
        ensures atoms { result.atoms ≡ atoms }
        ensures columns { result.columns.items ≡ columns.items }
        ensures splits { result.splits.items ≡ [] }
    {
        Search {
            alloc,
            atoms,
            columns,
            splits: Vec::new(alloc),
            work: Work::new(alloc),
            table,
        }
    }

    #[inline(always)]
    fn outcome(&mut self, cube: &Cube) -> Result<BranchOutcome, OutOfMemory>
        requires branch { IsSearchable self.old cube.now.atoms }
        ensures plan { IfOk result (λ o. outcome_of cube.now.atoms ≡ planned o) }
        ensures right { IfOk result
            (λ o. IsRightOutcome (take self.old.atoms cube.now.atoms)
            (drop self.old.atoms cube.now.atoms) o) }
        ensures terms { IfOk result (λ o. AreOutcomeTerms o) }
        ensures atoms { self.new.atoms ≡ self.old.atoms }
        ensures columns { self.new.columns.items ≡ self.old.columns.items }
        ensures splits { self.new.splits.items ≡ self.old.splits.items }
    {
        let (question, splits) = cube.atoms.as_slice().split_at(self.atoms);
        let question = Rows {
            blocks: &[],
            own: question,
        };
        solve_branch(
            self.alloc,
            &mut self.work,
            &mut self.table,
            &question,
            splits,
            &self.columns,
        )
    }

    /// The same of the whole question, where its rows lie.
    #[inline(always)]
    fn first_outcome(&mut self, rows: &Rows) -> Result<BranchOutcome, OutOfMemory>
        requires branch { IsSearchable self.old (all_rows rows.now) }
        requires whole { self.old.atoms ≡ length (all_rows rows.now) }
        requires terms { IsTrue (are_terms (all_rows rows.now)) }
        ensures plan { IfOk result (λ o. outcome_of (all_rows rows.now) ≡ planned o) }
        ensures right { IfOk result (λ o. IsRightOutcome (all_rows rows.now) [] o) }
        ensures terms { IfOk result (λ o. AreOutcomeTerms o) }
        ensures atoms { self.new.atoms ≡ self.old.atoms }
        ensures columns { self.new.columns.items ≡ self.old.columns.items }
        ensures splits { self.new.splits.items ≡ self.old.splits.items }
    {
        solve_branch(
            self.alloc,
            &mut self.work,
            &mut self.table,
            rows,
            &[],
            &self.columns,
        )
    }

    /// Searches the whole question. It is copied only where it is split or kept with a limit.
    pub fn question(&mut self, rows: &Rows) -> Result<Searched, OutOfMemory>
        requires branch { IsSearchable self.old (all_rows rows.now) }
        requires whole { self.old.atoms ≡ length (all_rows rows.now) }
        requires terms { IsTrue (are_terms (all_rows rows.now)) }
        ensures searched { IfOk result
            (λ s. IsSearched (all_rows rows.now) [] MAX_SPLITS self.new.splits.items
            (search MAX_SPLITS self.old.splits.items (all_rows rows.now)) s) }
        ensures terms { IfOk result (λ s. AreSearchedTerms s) }
        ensures answered { IfOk result (λ s. IsAnswered s) }
    {
        match self.first_outcome(rows)? {
            BranchOutcome::Point(at) => Ok(Searched::Answer(Solved::Point(at))),
            BranchOutcome::Refuted(rows) => Ok(Searched::Nothing(Certificate::Close(rows))),
            BranchOutcome::Wide => Ok(limited(Limit::Wide {
                branch: Question::Cube(rows.to_cube(self.alloc)?),
            })),
            BranchOutcome::Rows => Ok(limited(Limit::Rows {
                branch: rows.to_cube(self.alloc)?,
            })),
            BranchOutcome::Split { column, at } => {
                let cube = rows.to_cube(self.alloc)?;
                self.split(cube, MAX_SPLITS, column, at)
            }
        }
    }

    /// Searches a branch whose splits may nest so deep.
    #[cycle(search)]
    fn branch(&mut self, cube: Cube, depth: u32) -> Result<Searched, OutOfMemory>
        requires { IsSearchable self.old cube.atoms }
        ensures searched { IfOk result
            (λ s. IsSearched (take self.old.atoms cube.atoms) (drop self.old.atoms cube.atoms) depth
            self.new.splits.items
            (search depth self.old.splits.items cube.atoms) s) }
        ensures terms { IfOk result (λ s. AreSearchedTerms s) }
        ensures answered { IfOk result (λ s. IsAnswered s) }
        ensures atoms { self.new.atoms ≡ self.old.atoms }
        ensures columns { self.new.columns.items ≡ self.old.columns.items }
    {
        match self.outcome(&cube)? {
            BranchOutcome::Point(at) => Ok(Searched::Answer(Solved::Point(at))),
            BranchOutcome::Refuted(rows) => Ok(Searched::Nothing(Certificate::Close(rows))),
            BranchOutcome::Wide => Ok(limited(Limit::Wide {
                branch: Question::Cube(cube),
            })),
            BranchOutcome::Rows => Ok(limited(Limit::Rows { branch: cube })),
            BranchOutcome::Split { column, at } => self.split(cube, depth, column, at),
        }
    }

    /// Searches the side at most `at`, and then the side at least `at + 1`.
    #[cycle(search)]
    fn split(
        &mut self,
        cube: Cube,
        depth: u32,
        column: u32,
        at: i64,
    ) -> Result<Searched, OutOfMemory>
        requires branch { IsSearchable self.old cube.atoms }
        requires plan { outcome_of cube.atoms ≡ split column at }
        requires sides { at <ℤ pos 9223372036854775807 }
        requires column { Contains self.old.columns.items column }
        ensures searched { IfOk result
            (λ s. IsSearched (take self.old.atoms cube.atoms) (drop self.old.atoms cube.atoms) depth
            self.new.splits.items
            (search depth self.old.splits.items cube.atoms) s) }
        ensures terms { IfOk result (λ s. AreSearchedTerms s) }
        ensures answered { IfOk result (λ s. IsAnswered s) }
        ensures atoms { self.new.atoms ≡ self.old.atoms }
        ensures columns { self.new.columns.items ≡ self.old.columns.items }
    {
        if depth == 0 || self.splits.len() >= MAX_SPLITS as usize {
            let branches = mem::replace(&mut self.splits, Vec::new(self.alloc));
            return Ok(limited(Limit::Branches {
                branches: Cubes::from_vec(branches),
            }));
        }
        let below = single_term(self.alloc, column, 1, -i128::from(at))?;
        let beyond = single_term(self.alloc, column, -1, i128::from(at) + 1)?;
        let low = with_row(self.alloc, &cube, below)?;
        let high = with_row(self.alloc, &cube, beyond)?;
        self.splits.push(cube)?;
        let low = match self.branch(low, depth - 1)? {
            Searched::Nothing(certificate) => certificate,
            answer => return Ok(answer),
        };
        match self.branch(high, depth - 1)? {
            Searched::Nothing(high) => Ok(Searched::Nothing(Certificate::Branch {
                rows: Vec::new(self.alloc),
                column,
                at,
                low: Box::new(self.alloc, low)?,
                high: Box::new(self.alloc, high)?,
            })),
            answer => Ok(answer),
        }
    }
}

fn limited(limit: Limit) -> Searched
    ensures { result ≡ searched.Answer (solved.Limit limit) }
{
    Searched::Answer(Solved::Limit(limit))
}
