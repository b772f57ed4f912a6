//! Whether one cube entails another.

ghost use Rattle.std.specs.Prelude.{◌≡◌, ◌++◌, ◌∷◌, [], List, All, IfOk, IsTrue};
ghost use Rattle.linear_formula.specs.LinearSum.{Valuation, Is64, valuation, is_within};
ghost use Rattle.linear_formula.specs.Formula.{HoldsAll};
ghost use Rattle.linear_formula.specs.Results.{negated};
ghost use Rattle.linear_formula.specs.declared.formula.Atom.{Atom};
ghost use Rattle.infeasible_cert.specs.Refutation.{refutation_of};
ghost use Rattle.infeasible_cert.specs.Terms.{HasTerms};
ghost use Rattle.lia_solver.specs.steps.Asked.{IsLeft, IsNegation, IsAnswerTo};
ghost use Rattle.lia_solver.specs.steps.Further.{IsMeant};
ghost use Rattle.shadow_elim.specs.Entailment.{StopsAt, IsPointOf, IsLimitOf};
ghost use Rattle.shadow_elim.specs.Questions.{IsShownToEntail};
ghost use Rattle.lia_solver.specs.Entailment.{RefuteEach, IfYes, IfNo, IfLimit};

use crate::columns::{columns_of, with_columns};
use crate::implied::{implied, is_simple};
use crate::solve::solve_along;
use crate::solved::{Certificates, Entailed, Solved};
use infeasible_cert::certificate::Certificate;
use linear_formula::assignment::Assignment;
use linear_formula::error::OutOfMemory;
use linear_formula::formula::{Atom, Atoms, Cube};
use linear_formula::joined::Rows;
use linear_formula::question::{Question, Summands};
use shadow_elim::limit::{Kept, Limit};
use std::alloc::Global;

/// The cube of which is asked what it entails, its columns, and whether it is simple.
#[derive(Drop)]
struct Left {
    cube: Cube,
    columns: Vec<u32>,
    simple: bool,
}

/// The answer to an atom's question.
enum Answer {
    /// Nothing meets the left cube and the negation. The cube is given back for the next atom.
    Never(Certificate, Left),
    Point(Assignment),
    Limit(Kept),
}

fn left_of(alloc: Global, cube: &Cube) -> Result<Left, OutOfMemory>
    ensures { IfOk result (λ left. IsLeft cube.now.atoms left) }
{
    let columns = columns_of(alloc, &Rows::of(cube))?;
    Ok(Left {
        cube: cube.copy(alloc)?,
        simple: is_simple(cube.atoms.as_slice(), &columns),
        columns,
    })
}

/// The cube without its last atom. It keeps its memory.
fn without_last(cube: Cube) -> Cube
    ensures { (atoms : List Atom) (last : Atom) → cube.atoms ≡ atoms ++ last ∷ [] →
        result.atoms ≡ atoms }
{
    let mut atoms = cube.atoms.into_vec();
    let _ = atoms.pop();
    Cube {
        atoms: Atoms::from_vec(atoms),
    }
}

/// The sum that negates the atom, which is too wide.
fn wide(alloc: Global, atom: &Atom) -> Result<Kept, OutOfMemory>
    requires { ¬ IsTrue (is_within (negated atom.now.term)) }
    ensures { IfOk result (λ kept. (left : List Atom) → IsLimitOf left kept atom.now) }
{
    let summands = vec![in alloc; (-1, atom.term.copy(alloc)?)]?;
    let question = Question::Combine(Summands::from_vec(summands), 1);
    let branch = question.copy(alloc)?;
    Ok(Kept {
        question,
        limit: Limit::Wide { branch },
    })
}

/// Asks for a point of the left cube and the negation of the atom.
fn search(alloc: Global, left: Left, negation: Atom) -> Result<Answer, OutOfMemory>
    requires { IsLeft left.cube.atoms left }
    ensures { IfOk result (λ a. (atom : Atom) → IsNegation atom negation →
        (IsAnswerTo left.cube.atoms atom a × IsMeant left.cube.atoms atom a)) }
{
    let Left {
        mut cube,
        columns,
        simple,
    } = left;
    let all = with_columns(alloc, &columns, negation.term.parts())?;
    cube.atoms.push(negation)?;
    let rows = Rows::of(&cube);
    match solve_along(alloc, &rows, all)? {
        Solved::Never(certificate) => {
            let left = Left {
                cube: without_last(cube),
                columns,
                simple,
            };
            Ok(Answer::Never(certificate, left))
        }
        Solved::Point(at) => Ok(Answer::Point(at)),
        Solved::Limit(limit) => Ok(Answer::Limit(Kept {
            question: Question::Cube(cube),
            limit,
        })),
    }
}

/// The answer to the atom's question. Where one row of a simple cube entails the atom, nothing is
/// searched.
fn ask(alloc: Global, left: Left, atom: &Atom) -> Result<Answer, OutOfMemory>
    requires { IsLeft left.cube.atoms left }
    ensures answer { IfOk result (λ a. IsAnswerTo left.cube.atoms atom.now a) }
    ensures meant { IfOk result (λ a. IsMeant left.cube.atoms atom.now a) }
{
    let mut negation = atom.copy(alloc)?;
    if negation.negate().is_err() {
        return Ok(Answer::Limit(wide(alloc, atom)?));
    }
    if left.simple {
        let rows = left.cube.atoms.as_slice();
        if let Some(certificate) = implied(alloc, rows, &left.columns, atom, &negation)? {
            return Ok(Answer::Never(certificate, left));
        }
    }
    search(alloc, left, negation)
}

/// Whether each assignment that meets the left cube meets the right one. The atoms of the right
/// cube are asked in order, until one isn't entailed or meets a limit.
pub fn entails(alloc: Global, left: &Cube, right: &Cube) -> Result<Entailed, OutOfMemory>
    ensures yes { IfOk result
        (λ e. IfYes e (λ certificates. RefuteEach left.now.atoms right.now.atoms certificates)) }
    ensures plan { IfOk result
        (λ e. IfYes e (λ certificates. IsShownToEntail left.now.atoms right.now.atoms)) }
    ensures entailed { IfOk result
        (λ e. IfYes e (λ certificates. (v : Valuation) → Is64 v → HoldsAll v left.now.atoms →
        HoldsAll v right.now.atoms)) }
    ensures terms { IfOk result (λ e. IfYes e (All (λ c. HasTerms (refutation_of c)))) }
    ensures values { IfOk result (λ e. IfNo e (λ at. Is64 (valuation at))) }
    ensures left { IfOk result (λ e. IfNo e (λ at. HoldsAll (valuation at) left.now.atoms)) }
    ensures right { IfOk result (λ e. IfNo e (λ at. ¬ HoldsAll (valuation at) right.now.atoms)) }
    ensures first_no { IfOk result
        (λ e. IfNo e (λ at. StopsAt left.now.atoms right.now.atoms (IsPointOf left.now.atoms at))) }
    ensures first_limit { IfOk result
        (λ e. IfLimit e (λ kept. StopsAt left.now.atoms right.now.atoms
        (IsLimitOf left.now.atoms kept))) }
{
    let mut certificates = Vec::new(alloc);
    let mut asked = left_of(alloc, left)?;
    for atom in right.atoms.as_slice() {
        match ask(alloc, asked, atom)? {
            Answer::Never(certificate, rest) => {
                certificates.push(certificate)?;
                asked = rest;
            }
            Answer::Point(at) => return Ok(Entailed::No(at)),
            Answer::Limit(kept) => return Ok(Entailed::Limit(kept)),
        }
    }
    Ok(Entailed::Yes(Certificates::from_vec(certificates)))
}
