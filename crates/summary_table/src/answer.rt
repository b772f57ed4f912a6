//! Answers of a table to a query.

use lia_solver::solved::Certificates;
use linear_formula::assignment::Assignment;
use shadow_elim::limit::Kept;

/// Why a summary answers a query.
#[derive(Drop)]
pub enum AnswerProof {
    /// Of a not-may: a certificate for each atom of its start and then of its end, that the query's
    /// cubes and the atom's negation are never met together.
    Entailed(Certificates),
    /// Of a must: values of its symbols that meet its guard and the query's cubes.
    Met(Assignment),
}

/// What a table says to a query.
#[derive(Drop)]
pub enum Answer {
    /// The first summary, by its place, whose question ended without a limit and that answers.
    Yes { place: u32, proof: AnswerProof },
    /// Every question ended without a limit, and no summary answers.
    None,
    /// No summary whose question ended without a limit answers; the first limit that was met.
    Limit(Kept),
}
