//! Paths of plain rows.

ghost use Rattle.std.specs.Prelude.{◌≡◌, IfOk, IsTrue};
ghost use Rattle.flow_graph.specs.Columns.{names_only, rows_name_only};
ghost use Rattle.summary_form.specs.Symbols.{all_name_only, is_symbol_column};

use crate::error::FormError;
use crate::rows::{Row, cube_of, term_of};
use flow_graph::columns::FIRST_SYMBOL;
use linear_formula::error::LinError;
use linear_formula::formula::{Atom, Cube};
use linear_formula::term::Term;
use std::alloc::Global;
use summary_form::path::{Path, Terms};
use summary_form::query::ExitKind;

/// What a path is: the rows of its guard, and the sums of its entry values, of its inputs and of
/// its exit values, over `symbols` symbols.
#[derive(Clone, Copy)]
pub struct Says<'a> {
    pub proc: u32,
    pub exit: ExitKind,
    pub symbols: u32,
    pub guard: &'a [Row<'a>],
    pub entry: &'a [Row<'a>],
    pub inputs: &'a [Row<'a>],
    pub outcome: &'a [Row<'a>],
}

fn is_symbol(symbols: u32, column: u32) -> bool
    ensures { result ≡ is_symbol_column symbols column }
{
    column >= FIRST_SYMBOL && u64::from(column) < u64::from(FIRST_SYMBOL) + u64::from(symbols)
}

fn has_symbols(symbols: u32, term: &Term) -> bool
    ensures { result ≡ names_only (is_symbol_column symbols) term.now }
{
    term.parts().iter().all(|part| is_symbol(symbols, part.0))
}

fn have_symbols(symbols: u32, terms: &[Term]) -> bool
    ensures { result ≡ all_name_only (is_symbol_column symbols) terms.now }
{
    terms.iter().all(|term| has_symbols(symbols, term))
}

fn rows_have_symbols(symbols: u32, rows: &[Atom]) -> bool
    ensures { result ≡ rows_name_only (is_symbol_column symbols) rows.now }
{
    rows.iter().all(|row| has_symbols(symbols, &row.term))
}

/// The sums, in order.
pub fn terms_of(alloc: Global, rows: &[Row]) -> Result<Terms, LinError> {
    let mut terms = Vec::new(alloc);
    for row in rows {
        terms.push(term_of(alloc, row)?)?;
    }
    Ok(Terms::from_vec(terms))
}

/// The sums, where they name symbols alone, or `NoPath`.
fn symbols_of(alloc: Global, symbols: u32, rows: &[Row]) -> Result<Terms, FormError>
    ensures { IfOk result (λ ts. IsTrue (all_name_only (is_symbol_column symbols) ts)) }
{
    let terms = terms_of(alloc, rows)?;
    if !have_symbols(symbols, terms.as_slice()) {
        return Err(FormError::NoPath);
    }
    Ok(terms)
}

fn guard_of(alloc: Global, symbols: u32, rows: &[Row]) -> Result<Cube, FormError>
    ensures { IfOk result (λ c. IsTrue (rows_name_only (is_symbol_column symbols) c.atoms)) }
{
    let guard = cube_of(alloc, rows)?;
    if !rows_have_symbols(symbols, guard.atoms.as_slice()) {
        return Err(FormError::NoPath);
    }
    Ok(guard)
}

/// The path, or `NoPath` where it names more than its symbols.
pub fn path_of(alloc: Global, says: &Says) -> Result<Path, FormError>
    ensures proc { IfOk result (λ p. p.proc ≡ says.now.proc) }
    ensures exit { IfOk result (λ p. p.exit ≡ says.now.exit) }
{
    let guard = guard_of(alloc, says.symbols, says.guard)?;
    let entry = symbols_of(alloc, says.symbols, says.entry)?;
    let inputs = symbols_of(alloc, says.symbols, says.inputs)?;
    Ok(Path {
        proc: says.proc,
        exit: says.exit,
        symbols: says.symbols,
        guard,
        entry,
        inputs,
        outcome: symbols_of(alloc, says.symbols, says.outcome)?,
    })
}
