//! The program of a source.

ghost use Rattle.std.specs.Prelude.{IfOk};
ghost use Rattle.c_tree.specs.WellFormed.{DividesByLiterals};
ghost use Rattle.c_tree.specs.Whole.{program_of as whole};

use c_lexer::scan::lex;
use c_lexer::token::LexError;
use c_parser::fault::ParseError;
use c_parser::parse::parse;
use c_tree::tree::Program;
use c_typing::check::check_types;
use c_typing::fault::TypeError;
use std::alloc::Global;
use thiserror::Error;

/// Why a source has no program.
#[derive(Debug, Drop, Error)]
pub enum Refusal {
    #[error("more than 64 KiB")]
    TooLong,
    #[error(transparent)]
    Lexing(#[from] LexError),
    #[error(transparent)]
    Parsing(#[from] ParseError),
    #[error(transparent)]
    Typing(#[from] TypeError),
}

/// The program of a source, as the front end reads it.
pub fn program_of(alloc: Global, source: &[u8]) -> Result<Program, Refusal>
    ensures { IfOk result (λ p. DividesByLiterals (whole p)) }
{
    if source.len() > 65_536 {
        return Err(Refusal::TooLong);
    }
    let tokens = lex(alloc, source)?;
    let tree = parse(alloc, source, &tokens)?;
    drop(tokens);
    Ok(check_types(alloc, &tree)?)
}
