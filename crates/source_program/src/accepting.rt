//! From the bytes of a source to its program.

ghost use Rattle.std.specs.Prelude.{◌≡◌, ◌≤◌, length, IfOk, Err};
ghost use Rattle.c_tree.specs.Syntax.{PureProgram};
ghost use Rattle.c_tree.specs.WellFormed.{DividesByLiterals};
ghost use Rattle.c_tree.specs.Whole.{program_of};
ghost use Rattle.source_program.specs.Source.{IsAccepted, source_limit};
ghost use Rattle.source_program.specs.Rejections.{IsRefusedFor, lex_rejection, parse_rejection, type_rejection, Gives};
ghost use Rattle.source_program.specs.declared.accepting.Rejection.TheVariants.{Memory};

use c_lexer::scan::lex;
use c_lexer::token::LexError;
use c_parser::fault::ParseError;
use c_parser::parse::parse;
use c_tree::tree::Program;
use c_typing::check::check_types;
use c_typing::fault::TypeError;
use report_text::fault::Refusal;
use std::alloc::Global;

/// Why a source has no program.
#[derive(Clone, Copy, PartialEq, Eq, Debug)]
pub enum Rejection {
    /// The first fault, with its place.
    Refused(Refusal),
    Memory,
}

impl From<LexError> for Rejection {
    ghost from_gives = { λ e r. r ≡ lex_rejection e };

    fn from(error: LexError) -> Rejection {
        match error {
            LexError::BadByte(_) | LexError::OpenComment(_) | LexError::TooWide(_) => {
                Rejection::Refused(Refusal::Lex(error))
            }
            LexError::Memory => Rejection::Memory,
        }
    }
}

impl From<ParseError> for Rejection {
    ghost from_gives = { λ e r. r ≡ parse_rejection e };

    fn from(error: ParseError) -> Rejection {
        match error {
            ParseError::Unexpected(_) | ParseError::End(_) | ParseError::TooDeep(_) => {
                Rejection::Refused(Refusal::Parse(error))
            }
            ParseError::Memory => Rejection::Memory,
        }
    }
}

impl From<TypeError> for Rejection {
    ghost from_gives = { λ e r. r ≡ type_rejection e };

    fn from(error: TypeError) -> Rejection {
        match error {
            TypeError::Refused(fault, at) => Rejection::Refused(Refusal::Types(fault, at)),
            TypeError::Memory => Rejection::Memory,
        }
    }
}

/// The program of a source, or its first fault.
pub fn accept(alloc: Global, bytes: &[u8]) -> Result<Program, Rejection>
    requires { length bytes.now ≤ source_limit }
    ensures ok { IfOk result (λ p. IsAccepted bytes.now (program_of p)) }
    ensures divisors { IfOk result (λ p. DividesByLiterals (program_of p)) }
    ensures only { (P : PureProgram) → IsAccepted bytes.now P → Gives result P }
    ensures refused { (why : Refusal) → result ≡ Err (Rejection.Refused why) →
        IsRefusedFor bytes.now why }
{
    let tokens = lex(alloc, bytes)?;
    let tree = parse(alloc, bytes, &tokens)?;
    let program = check_types(alloc, &tree)?;
    Ok(program)
}
