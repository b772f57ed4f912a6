//! The text of a refusal.

ghost use Rattle.std.specs.Prelude.{◌≡◌, IfOk, string_bytes};
ghost use Rattle.report_text.specs.Refused.{IsOfSource, lex_line, parse_line, refusal_line, refusal_text};

use crate::OutOfMemory;
use crate::fault::Refusal;
use c_lexer::token::LexError;
use c_parser::fault::ParseError;
use c_tree::tree::Pos;
use std::alloc::Global;

const TOO_LONG: &str = "refused: source longer than 65536 bytes\n";

/// The line of a fault with a place.
fn refusal_line(alloc: Global, at: Pos, text: &str) -> Result<String, OutOfMemory>
    ensures { IfOk result (λ line. string_bytes line ≡ refusal_line at text.now) }
{
    format!(in alloc; "refused {}:{}: {}\n", at.line, at.column, text)
}

fn lex_line(alloc: Global, error: LexError) -> Result<String, OutOfMemory>
    requires { IsOfSource (Refusal.Lex error) }
    ensures { IfOk result (λ line. string_bytes line ≡ lex_line error) }
{
    match error {
        LexError::BadByte(at) => refusal_line(alloc, at, error.text()),
        LexError::OpenComment(at) => refusal_line(alloc, at, error.text()),
        LexError::TooWide(at) => refusal_line(alloc, at, error.text()),
        LexError::Memory => unreachable!(),
    }
}

fn parse_line(alloc: Global, error: ParseError) -> Result<String, OutOfMemory>
    requires { IsOfSource (Refusal.Parse error) }
    ensures { IfOk result (λ line. string_bytes line ≡ parse_line error) }
{
    match error {
        ParseError::Unexpected(at) => refusal_line(alloc, at, error.text()),
        ParseError::End(at) => refusal_line(alloc, at, error.text()),
        ParseError::TooDeep(at) => refusal_line(alloc, at, error.text()),
        ParseError::Memory => unreachable!(),
    }
}

/// The text of a refusal.
pub fn refusal_text(alloc: Global, why: Refusal) -> Result<String, OutOfMemory>
    requires { IsOfSource why }
    ensures { IfOk result (λ text. string_bytes text ≡ refusal_text why) }
{
    match why {
        Refusal::Long => String::from_str(alloc, TOO_LONG),
        Refusal::Lex(error) => lex_line(alloc, error),
        Refusal::Parse(error) => parse_line(alloc, error),
        Refusal::Types(fault, at) => refusal_line(alloc, at, fault.text()),
    }
}

/// What is written of a source that is refused. Lack of memory is no refusal.
pub fn refusal(alloc: Global, why: &Refusal) -> Result<Vec<u8>, OutOfMemory>
    requires { IsOfSource why.now }
    ensures { IfOk result (λ text. text.items ≡ refusal_text why.now) }
{
    let text = refusal_text(alloc, *why)?;
    Ok(text.into_bytes())
}
