//! Declarations of globals.

ghost use Rattle.std.specs.Prelude.{◌≤◌, ◌≤ℤ◌, pos, length, map, IfOk, IfErr};
ghost use Rattle.c_tree.specs.SourceView.{identifier_of};
ghost use Rattle.c_tree.specs.FileView.{global_of};
ghost use Rattle.c_parser.specs.steps.Parsing.{text_of};
ghost use Rattle.c_parser.specs.steps.ParsingGlobals as parsing;

use crate::fault::Fault;
use crate::look::{expect, is_mark, name, peek};
use crate::source::Source;
use c_lexer::token::{Punct, TokenKind};
use c_tree::syntax_tree::{GlobalTree, Named};

/// The value of the literal at a place.
fn literal(source: &Source, at: usize) -> Result<i64, Fault>
    ensures ok { IfOk result (parsing.StandsLiteral (text_of source.now) at) }
    ensures natural { IfOk result (λ n. pos 0 ≤ℤ n) }
    ensures err { IfErr result (parsing.MissesLiteral (text_of source.now) at) }
{
    let Some(token) = peek(source, at) else {
        return Err(Fault::End);
    };
    match token.kind {
        TokenKind::Literal(value) => Ok(value),
        _ => Err(Fault::Unexpected(at)),
    }
}

/// A literal with or without a sign.
fn signed(source: &Source, at: usize) -> Result<(i64, usize), Fault>
    ensures ok { IfOk result (λ r. parsing.ReadsSigned (text_of source.now) at r.0 r.1) }
    ensures err { IfErr result (parsing.FailsSigned (text_of source.now) at) }
{
    if is_mark(source, at, Punct::Minus) {
        let value = literal(source, at + 1)?;
        return Ok((-value, at + 2));
    }
    if is_mark(source, at, Punct::Plus) {
        let value = literal(source, at + 1)?;
        return Ok((value, at + 2));
    }
    let value = literal(source, at)?;
    Ok((value, at + 1))
}

/// The opening value after the name of a global, where it is given one.
fn opening_value(source: &Source, at: usize) -> Result<(Option<i64>, usize), Fault>
    requires { at ≤ length (text_of source.now) }
    ensures ok { IfOk result (λ r. parsing.ReadsValue (text_of source.now) at r.0 r.1) }
    ensures err { IfErr result (parsing.FailsValue (text_of source.now) at) }
{
    if !is_mark(source, at, Punct::Assign) {
        return Ok((None, at));
    }
    let (value, next) = signed(source, at + 1)?;
    Ok((Some(value), next))
}

/// A global with its opening value.
fn global(source: &Source, at: usize) -> Result<(GlobalTree, usize), Fault>
    ensures ok { IfOk result (λ r. parsing.ReadsGlobal (text_of source.now) at (global_of r.0)
        r.1) }
    ensures err { IfErr result (parsing.FailsGlobal (text_of source.now) at) }
{
    let Some(token) = peek(source, at) else {
        return Err(Fault::End);
    };
    let TokenKind::Name = token.kind else {
        return Err(Fault::Unexpected(at));
    };
    let (value, next) = opening_value(source, at + 1)?;
    let named = name(source, token)?;
    Ok((GlobalTree { named, value }, next))
}

/// Globals, after the name of the first, and the semicolon.
pub fn globals(source: &Source, at: usize, first: Named) -> Result<(Vec<GlobalTree>, usize), Fault>
    requires { at ≤ length (text_of source.now) }
    ensures ok { IfOk result (λ r. parsing.ReadsGlobals (text_of source.now) at
        (identifier_of first) (map global_of r.0.items) r.1) }
    ensures err { IfErr result (parsing.FailsGlobals (text_of source.now) at
        (identifier_of first)) }
{
    let (value, behind) = opening_value(source, at)?;
    let mut found = Vec::new(source.alloc);
    found.push(GlobalTree {
        named: first,
        value,
    })?;
    let mut next = behind;
    'globals: while is_mark(source, next, Punct::Comma) {
        let (one, after) = global(source, next + 1)?;
        found.push(one)?;
        next = after;
    }
    let end = expect(source, next, Punct::Semicolon)?;
    Ok((found, end))
}
