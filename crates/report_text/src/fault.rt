//! Why sources are refused.

use c_lexer::token::LexError;
use c_parser::fault::ParseError;
use c_tree::tree::Pos;
use c_typing::fault::TypeFault;

/// Why a source is refused: its length, or the first fault of its bytes, its tokens or its tree.
#[derive(Clone, Copy, PartialEq, Eq, Debug)]
pub enum Refusal {
    Long,
    Lex(LexError),
    Parse(ParseError),
    Types(TypeFault, Pos),
}
