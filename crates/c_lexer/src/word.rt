//! Reserved words and marks by their texts.

ghost use Rattle.std.specs.Prelude.{◌≡◌, IfSome, IfNone};
ghost use Rattle.c_lexer.specs.Lexing.{keyword_text, mark_text};
ghost use Rattle.c_lexer.specs.declared.token.Punct.{Punct};
ghost use Rattle.c_lexer.specs.steps.Scanning.{slot_of, HasNoKeyword, mark_slot_of, HasBytes, StandsAt, IsMarkAt, HasNoMark};

use crate::run::byte_at;
use crate::token::{Keyword, Punct};

/// The reserved words.
const KEYWORDS: [Keyword; 44] = [
    Keyword::Int,
    Keyword::Long,
    Keyword::Void,
    Keyword::Extern,
    Keyword::If,
    Keyword::Else,
    Keyword::While,
    Keyword::Do,
    Keyword::For,
    Keyword::Break,
    Keyword::Continue,
    Keyword::Return,
    Keyword::Auto,
    Keyword::Case,
    Keyword::Char,
    Keyword::Const,
    Keyword::Default,
    Keyword::Double,
    Keyword::Enum,
    Keyword::Float,
    Keyword::Goto,
    Keyword::Inline,
    Keyword::Register,
    Keyword::Restrict,
    Keyword::Short,
    Keyword::Signed,
    Keyword::Sizeof,
    Keyword::Static,
    Keyword::Struct,
    Keyword::Switch,
    Keyword::Typedef,
    Keyword::Union,
    Keyword::Unsigned,
    Keyword::Volatile,
    Keyword::Alignas,
    Keyword::Alignof,
    Keyword::Atomic,
    Keyword::Bool,
    Keyword::Complex,
    Keyword::Generic,
    Keyword::Imaginary,
    Keyword::Noreturn,
    Keyword::StaticAssert,
    Keyword::ThreadLocal,
];

/// The places of the reserved words in `KEYWORDS`, each at its word's slot, and elsewhere 44.
const KEYWORD_PLACES: [u8; 128] = [
    44, 44, 44, 44, 44, 44, 44, 43, 44, 41, 44, 44, 44, 44, 44, 44, 44, 13, 44, 44, 44, 10, 44, 34,
    44, 44, 9, 12, 44, 17, 44, 44, 42, 44, 44, 44, 44, 5, 38, 44, 44, 44, 44, 40, 44, 27, 44, 44,
    25, 44, 44, 44, 44, 44, 26, 7, 14, 44, 44, 44, 29, 18, 44, 15, 44, 30, 3, 44, 11, 44, 32, 44,
    44, 44, 44, 16, 2, 44, 4, 21, 44, 44, 22, 33, 44, 8, 44, 20, 23, 44, 6, 44, 44, 19, 44, 24, 28,
    31, 44, 44, 44, 44, 36, 39, 44, 44, 44, 44, 44, 44, 44, 44, 35, 1, 44, 44, 44, 44, 44, 44, 44,
    0, 44, 44, 44, 44, 44, 37,
];

/// The marks.
const MARKS: [Punct; 28] = [
    Punct::LessEqual,
    Punct::GreaterEqual,
    Punct::Equal,
    Punct::Unequal,
    Punct::And,
    Punct::Or,
    Punct::PlusAssign,
    Punct::MinusAssign,
    Punct::StarAssign,
    Punct::Increment,
    Punct::Decrement,
    Punct::OpenParenthesis,
    Punct::CloseParenthesis,
    Punct::OpenBrace,
    Punct::CloseBrace,
    Punct::Semicolon,
    Punct::Comma,
    Punct::Assign,
    Punct::Plus,
    Punct::Minus,
    Punct::Star,
    Punct::Not,
    Punct::Less,
    Punct::Greater,
    Punct::Slash,
    Punct::Percent,
    Punct::SlashAssign,
    Punct::PercentAssign,
];

/// The places of the marks in `MARKS`, each at its mark's slot, and elsewhere 28.
const MARK_PLACES: [u8; 68] = [
    28, 27, 28, 28, 5, 28, 8, 6, 28, 7, 4, 26, 28, 28, 28, 28, 28, 28, 28, 28, 28, 28, 28, 28, 0,
    2, 1, 28, 28, 28, 28, 9, 28, 21, 28, 28, 28, 25, 28, 28, 11, 12, 20, 18, 16, 19, 28, 24, 28,
    28, 28, 28, 28, 10, 28, 13, 28, 14, 28, 15, 22, 17, 23, 28, 28, 3, 28, 28,
];

impl Keyword {
    pub fn text(self) -> &'static [u8]
        ensures { result.now ≡ keyword_text self }
    {
        match self {
            Keyword::Int => b"int",
            Keyword::Long => b"long",
            Keyword::Void => b"void",
            Keyword::Extern => b"extern",
            Keyword::If => b"if",
            Keyword::Else => b"else",
            Keyword::While => b"while",
            Keyword::Do => b"do",
            Keyword::For => b"for",
            Keyword::Break => b"break",
            Keyword::Continue => b"continue",
            Keyword::Return => b"return",
            Keyword::Auto => b"auto",
            Keyword::Case => b"case",
            Keyword::Char => b"char",
            Keyword::Const => b"const",
            Keyword::Default => b"default",
            Keyword::Double => b"double",
            Keyword::Enum => b"enum",
            Keyword::Float => b"float",
            Keyword::Goto => b"goto",
            Keyword::Inline => b"inline",
            Keyword::Register => b"register",
            Keyword::Restrict => b"restrict",
            Keyword::Short => b"short",
            Keyword::Signed => b"signed",
            Keyword::Sizeof => b"sizeof",
            Keyword::Static => b"static",
            Keyword::Struct => b"struct",
            Keyword::Switch => b"switch",
            Keyword::Typedef => b"typedef",
            Keyword::Union => b"union",
            Keyword::Unsigned => b"unsigned",
            Keyword::Volatile => b"volatile",
            Keyword::Alignas => b"_Alignas",
            Keyword::Alignof => b"_Alignof",
            Keyword::Atomic => b"_Atomic",
            Keyword::Bool => b"_Bool",
            Keyword::Complex => b"_Complex",
            Keyword::Generic => b"_Generic",
            Keyword::Imaginary => b"_Imaginary",
            Keyword::Noreturn => b"_Noreturn",
            Keyword::StaticAssert => b"_Static_assert",
            Keyword::ThreadLocal => b"_Thread_local",
        }
    }
}

impl Punct {
    pub fn text(self) -> &'static [u8]
        ensures { result.now ≡ mark_text self }
    {
        match self {
            Punct::OpenParenthesis => b"(",
            Punct::CloseParenthesis => b")",
            Punct::OpenBrace => b"{",
            Punct::CloseBrace => b"}",
            Punct::Semicolon => b";",
            Punct::Comma => b",",
            Punct::Assign => b"=",
            Punct::Plus => b"+",
            Punct::Minus => b"-",
            Punct::Star => b"*",
            Punct::Slash => b"/",
            Punct::Percent => b"%",
            Punct::Not => b"!",
            Punct::Less => b"<",
            Punct::LessEqual => b"<=",
            Punct::Greater => b">",
            Punct::GreaterEqual => b">=",
            Punct::Equal => b"==",
            Punct::Unequal => b"!=",
            Punct::And => b"&&",
            Punct::Or => b"||",
            Punct::PlusAssign => b"+=",
            Punct::MinusAssign => b"-=",
            Punct::StarAssign => b"*=",
            Punct::SlashAssign => b"/=",
            Punct::PercentAssign => b"%=",
            Punct::Increment => b"++",
            Punct::Decrement => b"--",
        }
    }
}

/// The slot of a text. It is a perfect hash, as gperf's: each reserved word has a slot of its own.
fn slot(text: &[u8]) -> usize
    ensures { result ≡ slot_of text.now }
{
    let first = byte_at(text, 0) as usize;
    let last = byte_at(text, text.len().saturating_sub(1)) as usize;
    (10 * first + 3 * last + text.len()) % 128
}

/// The reserved word of a text.
pub(crate) fn keyword(text: &[u8]) -> Option<Keyword>
    ensures some { IfSome result (λ w. text.now ≡ keyword_text w) }
    ensures none { IfNone result (HasNoKeyword text.now) }
{
    let word = *KEYWORDS.get(KEYWORD_PLACES[slot(text)] as usize)?;
    if word.text() == text {
        Some(word)
    } else {
        None
    }
}

/// The slot of two bytes. Each mark has a slot of its own, where the second byte of a mark of one
/// byte is 0.
fn mark_slot(first: u8, second: u8) -> usize
    ensures { result ≡ mark_slot_of first second }
{
    (first as usize + 44 * second as usize) % 68
}

/// The mark of these two bytes, or of the first where the second is 0, if it stands at the
/// beginning of a text.
fn mark_of(rest: &[u8], first: u8, second: u8) -> Option<Punct>
    ensures some { IfSome result (StandsAt rest.now) }
    ensures only { IfSome result (λ m. (o : Punct) → HasBytes o first second → o ≡ m) }
    ensures none { IfNone result ((o : Punct) → HasBytes o first second → StandsAt rest.now o → ⊥) }
{
    let mark = *MARKS.get(MARK_PLACES[mark_slot(first, second)] as usize)?;
    if rest.starts_with(mark.text()) {
        Some(mark)
    } else {
        None
    }
}

/// The longest mark at the beginning of a text.
pub(crate) fn mark_at(rest: &[u8]) -> Option<Punct>
    ensures some { IfSome result (IsMarkAt rest.now) }
    ensures none { IfNone result (HasNoMark rest.now) }
{
    let first = byte_at(rest, 0);
    match mark_of(rest, first, byte_at(rest, 1)) {
        Some(mark) => Some(mark),
        None => mark_of(rest, first, 0),
    }
}
