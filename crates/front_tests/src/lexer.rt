//! Texts and what the lexer answers.

ghost use Rattle.std.specs.Prelude.{◌≤◌, length};

use c_lexer::scan::{end_of, lex, one_answer};
use c_lexer::token::{Keyword, LexError, Punct, TokenKind};
use c_tree::tree::Pos;
use std::alloc::Global;
use std::fmt::Write;
use std::test::Fail;

/// Each token of a text with its place and its bytes.
fn spelled(alloc: Global, text: &[u8]) -> Result<String, Fail>
    requires { length text.now ≤ 65536 }
{
    let mut out = String::new(alloc);
    for token in lex(alloc, text)? {
        write!(out, "{}:{} ", token.at.line, token.at.column)?;
        write!(out, "{}-{} {:?}; ", token.from, token.to, token.kind)?;
    }
    Ok(out)
}

/// Texts and their tokens.
const TOKENS: &[(&[u8], &str)] = &[
    (b"", ""),
    (b" \t\x0b\x0c\r\n", ""),
    (
        b"x+++0x1F;",
        "1:1 0-1 Name; 1:2 1-3 Mark(Increment); 1:4 3-4 Mark(Plus); 1:5 4-8 Literal(31); 1:9 8-9 Mark(Semicolon); ",
    ),
    (
        b"\na\n\n  b\tc",
        "2:1 1-2 Name; 4:3 6-7 Name; 4:5 8-9 Name; ",
    ),
    (
        b"int\r\nIf _z9 if0",
        "1:1 0-3 Word(Int); 2:1 5-7 Name; 2:4 8-11 Name; 2:8 12-15 Name; ",
    ),
    (
        b"a---b",
        "1:1 0-1 Name; 1:2 1-3 Mark(Decrement); 1:4 3-4 Mark(Minus); 1:5 4-5 Name; ",
    ),
    (
        b"= ===",
        "1:1 0-1 Mark(Assign); 1:3 2-4 Mark(Equal); 1:5 4-5 Mark(Assign); ",
    ),
    (b"a/* c */b", "1:1 0-1 Name; 1:9 8-9 Name; "),
    (b"a// \x00\xff */\nb//", "1:1 0-1 Name; 2:1 10-11 Name; "),
    (b"/**//***/ /* * / */x", "1:20 19-20 Name; "),
    (b"/* \n */ y", "2:5 8-9 Name; "),
    (b"#include <a>", ""),
    (b" \t#\tinclude", ""),
    (b"#include", ""),
    (b"#include <a> /* not a comment\nx", "2:1 30-31 Name; "),
    (
        b"int\n  # include\"a\" //\n#include<b>\n;",
        "1:1 0-3 Word(Int); 4:1 34-35 Mark(Semicolon); ",
    ),
    (b"a //b", "1:1 0-1 Name; "),
    (
        b"a /*b*/ / c",
        "1:1 0-1 Name; 1:9 8-9 Mark(Slash); 1:11 10-11 Name; ",
    ),
    (
        b"/* /* */ */",
        "1:10 9-10 Mark(Star); 1:11 10-11 Mark(Slash); ",
    ),
    (
        b"x /=2",
        "1:1 0-1 Name; 1:3 2-4 Mark(SlashAssign); 1:5 4-5 Literal(2); ",
    ),
    (b"a//=b\n%=", "1:1 0-1 Name; 2:1 6-8 Mark(PercentAssign); "),
    (b"/**/=", "1:5 4-5 Mark(Assign); "),
    (
        b"7/ /2",
        "1:1 0-1 Literal(7); 1:2 1-2 Mark(Slash); 1:4 3-4 Mark(Slash); 1:5 4-5 Literal(2); ",
    ),
    (
        b"a%%=b",
        "1:1 0-1 Name; 1:2 1-2 Mark(Percent); 1:3 2-4 Mark(PercentAssign); 1:5 4-5 Name; ",
    ),
];

#[test]
fn tokens_of_texts(rt: HostRuntime) -> Result<(), Fail> {
    one_answer();
    for &(text, wanted) in TOKENS {
        assert!(rt; text.len() <= 65536);
        let told = spelled(rt.alloc(), text)?;
        assert_eq!(rt; told.as_str(), wanted);
    }
    Ok(())
}

/// The kind of a text that is one token.
fn kind_of(alloc: Global, text: &[u8]) -> Option<TokenKind>
    requires { length text.now ≤ 65536 }
{
    let tokens = lex(alloc, text).ok()?;
    match tokens.as_slice() {
        [token] => Some(token.kind),
        _ => None,
    }
}

/// The words that are no names.
const WORDS: &[(&[u8], Keyword)] = &[
    (b"int", Keyword::Int),
    (b"long", Keyword::Long),
    (b"void", Keyword::Void),
    (b"extern", Keyword::Extern),
    (b"if", Keyword::If),
    (b"else", Keyword::Else),
    (b"while", Keyword::While),
    (b"do", Keyword::Do),
    (b"for", Keyword::For),
    (b"break", Keyword::Break),
    (b"continue", Keyword::Continue),
    (b"return", Keyword::Return),
    (b"auto", Keyword::Auto),
    (b"case", Keyword::Case),
    (b"char", Keyword::Char),
    (b"const", Keyword::Const),
    (b"default", Keyword::Default),
    (b"double", Keyword::Double),
    (b"enum", Keyword::Enum),
    (b"float", Keyword::Float),
    (b"goto", Keyword::Goto),
    (b"inline", Keyword::Inline),
    (b"register", Keyword::Register),
    (b"restrict", Keyword::Restrict),
    (b"short", Keyword::Short),
    (b"signed", Keyword::Signed),
    (b"sizeof", Keyword::Sizeof),
    (b"static", Keyword::Static),
    (b"struct", Keyword::Struct),
    (b"switch", Keyword::Switch),
    (b"typedef", Keyword::Typedef),
    (b"union", Keyword::Union),
    (b"unsigned", Keyword::Unsigned),
    (b"volatile", Keyword::Volatile),
    (b"_Alignas", Keyword::Alignas),
    (b"_Alignof", Keyword::Alignof),
    (b"_Atomic", Keyword::Atomic),
    (b"_Bool", Keyword::Bool),
    (b"_Complex", Keyword::Complex),
    (b"_Generic", Keyword::Generic),
    (b"_Imaginary", Keyword::Imaginary),
    (b"_Noreturn", Keyword::Noreturn),
    (b"_Static_assert", Keyword::StaticAssert),
    (b"_Thread_local", Keyword::ThreadLocal),
];

#[test]
fn words(rt: HostRuntime) -> Result<(), Fail> {
    for &(text, word) in WORDS {
        assert!(rt; text.len() <= 65536);
        assert_eq!(rt; kind_of(rt.alloc(), text), Some(TokenKind::Word(word)));
    }
    Ok(())
}

#[test]
fn marks(rt: HostRuntime) -> Result<(), Fail> {
    let table: &[(&[u8], Punct)] = &[
        (b"(", Punct::OpenParenthesis),
        (b")", Punct::CloseParenthesis),
        (b"{", Punct::OpenBrace),
        (b"}", Punct::CloseBrace),
        (b";", Punct::Semicolon),
        (b",", Punct::Comma),
        (b"=", Punct::Assign),
        (b"+", Punct::Plus),
        (b"-", Punct::Minus),
        (b"*", Punct::Star),
        (b"/", Punct::Slash),
        (b"%", Punct::Percent),
        (b"!", Punct::Not),
        (b"<", Punct::Less),
        (b"<=", Punct::LessEqual),
        (b">", Punct::Greater),
        (b">=", Punct::GreaterEqual),
        (b"==", Punct::Equal),
        (b"!=", Punct::Unequal),
        (b"&&", Punct::And),
        (b"||", Punct::Or),
        (b"+=", Punct::PlusAssign),
        (b"-=", Punct::MinusAssign),
        (b"*=", Punct::StarAssign),
        (b"/=", Punct::SlashAssign),
        (b"%=", Punct::PercentAssign),
        (b"++", Punct::Increment),
        (b"--", Punct::Decrement),
    ];
    for &(text, mark) in table {
        assert!(rt; text.len() <= 65536);
        assert_eq!(rt; kind_of(rt.alloc(), text), Some(TokenKind::Mark(mark)));
    }
    Ok(())
}

#[test]
fn literals(rt: HostRuntime) -> Result<(), Fail> {
    let table: &[(&[u8], i64)] = &[
        (b"0", 0),
        (b"00", 0),
        (b"9", 9),
        (b"1203", 1203),
        (b"017", 15),
        (b"0x1F", 31),
        (b"0Xab", 171),
        (b"1l", 1),
        (b"1L", 1),
        (b"1ll", 1),
        (b"1LL", 1),
        (b"0l", 0),
        (b"07LL", 7),
        (b"0xfll", 15),
        (b"9223372036854775807", 9223372036854775807),
        (b"0x7fffffffffffffff", 9223372036854775807),
        (b"0777777777777777777777", 9223372036854775807),
        (b"00000000000000000000000001L", 1),
    ];
    for &(text, value) in table {
        assert!(rt; text.len() <= 65536);
        assert_eq!(rt; kind_of(rt.alloc(), text), Some(TokenKind::Literal(value)));
    }
    Ok(())
}

/// The fault of a text.
fn fault_of(alloc: Global, text: &[u8]) -> Option<LexError>
    requires { length text.now ≤ 65536 }
{
    lex(alloc, text).err()
}

#[test]
fn bad_bytes(rt: HostRuntime) -> Result<(), Fail> {
    let table: &[(&[u8], u32, u32)] = &[
        (b"x=08;", 1, 4),
        (b"019", 1, 3),
        (b"0x;", 1, 2),
        (b"0xg", 1, 2),
        (b"0x1G", 1, 4),
        (b"1lL", 1, 3),
        (b"1Ll", 1, 3),
        (b"1lll", 1, 4),
        (b"1u", 1, 2),
        (b"1_", 1, 2),
        (b"9223372036854775808x", 1, 20),
        (b"a / \\ b", 1, 5),
        (b"\n a %@ b", 2, 5),
        (b"a & b", 1, 3),
        (b"a | b", 1, 3),
        (b"#includex", 1, 1),
        (b"#include_", 1, 1),
        (b"#include1", 1, 1),
        (b"#define", 1, 1),
        (b"x #include", 1, 3),
        (b"/* c */ #include", 1, 9),
        (b"/* \n */#include", 2, 4),
        (b"\r#include", 1, 2),
        (b"#\ninclude", 1, 1),
        (b"x\xc3\xa9", 1, 2),
    ];
    for &(text, line, column) in table {
        assert!(rt; text.len() <= 65536);
        let at = Pos { line, column };
        assert_eq!(rt; fault_of(rt.alloc(), text), Some(LexError::BadByte(at)));
    }
    Ok(())
}

#[test]
fn other_faults(rt: HostRuntime) -> Result<(), Fail> {
    let first = Pos { line: 1, column: 1 };
    let third = Pos { line: 1, column: 3 };
    let table: &[(&[u8], LexError)] = &[
        (b"9223372036854775808", LexError::TooWide(first)),
        (b"0x8000000000000000", LexError::TooWide(first)),
        (b"01000000000000000000000", LexError::TooWide(first)),
        (b"x=99999999999999999999999999L%", LexError::TooWide(third)),
        (b"/*/", LexError::OpenComment(first)),
        (b"/*", LexError::OpenComment(first)),
        (b"x /* \n * / //", LexError::OpenComment(third)),
        (b"+ /* %", LexError::OpenComment(third)),
        (b"a /*= 2", LexError::OpenComment(third)),
    ];
    for &(text, fault) in table {
        assert!(rt; text.len() <= 65536);
        assert_eq!(rt; fault_of(rt.alloc(), text), Some(fault));
    }
    Ok(())
}

/// Each byte alone is white space, a token, or refused.
#[test]
fn single_bytes(rt: HostRuntime) -> Result<(), Fail> {
    let taken = b" \t\n\x0b\x0c\r_(){};,=+-*/%!<>";
    let first = Pos { line: 1, column: 1 };
    for byte in 0..=255u8 {
        let wanted = if taken.contains(&byte) || byte.is_ascii_alphanumeric() {
            None
        } else {
            Some(LexError::BadByte(first))
        };
        assert_eq!(rt; fault_of(rt.alloc(), &[byte]), wanted);
    }
    Ok(())
}

#[test]
fn ends(rt: HostRuntime) -> Result<(), Fail> {
    let table: &[(&[u8], u32, u32)] = &[
        (b"", 1, 1),
        (b"ab", 1, 3),
        (b"ab\n", 2, 1),
        (b"\n\n /* %", 3, 6),
    ];
    for &(text, line, column) in table {
        assert!(rt; text.len() <= 65536);
        assert_eq!(rt; end_of(text), Pos { line, column });
    }
    Ok(())
}

/// How a fault is shown.
fn shown(alloc: Global, text: &[u8]) -> Result<String, Fail>
    requires { length text.now ≤ 65536 }
{
    let mut out = String::new(alloc);
    if let Some(fault) = fault_of(alloc, text) {
        write!(out, "{fault}")?;
    }
    Ok(out)
}

#[test]
fn texts_of_faults(rt: HostRuntime) -> Result<(), Fail> {
    let table: &[(&[u8], &str)] = &[
        (b"x\n @", "2:2: bad byte"),
        (b"x /*", "1:3: comment not closed"),
        (b"9223372036854775808", "1:1: literal too wide"),
        (b"x", ""),
    ];
    for &(text, wanted) in table {
        assert!(rt; text.len() <= 65536);
        let told = shown(rt.alloc(), text)?;
        assert_eq!(rt; told.as_str(), wanted);
    }
    Ok(())
}
