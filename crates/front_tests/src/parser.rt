//! Texts and what the parser answers.

use c_lexer::scan::lex;
use c_parser::fault::ParseError;
use c_parser::parse::{one_tree, parse};
use c_tree::syntax_tree::{GlobalTree, Item};
use c_tree::tree::Pos;
use std::alloc::Global;
use std::fmt::Write;
use std::test::Fail;

/// How a text is answered: the number of its items, or its fault with the column.
fn told(alloc: Global, text: &str) -> Result<(&'static str, usize), Fail> {
    let bytes = text.as_bytes();
    if bytes.len() > 65_536 {
        return Ok(("too long", 0));
    }
    let tokens = match lex(alloc, bytes) {
        Ok(tokens) => tokens,
        Err(_) => return Ok(("no tokens", 0)),
    };
    Ok(match parse(alloc, bytes, &tokens) {
        Ok(tree) => ("items", tree.items.len()),
        Err(ParseError::Unexpected(at)) => ("unexpected", at.column as usize),
        Err(ParseError::End(at)) => ("end", at.column as usize),
        Err(ParseError::TooDeep(at)) => ("deep", at.column as usize),
        Err(ParseError::Memory) => ("memory", 0),
    })
}

/// A text, a middle part `count` times, and a text.
fn repeated(alloc: Global, head: &str, part: &str, count: u32, tail: &str) -> Result<String, Fail> {
    let mut text = String::from_str(alloc, head)?;
    for _ in 0..count {
        text.push_str(part)?;
    }
    text.push_str(tail)?;
    Ok(text)
}

/// How a text of a repeated part is answered.
fn told_of(
    alloc: Global,
    head: &str,
    part: &str,
    count: u32,
    tail: &str,
) -> Result<(&'static str, usize), Fail> {
    let text = repeated(alloc, head, part, count, tail)?;
    told(alloc, text.as_str())
}

#[test]
fn texts(rt: HostRuntime) -> Result<(), Fail> {
    one_tree();
    let cases = &[
        ("", "items", 0usize),
        ("int main() { }", "items", 1),
        (
            "void f(int a, long long b); long int f(int a) { ; }",
            "items",
            2,
        ),
        (
            "extern int input(void); int main(void) { return input(); }",
            "items",
            2,
        ),
        ("int f() { if (1) if (0) ; else ; else f(); }", "items", 1),
        (
            "int f() { for (int i = 0; i < 3; i++) x += -i * 2; }",
            "items",
            1,
        ),
        ("int f() { do ++x; while (x <= 3 || !x); }", "items", 1),
        ("int f() { int a, b = 1 - 2 - 3; { a = (b); } }", "items", 1),
        ("int f", "end", 6),
        ("int f() { x + 1; }", "unexpected", 13),
        ("int f() { 1; }", "unexpected", 11),
        ("int f() { if (1) int a; }", "unexpected", 18),
        ("int f(int) { }", "unexpected", 12),
        ("extern int f() { }", "unexpected", 16),
        ("int f(void, int a);", "unexpected", 11),
        ("int f() { else ; }", "unexpected", 11),
        ("int f() { static }", "unexpected", 11),
    ];
    for &(text, answer, number) in cases {
        let got = told(rt.alloc(), text)?;
        assert_eq!(rt; got, (answer, number), "{text}");
    }
    Ok(())
}

#[test]
fn divisions(rt: HostRuntime) -> Result<(), Fail> {
    let cases = &[
        ("int f() { x = a / b % 2 * c; }", "items", 1usize),
        ("int f() { x /= 2; x %= -y; }", "items", 1),
        ("int f() { x / 2; }", "unexpected", 13),
        ("int f() { x = / 2; }", "unexpected", 15),
        ("int f() { x = 1 / / 2; }", "unexpected", 19),
        ("int f() { x = 1 /", "end", 18),
        ("int f() { x %=", "end", 15),
    ];
    for &(text, answer, number) in cases {
        let got = told(rt.alloc(), text)?;
        assert_eq!(rt; got, (answer, number), "{text}");
    }
    Ok(())
}

#[test]
fn declarations_of_globals(rt: HostRuntime) -> Result<(), Fail> {
    let cases = &[
        ("int g = -5, h, k = +0x10; long long m;", "items", 2usize),
        ("int g; int main() { g = 1; } long h = 3;", "items", 3),
        ("int g,", "end", 7),
        ("int g =", "end", 8),
        ("int g = -", "end", 10),
        ("int g = 1", "end", 10),
        ("void g;", "unexpected", 7),
        ("void g, h;", "unexpected", 7),
        ("extern int g;", "unexpected", 13),
        ("extern int g = 1;", "unexpected", 14),
        ("int g = x;", "unexpected", 9),
        ("int g = 1 + 1;", "unexpected", 11),
        ("int g = - - 1;", "unexpected", 11),
        ("int g = (1);", "unexpected", 9),
        ("int g = !1;", "unexpected", 9),
        ("int g = ;", "unexpected", 9),
        ("int g = 1 h;", "unexpected", 11),
        ("int g h;", "unexpected", 7),
        ("int g, int h;", "unexpected", 8),
        ("int g,;", "unexpected", 7),
        ("int;", "unexpected", 4),
        ("int g() = 1;", "unexpected", 9),
        ("int f(), g;", "unexpected", 8),
        ("int g; { }", "unexpected", 8),
    ];
    for &(text, answer, number) in cases {
        let got = told(rt.alloc(), text)?;
        assert_eq!(rt; got, (answer, number), "{text}");
    }
    Ok(())
}

/// Globals with their opening values.
fn push_globals(out: &mut String, globals: &[GlobalTree]) -> Result<(), Fail> {
    for global in globals {
        out.push_str(global.named.name.as_str())?;
        if let Some(value) = global.value {
            write!(out, "={value}")?;
        }
        out.push_str(" ")?;
    }
    Ok(())
}

/// Globals with their values, or the name of another item.
fn push_item(out: &mut String, item: &Item) -> Result<(), Fail> {
    match item {
        Item::Globals(globals) => push_globals(out, globals)?,
        Item::Proto(named) => write!(out, "{}() ", named.name)?,
        Item::Proc(procedure) => write!(out, "{}{{}} ", procedure.named.name)?,
    }
    out.push_str("; ")?;
    Ok(())
}

/// All items of a tree.
fn push_items(out: &mut String, items: &[Item]) -> Result<(), Fail> {
    for item in items {
        push_item(out, item)?;
    }
    Ok(())
}

/// The items of a text.
fn items_of(alloc: Global, text: &str) -> Result<String, Fail> {
    let mut out = String::new(alloc);
    let bytes = text.as_bytes();
    if bytes.len() > 65_536 {
        return Ok(out);
    }
    let tokens = lex(alloc, bytes)?;
    let tree = parse(alloc, bytes, &tokens)?;
    push_items(&mut out, &tree.items)?;
    Ok(out)
}

#[test]
fn values_of_globals(rt: HostRuntime) -> Result<(), Fail> {
    let cases = &[
        ("int g = -5, h, k = +0x10;", "g=-5 h k=16 ; "),
        ("int a = - 0, b = 017, c = 5LL;", "a=0 b=15 c=5 ; "),
        (
            "long j = - 0x7fffffffffffffff; int i;",
            "j=-9223372036854775807 ; i ; ",
        ),
        (
            "int g; int f(); long h = 7, i; int main() { } int k;",
            "g ; f() ; h=7 i ; main{} ; k ; ",
        ),
    ];
    for &(text, wanted) in cases {
        let items = items_of(rt.alloc(), text)?;
        assert_eq!(rt; items.as_str(), wanted, "{text}");
    }
    Ok(())
}

#[test]
fn limits(rt: HostRuntime) -> Result<(), Fail> {
    let cases = &[
        ("int f() { return ", "!", 256u32, "0; }", "items", 1usize),
        ("int f() { return ", "!", 257, "0; }", "deep", 274),
        ("int f() { x = ", "(", 256, "", "end", 271),
        ("int f() ", "{", 64, "", "end", 73),
        ("int f() ", "{", 65, "", "deep", 73),
        ("int f() { ", "if (1) ", 63, "; }", "items", 1),
        ("int f() { ", "if (1) ; else ", 63, "; }", "items", 1),
        ("int f() { ", "if (1) ; else ", 64, "; }", "deep", 900),
        ("int f() { x = a", " / b", 256, "; }", "items", 1),
        ("int f() { x = a", " % b", 257, "; }", "deep", 1041),
        ("int g = -1", ", h = -1", 300, ";", "items", 1),
    ];
    for &(head, part, count, tail, answer, number) in cases {
        let got = told_of(rt.alloc(), head, part, count, tail)?;
        assert_eq!(rt; got, (answer, number), "{head}{part}");
    }
    Ok(())
}

/// How a fault is shown.
fn shown(alloc: Global, fault: ParseError) -> Result<String, Fail> {
    let mut out = String::new(alloc);
    write!(out, "{fault}")?;
    Ok(out)
}

#[test]
fn texts_of_faults(rt: HostRuntime) -> Result<(), Fail> {
    let at = Pos { line: 3, column: 7 };
    let table = &[
        (ParseError::Unexpected(at), "3:7: unexpected token"),
        (ParseError::End(at), "3:7: unexpected end of file"),
        (ParseError::TooDeep(at), "3:7: nested too deep"),
        (ParseError::Memory, "out of memory"),
    ];
    for &(fault, wanted) in table {
        let told = shown(rt.alloc(), fault)?;
        assert_eq!(rt; told.as_str(), wanted);
    }
    Ok(())
}
