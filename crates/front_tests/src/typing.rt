//! Faults of types and limits, by their texts and places.

use crate::sources::{answer, repeated};
use std::test::Fail;

#[test]
fn faults(rt: HostRuntime) -> Result<(), Fail> {
    let rows = &[
        ("int main() { return 0; }", "accepted"),
        ("", "1:1: no main"),
        ("int g(int); int f(); int main() { }", "1:5: unknown name"),
        ("int input(); int main() { }", "accepted"),
        ("int main() { x = 1; }", "1:14: unknown name"),
        ("int main() { int x = x; }", "1:22: unknown name"),
        ("int main() { int x; int x; }", "1:25: duplicate name"),
        ("int main() { int x; { int x; } }", "accepted"),
        (
            "int f() { }\nint f() { } int main() { }",
            "2:5: duplicate name",
        ),
        (
            "int f(int a) { } int main() { f(); }",
            "1:31: wrong number of arguments",
        ),
        (
            "void f() { } int main() { return f(); }",
            "1:34: void used as value",
        ),
        (
            "int main() { int x; return x * x; }",
            "1:30: product of two non-constants",
        ),
        ("void main() { }", "1:6: main has the wrong shape"),
        (
            "int main() { continue; }",
            "1:14: break or continue outside a loop",
        ),
    ];
    for &(source, text) in rows {
        let answer = answer(rt.alloc(), source)?;
        assert_eq!(rt; answer.as_str(), text, "{source}");
    }
    Ok(())
}

/// Programs with globals, and the answers.
const GLOBALS: &[(&str, &str)] = &[
    ("int g; int main() { g = 1; return g; }", "accepted"),
    ("int main() { return g; } int g;", "1:21: unknown name"),
    ("int g; int main() { return g(); }", "1:28: unknown name"),
    ("int g; int g; int main() { }", "1:12: duplicate name"),
    ("int g, g; int main() { }", "1:8: duplicate name"),
    ("int input; int main() { }", "1:5: duplicate name"),
    ("int x, assume; int main() { }", "1:8: duplicate name"),
    ("int assert = 1; int main() { }", "1:5: duplicate name"),
    ("int main; int main() { return main; }", "accepted"),
    (
        "int f() { return 1; } int f; int main() { f = f(); return f; }",
        "accepted",
    ),
    (
        "int g; int f(int g) { return g; } int main() { return f(g); }",
        "accepted",
    ),
    ("int g; int main() { int g; g = 1; return g; }", "accepted"),
    (
        "int g; int main() { for (int g = 0; g < 2; g++) ; return g; }",
        "accepted",
    ),
    (
        "int g; int main() { g += 2; g++; --g; g *= 3; return g; }",
        "accepted",
    ),
    (
        "int g = 2; int main() { int x; return g * x; }",
        "1:41: product of two non-constants",
    ),
    (
        "int a, b, c, d, e, f, h, i, j, k, l, m, n, o, p, q; int main() { }",
        "accepted",
    ),
    (
        "int a, b, c, d, e, f, h, i, j, k, l, m, n, o, p, q, r; int main() { }",
        "1:53: too many variables",
    ),
    (
        "int a, b, c, d, e, f, h, i, j, k, l, m, n, o, p, q, a; int main() { }",
        "1:53: duplicate name",
    ),
    (
        "int a, b, c, d, e, f, h, i, j, k, l, m, n, o, p, q; int main() { } int r;",
        "1:72: too many variables",
    ),
];

#[test]
fn globals(rt: HostRuntime) -> Result<(), Fail> {
    for &(source, text) in GLOBALS {
        let answer = answer(rt.alloc(), source)?;
        assert_eq!(rt; answer.as_str(), text, "{source}");
    }
    Ok(())
}

/// Values that are given to a variable, each from column 25 of the second line on.
#[test]
fn divisors(rt: HostRuntime) -> Result<(), Fail> {
    let rows = &[
        ("x / 1099511627776", "accepted"),
        ("x / 1099511627777", "2:27: divisor not allowed"),
        ("x / -1099511627776", "accepted"),
        ("x % -1099511627777", "2:27: divisor not allowed"),
        ("x / 0", "2:27: divisor not allowed"),
        ("x % (3 - 3)", "2:27: divisor not allowed"),
        ("x / (9223372036854775807 + 1)", "2:27: divisor not allowed"),
        ("x / x", "2:27: divisor not allowed"),
        ("x / g", "2:27: divisor not allowed"),
        ("x / (4 / 2)", "2:27: divisor not allowed"),
        ("x / -(1)", "accepted"),
        ("x / +2", "accepted"),
        ("x / (2 * 3 - 1)", "accepted"),
        ("x % 3 % 2", "accepted"),
        ("7 / 2", "accepted"),
        ("2 * (6 / 3)", "accepted"),
        ("g / 2 % 5", "accepted"),
        ("(6 / 2) * x", "2:33: product of two non-constants"),
        ("y / 0", "2:25: unknown name"),
    ];
    for &(value, text) in rows {
        let source = format!(in rt.alloc();
            "int g; int main() {{ int x;\n                    x = {value}; }}"
        )?;
        let answer = answer(rt.alloc(), source.as_str())?;
        assert_eq!(rt; answer.as_str(), text, "{value}");
    }
    Ok(())
}

#[test]
fn divisors_in_place(rt: HostRuntime) -> Result<(), Fail> {
    let rows = &[
        ("int main() { int x; x /= 2; x %= 3; }", "accepted"),
        ("int main() { int x; x /= 0; }", "1:23: divisor not allowed"),
        ("int main() { int x; x %= x; }", "1:23: divisor not allowed"),
        ("int g; int main() { g /= 2; g %= 3; }", "accepted"),
    ];
    for &(source, text) in rows {
        let answer = answer(rt.alloc(), source)?;
        assert_eq!(rt; answer.as_str(), text, "{source}");
    }
    Ok(())
}

#[test]
fn limits(rt: HostRuntime) -> Result<(), Fail> {
    let rows = &[
        ("int main() { ", "{ int x; } ", 24, "}", "accepted"),
        (
            "int main() { ",
            "{ int x; } ",
            25,
            "}",
            "1:284: too many variables",
        ),
        ("int g; int main() { ", "{ int x; } ", 24, "}", "accepted"),
        ("int main() { }", "\nint f() { }", 1, "", "accepted"),
        ("int main() { ", "; ", 3994, "} int g;", "accepted"),
        ("int main() { ", "assert(1); ", 64, "}", "accepted"),
        (
            "int main() { ",
            "assert(1); ",
            65,
            "}",
            "1:718: too many assertions",
        ),
        ("int main() { ", "; ", 3994, "}", "accepted"),
        ("int main() { ", "; ", 3995, "}", "1:8004: too many tokens"),
    ];
    for &(head, part, count, tail, text) in rows {
        let source = repeated(rt.alloc(), head, part, count, tail)?;
        let answer = answer(rt.alloc(), source.as_str())?;
        assert_eq!(rt; answer.as_str(), text, "{head}{part}");
    }
    Ok(())
}
