//! Checks and replays of many small programs with two inputs agree, with calls, globals and
//! quotients, and without.

use super::told_of;
use std::alloc::Global;
use std::sync::Wait;
use std::test::Fail;
use std::thread::Threads;

/// What becomes of the inputs x and y first.
const HEADS: &[&str] = &[
    "",
    "assume(x >= 0 && x <= 3);",
    "assume(x + y == 2);",
    "if (x < y) x = y; else x = x - 1;",
    "y = 2 * x + y;",
    "if (x != y && y > 0) y = 0;",
];

/// What stands before the head, between it and the assertion, and after the assertion.
type Shape = (&'static str, &'static str, &'static str);

const BODIES: &[Shape] = &[
    ("int main() { int x = input(); int y = input();", "", "}"),
    (
        "int main() { int x = input(); int y = input();",
        "x = x - 1; y = x - y;",
        "}",
    ),
    (
        "int main() { int x = input(); int y = input();",
        "while (x > 0) x = x - 1;",
        "}",
    ),
    (
        "int main() { int x = input(); int y = input();",
        "int i = 0; while (i < 2) { i++; y = y + x; }",
        "}",
    ),
    (
        "int main() { int x = input(); int y = input();",
        "if (x == 1 || y == 1) { x = 1; y = 1; }",
        "}",
    ),
    (
        "int main() { int x = input(); int y = input();",
        "do { y = y - 1; if (y < -2) break; } while (y > x); if (y < x) y = x;",
        "}",
    ),
];

const CALLING: &[Shape] = &[
    // one parameter
    (
        "int f(int a) { if (a > 0) return a - 1; return a; } int main() { int x = input(); int y = input();",
        "x = f(f(x));",
        "}",
    ),
    // two parameters, and an input of the called procedure
    (
        "int f(int a, int b) { if (a < b) return b; return a + input(); } int main() { int x = input(); int y = 1;",
        "y = f(x, y);",
        "}",
    ),
    // recursion
    (
        "int f(int n) { if (n <= 0) return n; return f(n - 1); } int main() { int x = input(); int y = input();",
        "x = f(x);",
        "}",
    ),
    // recursion with work after the call
    (
        "int f(int a, int b) { if (a <= 0) return b; return f(a - 1, b) + 1; } int main() { int x = input(); int y = input();",
        "y = f(x, y);",
        "}",
    ),
    // two that call each other
    (
        "int g(int n); int f(int n) { if (n <= 0) return 1; return g(n - 1); } int g(int n) { if (n <= 0) return 0; return f(n - 1); } int main() { int x = input(); int y = input();",
        "y = f(x) + y;",
        "}",
    ),
    // an assertion of a procedure that calls itself
    (
        "int f(int x, int y) {",
        "if (x > 1) return f(x - 1, y);",
        "return y; } int main() { int x = input(); return f(x, input()); }",
    ),
];

/// What stands before `main` shares globals with it.
const SHARING: &[Shape] = &[
    // a call changes what stands on both of its sides
    (
        "int g = 2; int f(int a) { g = a; return g + 1; } int main() { int x = input(); int y = input();",
        "y = g + f(x) + g;",
        "}",
    ),
    // a loop in which a called procedure counts
    (
        "int n; void f() { n = n + 1; } int main() { int x = input(); int y = input();",
        "while (n < 2) f(); y = y - n;",
        "}",
    ),
    // an assertion of a procedure on globals that `main` sets
    (
        "int x, y; void f() {",
        "y = y + x;",
        "} int main() { x = input(); y = input(); f(); return 0; }",
    ),
];

const DIVIDING: &[Shape] = &[
    (
        "int main() { int x = input(); int y = input();",
        "y = x / 2;",
        "}",
    ),
    (
        "int main() { int x = input(); int y = input();",
        "x %= 3; y = y % -2;",
        "}",
    ),
    // a quotient of a called procedure
    (
        "int f(int a) { return a / -2; } int main() { int x = input(); int y = input();",
        "y = f(x - y) % 2;",
        "}",
    ),
];

const TESTS: &[&str] = &[
    "x == y",
    "x <= 0",
    "x + y != 3",
    "y >= x",
    "x * 2 != 5",
    "y - x < 7",
];

/// Lists on which a proved assertion mustn't fail.
const LISTS: &[&str] = &[
    "[-1, -1]", "[-1, 0]", "[-1, 1]", "[-1, 3]", "[0, -1]", "[0, 0]", "[0, 1]", "[0, 3]",
    "[1, -1]", "[1, 0]", "[1, 1]", "[1, 3]", "[3, -1]", "[3, 0]", "[3, 1]", "[3, 3]",
];

/// How many programs got each verdict, and how many a wrong one.
#[derive(Clone, Copy, Debug)]
pub struct Tally {
    pub found: u32,
    pub proved: u32,
    pub unknown: u32,
    pub wrong: u32,
}

/// The assertion stands at 2:1.
fn program(alloc: Global, shape: Shape, head: &str, test: &str) -> Result<String, Fail> {
    let (before, body, behind) = shape;
    Ok(format!(in alloc; "{before} {head} {body}\nassert({test}); {behind}")?)
}

/// Whether the program fails at its assertion on a list.
fn fails_on<R: Threads + Wait + Sync>(
    rt: &R,
    alloc: Global,
    text: &str,
    list: &str,
) -> Result<bool, Fail> {
    let words = format!(in alloc; "replay|{list}")?;
    let told = told_of(rt, alloc, words.as_str(), text)?;
    Ok(told.as_str().starts_with("1 failed 2:1, "))
}

/// Whether it fails there on one of the lists.
fn fails_on_any<R: Threads + Wait + Sync>(rt: &R, alloc: Global, text: &str) -> Result<bool, Fail> {
    for &list in LISTS {
        if fails_on(rt, alloc, text, list)? {
            return Ok(true);
        }
    }
    Ok(false)
}

/// The list that a check has found.
fn found_list(told: &str) -> Option<&str> {
    let rest = told.strip_prefix("1 2:1: found ")?;
    let (list, _) = rest.split_once("\n")?;
    Some(list)
}

/// Adds what a check says of a program, and whether its replays agree.
fn count<R: Threads + Wait + Sync>(
    rt: &R,
    alloc: Global,
    tally: &mut Tally,
    text: &str,
) -> Result<(), Fail> {
    let told = told_of(rt, alloc, "check|--budget|300", text)?;
    let told = told.as_str();
    if let Some(list) = found_list(told) {
        tally.found = tally.found.saturating_add(1);
        if !fails_on(rt, alloc, text, list)? {
            tally.wrong = tally.wrong.saturating_add(1);
        }
    } else if told.starts_with("0 2:1: proved\n") {
        tally.proved = tally.proved.saturating_add(1);
        if fails_on_any(rt, alloc, text)? {
            tally.wrong = tally.wrong.saturating_add(1);
        }
    } else if told.starts_with("2 2:1: unknown (") {
        tally.unknown = tally.unknown.saturating_add(1);
    } else {
        tally.wrong = tally.wrong.saturating_add(1);
    }
    Ok(())
}

/// The programs of a head and a shape.
fn count_tests<R: Threads + Wait + Sync>(
    rt: &R,
    alloc: Global,
    tally: &mut Tally,
    head: &str,
    shape: Shape,
) -> Result<(), Fail> {
    for &test in TESTS {
        let text = program(alloc, shape, head, test)?;
        count(rt, alloc, tally, text.as_str())?;
    }
    Ok(())
}

/// The programs of the first `heads` heads and all shapes.
fn tally_of<R: Threads + Wait + Sync>(
    rt: &R,
    alloc: Global,
    heads: usize,
    shapes: &[Shape],
) -> Result<Tally, Fail> {
    let mut tally = Tally {
        found: 0,
        proved: 0,
        unknown: 0,
        wrong: 0,
    };
    for head in HEADS.iter().take(heads) {
        count_shapes(rt, alloc, &mut tally, head, shapes)?;
    }
    Ok(tally)
}

fn count_shapes<R: Threads + Wait + Sync>(
    rt: &R,
    alloc: Global,
    tally: &mut Tally,
    head: &str,
    shapes: &[Shape],
) -> Result<(), Fail> {
    for shape in shapes {
        count_tests(rt, alloc, tally, head, *shape)?;
    }
    Ok(())
}

/// 216 programs without calls.
pub fn tally_alone<R: Threads + Wait + Sync>(rt: &R, alloc: Global) -> Result<Tally, Fail> {
    tally_of(rt, alloc, 6, BODIES)
}

/// 108 programs with calls.
pub fn tally_calling<R: Threads + Wait + Sync>(rt: &R, alloc: Global) -> Result<Tally, Fail> {
    tally_of(rt, alloc, 3, CALLING)
}

/// 54 programs with globals.
pub fn tally_sharing<R: Threads + Wait + Sync>(rt: &R, alloc: Global) -> Result<Tally, Fail> {
    tally_of(rt, alloc, 3, SHARING)
}

/// 54 programs with quotients and remainders.
pub fn tally_dividing<R: Threads + Wait + Sync>(rt: &R, alloc: Global) -> Result<Tally, Fail> {
    tally_of(rt, alloc, 3, DIVIDING)
}
