//! Programs and expressions whose graphs are walked.

/// Programs, each with lists of inputs that it is run on besides the shared ones.
pub const PROGRAMS: &[(&str, &[&[i64]])] = &[
    // bodies, blocks, declarations, assignments
    ("int main(){}", &[]),
    ("int main(){ ; }", &[]),
    (
        "int main(){ {} {;} { ; {} } { int x = 2; { int x; x--; } return x; } }",
        &[],
    ),
    (
        "int main(){ int x = input(), y = x, z; { int x = y + 1; y = x; } return x + y + z; }",
        &[],
    ),
    (
        "int main(){ int x = input(); x = x + 1; x += x; x -= 3; x *= 2; x++; ++x; x--; --x; return x; }",
        &[],
    ),
    ("int main(){ input(); input(); return input(); }", &[]),
    // assumptions and assertions
    (
        "int main(){ int x = input(); assume(x > 0); assume(x); assume(x != 2); return x; }",
        &[&[2]],
    ),
    (
        "int main(){ int x = input(); assert(x); assert(x != 1); assert(x < 3); assert(x == -1); return x; }",
        &[],
    ),
    (
        "int main(){ int a = input(), b = input(); assume(a && b); assume(!(a < b)); assert(a || b); assert(a == b); assert(!a); }",
        &[&[1, 1], &[1, 0], &[3, 3], &[2, 3]],
    ),
    (
        "int main(){ int a = input(), b = input(); assert(a != b); assert(!(a > b) && b); assert(input() < a); }",
        &[&[1, 0], &[1, 2, 0], &[1, 2, 1], &[1, 1]],
    ),
    (
        "int main(){ assume(1); assert(2 > 1); if (input()) assume(0); if (input()) assert(0); return 1; }",
        &[],
    ),
    // choices
    ("int main(){ if (input()) return 1; return 2; }", &[]),
    (
        "int main(){ if (input() > 0) { return 1; } else if (input() < 0) return 2; else ; return 3; }",
        &[],
    ),
    (
        "int main(){ int x = input(); if (x) if (x > 0) x = 1; else x = 2; return x; }",
        &[],
    ),
    (
        "int main(){ if (input()) ; else {} if (input()) {} if (0) assert(0); if (1) return input(); assert(0); }",
        &[],
    ),
    // loops
    (
        "int main(){ int x = input(); while (x > 0) { x -= 2; if (x == 1) break; if (x == 2) continue; x--; } return x; }",
        &[&[2], &[4], &[5], &[6], &[9]],
    ),
    (
        "int main(){ int x = input(); do { x--; if (x == 3) continue; if (x == 5) break; } while (x > 0); return x; }",
        &[&[4], &[7], &[6]],
    ),
    (
        "int main(){ int n; do n++; while (input()); do { if (n) continue; n = 7; } while (input()); return n; }",
        &[],
    ),
    (
        "int main(){ int s; for (int i = 0; i < 5; i++) { if (i == 1) continue; if (i == 3) break; s += i; } return s; }",
        &[],
    ),
    (
        "int main(){ int n; for (;;) { if (!input()) break; n++; continue; assert(0); } return n; }",
        &[],
    ),
    (
        "int main(){ int n = input(); for (; n > 0; ) n -= 1; for (; n < 3; n++) ; for (n = 5; n; ) --n; for (int k = 2; ; k--) if (k < 0) return n + k; }",
        &[],
    ),
    (
        "int f(){ return input(); } int main(){ int n; for (f(); n < 2; f()) { n++; if (n == 1) continue; } return n; }",
        &[],
    ),
    (
        "int main(){ int s; for (int i = input(); i < 4; i += 1) { if (i == 2) continue; s = s * 10 + i; } return s; }",
        &[&[-3]],
    ),
    (
        "int main(){ int s; for (int i = 0; i < 4; i++) { int j; while (1) { j++; if (j > i) break; if (j == 2) continue; int t; do { s += j; t++; if (t > 2) break; } while (input()); } if (i == 2) continue; s += 100; } return s; }",
        &[&[0, 0, 0, 0], &[1, 0, 1, 1, 0, 0]],
    ),
    (
        "int main(){ int n; int s; while (n < 3) { int y; int z = input(); y++; s = s * 10 + y + z; n++; } return s; }",
        &[&[0, 0, 0]],
    ),
    (
        "int main(){ while (input()) { do { if (input()) return 1; break; } while (0); } while (1) { break; } return 3; assert(0); }",
        &[&[1, 0, 0], &[1, 0, 1, 1]],
    ),
    ("int main(){ while (1) ; }", &[]),
    ("int main(){ for (;;) {} }", &[]),
    ("int main(){ int x; do { x++; } while (1); }", &[]),
    ("int main(){ int x = 1; while (x) x *= 2; return 5; }", &[]),
    // returns
    (
        "int main(){ if (input()) return; return 5; return 6; }",
        &[],
    ),
    (
        "int main(){ { { return -9223372036854775807 - 1; } } }",
        &[],
    ),
    (
        "int f(int a){ if (a) return 5; } int main(){ return f(input()) + f(input()) * 10; }",
        &[],
    ),
    (
        "void f(int a){ if (a) return; assert(a); } int main(){ f(input()); f(input()); return 3; }",
        &[&[1, 1]],
    ),
    (
        "void f(){} int main(){ f(); { f(); } if (input()) f(); else f(); for (f(); 0; f()) f(); return 1; }",
        &[],
    ),
    // conditions
    (
        "int main(){ int a = input(); int b = input(); int r; if (a < b) r += 1; if (a <= b) r += 2; if (a > b) r += 4; if (a >= b) r += 8; if (a == b) r += 16; if (a != b) r += 32; if (!(a < b)) r += 64; if (!(a == b)) r += 128; return r; }",
        &[
            &[1, 1],
            &[i64::MIN, i64::MAX],
            &[i64::MAX, i64::MIN],
            &[i64::MAX, i64::MAX],
        ],
    ),
    (
        "int main(){ int a = input(); int b = input(); return (a < b) + (a <= b) * 2 + (a > b) * 4 + (a >= b) * 8 + (a == b) * 16 + 32 * (a != b) + !(a > b) * 64; }",
        &[
            &[1, 1],
            &[i64::MIN, i64::MAX],
            &[i64::MAX, i64::MIN],
            &[i64::MIN, i64::MIN],
        ],
    ),
    (
        "int main(){ int a = input(); int b = input(); return !a + !b * 2 + (a && b) * 4 + (a || b) * 8 + !!a * 16 + !(a || !b) * 32; }",
        &[&[0, 0], &[1, 1], &[1, 0], &[0, 1]],
    ),
    (
        "int main(){ int a = input(), b = input(), c = input(); int r = a && b || c; r += (a || b && c) * 2 + (!(a && b) || !c) * 4 + (a && (b || c) && !(a == b)) * 8; if (a && b || c) r += 16; if (!(a || b) && !c) r += 32; if ((a && b) == (b || c)) r += 64; while (a && !(b || c)) { a = 0; r += 128; } return r; }",
        &[
            &[0, 0, 0],
            &[0, 0, 1],
            &[0, 1, 0],
            &[0, 1, 1],
            &[1, 0, 0],
            &[1, 0, 1],
            &[1, 1, 0],
            &[1, 1, 1],
        ],
    ),
    (
        "int main(){ int r; if (input() && input()) r = 1; if (input() || input()) r += 2; r += (input() && input() || input()) * 4; return r * 10 + input(); }",
        &[
            &[1, 1, 0, 1, 1, 1, 7],
            &[1, 0, 1, 0, 1, 7],
            &[0, 0, 0, 1, 0, 0, 7],
            &[0, 2, 0, 0, 7],
        ],
    ),
    (
        "int f(int a){ return input() + a; } int main(){ int r = f(0) && f(1); r = r * 2 + (f(-1) || f(0) && f(2)); if (f(0) || !f(0)) r += 8; return r * 100 + input(); }",
        &[
            &[1, -1, 1, 1, 1, 0, 5, 6],
            &[0, 1, 1, 1, 0, 5, 6],
            &[1, 0, 2, 1, 6],
            &[0, 1, 0, 0, 0, 5],
        ],
    ),
    // calls
    (
        "int f(int a){ return input() - a; } int main(){ f(input()); f(1); return f(f(2)); }",
        &[],
    ),
    (
        "int g(int a, int b, int c){ return a * 100 + b * 10 + c; } int f(int a){ return input() + a; } int main(){ int x = input(); return g(x, f(x), 3) + g(f(1), x, f(2)) * 3 - g(g(x, x, x), f(x), g(1, x, 3)); }",
        &[&[1, 2, 3, 4, 5]],
    ),
    (
        "int f(){ return input(); } int main(){ int x = input(); return x + f() - (f() - x); }",
        &[],
    ),
    (
        "int h(int a, int b, int c, int d, int e, int f, int g, int h){ b += a; return a - b + c * 2 - d + e - f + g * 3 - h; } int main(){ int x = input(); return h(1, x, x + 1, input(), -x, x, !x, 8) + x; }",
        &[],
    ),
    // recursion
    (
        "int s(int n){ if (n <= 0) return 0; return n + s(n - 1); } int main(){ return s(input()); }",
        &[&[40]],
    ),
    (
        "int fib(int n){ if (n < 2) return n; return fib(n - 1) + fib(n - 2); } int main(){ return fib(input()); }",
        &[&[9]],
    ),
    (
        "int even(int n){ return n == 0 || odd(n - 1); } int odd(int n){ return n && even(n - 1); } int main(){ return even(input()) + 2 * odd(input()); }",
        &[&[7, 4], &[8, 5]],
    ),
    (
        "int f(int n){ int x; x += n; if (n > 0) { int y = f(n - 1); x += y * 10; } int z; z++; return x + z; } int main(){ int n = input(); assume(n < 30); return f(n); }",
        &[&[4], &[25]],
    ),
    ("int f(){ return f(); } int main(){ return f(); }", &[]),
    (
        "void f(int a){ f(a + 1); } int main(){ f(9223372036854775800); }",
        &[],
    ),
    // calls that fail and that stop
    (
        "int f(int a){ assert(a != 1); return a; } int main(){ int x = f(input()); assert(x); return f(x) + f(x - 1); }",
        &[&[2], &[3]],
    ),
    (
        "int f(int a){ assume(a != 1); return a + 9223372036854775806; } int main(){ int x = f(input()); return f(input()) + x; }",
        &[&[-1, -9], &[-9, -9]],
    ),
    (
        "void c(int a){ assert(a < 2); } int f(int a){ c(a); assert(a); return a; } int main(){ while (1) { f(input()); } }",
        &[&[1, -1, 1, 2], &[1, 1, 0]],
    ),
    (
        "int d(int n){ assert(n != 3); if (n > 5) return 0; return d(n + 1); } int main(){ return d(input()); }",
        &[&[4]],
    ),
    (
        "int f(int a){ return a - 1; } int main(){ int x = input(); assert(f(x)); assert(f(x) < 5); assert(x == f(x) + 1); assume(f(x)); return 9; }",
        &[&[3], &[6]],
    ),
];

/// The inputs of every program.
pub const SHARED: &[&[i64]] = &[
    &[],
    &[0],
    &[1],
    &[-1],
    &[2, 0],
    &[0, 3],
    &[3, 1, 2],
    &[-5, 0, 0, 1],
    &[1, 1, 1, 1, 1, 1, 1, 1],
    &[i64::MAX, 1],
    &[i64::MIN, -1],
    &[4611686018427387904, 2],
];

/// What each context is tried with.
pub const EXPRESSIONS: &[&str] = &[
    "5",
    "0",
    "9223372036854775807",
    "x",
    "+x",
    "-x",
    "- -x",
    "!x",
    "!!x",
    "-5",
    "- -5",
    "-(-9223372036854775807 - 1)",
    "input()",
    "f(x)",
    "f(input())",
    "x + 1",
    "1 + x",
    "x + x",
    "x + 9223372036854775807",
    "9223372036854775807 + 1",
    "x + (9223372036854775807 + 1)",
    "2 + 3 * 4 - -5",
    "input() + input()",
    "input() + f(input())",
    "x + f(x)",
    "f(x) + x",
    "x + input()",
    "x - 1",
    "1 - x",
    "x - x",
    "0 - x",
    "x - 9223372036854775807",
    "-9223372036854775807 - 2",
    "-9223372036854775807 - 1",
    "x - (-9223372036854775807 - 1)",
    "0 - (-9223372036854775807 - 1)",
    "-1 - (-9223372036854775807 - 1)",
    "input() - input()",
    "2 - f(x)",
    "x - f(x)",
    "f(x) - f(1)",
    "f(x) - (-9223372036854775807 - 1)",
    "x * 2",
    "2 * x",
    "x * -1",
    "0 * x",
    "x * 0",
    "x * (2 - 2)",
    "3 * 4",
    "4611686018427387904 * 2",
    "4611686018427387904 * -2",
    "x * (-9223372036854775807 - 1)",
    "9223372036854775807 * x",
    "-3 * f(x)",
    "f(x) * 3",
    "input() * 0 + input()",
    "(x * 3) * 5",
    "(2 * 3) * x * (4 - 1)",
    "2 * (x + f(x)) - 1",
    "(9223372036854775807 + 1) * x",
    "x * (9223372036854775807 + 1)",
    "(9223372036854775807 + 1) * input()",
    "input() * (9223372036854775807 + 1)",
    "f(x) * (9223372036854775807 + 1)",
    "(9223372036854775807 + 1) * f(x)",
    "(9223372036854775807 + 1) * 0",
    "0 * (9223372036854775807 + 1)",
    "(9223372036854775807 + 1) * (9223372036854775807 + 1)",
    "-(-9223372036854775807 - 1) * x",
    "(9223372036854775807 + 1) * x + input()",
    "x < 2",
    "2 < x",
    "x <= f(x)",
    "x > -9223372036854775807 - 1",
    "x >= 9223372036854775807",
    "3 == x",
    "x != x",
    "x == x",
    "1 < 2",
    "1 == 2",
    "x < 9223372036854775807 + 1",
    "f(x) != f(x)",
    "x - 1 > input()",
    "(x < 1) == (x <= 0)",
    "input() != 0",
    "x && f(x)",
    "f(x) && x",
    "x || f(x)",
    "x && (9223372036854775807 + 1)",
    "x || 9223372036854775807 + 1",
    "x == 1 || x == 3 && f(1) < 2",
    "!(x < 1 && f(x))",
    "!(x && !f(x)) && input()",
    "1 && x",
    "x || 0",
    "(x && 1) + (x || 0)",
    "g(x, x)",
    "g(x, f(x))",
    "g(f(x), x)",
    "g(input(), input())",
    "g(1, f(2))",
    "g(-x, !x)",
    "g(x && f(x), x || f(x))",
    "g(f(1), f(2)) - g(2, x)",
];

/// What stands before an expression and after it.
pub const CONTEXTS: &[(&str, &str)] = &[
    ("return ", ";"),
    ("int y = ", "; return y - x;"),
    ("if (", ") return 1; return 2;"),
    ("assert(", "); return 3;"),
    ("assume(", "); return 4;"),
    ("for (int n; n < 3 && (", "); n++) x--; return x;"),
    (
        "int n; do { n++; if (n > 3) break; if (n == 2) continue; } while (",
        "); return n;",
    ),
    ("return !(", ") + 2 * x;"),
    ("return x - (", ");"),
    ("return g(x, ", ");"),
    ("return g(", ", f(2));"),
    ("f(", "); return input();"),
    ("if (x < (", ") || x == 3) return 6;"),
    ("return -(", ") * 3;"),
    ("return (", ") - f(1) * 2;"),
    ("if (input() && (", ") || !input()) return 7; return 8;"),
];

/// Procedures for the expressions, and the head of `main`.
pub const HEAD: &str =
    "int f(int a){ return input() - a; } int g(int a, int b){ return a * 10 + b; } int main(){ int x = input(); ";
