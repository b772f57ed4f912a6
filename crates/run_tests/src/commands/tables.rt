//! The tables of the tests.

/// A command, whose words are parted by `|`, a source, and the status and the output.
pub type Row = (&'static str, &'static str, &'static str);

pub const SUM: &str = "int main(){ int x = 3; x = x + 4; assert(x == 7); return 0; }";

/// An assertion three calls deep.
pub const DEEP: &str = "\
int h(int a, int b) { assert(a != 2 || b != 40); return 0; }
int g(int a, int b) { return h(a, b); }
int f(int a, int b) { return g(a, b); }
int main() { int a = input(); int b = input(); return f(a, b); }
";

pub const USAGE: &str = "\
4 usage: smash check [--budget n] [--workers n]
       smash replay [--fuel n] list
       smash workload n [--budget n] [--workers n]
       smash bundle k [--budget n]
       smash recheck
       smash sweep [--edges n]
       smash edit n [--budget n] [--workers n]
";

pub const CHECKS: &[Row] = &[
    (
        "check",
        SUM,
        "0 1:35: proved\nsummary: 1 proved, 0 found, 0 unknown\n",
    ),
    (
        "check",
        "int main(){return 0;}",
        "0 summary: 0 proved, 0 found, 0 unknown\n",
    ),
    (
        "check",
        "int main(){ assert(1 == 2); assert(1 == 2); return 0; }",
        "1 1:13: found []\n1:29: proved\nsummary: 1 proved, 1 found, 0 unknown\n",
    ),
    (
        "check",
        "long main(void) {\n  int x = 9223372036854775807;\n  if (x > 0 && !(x + 1)) assert(0);\n  assert(0);\n}",
        "0 3:26: proved\n4:3: proved\nsummary: 2 proved, 0 found, 0 unknown\n",
    ),
    (
        "check",
        "int main(){ assert(input()); }",
        "1 1:13: found [0]\nsummary: 0 proved, 1 found, 0 unknown\n",
    ),
    (
        "check",
        "int main(){ while (0) ; }",
        "0 summary: 0 proved, 0 found, 0 unknown\n",
    ),
    (
        "check",
        "void f(){} int main(){}",
        "0 summary: 0 proved, 0 found, 0 unknown\n",
    ),
    (
        "check",
        "int main(){ return 9223372036854775808; }",
        "3 refused 1:20: literal too wide\n",
    ),
    ("check", "int main(){ #", "3 refused 1:13: bad byte\n"),
    (
        "check",
        "int main(){ /* }",
        "3 refused 1:13: comment not closed\n",
    ),
    (
        "check",
        "int main(){ return 08; }",
        "3 refused 1:21: bad byte\n",
    ),
    (
        "check",
        "int main(){ x+; }",
        "3 refused 1:14: unexpected token\n",
    ),
    (
        "check",
        "int main(){\n",
        "3 refused 2:1: unexpected end of file\n",
    ),
    (
        "check",
        "int main(){ return x; }",
        "3 refused 1:20: unknown name\n",
    ),
    (
        "check",
        "int main(){ int a; int a; }",
        "3 refused 1:24: duplicate name\n",
    ),
    (
        "check",
        "int f(){} int main(){ f(1); }",
        "3 refused 1:23: wrong number of arguments\n",
    ),
    (
        "check",
        "int main(){ break; }",
        "3 refused 1:13: break or continue outside a loop\n",
    ),
    ("check", "int f(){}", "3 refused 1:1: no main\n"),
];

pub const REPLAYS: &[Row] = &[
    (
        "replay|[]",
        "int main(){ return 5; }",
        "0 returned 5, inputs used 0\n",
    ),
    (
        "replay|[-3, 2]",
        "int main(){ return input(); }",
        "0 returned -3, inputs used 1\n",
    ),
    (
        "replay|[1]",
        "int main(){ int x = input();\n assert(x == 2); }",
        "1 failed 2:2, inputs used 1\n",
    ),
    (
        "replay|[1]",
        "int main(){ assume(input() == 2); }",
        "0 stopped, inputs used 1\n",
    ),
    (
        "replay|[1]",
        "int main(){ input(); input(); }",
        "2 starved, inputs used 1\n",
    ),
    (
        "replay|[]",
        "int f(){return f();} int main(){return f();}",
        "2 fuel 1000000 spent\n",
    ),
    (
        "replay|--fuel|3|[]",
        "int main(){ for (;;) {} }",
        "2 fuel 3 spent\n",
    ),
    (
        "replay|--fuel=2|[]",
        "int main(){ return 5; }",
        "0 returned 5, inputs used 0\n",
    ),
    (
        "replay|[]|--fuel=1",
        "int main(){ return 5; }",
        "2 fuel 1 spent\n",
    ),
    (
        "replay|[]",
        "int main(){ return }",
        "3 refused 1:20: unexpected token\n",
    ),
];

/// Workloads, whatever the source is.
pub const WORKLOADS: &[Row] = &[
    (
        "workload|1",
        SUM,
        "0 1:42: proved\nsummary: 1 proved, 0 found, 0 unknown\n",
    ),
    (
        "workload|--budget=2000|--|1",
        "no source",
        "0 1:42: proved\nsummary: 1 proved, 0 found, 0 unknown\n",
    ),
    (
        "workload|3",
        "",
        "1 1:42: proved\n2:42: proved\n3:42: found [3, -3]\nsummary: 2 proved, 1 found, 0 unknown\n",
    ),
    (
        "workload|--workers|1|3",
        "",
        "1 1:42: proved\n2:42: proved\n3:42: found [3, -3]\nsummary: 2 proved, 1 found, 0 unknown\n",
    ),
    (
        "workload|2|--budget|1",
        "",
        "2 1:42: unknown (budget 1 spent)\n2:42: unknown (budget 1 spent)\nsummary: 0 proved, 0 found, 2 unknown\n",
    ),
];

pub const REFUSALS: &[Row] = &[
    (
        "check",
        "int main(){ return 10u; }",
        "3 refused 1:22: bad byte\n",
    ),
    (
        "check",
        "int main(){ return 0x; }",
        "3 refused 1:21: bad byte\n",
    ),
    (
        "check",
        "int main(){ return 0x8000000000000000; }",
        "3 refused 1:20: literal too wide\n",
    ),
    (
        "check",
        "int main(){ return 01000000000000000000000; }",
        "3 refused 1:20: literal too wide\n",
    ),
    (
        "check",
        "int main(){ return 9223372036854775808LL; }",
        "3 refused 1:20: literal too wide\n",
    ),
    (
        "check",
        "int main(){} /* end",
        "3 refused 1:14: comment not closed\n",
    ),
    (
        "check",
        "int main(){}\n/*/",
        "3 refused 2:1: comment not closed\n",
    ),
    ("check", "int main(){} ?", "3 refused 1:14: bad byte\n"),
    (
        "check",
        "/* */ #include <a>\nint main(){}",
        "3 refused 1:7: bad byte\n",
    ),
    (
        "check",
        "int main(){ return } #",
        "3 refused 1:22: bad byte\n",
    ),
    (
        "check",
        "int main(){ if (1) int a; }",
        "3 refused 1:20: unexpected token\n",
    ),
    (
        "check",
        "int main(){ auto x; }",
        "3 refused 1:13: unexpected token\n",
    ),
    (
        "check",
        "int main(){ 1; }",
        "3 refused 1:13: unexpected token\n",
    ),
    ("check", "int x{", "3 refused 1:6: unexpected token\n"),
    (
        "check",
        "extern int f(){}",
        "3 refused 1:15: unexpected token\n",
    ),
    (
        "check",
        "int f(int){}",
        "3 refused 1:11: unexpected token\n",
    ),
    (
        "check",
        "int main(){ x = 1; } int",
        "3 refused 1:25: unexpected end of file\n",
    ),
    (
        "check",
        "int main(){ f(); }",
        "3 refused 1:13: unknown name\n",
    ),
    (
        "check",
        "int f(); int main(){}",
        "3 refused 1:5: unknown name\n",
    ),
    (
        "check",
        "int main(){ int a = a; }",
        "3 refused 1:21: unknown name\n",
    ),
    (
        "check",
        "int main(){ { int a; } a = b; }",
        "3 refused 1:24: unknown name\n",
    ),
    (
        "check",
        "int main(){ for (int i; 0; ) ; i = 1; }",
        "3 refused 1:32: unknown name\n",
    ),
    (
        "check",
        "int f(int a, int a){} int main(){}",
        "3 refused 1:18: duplicate name\n",
    ),
    (
        "check",
        "int f(int a){ int a; } int main(){}",
        "3 refused 1:19: duplicate name\n",
    ),
    (
        "check",
        "int f(){} int f(){} int main(){}",
        "3 refused 1:15: duplicate name\n",
    ),
    (
        "check",
        "int input(){} int main(){}",
        "3 refused 1:5: duplicate name\n",
    ),
    (
        "check",
        "int f(int assume){} int main(){}",
        "3 refused 1:11: duplicate name\n",
    ),
    (
        "check",
        "int main(){ int assert; }",
        "3 refused 1:17: duplicate name\n",
    ),
    (
        "check",
        "int main(){ input(1); }",
        "3 refused 1:13: wrong number of arguments\n",
    ),
    (
        "check",
        "int main(){ assert(); }",
        "3 refused 1:13: wrong number of arguments\n",
    ),
    (
        "check",
        "int main(){ main(1); }",
        "3 refused 1:13: wrong number of arguments\n",
    ),
    (
        "check",
        "void f(){} int main(){ return f(1); }",
        "3 refused 1:31: wrong number of arguments\n",
    ),
    (
        "check",
        "void f(){} int main(){ return f(); }",
        "3 refused 1:31: void used as value\n",
    ),
    (
        "check",
        "int main(){ return assume(1); }",
        "3 refused 1:20: void used as value\n",
    ),
    (
        "check",
        "void f(){ return 1; } int main(){}",
        "3 refused 1:11: void used as value\n",
    ),
    (
        "check",
        "int main(){ int x; return x * x; }",
        "3 refused 1:29: product of two non-constants\n",
    ),
    (
        "check",
        "int main(){ int x; x *= x; }",
        "3 refused 1:22: product of two non-constants\n",
    ),
    (
        "check",
        "int main(){ return input() * !1; }",
        "3 refused 1:28: product of two non-constants\n",
    ),
    (
        "check",
        "void main(){}",
        "3 refused 1:6: main has the wrong shape\n",
    ),
    (
        "check",
        "int main(int a){}",
        "3 refused 1:5: main has the wrong shape\n",
    ),
    (
        "check",
        "int f(){ return main(); } int main(){}",
        "3 refused 1:17: main has the wrong shape\n",
    ),
    (
        "check",
        "int main(){ continue; }",
        "3 refused 1:13: break or continue outside a loop\n",
    ),
    (
        "check",
        "int main(){ while (1) ; break; }",
        "3 refused 1:25: break or continue outside a loop\n",
    ),
    (
        "check",
        "int input(void); // int main(){}",
        "3 refused 1:1: no main\n",
    ),
];

pub const NO_COMMANDS: &[Row] = &[
    ("", SUM, USAGE),
    ("check|x", SUM, USAGE),
    ("Check", SUM, USAGE),
    ("check ", SUM, USAGE),
    ("replay", SUM, USAGE),
    ("replay|[1", SUM, USAGE),
    ("--help", SUM, USAGE),
    ("check|--budget", SUM, USAGE),
    ("check|--budget|0", SUM, USAGE),
    ("check|--budget|20001", SUM, USAGE),
    ("check|--budget|x", SUM, USAGE),
    ("check|--budget|5|--budget|5", SUM, USAGE),
    ("check|--|--budget=50", SUM, USAGE),
    ("check|--budget|5|--budget|6", SUM, USAGE),
    ("check|--help", SUM, USAGE),
    ("replay|5", SUM, USAGE),
    ("workload|61", SUM, USAGE),
    ("check|--workers|17", SUM, USAGE),
];

/// The call that fails of a source that gives 4 bytes a call, the room of the sink, and what is
/// written.
pub type Fault = (u32, usize, &'static str);

pub const FAULTS: &[Fault] = &[
    (
        17,
        51,
        "0 1:35: proved\nsummary: 1 proved, 0 found, 0 unknown\n",
    ),
    (
        18,
        51,
        "0 1:35: proved\nsummary: 1 proved, 0 found, 0 unknown\n",
    ),
];

/// What `check` writes of `SUM`.
pub const SUM_REPORT: &str = "1:35: proved\nsummary: 1 proved, 0 found, 0 unknown\n";

/// A head, what is opened and closed, a tail between, how often, and what is written.
pub type Nesting<'a> = (&'a str, (&'a str, &'a str), &'a str, usize, &'a str);

pub const NESTINGS: &[Nesting] = &[
    (
        "int main()",
        ("{", "}"),
        "",
        64,
        "0 summary: 0 proved, 0 found, 0 unknown\n",
    ),
    (
        "int main(){ return ",
        ("!", ""),
        "0; }",
        256,
        "0 summary: 0 proved, 0 found, 0 unknown\n",
    ),
    (
        "int main(){ return ",
        ("!", ""),
        "0; }",
        257,
        "3 refused 1:276: nested too deep\n",
    ),
];

/// A body of `main`, beside a procedure `f`, and what is written of it.
pub const BODIES: &[(&str, &str)] = &[
    ("", "0 returned 0, inputs used 0\n"),
    ("return;", "0 returned 0, inputs used 0\n"),
    (
        "return 9223372036854775807;",
        "0 returned 9223372036854775807, inputs used 0\n",
    ),
    (
        "return -9223372036854775807 - 1;",
        "0 returned -9223372036854775808, inputs used 0\n",
    ),
    (
        "return 0x7fffffffffffffffLL;",
        "0 returned 9223372036854775807, inputs used 0\n",
    ),
    (
        "return 0777777777777777777777l;",
        "0 returned 9223372036854775807, inputs used 0\n",
    ),
    (
        "return 0XaFll + 017 + 00 + 10L;",
        "0 returned 200, inputs used 0\n",
    ),
    ("return 1 - 2 - 3;", "0 returned -4, inputs used 0\n"),
    ("return 2 + 3 * 4 - -5;", "0 returned 19, inputs used 0\n"),
    ("return 3 > 2 > 1;", "0 returned 0, inputs used 0\n"),
    ("return 1 < 2 == 1 != 0;", "0 returned 1, inputs used 0\n"),
    ("return 1 || 0 && 0;", "0 returned 1, inputs used 0\n"),
    ("return !5 + !!5 * + + 3;", "0 returned 3, inputs used 0\n"),
    ("return 0 && input() || 2;", "0 returned 1, inputs used 0\n"),
    (
        "return f(f(1, 2), f(3, 4));",
        "0 returned 7, inputs used 0\n",
    ),
    (
        "int f = 2; return f(f, 3);",
        "0 returned -4, inputs used 0\n",
    ),
    (
        "int x; { int x = 2; x = 3; } return x;",
        "0 returned 0, inputs used 0\n",
    ),
    (
        "int x = 3; x *= 1 + 1; x -= 1; x += x; return x;",
        "0 returned 10, inputs used 0\n",
    ),
    (
        "int i = 5; while (i) --i; return i;",
        "0 returned 0, inputs used 0\n",
    ),
    ("for (;;) return 7;", "0 returned 7, inputs used 0\n"),
    (
        "int s; for (int i = 0; i < 5; i++) { if (i == 1) continue; if (i == 3) break; s += i; } return s;",
        "0 returned 2, inputs used 0\n",
    ),
    (
        "int i; do { ++i; if (i < 3) continue; break; } while (i < 10); return i;",
        "0 returned 3, inputs used 0\n",
    ),
    (
        "if (0) if (1) return 1; else return 2; return 3;",
        "0 returned 3, inputs used 0\n",
    ),
    (
        "long a = 1; long long b = 2; long int c = 3; long long int d = 4; return a + b + c + d;",
        "0 returned 10, inputs used 0\n",
    ),
    (
        "// return 1;\n#include <a> /*\n/* */ return 2 /**/ ; //",
        "0 returned 2, inputs used 0\n",
    ),
];

/// A head, a part, a tail, how often the part stands between them, and what is written.
pub type Limit = (
    &'static str,
    (&'static str, &'static str),
    &'static str,
    usize,
    &'static str,
);

pub const LIMITS: &[Limit] = &[
    (
        "int main(){\n",
        ("if (0 > ", ") ; else\n"),
        ";}",
        63,
        "0 returned 0, inputs used 0\n",
    ),
    (
        "int main(){\n",
        ("if (0 > ", ") ; else\n"),
        ";}",
        64,
        "3 refused 65:13: nested too deep\n",
    ),
    (
        "int main(){\n",
        ("while (0 > ", ")\n"),
        ";}",
        63,
        "0 returned 0, inputs used 0\n",
    ),
    (
        "int main(){\n",
        ("while (0 > ", ")\n"),
        ";}",
        64,
        "3 refused 66:1: nested too deep\n",
    ),
    (
        "int main(){ return 0",
        ("\n- ", ""),
        ";}",
        256,
        "0 returned -32640, inputs used 0\n",
    ),
    (
        "int main(){ return 0",
        ("\n- ", ""),
        ";}",
        257,
        "3 refused 258:1: nested too deep\n",
    ),
    (
        "void f(int a){} int main(){ f(0",
        ("\n+ ", ""),
        ");}",
        255,
        "0 returned 0, inputs used 0\n",
    ),
    (
        "void f(int a){} int main(){ f(0",
        ("\n+ ", ""),
        ");}",
        256,
        "3 refused 257:1: nested too deep\n",
    ),
    (
        "int main(){}\n",
        ("int f", "(){}\n"),
        "",
        63,
        "0 returned 0, inputs used 0\n",
    ),
    (
        "int main(){}\n",
        ("int f", "(){}\n"),
        "",
        64,
        "3 refused 65:5: too many procedures\n",
    ),
    (
        "int f(int a,\n",
        ("int a", ",\n"),
        "int b){} int main(){}",
        6,
        "0 returned 0, inputs used 0\n",
    ),
    (
        "int f(int a,\n",
        ("int a", ",\n"),
        "int b){} int main(){}",
        7,
        "3 refused 9:5: too many parameters\n",
    ),
    (
        "int main(){\n",
        ("int v", ";\n"),
        "}",
        24,
        "0 returned 0, inputs used 0\n",
    ),
    (
        "int main(){\n",
        ("int v", ";\n"),
        "}",
        25,
        "3 refused 26:5: too many variables\n",
    ),
    (
        "int f(int a, int b){\n",
        ("int v", ";\n"),
        "} int main(){}",
        22,
        "0 returned 0, inputs used 0\n",
    ),
    (
        "int f(int a, int b){\n",
        ("int v", ";\n"),
        "} int main(){}",
        23,
        "3 refused 24:5: too many variables\n",
    ),
    (
        "int main(){ int x; x = 1;;;;\n",
        ("x -= ", ";\n"),
        "}",
        996,
        "0 returned 0, inputs used 0\n",
    ),
    (
        "int main(){ int x; x = 1;;;;\n",
        ("x -= ", ";\n"),
        "}",
        997,
        "3 refused 998:3: too many tokens\n",
    ),
    (
        "int main(){\n",
        ("assert(", " >= 0);\n"),
        "}",
        64,
        "0 returned 0, inputs used 0\n",
    ),
    (
        "int main(){\n",
        ("assert(", " >= 0);\n"),
        "}",
        65,
        "3 refused 66:1: too many assertions\n",
    ),
    (
        "int g,\n",
        ("g", ",\n"),
        "h; int main(){}",
        14,
        "0 returned 0, inputs used 0\n",
    ),
    (
        "int g,\n",
        ("g", ",\n"),
        "h; int main(){}",
        15,
        "3 refused 17:1: too many variables\n",
    ),
    (
        "int g,\n",
        ("g", ",\n"),
        "g; int main(){}",
        15,
        "3 refused 17:1: duplicate name\n",
    ),
];

/// Words, how many blanks they are given, and what is written of them.
pub type Blanks = (&'static str, usize, &'static str);

pub const BLANKS: &[Blanks] = &[
    ("check", 65_536, "3 refused 1:1: no main\n"),
    (
        "check",
        65_537,
        "3 refused: source longer than 65536 bytes\n",
    ),
    (
        "edit|61",
        60,
        "3 refused: old source shorter than 61 bytes\n",
    ),
    ("edit|61", 65_597, "3 old: refused 1:1: no main\n"),
    (
        "edit|61",
        65_598,
        "3 refused: source longer than 65536 bytes\n",
    ),
    ("recheck", 16_777_216, "3 refused: not a bundle\n"),
    (
        "recheck",
        16_777_217,
        "3 refused: bundle longer than 16777216 bytes\n",
    ),
];
