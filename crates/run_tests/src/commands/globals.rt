//! The tables of globals.

use super::tables::Row;

pub const GLOBALS: &[Row] = &[
    // opening values, with and without a sign
    (
        "replay|[]",
        "int g = -5, h, k = +0x10; int main(){ return g * 100 + h * 10 + k; }",
        "0 returned -484, inputs used 0\n",
    ),
    (
        "replay|[]",
        "long long int g = 1, h = 2; long k; int main(){ return g + h + k; }",
        "0 returned 3, inputs used 0\n",
    ),
    (
        "replay|[]",
        "int g = 9223372036854775807; int main(){ return g; }",
        "0 returned 9223372036854775807, inputs used 0\n",
    ),
    (
        "replay|[]",
        "int g = -9223372036854775807; int main(){ g -= 1; return g; }",
        "0 returned -9223372036854775808, inputs used 0\n",
    ),
    // a parameter, a variable and one of a loop hide a global
    (
        "replay|[]",
        "int g = 1; int f(int g) { g = g + 1; return g; } int main(){ return f(5) * 10 + g; }",
        "0 returned 61, inputs used 0\n",
    ),
    (
        "replay|[]",
        "int g = 1; int f(){ return g; } int main(){ int g = 2; g += 1; return g * 10 + f(); }",
        "0 returned 31, inputs used 0\n",
    ),
    (
        "replay|[]",
        "int g = 1; int main(){ int s; for (int g = 5; g < 7; g++) s += g; return s * 10 + g; }",
        "0 returned 111, inputs used 0\n",
    ),
    (
        "replay|[]",
        "int g = 4; int main(){ int g = g + 1; return g; }",
        "0 returned 5, inputs used 0\n",
    ),
    // a global between procedures, and beside one of its name
    (
        "replay|[]",
        "int f(){ return 1; } int g = 2; int main(){ return f() + g; }",
        "0 returned 3, inputs used 0\n",
    ),
    (
        "replay|[]",
        "int main = 3; int f = 4; int f(){ return f; } int main(){ return main * 10 + f(); }",
        "0 returned 34, inputs used 0\n",
    ),
    // a called procedure changes a global between two reads
    (
        "replay|[]",
        "int g = 1; int f(){ g = g * 2; return g; } int h(int a, int b, int c){ return a * 100 + b * 10 + c; } int main(){ return h(g, f(), g); }",
        "0 returned 122, inputs used 0\n",
    ),
    (
        "replay|[]",
        "int g; int f(){ g = 5; return 1; } int main(){ int x = g && f(); int y = f() && g; return x * 100 + y * 10 + g; }",
        "0 returned 15, inputs used 0\n",
    ),
    (
        "replay|[]",
        "int g = 3; int f(){ g -= 1; return g; } int main(){ int n; while (f()) n++; return n * 10 + g; }",
        "0 returned 20, inputs used 0\n",
    ),
    (
        "replay|[]",
        "int n; void f(int k){ n += k; if (k > 0) f(k - 1); } int main(){ f(4); return n; }",
        "0 returned 10, inputs used 0\n",
    ),
    // each way to change one
    (
        "replay|[]",
        "int g = 10; int main(){ g += 5; g -= 2; g *= 3; g++; ++g; g--; return g; }",
        "0 returned 40, inputs used 0\n",
    ),
    (
        "replay|[]",
        "int g = 47; int main(){ g /= 5; g %= 4; --g; return g; }",
        "0 returned 0, inputs used 0\n",
    ),
    (
        "replay|[]",
        "int g = 9223372036854775807; int main(){ g++; return 0; }",
        "0 stopped, inputs used 0\n",
    ),
    // faults
    (
        "check",
        "int input; int main(){}",
        "3 refused 1:5: duplicate name\n",
    ),
    (
        "check",
        "int g, assert; int main(){}",
        "3 refused 1:8: duplicate name\n",
    ),
    (
        "check",
        "int g, g; int main(){}",
        "3 refused 1:8: duplicate name\n",
    ),
    (
        "check",
        "int g; int f(int assume){} int main(){}",
        "3 refused 1:18: duplicate name\n",
    ),
    (
        "check",
        "int main(){ return g; } int g;",
        "3 refused 1:20: unknown name\n",
    ),
    (
        "check",
        "int f(){ g = 1; } int g; int main(){}",
        "3 refused 1:10: unknown name\n",
    ),
    (
        "check",
        "int g; int main(){ return g(); }",
        "3 refused 1:27: unknown name\n",
    ),
    (
        "check",
        "void g; int main(){}",
        "3 refused 1:7: unexpected token\n",
    ),
    (
        "check",
        "extern int g; int main(){}",
        "3 refused 1:13: unexpected token\n",
    ),
    (
        "check",
        "int g = 1 + 1; int main(){}",
        "3 refused 1:11: unexpected token\n",
    ),
    (
        "check",
        "int g = x; int main(){}",
        "3 refused 1:9: unexpected token\n",
    ),
    (
        "check",
        "int g = input(); int main(){}",
        "3 refused 1:9: unexpected token\n",
    ),
    (
        "check",
        "int g = - - 1; int main(){}",
        "3 refused 1:11: unexpected token\n",
    ),
    (
        "check",
        "int g int main(){}",
        "3 refused 1:7: unexpected token\n",
    ),
    (
        "check",
        "int g = 1",
        "3 refused 1:10: unexpected end of file\n",
    ),
    (
        "check",
        "int g = -9223372036854775808; int main(){}",
        "3 refused 1:10: literal too wide\n",
    ),
    (
        "check",
        "int g = 2; int main(){ return input() * g; }",
        "3 refused 1:39: product of two non-constants\n",
    ),
    (
        "check",
        "int g = 2; int main(){ return input() / g; }",
        "3 refused 1:39: divisor not allowed\n",
    ),
    ("check", "int g;", "3 refused 1:1: no main\n"),
];

/// What analyses say of programs with globals.
pub const GLOBAL_CHECKS: &[Row] = &[
    (
        "check",
        "int g; int main(){ assert(g == 0); return 0; }",
        "0 1:20: proved\nsummary: 1 proved, 0 found, 0 unknown\n",
    ),
    (
        "check",
        "int g = 1; int f(){ g = 5; return 10; } int main(){ assert(g + f() + g == 16); return 0; }",
        "0 1:53: proved\nsummary: 1 proved, 0 found, 0 unknown\n",
    ),
    (
        "check",
        "int g; void f(){ assert(g != 4); } int main(){ g = input(); f(); return 0; }",
        "1 1:18: found [4]\nsummary: 0 proved, 1 found, 0 unknown\n",
    ),
    (
        "check",
        "int held;\nvoid take(){ assert(held == 0); held = 1; }\nvoid give(){ assert(held == 1); held = 0; }\nint main(){ take(); give(); if (input() == 3) take(); take(); give(); return 0; }",
        "1 2:14: found [3]\n3:14: proved\nsummary: 1 proved, 1 found, 0 unknown\n",
    ),
    (
        "check",
        "int n; void f(){ n = n + 1; }\nint main(){ while (input() > 0) f(); assert(n != 2); return 0; }",
        "1 2:38: found [1, 1, 0]\nsummary: 0 proved, 1 found, 0 unknown\n",
    ),
    (
        "check",
        "int g = 1; int main(){ int g = 2; assert(g == 2); return 0; }",
        "0 1:35: proved\nsummary: 1 proved, 0 found, 0 unknown\n",
    ),
];
