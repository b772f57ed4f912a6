//! The tables of quotients and remainders.

use super::tables::Row;

/// Which divisors may stand, and where.
pub const DIVISIONS: &[Row] = &[
    (
        "check",
        "int main(){ int x = input(); return x / (3 - 3); }",
        "3 refused 1:39: divisor not allowed\n",
    ),
    (
        "check",
        "int main(){ int x = input(); return x % 0; }",
        "3 refused 1:39: divisor not allowed\n",
    ),
    (
        "check",
        "int main(){ int x = input(); return x / (9223372036854775807 + 1); }",
        "3 refused 1:39: divisor not allowed\n",
    ),
    (
        "check",
        "int main(){ int x = input(); return x / 1099511627777; }",
        "3 refused 1:39: divisor not allowed\n",
    ),
    (
        "check",
        "int main(){ int x = input(); return x % -1099511627777; }",
        "3 refused 1:39: divisor not allowed\n",
    ),
    (
        "check",
        "int main(){ int x = input(); return 7 / x; }",
        "3 refused 1:39: divisor not allowed\n",
    ),
    (
        "check",
        "int main(){ int x = input(); return x % input(); }",
        "3 refused 1:39: divisor not allowed\n",
    ),
    (
        "check",
        "int main(){ int x = input(); return x / (4 / 2); }",
        "3 refused 1:39: divisor not allowed\n",
    ),
    (
        "check",
        "int main(){ int x = input(); return x / !0; }",
        "3 refused 1:39: divisor not allowed\n",
    ),
    (
        "check",
        "int main(){ int x = input(); x /= 0; }",
        "3 refused 1:32: divisor not allowed\n",
    ),
    (
        "check",
        "int main(){ int x = input(); x %= x; }",
        "3 refused 1:32: divisor not allowed\n",
    ),
    (
        "check",
        "int main(){ int x = input(); return (6 / 2) * x; }",
        "3 refused 1:45: product of two non-constants\n",
    ),
    (
        "check",
        "int main(){ int x = input(); x *= 6 / 2; }",
        "3 refused 1:32: product of two non-constants\n",
    ),
    (
        "check",
        "int main(){ return y / 0; }",
        "3 refused 1:20: unknown name\n",
    ),
    (
        "check",
        "int main(){ int x = input(); return x / /= 2; }",
        "3 refused 1:41: unexpected token\n",
    ),
    (
        "check",
        "int main(){ / 2; }",
        "3 refused 1:13: unexpected token\n",
    ),
    (
        "check",
        "int main(){ return 1 %; }",
        "3 refused 1:23: unexpected token\n",
    ),
    // a divisor of the greatest magnitude
    (
        "replay|[3298534883328]",
        "int main(){ int x = input(); return x / 1099511627776; }",
        "0 returned 3, inputs used 1\n",
    ),
];

/// What analyses say of quotients and remainders.
pub const DIVISION_CHECKS: &[Row] = &[
    (
        "check",
        "int main(){ int x = input(); assert(x % 2 != 2); return 0; }",
        "0 1:30: proved\nsummary: 1 proved, 0 found, 0 unknown\n",
    ),
    (
        "check",
        "int main(){ int x = input(); assert(x / 1 == x); return 0; }",
        "0 1:30: proved\nsummary: 1 proved, 0 found, 0 unknown\n",
    ),
    (
        "check",
        "int main(){ int x = input(); assume(x >= 0); assert(x / 5 <= x); return 0; }",
        "0 1:46: proved\nsummary: 1 proved, 0 found, 0 unknown\n",
    ),
    (
        "check",
        "int main(){ int x = input(); assert(x / -1 != 9); return 0; }",
        "1 1:30: found [-9]\nsummary: 0 proved, 1 found, 0 unknown\n",
    ),
    (
        "check",
        "int main(){ int x = input(); int y = x / -1; assert(y != -9223372036854775807 - 1); return 0; }",
        "0 1:46: proved\nsummary: 1 proved, 0 found, 0 unknown\n",
    ),
    (
        "check",
        "int g = 17; int f(){ g %= 5; return g / 2; }\nint main(){ assert(f() != 1); return 0; }",
        "1 2:13: found []\nsummary: 0 proved, 1 found, 0 unknown\n",
    ),
];

/// A body of `main`, beside a procedure `f`, and what is written of it.
pub const DIVIDED: &[(&str, &str)] = &[
    ("return 7 / 2;", "0 returned 3, inputs used 0\n"),
    ("return -7 / 2;", "0 returned -3, inputs used 0\n"),
    ("return 7 / -2;", "0 returned -3, inputs used 0\n"),
    ("return -7 / -2;", "0 returned 3, inputs used 0\n"),
    ("return 7 % 2;", "0 returned 1, inputs used 0\n"),
    ("return -7 % 2;", "0 returned -1, inputs used 0\n"),
    ("return 7 % -2;", "0 returned 1, inputs used 0\n"),
    ("return -7 % -2;", "0 returned -1, inputs used 0\n"),
    ("return 1 / 2 + -1 / 2;", "0 returned 0, inputs used 0\n"),
    ("return 6 / 2 * 3;", "0 returned 9, inputs used 0\n"),
    ("return 3 * (7 / 2);", "0 returned 9, inputs used 0\n"),
    ("return 100 / 7 / 2;", "0 returned 7, inputs used 0\n"),
    ("return 100 / 7 % 4;", "0 returned 2, inputs used 0\n"),
    ("return 100 % 30 % 4;", "0 returned 2, inputs used 0\n"),
    ("return 2 + 7 / 2 - 1 * 3;", "0 returned 2, inputs used 0\n"),
    (
        "int x = 17; x /= 5; x %= 2; return x;",
        "0 returned 1, inputs used 0\n",
    ),
    (
        "int x = 5; x /=2; return x;",
        "0 returned 2, inputs used 0\n",
    ),
    (
        "int x = 9; return x /**/ / 2;",
        "0 returned 4, inputs used 0\n",
    ),
    (
        "int x = 9; return x // half\n / 2;",
        "0 returned 4, inputs used 0\n",
    ),
    (
        "int x = 9; return x / (1 + 1);",
        "0 returned 4, inputs used 0\n",
    ),
    (
        "int x = 9; return x / -(1);",
        "0 returned -9, inputs used 0\n",
    ),
    ("int x = 9; return x / +2;", "0 returned 4, inputs used 0\n"),
    (
        "int x = 9; return x / (2 * 2);",
        "0 returned 2, inputs used 0\n",
    ),
    (
        "int x = 9; return x % 0x4 + x / 010;",
        "0 returned 2, inputs used 0\n",
    ),
    ("return f(9, 1) / 2;", "0 returned 3, inputs used 0\n"),
    ("return f(9, 1) % 4;", "0 returned 3, inputs used 0\n"),
    (
        "int x = -9223372036854775807 - 1; return x / 1;",
        "0 returned -9223372036854775808, inputs used 0\n",
    ),
    (
        "int x = -9223372036854775807 - 1; return x % 1;",
        "0 returned 0, inputs used 0\n",
    ),
    (
        "int x = -9223372036854775807 - 1; return x / 1099511627776;",
        "0 returned -8388608, inputs used 0\n",
    ),
    (
        "int x = -9223372036854775807 - 1; return x / -1099511627776;",
        "0 returned 8388608, inputs used 0\n",
    ),
    (
        "int x = 9223372036854775807; return x % 1099511627776;",
        "0 returned 1099511627775, inputs used 0\n",
    ),
    (
        "int x = 9223372036854775807; return x / -1;",
        "0 returned -9223372036854775807, inputs used 0\n",
    ),
    (
        "int x = -9223372036854775807 - 1; return x / -1;",
        "0 stopped, inputs used 0\n",
    ),
    (
        "int x = -9223372036854775807 - 1; return x % -1;",
        "0 stopped, inputs used 0\n",
    ),
];
