//! The worked examples of the language, each with its whole output.

use super::tables::{DEEP, Row};

pub const WORKED: &[Row] = &[
    // an empty source
    ("check", "", "3 refused 1:1: no main\n"),
    // one past the greatest value
    (
        "check",
        "int main(){ int x = 9223372036854775808; return 0; }",
        "3 refused 1:21: literal too wide\n",
    ),
    // a product of two inputs
    (
        "check",
        "int main(){ int x = input(); int y = input(); return x * y; }",
        "3 refused 1:56: product of two non-constants\n",
    ),
    // a body without its end
    (
        "check",
        "int main(){ return 0;",
        "3 refused 1:22: unexpected end of file\n",
    ),
    // an input too few
    ("replay|[2]", DEEP, "2 starved, inputs used 1\n"),
    // an assertion three calls deep
    ("replay|[2, 40]", DEEP, "1 failed 1:23, inputs used 2\n"),
    // one more than an input
    (
        "replay|[41]",
        "int main(){ int x = input(); return x + 1; }",
        "0 returned 42, inputs used 1\n",
    ),
    // one more than the greatest value
    (
        "replay|[9223372036854775807]",
        "int main(){ int x = input(); return x + 1; }",
        "0 stopped, inputs used 1\n",
    ),
    // a loop that spends its fuel
    (
        "replay|--fuel|10|[]",
        "int main(){ while (1) { } return 0; }",
        "2 fuel 10 spent\n",
    ),
    // one block too deep
    (
        "check",
        "int main(){{{{{{{{{{{{{{{{{{{{{{{{{{{{{{{{{{{{{{{{{{{{{{{{{{{{{{{{{{{{{{{{{",
        "3 refused 1:75: nested too deep\n",
    ),
    // an assertion after a call that counts, and one of the count
    (
        "check",
        "int g = 0;\nint step() { g = g + 1; return g; }\nint main() { int a = step(); assert(a == 1); assert(g == 1); return 0; }",
        "0 3:30: proved\n3:46: proved\nsummary: 2 proved, 0 found, 0 unknown\n",
    ),
    // a global that a procedure sets
    (
        "check",
        "int g = 7;\nvoid put(int v) { g = v; }\nint main() { put(input()); assert(g != 9); return 0; }",
        "1 3:28: found [9]\nsummary: 0 proved, 1 found, 0 unknown\n",
    ),
    // a global before and after a call that changes it
    (
        "replay|[]",
        "int g = 1; int f() { g = 5; return 10; } int main() { return g + f() + g; }",
        "0 returned 16, inputs used 0\n",
    ),
    // two globals of one name
    (
        "check",
        "int g = 1; int g = 2; int main(){return 0;}",
        "3 refused 1:16: duplicate name\n",
    ),
    // a quotient and a remainder
    (
        "check",
        "int main(){ int x = input(); assert(x / 3 != 2 || x % 3 != 1); return 0; }",
        "1 1:30: found [7]\nsummary: 0 proved, 1 found, 0 unknown\n",
    ),
    // the bounds of a remainder
    (
        "check",
        "int main(){ int x = input(); int r = x % 4; assert(r > -4 && r < 4); return 0; }",
        "0 1:45: proved\nsummary: 1 proved, 0 found, 0 unknown\n",
    ),
    // rounded toward zero
    (
        "replay|[-7]",
        "int main(){ int x = input(); return x / 2 * 10 + x % 2; }",
        "0 returned -31, inputs used 1\n",
    ),
    // a quotient that is no value
    (
        "replay|[-9223372036854775808]",
        "int main(){ int x = input(); return x / -1; }",
        "0 stopped, inputs used 1\n",
    ),
    // a divisor of 0
    (
        "check",
        "int main(){ int x = input(); return x / 0; }",
        "3 refused 1:39: divisor not allowed\n",
    ),
];
