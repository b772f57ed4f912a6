//! The tables of the analysis: programs with loops, inputs and calls, and their reports.

use super::tables::{DEEP, Row};

/// A lock that is let go where a number changes.
pub const LOCK_LOOP: &str = "\
int main() {
  int lock = 0; int n = input(); int old = 0;
  do {
    assert(lock == 0);
    lock = 1;
    old = n;
    if (input() > 0) { lock = 0; n = n + 1; }
  } while (n != old);
  assert(lock == 1);
  return 0;
}
";

pub const ANALYSES: &[Row] = &[
    // one value of an input
    (
        "check",
        "int main(){ int x = input(); assert(x != 5); return 0; }",
        "1 1:30: found [5]\nsummary: 0 proved, 1 found, 0 unknown\n",
    ),
    // a value below zero
    (
        "check",
        "int main(){ int x = input(); assert(x != -5); return 0; }",
        "1 1:30: found [-5]\nsummary: 0 proved, 1 found, 0 unknown\n",
    ),
    // the greatest value
    (
        "check",
        "int main(){ int x = input(); assert(x != 9223372036854775807); return 0; }",
        "1 1:30: found [9223372036854775807]\nsummary: 0 proved, 1 found, 0 unknown\n",
    ),
    // the least value
    (
        "check",
        "int main(){ int x = input(); assert(x > -9223372036854775807 - 1); return 0; }",
        "1 1:30: found [-9223372036854775808]\nsummary: 0 proved, 1 found, 0 unknown\n",
    ),
    // two inputs, in the order in which they are consumed
    (
        "check",
        "int main(){ int x = input(); int y = input(); if (x == 3) assert(y != 4); return 0; }",
        "1 1:59: found [3, 4]\nsummary: 0 proved, 1 found, 0 unknown\n",
    ),
    // an input that doesn't matter
    (
        "check",
        "int main(){ input(); int x = input(); assert(x != 5); return 0; }",
        "1 1:39: found [0, 5]\nsummary: 0 proved, 1 found, 0 unknown\n",
    ),
    // one more than an input
    (
        "check",
        "int main(){ int x = input(); int y = x + 1; assert(y > x); return 0; }",
        "0 1:45: proved\nsummary: 1 proved, 0 found, 0 unknown\n",
    ),
    // an odd number
    (
        "check",
        "int main(){ int x = input(); assert(2 * x != 7); return 0; }",
        "0 1:30: proved\nsummary: 1 proved, 0 found, 0 unknown\n",
    ),
    // a sum of threes and fives
    (
        "check",
        "int main(){ int x = input(); int y = input(); assume(x >= 0 && y >= 0); assert(3 * x + 5 * y != 7); return 0; }",
        "0 1:73: proved\nsummary: 1 proved, 0 found, 0 unknown\n",
    ),
    // a loop that keeps a value between two bounds
    (
        "check",
        "int main(){ int i = 0; while (input() > 0) { i = 0; } assert(i == 0); return 0; }",
        "0 1:55: proved\nsummary: 1 proved, 0 found, 0 unknown\n",
    ),
    (
        "check|--budget|20000",
        LOCK_LOOP,
        "0 4:5: proved\n9:3: proved\nsummary: 2 proved, 0 found, 0 unknown\n",
    ),
    // a loop without an end of its states
    (
        "check|--budget|50",
        "int main(){ int x = 0; while (input() > 0) x = x + 2; assert(x != 1000001); return 0; }",
        "2 1:55: unknown (budget 50 spent)\nsummary: 0 proved, 0 found, 1 unknown\n",
    ),
    // a coefficient that is too wide
    (
        "check",
        "int main(){ int x = input(); assert(2199023255552 * x != 2199023255552); return 0; }",
        "2 1:30: unknown (solver limit: wide)\nsummary: 0 proved, 0 found, 1 unknown\n",
    ),
    // what is found counts before what is unknown
    (
        "check",
        "int main(){ int x = input(); assert(x != 5); assert(2199023255552 * x != 2199023255552); return 0; }",
        "1 1:30: found [5]\n1:46: unknown (solver limit: wide)\nsummary: 0 proved, 1 found, 1 unknown\n",
    ),
    // an assertion in a procedure that isn't called
    (
        "check",
        "int f(int a){ assert(a == 0); return a; } int main(){ return input(); }",
        "0 1:15: proved\nsummary: 1 proved, 0 found, 0 unknown\n",
    ),
    // no assertion
    (
        "check",
        "int main(){ int x = input(); while (x > 0) x -= 1; return x; }",
        "0 summary: 0 proved, 0 found, 0 unknown\n",
    ),
    // no assertion, and a call
    (
        "check",
        "int f(int a){ return a; } int main(){ return f(1); }",
        "0 summary: 0 proved, 0 found, 0 unknown\n",
    ),
];

/// Each of two procedures calls the other one.
pub const EVEN_ODD: &str = "\
int odd(int n);
int even(int n) { if (n <= 0) return 1; return odd(n - 1); }
int odd(int n) { if (n <= 0) return 0; return even(n - 1); }
int main() { int r = even(input()); assert(r == 0 || r == 1); return 0; }
";

/// Two procedures that call each other, with a failing input for each.
const TWO_FOUND: &str = "\
int f(int n) { if (n <= 0) return n; return g(n); }
int g(int n) { return f(n - 1); }
int main() { int k = input(); int v = input(); if (k == 1) { assert(f(v) != -3); } \
if (k == 2) { assert(g(v) != -3); } return 0; }
";

/// A file with comments, loops and calls.
pub const REALISTIC: &str = "\
#include <assert.h>
int input(void);
void assume(int e);

/* keeps a between 0 and 10 */
int clamp(int a) {
  if (a < 0) return 0;
  else if (a > 10) return 10;
  return a;
}

int sum_to(int n) {
  int s = 0;
  for (int i = 0; i < n; i++) s += 2;
  assert(s >= 0);
  return s;
}

int pick(int a, int b) {
  if (a > b && a != 7) { return a; }
  return b;
}

int main(void) {
  int a = clamp(input()); // first input
  assert(a >= 0 && a <= 10);
  int x = input();
  assume(x > 40);
  int m = pick(3, x);
  assert(m != 41 || a != 5);
  int s = sum_to(a);
  assert(s >= 0);
  return 0;
}
";

pub const CALLS: &[Row] = &[
    // a procedure without a condition
    (
        "check",
        "int f(int a) { return a + 1; }\nint main() { int x = input(); assert(f(x) > x); return 0; }\n",
        "0 2:31: proved\nsummary: 1 proved, 0 found, 0 unknown\n",
    ),
    // a call in a loop
    (
        "check",
        "int f(int a) { if (a > 3) return 3; return a; }\nint main() { int x = 0; while (input() > 0) x = f(x + 1); assert(x != 3); return 0; }\n",
        "1 2:59: found [1, 1, 1, 0]\nsummary: 0 proved, 1 found, 0 unknown\n",
    ),
    // inputs of a called procedure, between those of its caller
    (
        "check",
        "int f() { int a = input(); if (a == 2) return input(); return 0; }\nint main() { int x = input(); int y = f(); int z = input(); if (x == 1 && y == 3) assert(z != 4); return 0; }\n",
        "1 2:83: found [1, 2, 3, 4]\nsummary: 0 proved, 1 found, 0 unknown\n",
    ),
    // an assertion three calls deep
    (
        "check",
        DEEP,
        "1 1:23: found [2, 40]\nsummary: 0 proved, 1 found, 0 unknown\n",
    ),
    // recursion by one
    (
        "check",
        "int f(int n) { if (n <= 0) return 0; return f(n - 1); }\nint main() { assert(f(input()) == 0); return 0; }\n",
        "0 2:14: proved\nsummary: 1 proved, 0 found, 0 unknown\n",
    ),
    // recursion without an end: no call returns
    (
        "check",
        "int f(int n) { return f(n); }\nint main() { assert(f(1) == 2); return 0; }\n",
        "0 2:14: proved\nsummary: 1 proved, 0 found, 0 unknown\n",
    ),
    // recursion with a failing input
    (
        "check",
        "int f(int n) { if (n <= 0) return n; return f(n - 1); }\nint main() { assert(f(input()) != -3); return 0; }\n",
        "1 2:14: found [-3]\nsummary: 0 proved, 1 found, 0 unknown\n",
    ),
    (
        "check",
        TWO_FOUND,
        "1 3:62: found [1, -3]\n3:98: found [2, -2]\nsummary: 0 proved, 2 found, 0 unknown\n",
    ),
    // a limit that lies in the called procedure
    (
        "check",
        "int f(int a) { if (2199023255552 * a == 2199023255552) return 1; return 0; }\nint main() { int x = input(); assert(x != 5); assert(f(x) == 0); return 0; }\n",
        "1 2:31: found [5]\n2:47: unknown (solver limit: wide)\nsummary: 0 proved, 1 found, 1 unknown\n",
    ),
    // the same two calls deep, where the assertion is
    (
        "check",
        "int h(int a) { assert(2199023255552 * a != 2199023255552); return a; }\nint f(int a) { return h(a); }\nint main() { int x = input(); assert(x != 3); f(x); return 0; }\n",
        "1 1:16: unknown (solver limit: wide)\n3:31: found [3]\nsummary: 0 proved, 1 found, 1 unknown\n",
    ),
];

/// A command with a budget of 20,000, a source, and the lines of its verdicts. A line that says
/// `proved` may say instead that the budget was spent.
pub type Open = (&'static str, &'static str, &'static [&'static str]);

pub const OPEN: &[Open] = &[
    ("check|--budget|20000", EVEN_ODD, &["4:37: proved"]),
    (
        "check|--workers|4|--budget|20000",
        REALISTIC,
        &[
            "15:3: proved",
            "26:3: proved",
            "30:3: found [5, 41]",
            "32:3: proved",
        ],
    ),
];
