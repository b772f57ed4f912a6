//! Bundles, sweeps and edits, each with its whole output.

use super::analyses::{EVEN_ODD, REALISTIC};
use super::tables::{DEEP, Row, SUM};

/// A coefficient that is too wide.
const WIDE: &str =
    "int main(){ int x = input(); assert(2199023255552 * x != 2199023255552); return 0; }";

pub const AFTERWARDS: &[Row] = &[
    // an assertion three calls deep
    (
        "sweep",
        DEEP,
        "1 1:23: found [2, 40]\nsummary: 0 proved, 1 found, 0 unknown\n",
    ),
    // a loop without an end
    (
        "sweep",
        "int main(){ while (1) { } assert(0); return 0; }",
        "2 1:27: unknown (sweep 2000 spent)\nsummary: 0 proved, 0 found, 1 unknown\n",
    ),
    (
        "sweep|--edges|20",
        "int main(){ while (1) { } assert(0); return 0; }",
        "2 1:27: unknown (sweep 20 spent)\nsummary: 0 proved, 0 found, 1 unknown\n",
    ),
    // all paths
    (
        "sweep",
        "int main(){ int x = input(); if (x > 3) { assert(x > 2); } return 0; }",
        "0 1:43: proved\nsummary: 1 proved, 0 found, 0 unknown\n",
    ),
    (
        "sweep|--edges=5000",
        "int main(){return 0;}",
        "0 summary: 0 proved, 0 found, 0 unknown\n",
    ),
    ("sweep", "", "3 refused 1:1: no main\n"),
    // texts that are a bundle, or none
    (
        "recheck",
        "smash-bundle 1\nsource 50\nint main(){return 0;} int f(){assert(0);return 0;}\nassert 1\nclaims 1\nclaim 0 fail 0\ncube 0\ncube 0\nmoves 0\n",
        "0 accepted 1:31\n",
    ),
    (
        "recheck",
        "smash-bundle 1\nsource 31\nint main(){assert(0);return 0;}\nassert 1\nclaims 1\nclaim 0 fail 0\ncube 0\ncube 0\nmoves 0\n",
        "2 rejected claim 0\n",
    ),
    ("recheck", "", "3 refused: not a bundle\n"),
    (
        "recheck",
        "smash-bundle 1\nsource 50\nint main(){return 0;} int f(){assert(0);return 0;}\nassert 2\nclaims 1\nclaim 0 fail 0\ncube 0\ncube 0\nmoves 0\n",
        "3 refused: no such assertion\n",
    ),
    (
        "recheck",
        "smash-bundle 1\nsource 0\n\nassert 1\nclaims 1\nclaim 0 fail 0\ncube 0\ncube 0\nmoves 0\n",
        "3 refused 1:1: no main\n",
    ),
    (
        "recheck",
        "smash-bundle 1\nsource 50\nint main(){return 0;} int f(){assert(0);return 0;}\nassert 1\nclaims 1\nclaim 0 fail 0\ncube 0\ncube 0\nmoves 0\n\n",
        "3 refused: not a bundle\n",
    ),
    // assertions that aren't proved, and none
    (
        "bundle|1",
        "int main(){ assert(input()); }",
        "1 1:13: found [0]\n",
    ),
    (
        "bundle|1|--budget|1",
        SUM,
        "2 1:35: unknown (budget 1 spent)\n",
    ),
    ("bundle|1", WIDE, "2 1:30: unknown (solver limit: wide)\n"),
    (
        "sweep",
        WIDE,
        "2 1:30: unknown (solver limit: wide)\nsummary: 0 proved, 0 found, 1 unknown\n",
    ),
    ("bundle|2", SUM, "3 refused: no such assertion\n"),
    ("bundle|1", "", "3 refused 1:1: no main\n"),
    // a source twice, and one that is changed
    (
        "edit|61",
        "int main(){ int x = 3; x = x + 4; assert(x == 7); return 0; }int main(){ int x = 3; x = x + 4; assert(x == 7); return 0; }",
        "0 1:35: proved\nsummary: 1 proved, 0 found, 0 unknown\nkept 1 of 1\n",
    ),
    (
        "edit|61",
        "int main(){ int x = 3; x = x + 4; assert(x == 7); return 0; }int main(){ int x = 3; x = x + 4; assert(x == 8); return 0; }",
        "1 1:35: found []\nsummary: 0 proved, 1 found, 0 unknown\nkept 0 of 1\n",
    ),
    // an assertion that is kept with another number
    (
        "edit|74|--workers|1",
        "int f(int n){ assert(n != 5); return n; } int main(){ return f(input()); }int g(int n){ assert(n >= 0 || n < 0); return n; } int f(int n){ assert(n != 5); return n; } int main(){ return g(1) + f(input()); }",
        "1 1:15: proved\n1:66: found [5]\nsummary: 1 proved, 1 found, 0 unknown\nkept 1 of 2\n",
    ),
    (
        "edit|111|--workers|1",
        "int f(int n){ assert(n != 5); return n; } int main(){ int k = input(); if (k == 5) { return 0; } return f(k); }int g(int n){ assert(n != 1); return n; } int f(int n){ assert(n != 5); return n; } int main(){ int k = input(); if (k == 5) { return 0; } return g(1) + f(k); }",
        "1 1:15: found [0]\n1:57: proved\nsummary: 1 proved, 1 found, 0 unknown\nkept 3 of 4\n",
    ),
    // an old source that is too short, one that is refused, and a new one that is
    (
        "edit|62",
        SUM,
        "3 refused: old source shorter than 62 bytes\n",
    ),
    (
        "edit|21",
        "int main(){ return 0;int main(){ int x = 3; x = x + 4; assert(x == 7); return 0; }",
        "3 old: refused 1:22: unexpected end of file\n",
    ),
    (
        "edit|21",
        "int main(){ return 0;int",
        "3 old: refused 1:22: unexpected end of file\n",
    ),
    ("edit|61", SUM, "3 refused 1:1: no main\n"),
];

/// Words, a text, and what is written of it where its first read fails, and where there is room for
/// three bytes.
pub const FAULTY: &[Row] = &[
    ("bundle|1", SUM, "5 ; 6 sma"),
    ("sweep", SUM, "5 ; 6 1:3"),
    (
        "edit|61",
        "int main(){ int x = 3; x = x + 4; assert(x == 7); return 0; }int main(){ int x = 3; x = x + 4; assert(x == 7); return 0; }",
        "5 ; 6 1:3",
    ),
    ("recheck", "", "5 ; 6 ref"),
];

/// The words that make a bundle, a source, and what is written of the bundle.
pub const BUNDLED: &[Row] = &[
    ("bundle|1", SUM, "0 accepted 1:35\n"),
    (
        "bundle|2",
        "int main(){ int x = input(); if (x > 3) { assert(x > 2); assert(x > 3); } return 0; }",
        "0 accepted 1:58\n",
    ),
    // a procedure that calls itself
    (
        "bundle|1",
        "int f(int n) { if (n <= 0) return 0; return f(n - 1); }\nint main() { assert(f(input()) == 0); return 0; }",
        "0 accepted 2:14\n",
    ),
    // two that call each other
    (
        "bundle|1|--budget|5000",
        "int f(int n) { if (n <= 0) return 0; return g(n - 1); }\nint g(int n) { if (n <= 0) return 0; return f(n - 1); }\nint main() { assert(f(input()) == 0); return 0; }",
        "0 accepted 3:14\n",
    ),
    // a loop
    (
        "bundle|1",
        "int main(){ int i = 0; while (input() > 0) { i = 0; } assert(i == 0); return 0; }",
        "0 accepted 1:55\n",
    ),
    // recursion without an end: no call returns
    (
        "bundle|1",
        "int f(int n) { return f(n); }\nint main() { assert(f(1) == 2); return 0; }\n",
        "0 accepted 2:14\n",
    ),
    ("bundle|1|--budget|20000", EVEN_ODD, "0 accepted 4:37\n"),
    ("bundle|1|--budget|20000", REALISTIC, "0 accepted 15:3\n"),
    ("bundle|2|--budget|20000", REALISTIC, "0 accepted 26:3\n"),
    ("bundle|4|--budget|20000", REALISTIC, "0 accepted 32:3\n"),
];
