//! Programs with globals whose graphs are walked.

/// Programs, each with lists of inputs that it is run on besides the shared ones.
pub const GLOBALS: &[(&str, &[&[i64]])] = &[
    // opening values
    ("int g; int main(){ return g; }", &[]),
    (
        "int a = 3, b = -5, c, d = +0x10, e = - 7; int main(){ return a + b * 10 + c * 100 + d * 1000 + e; }",
        &[],
    ),
    (
        "int g = -9223372036854775807; int main(){ g -= 1; assert(g + 1 < 0); return g; }",
        &[],
    ),
    (
        "int g = 9223372036854775807; int main(){ if (input()) g += 1; return g; }",
        &[],
    ),
    // what sets a global
    (
        "int g; int main(){ g = input(); g = g + 1; g += g; g -= 3; g *= 2; g++; ++g; g--; --g; return g; }",
        &[],
    ),
    (
        "int g = 0; int step() { g = g + 1; return g; } int main() { int a = step(); assert(a == 1); assert(g == 1); return 0; }",
        &[],
    ),
    (
        "int g = 7; void put(int v) { g = v; } int main() { put(input()); assert(g != 9); return 0; }",
        &[&[9]],
    ),
    (
        "int g; void twice(){ g += g; } int main(){ g = input(); twice(); { twice(); } if (g > 4) twice(); else twice(); for (twice(); g > 100; g -= 7) twice(); return g; }",
        &[],
    ),
    // a call between two reads
    (
        "int g = 1; int f() { g = 5; return 10; } int main() { return g + f() + g; }",
        &[],
    ),
    (
        "int g; int f(int a) { g = g * 2 + a; return g; } int main() { g = input(); int x = g - f(1) + g * 3; return x + f(g) - g + f(f(g) - g); }",
        &[&[5]],
    ),
    (
        "int g = 2; int f(){ g++; return g; } int main(){ int x = g - (f() - g) + (g - (g + f())); g = g - (g - f()); return x * 100 + g; }",
        &[],
    ),
    (
        "int g = 1, h = 2; int f(){ g = h; h = g + h; return g * 10 + h; } int main(){ return g * 1000 + f() + h * (1 + 2) - (g + f() * 2) - h; }",
        &[],
    ),
    // in arguments
    (
        "int g = 3; int f(){ g = g + 1; return g; } int h(int a, int b, int c){ return a * 100 + b * 10 + c + g; } int main(){ return h(g, f(), g) - h(f(), g, f()) * 3 + h(h(g, g, f()), g, g); }",
        &[],
    ),
    (
        "int g; int put(int v){ int old = g; g = v; return old; } int main(){ g = input(); return put(g + 1) * 100 + put(put(g) + g) * 10 + put(g - 1) + g; }",
        &[&[4]],
    ),
    // after && and ||, in tests
    (
        "int g = 1; int f(){ g++; return g < 4; } int main(){ int r = g && f() && g == 2; r = r * 10 + (g == 2 || f()); r = r * 10 + (f() && g == 3 && !f()); if (g > 3 && f() || g == 5) r += 1000; return r * 10 + g; }",
        &[],
    ),
    (
        "int g; int f(int a){ g = a; return a; } int main(){ int x = input(); if (g == 0 && f(x) && g) return 1; if (f(g + 1) == g || g == x) return 2 + g; return g; }",
        &[&[-1, 0], &[5]],
    ),
    (
        "int g = 1; int f(){ g += g; return g; } int main(){ assert(g < f()); assert(f() == g); assume(!(g > f())); assert(g != 8); return 0; }",
        &[],
    ),
    // in a loop's test and step
    (
        "int g; int next(){ g++; return g; } int main(){ int n; while (next() < 5 && g < 9) { n += g; if (g == 2) continue; if (n > 20) break; g++; } return n * 100 + g; }",
        &[],
    ),
    (
        "int g = 6; void down(){ g -= 2; } int main(){ int n; do { n++; if (g == 4) { down(); continue; } } while (g > input()); for (int i = g; i < 6 && g < 9; down()) { i += 2; g += 3; } return n * 100 + g; }",
        &[&[0], &[3, 3], &[-9, 8]],
    ),
    // hiding
    (
        "int g = 5; int f(int g){ g++; return g; } int main(){ int x = f(10); return x * 100 + g; }",
        &[],
    ),
    (
        "int g = 5; int up(){ g++; return g; } int main(){ int x = g; int g = input(); { int g = 7; g++; x += g; up(); } for (int g = 0; g < 2; g++) x += up(); return x * 100 + g; }",
        &[&[40]],
    ),
    (
        "int x = 1, y = 2; int f(int y, int a){ int z = x; x = y; y = a; { int x = z; x += 100; y += x; } return x * 10 + y; } int main(){ int r = f(y, 3); return r * 1000 + x * 10 + y; }",
        &[],
    ),
    (
        "int f = 3; int f(){ return f + 1; } int main(){ f = f() * 2; return f() + f; }",
        &[],
    ),
    // the rest of a chain of calls
    (
        "int depth, most; int down(int n){ depth++; if (depth > most) most = depth; int r; if (n > 0) r = down(n - 1) + down(n - 2); depth--; return r + 1; } int main(){ int n = input(); assume(n < 9); return down(n) * 100 + most * 10 + depth; }",
        &[&[4], &[7]],
    ),
    (
        "int turn; int even(int n){ turn = turn * 2; return n == 0 || odd(n - 1); } int odd(int n){ turn = turn + 1; return n && even(n - 1); } int main(){ int n = input(); assume(n < 40); int r = even(n); return turn * 10 + r; }",
        &[&[7], &[8]],
    ),
    (
        "int g; int f(int n){ int x = g; g += n; if (n > 0) x += f(n - 1) - g * 2; g -= x; return x + g; } int main(){ int n = input(); assume(n < 9 && n > -9); g = input(); return f(n) - g; }",
        &[&[4, 1], &[6, -2]],
    ),
    // what stops and what fails
    (
        "int g = 9223372036854775800; void up(int n){ g += n; } int main(){ up(input()); up(input()); assert(g > 0); return g; }",
        &[
            &[7, 1],
            &[7, 0],
            &[-9223372036854775800, 0],
            &[-9223372036854775800, -1],
        ],
    ),
    (
        "int g; void see(int a){ g = g + a; assert(g != 3); assume(g != 5); } int main(){ while (1) see(input()); }",
        &[&[1, 1, 1], &[2, 3], &[1, 4], &[9, -6]],
    ),
    // as many as there may be
    (
        "int a, b = 1, c = 2, d = 3, e = 4, f = 5, g = 6, h = 7, i = 8, j = 9, k = 10, l = 11, m = 12, n = 13, o = 14, p = 15; void turn(int by){ int t = a; a = b; b = c; c = d; d = e; e = f; f = g; g = h; h = i; i = j; j = k; k = l; l = m; m = n; n = o; o = p; p = t + by; } int main(){ for (int x = 0; x < 20; x++) turn(x); return a + b * 2 + c * 3 + d * 4 + e * 5 + f * 6 + g * 7 + h * 8 + i * 9 + j * 10 + k * 11 + l * 12 + m * 13 + n * 14 + o * 15 + p * 16 + input(); }",
        &[],
    ),
    // with quotients
    (
        "int g = 100; int half(){ g /= 2; return g; } int main(){ int x = input(); g += x % 7; int r = g / 3 - half() % 5 + g / -4; g %= 6; return r * 10 + g; }",
        &[&[-50], &[1000]],
    ),
    (
        "int g; int digits(){ int n; while (g / 10 || n == 0) { g /= 10; n++; } return n; } int main(){ g = input(); return digits() * 100 + g; }",
        &[&[12345], &[-999]],
    ),
];
