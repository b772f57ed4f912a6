//! A program that does what its first input says, run on inputs. Outcomes are counted by hand: a
//! statement, a test of a loop and a node of an expression are a step each.

use run_replay::{Outcome, Replayed, replay};
use std::alloc::Global;
use std::test::Fail;
use test_programs::program::program_of;

const SOURCE: &str = "
    int appends(int n, int x) { if (n == 0) return x; return appends(n - 1, 10 * x + n); }
    void ends(int x) { if (x) return; ends(x); }
    int main() {
        int x = input();
        int y;
        if (x == 0) return input();
        if (x == 1) assert(input());
        if (x == 2) assume(input());
        if (x == 3) return input() + input();
        if (x == 4) return input() - input();
        if (x == 5) return input() * 4;
        if (x == 6) return -input();
        if (x == 7) return input() && input();
        if (x == 8) return input() || input();
        if (x == 9) for (; y < 4; y = y + 1) { if (y == 2) continue; x = 10 * x + y; }
        if (x == 10) { do y = y + 1; while (input()); return y; }
        if (x == 11) return appends(input(), input());
        if (x == 12) ends(input());
        if (x == 13) { while (1) { { { y = y + 1; if (y == 2) break; y = y; } y = y; } y = y; }
            return y; }
        if (x == 14) while (1) { { { return 7; y = y; } y = y; } y = y; }
        if (x == 15) { { { } } y = 3; { y = y + 1; { } } return y; }
        return x;
    }";

/// The run of a source on inputs.
fn run(alloc: Global, source: &str, inputs: &[i64], fuel: u64) -> Result<Replayed, Fail> {
    let program = program_of(alloc, source.as_bytes())?;
    Ok(replay(alloc, &program, inputs, fuel)?)
}

#[test]
fn outcomes(rt: HostRuntime) -> Result<(), Fail> {
    let rows: &[(&[i64], u64, Outcome, usize)] = &[
        (&[0, 5], 10, Outcome::Returned(5), 2),
        (&[0, 5], 9, Outcome::Fuel, 1),
        (&[0], 10, Outcome::Starved, 1),
        (&[0], 9, Outcome::Fuel, 1),
        (&[], 0, Outcome::Fuel, 0),
        (&[1, 0], 1000, Outcome::Failed(0), 2),
        (&[1, 7], 1000, Outcome::Returned(1), 2),
        (&[2, 0], 1000, Outcome::Stopped, 2),
        (&[3, i64::MAX, 1], 1000, Outcome::Stopped, 3),
        (&[4, i64::MIN, 1], 1000, Outcome::Stopped, 3),
        (&[4, 1, 3], 1000, Outcome::Returned(-2), 3),
        (&[5, 1 << 61], 1000, Outcome::Stopped, 2),
        (&[5, -(1 << 61)], 1000, Outcome::Returned(i64::MIN), 2),
        (&[6, i64::MIN], 1000, Outcome::Stopped, 2),
        (&[7, 0, 9], 1000, Outcome::Returned(0), 2),
        (&[7, 2, 3], 1000, Outcome::Returned(1), 3),
        (&[8, 2, 9], 1000, Outcome::Returned(1), 2),
        (&[8, 0, 0], 1000, Outcome::Returned(0), 3),
        (&[9], 1000, Outcome::Returned(9013), 1),
        (&[10, 1, 0], 1000, Outcome::Returned(2), 3),
        (&[11, 2, 7], 1000, Outcome::Returned(721), 3),
        (&[12, 1], 1000, Outcome::Returned(12), 2),
        (&[12, 0], 1_000_000, Outcome::Fuel, 2),
        (&[13], 1000, Outcome::Returned(2), 1),
        (&[14], 1000, Outcome::Returned(7), 1),
        (&[15], 1000, Outcome::Returned(4), 1),
    ];
    for &(inputs, fuel, outcome, used) in rows {
        let run = run(rt.alloc(), SOURCE, inputs, fuel)?;
        assert_eq!(rt; run, Replayed { outcome, used }, "on {inputs:?}");
    }
    Ok(())
}

const GLOBALS: &str = "
    int g = 5, h, k = -9;
    int bump(int x) { g = g + x; return g; }
    int reads() { return 10 * g + h; }
    int listed(int a, int b, int c) { return 100 * a + 10 * b + c; }
    int main() {
        int x = input();
        if (x == 0) return reads();
        if (x == 1) return listed(g, bump(1), g);
        if (x == 2) return g + bump(2) + g;
        if (x == 3) return g == 5 && bump(1) == 6 && g == 6;
        if (x == 4) { while (bump(-2) > 0) h = h + g; return h; }
        if (x == 5) { { int g = 1; g += 1; } return g; }
        if (x == 6) { h++; h += 2; h *= 3; return h; }
        if (x == 7) { g = input(); return reads(); }
        return k;
    }";

#[test]
fn globals(rt: HostRuntime) -> Result<(), Fail> {
    let rows: &[(&[i64], u64, Outcome, usize)] = &[
        (&[0], 1000, Outcome::Returned(50), 1),
        (&[1], 1000, Outcome::Returned(566), 1),
        (&[2], 1000, Outcome::Returned(19), 1),
        (&[3], 1000, Outcome::Returned(1), 1),
        (&[4], 1000, Outcome::Returned(4), 1),
        (&[5], 1000, Outcome::Returned(5), 1),
        (&[6], 1000, Outcome::Returned(9), 1),
        (&[7, 4], 1000, Outcome::Returned(40), 2),
        (&[7], 1000, Outcome::Starved, 1),
        (&[8], 1000, Outcome::Returned(-9), 1),
        (&[8], 20, Outcome::Fuel, 1),
    ];
    for &(inputs, fuel, outcome, used) in rows {
        let run = run(rt.alloc(), GLOBALS, inputs, fuel)?;
        assert_eq!(rt; run, Replayed { outcome, used }, "on {inputs:?}");
    }
    Ok(())
}

/// Divides the first input as the second says.
const DIVISIONS: &str = "
    int main() {
        int x = input();
        int how = input();
        if (how == 0) return x / 3;
        if (how == 1) return x / -3;
        if (how == 2) return x % 3;
        if (how == 3) return x % -3;
        if (how == 4) return x / -1;
        if (how == 5) return x % -1;
        if (how == 6) { x /= 2; return x; }
        if (how == 7) { x %= 4; return x; }
        if (how == 8) return x % 5 % 3;
        if (how == 9) return 7 / 2;
        return x / 1099511627776;
    }";

#[test]
fn divisions(rt: HostRuntime) -> Result<(), Fail> {
    let rows = &[
        (7, 0, Outcome::Returned(2)),
        (-7, 0, Outcome::Returned(-2)),
        (-2, 0, Outcome::Returned(0)),
        (7, 1, Outcome::Returned(-2)),
        (-7, 1, Outcome::Returned(2)),
        (7, 2, Outcome::Returned(1)),
        (-7, 2, Outcome::Returned(-1)),
        (7, 3, Outcome::Returned(1)),
        (-7, 3, Outcome::Returned(-1)),
        (5, 4, Outcome::Returned(-5)),
        (i64::MIN, 4, Outcome::Stopped),
        (i64::MAX, 4, Outcome::Returned(-i64::MAX)),
        (5, 5, Outcome::Returned(0)),
        (i64::MIN, 5, Outcome::Stopped),
        (-9, 6, Outcome::Returned(-4)),
        (-9, 7, Outcome::Returned(-1)),
        (9, 8, Outcome::Returned(1)),
        (0, 9, Outcome::Returned(3)),
        (i64::MAX, 10, Outcome::Returned(8388607)),
        (i64::MIN, 10, Outcome::Returned(-8388608)),
    ];
    for &(dividend, how, outcome) in rows {
        let run = run(rt.alloc(), DIVISIONS, &[dividend, how], 1000)?;
        assert_eq!(rt; run, Replayed { outcome, used: 2 }, "on {dividend}, {how}");
    }
    Ok(())
}
