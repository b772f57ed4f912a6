//! Claims as they stand in a text: right ones, and the same with one thing wrong.

use crate::sources::graphs;
use bundle_check::{Checked, check_bundle};
use proof_bundle::bundle::Bundle;
use proof_bundle::read_bundle;
use std::alloc::Global;
use std::test::Fail;
use test_programs::program::program_of;

/// No run fails. Edge 7 leads to the assertion, whose node has region 11, and edge 10 on to the
/// failure, which has region 2.
const HOLDS: &str = "int main(){ int x; x = input(); if (x > 0) { assert(x > 0); } return 0; }";

/// The same graph, but for the assertion: a run fails at 1.
const FAILS: &str = "int main(){ int x; x = input(); if (x > 0) { assert(x > 4); } return 0; }";

/// No run fails. Edge 8 leads to the second call, whose node has region 12, and edge 10 is that
/// call.
const CALLS: &str =
    "int f(int x){ return x + 1; } int main(){ int x; x = f(input()); if (x > 5) { x = f(x); assert(x > 5); } return 0; }";

// Of one claim, with as many moves as the name says
const TWO: &str = "1\nclaim 0 fail 0\ncube 0\ncube 0\nmoves 2\n";

const THREE: &str = "1\nclaim 0 fail 0\ncube 0\ncube 0\nmoves 3\n";

const FOUR: &str = "1\nclaim 0 fail 0\ncube 0\ncube 0\nmoves 4\n";

/// Where the assertion fails `x <= 0`.
const SPLIT: &str = "split 10 11 2\ncube 1\nrow 1 0 1 0\n";

/// From `x <= 0` and `x > 0`.
const KILL: &str = "kill 7 8 11\nclose 1\nderive 2 0 1 1 1 1\nrow 0 1\n";

/// By `x <= 5` and `x <= 0`, which follow where the assertion fails. Region 14 is new, where
/// `x > 5`, and region 15, where `x <= 5` and `x > 0`.
const SPLIT_APART: &str = "split 0 11 11\ncube 2\nrow 1 0 1 -5\nrow 1 0 1 0\n";

/// From region 14 it doesn't fail.
const KILL_FIRST: &str = "kill 10 14 2\nclose 1\nderive 2 0 1 1 1 1\nrow 0 6\n";

/// Nor from region 15.
const KILL_SECOND: &str = "kill 10 15 2\nclose 1\nderive 2 1 1 2 1 1\nrow 0 1\n";

/// Nor does it from either.
const KILL_EACH: &str = "kill 10 14 2\nclose 1\nderive 2 0 1 1 1 1\nrow 0 6\n\
    kill 10 15 2\nclose 1\nderive 2 1 1 2 1 1\nrow 0 1\n";

/// From `x <= 5` and `x <= 0`, and `x > 0`.
const KILL_INTO: &str = "kill 7 8 11\nclose 1\nderive 2 1 1 2 1 1\nrow 0 1\n";

/// Where the assertion that fails at 1 does `x <= 4`.
const SPLIT_AT_4: &str = "split 10 11 2\ncube 1\nrow 1 0 1 -4\n";

/// Of three claims the first, that no run of `main` fails, up to the split at the call.
const MAIN: &str = "3\nclaim 1 fail 0\ncube 0\ncube 0\nmoves 7\n\
    call 6 10 2 1 0\n\
    call 10 12 2 1 0\n\
    split 13 14 2\ncube 1\nrow 1 0 1 -5\n\
    split 11 15 14\ncube 1\nrow 1 1 1 -5\n";

/// The rest of it: `x <= 5` doesn't reach the call, and from `x > 5` it isn't back with at most
/// 5, by claim 2.
const CALL: &str = "split 0 12 12\ncube 1\nrow 1 0 1 -5\n\
    kill 8 8 12\nclose 1\nderive 2 0 1 1 1 1\nrow 0 1\n\
    call 10 19 15 2 1\nclose 1\nderive 2 0 1 2 1 1\nrow 0 2\n";

/// That no run of `f` fails, and that none from at least 5 is back with at most 5, up to the entry.
const CALLED: &str = "claim 0 fail 0\ncube 0\ncube 0\nmoves 0\n\
    claim 0 return\ncube 1\nrow 1 10000 -1 5\ncube 1\nrow 1 20000 1 -5\nmoves 4\n\
    split 5 7 1\ncube 1\nrow 1 1 1 -5\n\
    split 4 6 7\ncube 1\nrow 1 0 1 -4\n\
    split 1 5 6\ncube 1\nrow 1 0 1 -4\n";

/// The rest of that: from `x >= 5` and `x <= 4`.
const ENTRY: &str = "kill 0 0 5\nclose 1\nderive 2 0 1 1 1 1\nrow 0 1\n";

/// What is tried, a source, the pieces of the claims after `claims `, and what is said of them.
type Text = (&'static str, &'static str, [&'static str; 4], Checked);

const RIGHT: Checked = Checked::Right;

const FIRST: Checked = Checked::Wrong { claim: 0 };

const TEXTS: &[Text] = &[
    (
        "a split over an edge and a kill",
        HOLDS,
        [TWO, SPLIT, KILL, ""],
        RIGHT,
    ),
    (
        "a split by another atom",
        HOLDS,
        [
            TWO,
            "split 10 11 2\ncube 1\nrow 1 0 1 1\n",
            "kill 7 8 11\nclose 1\nderive 2 0 1 1 1 1\nrow 0 2\n",
            "",
        ],
        FIRST,
    ),
    (
        "a split by no atom",
        HOLDS,
        [THREE, "split 10 11 2\ncube 0\n", SPLIT, KILL],
        FIRST,
    ),
    (
        "a certificate of another row",
        HOLDS,
        [
            TWO,
            SPLIT,
            "kill 7 8 11\nclose 1\nderive 2 0 1 2 1 1\nrow 0 1\n",
            "",
        ],
        FIRST,
    ),
    (
        "a kill of an edge that isn't live",
        HOLDS,
        [THREE, SPLIT, KILL, KILL],
        FIRST,
    ),
    (
        "a path that is left",
        HOLDS,
        [TWO, SPLIT, "split 0 8 8\ncube 1\nrow 1 0 1 0\n", ""],
        FIRST,
    ),
    (
        "a multiplier below 0",
        FAILS,
        [
            TWO,
            SPLIT_AT_4,
            "kill 7 8 11\nclose 1\nderive 2 0 -1 1 -1 1\nrow 0 3\n",
            "",
        ],
        FIRST,
    ),
    (
        "a divisor below 0",
        FAILS,
        [
            TWO,
            SPLIT_AT_4,
            "kill 7 8 11\nclose 1\nderive 2 0 1 1 1 -1\nrow 0 3\n",
            "",
        ],
        FIRST,
    ),
    (
        "a split of a region and two kills",
        HOLDS,
        [
            THREE,
            "split 0 11 11\ncube 1\nrow 1 0 1 0\n",
            KILL,
            "kill 10 14 2\nclose 1\nderive 2 0 1 1 1 1\nrow 0 1\n",
        ],
        RIGHT,
    ),
    (
        "a split of a region, and a kill from each new piece",
        HOLDS,
        [FOUR, SPLIT_APART, KILL_EACH, KILL_INTO],
        RIGHT,
    ),
    (
        "no kill from the last new piece",
        HOLDS,
        [THREE, SPLIT_APART, KILL_FIRST, KILL_INTO],
        FIRST,
    ),
    (
        "no kill from the first new piece",
        HOLDS,
        [THREE, SPLIT_APART, KILL_SECOND, KILL_INTO],
        FIRST,
    ),
    (
        "a kill from the piece before the new ones",
        HOLDS,
        [
            FOUR,
            SPLIT_APART,
            "kill 10 13 2\nclose 1\nderive 2 0 1 1 1 1\nrow 0 6\nkill 10 15 2\nclose 1\nderive 2 1 1 2 1 1\nrow 0 1\n",
            KILL_INTO,
        ],
        FIRST,
    ),
    (
        "a split of a region by an exit value",
        HOLDS,
        [THREE, "split 0 8 8\ncube 1\nrow 1 20000 1 0\n", SPLIT, KILL],
        FIRST,
    ),
    (
        "a split at the exit",
        HOLDS,
        [THREE, "split 0 1 1\ncube 1\nrow 1 0 1 0\n", SPLIT, KILL],
        FIRST,
    ),
    (
        "a split at the failure",
        HOLDS,
        [THREE, "split 0 2 2\ncube 1\nrow 1 0 1 0\n", SPLIT, KILL],
        FIRST,
    ),
    (
        "a split at a call, and a kill of it by a claim",
        CALLS,
        [MAIN, CALL, CALLED, ENTRY],
        RIGHT,
    ),
    (
        "a certificate short",
        CALLS,
        [
            MAIN,
            "split 0 12 12\ncube 1\nrow 1 0 1 -5\nkill 8 8 12\nclose 1\nderive 2 0 1 1 1 1\nrow 0 1\ncall 10 19 15 2 0\n",
            CALLED,
            ENTRY,
        ],
        FIRST,
    ),
    (
        "the claim before",
        CALLS,
        [
            MAIN,
            "split 0 12 12\ncube 1\nrow 1 0 1 -5\nkill 8 8 12\nclose 1\nderive 2 0 1 1 1 1\nrow 0 1\ncall 10 19 15 1 0\n",
            CALLED,
            ENTRY,
        ],
        FIRST,
    ),
    (
        "a certificate of the last claim",
        CALLS,
        [
            MAIN,
            CALL,
            CALLED,
            "kill 0 0 5\nclose 1\nderive 2 0 1 1 1 1\nrow 0 2\n",
        ],
        Checked::Wrong { claim: 2 },
    ),
];

/// The bundle of claims without their source, which isn't looked at.
fn bundle_of(alloc: Global, claims: &[&str; 4]) -> Result<Bundle, Fail> {
    let mut text = String::new(alloc);
    text.push_str("smash-bundle 1\nsource 0\n\nassert 1\nclaims ")?;
    for piece in claims {
        text.push_str(piece)?;
    }
    Ok(read_bundle(alloc, text.as_bytes())?)
}

/// What is said of claims about the first assertion of a source.
fn said(alloc: Global, source: &str, claims: &[&str; 4]) -> Result<Checked, Fail> {
    let program = program_of(alloc, source.as_bytes())?;
    let graphs = graphs(alloc, &program)?;
    let bundle = bundle_of(alloc, claims)?;
    Ok(check_bundle(alloc, &bundle, &program, &graphs)?)
}

/// What is right is accepted; with one thing wrong, its claim is named.
#[test]
fn claims_of_texts(rt: HostRuntime) -> Result<(), Fail> {
    for &(name, source, claims, want) in TEXTS {
        let got = said(rt.alloc(), source, &claims)?;
        assert_eq!(rt; got, want, "{name}");
    }
    Ok(())
}
