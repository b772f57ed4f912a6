//! Texts of a few lines, good and bad.

use crate::answers::{Answer, read_and_print};
use proof_bundle::{Move, read_bundle};
use std::alloc::{AllocError, Global};
use std::test::*;

/// The lines before the claims.
const HEAD: &[u8] = b"smash-bundle 1\nsource 0\n\nassert 1\n";

/// The lines before the moves of the only claim.
const CLAIM: &[u8] = b"smash-bundle 1\nsource 0\n\nassert 1\nclaims 1\n\
    claim 0 fail 0\ncube 0\ncube 0\n";

/// The lines before the cube of the only move.
const SPLIT: &[u8] = b"smash-bundle 1\nsource 0\n\nassert 1\nclaims 1\n\
    claim 0 fail 0\ncube 0\ncube 0\nmoves 1\nsplit 0 1 1\n";

/// The lines before the certificate of the only move.
const KILL: &[u8] = b"smash-bundle 1\nsource 0\n\nassert 1\nclaims 1\n\
    claim 0 fail 0\ncube 0\ncube 0\nmoves 1\nkill 0 1 1\n";

/// Each kind of line, and numbers at the ends of their ranges.
const ALL: &[u8] = b"smash-bundle 1\n\
    source 6\n\
    // \xff\x00\n\
    \nassert 4294967296\n\
    claims 2\n\
    claim 4294967295 fail 4294967295\n\
    cube 0\n\
    cube 1\nrow 0 0\n\
    moves 4\n\
    split 0 1 1\n\
    cube 2\
    \nrow 2 0 1 4294967295 -1099511627776 -19342813113834066795298816\
    \nrow 1 7 1099511627776 19342813113834066795298816\n\
    kill 3 2 1\n\
    branch 1 4294967295 -9223372036854775808\n\
    derive 2 0 9223372036854775807 4294967295 -9223372036854775808 0\nrow 1 0 -1 1\n\
    close 0\n\
    branch 0 0 9223372036854775807\n\
    close 1\n\
    derive 0 -1\nrow 0 1\n\
    close 0\n\
    call 4294967295 0 0 2 2\n\
    close 0\n\
    close 0\n\
    call 1 2 3 4 0\n\
    claim 0 return\n\
    cube 1\nrow 1 0 1 0\n\
    cube 0\n\
    moves 0\n";

/// The name of a text, its two pieces, and what becomes of it.
type Text = (&'static str, &'static [u8], &'static [u8], Answer);

const GOOD: Answer = Answer::Same;

const BAD: Answer = Answer::NotBundle;

const TEXTS: &[Text] = &[
    ("each kind of line", ALL, b"", GOOD),
    ("no claims", HEAD, b"claims 0\n", GOOD),
    ("no moves", CLAIM, b"moves 0\n", GOOD),
    (
        "a source that is a line feed",
        b"",
        b"smash-bundle 1\nsource 1\n\n\nassert 1\nclaims 0\n",
        GOOD,
    ),
    ("nothing", b"", b"", BAD),
    (
        "another version",
        b"",
        b"smash-bundle 2\nsource 0\n\nassert 1\nclaims 0\n",
        BAD,
    ),
    (
        "a carriage return",
        b"",
        b"smash-bundle 1\r\nsource 0\n\nassert 1\nclaims 0\n",
        BAD,
    ),
    (
        "the length of the source is too small",
        b"",
        b"smash-bundle 1\nsource 0\n;\nassert 1\nclaims 0\n",
        BAD,
    ),
    (
        "the length of the source is too great",
        b"",
        b"smash-bundle 1\nsource 99\n;\nassert 1\nclaims 0\n",
        BAD,
    ),
    (
        "a leading 0",
        b"",
        b"smash-bundle 1\nsource 01\n;\nassert 1\nclaims 0\n",
        BAD,
    ),
    (
        "0 twice",
        b"",
        b"smash-bundle 1\nsource 00\n\nassert 1\nclaims 0\n",
        BAD,
    ),
    (
        "a plus",
        b"",
        b"smash-bundle 1\nsource +1\n;\nassert 1\nclaims 0\n",
        BAD,
    ),
    (
        "a minus",
        b"",
        b"smash-bundle 1\nsource -0\n\nassert 1\nclaims 0\n",
        BAD,
    ),
    (
        "a blank before a number",
        b"",
        b"smash-bundle 1\nsource  1\n;\nassert 1\nclaims 0\n",
        BAD,
    ),
    (
        "no number",
        b"",
        b"smash-bundle 1\nsource \n\nassert 1\nclaims 0\n",
        BAD,
    ),
    (
        "assertion 0",
        b"",
        b"smash-bundle 1\nsource 0\n\nassert 0\nclaims 0\n",
        BAD,
    ),
    (
        "an assertion beyond 2^32",
        b"",
        b"smash-bundle 1\nsource 0\n\nassert 4294967297\nclaims 0\n",
        BAD,
    ),
    ("no last line feed", HEAD, b"claims 0", BAD),
    ("a byte behind the last line", HEAD, b"claims 0\n\n", BAD),
    ("two blanks", HEAD, b"claims  0\n", BAD),
    ("a blank at the end of a line", HEAD, b"claims 0 \n", BAD),
    ("a tab", HEAD, b"claims\t0\n", BAD),
    ("fewer claims than their number", HEAD, b"claims 1\n", BAD),
    (
        "far fewer claims",
        HEAD,
        b"claims 18446744073709551615\n",
        BAD,
    ),
    (
        "a number of claims beyond 2^64",
        HEAD,
        b"claims 18446744073709551616\n",
        BAD,
    ),
    (
        "more claims than their number",
        CLAIM,
        b"moves 0\nclaim 0 return\ncube 0\ncube 0\nmoves 0\n",
        BAD,
    ),
    (
        "another exit",
        HEAD,
        b"claims 1\nclaim 0 end\ncube 0\ncube 0\nmoves 0\n",
        BAD,
    ),
    (
        "an assertion below 0",
        HEAD,
        b"claims 1\nclaim 0 fail -1\ncube 0\ncube 0\nmoves 0\n",
        BAD,
    ),
    (
        "a procedure beyond 32 bits",
        HEAD,
        b"claims 1\nclaim 4294967296 return\ncube 0\ncube 0\nmoves 0\n",
        BAD,
    ),
    (
        "one cube",
        HEAD,
        b"claims 1\nclaim 0 return\ncube 0\nmoves 0\n",
        BAD,
    ),
    (
        "another move",
        CLAIM,
        b"moves 1\nmerge 0 1 1\nclose 0\n",
        BAD,
    ),
    (
        "an edge without its second region",
        CLAIM,
        b"moves 1\nkill 0 1\nclose 0\n",
        BAD,
    ),
    (
        "fewer moves than their number",
        CLAIM,
        b"moves 2\nkill 0 1 1\nclose 0\n",
        BAD,
    ),
    (
        "more moves than their number",
        CLAIM,
        b"moves 1\nkill 0 1 1\nclose 0\nkill 0 1 1\nclose 0\n",
        BAD,
    ),
    (
        "fewer certificates than their number",
        CLAIM,
        b"moves 1\ncall 0 1 1 0 2\nclose 0\n",
        BAD,
    ),
    ("far fewer rows", SPLIT, b"cube 4294967295\nrow 0 0\n", BAD),
    (
        "fewer pairs than their number",
        SPLIT,
        b"cube 1\nrow 2 0 1 5\n",
        BAD,
    ),
    (
        "more pairs than their number",
        SPLIT,
        b"cube 1\nrow 1 0 1 5 1 0\n",
        BAD,
    ),
    ("coefficient 0", SPLIT, b"cube 1\nrow 1 5 0 3\n", BAD),
    (
        "columns that descend",
        SPLIT,
        b"cube 1\nrow 2 5 1 4 1 3\n",
        BAD,
    ),
    ("a column twice", SPLIT, b"cube 1\nrow 2 5 1 5 1 3\n", BAD),
    (
        "a column beyond 32 bits",
        SPLIT,
        b"cube 1\nrow 1 4294967296 1 3\n",
        BAD,
    ),
    (
        "a coefficient beyond 2^40",
        SPLIT,
        b"cube 1\nrow 1 5 1099511627777 3\n",
        BAD,
    ),
    (
        "a coefficient below -2^40",
        SPLIT,
        b"cube 1\nrow 1 5 -1099511627777 3\n",
        BAD,
    ),
    (
        "a constant beyond 2^84",
        SPLIT,
        b"cube 1\nrow 0 19342813113834066795298817\n",
        BAD,
    ),
    (
        "a constant below -2^84",
        SPLIT,
        b"cube 1\nrow 0 -19342813113834066795298817\n",
        BAD,
    ),
    ("the constant -0", SPLIT, b"cube 1\nrow 0 -0\n", BAD),
    (
        "a leading 0 behind a minus",
        SPLIT,
        b"cube 1\nrow 0 -01\n",
        BAD,
    ),
    (
        "a constant of many digits",
        SPLIT,
        b"cube 1\nrow 0 1000000000000000000000000000000000000000000000000000000000000000000000\n",
        BAD,
    ),
    (
        "a multiplier of 2^63",
        KILL,
        b"close 1\nderive 1 0 9223372036854775808 1\nrow 0 1\n",
        BAD,
    ),
    (
        "a multiplier below -2^63",
        KILL,
        b"close 1\nderive 1 0 -9223372036854775809 1\nrow 0 1\n",
        BAD,
    ),
    (
        "a divisor of 2^63",
        KILL,
        b"close 1\nderive 0 9223372036854775808\nrow 0 1\n",
        BAD,
    ),
    (
        "a derived row without its row",
        KILL,
        b"close 1\nderive 0 1\n",
        BAD,
    ),
    (
        "a bound of 2^63",
        KILL,
        b"branch 0 0 9223372036854775808\nclose 0\nclose 0\n",
        BAD,
    ),
    (
        "a branch with one side",
        KILL,
        b"branch 0 0 0\nclose 0\n",
        BAD,
    ),
    ("another certificate", KILL, b"open 0\n", BAD),
];

fn joined(alloc: Global, head: &[u8], lines: &[u8]) -> Result<Vec<u8>, AllocError> {
    let mut text = Vec::from_slice(alloc, head)?;
    text.extend_from_slice(lines)?;
    Ok(text)
}

/// Good texts are printed as they were, and bad ones aren't read.
#[test]
fn texts(rt: HostRuntime) -> Result<(), Fail> {
    for &(name, head, lines, want) in TEXTS {
        let text = joined(rt.alloc(), head, lines)?;
        let got = read_and_print(rt.alloc(), &text);
        assert_eq!(rt; got, want, "{name}");
    }
    Ok(())
}

/// What is read of each kind of line.
#[test]
fn each_kind_of_line(rt: HostRuntime) -> Result<(), Fail> {
    let bundle = read_bundle(rt.alloc(), ALL)?;
    let mut kinds: (u8, u8, u8) = (0, 0, 0);
    for claim in &bundle.claims {
        for one in claim.moves.as_slice() {
            match one {
                Move::Split { .. } => kinds.0 = kinds.0.saturating_add(1),
                Move::Kill { .. } => kinds.1 = kinds.1.saturating_add(1),
                Move::KillCall { .. } => kinds.2 = kinds.2.saturating_add(1),
            }
        }
    }
    let seen = (bundle.source.len(), bundle.id, bundle.claims.len(), kinds);
    drop(bundle);
    assert_eq!(rt; seen, (6, u32::MAX, 2, (1, 1, 2)));
    Ok(())
}
