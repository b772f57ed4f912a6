//! Texts at a limit, and one beyond it.

use crate::answers::{Answer, read_and_print};
use std::alloc::{AllocError, Global};
use std::test::*;

/// What of a text is counted.
#[derive(Clone, Copy, Debug, PartialEq, Eq)]
enum Kind {
    /// Bytes of the source.
    Source,
    /// Branches, each the first side of the one before.
    Branches,
    /// Parts of a row.
    Parts,
}

const SIZES: &[(Kind, usize, Answer)] = &[
    (Kind::Source, 65_536, Answer::Same),
    (Kind::Source, 65_537, Answer::NotBundle),
    (Kind::Branches, 512, Answer::Same),
    (Kind::Branches, 513, Answer::NotBundle),
    (Kind::Parts, 1024, Answer::Same),
    (Kind::Parts, 1025, Answer::NotBundle),
];

fn source(text: &mut String, size: usize) -> Result<(), AllocError> {
    write!(text, "smash-bundle 1\nsource {size}\n")?;
    for _ in 0..size {
        text.push_str(" ")?;
    }
    text.push_str("\nassert 1\nclaims 0\n")
}

fn head(text: &mut String) -> Result<(), AllocError> {
    text.push_str("smash-bundle 1\nsource 0\n\nassert 1\nclaims 1\nclaim 0 return\ncube 0\n")
}

fn branches(text: &mut String, size: usize) -> Result<(), AllocError> {
    head(text)?;
    text.push_str("cube 0\nmoves 1\nkill 0 1 1\n")?;
    for _ in 0..size {
        text.push_str("branch 0 0 0\n")?;
    }
    for _ in 0..size {
        text.push_str("close 0\n")?;
    }
    text.push_str("close 0\n")
}

fn parts(text: &mut String, size: usize) -> Result<(), AllocError> {
    head(text)?;
    write!(text, "cube 1\nrow {size} ")?;
    for column in 0..size {
        write!(text, "{column} 1 ")?;
    }
    text.push_str("0\nmoves 0\n")
}

fn text_of(alloc: Global, kind: Kind, size: usize) -> Result<String, AllocError> {
    let mut text = String::new(alloc);
    match kind {
        Kind::Source => source(&mut text, size)?,
        Kind::Branches => branches(&mut text, size)?,
        Kind::Parts => parts(&mut text, size)?,
    }
    Ok(text)
}

#[test]
fn sizes(rt: HostRuntime) -> Result<(), Fail> {
    for &(kind, size, want) in SIZES {
        let text = text_of(rt.alloc(), kind, size)?;
        let got = read_and_print(rt.alloc(), text.as_bytes());
        assert_eq!(rt; got, want, "{kind:?} {size}");
    }
    Ok(())
}
