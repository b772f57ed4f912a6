//! The rests of atoms over a call.

use call_bridge::rest_of;
use linear_formula::formula::{Atom, Cube};
use linear_formula::question::Question;
use linear_formula::term::{Parts, Term};
use shadow_elim::limit::{Kept, LimitKind};
use shadow_elim::projection::ProjectionError;
use shadow_elim::shadow::Pre;
use std::alloc::Global;
use std::test::Fail;
use summary_form::query::ExitKind;
use test_forms::edges::call_of;
use test_forms::rows::{Plain, Row, are_rows, cube_of, term_of};

/// A call of procedure 3, the rows behind it, an atom of the procedure, and what is left.
#[derive(Clone, Copy)]
struct Leaves<'a> {
    args: &'a [u32],
    results: &'a [u32],
    exit: ExitKind,
    target: &'a [Row<'a>],
    atom: Row<'a>,
    rows: &'a [Plain<'a>],
}

/// A call that passes slot 0 and puts what is returned into slot 1, and a result of at most 3.
const LEAVES: Leaves = Leaves {
    args: &[0],
    results: &[1],
    exit: ExitKind::Return,
    target: &[],
    atom: (&[(1, 20_000)], -3),
    rows: &[],
};

const RESTS: &[Leaves] = &[
    // from 4 to slot 2 is returned
    Leaves {
        target: &[(&[(1, 1), (-1, 2)], 0)],
        rows: &[(&[(2, -1)], 4)],
        ..LEAVES
    },
    // a failure at an argument of at least 6, whose target is one of the caller's
    Leaves {
        exit: ExitKind::Fail(7),
        target: &[(&[(1, 1), (-1, 0)], -7)],
        atom: (&[(1, 10_000)], -5),
        rows: &[(&[(0, -1), (1, 1)], -7), (&[(0, -1)], 6)],
        ..LEAVES
    },
    // the target's entry value is the caller's own, the atom's is slot 4 before the call: from 3 to
    // slot 4 less 1 is returned
    Leaves {
        args: &[4],
        target: &[(&[(1, 4), (-1, 10_000)], 0), (&[(-1, 1)], 3)],
        atom: (&[(1, 10_000), (-1, 20_000)], 0),
        rows: &[(&[(4, 1), (10_000, -1)], 0), (&[(4, -1)], 4)],
        ..LEAVES
    },
    // the result in the slot of the argument: from slot 1 and 1 to 9 is returned
    Leaves {
        args: &[1],
        target: &[(&[(1, 1)], -9)],
        atom: (&[(1, 20_000), (-1, 10_000)], 0),
        rows: &[(&[(1, 1)], -8)],
        ..LEAVES
    },
    // the second of three results, in slot 5: from slot 7 and 1 to 6 is returned
    Leaves {
        args: &[6, 7],
        results: &[4, 5, 4],
        target: &[(&[(1, 5)], -6)],
        atom: (&[(1, 20_001), (-1, 10_001)], 0),
        rows: &[(&[(7, 1)], -5)],
        ..LEAVES
    },
];

/// The rest over the call that passes and sets these slots.
fn rest(
    alloc: Global,
    leaves: &Leaves,
    target: &Cube,
    atom: &Atom,
) -> Result<Result<Pre, ProjectionError>, Fail> {
    let call = call_of(alloc, (1, 2), 3, leaves.args, leaves.results)?;
    Ok(rest_of(alloc, leaves.exit, &call, target, atom))
}

fn is_rest(pre: &Pre, rows: &[Plain]) -> bool {
    are_rows(&pre.cube, rows) && pre.inexact.is_none()
}

fn is_left(alloc: Global, leaves: &Leaves) -> Result<bool, Fail> {
    let target = cube_of(alloc, leaves.target)?;
    let atom = Atom {
        term: term_of(alloc, &leaves.atom)?,
    };
    let pre = rest(alloc, leaves, &target, &atom)??;
    Ok(is_rest(&pre, leaves.rows))
}

#[test]
fn leaves_the_rest(rt: HostRuntime) -> Result<(), Fail> {
    for (place, leaves) in RESTS.iter().enumerate() {
        assert!(rt; is_left(rt.alloc(), leaves)?, "{place}");
    }
    Ok(())
}

/// Reads: the entry value is at most the greatest constant of a term. The negation has a greater
/// one.
fn widest(alloc: Global) -> Result<Atom, Fail> {
    let parts = vec![in alloc; (10_000, 1)]?;
    let term = Term::new(Parts::from_vec(parts), -19_342_813_113_834_066_795_298_816);
    Ok(Atom { term })
}

/// The kind of a limit of a negation.
fn in_negation(kept: &Kept) -> Option<LimitKind> {
    match &kept.question {
        Question::Combine(summands, 1) if summands.as_slice().len() == 1 => Some(kept.limit.kind()),
        _ => None,
    }
}

fn limit_of(pre: &Result<Pre, ProjectionError>) -> Option<LimitKind> {
    match pre {
        Err(ProjectionError::Limit(kept)) => in_negation(kept),
        _ => None,
    }
}

#[test]
fn keeps_a_wide_negation(rt: HostRuntime) -> Result<(), Fail> {
    let target = cube_of(rt.alloc(), &[])?;
    let pre = rest(rt.alloc(), &LEAVES, &target, &widest(rt.alloc())?)?;
    assert!(rt; limit_of(&pre) == Some(LimitKind::Wide));
    Ok(())
}
