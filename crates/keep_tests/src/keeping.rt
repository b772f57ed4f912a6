//! Which summaries are kept, by those that say nothing: no run meets their start, so they hold of
//! every program.

ghost use Rattle.std.specs.Prelude.{IfOk, map};
ghost use Rattle.keep_tests.specs.Impossible.{AreImpossible, SayNothing, SaysNothing};

use linear_formula::error::OutOfMemory;
use linear_formula::formula::{Atom, Atoms, Cube};
use linear_formula::term::{Parts, Term};
use std::alloc::Global;
use std::sync::Arc;
use std::test::Fail;
use summary_form::query::{ExitKind, Query};
use summary_form::summary::Summary;
use summary_keep::keep::keep;
use summary_keep::matching::matching;
use test_programs::program::program_of;

/// 1 is at most 0.
fn never(alloc: Global) -> Result<Cube, OutOfMemory>
    ensures { IfOk result (λ c. AreImpossible c.atoms) }
{
    let term = Term::new(Parts::from_vec(Vec::new(alloc)), 1);
    let mut atoms = Atoms::new(alloc);
    atoms.push(Atom { term })?;
    Ok(Cube { atoms })
}

/// The procedure and the exit kind of a summary.
type About = (u32, ExitKind);

fn about(alloc: Global, about: About) -> Result<Arc<Summary>, OutOfMemory>
    ensures { IfOk result (λ s. SaysNothing s.value) }
{
    let start = never(alloc)?;
    let query = Query {
        proc: about.0,
        exit: about.1,
        start,
        end: Cube {
            atoms: Atoms::new(alloc),
        },
    };
    Ok(Arc::new(alloc, Summary::NotMay(query))?)
}

fn about_all(alloc: Global, four: [About; 4]) -> Result<Vec<Arc<Summary>>, OutOfMemory>
    ensures { IfOk result (λ v. SayNothing (map (λ a. a.value) v.items)) }
{
    let first = about(alloc, four[0])?;
    let second = about(alloc, four[1])?;
    let third = about(alloc, four[2])?;
    let fourth = about(alloc, four[3])?;
    Ok(vec![in alloc; first, second, third, fourth]?)
}

/// What is about which, in order.
fn kept_of(summaries: &[Arc<Summary>]) -> [Option<About>; 4] {
    let mut four = [None; 4];
    for place in 0..4 {
        if let Some(summary) = summaries.get(place) {
            four[place] = match &**summary {
                Summary::NotMay(query) => Some((query.proc, query.exit)),
                Summary::Must(_) => None,
            };
        }
    }
    four
}

/// What is kept of four summaries of an old source.
fn kept(alloc: Global, old: &str, new: &str) -> Result<[Option<About>; 4], Fail> {
    let old = program_of(alloc, old.as_bytes())?;
    let new = program_of(alloc, new.as_bytes())?;
    let pairs = matching(alloc, &old, &new)?;
    let summaries = about_all(alloc, OLD)?;
    Ok(kept_of(&keep(alloc, &old, &new, &pairs, &summaries)?))
}

const SOURCE: &str = "int f(int a) { assert(a != 1); return a; } \
     int g(int a) { assert(a != 2); assert(a != 3); return a; } \
     int main() { return f(4) + g(5); }";

const OLD: [About; 4] = [
    (1, ExitKind::Fail(2)),
    (0, ExitKind::Return),
    (1, ExitKind::Fail(3)),
    (2, ExitKind::Fail(0)),
];

/// A new source, and what is kept.
const ROWS: &[(&str, [Option<About>; 4])] = &[
    (
        SOURCE,
        [
            Some((1, ExitKind::Fail(2))),
            Some((0, ExitKind::Return)),
            Some((2, ExitKind::Fail(0))),
            None,
        ],
    ),
    // procedures in another order
    (
        "int g(int a) { assert(a != 2); assert(a != 3); return a; } \
         int f(int a) { assert(a != 1); return a; } \
         int main() { return f(4) + g(5); }",
        [
            Some((0, ExitKind::Fail(1))),
            Some((1, ExitKind::Return)),
            Some((2, ExitKind::Fail(2))),
            None,
        ],
    ),
    // one assertion more in the first, which main calls
    (
        "int f(int a) { assert(a != 0); assert(a != 1); return a; } \
         int g(int a) { assert(a != 2); assert(a != 3); return a; } \
         int main() { return f(4) + g(5); }",
        [Some((1, ExitKind::Fail(3))), None, None, None],
    ),
    // all have other bodies
    (
        "int f(int a) { return a; } int g(int a) { return a; } int main() { return f(4); }",
        [None; 4],
    ),
];

fn right_rows(alloc: Global) -> Result<usize, Fail> {
    for (place, (new, wanted)) in ROWS.iter().enumerate() {
        if kept(alloc, SOURCE, new)? != *wanted {
            return Ok(place);
        }
    }
    Ok(ROWS.len())
}

#[test]
fn summaries_are_kept_with_new_numbers(rt: HostRuntime) -> Result<(), Fail> {
    assert_eq!(rt; right_rows(rt.alloc())?, 4);
    Ok(())
}
