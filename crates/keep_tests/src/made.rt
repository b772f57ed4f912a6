//! Programs that no source has: of two procedures without a statement.

ghost use Rattle.std.specs.Prelude.{IfOk};
ghost use Rattle.c_tree.specs.View.{procedure_of};
ghost use Rattle.keep_tests.specs.Empty.{IsEmpty};

use c_tree::tree::{Procedure, Program};
use std::alloc::{AllocError, Global};
use std::test::Fail;
use summary_keep::matching::matching;

/// A procedure `f`, and the opening values of the globals.
#[derive(Clone, Copy)]
struct Shape {
    params: u32,
    slots: u32,
    gives: bool,
    globals: &'static [i64],
}

fn empty(
    alloc: Global,
    name: &str,
    params: u32,
    slots: u32,
    gives: bool,
) -> Result<Procedure, AllocError>
    ensures { IfOk result (λ p. IsEmpty (procedure_of p) params slots) }
{
    let name = String::from_str(alloc, name)?;
    let body = Vec::new(alloc);
    Ok(Procedure {
        name,
        params,
        slots,
        gives,
        body,
    })
}

/// The program of `f` and of a `main` that does nothing.
fn program(alloc: Global, shape: &Shape) -> Result<Program, Fail> {
    let Shape {
        params,
        slots,
        gives,
        globals,
    } = *shape;
    if params > 8 || params > slots || slots > 24 || globals.len() > 16 {
        return Err(Fail::new("past a limit"));
    }
    let globals = Vec::from_slice(alloc, globals)?;
    let f = empty(alloc, "f", params, slots, gives)?;
    let main = empty(alloc, "main", 0, 0, true)?;
    if f.name == main.name {
        return Err(Fail::new("one name"));
    }
    let asserts = Vec::new(alloc);
    let procedures = vec![in alloc; f, main]?;
    Ok(Program::new(procedures, 1, asserts, globals))
}

/// The new numbers of `f` and of `main`.
fn matched(alloc: Global, old: &Shape, new: &Shape) -> Result<[Option<u32>; 2], Fail> {
    let old = program(alloc, old)?;
    let new = program(alloc, new)?;
    let pairs = matching(alloc, &old, &new)?;
    let procs = pairs.procs.as_slice();
    if procs.len() != 2 || !pairs.asserts.is_empty() {
        return Err(Fail::new("not an entry for each"));
    }
    Ok([procs[0], procs[1]])
}

const OLD: Shape = Shape {
    params: 2,
    slots: 3,
    gives: true,
    globals: &[5, 6],
};

const BOTH: [Option<u32>; 2] = [Some(0), Some(1)];

const MAIN: [Option<u32>; 2] = [None, Some(1)];

const F: [Option<u32>; 2] = [Some(0), None];

const NONE: [Option<u32>; 2] = [None, None];

/// The new shape, and what is the same.
const ROWS: &[(Shape, [Option<u32>; 2])] = &[
    (OLD, BOTH),
    (Shape { params: 1, ..OLD }, MAIN),
    (Shape { slots: 4, ..OLD }, MAIN),
    (
        Shape {
            gives: false,
            ..OLD
        },
        MAIN,
    ),
    (
        Shape {
            globals: &[5, 7],
            ..OLD
        },
        F,
    ),
    (
        Shape {
            globals: &[6, 5],
            ..OLD
        },
        F,
    ),
    (
        Shape {
            globals: &[5, 6, 0],
            ..OLD
        },
        NONE,
    ),
    (
        Shape {
            globals: &[5],
            ..OLD
        },
        NONE,
    ),
];

fn all_matched(alloc: Global) -> Result<[[Option<u32>; 2]; 8], Fail> {
    let mut all = [NONE; 8];
    for place in 0..8 {
        all[place] = matched(alloc, &OLD, &ROWS[place].0)?;
    }
    Ok(all)
}

#[test]
fn other_counts_and_opening_values_part(rt: HostRuntime) -> Result<(), Fail> {
    let mut wanted = [NONE; 8];
    for place in 0..8 {
        wanted[place] = ROWS[place].1;
    }
    assert_eq!(rt; all_matched(rt.alloc())?, wanted);
    Ok(())
}
