//! What the table of a board that is over says of a call.

use crate::programs::{THREE_DEEP, board_of};
use bolt_core::board::Board;
use bolt_rounds::alone::alone;
use call_bridge::preimage_of;
use flow_graph::graph::Edge;
use flow_graph::graphs::Graphs;
use lia_solver::entails::entails;
use lia_solver::solved::Entailed;
use linear_formula::error::OutOfMemory;
use linear_formula::formula::Cube;
use std::alloc::Global;
use std::sync::Arc;
use std::test::Fail;
use summary_form::path::Path;
use summary_form::summary::Summary;
use test_forms::rows::{Row, cube_of, empty};

/// The procedures of `h` and of `g`, which calls it.
const H: u32 = 0;

const G: u32 = 1;

/// The first must of the procedure.
fn must_of(table: &[Arc<Summary>], proc: u32) -> Option<&Path> {
    for summary in table {
        if let Summary::Must(path) = &**summary {
            if path.proc == proc {
                return Some(path);
            }
        }
    }
    None
}

/// The first call of the procedure.
fn call_in(graphs: &Graphs, caller: u32) -> Option<&Edge> {
    let graph = graphs.graphs.as_slice().get(caller as usize)?;
    graph.edges.as_slice().iter().find(|edge| edge.is_call())
}

/// The slots that the call passes, with 2 in the first and 40 in the second.
fn wanted(alloc: Global, call: &Edge) -> Result<Cube, Fail> {
    let Edge::Call { args, .. } = call else {
        return Err(Fail::new("no call"));
    };
    let [first, second] = args.as_slice() else {
        return Err(Fail::new("not two arguments"));
    };
    let (a, b) = ([(1, *first)], [(1, *second)]);
    let (c, d) = ([(-1, *first)], [(-1, *second)]);
    let rows: [Row; 4] = [(&a, -2), (&c, 2), (&b, -40), (&d, 40)];
    Ok(cube_of(alloc, &rows)?)
}

fn follows(alloc: Global, from: &Cube, to: &Cube) -> Result<bool, OutOfMemory> {
    Ok(matches!(&entails(alloc, from, to)?, Entailed::Yes(_)))
}

/// Whether the failure of `h` comes from just these values of the call's arguments.
fn comes_from(alloc: Global, must: &Path, call: &Edge) -> Result<bool, Fail> {
    if !call.is_call() {
        return Err(Fail::new("no call"));
    }
    let before = preimage_of(alloc, must, call, &empty(alloc))?.cube;
    let wanted = wanted(alloc, call)?;
    Ok(follows(alloc, &before, &wanted)? && follows(alloc, &wanted, &before)?)
}

fn fails_at(alloc: Global, board: &Board) -> Result<bool, Fail> {
    let must = must_of(board.table().all(), H).ok_or("no must of h")?;
    let call = call_in(board.graphs(), G).ok_or("no call of h")?;
    comes_from(alloc, must, call)
}

/// `h` fails on 2 and 40 alone.
#[test]
fn the_must_of_the_callee_is_met_by_its_arguments(rt: HostRuntime) -> Result<(), Fail> {
    let (board, _) = board_of(rt.alloc(), THREE_DEEP, 2000)?;
    let board = alone(rt.alloc(), board)?;
    assert!(rt; fails_at(rt.alloc(), &board)?);
    Ok(())
}
