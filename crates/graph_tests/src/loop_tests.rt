//! Preimages over the edges of a loop: slots meet one exactly where a step over the edge leads into
//! its target.

use crate::programs::{hold, lin_value};
use flow_build::build::build;
use flow_graph::graph::Edge;
use flow_graph::graphs::Graphs;
use linear_formula::formula::Cube;
use shadow_elim::shadow::Pre;
use std::alloc::Global;
use std::test::Fail;
use test_forms::rows::{Row, cube_of};
use test_programs::program::program_of;
use weakest_pre::preimage::pre;

/// A lock is taken and given back; `n` changes where it is given back. The slots are those of
/// `lock`, `n`, `old`, and one for what is worked out on the way.
const LOCK_LOOP: &str = "int main() { int lock = 0; int n = input(); int old = 0;
  do {
    assert(lock == 0);
    lock = 1;
    old = n;
    if (input() > 0) { lock = 0; n = n + 1; }
  } while (n != old);
  assert(lock == 1);
  return 0;
}";

/// The slots of the loop.
const SLOTS: u32 = 4;

/// The values of the slots that are tried.
const VALUES: &[i64] = &[i64::MIN, -1, 0, 1, i64::MAX];

const TARGETS: &[&[Row]] = &[
    &[],
    &[(&[(-1, 0)], 1)],
    &[(&[(1, 0)], 0), (&[(-1, 0)], 0)],
    &[(&[(1, 1), (-1, 2)], 1)],
    &[
        (&[(1, 1), (-1, 2)], 0),
        (&[(-1, 1), (1, 2)], 0),
        (&[(1, 0)], -1),
        (&[(-1, 0)], 1),
    ],
    &[(&[(-1, 1), (1, 2)], 1), (&[(-1, 2)], 0)],
    &[(&[(1, 1), (-1, 3)], 0), (&[(1, 3)], -1)],
];

/// The preimage over an edge that isn't a call.
fn preimage(alloc: Global, edge: &Edge, target: &Cube) -> Result<Pre, Fail> {
    match edge {
        Edge::Call { .. } => Err(Fail::new("a call")),
        _ => Ok(pre(alloc, edge, target)?),
    }
}

/// Whether the target holds where the slot has the value.
fn holds_with(
    alloc: Global,
    slots: &[i64],
    slot: u32,
    value: i64,
    target: &Cube,
) -> Result<bool, Fail> {
    let mut slots = slots.to_vec(alloc)?;
    *slots.get_mut(slot as usize).ok_or("no slot")? = value;
    Ok(hold(&slots, target))
}

/// Whether a step over the edge leads from these slots into the target.
fn leads(alloc: Global, edge: &Edge, slots: &[i64], target: &Cube) -> Result<bool, Fail> {
    match edge {
        Edge::Guard { rows, .. } | Edge::Assert { rows, .. } => {
            Ok(hold(slots, rows) && hold(slots, target))
        }
        Edge::Assign { slot, value, .. } => match lin_value(slots, value) {
            Some(value) => holds_with(alloc, slots, *slot, value, target),
            None => Ok(false),
        },
        Edge::Input { slot, .. } => {
            for value in VALUES {
                if holds_with(alloc, slots, *slot, *value, target)? {
                    return Ok(true);
                }
            }
            Ok(false)
        }
        _ => Err(Fail::new("another edge")),
    }
}

/// The slots of a number, in base 5.
fn slots_of(alloc: Global, number: usize) -> Result<Vec<i64>, Fail> {
    let mut slots = Vec::new(alloc);
    let mut rest = number;
    for _ in 0..SLOTS {
        slots.push(*VALUES.get(rest % 5).ok_or("no value")?)?;
        rest /= 5;
    }
    Ok(slots)
}

/// The first slots that meet the preimage and don't lead into the target, or the other way round.
fn first_other(
    alloc: Global,
    edge: &Edge,
    before: &Pre,
    target: &Cube,
) -> Result<Option<usize>, Fail> {
    for number in 0..625 {
        let slots = slots_of(alloc, number)?;
        if hold(&slots, &before.cube) != leads(alloc, edge, &slots, target)? {
            return Ok(Some(number));
        }
    }
    Ok(None)
}

/// Whether the preimage is exact, and of the slots that are tried those that lead into the target
/// meet it.
fn is_exact(alloc: Global, edge: &Edge, target: &Cube) -> Result<bool, Fail> {
    let before = preimage(alloc, edge, target)?;
    Ok(before.inexact.is_none() && first_other(alloc, edge, &before, target)?.is_none())
}

/// How many of the targets have such a preimage.
fn right_of(alloc: Global, edge: &Edge) -> Result<usize, Fail> {
    let mut right: usize = 0;
    for rows in TARGETS {
        if is_exact(alloc, edge, &cube_of(alloc, rows)?)? {
            right = right.wrapping_add(1);
        }
    }
    Ok(right)
}

fn graphs_of(alloc: Global, text: &str) -> Result<Graphs, Fail> {
    let program = program_of(alloc, text.as_bytes())?;
    Ok(build(alloc, &program)?)
}

fn is_inner(edge: &Edge) -> bool {
    !matches!(edge, Edge::Entry { .. } | Edge::Return { .. })
}

#[test]
fn preimages_of_a_loop(rt: HostRuntime) -> Result<(), Fail> {
    let graphs = graphs_of(rt.alloc(), LOCK_LOOP)?;
    let graph = graphs.graphs.as_slice().first().ok_or("no graph")?;
    assert!(rt; graph.slots == SLOTS);
    for edge in graph.edges.as_slice() {
        if is_inner(edge) {
            assert!(rt; right_of(rt.alloc(), edge)? == TARGETS.len(), "{edge:?}");
        }
    }
    Ok(())
}
