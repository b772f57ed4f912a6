//! Edges of plain numbers and rows.

ghost use Rattle.std.specs.Prelude.{◌≡◌, true, IfOk};
ghost use Rattle.flow_graph.specs.Shapes.{is_call};

use crate::rows::{Row, cube_of};
use flow_graph::graph::{Edge, Lin, LinParts, Slots};
use linear_formula::error::LinError;
use std::alloc::Global;

/// What an edge does, between two nodes.
#[derive(Clone, Copy)]
pub enum Does<'a> {
    /// The slot gets the sum of multiples of slots and of a constant.
    Assign(u32, Row<'a>),
    /// The rows hold.
    Guard(&'a [Row<'a>]),
    /// The slot gets an input.
    Input(u32),
    /// The slot gets a value with which the rows hold.
    Pick(u32, &'a [Row<'a>]),
    /// The procedure runs with the values of slots, and then the results get what it returns.
    Call {
        proc: u32,
        args: &'a [u32],
        results: &'a [u32],
    },
    /// The rows hold, and the assertion of this number fails.
    Assert(u32, &'a [Row<'a>]),
    /// The values of the slots are returned.
    Return(&'a [u32]),
}

/// The node that the edge leaves, the one that it leads to, and what it does.
pub type Step<'a> = (u32, u32, Does<'a>);

/// The exact value of multiples of slots and a constant.
fn lin_of(alloc: Global, row: &Row) -> Result<Lin, LinError> {
    let parts = LinParts::from_vec(Vec::from_slice(alloc, row.0)?);
    Ok(Lin {
        parts,
        constant: row.1,
    })
}

fn slots_of(alloc: Global, slots: &[u32]) -> Result<Slots, LinError> {
    Ok(Slots::from_vec(Vec::from_slice(alloc, slots)?))
}

/// A call from one node to another.
pub fn call_of(
    alloc: Global,
    ends: (u32, u32),
    proc: u32,
    args: &[u32],
    results: &[u32],
) -> Result<Edge, LinError>
    ensures { IfOk result (λ edge. is_call edge ≡ true) }
{
    let args = slots_of(alloc, args)?;
    Ok(Edge::Call {
        from: ends.0,
        to: ends.1,
        proc,
        args,
        results: slots_of(alloc, results)?,
    })
}

/// The edge.
pub fn edge_of(alloc: Global, step: &Step) -> Result<Edge, LinError> {
    let (from, to, does) = *step;
    match does {
        Does::Assign(slot, row) => Ok(Edge::Assign {
            from,
            to,
            slot,
            value: lin_of(alloc, &row)?,
        }),
        Does::Guard(rows) => Ok(Edge::Guard {
            from,
            to,
            rows: cube_of(alloc, rows)?,
        }),
        Does::Input(slot) => Ok(Edge::Input { from, to, slot }),
        Does::Pick(slot, rows) => Ok(Edge::Pick {
            from,
            to,
            slot,
            rows: cube_of(alloc, rows)?,
        }),
        Does::Call {
            proc,
            args,
            results,
        } => call_of(alloc, (from, to), proc, args, results),
        Does::Assert(id, rows) => Ok(Edge::Assert {
            from,
            to,
            id,
            rows: cube_of(alloc, rows)?,
        }),
        Does::Return(slots) => Ok(Edge::Return {
            from,
            to,
            slots: slots_of(alloc, slots)?,
        }),
    }
}
