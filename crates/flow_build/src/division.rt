//! Division by a constant: the quotient is picked by rows that hold of it alone.

ghost use Rattle.std.specs.Prelude.{◌≡◌, ◌+◌, ◌<◌, ◌≤◌, ◌^◌, ◌++◌, ◌-ℤ◌, neg_ℤ, pos, negsuc, IfOk, OnOk, unsigned_abs};
ghost use Rattle.flow_build.specs.steps.Operands.{multiple_row, rows_above, rows_below};
ghost use Rattle.flow_build.specs.steps.Blocks.{edges_of};
ghost use Rattle.flow_build.specs.steps.Lowering.{picks, quotient_blocks, nodes_of_quotient};
ghost use Rattle.flow_build.specs.steps.Additions.{AddsBlocks};

use crate::branch::{compare, two_rows};
use crate::builder::Builder;
use crate::linear::{scaled_lin, weighted_row};
use crate::operand::Operand;
use crate::target::Target;
use c_tree::tree::{Op, Slot};
use flow_graph::graph::Edge;
use linear_formula::formula::{Atom, Atoms, Cube};
use std::alloc::{AllocError, Global};

/// The row `k * t - a + rest <= 0`.
fn multiple_less(alloc: Global, k: u64, a: Slot, t: Slot, rest: i64) -> Result<Atom, AllocError>
    requires magnitude { k ≤ 2 ^ 40 }
    requires rest { unsigned_abs rest ≤ 2 ^ 40 }
    ensures { IfOk result (λ atom. atom ≡ multiple_row (pos k) (negsuc 0) t a rest) }
{
    weighted_row(
        alloc,
        k as i64,
        Operand::Variable(t),
        -1,
        Operand::Variable(a),
        rest,
    )
}

/// The row `a - k * t + rest <= 0`.
fn less_multiple(alloc: Global, k: u64, a: Slot, t: Slot, rest: i64) -> Result<Atom, AllocError>
    requires magnitude { k ≤ 2 ^ 40 }
    requires rest { unsigned_abs rest ≤ 2 ^ 40 }
    ensures { IfOk result (λ atom. atom ≡ multiple_row (pos 1) (neg_ℤ (pos k)) a t rest) }
{
    weighted_row(
        alloc,
        1,
        Operand::Variable(a),
        -(k as i64),
        Operand::Variable(t),
        rest,
    )
}

/// The negative of the largest remainder by a magnitude.
fn largest_rest(k: u64) -> i64
    requires { k ≤ 2 ^ 40 }
    ensures value { result ≡ pos 1 -ℤ pos k }
    ensures small { unsigned_abs result ≤ 2 ^ 40 }
{
    1 - k as i64
}

/// The rows of the quotient by `k` in slot `t` of what slot `a` has, from 0 on.
fn rows_above(alloc: Global, k: u64, a: Slot, t: Slot) -> Result<Atoms, AllocError>
    requires { k ≤ 2 ^ 40 }
    ensures { IfOk result (λ rows. rows ≡ rows_above k a t) }
{
    let first = multiple_less(alloc, k, a, t, 0)?;
    two_rows(
        alloc,
        first,
        less_multiple(alloc, k, a, t, largest_rest(k))?,
    )
}

/// The rows of the quotient by `k` in slot `t` of what slot `a` has, below 0.
fn rows_below(alloc: Global, k: u64, a: Slot, t: Slot) -> Result<Atoms, AllocError>
    requires { k ≤ 2 ^ 40 }
    ensures { IfOk result (λ rows. rows ≡ rows_below k a t) }
{
    let first = less_multiple(alloc, k, a, t, 0)?;
    two_rows(
        alloc,
        first,
        multiple_less(alloc, k, a, t, largest_rest(k))?,
    )
}

/// From a node where a slot is at least 0, and from one where it is below, to a node where another
/// slot has its quotient by a magnitude.
fn push_picks(
    b: &mut Builder,
    alloc: Global,
    magnitude: u64,
    dividend: Slot,
    slot: Slot,
    above: u32,
    below: u32,
    to: u32,
) -> Result<(), AllocError>
    requires { magnitude ≤ 2 ^ 40 }
    ensures edges { OnOk result (b.new.edges.items ≡ b.old.edges.items ++ edges_of
        (picks magnitude dividend slot above below to)) }
    ensures next { b.new.next ≡ b.old.next }
{
    let rows = Cube {
        atoms: rows_above(alloc, magnitude, dividend, slot)?,
    };
    b.push(Edge::Pick {
        from: above,
        to,
        slot,
        rows,
    })?;
    let rows = Cube {
        atoms: rows_below(alloc, magnitude, dividend, slot)?,
    };
    b.push(Edge::Pick {
        from: below,
        to,
        slot,
        rows,
    })
}

/// The quotient of a slot by a divisor, from a node to another one. By a negative divisor it is the
/// negative of that by its magnitude, where that is a value.
pub fn push_quotient(
    b: &mut Builder,
    alloc: Global,
    divisor: i64,
    dividend: Slot,
    slot: Slot,
    from: u32,
    to: u32,
) -> Result<(), AllocError>
    requires divisor { unsigned_abs divisor ≤ 2 ^ 40 }
    requires room { b.old.next + 3 < 2 ^ 32 }
    ensures adds { OnOk result
        (AddsBlocks (quotient_blocks divisor dividend slot from to b.old.next)
        (nodes_of_quotient divisor) b.old b.new) }
{
    let above = b.node();
    let below = b.node();
    let a = Operand::Variable(dividend);
    let zero = Operand::Constant(0);
    let met = Target::Node(above);
    let unmet = Target::Node(below);
    compare(b, alloc, from, Op::GreaterEqual, a, zero, met, unmet)?;
    let magnitude = divisor.unsigned_abs();
    if divisor >= 0 {
        return push_picks(b, alloc, magnitude, dividend, slot, above, below, to);
    }
    let turned = b.node();
    push_picks(b, alloc, magnitude, dividend, slot, above, below, turned)?;
    let value = scaled_lin(alloc, -1, Operand::Variable(slot))?;
    b.push(Edge::Assign {
        from: turned,
        to,
        slot,
        value,
    })
}
