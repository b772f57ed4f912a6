//! The edges of comparisons.

ghost use Rattle.std.specs.Prelude.{◌≡◌, ◌++◌, ◌∷◌, [], IfOk, OnOk};
ghost use Rattle.flow_build.specs.steps.Blocks.{way, ways};
ghost use Rattle.flow_build.specs.steps.Operands.{less, at_most, rows_where, opposite_op};

use crate::builder::Builder;
use crate::linear::{at_most, less};
use crate::operand::Operand;
use crate::target::Target;
use c_tree::tree::Op;
use flow_graph::graph::Edge;
use linear_formula::formula::{Atom, Atoms, Cube};
use std::alloc::{AllocError, Global};

/// The fixed node to which failed assertions lead.
pub const FAIL_NODE: u32 = 1;

fn one_row(alloc: Global, row: Atom) -> Result<Atoms, AllocError>
    ensures { IfOk result (λ rows. rows ≡ row ∷ []) }
{
    let mut rows = Atoms::with_capacity(alloc, 1)?;
    rows.push(row)?;
    Ok(rows)
}

pub fn two_rows(alloc: Global, first: Atom, second: Atom) -> Result<Atoms, AllocError>
    ensures { IfOk result (λ rows. rows ≡ first ∷ second ∷ []) }
{
    let mut rows = Atoms::with_capacity(alloc, 2)?;
    rows.push(first)?;
    rows.push(second)?;
    Ok(rows)
}

/// The edge to a target where the rows hold; to nowhere there is none.
fn push_way(b: &mut Builder, from: u32, target: Target, atoms: Atoms) -> Result<(), AllocError>
    ensures edges { OnOk result (b.new.edges.items ≡ b.old.edges.items ++ way from target atoms) }
    ensures next { b.new.next ≡ b.old.next }
{
    let rows = Cube { atoms };
    match target {
        Target::Node(to) => b.push(Edge::Guard { from, to, rows }),
        Target::Fails(id) => b.push(Edge::Assert {
            from,
            to: FAIL_NODE,
            id,
            rows,
        }),
        Target::Nowhere => Ok(()),
    }
}

/// The edge to a target where the left side is less.
fn push_less(
    b: &mut Builder,
    alloc: Global,
    from: u32,
    target: Target,
    left: Operand,
    right: Operand,
) -> Result<(), AllocError>
    ensures edges { OnOk result (b.new.edges.items ≡ b.old.edges.items ++ way from target
        (less left right ∷ [])) }
    ensures next { b.new.next ≡ b.old.next }
{
    let rows = one_row(alloc, less(alloc, left, right)?)?;
    push_way(b, from, target, rows)
}

/// The edge to a target where the left side is at most the right one.
fn push_at_most(
    b: &mut Builder,
    alloc: Global,
    from: u32,
    target: Target,
    left: Operand,
    right: Operand,
) -> Result<(), AllocError>
    ensures edges { OnOk result (b.new.edges.items ≡ b.old.edges.items ++ way from target
        (at_most left right ∷ [])) }
    ensures next { b.new.next ≡ b.old.next }
{
    let rows = one_row(alloc, at_most(alloc, left, right)?)?;
    push_way(b, from, target, rows)
}

/// The edge to a target where both sides are equal.
fn push_equal(
    b: &mut Builder,
    alloc: Global,
    from: u32,
    target: Target,
    left: Operand,
    right: Operand,
) -> Result<(), AllocError>
    ensures edges { OnOk result (b.new.edges.items ≡
        b.old.edges.items ++ way from target (at_most left right ∷ at_most right left ∷ [])) }
    ensures next { b.new.next ≡ b.old.next }
{
    let first = at_most(alloc, left, right)?;
    let rows = two_rows(alloc, first, at_most(alloc, right, left)?)?;
    push_way(b, from, target, rows)
}

/// The edges to a target where the comparison holds. For an unequal there are two, first the one
/// for greater.
fn push_ways(
    b: &mut Builder,
    alloc: Global,
    from: u32,
    target: Target,
    op: Op,
    left: Operand,
    right: Operand,
) -> Result<(), AllocError>
    ensures edges { OnOk result (b.new.edges.items ≡ b.old.edges.items ++ ways from target
        (rows_where op left right)) }
    ensures next { b.new.next ≡ b.old.next }
{
    match op {
        Op::Less => push_less(b, alloc, from, target, left, right),
        Op::LessEqual => push_at_most(b, alloc, from, target, left, right),
        Op::Greater => push_less(b, alloc, from, target, right, left),
        Op::GreaterEqual => push_at_most(b, alloc, from, target, right, left),
        Op::Equal => push_equal(b, alloc, from, target, left, right),
        Op::Unequal => {
            push_less(b, alloc, from, target, right, left)?;
            push_less(b, alloc, from, target, left, right)
        }
        Op::Add | Op::Subtract | Op::Multiply | Op::Divide | Op::Remainder | Op::And | Op::Or => Ok(
            (),
        ),
    }
}

fn opposite(op: Op) -> Op
    ensures { result ≡ opposite_op op }
{
    match op {
        Op::Less => Op::GreaterEqual,
        Op::LessEqual => Op::Greater,
        Op::Greater => Op::LessEqual,
        Op::GreaterEqual => Op::Less,
        Op::Equal => Op::Unequal,
        Op::Unequal => Op::Equal,
        op => op,
    }
}

/// The edges of a comparison, to one target where it holds and to another one where it doesn't.
pub fn compare(
    b: &mut Builder,
    alloc: Global,
    from: u32,
    op: Op,
    left: Operand,
    right: Operand,
    met: Target,
    unmet: Target,
) -> Result<(), AllocError>
    ensures edges { OnOk result (b.new.edges.items ≡
        b.old.edges.items ++ (ways from met (rows_where op left right) ++ ways from unmet
        (rows_where (opposite_op op) left right))) }
    ensures next { b.new.next ≡ b.old.next }
{
    push_ways(b, alloc, from, met, op, left, right)?;
    push_ways(b, alloc, from, unmet, opposite(op), left, right)
}
