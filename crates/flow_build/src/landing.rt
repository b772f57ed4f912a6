//! Where values and tests leave off.

ghost use Rattle.std.specs.Prelude.{◌≡◌, ◌+◌, ◌<◌, ◌^◌, ◌++◌, ◌∷◌, [], ◌&&◌, not, pos, true, false, IfOk, OnOk, IsTrue};
ghost use Rattle.flow_graph.specs.declared.graph.Edge.TheVariants.{Assign};
ghost use Rattle.flow_build.specs.steps.Operands.{overflows_in_place, scaled_lin, constant_lin};
ghost use Rattle.flow_build.specs.steps.Building.{is_landed, copied, copied_node, copied_nodes, copied_operand};

use crate::builder::Builder;
use crate::constant::overflows_by;
use crate::linear::{constant_lin, operand_lin, scaled_lin};
use crate::operand::Operand;
use c_tree::tree::Slot;
use flow_graph::graph::Edge;
use std::alloc::{AllocError, Global};

/// Where a value leaves off.
#[derive(Clone, Copy)]
pub struct Landed {
    /// The node after it.
    pub node: u32,
    pub operand: Operand,
    /// The first slot that it doesn't take.
    pub slot: u32,
    /// A literal or a variable without edges of its own.
    pub in_place: bool,
}

/// A value in its own slot, the first of those that it takes.
pub fn in_slot(node: u32, own: u32, slot: u32) -> Landed
    ensures node { result.node ≡ node }
    ensures operand { result.operand ≡ Operand.Variable own }
    ensures slot { result.slot ≡ slot }
    ensures in_place { result.in_place ≡ false }
{
    Landed {
        node,
        operand: Operand::Variable(own),
        slot,
        in_place: false,
    }
}

/// A variable in place.
pub fn in_place(node: u32, variable: Slot, slot: u32) -> Landed
    ensures node { result.node ≡ node }
    ensures operand { result.operand ≡ Operand.Variable variable }
    ensures slot { result.slot ≡ slot }
    ensures in_place { result.in_place ≡ true }
{
    Landed {
        node,
        operand: Operand::Variable(variable),
        slot,
        in_place: true,
    }
}

/// Copies a value in place to the next slot, where it is to be kept.
pub fn kept_if(
    b: &mut Builder,
    alloc: Global,
    keep: bool,
    landed: Landed,
) -> Result<Landed, AllocError>
    requires room { b.old.next + 1 < 2 ^ 32 }
    requires slots { landed.slot + 1 < 2 ^ 32 }
    ensures edges { OnOk result (b.new.edges.items ≡ b.old.edges.items ++ copied keep landed
        b.old.next) }
    ensures next { OnOk result (b.new.next ≡ b.old.next + copied_nodes keep landed) }
    ensures node { IfOk result (λ l. l.node ≡ copied_node keep landed b.old.next) }
    ensures operand { IfOk result (λ l. l.operand ≡ copied_operand keep landed) }
    ensures slot { IfOk result (λ l. l.slot ≡ landed.slot + copied_nodes keep landed) }
    ensures in_place { IfOk result (λ l. l.in_place ≡ (not keep && landed.in_place)) }
{
    if !keep || !landed.in_place {
        return Ok(landed);
    }
    let to = b.node();
    let value = operand_lin(alloc, landed.operand)?;
    b.push(Edge::Assign {
        from: landed.node,
        to,
        slot: landed.slot,
        value,
    })?;
    Ok(in_slot(to, landed.slot, landed.slot + 1))
}

/// A multiple of what landed, from there to a node, in a slot.
pub fn multiple(
    b: &mut Builder,
    alloc: Global,
    coefficient: i64,
    landed: Landed,
    to: u32,
    slot: u32,
) -> Result<Landed, AllocError>
    requires room { b.old.next + 1 < 2 ^ 32 }
    requires slots { landed.slot + 1 < 2 ^ 32 }
    requires landed { IsTrue (is_landed landed) }
    ensures edges { OnOk result (let keep = overflows_in_place coefficient landed.operand in
        b.new.edges.items ≡
        b.old.edges.items ++ (copied keep landed b.old.next ++
        Assign (copied_node keep landed b.old.next) to slot
        (scaled_lin coefficient (copied_operand keep landed)) ∷ [])) }
    ensures next { OnOk result
        (b.new.next ≡ b.old.next + copied_nodes (overflows_in_place coefficient landed.operand)
        landed) }
    ensures node { IfOk result (λ l. l.node ≡ to) }
    ensures operand { IfOk result (λ l. l.operand ≡ Operand.Variable slot) }
    ensures slot { IfOk result
        (λ l. l.slot ≡ landed.slot + copied_nodes (overflows_in_place coefficient landed.operand)
        landed) }
    ensures in_place { IfOk result (λ l. l.in_place ≡ false) }
{
    let keep = overflows_by(coefficient, landed.operand);
    let landed = kept_if(b, alloc, keep, landed)?;
    let value = scaled_lin(alloc, coefficient, landed.operand)?;
    b.push(Edge::Assign {
        from: landed.node,
        to,
        slot,
        value,
    })?;
    Ok(in_slot(to, slot, landed.slot))
}

/// A node, and the first free slot there.
#[derive(Clone, Copy)]
pub struct Reached {
    pub node: u32,
    pub slot: u32,
}

/// The slot of an argument, and what is after it.
#[derive(Clone, Copy)]
pub struct ArgumentSlot {
    pub slot: Slot,
    pub last: Reached,
}

/// Both sides of an operation, the right one after the left one.
#[derive(Clone, Copy)]
pub struct BothSides {
    pub left: Operand,
    pub right: Landed,
}

/// The nodes at which a test becomes a value, and the one after them.
#[derive(Clone, Copy)]
pub struct Truth {
    pub to: u32,
    pub met: u32,
    pub unmet: u32,
}

pub fn truth_nodes(b: &mut Builder) -> Truth
    requires { b.old.next + 3 < 2 ^ 32 }
    ensures to { result.to ≡ b.old.next }
    ensures met { result.met ≡ b.old.next + 1 }
    ensures unmet { result.unmet ≡ b.old.next + 2 }
    ensures next { b.new.next ≡ b.old.next + 3 }
    ensures edges { b.new.edges.items ≡ b.old.edges.items }
{
    let to = b.node();
    let met = b.node();
    let unmet = b.node();
    Truth { to, met, unmet }
}

/// 1 where the test is met, and 0 where it isn't.
pub fn settle(
    b: &mut Builder,
    alloc: Global,
    truth: Truth,
    slot: u32,
    free: u32,
) -> Result<Landed, AllocError>
    ensures edges { OnOk result (b.new.edges.items ≡ b.old.edges.items ++
        Assign truth.met truth.to slot (constant_lin (pos 1)) ∷ Assign truth.unmet truth.to slot
        (constant_lin (pos 0)) ∷ []) }
    ensures next { b.new.next ≡ b.old.next }
    ensures node { IfOk result (λ l. l.node ≡ truth.to) }
    ensures operand { IfOk result (λ l. l.operand ≡ Operand.Variable slot) }
    ensures slot { IfOk result (λ l. l.slot ≡ free) }
    ensures in_place { IfOk result (λ l. l.in_place ≡ false) }
{
    b.push(Edge::Assign {
        from: truth.met,
        to: truth.to,
        slot,
        value: constant_lin(alloc, 1),
    })?;
    b.push(Edge::Assign {
        from: truth.unmet,
        to: truth.to,
        slot,
        value: constant_lin(alloc, 0),
    })?;
    Ok(in_slot(truth.to, slot, free))
}
