//! Expressions.

ghost use Rattle.std.specs.Prelude.{◌≡◌, ◌+◌, ◌*◌, ◌<◌, ◌≤◌, ◌^◌, ◌++◌, ◌||◌, not, true, false, unsigned_abs, IfOk, OnOk, IsTrue};
ghost use Rattle.c_tree.specs.View.{expression_of, expressions_of};
ghost use Rattle.c_tree.specs.WellFormed.{nodes, nodes_all, is_divisor};
ghost use Rattle.c_tree.specs.Operators.{is_arithmetic, is_division};
ghost use Rattle.flow_build.specs.steps.Forms as form;
ghost use Rattle.flow_build.specs.steps.Layouts.{global_slots};
ghost use Rattle.flow_build.specs.steps.Operands.{is_operand};
ghost use Rattle.flow_build.specs.steps.Translation.{value_of, values_of, test_of, has_call, scaled, added, subtracted, in_slot as in_slot_value, kept_if as kept_value_if};
ghost use Rattle.flow_build.specs.steps.Lowering.{argument_slots};
ghost use Rattle.flow_build.specs.steps.Building.{is_landed, literals_fit, all_literals_fit, is_lowerable, are_lowerable};
ghost use Rattle.flow_build.specs.steps.Additions.{binary_value, binary_test, argument_of, HasRoom, TakesFew, TakesFewAll, Adds, AddsAll, AddsSlot, AddsBoth, AddsTest};

use crate::branch::compare;
use crate::builder::Builder;
use crate::constant::{
    constant_value, difference_overflows, divisor, has_call, have_call, overflows_by, sum_overflows,
};
use crate::division::push_quotient;
use crate::landing::{
    ArgumentSlot, BothSides, Landed, Reached, in_place, in_slot, kept_if, multiple, settle,
    truth_nodes,
};
use crate::layout::{Layout, push_globals, with_globals};
use crate::linear::{difference_lin, rest_lin, sum_lin};
use crate::operand::Operand;
use crate::target::Target;
use c_tree::tree::{Expr, Op, ProcId, Slot};
use flow_graph::graph::{Edge, Slots};
use std::alloc::{AllocError, Global};

/// An expression as a value, from a node on. Its slots are numbered from `t` on.
#[cycle(expressions)]
pub fn value(
    b: &mut Builder,
    alloc: Global,
    layout: Layout,
    e: &Expr,
    from: u32,
    t: u32,
) -> Result<Landed, AllocError>
    requires room { HasRoom (nodes (expression_of e.now)) t b.old }
    requires lowerable { IsTrue (is_lowerable (expression_of e.now)) }
    ensures adds { IfOk result (λ l. Adds (value_of layout (expression_of e.now)) from t b.old b.new
        l) }
    ensures few { IfOk result (λ l. TakesFew (nodes (expression_of e.now)) t b.old b.new l.slot) }
    ensures landed { IfOk result (λ l. IsTrue (is_landed l)) }
    ensures literals { OnOk result (IsTrue (literals_fit (expression_of e.now))) }
{
    match e {
        Expr::Literal(n) => Ok(Landed {
            node: from,
            operand: Operand::Constant(*n),
            slot: t,
            in_place: true,
        }),
        Expr::Read(x) => Ok(in_place(from, layout.variable(*x), t)),
        Expr::ReadGlobal(y) => Ok(in_place(from, layout.global(*y), t)),
        Expr::Input => {
            let to = b.node();
            b.push(Edge::Input { from, to, slot: t })?;
            Ok(in_slot(to, t, t + 1))
        }
        Expr::Call(proc, es) => call(b, alloc, layout, *proc, es, from, t),
        Expr::Negate(inner) => product(b, alloc, layout, -1, inner, from, t),
        Expr::Not(inner) => {
            let truth = truth_nodes(b);
            let met = Target::Node(truth.met);
            let unmet = Target::Node(truth.unmet);
            let free = test(b, alloc, layout, inner, from, unmet, met, t + 1)?;
            settle(b, alloc, truth, t, free)
        }
        Expr::Binary(op, left, right) => operation(b, alloc, layout, *op, left, right, from, t),
    }
}

/// An operation, as a value.
#[cycle(expressions)]
fn operation(
    b: &mut Builder,
    alloc: Global,
    layout: Layout,
    op: Op,
    left: &Expr,
    right: &Expr,
    from: u32,
    t: u32,
) -> Result<Landed, AllocError>
    requires room { HasRoom (1 + nodes (expression_of left.now) + nodes (expression_of right.now)) t
        b.old }
    requires divisor { IsTrue (not (is_division op) || is_divisor (expression_of right.now)) }
    requires left { IsTrue (is_lowerable (expression_of left.now)) }
    requires right { IsTrue (is_lowerable (expression_of right.now)) }
    ensures adds { IfOk result
        (λ l. Adds (binary_value layout op (expression_of left.now) (expression_of right.now)) from
        t
        b.old b.new l) }
    ensures few { IfOk result
        (λ l. TakesFew (1 + nodes (expression_of left.now) + nodes (expression_of right.now)) t
        b.old b.new l.slot) }
    ensures landed { IfOk result (λ l. IsTrue (is_landed l)) }
    ensures left_literals { OnOk result (IsTrue (literals_fit (expression_of left.now))) }
    ensures right_literals { OnOk result (IsTrue (literals_fit (expression_of right.now))) }
{
    if op.is_arithmetic() {
        return arithmetic(b, alloc, layout, op, left, right, from, t);
    }
    if op.is_division() {
        return division(b, alloc, layout, op, left, right, from, t);
    }
    let truth = truth_nodes(b);
    let met = Target::Node(truth.met);
    let unmet = Target::Node(truth.unmet);
    let free = condition(b, alloc, layout, op, left, right, from, met, unmet, t + 1)?;
    settle(b, alloc, truth, t, free)
}

/// A call of a procedure.
#[cycle(expressions)]
fn call(
    b: &mut Builder,
    alloc: Global,
    layout: Layout,
    proc: ProcId,
    es: &[Expr],
    from: u32,
    t: u32,
) -> Result<Landed, AllocError>
    requires room { HasRoom (1 + nodes_all (expressions_of es.now)) t b.old }
    requires lowerable { IsTrue (are_lowerable (expressions_of es.now)) }
    ensures adds { IfOk result
        (λ l. Adds (form.call proc (values_of layout (expressions_of es.now)) (global_slots layout))
        from t
        b.old b.new l) }
    ensures few { IfOk result (λ l. TakesFew (1 + nodes_all (expressions_of es.now)) t b.old b.new
        l.slot) }
    ensures landed { IfOk result (λ l. IsTrue (is_landed l)) }
    ensures literals { OnOk result (IsTrue (all_literals_fit (expressions_of es.now))) }
{
    let to = b.node();
    let mut args = Vec::new(alloc);
    let last = arguments(b, alloc, layout, es, from, t + 1, &mut args)?;
    push_globals(&mut args, layout)?;
    let results = with_globals(alloc, t, layout)?;
    b.push(Edge::Call {
        from: last.node,
        to,
        proc,
        args: Slots::from_vec(args),
        results,
    })?;
    Ok(in_slot(to, t, last.slot))
}

/// Arguments from left to right. An argument waits in a slot of its own where a later one has a
/// call.
#[cycle(expressions)]
fn arguments(
    b: &mut Builder,
    alloc: Global,
    layout: Layout,
    es: &[Expr],
    from: u32,
    t: u32,
    args: &mut Vec<Slot>,
) -> Result<Reached, AllocError>
    requires room { HasRoom (nodes_all (expressions_of es.now)) t b.old }
    requires lowerable { IsTrue (are_lowerable (expressions_of es.now)) }
    ensures adds { IfOk result (λ l. AddsAll (values_of layout (expressions_of es.now)) from t b.old
        b.new
        l) }
    ensures few { IfOk result (λ l. TakesFewAll (nodes_all (expressions_of es.now)) t b.old b.new
        l.slot) }
    ensures args { OnOk result (args.new.items ≡ args.old.items ++ argument_slots
        (values_of layout (expressions_of es.now)) t) }
    ensures literals { OnOk result (IsTrue (all_literals_fit (expressions_of es.now))) }
{
    match es {
        [] => Ok(Reached {
            node: from,
            slot: t,
        }),
        [first, rest @ ..] => {
            let argument = argument(b, alloc, layout, first, have_call(rest), from, t)?;
            args.push(argument.slot)?;
            arguments(
                b,
                alloc,
                layout,
                rest,
                argument.last.node,
                argument.last.slot,
                args,
            )
        }
    }
}

/// An argument, in a slot.
#[cycle(expressions)]
fn argument(
    b: &mut Builder,
    alloc: Global,
    layout: Layout,
    e: &Expr,
    later_call: bool,
    from: u32,
    t: u32,
) -> Result<ArgumentSlot, AllocError>
    requires room { HasRoom (nodes (expression_of e.now)) t b.old }
    requires lowerable { IsTrue (is_lowerable (expression_of e.now)) }
    ensures adds { IfOk result
        (λ l. AddsSlot (argument_of later_call (value_of layout (expression_of e.now))) from t b.old
        b.new
        l.last l.slot) }
    ensures few { IfOk result (λ l. TakesFewAll (nodes (expression_of e.now)) t b.old b.new
        l.last.slot) }
    ensures literals { OnOk result (IsTrue (literals_fit (expression_of e.now))) }
{
    let landed = value(b, alloc, layout, e, from, t)?;
    let keep = later_call || landed.operand.is_constant();
    let landed = kept_if(b, alloc, keep, landed)?;
    Ok(ArgumentSlot {
        slot: landed.operand.slot(),
        last: Reached {
            node: landed.node,
            slot: landed.slot,
        },
    })
}

/// A multiple of an expression.
#[cycle(expressions)]
fn product(
    b: &mut Builder,
    alloc: Global,
    layout: Layout,
    coefficient: i64,
    e: &Expr,
    from: u32,
    t: u32,
) -> Result<Landed, AllocError>
    requires room { HasRoom (1 + nodes (expression_of e.now)) t b.old }
    requires lowerable { IsTrue (is_lowerable (expression_of e.now)) }
    ensures adds { IfOk result
        (λ l. Adds (scaled coefficient (value_of layout (expression_of e.now)))
        from
        t b.old b.new l) }
    ensures few { IfOk result (λ l. TakesFew (1 + nodes (expression_of e.now)) t b.old b.new
        l.slot) }
    ensures landed { IfOk result (λ l. IsTrue (is_landed l)) }
    ensures literals { OnOk result (IsTrue (literals_fit (expression_of e.now))) }
{
    let to = b.node();
    let landed = value(b, alloc, layout, e, from, t + 1)?;
    multiple(b, alloc, coefficient, landed, to, t)
}

/// Both sides, the left one kept where the right one has a call or where it is said.
#[cycle(expressions)]
fn sides(
    b: &mut Builder,
    alloc: Global,
    layout: Layout,
    left: &Expr,
    right: &Expr,
    overflows: bool,
    from: u32,
    t: u32,
) -> Result<BothSides, AllocError>
    requires room { HasRoom (nodes (expression_of left.now) + nodes (expression_of right.now)) t
        b.old }
    requires left { IsTrue (is_lowerable (expression_of left.now)) }
    requires right { IsTrue (is_lowerable (expression_of right.now)) }
    ensures adds { IfOk result (λ l. AddsBoth
        (kept_value_if (has_call (expression_of right.now) || overflows)
        (value_of layout (expression_of left.now)))
        (value_of layout (expression_of right.now)) from t b.old b.new l) }
    ensures few { IfOk result
        (λ l. TakesFew (nodes (expression_of left.now) + nodes (expression_of right.now)) t b.old
        b.new l.right.slot) }
    ensures left { IfOk result (λ l. IsTrue (is_operand l.left)) }
    ensures right { IfOk result (λ l. IsTrue (is_landed l.right)) }
    ensures left_literals { OnOk result (IsTrue (literals_fit (expression_of left.now))) }
    ensures right_literals { OnOk result (IsTrue (literals_fit (expression_of right.now))) }
{
    let landed = value(b, alloc, layout, left, from, t)?;
    let keep = has_call(right) || overflows;
    let landed = kept_if(b, alloc, keep, landed)?;
    let other = value(b, alloc, layout, right, landed.node, landed.slot)?;
    Ok(BothSides {
        left: landed.operand,
        right: other,
    })
}

/// The sum of two expressions.
#[cycle(expressions)]
fn sum(
    b: &mut Builder,
    alloc: Global,
    layout: Layout,
    left: &Expr,
    right: &Expr,
    from: u32,
    t: u32,
) -> Result<Landed, AllocError>
    requires room { HasRoom (1 + nodes (expression_of left.now) + nodes (expression_of right.now)) t
        b.old }
    requires left { IsTrue (is_lowerable (expression_of left.now)) }
    requires right { IsTrue (is_lowerable (expression_of right.now)) }
    ensures adds { IfOk result (λ l. Adds
        (added (has_call (expression_of right.now)) (value_of layout (expression_of left.now))
        (value_of layout (expression_of right.now)))
        from t b.old b.new l) }
    ensures few { IfOk result
        (λ l. TakesFew (1 + nodes (expression_of left.now) + nodes (expression_of right.now)) t
        b.old b.new l.slot) }
    ensures landed { IfOk result (λ l. IsTrue (is_landed l)) }
    ensures left_literals { OnOk result (IsTrue (literals_fit (expression_of left.now))) }
    ensures right_literals { OnOk result (IsTrue (literals_fit (expression_of right.now))) }
{
    let to = b.node();
    let overflows = sum_overflows(layout, left, right);
    let sides = sides(b, alloc, layout, left, right, overflows, from, t + 1)?;
    let value = sum_lin(alloc, sides.left, sides.right.operand)?;
    b.push(Edge::Assign {
        from: sides.right.node,
        to,
        slot: t,
        value,
    })?;
    Ok(in_slot(to, t, sides.right.slot))
}

/// The difference of two expressions.
#[cycle(expressions)]
fn difference(
    b: &mut Builder,
    alloc: Global,
    layout: Layout,
    left: &Expr,
    right: &Expr,
    from: u32,
    t: u32,
) -> Result<Landed, AllocError>
    requires room { HasRoom (1 + nodes (expression_of left.now) + nodes (expression_of right.now)) t
        b.old }
    requires left { IsTrue (is_lowerable (expression_of left.now)) }
    requires right { IsTrue (is_lowerable (expression_of right.now)) }
    ensures adds { IfOk result (λ l. Adds
        (subtracted (has_call (expression_of right.now)) (value_of layout (expression_of left.now))
        (value_of layout (expression_of right.now)))
        from t b.old b.new l) }
    ensures few { IfOk result
        (λ l. TakesFew (1 + nodes (expression_of left.now) + nodes (expression_of right.now)) t
        b.old b.new l.slot) }
    ensures landed { IfOk result (λ l. IsTrue (is_landed l)) }
    ensures left_literals { OnOk result (IsTrue (literals_fit (expression_of left.now))) }
    ensures right_literals { OnOk result (IsTrue (literals_fit (expression_of right.now))) }
{
    let to = b.node();
    let overflows = difference_overflows(layout, left, right);
    let sides = sides(b, alloc, layout, left, right, overflows, from, t + 1)?;
    let keep = overflows_by(-1, sides.right.operand);
    let right = kept_if(b, alloc, keep, sides.right)?;
    let value = difference_lin(alloc, sides.left, right.operand)?;
    b.push(Edge::Assign {
        from: right.node,
        to,
        slot: t,
        value,
    })?;
    Ok(in_slot(to, t, right.slot))
}

/// A sum, a difference or a product. A product is a multiple by a side that has a value before the
/// run; without one a side stops the run, and the edge after both is never taken.
#[cycle(expressions)]
fn arithmetic(
    b: &mut Builder,
    alloc: Global,
    layout: Layout,
    op: Op,
    left: &Expr,
    right: &Expr,
    from: u32,
    t: u32,
) -> Result<Landed, AllocError>
    requires arithmetic { is_arithmetic op ≡ true }
    requires room { HasRoom (1 + nodes (expression_of left.now) + nodes (expression_of right.now)) t
        b.old }
    requires left { IsTrue (is_lowerable (expression_of left.now)) }
    requires right { IsTrue (is_lowerable (expression_of right.now)) }
    ensures adds { IfOk result
        (λ l. Adds (binary_value layout op (expression_of left.now) (expression_of right.now)) from
        t b.old
        b.new l) }
    ensures few { IfOk result
        (λ l. TakesFew (1 + nodes (expression_of left.now) + nodes (expression_of right.now)) t
        b.old b.new l.slot) }
    ensures landed { IfOk result (λ l. IsTrue (is_landed l)) }
    ensures left_literals { OnOk result (IsTrue (literals_fit (expression_of left.now))) }
    ensures right_literals { OnOk result (IsTrue (literals_fit (expression_of right.now))) }
{
    match op {
        Op::Subtract => difference(b, alloc, layout, left, right, from, t),
        Op::Multiply => {
            if let Some(factor) = constant_value(left) {
                return product(b, alloc, layout, factor, right, from, t);
            }
            if let Some(factor) = constant_value(right) {
                return product(b, alloc, layout, factor, left, from, t);
            }
            sum(b, alloc, layout, left, right, from, t)
        }
        _ => sum(b, alloc, layout, left, right, from, t),
    }
}

/// A quotient or a remainder, by a literal.
#[cycle(expressions)]
fn division(
    b: &mut Builder,
    alloc: Global,
    layout: Layout,
    op: Op,
    left: &Expr,
    right: &Expr,
    from: u32,
    t: u32,
) -> Result<Landed, AllocError>
    requires division { is_division op ≡ true }
    requires divisor { IsTrue (is_divisor (expression_of right.now)) }
    requires room { HasRoom (1 + nodes (expression_of left.now) + nodes (expression_of right.now)) t
        b.old }
    requires left { IsTrue (is_lowerable (expression_of left.now)) }
    ensures adds { IfOk result
        (λ l. Adds (binary_value layout op (expression_of left.now) (expression_of right.now)) from
        t
        b.old b.new l) }
    ensures few { IfOk result
        (λ l. TakesFew (1 + nodes (expression_of left.now) + nodes (expression_of right.now)) t
        b.old b.new l.slot) }
    ensures landed { IfOk result (λ l. IsTrue (is_landed l)) }
    ensures left_literals { OnOk result (IsTrue (literals_fit (expression_of left.now))) }
    ensures right_literals { OnOk result (IsTrue (literals_fit (expression_of right.now))) }
{
    let divisor = divisor(right);
    match op {
        Op::Remainder => remainder(b, alloc, layout, divisor, left, from, t),
        _ => quotient(b, alloc, layout, divisor, left, from, t),
    }
}

/// The quotient of an expression by a divisor.
#[cycle(expressions)]
fn quotient(
    b: &mut Builder,
    alloc: Global,
    layout: Layout,
    divisor: i64,
    e: &Expr,
    from: u32,
    t: u32,
) -> Result<Landed, AllocError>
    requires divisor { unsigned_abs divisor ≤ 2 ^ 40 }
    requires room { HasRoom (2 + nodes (expression_of e.now)) t b.old }
    requires lowerable { IsTrue (is_lowerable (expression_of e.now)) }
    ensures adds { IfOk result
        (λ l. Adds (form.quotient divisor (in_slot_value (value_of layout (expression_of e.now))))
        from t
        b.old b.new l) }
    ensures few { IfOk result (λ l. TakesFew (2 + nodes (expression_of e.now)) t b.old b.new
        l.slot) }
    ensures landed { IfOk result (λ l. IsTrue (is_landed l)) }
    ensures literals { OnOk result (IsTrue (literals_fit (expression_of e.now))) }
{
    let to = b.node();
    let dividend = argument(b, alloc, layout, e, false, from, t + 1)?;
    let last = dividend.last;
    push_quotient(b, alloc, divisor, dividend.slot, t, last.node, to)?;
    Ok(in_slot(to, t, last.slot))
}

/// The remainder of an expression by a divisor: what the multiple of the quotient leaves.
#[cycle(expressions)]
fn remainder(
    b: &mut Builder,
    alloc: Global,
    layout: Layout,
    divisor: i64,
    e: &Expr,
    from: u32,
    t: u32,
) -> Result<Landed, AllocError>
    requires divisor { unsigned_abs divisor ≤ 2 ^ 40 }
    requires room { HasRoom (2 + nodes (expression_of e.now)) t b.old }
    requires lowerable { IsTrue (is_lowerable (expression_of e.now)) }
    ensures adds { IfOk result
        (λ l. Adds (form.remainder divisor (in_slot_value (value_of layout (expression_of e.now))))
        from t
        b.old b.new l) }
    ensures few { IfOk result (λ l. TakesFew (2 + nodes (expression_of e.now)) t b.old b.new
        l.slot) }
    ensures landed { IfOk result (λ l. IsTrue (is_landed l)) }
    ensures literals { OnOk result (IsTrue (literals_fit (expression_of e.now))) }
{
    let to = b.node();
    let divided = b.node();
    let dividend = argument(b, alloc, layout, e, false, from, t + 1)?;
    let last = dividend.last;
    push_quotient(b, alloc, divisor, dividend.slot, t, last.node, divided)?;
    let value = rest_lin(alloc, divisor, dividend.slot, t)?;
    b.push(Edge::Assign {
        from: divided,
        to,
        slot: t,
        value,
    })?;
    Ok(in_slot(to, t, last.slot))
}

/// An expression as a test, from a node to one of two targets. The result is the first slot that it
/// doesn't take.
#[cycle(expressions)]
pub fn test(
    b: &mut Builder,
    alloc: Global,
    layout: Layout,
    e: &Expr,
    from: u32,
    met: Target,
    unmet: Target,
    t: u32,
) -> Result<u32, AllocError>
    requires room { HasRoom (nodes (expression_of e.now)) t b.old }
    requires lowerable { IsTrue (is_lowerable (expression_of e.now)) }
    ensures adds { IfOk result (λ l. AddsTest (test_of layout (expression_of e.now)) from met unmet
        t b.old
        b.new l) }
    ensures few { IfOk result (λ l. TakesFew (nodes (expression_of e.now)) t b.old b.new l) }
    ensures literals { OnOk result (IsTrue (literals_fit (expression_of e.now))) }
{
    match e {
        Expr::Not(inner) => return test(b, alloc, layout, inner, from, unmet, met, t),
        Expr::Binary(op, left, right) => {
            if !op.is_arithmetic() && !op.is_division() {
                return condition(b, alloc, layout, *op, left, right, from, met, unmet, t);
            }
        }
        _ => {}
    }
    let l = value(b, alloc, layout, e, from, t)?;
    let zero = Operand::Constant(0);
    compare(b, alloc, l.node, Op::Unequal, l.operand, zero, met, unmet)?;
    Ok(l.slot)
}

/// A comparison, or two tests that are joined.
#[cycle(expressions)]
fn condition(
    b: &mut Builder,
    alloc: Global,
    layout: Layout,
    op: Op,
    left: &Expr,
    right: &Expr,
    from: u32,
    met: Target,
    unmet: Target,
    t: u32,
) -> Result<u32, AllocError>
    requires condition { is_arithmetic op ≡ false }
    requires undivided { is_division op ≡ false }
    requires room { HasRoom (nodes (expression_of left.now) + nodes (expression_of right.now)) t
        b.old }
    requires middle { b.old.next
        + 5 * (nodes (expression_of left.now) + nodes (expression_of right.now))
        < 4000000000 }
    requires left { IsTrue (is_lowerable (expression_of left.now)) }
    requires right { IsTrue (is_lowerable (expression_of right.now)) }
    ensures adds { IfOk result
        (λ l. AddsTest (binary_test layout op (expression_of left.now) (expression_of right.now))
        from met
        unmet t b.old b.new l) }
    ensures few { IfOk result
        (λ l. TakesFew (nodes (expression_of left.now) + nodes (expression_of right.now)) t b.old
        b.new l) }
    ensures left_literals { OnOk result (IsTrue (literals_fit (expression_of left.now))) }
    ensures right_literals { OnOk result (IsTrue (literals_fit (expression_of right.now))) }
{
    match op {
        Op::And => {
            let middle = b.node();
            let free = test(b, alloc, layout, left, from, Target::Node(middle), unmet, t)?;
            test(b, alloc, layout, right, middle, met, unmet, free)
        }
        Op::Or => {
            let middle = b.node();
            let free = test(b, alloc, layout, left, from, met, Target::Node(middle), t)?;
            test(b, alloc, layout, right, middle, met, unmet, free)
        }
        _ => {
            let sides = sides(b, alloc, layout, left, right, false, from, t)?;
            let right = sides.right;
            compare(
                b,
                alloc,
                right.node,
                op,
                sides.left,
                right.operand,
                met,
                unmet,
            )?;
            Ok(right.slot)
        }
    }
}
