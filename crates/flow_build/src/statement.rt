//! Statements.

ghost use Rattle.std.specs.Prelude.{◌≡◌, ◌+◌, ◌<◌, ◌^◌, not, ◌++◌, ◌∷◌, [], IfOk, OnOk, IsTrue};
ghost use Rattle.c_tree.specs.Syntax.{block, if_else, loop, do_while};
ghost use Rattle.c_tree.specs.View.{expression_of, statement_of, statements_of};
ghost use Rattle.c_tree.specs.WellFormed.{nodes, statement_nodes, statements_nodes};
ghost use Rattle.flow_graph.specs.declared.graph.Edge.TheVariants.{Guard};
ghost use Rattle.flow_build.specs.steps.Building.{node_where, one_if, literals_fit, statement_literals_fit, statements_literals_fit, is_lowerable, is_lowerable_statement, are_lowerable_statements};
ghost use Rattle.flow_build.specs.steps.Additions.{HasRoom, TakesFew};
ghost use Rattle.flow_build.specs.steps.StatementAdditions.{AddsSet, AddsResult, AddsStatement};

use crate::builder::Builder;
use crate::expression::{test, value};
use crate::landing::kept_if;
use crate::layout::{Layout, with_globals};
use crate::linear::{constant_lin, operand_lin};
use crate::target::Target;
use c_tree::tree::{Expr, Slot, Stmt};
use flow_graph::graph::Edge;
use linear_formula::formula::{Atoms, Cube};
use std::alloc::{AllocError, Global};

/// The fixed node at which frames have returned.
pub const EXIT_NODE: u32 = 0;

/// The fixed node that returns the first slot after the variables.
pub const RETURN_NODE: u32 = 3;

/// What the statements of a procedure share.
#[derive(Clone, Copy)]
pub struct Frame {
    /// Whether the procedure gives a value.
    pub gives: bool,
    pub layout: Layout,
    /// The first slot after the variables and the globals.
    pub free: u32,
}

/// Where a statement leads.
#[derive(Clone, Copy)]
pub struct Exits {
    pub to: u32,
    pub on_break: u32,
    pub on_continue: u32,
}

/// An edge that is always taken.
fn skip(b: &mut Builder, alloc: Global, from: u32, to: u32) -> Result<(), AllocError>
    ensures edges { OnOk result (b.new.edges.items ≡ b.old.edges.items ++ Guard from to
        (record { atoms = [] }) ∷ []) }
    ensures next { b.new.next ≡ b.old.next }
{
    let rows = Cube {
        atoms: Atoms::new(alloc),
    };
    b.push(Edge::Guard { from, to, rows })
}

/// The node after a statement: a new one, but after the last.
fn next_node(b: &mut Builder, is_last: bool, to: u32) -> u32
    requires { b.old.next + 1 < 2 ^ 32 }
    ensures node { result ≡ node_where is_last b.old.next to }
    ensures next { b.new.next ≡ b.old.next + one_if (not is_last) }
    ensures edges { b.new.edges.items ≡ b.old.edges.items }
{
    if is_last { to } else { b.node() }
}

/// The return of an expression's value; a `void` procedure returns 0 in its place.
fn give_back(
    b: &mut Builder,
    alloc: Global,
    e: &Expr,
    frame: Frame,
    from: u32,
) -> Result<u32, AllocError>
    requires room { HasRoom (1 + nodes (expression_of e.now)) frame.free b.old }
    requires lowerable { IsTrue (is_lowerable (expression_of e.now)) }
    ensures adds { IfOk result (λ l. AddsResult (expression_of e.now) frame from b.old b.new l) }
    ensures few { IfOk result (λ l. TakesFew (1 + nodes (expression_of e.now)) frame.free b.old
        b.new l) }
    ensures literals { OnOk result (IsTrue (literals_fit (expression_of e.now))) }
{
    let landed = value(b, alloc, frame.layout, e, from, frame.free)?;
    let keep = landed.operand.is_constant();
    let landed = kept_if(b, alloc, keep, landed)?;
    let edge = if frame.gives {
        Edge::Return {
            from: landed.node,
            to: EXIT_NODE,
            slots: with_globals(alloc, landed.operand.slot(), frame.layout)?,
        }
    } else {
        Edge::Assign {
            from: landed.node,
            to: RETURN_NODE,
            slot: frame.free,
            value: constant_lin(alloc, 0),
        }
    };
    b.push(edge)?;
    Ok(landed.slot)
}

/// A statement, from a node on. The result is the first slot that it never takes.
#[cycle(statements)]
pub fn statement(
    b: &mut Builder,
    alloc: Global,
    s: &Stmt,
    frame: Frame,
    from: u32,
    exits: Exits,
) -> Result<u32, AllocError>
    requires room { HasRoom (statement_nodes (statement_of s.now)) frame.free b.old }
    requires lowerable { IsTrue (is_lowerable_statement (statement_of s.now)) }
    ensures adds { IfOk result (λ l. AddsStatement (statement_of s.now) frame from exits b.old b.new
        l) }
    ensures few { IfOk result (λ l. TakesFew (statement_nodes (statement_of s.now)) frame.free b.old
        b.new l) }
    ensures literals { OnOk result (IsTrue (statement_literals_fit (statement_of s.now))) }
{
    match s {
        Stmt::Block(ss) => block(b, alloc, ss, frame, from, exits),
        Stmt::Set(x, e) => {
            let slot = frame.layout.variable(*x);
            set(b, alloc, slot, e, frame, from, exits.to)
        }
        Stmt::SetGlobal(y, e) => {
            let slot = frame.layout.global(*y);
            set(b, alloc, slot, e, frame, from, exits.to)
        }
        Stmt::Ignore(e) => {
            let landed = value(b, alloc, frame.layout, e, from, frame.free)?;
            skip(b, alloc, landed.node, exits.to)?;
            Ok(landed.slot)
        }
        Stmt::Assume(e) => {
            let (met, unmet) = (Target::Node(exits.to), Target::Nowhere);
            let layout = frame.layout;
            test(b, alloc, layout, e, from, met, unmet, frame.free)
        }
        Stmt::Assert(id, e) => {
            let (met, unmet) = (Target::Node(exits.to), Target::Fails(*id));
            let layout = frame.layout;
            test(b, alloc, layout, e, from, met, unmet, frame.free)
        }
        Stmt::If(e, met, unmet) => choice(b, alloc, e, met, unmet, frame, from, exits),
        Stmt::Loop { test, step, body } => {
            repetition(b, alloc, test, step, body, frame, from, exits)
        }
        Stmt::DoWhile(body, e) => tested_repetition(b, alloc, body, e, frame, from, exits),
        Stmt::Break => {
            skip(b, alloc, from, exits.on_break)?;
            Ok(frame.free)
        }
        Stmt::Continue => {
            skip(b, alloc, from, exits.on_continue)?;
            Ok(frame.free)
        }
        Stmt::Return(None) => {
            b.push(Edge::Assign {
                from,
                to: RETURN_NODE,
                slot: frame.free,
                value: constant_lin(alloc, 0),
            })?;
            Ok(frame.free)
        }
        Stmt::Return(Some(e)) => give_back(b, alloc, e, frame, from),
    }
}

/// Statements one after another; without one an edge leads on.
#[cycle(statements)]
pub fn block(
    b: &mut Builder,
    alloc: Global,
    ss: &[Stmt],
    frame: Frame,
    from: u32,
    exits: Exits,
) -> Result<u32, AllocError>
    requires room { HasRoom (1 + statements_nodes (statements_of ss.now)) frame.free b.old }
    requires lowerable { IsTrue (are_lowerable_statements (statements_of ss.now)) }
    ensures adds { IfOk result (λ l. AddsStatement (block (statements_of ss.now)) frame from exits
        b.old b.new l) }
    ensures few { IfOk result (λ l. TakesFew (1 + statements_nodes (statements_of ss.now))
        frame.free
        b.old b.new l) }
    ensures literals { OnOk result (IsTrue (statements_literals_fit (statements_of ss.now))) }
{
    if ss.is_empty() {
        skip(b, alloc, from, exits.to)?;
        return Ok(frame.free);
    }
    let mut node = from;
    let mut free = frame.free;
    for (i, s) in ss.iter().enumerate() {
        let is_last = i + 1 == ss.len();
        let to = next_node(b, is_last, exits.to);
        let reached = statement(b, alloc, s, frame, node, Exits { to, ..exits })?;
        free = free.max(reached);
        node = to;
    }
    Ok(free)
}

/// An assignment to a slot.
fn set(
    b: &mut Builder,
    alloc: Global,
    variable: Slot,
    e: &Expr,
    frame: Frame,
    from: u32,
    to: u32,
) -> Result<u32, AllocError>
    requires room { HasRoom (nodes (expression_of e.now)) frame.free b.old }
    requires lowerable { IsTrue (is_lowerable (expression_of e.now)) }
    ensures adds { IfOk result (λ l. AddsSet variable (expression_of e.now) frame from to b.old
        b.new l) }
    ensures few { IfOk result (λ l. TakesFew (nodes (expression_of e.now)) frame.free b.old b.new
        l) }
    ensures literals { OnOk result (IsTrue (literals_fit (expression_of e.now))) }
{
    let landed = value(b, alloc, frame.layout, e, from, frame.free)?;
    let value = operand_lin(alloc, landed.operand)?;
    b.push(Edge::Assign {
        from: landed.node,
        to,
        slot: variable,
        value,
    })?;
    Ok(landed.slot)
}

/// One of two statements, by a test.
#[cycle(statements)]
fn choice(
    b: &mut Builder,
    alloc: Global,
    e: &Expr,
    met: &Stmt,
    unmet: &Stmt,
    frame: Frame,
    from: u32,
    exits: Exits,
) -> Result<u32, AllocError>
    requires room { HasRoom
        (1 + nodes (expression_of e.now) + statement_nodes (statement_of met.now) + statement_nodes
        (statement_of unmet.now))
        frame.free b.old }
    requires test { IsTrue (is_lowerable (expression_of e.now)) }
    requires met { IsTrue (is_lowerable_statement (statement_of met.now)) }
    requires unmet { IsTrue (is_lowerable_statement (statement_of unmet.now)) }
    ensures adds { IfOk result
        (λ l. AddsStatement (if_else (expression_of e.now) (statement_of met.now)
        (statement_of unmet.now))
        frame from exits b.old b.new l) }
    ensures few { IfOk result (λ l. TakesFew
        (1 + nodes (expression_of e.now) + statement_nodes (statement_of met.now) + statement_nodes
        (statement_of unmet.now))
        frame.free b.old b.new l) }
    ensures test_literals { OnOk result (IsTrue (literals_fit (expression_of e.now))) }
    ensures met_literals { OnOk result (IsTrue (statement_literals_fit (statement_of met.now))) }
    ensures unmet_literals { OnOk result
        (IsTrue (statement_literals_fit (statement_of unmet.now))) }
{
    let first = b.node();
    let second = b.node();
    let tested = test(
        b,
        alloc,
        frame.layout,
        e,
        from,
        Target::Node(first),
        Target::Node(second),
        frame.free,
    )?;
    let left = statement(b, alloc, met, frame, first, exits)?;
    let right = statement(b, alloc, unmet, frame, second, exits)?;
    Ok(tested.max(left.max(right)))
}

/// A loop that tests before its body. `continue` leads to the step, and the step to the test.
#[cycle(statements)]
fn repetition(
    b: &mut Builder,
    alloc: Global,
    e: &Expr,
    step: &Stmt,
    body: &Stmt,
    frame: Frame,
    from: u32,
    exits: Exits,
) -> Result<u32, AllocError>
    requires room { HasRoom
        (1 + nodes (expression_of e.now) + statement_nodes (statement_of step.now) + statement_nodes
        (statement_of body.now))
        frame.free b.old }
    requires test { IsTrue (is_lowerable (expression_of e.now)) }
    requires step { IsTrue (is_lowerable_statement (statement_of step.now)) }
    requires body { IsTrue (is_lowerable_statement (statement_of body.now)) }
    ensures adds { IfOk result
        (λ l. AddsStatement (loop (expression_of e.now) (statement_of step.now)
        (statement_of body.now))
        frame from exits b.old b.new l) }
    ensures few { IfOk result (λ l. TakesFew
        (1 + nodes (expression_of e.now) + statement_nodes (statement_of step.now) + statement_nodes
        (statement_of body.now))
        frame.free b.old b.new l) }
    ensures test_literals { OnOk result (IsTrue (literals_fit (expression_of e.now))) }
    ensures step_literals { OnOk result (IsTrue (statement_literals_fit (statement_of step.now))) }
    ensures body_literals { OnOk result (IsTrue (statement_literals_fit (statement_of body.now))) }
{
    let inner = b.node();
    let again = b.node();
    let to = exits.to;
    let tested = test(
        b,
        alloc,
        frame.layout,
        e,
        from,
        Target::Node(inner),
        Target::Node(to),
        frame.free,
    )?;
    let in_body = Exits {
        to: again,
        on_break: to,
        on_continue: again,
    };
    let left = statement(b, alloc, body, frame, inner, in_body)?;
    let in_step = Exits {
        to: from,
        on_break: to,
        on_continue: from,
    };
    let right = statement(b, alloc, step, frame, again, in_step)?;
    Ok(tested.max(left.max(right)))
}

/// A loop that tests after its body.
#[cycle(statements)]
fn tested_repetition(
    b: &mut Builder,
    alloc: Global,
    body: &Stmt,
    e: &Expr,
    frame: Frame,
    from: u32,
    exits: Exits,
) -> Result<u32, AllocError>
    requires room { HasRoom (1 + statement_nodes (statement_of body.now)
        + nodes (expression_of e.now))
        frame.free b.old }
    requires body { IsTrue (is_lowerable_statement (statement_of body.now)) }
    requires test { IsTrue (is_lowerable (expression_of e.now)) }
    ensures adds { IfOk result
        (λ l. AddsStatement (do_while (statement_of body.now) (expression_of e.now)) frame from
        exits b.old b.new l) }
    ensures few { IfOk result (λ l. TakesFew
        (1 + statement_nodes (statement_of body.now) + nodes (expression_of e.now)) frame.free b.old
        b.new l) }
    ensures body_literals { OnOk result (IsTrue (statement_literals_fit (statement_of body.now))) }
    ensures test_literals { OnOk result (IsTrue (literals_fit (expression_of e.now))) }
{
    let again = b.node();
    let to = exits.to;
    let in_body = Exits {
        to: again,
        on_break: to,
        on_continue: again,
    };
    let left = statement(b, alloc, body, frame, from, in_body)?;
    let tested = test(
        b,
        alloc,
        frame.layout,
        e,
        again,
        Target::Node(from),
        Target::Node(to),
        frame.free,
    )?;
    Ok(left.max(tested))
}
