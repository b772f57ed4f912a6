//! Whether two bodies are the same where calls are of related procedures.

ghost use Rattle.std.specs.Prelude.{◌≡◌, ◌↔◌, IsTrue};
ghost use Rattle.c_tree.specs.View.{expression_of, expressions_of, optional_expression, procedure_of, statement_of, statements_of};
ghost use Rattle.summary_keep.specs.Bodies.{SameExpression, SameExpressions, SameOptional, SameStatement, SameStatements};
ghost use Rattle.summary_keep.specs.Keeping.{related_by};
ghost use Rattle.summary_keep.specs.Matching.{Any, AreSame};

use c_tree::tree::{Expr, ProcId, Procedure, Stmt};

/// Whether the procedure has this new number.
fn is_related(procs: &[Option<ProcId>], old: ProcId, new: ProcId) -> bool
    ensures { result ≡ related_by procs.now old new }
{
    match procs.get(old as usize) {
        Some(Some(number)) => *number == new,
        _ => false,
    }
}

/// Whether the expressions are the same.
#[cycle(expressions)]
pub fn same_expression(procs: &[Option<ProcId>], old: &Expr, new: &Expr) -> bool
    ensures { IsTrue result ↔ SameExpression (related_by procs.now) Any (expression_of old.now)
        (expression_of new.now) }
{
    match (old, new) {
        (Expr::Literal(a), Expr::Literal(b)) => a == b,
        (Expr::Read(a), Expr::Read(b)) => a == b,
        (Expr::ReadGlobal(a), Expr::ReadGlobal(b)) => a == b,
        (Expr::Input, Expr::Input) => true,
        (Expr::Call(p, a), Expr::Call(q, b)) => {
            is_related(procs, *p, *q) && same_expressions(procs, a, b)
        }
        (Expr::Negate(a), Expr::Negate(b)) => same_expression(procs, a, b),
        (Expr::Not(a), Expr::Not(b)) => same_expression(procs, a, b),
        (Expr::Binary(o, a, b), Expr::Binary(p, c, d)) => {
            *o == *p && same_expression(procs, a, c) && same_expression(procs, b, d)
        }
        _ => false,
    }
}

/// Whether the lists are, expression by expression.
#[cycle(expressions)]
pub fn same_expressions(procs: &[Option<ProcId>], old: &[Expr], new: &[Expr]) -> bool
    ensures { IsTrue result ↔ SameExpressions (related_by procs.now) Any (expressions_of old.now)
        (expressions_of new.now) }
{
    match old {
        [] => new.is_empty(),
        [a, olds @ ..] => match new {
            [] => false,
            [b, news @ ..] => same_expression(procs, a, b) && same_expressions(procs, olds, news),
        },
    }
}

/// Whether what they return is the same.
fn same_result(procs: &[Option<ProcId>], old: &Option<Expr>, new: &Option<Expr>) -> bool
    ensures { IsTrue result ↔ SameOptional (related_by procs.now) Any
        (optional_expression old.now) (optional_expression new.now) }
{
    match (old, new) {
        (None, None) => true,
        (Some(a), Some(b)) => same_expression(procs, a, b),
        _ => false,
    }
}

/// Whether the statements are the same.
#[cycle(statements)]
pub fn same_statement(procs: &[Option<ProcId>], old: &Stmt, new: &Stmt) -> bool
    ensures { IsTrue result ↔ SameStatement (related_by procs.now) Any (statement_of old.now)
        (statement_of new.now) }
{
    match (old, new) {
        (Stmt::Block(a), Stmt::Block(b)) => same_body(procs, a, b),
        (Stmt::Set(x, a), Stmt::Set(y, b)) => *x == *y && same_expression(procs, a, b),
        (Stmt::SetGlobal(x, a), Stmt::SetGlobal(y, b)) => *x == *y && same_expression(procs, a, b),
        (Stmt::Ignore(a), Stmt::Ignore(b)) => same_expression(procs, a, b),
        (Stmt::Assume(a), Stmt::Assume(b)) => same_expression(procs, a, b),
        (Stmt::Assert(_, a), Stmt::Assert(_, b)) => same_expression(procs, a, b),
        (Stmt::If(e, a, b), Stmt::If(f, c, d)) => {
            same_expression(procs, e, f)
                && same_statement(procs, a, c)
                && same_statement(procs, b, d)
        }
        (
            Stmt::Loop {
                test: e,
                step: a,
                body: b,
            },
            Stmt::Loop {
                test: f,
                step: c,
                body: d,
            },
        ) => {
            same_expression(procs, e, f)
                && same_statement(procs, a, c)
                && same_statement(procs, b, d)
        }
        (Stmt::DoWhile(a, e), Stmt::DoWhile(c, f)) => {
            same_statement(procs, a, c) && same_expression(procs, e, f)
        }
        (Stmt::Break, Stmt::Break) => true,
        (Stmt::Continue, Stmt::Continue) => true,
        (Stmt::Return(a), Stmt::Return(b)) => same_result(procs, a, b),
        _ => false,
    }
}

/// Whether the lists are, statement by statement.
#[cycle(statements)]
pub fn same_body(procs: &[Option<ProcId>], old: &[Stmt], new: &[Stmt]) -> bool
    ensures { IsTrue result ↔ SameStatements (related_by procs.now) Any (statements_of old.now)
        (statements_of new.now) }
{
    match old {
        [] => new.is_empty(),
        [a, olds @ ..] => match new {
            [] => false,
            [b, news @ ..] => same_statement(procs, a, b) && same_body(procs, olds, news),
        },
    }
}

/// Whether the procedures are the same, but that `main` is so to `main` alone.
pub fn same_procedure(procs: &[Option<ProcId>], old: &Procedure, new: &Procedure) -> bool
    ensures { IsTrue result ↔ AreSame (related_by procs.now) (procedure_of old.now)
        (procedure_of new.now) }
{
    old.name == new.name
        && old.params == new.params
        && old.slots == new.slots
        && old.gives == new.gives
        && same_body(procs, &old.body, &new.body)
}
