//! What is known of an expression before a run.

ghost use Rattle.std.specs.Prelude.{◌≡◌, Option};
ghost use Rattle.c_tree.specs.Syntax.{literal};
ghost use Rattle.c_tree.specs.WellFormed.{is_divisor};
ghost use Rattle.c_typing.specs.steps.Sides.{constant_side, is_constant_side, is_divisor_side, negated, combined};

use crate::fault::MAX_DIVISOR;
use c_tree::tree::Op;

/// An expression is no constant, or it is one whose evaluation stops the run, or has this value.
#[derive(Clone, Copy)]
pub enum Side {
    Varies,
    Stops,
    Is(i64),
}

/// Whether a literal may stand on the right of a division.
fn is_divisor(value: i64) -> bool
    ensures { result ≡ is_divisor (literal value) }
{
    let magnitude = value.unsigned_abs();
    1 <= magnitude && magnitude <= MAX_DIVISOR
}

impl Side {
    /// A constant that has this value, or none.
    fn constant(value: Option<i64>) -> Side
        ensures { result ≡ constant_side value }
    {
        match value {
            Some(value) => Side::Is(value),
            None => Side::Stops,
        }
    }

    pub fn is_constant(self) -> bool
        ensures { result ≡ is_constant_side self }
    {
        match self {
            Side::Varies => false,
            Side::Stops | Side::Is(_) => true,
        }
    }

    /// Whether it may stand on the right of a division.
    pub fn is_divisor(self) -> bool
        ensures { result ≡ is_divisor_side self }
    {
        match self {
            Side::Varies | Side::Stops => false,
            Side::Is(value) => is_divisor(value),
        }
    }

    /// The negation of what is known.
    pub fn negated(self) -> Side
        ensures { result ≡ negated self }
    {
        match self {
            Side::Is(value) => Side::constant(value.checked_neg()),
            _ => self,
        }
    }

    /// An operation on what is known.
    pub fn combined(op: Op, left: Side, right: Side) -> Side
        ensures { result ≡ combined op left right }
    {
        if !op.is_arithmetic() {
            return Side::Varies;
        }
        match (left, right) {
            (Side::Is(left), Side::Is(right)) => Side::constant(op.operation(left, right)),
            (Side::Varies, _) | (_, Side::Varies) => Side::Varies,
            _ => Side::Stops,
        }
    }
}
