//! What may be wrong with a tree.

ghost use Rattle.std.specs.Prelude.{◌≡◌};
ghost use Rattle.c_typing.specs.Texts.{type_fault_text};
ghost use Rattle.c_typing.specs.declared.fault.TypeError.TheVariants.{Memory};

use c_tree::tree::Pos;
use std::alloc::{AllocError, AllocFailed};
use thiserror::Error;

/// How many procedures a file may have.
pub const MAX_PROCEDURES: usize = 64;

/// How many parameters a procedure may have.
pub const MAX_PARAMETERS: usize = 8;

/// How many variables a procedure may have, its parameters among them.
pub const MAX_VARIABLES: usize = 24;

/// How many globals a file may have.
pub const MAX_GLOBALS: usize = 16;

/// How many assertions a file may have.
pub const MAX_ASSERTIONS: usize = 64;

/// The greatest magnitude of a divisor.
pub const MAX_DIVISOR: u64 = 1_099_511_627_776;

/// A limit of the language.
#[derive(Clone, Copy, PartialEq, Eq, Debug)]
pub enum Which {
    /// `MAX_PROCEDURES`; the place is the name of the first procedure past it.
    Procedures,
    /// `MAX_PARAMETERS`; the place is the first parameter past it.
    Parameters,
    /// `MAX_VARIABLES`, or `MAX_GLOBALS`; the place is the first declared name past it.
    Variables,
    /// The tokens of a procedure, which the parser counts; the place is the first token past them.
    Tokens,
    /// `MAX_ASSERTIONS`; the place is the first `assert` past it.
    Assertions,
}

/// A fault, in the order in which faults at one place are reported.
#[derive(Clone, Copy, PartialEq, Eq, Debug)]
pub enum TypeFault {
    UnknownName,
    Duplicate,
    WrongCount,
    VoidValue,
    NotLinear,
    NoMain,
    MainShape,
    OutsideLoop,
    OverLimit(Which),
    BadDivisor,
}

impl TypeFault {
    /// The text of a refusal for this fault.
    pub fn text(self) -> &'static str
        ensures { result.now ≡ type_fault_text self }
    {
        match self {
            TypeFault::UnknownName => "unknown name",
            TypeFault::Duplicate => "duplicate name",
            TypeFault::WrongCount => "wrong number of arguments",
            TypeFault::VoidValue => "void used as value",
            TypeFault::NotLinear => "product of two non-constants",
            TypeFault::NoMain => "no main",
            TypeFault::MainShape => "main has the wrong shape",
            TypeFault::OutsideLoop => "break or continue outside a loop",
            TypeFault::OverLimit(Which::Procedures) => "too many procedures",
            TypeFault::OverLimit(Which::Parameters) => "too many parameters",
            TypeFault::OverLimit(Which::Variables) => "too many variables",
            TypeFault::OverLimit(Which::Tokens) => "too many tokens",
            TypeFault::OverLimit(Which::Assertions) => "too many assertions",
            TypeFault::BadDivisor => "divisor not allowed",
        }
    }
}

/// Why there is no program.
#[derive(Clone, Copy, PartialEq, Eq, Debug, Error)]
pub enum TypeError {
    /// The fault of the first position; at one position the first in the order of `TypeFault`.
    #[error("{}:{}: {text}", .1.line, .1.column, text = .0.text())]
    Refused(TypeFault, Pos),
    #[error("out of memory")]
    Memory,
}

impl From<AllocError> for TypeError {
    ghost from_gives = { λ _ e. e ≡ Memory };

    fn from(_error: AllocError) -> TypeError {
        TypeError::Memory
    }
}

impl<T: Drop> From<AllocFailed<T>> for TypeError {
    ghost from_gives = { λ _ e. e ≡ Memory };

    fn from(_error: AllocFailed<T>) -> TypeError {
        TypeError::Memory
    }
}
