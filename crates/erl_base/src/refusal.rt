ghost use Rattle.erl_base.specs.declared.refusal.Fault.TheVariants.{NoMemory as OutOfMemory};
ghost use Rattle.std.specs.Prelude.{◌≡◌};

use crate::ids::Place;
use crate::memory::NoMemory;
use std::alloc::{AllocError, AllocFailed};
use thiserror::Error;

/// A fault of names, degrees or guards.
#[derive(Clone, Copy, Debug, PartialEq, Eq)]
pub enum ScopeFault {
    UnboundVariable,
    UnboundFunction,
    DoubledVariable,
    DoubledFunction,
    MissingExport,
    WrongArity,
    WrongDegree,
    ClauseWidth,
    GuardForm,
}

/// A form outside the supported subset. `NotBuilt` is a form that the compiler does not build yet.
#[derive(Clone, Copy, Debug, PartialEq, Eq)]
pub enum Outside {
    Float,
    Primop,
    FloatFunction,
    SegmentType,
    Native,
    SegmentForm,
    NotBuilt,
}

/// A size that has a limit.
#[derive(Clone, Copy, Debug, PartialEq, Eq)]
pub enum LimitName {
    Integer,
    Atom,
    Arity,
    Nodes,
    Definitions,
    Receive,
    Nesting,
}

/// Why a text is refused; a limit comes with the count that passed it.
#[derive(Clone, Copy, Debug, PartialEq, Eq)]
pub enum Kind {
    TooLarge,
    NotUtf8,
    Syntax,
    Scope(ScopeFault),
    Profile(Outside),
    Limit(LimitName, u64),
    AsmSyntax,
    Script,
}

/// A refusal of a text and its place; `TooLarge` and `Script` have place 0, 0.
#[derive(Clone, Copy, Debug, PartialEq, Eq)]
pub struct Refusal {
    pub kind: Kind,
    pub place: Place,
}

/// Why a call on a text gives no answer.
#[derive(Clone, Copy, Debug, PartialEq, Eq, Error)]
pub enum Fault {
    #[error("refused")]
    Refused(Refusal),
    #[error("out of memory")]
    NoMemory,
}

impl From<NoMemory> for Fault {
    ghost from_gives = { λ _ fault. fault ≡ OutOfMemory };

    fn from(_refused: NoMemory) -> Fault {
        Fault::NoMemory
    }
}

impl From<AllocError> for Fault {
    ghost from_gives = { λ _ fault. fault ≡ OutOfMemory };

    fn from(_refused: AllocError) -> Fault {
        Fault::NoMemory
    }
}

impl<T: Drop> From<AllocFailed<T>> for Fault {
    ghost from_gives = { λ _ fault. fault ≡ OutOfMemory };

    fn from(_refused: AllocFailed<T>) -> Fault {
        Fault::NoMemory
    }
}
