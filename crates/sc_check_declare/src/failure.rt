// Why a declaration is refused, while no text for it is made yet.
ghost use Rattle.std.specs.Prelude.{◌≡◌, IfOk};
ghost use Rattle.sc_check_declare.specs.Outcomes.{Tells, word};
ghost use Rattle.sc_check_declare.specs.Outcomes as spec;

use sc_base::{Bytes, Fault, NoMemory, Refusal, X};
use std::alloc::Global;

/// The causes of refusal.
#[derive(Clone, Copy, Debug, PartialEq, Eq)]
pub enum Reason {
    /// A rule of types or declarations fails (X7).
    Rule,
    /// A constant is wanted (X8).
    NotConstant,
    /// A structure as parameter or result (X9 `structvalue`).
    StructureValue,
    /// `main` with parameters, or no function that gives `int` (X9 `main`).
    Main,
    /// A definition of a library name with external linkage (X9 `libraryname`).
    LibraryName,
    /// More derivations inside one another, or more types in it, than a type may have (X10 `height`).
    Height,
    /// An object that is too large (X10 `size`).
    Size,
    /// A frame that is too large (X10 `frame`).
    Frame,
}

/// A cause, with the line where it stands.
#[derive(Clone, Copy, Debug, PartialEq, Eq)]
pub struct Refused {
    pub reason: Reason,
    pub line: u32,
}

/// A refusal, or want of memory.
#[derive(Clone, Copy, Debug, PartialEq, Eq)]
pub enum Failure {
    Refused(Refused),
    NoMemory,
}

impl From<NoMemory> for Failure {
    ghost use Rattle.std.specs.Prelude.{◌≡◌};
    ghost use Rattle.sc_check_declare.specs.declared.failure.Failure.TheVariants.{NoMemory as Lacking};

    ghost from_gives = { λ _ e. e ≡ Lacking };

    fn from(_: NoMemory) -> Failure {
        Failure::NoMemory
    }
}

/// The refusal for this cause.
pub fn refusal(reason: Reason, line: u32) -> Failure
    ensures { result ≡ spec.refusal reason line }
{
    Failure::Refused(Refused { reason, line })
}

fn kind(alloc: Global, reason: Reason) -> Result<X, NoMemory>
    ensures { IfOk result (λ x. x ≡ word reason) }
{
    match reason {
        Reason::Rule => Ok(X::X7),
        Reason::NotConstant => Ok(X::X8),
        Reason::StructureValue => Ok(X::X9(Bytes::from_slice(alloc, b"structvalue")?)),
        Reason::Main => Ok(X::X9(Bytes::from_slice(alloc, b"main")?)),
        Reason::LibraryName => Ok(X::X9(Bytes::from_slice(alloc, b"libraryname")?)),
        Reason::Height => Ok(X::X10(Bytes::from_slice(alloc, b"height")?)),
        Reason::Size => Ok(X::X10(Bytes::from_slice(alloc, b"size")?)),
        Reason::Frame => Ok(X::X10(Bytes::from_slice(alloc, b"frame")?)),
    }
}

/// The refusal of translation that a cause stands for; its file stays empty.
pub fn told(alloc: Global, failure: Failure) -> Fault
    ensures { Tells failure result }
{
    match failure {
        Failure::NoMemory => Fault::NoMemory,
        Failure::Refused(refused) => match kind(alloc, refused.reason) {
            Ok(kind) => Fault::Refused(Refusal {
                kind,
                file: Bytes::from_vec(Vec::new(alloc)),
                line: refused.line,
            }),
            Err(_) => Fault::NoMemory,
        },
    }
}
