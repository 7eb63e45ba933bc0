// Why a list is not expanded, or a definition not taken, while no text for it is made yet.
ghost use Rattle.std.specs.Prelude.{◌≡◌, IfOk};
ghost use Rattle.sc_macro.specs.Refusals.{Tells, word};

use sc_base::{Bytes, Fault, NoMemory, Refusal, X};
use std::alloc::Global;

/// The causes of refusal.
#[derive(Clone, Copy)]
pub enum Reason {
    /// A malformed definition (X2).
    Malformed,
    /// An unclosed call, a wrong number of arguments, or a different redefinition (X3).
    Misuse,
    /// A pasted text that is no token (X9 `paste`).
    Paste,
    /// Too many replacements, or arguments too deep in each other (X10 `macros`).
    Macros,
    /// A pasted identifier that is too long (X10 `identifier`).
    Identifier,
}

/// A cause, with the line where it stands.
#[derive(Clone, Copy)]
pub struct Refused {
    pub reason: Reason,
    pub line: u32,
}

/// A refusal, or want of memory.
#[derive(Clone, Copy)]
pub enum Failure {
    Refused(Refused),
    NoMemory,
}

impl From<NoMemory> for Failure {
    ghost use Rattle.std.specs.Prelude.{◌≡◌};
    ghost use Rattle.sc_macro.specs.declared.failure.Failure.TheVariants.{NoMemory as Lacking};

    ghost from_gives = { λ _ e. e ≡ Lacking };

    fn from(_: NoMemory) -> Failure {
        Failure::NoMemory
    }
}

fn kind(alloc: Global, reason: Reason) -> Result<X, NoMemory>
    ensures { IfOk result (λ x. x ≡ word reason) }
{
    match reason {
        Reason::Malformed => Ok(X::X2),
        Reason::Misuse => Ok(X::X3),
        Reason::Paste => Ok(X::X9(Bytes::from_slice(alloc, b"paste")?)),
        Reason::Macros => Ok(X::X10(Bytes::from_slice(alloc, b"macros")?)),
        Reason::Identifier => Ok(X::X10(Bytes::from_slice(alloc, b"identifier")?)),
    }
}

/// The refusal of a cause; its file stays empty.
pub fn fault(alloc: Global, failure: Failure) -> Fault
    ensures { Tells failure result }
{
    match failure {
        Failure::NoMemory => Fault::NoMemory,
        Failure::Refused(refused) => match kind(alloc, refused.reason) {
            Ok(kind) => Fault::Refused(Refusal {
                kind,
                file: Bytes::from_vec(Vec::new(alloc)),
                line: refused.line,
            }),
            Err(_) => Fault::NoMemory,
        },
    }
}
