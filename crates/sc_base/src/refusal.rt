// Why a text is refused.

ghost use Rattle.std.specs.Prelude.{◌≡◌};

use crate::{Bytes, NoMemory};

/// The kinds of refusals of translation. `X9` carries the word of a construct that is left out, `X10` that of a
/// limit.
#[derive(Debug, Drop, PartialEq, Eq)]
pub enum X {
    /// A comment is not closed.
    X1,
    /// A directive is malformed, unknown or unbalanced.
    X2,
    /// A macro is used or defined against its rules.
    X3,
    /// An included file is not there.
    X4,
    /// The tokens are not in the grammar.
    X5,
    /// A name has no declaration in scope.
    X6,
    /// A rule of types fails.
    X7,
    /// A constant expression is wanted.
    X8,
    X9(Bytes),
    X10(Bytes),
}

/// A refusal of translation: its kind, and the place in a file. The first line is 1.
#[derive(Debug, Drop, PartialEq, Eq)]
pub struct Refusal {
    pub kind: X,
    pub file: Bytes,
    pub line: u32,
}

/// Why a phase of translation gives nothing.
#[derive(Debug, Drop, PartialEq, Eq)]
pub enum Fault {
    Refused(Refusal),
    NoMemory,
}

impl From<NoMemory> for Fault {
    ghost use Rattle.sc_base.specs.declared.refusal.Fault.TheVariants as f;

    ghost from_gives = { λ _ e. e ≡ f.NoMemory };

    fn from(_: NoMemory) -> Fault {
        Fault::NoMemory
    }
}
