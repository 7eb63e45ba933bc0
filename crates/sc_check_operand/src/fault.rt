// Why a construct is refused.
ghost use Rattle.std.specs.Prelude.{◌≡◌, IfOk};
ghost use Rattle.sc_check_operand.specs.Causes as spec;

use sc_base::{Bytes, NoMemory, X};
use std::alloc::Global;

/// A rule of typing that fails.
#[derive(Clone, Copy, Debug, PartialEq, Eq)]
pub enum Cause {
    /// A name has no declaration in scope (X6).
    Undeclared,
    /// A rule of types fails (X7).
    Mismatch,
    /// A constant is wanted (X8).
    NotConstant,
    /// A conversion between a pointer and an integer (X9 `ptrint`).
    PointerInteger,
    /// A cast between a pointer to a function and one to an object (X9 `funptr`).
    FunctionPointer,
    /// `printf` is used otherwise than as what a call names (X9 `printf`).
    Printf,
    /// An object would be too large (X10 `size`).
    Size,
}

/// The refusal of what this core of the language leaves out, by its word.
///
/// # Errors
///
/// `NoMemory` alone.
pub fn left_out(alloc: Global, word: &[u8]) -> Result<X, NoMemory>
    ensures { IfOk result (λ x. x ≡ X.X9 word.now) }
{
    Ok(X::X9(Bytes::from_slice(alloc, word)?))
}

/// The refusal of what passes a limit, by its word.
///
/// # Errors
///
/// `NoMemory` alone.
pub fn limit(alloc: Global, word: &[u8]) -> Result<X, NoMemory>
    ensures { IfOk result (λ x. x ≡ X.X10 word.now) }
{
    Ok(X::X10(Bytes::from_slice(alloc, word)?))
}

/// The kind of refusal of a rule that fails.
pub fn kind_of(alloc: Global, cause: Cause) -> Result<X, NoMemory>
    ensures { IfOk result (λ x. x ≡ spec.kind_of cause) }
{
    match cause {
        Cause::Undeclared => Ok(X::X6),
        Cause::Mismatch => Ok(X::X7),
        Cause::NotConstant => Ok(X::X8),
        Cause::PointerInteger => left_out(alloc, b"ptrint"),
        Cause::FunctionPointer => left_out(alloc, b"funptr"),
        Cause::Printf => left_out(alloc, b"printf"),
        Cause::Size => limit(alloc, b"size"),
    }
}

/// The rule that a construct breaks, and the line of its first token.
#[derive(Clone, Copy, Debug, PartialEq, Eq)]
pub struct Diagnostic {
    pub cause: Cause,
    pub line: u32,
}

/// Why a construct has no typed tree.
#[derive(Clone, Copy, Debug, PartialEq, Eq)]
pub enum TypeFault {
    Diagnosed(Diagnostic),
    NoMemory,
}

impl From<NoMemory> for TypeFault {
    ghost use Rattle.sc_check_operand.specs.declared.fault.TypeFault.TheVariants as f;

    ghost from_gives = { λ _ e. e ≡ f.NoMemory };

    fn from(_: NoMemory) -> TypeFault {
        TypeFault::NoMemory
    }
}

/// The refusal of a construct of this line.
pub fn refusal(cause: Cause, line: u32) -> TypeFault
    ensures { result ≡ TypeFault.Diagnosed (record { cause = cause; line = line }) }
{
    TypeFault::Diagnosed(Diagnostic { cause, line })
}

/// The refusal of a construct of this line by a rule of types.
pub fn mismatch(line: u32) -> TypeFault
    ensures { result ≡ TypeFault.Diagnosed (record { cause = Cause.Mismatch; line = line }) }
{
    refusal(Cause::Mismatch, line)
}
