// Expressions of the typed tree (ANSI 3.3). Each `line` is that of the construct's first token.
ghost use Rattle.std.specs.Prelude.{◌≡◌};
ghost use Rattle.sc_core.specs.Types as spec;

use sc_base::{Int, Items, Key, Op, Shared};
use sc_types::CType;

/// An operator before its operand that changes no object (ANSI 3.3.3.3): `+ - ~ !`.
#[derive(Clone, Copy, Debug, PartialEq, Eq)]
pub enum UnaryOperator {
    Plus,
    Minus,
    Complement,
    Not,
}

/// `++` and `--`, before their operand and behind it (ANSI 3.3.2.4, 3.3.3.1).
#[derive(Clone, Copy, Debug, PartialEq, Eq)]
pub enum Step {
    IncrementFirst,
    DecrementFirst,
    IncrementAfter,
    DecrementAfter,
}

/// An expression with its line and its type. Every conversion that C makes by itself is a `Convert`, and the operand of
/// one is never one. An expression is a place (of an object, or of a part of one), a function, or a value; the value of
/// an expression of structure type is its place. Sizes and offsets are in bytes.
#[derive(Drop)]
pub enum CoreExpr {
    /// A number: a constant, an enumeration constant, `sizeof`, `__offsetof` (3.1.3, 3.3.3.4). Its type is an integer type.
    Number(u32, CType, u32),
    /// A string literal, by its place among the module's literals (3.1.4).
    Literal(u32, CType, u32),
    /// A parameter or an automatic object: its block, and its place in it (3.1.2.4).
    Automatic(u32, CType, u32, u32),
    /// An object of static storage duration (3.1.2.4).
    Static(u32, CType, Key),
    /// A function (3.3.1).
    Function(u32, CType, Key),
    /// `a[b]`: the size of the element, and the operands, one of them a pointer and the other an integer (3.3.2.1).
    Index(u32, CType, u32, Shared<CoreExpr>, Shared<CoreExpr>),
    /// What is called, a pointer to a function, and the arguments (3.3.2.2).
    Call(u32, CType, Shared<CoreExpr>, Items<Shared<CoreExpr>>),
    /// `structure.member`: the member's offset (3.3.2.3).
    Member(u32, CType, u32, Shared<CoreExpr>),
    /// `pointer->member`: the member's offset (3.3.2.3).
    Arrow(u32, CType, u32, Shared<CoreExpr>),
    /// `++` and `--` on a place: the number that is added or taken away, the size of what a pointer points to, 1 for an integer.
    Step(u32, CType, Step, u32, Shared<CoreExpr>),
    /// `&operand` (3.3.3.2).
    Address(u32, CType, Shared<CoreExpr>),
    /// `*operand` (3.3.3.2).
    Indirection(u32, CType, Shared<CoreExpr>),
    /// The operand of `+`, `-` and `~` has the result's type, that of `!` is a scalar (3.3.3.3).
    Unary(u32, CType, UnaryOperator, Shared<CoreExpr>),
    /// A cast that is written (3.3.4).
    Cast(u32, CType, Shared<CoreExpr>),
    /// An operator, a shift or a comparison on two integers, each of which has its type by the usual conversions (3.3.5 to
    /// 3.3.12); the operation has the type of the left one.
    Binary(u32, CType, Op, Shared<CoreExpr>, Shared<CoreExpr>),
    /// `+` or `-` of a pointer and an integer: the size of what it points to (3.3.6). With `-` the pointer is on the left.
    Offset(u32, CType, Op, u32, Shared<CoreExpr>, Shared<CoreExpr>),
    /// The difference of two pointers: the size of what they point to (3.3.6).
    Difference(u32, CType, u32, Shared<CoreExpr>, Shared<CoreExpr>),
    /// A comparison of two pointers (3.3.8, 3.3.9).
    Compare(u32, CType, Op, Shared<CoreExpr>, Shared<CoreExpr>),
    /// `a && b` on scalars (3.3.13).
    And(u32, CType, Shared<CoreExpr>, Shared<CoreExpr>),
    /// `a || b` on scalars (3.3.14).
    Or(u32, CType, Shared<CoreExpr>, Shared<CoreExpr>),
    /// The condition and the two others (3.3.15).
    Conditional(u32, CType, Shared<CoreExpr>, Shared<CoreExpr>, Shared<CoreExpr>),
    /// `=` on scalars: the place, and the value in the place's type (3.3.16.1).
    Assign(u32, CType, Shared<CoreExpr>, Shared<CoreExpr>),
    /// `=` on structures: their size, and the two places (3.3.16.1).
    AssignStructure(u32, CType, u32, Shared<CoreExpr>, Shared<CoreExpr>),
    /// A compound assignment on integers: the operator, the type in which it works, the place, and the value in the type
    /// that the operator wants (3.3.16.2).
    Compound(u32, CType, Op, Int, Shared<CoreExpr>, Shared<CoreExpr>),
    /// `+=` and `-=` on a pointer: the size of what it points to, the place and the integer (3.3.16.2).
    CompoundOffset(u32, CType, Op, u32, Shared<CoreExpr>, Shared<CoreExpr>),
    /// `first, second` (3.3.17).
    Comma(u32, CType, Shared<CoreExpr>, Shared<CoreExpr>),
    /// What C converts by itself, once, to this type: the value that a place holds, an array to the address of its first
    /// element, a function to its address, an integer to another type, the constant 0 to null, a pointer to another
    /// pointer type (3.2).
    Convert(u32, CType, Shared<CoreExpr>),
}

/// The type of an expression.
pub fn type_of(e: &CoreExpr) -> &CType
    ensures { result.now ≡ spec.type_of e.now }
{
    match e {
        CoreExpr::Number(_, t, _) => t,
        CoreExpr::Literal(_, t, _) => t,
        CoreExpr::Automatic(_, t, _, _) => t,
        CoreExpr::Static(_, t, _) => t,
        CoreExpr::Function(_, t, _) => t,
        CoreExpr::Index(_, t, _, _, _) => t,
        CoreExpr::Call(_, t, _, _) => t,
        CoreExpr::Member(_, t, _, _) => t,
        CoreExpr::Arrow(_, t, _, _) => t,
        CoreExpr::Step(_, t, _, _, _) => t,
        CoreExpr::Address(_, t, _) => t,
        CoreExpr::Indirection(_, t, _) => t,
        CoreExpr::Unary(_, t, _, _) => t,
        CoreExpr::Cast(_, t, _) => t,
        CoreExpr::Binary(_, t, _, _, _) => t,
        CoreExpr::Offset(_, t, _, _, _, _) => t,
        CoreExpr::Difference(_, t, _, _, _) => t,
        CoreExpr::Compare(_, t, _, _, _) => t,
        CoreExpr::And(_, t, _, _) => t,
        CoreExpr::Or(_, t, _, _) => t,
        CoreExpr::Conditional(_, t, _, _, _) => t,
        CoreExpr::Assign(_, t, _, _) => t,
        CoreExpr::AssignStructure(_, t, _, _, _) => t,
        CoreExpr::Compound(_, t, _, _, _, _) => t,
        CoreExpr::CompoundOffset(_, t, _, _, _, _) => t,
        CoreExpr::Comma(_, t, _, _) => t,
        CoreExpr::Convert(_, t, _) => t,
    }
}
