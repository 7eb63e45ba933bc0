// What is pending in an expression (ANSI 3.3).

use crate::rest::Arguments;
use sc_base::{Int, Items, Op, Shared};
use sc_core::{CoreExpr, Step, UnaryOperator};
use sc_meaning_values::{Answer, Value};
use sc_types::CType;

/// What is done with the answer of an only operand, or of the last one that is evaluated. Offsets and sizes are in bytes.
#[derive(Drop)]
pub enum Single {
    /// It is the whole expression's.
    Whole,
    /// It is tested, by its type.
    Truth(CType),
    Member(u32),
    Arrow(u32),
    /// `++` and `--`: what is added, and the type of the place.
    Increment(Step, u32, CType),
    Address,
    Indirection,
    Unary(UnaryOperator, CType),
    Cast(CType),
    /// From a type to a type.
    Convert(CType, CType),
    /// A call came back with it.
    Back,
}

/// What is done with two values, whose types are known.
#[derive(Drop)]
pub enum Pair {
    Index(u32, CType, CType),
    Binary(Op, CType, CType),
    Offset(Op, u32, CType, CType),
    Difference(u32),
    Compare(Op),
}

/// What is done with a place and the value on its right, whose types are known.
#[derive(Drop)]
pub enum Store {
    Assign(CType),
    Compound(Op, Int, CType, CType),
    Move(Op, u32, CType, CType),
}

/// A pending item: what is done with the next answer. `Right`, `StoreRight`, `StructureRight` and `Then` have the operand
/// that follows, the items with `Now` what came before; `And`, `Or` and `Choice` have the operands of which one may
/// follow; `Callee` awaits the function that is called, and `Argument` one more argument.
#[derive(Drop)]
pub enum Item {
    Alone(Single),
    Right(Pair, Shared<CoreExpr>),
    Now(Pair, Value),
    StoreRight(Store, Shared<CoreExpr>),
    StoreNow(Store, Answer),
    StructureRight(u32, Shared<CoreExpr>),
    StructureNow(u32, Answer),
    And(CType, CType, Shared<CoreExpr>),
    Or(CType, CType, Shared<CoreExpr>),
    Choice(CType, Shared<CoreExpr>, Shared<CoreExpr>),
    Then(Shared<CoreExpr>),
    Callee(CType, Arguments),
    Argument(CType, Value, Arguments, Items<Value>),
}

/// An expression is to be evaluated, or an answer is given to what is pending.
#[derive(Drop)]
pub enum Mode {
    Eval(Shared<CoreExpr>),
    Give(Answer),
}
