// Statements of the typed tree (ANSI 3.6). Each `line` is that of the statement's first token.

use crate::expression::CoreExpr;
use sc_base::{Bytes, Items, Shared};
use sc_types::CType;

/// One piece of an automatic object's initialiser (ANSI 3.5.7), in the order of offsets. Offsets and sizes are in bytes.
#[derive(Drop)]
pub enum AutoInit {
    /// A scalar: its offset, its type, and a value of this type.
    Value(u32, CType, Shared<CoreExpr>),
    /// The bytes of a string: the offset of the first.
    Text(u32, Bytes),
    /// Bytes that are zero since their items are missing: the offset of the first, and their number.
    Zero(u32, u32),
    /// The whole object takes what a structure holds: its size, and the structure's place.
    Structure(u32, Shared<CoreExpr>),
}

/// A label of a `switch` (ANSI 3.6.1): its value, `None` for `default`, and the place of its statement in the body's list.
#[derive(Clone, Copy, Debug, PartialEq, Eq)]
pub struct SwitchLabel {
    pub value: Option<u32>,
    pub at: u32,
}

/// A label that stands in a block's list (ANSI 3.6.1): its number in the function, and the place in this list of the
/// statement that it labels. A function's labels are counted from 0 in the order in which they are first named.
#[derive(Clone, Copy, Debug, PartialEq, Eq)]
pub struct LabelAt {
    pub label: u32,
    pub at: u32,
}

/// A statement, with its line. A block has a number: the parameters are block 0, the body is block 1, and the blocks
/// inside are counted on in the order in which they begin.
#[derive(Drop)]
pub enum CoreStmt {
    /// `{ .. }`: the block's number, the labels that stand in its list, and its initialised automatic objects and
    /// statements in order (3.6.2).
    Block(u32, u32, Items<LabelAt>, Items<Shared<CoreStmt>>),
    /// An automatic object that has an initialiser: its block, its place in it, and the pieces; the line is that of its
    /// name (3.5.7).
    Initialize(u32, u32, u32, Items<AutoInit>),
    /// `;` (3.6.3).
    Empty(u32),
    /// `expression;` (3.6.3).
    Expression(u32, Shared<CoreExpr>),
    /// The condition, the statement and the one behind `else` (3.6.4.1).
    If(u32, Shared<CoreExpr>, Shared<CoreStmt>, Option<Shared<CoreStmt>>),
    /// The controlling expression in its promoted type, the labels in their order, and the body. Where the body is no block,
    /// it is a list of itself alone (3.6.4.2).
    Switch(u32, Shared<CoreExpr>, Items<SwitchLabel>, Shared<CoreStmt>),
    /// The condition and the body (3.6.5.1).
    While(u32, Shared<CoreExpr>, Shared<CoreStmt>),
    /// The body, the line of `while`, and the condition (3.6.5.2).
    Do(u32, Shared<CoreStmt>, u32, Shared<CoreExpr>),
    /// What comes first, the condition, what comes after each turn, and the body (3.6.5.3).
    For(
        u32,
        Option<Shared<CoreExpr>>,
        Option<Shared<CoreExpr>>,
        Option<Shared<CoreExpr>>,
        Shared<CoreStmt>,
    ),
    /// A statement behind `case` (3.6.1); the values stand in the `Switch`.
    Case(u32, Shared<CoreStmt>),
    /// The statement behind `default` (3.6.1).
    Default(u32, Shared<CoreStmt>),
    /// A statement behind a label (3.6.1). Where it stands in a block's list, the block says which label it is.
    Label(u32, Shared<CoreStmt>),
    /// `goto`: the number of the label in its function (3.6.6.1).
    Goto(u32, u32),
    /// `continue;` (3.6.6.2).
    Continue(u32),
    /// `break;` (3.6.6.3).
    Break(u32),
    /// `return`, with a value of the function's result type where one is given (3.6.6.4).
    Return(u32, Option<Shared<CoreExpr>>),
}
