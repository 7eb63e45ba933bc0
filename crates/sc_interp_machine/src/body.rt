// What is pending in a function's body (ANSI 3.6).

use crate::rest::{Labels, Pieces, Statements};
use crate::slot::{Focus, Slot};
use sc_base::{Shared, Stack};
use sc_core::{CoreExpr, CoreStmt};
use sc_meaning_values::{Value, Way};
use sc_types::CType;

/// What a statement does with the answer of its whole expression.
#[derive(Drop)]
pub enum Use {
    /// Nothing: the statement ends.
    Discard,
    /// Nothing: the loop's next turn begins.
    Turns(Shared<CoreStmt>),
    Return,
    /// Tests it, by its type, and takes one of two statements.
    If(CType, Shared<CoreStmt>, Option<Shared<CoreStmt>>),
    /// Tests it, and goes on with the loop's body.
    While(CType, Shared<CoreStmt>, Shared<CoreStmt>),
    /// Tests it, and goes on with the loop.
    Repeat(CType, Shared<CoreStmt>),
    /// Tests it, and goes on with the loop's body, and then with what comes after each turn.
    For(CType, Shared<CoreStmt>, Option<Shared<CoreExpr>>, Shared<CoreStmt>),
    /// Compares it with the labels of a `switch`.
    Switch(Labels, Shared<CoreStmt>),
    /// Sets a piece of an object by its offset, and goes on with the pieces that follow.
    Set(Value, u32, CType, Pieces),
    /// Copies a structure of this size, and goes on with the pieces that follow.
    Copy(Value, u32, Pieces),
}

/// A pending statement: what is done with the way in which the inner one is left.
#[derive(Drop)]
pub enum Pending {
    End,
    /// The block, and its statements that are still to be executed.
    Rest(Shared<CoreStmt>, Statements),
    /// The block's objects die: those behind so many blocks.
    EndBlock(usize),
    EndSwitch,
    Again(Shared<CoreStmt>),
    /// The line, the condition and the loop.
    Check(u32, Shared<CoreExpr>, Shared<CoreStmt>),
    Third(Option<Shared<CoreExpr>>, Shared<CoreStmt>),
}

/// What a body does next: an expression is evaluated; a statement, or one turn of a loop, begins; a statement is left; an
/// object's further pieces are set; a `switch`'s further labels are compared, where the last place found for `default` is known.
#[derive(Drop)]
pub enum Doing {
    Within(Focus, Stack<Slot>, Use),
    Exec(Shared<CoreStmt>),
    Turn(Shared<CoreStmt>),
    Leave(Way),
    Pieces(Value, Pieces),
    Labels(Labels, u32, Option<u32>, Shared<CoreStmt>),
}
