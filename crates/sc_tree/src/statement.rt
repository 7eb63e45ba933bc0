// Statements, functions and units (ANSI 3.6, 3.7). Each `line` is that of the construct's first token.

use crate::declaration::Declaration;
use crate::expression::{Declarator, Expr, Specifiers};
use sc_base::{Items, Name, Shared};

/// A statement (ANSI 3.6), each with its line.
#[derive(Drop)]
pub enum Statement {
    /// `{ .. }`: declarations and statements (3.6.2).
    Block(u32, Items<Declaration>, Items<Statement>),
    /// `;` (3.6.3).
    Empty(u32),
    /// `expression;` (3.6.3).
    Expression(u32, Shared<Expr>),
    /// The condition, the statement and the one behind `else` (3.6.4.1).
    If(u32, Shared<Expr>, Shared<Statement>, Option<Shared<Statement>>),
    Switch(u32, Shared<Expr>, Shared<Statement>),
    While(u32, Shared<Expr>, Shared<Statement>),
    /// The body, the line of `while` and the condition (3.6.5.2).
    Do(u32, Shared<Statement>, u32, Shared<Expr>),
    /// What comes first, the condition, what comes after each turn, and the body (3.6.5.3).
    For(u32, Option<Shared<Expr>>, Option<Shared<Expr>>, Option<Shared<Expr>>, Shared<Statement>),
    Case(u32, Shared<Expr>, Shared<Statement>),
    Default(u32, Shared<Statement>),
    /// `name: statement`: the name and the statement that it labels (3.6.1).
    Label(u32, Name, Shared<Statement>),
    /// `goto name;` (3.6.6.1).
    Goto(u32, Name),
    Continue(u32),
    Break(u32),
    Return(u32, Option<Shared<Expr>>),
}

/// The block of a function (ANSI 3.6.2).
#[derive(Drop)]
pub struct Block {
    pub line: u32,
    pub declarations: Items<Declaration>,
    pub statements: Items<Statement>,
}

/// A function with its body (ANSI 3.7.1).
#[derive(Drop)]
pub struct Function {
    pub line: u32,
    pub specifiers: Specifiers,
    pub declarator: Declarator,
    pub body: Block,
}

/// What stands at file scope (ANSI 3.7).
#[derive(Drop)]
pub enum External {
    Function(Function),
    Declaration(Declaration),
}

/// A translation unit (ANSI 3.7), which may be empty.
#[derive(Drop)]
pub struct Unit {
    pub items: Items<External>,
}
