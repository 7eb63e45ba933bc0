// What is open around the place that is read, and what was read last.

use sc_base::{Items, Name, Shared, Stack};
use sc_parse_grammar::{Frame, State};
use sc_tree::{
    Block, Declarator, Expr, External, InitDeclarator, Initializer, Specifiers, Statement,
};

/// A token with which a part of a statement ends.
#[derive(Clone, Copy, Debug, PartialEq, Eq)]
pub enum End {
    Semicolon,
    Paren,
    Colon,
}

/// A statement that begins with a controlling expression in parentheses (ANSI 3.6.4, 3.6.5.1).
#[derive(Clone, Copy, Debug, PartialEq, Eq)]
pub enum Test {
    If,
    Switch,
    While,
}

/// The parts of a statement that stand before the statement that is its last part.
#[derive(Drop)]
pub enum Head {
    /// An `if` and its condition; `else` may follow the statement.
    Then(u32, Shared<Expr>),
    /// The same, and what stands before `else`.
    Else(u32, Shared<Expr>, Shared<Statement>),
    Switch(u32, Shared<Expr>),
    While(u32, Shared<Expr>),
    For(u32, Option<Shared<Expr>>, Option<Shared<Expr>>, Option<Shared<Expr>>),
    Case(u32, Shared<Expr>),
    Default(u32),
    /// A label's line and name.
    Label(u32, Name),
}

/// A construct that is open, with the line of its first token and the parts that were read. Each statement that is open
/// is one of these.
#[derive(Drop)]
pub enum Around {
    /// The unit and its items so far.
    Unit(Items<External>),
    /// A function: its specifiers, its declarator and what its block has so far.
    Body(Specifiers, Declarator, Block),
    /// A declaration and its declarators so far.
    Declaration(Specifiers, Items<InitDeclarator>),
    /// A declarator whose initialiser is read.
    Initialized(u32, Declarator),
    /// Initialisers in braces.
    List(u32, Items<Initializer>),
    /// A block and what it has so far.
    Block(Block),
    /// The controlling expression is read.
    Test(Test, u32),
    /// The last part of a statement is a statement.
    Under(Head),
    /// The body of a `do`.
    Do(u32),
    /// Its condition: the body and the line of `while`.
    Until(u32, Shared<Statement>, u32),
    /// What comes first in a `for`.
    First(u32),
    /// Its condition.
    Second(u32, Option<Shared<Expr>>),
    /// What comes after each turn.
    Third(u32, Option<Shared<Expr>>, Option<Shared<Expr>>),
    /// The value of a `case`.
    Value(u32),
    /// The value of a `return`.
    Return(u32),
    /// A statement that is an expression.
    Expression,
}

/// What was read last.
#[derive(Drop)]
pub enum Stage {
    /// What stands at file scope, in a block or under a statement is due.
    Due,
    /// Words of the specifiers of a declaration.
    Specifiers(Stack<Frame>, State),
    /// A part of a declarator of a declaration.
    Declarator(Stack<Frame>, State),
    /// A part of an expression.
    Expression(Stack<Frame>, State),
    /// A plain name with which a statement begins: a label, if `:` follows.
    Name(u32, Name),
    /// The name of a type with which a declaration begins, or a statement, if `:` follows.
    TypeName(u32, Name),
    /// `goto` was read.
    Target(u32),
    /// An initialiser is due.
    Initial,
    /// An initialiser in braces.
    Closed(Initializer),
    /// `(` is due.
    LeftParen,
    /// An expression is due; where it may be left out, also the token behind it.
    Need,
    /// `:` is due.
    Colon,
    /// The statement lacks its `;`.
    Semicolon(Statement),
    /// A statement, which ends here where no `else` follows.
    Got(Statement),
    /// The unit ended.
    Over,
}
