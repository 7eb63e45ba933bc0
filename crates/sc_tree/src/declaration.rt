// Declarations (ANSI 3.5). Each `line` is that of the construct's first token.

use crate::expression::{Declarator, Expr, Specifiers};
use sc_base::{Items, Shared};

/// An initialiser (ANSI 3.5.7): an expression, or a list of at least one in braces.
#[derive(Drop)]
pub enum Initializer {
    Expression(u32, Shared<Expr>),
    List(u32, Items<Initializer>),
}

/// A declarator, with its initialiser where one is written.
#[derive(Drop)]
pub struct InitDeclarator {
    pub line: u32,
    pub declarator: Declarator,
    pub initializer: Option<Initializer>,
}

/// A declaration (ANSI 3.5).
#[derive(Drop)]
pub struct Declaration {
    pub line: u32,
    pub specifiers: Specifiers,
    pub declarators: Items<InitDeclarator>,
}
