//! The tree of a unit: one struct or variant for each production of the grammar of C (ANSI 3.3 to 3.7), and its sizes.
#![tactic(auto)]

mod declaration;
mod evaluation;
mod expression;
mod nodes;
mod operator;
mod statement;

pub use declaration::{Declaration, InitDeclarator, Initializer};
pub use evaluation::room;
pub use expression::{
    Constant, Declarator, Derivation, Enumerator, Expr, Identifier, Member, Parameter, Specifiers,
    Storage, TypeName, TypeWord, is_typedef,
};
pub use nodes::node_count;
pub use operator::{Binary, Postfix, Unary};
pub use statement::{Block, External, Function, Statement, Unit};
