//! What a token is to the grammar, and the names of types that are in scope.
#![tactic(auto)]

mod kind;
mod latest;
mod scopes;

pub use kind::{Kind, Mark, Symbol};
pub use scopes::{Entry, TypeNames};
