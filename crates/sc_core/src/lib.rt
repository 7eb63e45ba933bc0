//! The typed tree of a module, in which every conversion is written out, and the meaning of C on it.
#![tactic(auto)]

mod expression;
mod module;
mod statement;

pub use expression::{CoreExpr, Step, UnaryOperator, type_of};
pub use module::{Auto, Core, Declared, Fun, Init, StaticObj};
pub use statement::{AutoInit, CoreStmt, LabelAt, SwitchLabel};
