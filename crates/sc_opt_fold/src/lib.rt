//! Constants are folded: the typed tree with the numbers that integer operators and conversions of numbers give.
#![tactic(auto)]

mod constants;
mod copies;
mod expressions;
mod functions;
mod nodes;
mod statements;

pub use expressions::fold_expr;
pub use functions::{fold, fold_function};
pub use statements::fold_statement;
