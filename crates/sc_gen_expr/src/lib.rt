//! The code of expressions: what the words of a text do for each construct of C, as instructions that are not placed yet.
#![tactic(auto)]

mod emit;
mod expressions;
mod words;

pub use emit::{Emit, Targets, fitted, gen_expr, lower_kind, write};
pub use expressions::{expression, test, test_back};
pub use words::symbolic_word;
