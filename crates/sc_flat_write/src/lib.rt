//! Expressions are written as lists of instructions on registers.
#![tactic(auto)]

mod choices;
mod expression;
mod forms;
mod parts;

pub use expression::write_expression;
pub use parts::{Unwritten, Written};
