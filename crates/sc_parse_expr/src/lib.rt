//! The machine that reads expressions, type names, specifiers and declarators, one token at a time.
#![tactic(auto)]

mod body;
mod declarator;
mod driver;
mod machine;
mod operand;
mod words;

pub use driver::{Found, Refused, Turn, expression, opens_with};
pub use machine::{is_typed, step};
