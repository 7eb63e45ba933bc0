//! The recursion of the checker over expressions, and over the type names, specifiers and declarators that stand in them
//! (ANSI 3.3, 3.4, 3.5.2, 3.5.4, 3.5.5).
#![tactic(auto)]

mod check;
mod defining;
mod line;
mod parts;

pub use check::{constant, declarator, expression, parameters, specifiers, type_name};
pub use defining::definition;
pub use line::line_of;
