//! What the machine of expressions takes is an expression of the grammar (ANSI 3.3).
#![tactic(auto)]

mod laws;

pub use laws::takes_expressions;
