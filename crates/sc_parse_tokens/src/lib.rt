//! What each preprocessing token is to the grammar (ANSI 2.1.1.2, phase 7).
#![tactic(auto)]

mod listing;
mod literal;
mod number;
mod punctuator;
mod word;

pub use listing::symbols;
