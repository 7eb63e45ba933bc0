//! Initialisers (ANSI 3.5.7): the pieces of an object that its initialiser gives, each in the type of its place, and the
//! contents of an object of static storage duration.
#![tactic(auto)]

mod contents;
mod fault;
mod lists;
mod places;
mod tree;
mod value;
mod whole;

pub use contents::zeros;
pub use tree::typed;
pub use whole::{automatic_initializer, static_initializer};
