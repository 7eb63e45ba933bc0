//! The call that reads a unit (ANSI 3.7).
#![tactic(auto)]

mod machine;
mod stating;
mod whole;

pub use machine::advance;
pub use whole::{parse, unit};
