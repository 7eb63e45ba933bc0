//! The productions of expressions with several operands: operators between two, the conditional, assignments and the comma.
#![tactic(auto)]

mod choice;
mod law;
mod operators;
mod storing;

pub use choice::{Choice, conditional};
pub use law::makes_formed;
pub use operators::{Class, Plan, binary, class_of, comma};
pub use storing::{Change, Target, assignment, compound};
