//! Values, what an expression gives, and how a statement is left, as the meaning of C has them. They name no memory, so
//! that every machine for C can hold them.
#![tactic(auto)]

mod answer;
mod value;
mod way;

pub use answer::{Answer, Held};
pub use value::{Shape, Value, same_key};
pub use way::{Exit, Way};
