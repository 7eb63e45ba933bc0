//! One step of the plain program on an expression, in place: exactly the step of the machine.
#![tactic(auto)]

mod arguments;
mod begin;
mod env;
mod next;
mod pairs;
mod singles;
mod stepping;

pub use arguments::{Call, call_out};
pub use env::Env;
pub use next::{Went, ended};
pub use stepping::step;
