//! The code of statements and functions, over that of their expressions.
#![tactic(auto)]

mod frame;
mod functions;
mod initializers;
mod jumps;
mod statements;

pub use frame::FunctionFrame;
pub use functions::function;
pub use jumps::{Exits, LabelPlace, Place, Text};
