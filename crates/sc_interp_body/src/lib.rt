//! One step of the plain program on a function's body, in place: exactly the step of the machine.
#![tactic(auto)]

mod blocks;
mod moves;
mod pieces;
mod statements;
mod step;
mod uses;
mod ways;

pub use moves::Move;
pub use step::step_body;
