//! Functions as lists of instructions on registers, each of which is a move of the machine.
#![tactic(auto)]

mod draft;
mod instruction;

pub use draft::Draft;
pub use instruction::{Instruction, Operation};
