//! To which blocks the `goto` statements of a function may go: its labels, each with the block in whose list it stands (ANSI 3.6.1,
//! 3.6.6.1).
#![tactic(auto)]

mod labels;
mod targets;

pub use targets::{Targets, targets_of};
