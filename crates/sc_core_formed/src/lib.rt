//! What a checked module keeps: the laws of its typed trees, on which an interpreter and a code generator rest.
#![tactic(auto)]

mod contents;
mod expressions;
mod frames;
mod known;
mod module;
mod names;
mod open;
mod statements;

pub use module::is_formed;
pub use sc_core_needs::{Need, most_arguments, need_of, room};
