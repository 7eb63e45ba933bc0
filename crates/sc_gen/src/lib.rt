//! The object of a module: sections, symbols, relocations and frames.
#![tactic(auto)]

mod blocks;
mod definitions;
mod literals;
mod module;
mod sections;
mod symbols;

pub use definitions::{Definition, Fixup};
pub use module::{
    Compiled, GenFault, MAX_FILE, MAX_WORDS, Making, begun, compile, finished, generate,
    put_function,
};
pub use symbols::Home;
