//! Objects written as ELF files.
#![tactic(auto)]

mod frames;
mod layout;
mod parts;
mod relocations;
mod sections;
mod symbols;
mod word;
mod writing;

pub use relocations::relas;
pub use sections::prefix;
pub use writing::{write_as, write_object};
