//! ELF files read as objects.
#![tactic(auto)]

mod bytes;
mod field;
mod piece;
mod reading;
mod saber;
mod spellable;
mod tables;

pub use field::{ElfFault, Field};
pub use reading::{read_object, version};
pub use spellable::is_spellable_in;
