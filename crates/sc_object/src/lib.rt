//! A compiled module as an object, and the bytes of its file.
#![tactic(auto)]

mod object;
mod part;
mod spellable;

pub use object::{BlockTable, FrameTable, Object, Reloc, Section, SectionKind, Symbol};
pub use part::{Laid, Part, Rela, SymbolTable};
pub use spellable::is_kind;
