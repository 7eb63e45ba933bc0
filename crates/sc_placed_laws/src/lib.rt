//! Laws of compiled code as it is placed: each of its words is an instruction.
#![tactic(auto)]

mod laws;

pub use laws::{code_is_sound, entries_stand, objects_are_made, texts_are_apart, words_have_texts};
