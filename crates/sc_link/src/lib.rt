//! Linking: the image of a list of placed modules, their functions, objects, literals and relocated texts.
#![tactic(auto)]

mod collect;
mod laws;
mod linking;
mod literals;
mod placed;
mod relocating;
mod relocation;
mod steps;
mod symbol;

pub use collect::{
    add_jumps, add_literals, add_statics, add_texts, copies, jumps_in, literals_in, statics_in,
    texts_in,
};
pub use laws::patches_over;
pub use linking::link;
pub use literals::put_literals;
pub use placed::{
    Area, LinkFault, LiteralAt, MOST_FUNCTIONS, Placed, STATICS, STATICS_END, TEXTS, TEXTS_END,
};
pub use relocating::{bases_of, relocate, relocate_entry, relocate_one};
pub use relocation::{relocated, target_of, words_of};
pub use steps::{put_functions, put_statics, put_texts, set_jumps};
pub use symbol::{is_literal, is_text, key_of, literal_of, place_of, section_of, static_of};

#[cfg(test)]
mod tests;
